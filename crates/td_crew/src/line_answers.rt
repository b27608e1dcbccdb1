//! The words of the answers to a script's lines. They are made of the desk's own values alone: of
//! what its calls answer, and of what was seen under its lock. No other body can write one.
ghost use Rattle.std.specs.Prelude.{◌≡◌, ◌++◌, ◌∷◌, ◌<◌, [], ℕ, false, Ok, Err, None, Some, IfNone};
ghost use Rattle.std.specs.Prelude.{IfOk, IfSome, IsOkAnd, OnOk, codes, map, string_bytes};
ghost use Rattle.td_text.specs.Lines.{left_len, lines_left};
ghost use Rattle.td_relation.specs.TableView.{table};
ghost use Rattle.td_wbread.specs.Command.{command_at};
ghost use Rattle.td_wbread.specs.FaultNames.{name_of};
ghost use Rattle.td_wbread.specs.declared.fault.CommandFault.TheVariants.{Wrong};
ghost use Rattle.td_wbread.specs.Views.{parts_of};
ghost use Rattle.td_script.specs.declared.line.Said.TheVariants.{Asked, Bad, Typed};
ghost use Rattle.td_script.specs.declared.request.Request.TheVariants as requests;
ghost use Rattle.td_script.specs.Reading.{said_at};
ghost use Rattle.td_script.specs.Replies.{ended, refusal_line};
ghost use Rattle.td_script.specs.Replying.{IsPut, IsUndoPut};
ghost use Rattle.td_crew.specs.Replies.{IsArrivalTold, IsCommandTold, request_of};

use crate::lines::Lines;
use crate::shown::{Look, Shown, SweptLook, put_shown};
use std::alloc::{AllocError, Global};
use std::marker::PhantomData;
use td_builder::Tells;
use td_desk::{Arrived, Commanded, Named, Seen, Swept, Undone};
use td_journal::EntryNo;
use td_rows::Key;
use td_script::{
    Reports, put_arrival_refusal, put_command_refusal, put_refusal, put_skips, put_taken, put_undo,
};
use td_text::next_line;
use td_wbread::LineFault;

/// The line of a script that is being answered, and what follows it.
#[derive(Clone, Copy)]
pub struct LineTurn<'s> {
    script: &'s str,
    line: &'s str,
    rest: Option<&'s str>,
}

/// The answers so far, and whose turn it is. Each of these methods appends the answer to the line
/// whose turn it is, and says whether that is a refusal.
#[derive(Drop)]
pub struct LineAnswers<'s, N: Named> {
    text: String,
    turn: LineTurn<'s>,
    of: PhantomData<N>,
}

impl<'s, N: Named> LineAnswers<'s, N> {
    /// No answer yet: the first line comes next.
    pub fn new(alloc: Global, script: &'s str) -> LineAnswers<'s, N>
        ensures text { string_bytes result.text ≡ [] }
        ensures script { result.turn.script ≡ script.entry }
        ensures rest { result.turn.rest ≡ Some script.entry }
    {
        LineAnswers {
            text: String::new(alloc),
            turn: LineTurn {
                script,
                line: "",
                rest: Some(script),
            },
            of: PhantomData,
        }
    }

    /// Goes on to the next line, if there is one.
    pub fn next(&mut self) -> Option<&'s str>
        ensures text { self.new.text ≡ self.old.text }
        ensures script { self.new.turn.script ≡ self.old.turn.script }
        ensures none { IfNone result (self.old.turn.rest ≡ None) }
        ensures end { IfNone result (self.new.turn ≡ self.old.turn) }
        ensures line { IfSome result (λ line. self.new.turn.line ≡ line) }
        ensures lines { IfSome result (λ line.
            lines_left self.old.turn.rest ≡ line.now ∷ lines_left self.new.turn.rest) }
        ensures shorter { IfSome result (λ line.
            left_len self.new.turn.rest < left_len self.old.turn.rest) }
    {
        let Some(left) = self.turn.rest else {
            return None;
        };
        let (line, rest) = next_line(left);
        let script = self.turn.script;
        self.turn = LineTurn { script, line, rest };
        Some(line)
    }

    /// A line that can't be read.
    pub fn bad_line(&mut self) -> Result<(), AllocError>
        requires { said_at self.old.turn.line.now ≡ Bad }
        ensures turn { self.new.turn ≡ self.old.turn }
        ensures ok { OnOk result (string_bytes self.new.text
            ≡ string_bytes self.old.text ++ refusal_line (codes "BadLine")) }
    {
        put_refusal(&mut self.text, "BadLine")
    }

    /// A line that is typed and has a fault, which is its first.
    pub fn fault<T: Reports>(
        &mut self,
        lines: &Lines<'_, '_, T>,
        fault: LineFault,
    ) -> Result<(), AllocError>
        requires typed { said_at self.old.turn.line.now ≡ Typed }
        requires first { (place : ℕ) × (command_at (table lines.now.archs.now)
            (map (λ s. s.now) lines.now.suites.now) self.old.turn.line.now
            ≡ Err (Wrong fault place)) }
        ensures turn { self.new.turn ≡ self.old.turn }
        ensures ok { OnOk result (string_bytes self.new.text
            ≡ string_bytes self.old.text ++ refusal_line (name_of fault)) }
    {
        let _read_by = lines;
        put_refusal(&mut self.text, fault.name())
    }

    /// What the desk answered to the command that the line is. The keys are those of its entry.
    pub fn commanded<T: Reports>(
        &mut self,
        lines: &Lines<'_, '_, T>,
        commanded: Commanded<'_, N>,
        keys: &[Key],
    ) -> Result<bool, AllocError>
        requires { command_at (table lines.now.archs.now) (map (λ s. s.now) lines.now.suites.now)
            self.old.turn.line.now ≡ Ok (parts_of commanded.command.value) }
        ensures turn { self.new.turn ≡ self.old.turn }
        ensures ok { IfOk result (IsCommandTold commanded.entry.answer keys.now
            (string_bytes self.old.text) (string_bytes self.new.text)) }
    {
        let _read_by = lines;
        match commanded.answer() {
            Ok(taken) => {
                put_taken(&mut self.text, taken.number, keys)?;
                put_skips(&mut self.text, taken.skips.as_slice())?;
                Ok(false)
            }
            Err(refusal) => put_command_refusal(&mut self.text, refusal),
        }
    }

    /// What the desk answered to the undo that the line asks for.
    pub fn undone(&mut self, n: EntryNo, undone: Undone<N>) -> Result<bool, AllocError>
        requires line { said_at self.old.turn.line.now ≡ Asked (requests.Undo n) }
        requires entry { undone.entry ≡ n }
        ensures turn { self.new.turn ≡ self.old.turn }
        ensures ok { IfOk result (IsUndoPut n undone.answer (string_bytes self.old.text)
            (string_bytes self.new.text)) }
    {
        put_undo(&mut self.text, n, undone.answer())
    }

    /// What the desk answered to the arrival that the line tells of. The keys are those of its
    /// entry.
    pub fn arrived(&mut self, arrived: Arrived<N>, keys: &[Key]) -> Result<bool, AllocError>
        requires { said_at self.old.turn.line.now ≡ Asked (requests.Arrive arrived.key.value) }
        ensures turn { self.new.turn ≡ self.old.turn }
        ensures ok { IfOk result (IsArrivalTold arrived.answer keys.now
            (string_bytes self.old.text) (string_bytes self.new.text)) }
    {
        match arrived.answer() {
            Ok(n) => {
                put_taken(&mut self.text, n, keys)?;
                Ok(false)
            }
            Err(refusal) => put_arrival_refusal(&mut self.text, refusal),
        }
    }

    /// A sweep that found nothing, or lacked memory.
    pub fn unswept(&mut self, swept: Swept<N>) -> Result<bool, AllocError>
        requires line { said_at self.old.turn.line.now ≡ Asked requests.Sweep }
        requires none { IfOk swept.answer (λ number. number ≡ None) }
        ensures turn { self.new.turn ≡ self.old.turn }
        ensures none { OnOk result (swept.answer ≡ Ok None) }
        ensures ok { IfOk result (IsPut (ended (codes "nothing to sweep")) false
            (string_bytes self.old.text) (string_bytes self.new.text)) }
    {
        let _none = swept.answer()?;
        self.text.push_str("nothing to sweep\n")?;
        Ok(false)
    }

    /// The entry of a sweep, as it was seen in a journal after it.
    pub fn swept(
        &mut self,
        swept: Swept<N>,
        seen: Seen<N, SweptLook, Result<String, AllocError>>,
    ) -> Result<bool, AllocError>
        requires line { said_at self.old.turn.line.now ≡ Asked requests.Sweep }
        requires entry { swept.answer ≡ Ok (Some seen.by.value.number) }
        ensures turn { self.new.turn ≡ self.old.turn }
        ensures ok { IfOk result (λ refused. IsOkAnd seen.answer (λ text.
            IsPut (string_bytes text) false (string_bytes self.old.text)
            (string_bytes self.new.text) refused)) }
    {
        let _number = swept.answer();
        let text = seen.answer()?;
        self.text.push_str(text.as_str())?;
        Ok(false)
    }

    /// What was seen of what the line asks to see.
    pub fn shown<T: Reports>(
        &mut self,
        seen: Seen<N, Look<'_, T>, Result<Shown, AllocError>>,
    ) -> Result<bool, AllocError>
        requires { said_at self.old.turn.line.now ≡ Asked (request_of seen.by.value.view) }
        ensures turn { self.new.turn ≡ self.old.turn }
        ensures ok { IfOk result (λ refused. IsOkAnd seen.entry.answer (λ shown.
            (string_bytes self.new.text ≡ string_bytes self.old.text ++ string_bytes shown.text)
            × (refused ≡ shown.refused))) }
    {
        let shown = seen.answer()?;
        put_shown(&mut self.text, shown)
    }

    /// The script, each line of which had its turn, and the text of all answers.
    pub fn into_told(self) -> (&'s str, String)
        requires { self.turn.rest ≡ None }
        ensures script { result.0 ≡ self.entry.turn.script }
        ensures text { result.1 ≡ self.entry.text }
    {
        (self.turn.script, self.text)
    }
}
