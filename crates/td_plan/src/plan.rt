//! A plan: which rows are due, in which order, and the lines that say so.
ghost use Rattle.std.specs.Prelude.{◌≡◌, ◌++◌, ◌∷◌, [], IfSome, OnOk, slice_get, string_bytes};
ghost use Rattle.std.specs.Prelude.{if◌then◌else◌};
ghost use Rattle.td_text.specs.Lines.{text_of};
ghost use Rattle.td_rows.specs.Appending.{Grown};
ghost use Rattle.td_plan.specs.Lines.{step_line};
ghost use Rattle.td_plan.specs.inner.Planned.{is_part as is_part_of, is_step as is_step_of};

use crate::asks::{Asks, asks_of, graph_of};
use crate::comments::{put_left, put_step, put_title};
use crate::due::asks_rebuild;
use crate::inputs::Inputs;
use crate::movers::{LEAST, Mover, movers_of};
use crate::ordering::{Position, members_of, positions_of};
use crate::parts::{Parts, parts_of};
use crate::reasons::reason_of;
use crate::source_text::SourceText;
use crate::words::Words;
use rayon::prelude::*;
use std::alloc::{AllocError, Global};
use std::thread::Threads;
use td_rows::{Key, Row};

/// The plan of a tracker over an archive and rows.
#[derive(Drop)]
pub struct Plan<'x, 't, 'a> {
    inputs: Inputs<'x, 't, 'a>,
    /// The affected sources, in the byte order of their names.
    movers: Vec<Mover<'a>>,
    /// What each affected source asks for, by its number.
    asks: Vec<Asks>,
    parts: Parts,
}

// What the last line was of: the step, and the first source of the part.
#[derive(Clone, Copy)]
struct Last {
    step: usize,
    first: usize,
}

// Whether the last line was of this step.
fn is_step(last: Option<Last>, step: usize) -> bool
    ensures { result ≡ is_step_of last step }
{
    match last {
        Some(last) => last.step == step,
        None => false,
    }
}

// Whether the last line was of the part with this first source.
fn is_part(last: Option<Last>, first: usize) -> bool
    ensures { result ≡ is_part_of last first }
{
    match last {
        Some(last) => last.first == first,
        None => false,
    }
}

// Appends the comment before the lines of a step, where the last line was of another.
#[tactic(auto, using(td_rows::proofs::Appends::growing))]
fn put_new_step(out: &mut String, last: Option<Last>, step: usize) -> Result<(), AllocError>
    ensures ok { OnOk result (string_bytes out.new ≡ string_bytes out.old
        ++ text_of (if is_step_of last step then [] else step_line step ∷ [])) }
    ensures front { Grown (string_bytes out.old) (string_bytes out.new) }
{
    if is_step(last, step) {
        return Ok(());
    }
    put_step(out, step)
}

// Appends the text with a number, if there is one.
#[tactic(auto, using(td_rows::proofs::Appends::growing))]
fn put_text(out: &mut String, texts: &[String], number: usize) -> Result<(), AllocError>
    ensures ok { OnOk result (IfSome (slice_get texts.now number)
        (λ text. string_bytes out.new ≡ string_bytes out.old ++ string_bytes text)) }
    ensures front { Grown (string_bytes out.old) (string_bytes out.new) }
{
    let Some(text) = texts.get(number) else {
        return Ok(());
    };
    out.push_str(text.as_str())?;
    Ok(())
}

impl<'x, 't, 'a> Plan<'x, 't, 'a> {
    ghost use Rattle.std.specs.Prelude.{◌≡◌, ◌++◌, ◌∷◌, ◌<◌, ℕ, [], true, IfOk, None, OnOk, Option};
    ghost use Rattle.std.specs.Prelude.{Some, length, map, option_map, slice_get, string_bytes};
    ghost use Rattle.std.specs.List.{All, filter_map, flat_map};
    ghost use Rattle.std.specs.Option.{option_to_list};
    ghost use Rattle.td_text.specs.Lines.{text_of};
    ghost use Rattle.td_rows.specs.Appending.{Grown};
    ghost use Rattle.td_rows.specs.Table.{row_of};
    ghost use Rattle.td_waves.specs.Graph.{lists};
    ghost use Rattle.td_plan.specs.declared.movers.Mover.{Mover};
    ghost use Rattle.td_plan.specs.Lines.{Words as SaidWords};
    ghost use Rattle.td_plan.specs.Plan.{IsPlan, due_sources, left_of, lines_before, lines_from};
    ghost use Rattle.td_plan.specs.Plan.{part_lines, source_lines};
    ghost use Rattle.td_plan.specs.Premises.{AreSound, PackagesAreApart, Premises};
    ghost use Rattle.td_plan.specs.inner.Inputs.{AreFor};
    ghost use Rattle.td_plan.specs.Plan.{left_at};
    ghost use Rattle.td_plan.specs.Premises.{row_at};
    ghost use Rattle.td_plan.specs.inner.Movers.{IsMover, has_moving_motion};
    ghost use Rattle.td_plan.specs.inner.Ordering.{AreMembers, position_of};
    ghost use Rattle.td_plan.specs.inner.Planned.{AreNumbers, ArePositions, AreTexts, IsMoverNamed};
    ghost use Rattle.td_plan.specs.inner.Planned.{IsPlanOf, IsTextAt, before_lines};
    ghost use Rattle.td_plan.specs.inner.Planned.{is_part as is_part_of, is_step as is_step_of};
    ghost use Rattle.td_plan.specs.inner.Planned.{last_at, placing_in, source_if, sources_at};
    ghost use Rattle.td_plan.specs.inner.Waiters.{kept_of};
    ghost use Rattle.td_plan.specs.inner.Writing.{seen_words};

    /// The plan of these inputs.
    pub fn of(
        rt: &(impl Threads + Sync),
        alloc: Global,
        inputs: Inputs<'x, 't, 'a>,
    ) -> Result<Plan<'x, 't, 'a>, AllocError>
        ensures { IfOk result (λ plan. (p : Premises) → AreFor inputs.entry p → AreSound p
            → PackagesAreApart p → IsPlanOf p plan) }
    {
        let movers = movers_of(rt, alloc, &inputs)?;
        let asks = asks_of(rt, alloc, inputs.archive, &movers)?;
        let graph = graph_of(alloc, &asks)?;
        let parts = parts_of(alloc, &graph)?;
        Ok(Plan {
            inputs,
            movers,
            asks,
            parts,
        })
    }

    // Appends the names of sources, with a space after each.
    #[tactic(auto, using(td_rows::proofs::Appends::growing))]
    fn put_names(&self, out: &mut String, numbers: &[usize]) -> Result<(), AllocError>
        ensures ok { OnOk result (string_bytes out.new ≡ string_bytes out.old
            ++ flat_map (λ s. s.head.name ++ 32 ∷ [])
            (sources_at self.now.movers.items numbers.now)) }
        ensures front { Grown (string_bytes out.old) (string_bytes out.new) }
    {
        for number in numbers {
            if let Some(mover) = self.movers.get(*number) {
                out.push_str(mover.source.name)?;
                out.push_str(" ")?;
            }
        }
        Ok(())
    }

    // Appends the comment before a part of several sources.
    #[tactic(auto, using(td_rows::proofs::Appends::growing))]
    fn put_part(&self, out: &mut String, members: &[usize]) -> Result<(), AllocError>
        ensures ok { OnOk result (All (λ n. n < length self.now.movers.items) members.now
            → string_bytes out.new ≡ string_bytes out.old
            ++ text_of (part_lines (sources_at self.now.movers.items members.now))) }
        ensures front { Grown (string_bytes out.old) (string_bytes out.new) }
    {
        if members.len() < 2 {
            return Ok(());
        }
        out.push_str("# ")?;
        self.put_names(out, members)?;
        out.push_str("build on one another\n")?;
        Ok(())
    }

    // Appends the comments before the lines of a source at this position.
    #[tactic(auto, using(td_rows::proofs::Appends::growing))]
    fn put_before(
        &self,
        out: &mut String,
        last: Option<Last>,
        step: usize,
        first: usize,
        members: &[usize],
    ) -> Result<(), AllocError>
        ensures ok { OnOk result (All (λ n. n < length self.now.movers.items) members.now
            → string_bytes out.new ≡ string_bytes out.old
            ++ text_of (before_lines (is_step_of last step) step (is_part_of last first)
            (sources_at self.now.movers.items members.now))) }
        ensures front { Grown (string_bytes out.old) (string_bytes out.new) }
    {
        put_new_step(out, last, step)?;
        if is_part(last, first) {
            return Ok(());
        }
        self.put_part(out, members)
    }

    // Appends the lines of the source with a number.
    #[tactic(auto, using(td_rows::proofs::Appends::growing))]
    fn put_source(
        &self,
        alloc: Global,
        out: &mut String,
        words: &Words<'_>,
        number: usize,
    ) -> Result<(), AllocError>
        ensures ok { OnOk result ((p : Premises) (m : Mover) → IsPlanOf p self.now
            → slice_get self.now.movers.items number ≡ Some m → has_moving_motion m ≡ true
            → string_bytes out.new ≡ string_bytes out.old
            ++ text_of (source_lines (seen_words words.now) (placing_in self.now) p (kept_of m))) }
        ensures front { Grown (string_bytes out.old) (string_bytes out.new) }
    {
        let Some(asks) = self.asks.get(number) else {
            return Ok(());
        };
        let text = SourceText {
            archive: self.inputs.archive,
            words,
            movers: &self.movers,
            firsts: &self.parts.firsts,
            asks,
            number,
        };
        text.put(alloc, out)
    }

    // The lines of the affected source with a number.
    fn source_text(
        &self,
        alloc: Global,
        words: &Words<'_>,
        number: usize,
    ) -> Result<String, AllocError>
        ensures { IfOk result (λ text.
            IsTextAt (seen_words words.now) self.now number (string_bytes text)) }
    {
        let mut text = String::new(alloc);
        self.put_source(alloc, &mut text, words, number)?;
        Ok(text)
    }

    // The lines of each affected source, by its number. If the sources are many, each thread makes
    // the texts of some.
    fn source_texts(
        &self,
        rt: &(impl Threads + Sync),
        alloc: Global,
        words: &Words<'_>,
    ) -> Result<Vec<String>, AllocError>
        ensures { IfOk result
            (λ texts. AreTexts (seen_words words.now) self.now texts.items) }
    {
        (0..self.movers.len())
            .into_par_iter()
            .with_min_len(LEAST)
            .map(
                |number: usize| -> Result<String, AllocError>
                    ensures { IfOk result (λ text. IsTextAt (seen_words words.entry.now)
                        self.entry.now number (string_bytes text)) }
                { self.source_text(alloc, words, number) },
            )
            .collect::<Result<Vec<String>, AllocError>>(rt, alloc)?
    }

    // Appends the text of the source at a position, and the comments before it.
    #[tactic(auto, using(td_rows::proofs::Appends::growing))]
    fn put_position(
        &self,
        out: &mut String,
        texts: &[String],
        members: &[Vec<usize>],
        last: Option<Last>,
        position: Position,
    ) -> Result<(), AllocError>
        ensures ok { OnOk result ((w : SaidWords) (p : Premises) (m : Mover) (before : Option ℕ)
            → AreTexts w self.now texts.now → IsPlanOf p self.now
            → AreMembers self.now.parts.firsts.items (lists members.now)
            → slice_get self.now.movers.items position.2 ≡ Some m → has_moving_motion m ≡ true
            → ((n : ℕ) → before ≡ Some n → n < length self.now.movers.items)
            → position ≡ position_of self.now.parts position.2
            → last ≡ option_map (last_at self.now.parts) before
            → string_bytes out.new ≡ string_bytes out.old ++ text_of (
            lines_before (placing_in self.now) p (source_if self.now.movers.items before)
            (kept_of m)
            ++ source_lines w (placing_in self.now) p (kept_of m))) }
        ensures front { Grown (string_bytes out.old) (string_bytes out.new) }
    {
        let (step, first, number) = position;
        let Some(members) = members.get(first) else {
            return Ok(());
        };
        self.put_before(out, last, step, first, members)?;
        put_text(out, texts, number)
    }

    // Appends the texts of the sources at some positions, one after the other.
    #[tactic(auto, using(td_rows::proofs::Appends::growing))]
    fn put_positions(
        &self,
        out: &mut String,
        texts: &[String],
        members: &[Vec<usize>],
        positions: &[Position],
    ) -> Result<(), AllocError>
        ensures ok { OnOk result ((w : SaidWords) (p : Premises) → AreTexts w self.now texts.now
            → IsPlanOf p self.now
            → AreMembers self.now.parts.firsts.items (lists members.now)
            → ArePositions self.now.movers.items self.now.parts positions.now
            → string_bytes out.new ≡ string_bytes out.old ++ text_of (
            lines_from w (placing_in self.now) p None
            (sources_at self.now.movers.items (map (λ q. q.2) positions.now)))) }
        ensures front { Grown (string_bytes out.old) (string_bytes out.new) }
    {
        let mut last = None;
        for position in positions {
            self.put_position(out, texts, members, last, *position)?;
            let (step, first, _) = *position;
            last = Some(Last { step, first });
        }
        Ok(())
    }

    // Appends the lines of all sources with a due row.
    #[tactic(auto, using(td_rows::proofs::Appends::growing))]
    fn put_sources(
        &self,
        rt: &(impl Threads + Sync),
        alloc: Global,
        out: &mut String,
        words: &Words<'_>,
    ) -> Result<(), AllocError>
        ensures ok { OnOk result ((p : Premises) → IsPlanOf p self.now
            → string_bytes out.new ≡ string_bytes out.old ++ text_of (
            lines_from (seen_words words.now) (placing_in self.now) p None
            (due_sources (placing_in self.now) p))) }
        ensures front { Grown (string_bytes out.old) (string_bytes out.new) }
    {
        let members = members_of(alloc, &self.parts)?;
        let positions = positions_of(alloc, &self.movers, &self.parts)?;
        let texts = self.source_texts(rt, alloc, words)?;
        self.put_positions(out, &texts, &members, &positions)
    }

    // For each source of the archive its number among the affected ones, if it is affected.
    fn numbers(&self, alloc: Global) -> Result<Vec<usize>, AllocError>
        ensures { IfOk result (λ numbers. (p : Premises) → IsPlanOf p self.now
            → AreNumbers self.now.movers.items numbers.items) }
    {
        let count = self.inputs.archive.source_count();
        let mut numbers = vec![in alloc; self.movers.len(); count]?;
        for number in 0..self.movers.len() {
            let source = self.movers[number].number;
            if source < numbers.len() {
                numbers[source] = number;
            }
        }
        Ok(numbers)
    }

    // The affected source with a name.
    fn mover_named(&self, numbers: &[usize], name: &str) -> Option<&Mover<'a>>
        ensures { (p : Premises) → IsPlanOf p self.now
            → AreNumbers self.now.movers.items numbers.now
            → IsMoverNamed p self.now.movers.items name.now
            (option_map (λ m. m.now) result) }
    {
        let source = self.inputs.archive.source_number(name)?;
        let number = numbers.get(source)?;
        self.movers.get(*number)
    }

    // Appends the comment on a row of a source at a place that is bad or partial, and isn't
    // planned.
    #[tactic(auto, using(td_rows::proofs::Appends::growing))]
    fn put_left_at(
        &self,
        out: &mut String,
        mover: &Mover<'_>,
        place: usize,
        key: &Key,
        row: &Row,
    ) -> Result<(), AllocError>
        ensures ok { OnOk result ((p : Premises) → IsPlanOf p self.now
            → place < length p.archive.table → IsMover p mover.now (kept_of mover.now)
            → row_at p (kept_of mover.now) place ≡ Some row.now
            → string_bytes out.new ≡ string_bytes out.old ++ text_of (option_to_list
            (left_at p key.now row.now (kept_of mover.now) place))) }
        ensures front { Grown (string_bytes out.old) (string_bytes out.new) }
    {
        let Some(status) = self.inputs.status(mover.number, place) else {
            return Ok(());
        };
        if !asks_rebuild(Some(status)) {
            return Ok(());
        }
        if mover.is_due(place) {
            return Ok(());
        }
        let reason = reason_of(&self.inputs, mover, place, row);
        put_left(out, key, status, row, reason)
    }

    // Appends the comment on a row that is bad or partial, and isn't planned.
    #[tactic(auto, using(td_rows::proofs::Appends::growing))]
    fn put_row(
        &self,
        out: &mut String,
        numbers: &[usize],
        key: &Key,
        row: &Row,
    ) -> Result<(), AllocError>
        ensures ok { OnOk result ((p : Premises) → IsPlanOf p self.now
            → AreNumbers self.now.movers.items numbers.now → row_of p.rows key.now ≡ Some row.now
            → string_bytes out.new ≡ string_bytes out.old
            ++ text_of (option_to_list (left_of p (key.now, row.now)))) }
        ensures front { Grown (string_bytes out.old) (string_bytes out.new) }
    {
        let Some(mover) = self.mover_named(numbers, key.source()) else {
            return Ok(());
        };
        match self.inputs.archive.archs().index(key.arch()) {
            Some(place) => self.put_left_at(out, mover, place, key, row),
            None => Ok(()),
        }
    }

    // Appends the comments on all rows that are bad or partial, and aren't planned.
    #[tactic(auto, using(td_rows::proofs::Appends::growing))]
    fn put_rows(&self, out: &mut String, numbers: &[usize]) -> Result<(), AllocError>
        ensures ok { OnOk result ((p : Premises) → IsPlanOf p self.now
            → AreNumbers self.now.movers.items numbers.now
            → string_bytes out.new ≡ string_bytes out.old
            ++ text_of (filter_map (left_of p) p.rows)) }
        ensures front { Grown (string_bytes out.old) (string_bytes out.new) }
    {
        for number in 0..self.inputs.rows.len() {
            if let Some((key, row)) = self.inputs.rows.at(number) {
                self.put_row(out, numbers, key, row)?;
            }
        }
        Ok(())
    }

    // Appends the comments on all rows that are bad or partial, and aren't planned.
    #[tactic(auto, using(td_rows::proofs::Appends::growing))]
    fn put_left_rows(&self, alloc: Global, out: &mut String) -> Result<(), AllocError>
        ensures ok { OnOk result ((p : Premises) → IsPlanOf p self.now
            → string_bytes out.new ≡ string_bytes out.old
            ++ text_of (filter_map (left_of p) p.rows)) }
        ensures front { Grown (string_bytes out.old) (string_bytes out.new) }
    {
        let numbers = self.numbers(alloc)?;
        self.put_rows(out, &numbers)
    }

    /// The plan's lines, under the title of its tracker.
    pub fn text(
        &self,
        rt: &(impl Threads + Sync),
        alloc: Global,
        title: &str,
        words: &Words<'_>,
    ) -> Result<String, AllocError>
        ensures { IfOk result (λ text. (p : Premises) → IsPlanOf p self.now
            → p.tracker.title ≡ title.now → IsPlan (seen_words words.now) p (string_bytes text)) }
    {
        let mut out = String::new(alloc);
        put_title(&mut out, title)?;
        self.put_sources(rt, alloc, &mut out, words)?;
        self.put_left_rows(alloc, &mut out)?;
        Ok(out)
    }
}
