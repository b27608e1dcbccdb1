//! Outcomes of builds, by lines of a text.
ghost use Rattle.std.specs.Prelude.{◌≡◌, ◌-◌, ◌≤◌, ◌++◌, ◌∷◌, [], List, length, map, OnOk, IfOk};
ghost use Rattle.std.specs.Prelude.{IfErr};
ghost use Rattle.td_text.specs.Lines.{lines_of, ended};
ghost use Rattle.td_rows.specs.declared.key.Key.{Key as KeyValue};
ghost use Rattle.td_rows.specs.declared.outcome.Outcome.{Outcome as OutcomeValue};
ghost use Rattle.td_journal.specs.Endings.{outcome_text};
ghost use Rattle.td_book.specs.Deeds.{code_of};
ghost use Rattle.td_builder.specs.OutcomeLines.{AreOutcomes, FaultOf};
ghost use Rattle.td_builder.specs.OutcomeReading.{line_told};
ghost use Rattle.td_builder.specs.Unused.{MayAnswer, lines_of_key, numbered, with_line, codes_in};
ghost use Rattle.td_builder.specs.Unused.{codes_of};

use crate::fault::OutcomesFault;
use crate::floor::Builds;
use crate::key_line::{KeyLine, push_line};
use crate::outcome_line::read_outcome_line;
use crate::unused::{Unused, UnusedLock, parts_of};
use indexmap::IndexMap;
use std::alloc::{AllocError, Global};
use std::sync::Wait;
use td_book::Job;
use td_rows::{Key, Line, Outcome};
use td_text::{behind, next_line};

/// A way to build that has no need to: each build of a key ends as the next unused line of it
/// says, and is built if no line is left. Builders' threads share it, by a reference each, and
/// no line is used twice.
#[derive(Drop)]
pub struct Outcomes {
    alloc: Global,
    lines: IndexMap<Key, Vec<KeyLine>>,
    // Under the lock: which lines were used, and the texts of the others.
    unused: UnusedLock,
}

// The lines that were read, and their texts in order.
#[derive(Drop)]
struct Gathered {
    lines: IndexMap<Key, Vec<KeyLine>>,
    texts: Vec<Line>,
}

impl Gathered {
    // Adds a line.
    fn push(&mut self, alloc: Global, key: Key, outcome: Outcome) -> Result<(), AllocError>
        ensures texts { OnOk result
            (self.new.texts.items ≡ self.old.texts.items ++ outcome_text outcome ∷ []) }
        ensures lines { OnOk result ((k : KeyValue) → lines_of_key self.new.lines.entries k
            ≡ with_line k key
            (record { code = code_of outcome; line = length self.old.texts.items })
            (lines_of_key self.old.lines.entries k)) }
    {
        let line = self.texts.len();
        let (code, text) = parts_of(alloc, outcome);
        self.texts.push(text)?;
        push_line(alloc, &mut self.lines, key, KeyLine { code, line })
    }
}

// What was read of the line with a number, or its fault: a line that is none isn't missing memory.
fn told(
    read: Result<Option<(Key, Outcome)>, AllocError>,
    number: usize,
) -> Result<(Key, Outcome), OutcomesFault>
    ensures { result ≡ line_told read number }
{
    match read {
        Ok(Some(line)) => Ok(line),
        Ok(None) => Err(OutcomesFault::BadLine(number)),
        Err(_) => Err(OutcomesFault::NoMemory),
    }
}

// The lines of a text.
fn gather(alloc: Global, text: &str) -> Result<Gathered, OutcomesFault>
    ensures found { IfOk result (λ g. (os : List (KeyValue × OutcomeValue))
        × AreOutcomes (ended (lines_of text.now)) os
        × (g.texts.items ≡ map (λ p. outcome_text p.1) os)
        × ((k : KeyValue) → lines_of_key g.lines.entries k ≡ numbered k 0 os)) }
    ensures fault { IfErr result (FaultOf (ended (lines_of text.now))) }
{
    let mut gathered = Gathered {
        lines: IndexMap::new(alloc),
        texts: Vec::new(alloc),
    };
    let mut rest = text;
    while !rest.is_empty() {
        let (line, after) = next_line(rest);
        let read = read_outcome_line(alloc, line);
        let (key, outcome) = told(read, gathered.texts.len() + 1)?;
        let Ok(()) = gathered.push(alloc, key, outcome) else {
            return Err(OutcomesFault::NoMemory);
        };
        rest = behind(after);
    }
    Ok(gathered)
}

impl Outcomes {
    /// The outcomes of a text of outcome lines. A last line may lack its newline.
    pub fn read(alloc: Global, text: &str) -> Result<Outcomes, OutcomesFault>
        // What is read is the lines, and the codes of each key are theirs.
        ensures found { IfOk result (λ o. (os : List (KeyValue × OutcomeValue))
            × AreOutcomes (ended (lines_of text.now)) os
            × ((k : KeyValue) → codes_of o k ≡ codes_in k os)) }
        ensures fault { IfErr result (FaultOf (ended (lines_of text.now))) }
    {
        let Gathered { lines, texts } = gather(alloc, text)?;
        let Ok(unused) = Unused::new(alloc, texts, lines.len()) else {
            return Err(OutcomesFault::NoMemory);
        };
        let unused = UnusedLock::new(&lines, unused);
        Ok(Outcomes {
            alloc,
            lines,
            unused,
        })
    }

    // How the next build of a key ends.
    fn next_end<R: Wait>(&self, rt: &R, key: &Key) -> Outcome
        ensures { MayAnswer (codes_of self.now key.now) (code_of result) }
    {
        let mut unused = self.unused.lock(rt);
        match unused.next_of(self.alloc, &self.lines, key) {
            Some(outcome) => outcome,
            None => Outcome::Built,
        }
    }
}

impl Builds for &Outcomes {
    ghost use Rattle.std.specs.Prelude.{◌≡◌};
    ghost use Rattle.td_book.specs.Deeds.{code_of};
    ghost use Rattle.td_builder.specs.Unused.{MayAnswer, codes_of};

    ghost goes_on = { λ lines job outcome after. (after ≡ lines)
        × MayAnswer (codes_of lines.now job.key) (code_of outcome) };

    fn build<R: Wait>(&mut self, rt: &R, job: Job) -> Outcome {
        (**self).next_end(rt, &job.key)
    }
}
