//! Which outcome lines weren't used yet.
ghost use Rattle.std.specs.Prelude.{◌≡◌, ℕ, [], IfOk, IfSome, IfNone, map, replicate};
ghost use Rattle.td_journal.specs.Endings.{outcome_text};
ghost use Rattle.td_book.specs.Deeds.{code_of as code_in};
ghost use Rattle.td_builder.specs.Unused.{AreUnused, IsNext, IsNextOf, IsTaken, IsTakenOf};
ghost use Rattle.td_builder.specs.Unused.{outcome_of as outcome_in};

use crate::key_line::KeyLine;
use indexmap::IndexMap;
use std::alloc::{AllocError, Global};
use std::mem;
use std::sync::{Mutex, MutexGuard, Wait};
use td_board::OutcomeCode;
use td_rows::{Key, Line, Outcome};

/// What of the outcome lines wasn't used yet: the texts by line, and by key how many of its lines
/// were used.
#[derive(Drop)]
pub(crate) struct Unused {
    texts: Vec<Line>,
    used: Vec<usize>,
}

/// What wasn't used yet, under a lock that is made while no line is used and each has its text.
#[derive(Drop)]
pub(crate) struct UnusedLock {
    unused: Mutex<Unused>,
}

impl UnusedLock {
    /// The lock of what was read.
    pub(crate) fn new(lines: &IndexMap<Key, Vec<KeyLine>>, unused: Unused) -> UnusedLock
        requires { AreUnused lines.now.entries unused.used.items unused.texts.items }
    {
        let _lines = lines;
        UnusedLock {
            unused: Mutex::new(unused),
        }
    }

    /// Waits for the lock, and takes it.
    pub(crate) fn lock<R: Wait>(&self, rt: &R) -> MutexGuard<'_, Unused> {
        self.unused.lock(rt)
    }
}

// How a build ended, without the text, and the text.
pub(crate) fn parts_of(alloc: Global, outcome: Outcome) -> (OutcomeCode, Line)
    ensures code { result.0 ≡ code_in outcome }
    ensures text { result.1 ≡ outcome_text outcome }
{
    match outcome {
        Outcome::Built => (OutcomeCode::Built, Line::empty(alloc)),
        Outcome::Attempted => (OutcomeCode::Attempted, Line::empty(alloc)),
        Outcome::GivenBack => (OutcomeCode::GivenBack, Line::empty(alloc)),
        Outcome::Waits(text) => (OutcomeCode::Waits, text),
    }
}

// The outcome of a code, with its text.
fn outcome_of(code: OutcomeCode, text: Line) -> Outcome
    ensures { result ≡ outcome_in code text }
{
    match code {
        OutcomeCode::Built => Outcome::Built,
        OutcomeCode::Attempted => Outcome::Attempted,
        OutcomeCode::GivenBack => Outcome::GivenBack,
        OutcomeCode::Waits => Outcome::Waits(text),
    }
}

impl Unused {
    /// No line of this many keys was used.
    pub fn new(alloc: Global, texts: Vec<Line>, keys: usize) -> Result<Unused, AllocError>
        ensures texts { IfOk result (λ u. u.texts.items ≡ texts.items) }
        ensures used { IfOk result (λ u. u.used.items ≡ replicate keys 0) }
    {
        let used = Vec::from_elem(alloc, 0usize, keys)?;
        Ok(Unused { texts, used })
    }

    /// Uses the next of a key's lines, and answers its outcome; None if the key has none left,
    /// or if its count or its text isn't there. It takes no memory.
    pub fn next_of(
        &mut self,
        alloc: Global,
        lines: &IndexMap<Key, Vec<KeyLine>>,
        key: &Key,
    ) -> Option<Outcome>
        ensures taken { IfSome result (IsTakenOf lines.now.entries key.now self.old.used.items
            self.new.used.items self.old.texts.items self.new.texts.items) }
        ensures none { IfNone result (IsNextOf lines.now.entries key.now self.old.used.items
            self.old.texts.items → ⊥) }
        ensures same { IfNone result (self.new ≡ self.old) }
    {
        let (slot, _, lines) = lines.get_full(key)?;
        self.next(alloc, slot, lines.as_slice())
    }

    // Uses the next of the lines of the key in a slot.
    fn next(&mut self, alloc: Global, slot: usize, lines: &[KeyLine]) -> Option<Outcome>
        ensures taken { IfSome result (IsTaken slot lines.now
            self.old.used.items self.new.used.items self.old.texts.items self.new.texts.items) }
        ensures none { IfNone result
            (IsNext slot lines.now self.old.used.items self.old.texts.items → ⊥) }
        ensures same { IfNone result (self.new ≡ self.old) }
    {
        if slot >= self.used.len() {
            return None;
        }
        let used = self.used[slot];
        if used >= lines.len() {
            return None;
        }
        let KeyLine { code, line } = lines[used];
        if line >= self.texts.len() {
            return None;
        }
        let text = mem::replace(&mut self.texts[line], Line::empty(alloc));
        self.used[slot] = used + 1;
        Some(outcome_of(code, text))
    }
}
