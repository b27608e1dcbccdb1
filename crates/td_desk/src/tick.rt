//! Ticks of the changes whose receipts were found.
ghost use Rattle.std.specs.Prelude.{◌≡◌, ◌+◌, ◌≤◌, ◌∷◌, ◌&&◌, List, true, false, length, OnOk};
ghost use Rattle.std.specs.Prelude.{MatchBool, IsPermutation};
ghost use Rattle.td_journal.specs.declared.entry.Mark.{Mark as MarkValue};
ghost use Rattle.td_desk.specs.inner.Matching.{same_receipt, change_of};
ghost use Rattle.td_desk.specs.inner.Ticks.{AreBegun, is_made_left as is_made_left_in};
ghost use Rattle.td_desk.specs.inner.Ticks.{is_undo_left as is_undo_left_in, is_ticked_at, left_at};
ghost use Rattle.td_desk.specs.inner.Ticks.{is_in};

use crate::receipt::Receipt;
use std::alloc::AllocError;
use td_journal::{EntryNo, Marked};
use td_rows::Kind;

/// Which changes of an entry have found their receipts.
#[derive(Clone, Copy)]
pub(crate) struct Tick {
    pub(crate) made: bool,
    pub(crate) undone: bool,
}

/// Ticks for this many entries more than there are.
pub(crate) fn add_ticks(ticks: &mut Vec<Tick>, held: u64, more: usize) -> Result<(), AllocError>
    ensures begun { (opened : List MarkValue) → AreBegun opened held ticks.old.items
        → AreBegun opened held ticks.new.items }
    ensures room { OnOk result (held + more ≤ length ticks.new.items) }
{
    let Ok(held) = usize::try_from(held) else {
        return Err(AllocError);
    };
    let Some(wanted) = held.checked_add(more) else {
        return Err(AllocError);
    };
    if wanted <= ticks.len() {
        return Ok(());
    }
    ticks.resize(
        wanted,
        Tick {
            made: false,
            undone: false,
        },
    )
}

/// Ticks the change of entry n that this is the receipt of, if it has one that isn't ticked.
pub(crate) fn tick_at(tick: &mut Tick, n: EntryNo, marked: &Marked, receipt: &Receipt) -> bool
    ensures { MatchBool result
        (IsPermutation (receipt.now ∷ left_at n marked.now tick.new)
        (left_at n marked.now tick.old))
        ((is_in receipt.now (left_at n marked.now tick.old) ≡ false) × (tick.new ≡ tick.old)) }
{
    if finds_made(*tick, n, marked, receipt) {
        tick.made = true;
        return true;
    }
    if finds_undo(*tick, n, marked, receipt) {
        tick.undone = true;
        return true;
    }
    false
}

// Whether the receipt is of what a clerk made by entry n, which isn't ticked yet.
fn finds_made(tick: Tick, n: EntryNo, marked: &Marked, receipt: &Receipt) -> bool
    ensures { result ≡ (is_made_left_in marked.now tick
        && same_receipt receipt.now
        (change_of n marked.now.entry.kind marked.now.entry.keys false)) }
{
    is_made_left(tick, marked) && receipt.is_of(n, &marked.entry, false)
}

// Whether the receipt is of the undo of entry n, which isn't ticked yet.
fn finds_undo(tick: Tick, n: EntryNo, marked: &Marked, receipt: &Receipt) -> bool
    ensures { result ≡ (is_undo_left_in marked.now tick
        && same_receipt receipt.now
        (change_of n marked.now.entry.kind marked.now.entry.keys true)) }
{
    is_undo_left(tick, marked) && receipt.is_of(n, &marked.entry, true)
}

// Whether what a clerk made by the entry isn't ticked yet.
fn is_made_left(tick: Tick, marked: &Marked) -> bool
    ensures { result ≡ is_made_left_in marked.now tick }
{
    let is_desks = !matches!(marked.entry.kind, Kind::Claim(_) | Kind::Outcome(_, _));
    is_desks && !tick.made
}

// Whether the undo of the entry isn't ticked yet.
fn is_undo_left(tick: Tick, marked: &Marked) -> bool
    ensures { result ≡ is_undo_left_in marked.now tick }
{
    !marked.stands() && !tick.undone
}

/// Whether each change of the entry is ticked.
pub(crate) fn is_ticked(tick: Tick, marked: &Marked) -> bool
    ensures { result ≡ is_ticked_at marked.now tick }
{
    !is_made_left(tick, marked) && !is_undo_left(tick, marked)
}
