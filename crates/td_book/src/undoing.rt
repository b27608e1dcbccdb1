//! Undos.
ghost use Rattle.std.specs.Prelude.{◌≡◌, true, [], Some, None, IfOk, IfNone, OnErr};
ghost use Rattle.td_rows.specs.Keys.{ascending};
ghost use Rattle.td_journal.specs.declared.entry.Marked.{Marked as MarkedValue};
ghost use Rattle.td_journal.specs.Entries.{entry_at, CanBeUndone};
ghost use Rattle.td_journal.specs.Touching.{blocker};
ghost use Rattle.td_core.specs.History.{rows_of};
ghost use Rattle.td_book.specs.Seen.{seen_off};
ghost use Rattle.td_book.specs.Calls.{off_for as off_keys};
ghost use Rattle.td_book.specs.Undoing.{HasState, IsUndone, UndoAnswer, WithdrawAnswer, undo_stop};

use crate::book::{Book, copies};
use crate::inner::Inner;
use std::alloc::{AllocError, Global};
use td_board::Board;
use td_journal::{EntryNo, Journal, Mark, is_command};
use td_rows::{Key, cells_of};

/// Why an entry wasn't undone.
#[derive(Clone, Copy, Debug, PartialEq, Eq)]
pub enum UndoRefusal {
    NoSuchEntry,
    NotACommand,
    AlreadyUndone,
    NoMemory,
    Blocked(EntryNo),
}

/// Why the undo of an entry of a journal makes no atomic step, if so. It takes no memory.
pub fn undo_refusal(journal: &Journal, n: EntryNo) -> Option<UndoRefusal>
    ensures stop { result ≡ undo_stop journal.now.entries n }
    ensures stands { IfNone result (CanBeUndone journal.now.entries n) }
    ensures free { IfNone result (blocker journal.now.entries n ≡ None) }
{
    let Some(marked) = journal.entry(n) else {
        return Some(UndoRefusal::NoSuchEntry);
    };
    if !is_command(&marked.entry.kind) {
        return Some(UndoRefusal::NotACommand);
    }
    let Mark::Standing = marked.mark else {
        return Some(UndoRefusal::AlreadyUndone);
    };
    match journal.blocker(n) {
        Some(m) => Some(UndoRefusal::Blocked(m)),
        None => None,
    }
}

impl<'a> Book<'a> {
    /// Undoes a command.
    pub fn undo(&mut self, board: &Board, n: EntryNo) -> Result<(), UndoRefusal>
        requires { board.now.table ≡ self.old.fixed.table }
        ensures { UndoAnswer (undo_stop self.old.history.journal n) n self.old self.new result }
    {
        if let Some(refusal) = self.undo_refusal(n) {
            return Err(refusal);
        }
        self.undo_standing(board, n)
    }

    /// Why an undo makes no atomic step, if so. It takes no memory.
    pub fn undo_refusal(&self, n: EntryNo) -> Option<UndoRefusal>
        ensures stop { result ≡ undo_stop self.now.history.journal n }
        ensures stands { IfNone result (CanBeUndone self.now.history.journal n) }
        ensures free { IfNone result (blocker self.now.history.journal n ≡ None) }
    {
        undo_refusal(self.inner.books.kept().journal(), n)
    }

    /// Undoes a standing command that no later entry blocks, unless a builder won one of its rows.
    /// Ask `undo_refusal` first.
    pub fn undo_standing(&mut self, board: &Board, n: EntryNo) -> Result<(), UndoRefusal>
        requires board { board.now.table ≡ self.old.fixed.table }
        requires stands { CanBeUndone self.old.history.journal n }
        requires free { blocker self.old.history.journal n ≡ None }
        ensures { IsUndone n self.old self.new result }
    {
        let Ok(off) = self.keys_off(n) else {
            return Err(UndoRefusal::NoMemory);
        };
        self.inner.withdraw_all(self.alloc, board, &off)?;
        self.inner.undo(n);
        self.inner.offer_each(board, &off);
        Ok(())
    }

    // Copies of the keys of an entry, if its kind has the state.
    fn keys_off(&self, n: EntryNo) -> Result<Vec<Key>, AllocError>
        ensures keys { (m : MarkedValue) → entry_at self.now.history.journal n ≡ Some m
            → IfOk result (λ keys. keys.items ≡ off_keys m.entry.kind m.entry.keys) }
        ensures rising { IfOk result (λ keys. ascending keys.items ≡ true) }
        ensures memory { OnErr result (HasState self.now.history.journal n) }
    {
        match self.inner.books.kept().journal().entry(n) {
            Some(marked) if cells_of(&marked.entry.kind).state => {
                copies(self.alloc, marked.entry.keys.as_slice())
            }
            _ => Ok(Vec::new(self.alloc)),
        }
    }
}

impl<'a> Inner<'a> {
    // Withdraws the keys' rows, unless a builder has won one. Without keys it takes no memory.
    fn withdraw_all(
        &mut self,
        alloc: Global,
        board: &Board,
        keys: &[Key],
    ) -> Result<(), UndoRefusal>
        requires board { board.now.table ≡ self.old.table }
        requires rising { ascending keys.now ≡ true }
        requires rest { self.old.view ≡ seen_off [] (rows_of self.old.books.history) }
        ensures { WithdrawAnswer keys.now self.old self.new result }
    {
        if keys.is_empty() {
            return Ok(());
        }
        let Ok(claims) = self.claims_for_one(alloc, keys) else {
            return Err(UndoRefusal::NoMemory);
        };
        match self.withdraw_until(board, keys, claims) {
            Some(m) => Err(UndoRefusal::Blocked(m)),
            None => Ok(()),
        }
    }
}
