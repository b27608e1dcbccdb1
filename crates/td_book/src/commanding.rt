//! Commands.
ghost use Rattle.std.specs.Prelude.{◌≡◌, true, IfOk};
ghost use Rattle.td_rows.specs.Keys.{ascending, names};
ghost use Rattle.td_rows.specs.declared.key.Key.{Key as KeyValue};
ghost use Rattle.td_rows.specs.Table.{keys_of};
ghost use Rattle.td_change.specs.Saved.{HaveRows};
ghost use Rattle.td_journal.specs.Commands.{is_command as is_a_command};
ghost use Rattle.td_core.specs.History.{rows_of};
ghost use Rattle.td_wbread.specs.Views.{parts_of};
ghost use Rattle.td_book.specs.Calls.{IsCommanded, IsPlan, off_for as off_keys, taken_of};
ghost use Rattle.td_book.specs.Commands.{IsAsked, IsDone, named_by};
ghost use Rattle.td_naming.specs.Skips.{left_of};

use crate::book::Book;
use std::alloc::AllocError;
use td_board::Board;
use td_core::PlannedCommand;
use td_journal::{EntryNo, Keys};
use td_naming::{Skip, Skips, doubts, matched, named};
use td_rows::{Key, Kind, cells_of};
use td_wbread::{Command, kind_of};

/// What a command did.
#[derive(Drop)]
pub struct Taken {
    /// The number of its entry.
    pub number: EntryNo,
    /// The rows that it names and didn't take.
    pub skips: Skips,
}

/// Why a command made no entry.
#[derive(Debug, Drop)]
pub enum CommandRefusal {
    /// The command takes none of the rows that it names.
    NothingApplies(Skips),
    NoMemory,
}

/// A command with what was looked up for it.
#[derive(Drop)]
pub struct Asked {
    pub kind: Kind,
    /// The keys of the rows that it names.
    pub named: Vec<Key>,
    /// The keys of those named rows whose version matches.
    pub matched: Vec<Key>,
    /// A skip of each of them, should it not be taken.
    pub doubts: Vec<Skip>,
}

// The keys that are withdrawn for the kind.
fn off_for<'k>(kind: &Kind, named: &'k [Key]) -> &'k [Key]
    ensures { result.now ≡ off_keys kind.now named.now }
{
    if cells_of(kind).state {
        named
    } else {
        &named[..0]
    }
}

// What a command answers.
fn answer(entry: Option<EntryNo>, skips: Skips) -> Result<Taken, CommandRefusal>
    ensures { result ≡ taken_of entry skips }
{
    match entry {
        Some(number) => Ok(Taken { number, skips }),
        None => Err(CommandRefusal::NothingApplies(skips)),
    }
}

impl<'a> Book<'a> {
    /// Makes an entry of a command on those of the rows that it names whose version matches and on
    /// which it applies. Named rows are withdrawn first, in the order of their keys, where the
    /// command has to do with their states, also those that it doesn't take; claims of builders
    /// that were faster are noted.
    pub fn command(&mut self, board: &Board, command: &Command<'_>) -> Result<Taken, CommandRefusal>
        requires { board.now.table ≡ self.old.fixed.table }
        ensures { IsDone (parts_of command.now) self.old self.new result }
    {
        let Ok(asked) = self.asked(command) else {
            return Err(CommandRefusal::NoMemory);
        };
        let Asked {
            kind,
            named,
            matched,
            doubts,
        } = asked;
        self.enter(board, kind, &named, matched, doubts)
    }

    /// The keys of the rows that a command names, in order.
    pub fn named(&self, command: &Command<'_>) -> Result<Vec<Key>, AllocError>
        ensures keys { IfOk result (λ keys. keys.items ≡ named_by (parts_of command.now) self.now) }
        ensures rising { ascending (keys_of (rows_of self.now.history)) ≡ true }
    {
        named(self.alloc, self.inner.books.rows(), command)
    }

    // Looks up what a command names.
    fn asked(&self, command: &Command<'_>) -> Result<Asked, AllocError>
        ensures { IfOk result (IsAsked (parts_of command.now) self.now) }
    {
        let rows = self.inner.books.rows();
        let supply = self.inner.books.kept().supply();
        let kind = kind_of(command)?;
        let named = named(self.alloc, rows, command)?;
        let matched = matched(self.alloc, command, supply, rows, &named)?;
        let doubts = doubts(self.alloc, command, supply, rows, &named)?;
        Ok(Asked {
            kind,
            named,
            matched,
            doubts,
        })
    }

    // An entry of the kind on those of the matched rows on which it applies. Every named row is
    // withdrawn first, where the kind has the state.
    fn enter(
        &mut self,
        board: &Board,
        kind: Kind,
        named: &[Key],
        matched: Vec<Key>,
        doubts: Vec<Skip>,
    ) -> Result<Taken, CommandRefusal>
        requires board { board.now.table ≡ self.old.fixed.table }
        requires named { ascending named.now ≡ true }
        requires matched { ascending matched.items ≡ true }
        requires among { (k : KeyValue) → names matched.items k ≡ true → names named.now k ≡ true }
        requires rows { HaveRows (rows_of self.old.history) named.now }
        requires kind { is_a_command kind ≡ true }
        ensures { IsCommanded kind named.now matched.items (left_of kind doubts.items) self.old
            self.new result }
    {
        let off = off_for(&kind, named);
        let Ok(plan) = self.plan(&kind, matched) else {
            return Err(CommandRefusal::NoMemory);
        };
        let Ok(claims) = self.inner.claims(self.alloc, off, named) else {
            return Err(CommandRefusal::NoMemory);
        };
        self.inner.withdraw_each(board, off, claims);
        let skips = Skips::left(self.inner.books.rows(), &kind, doubts);
        let entry = self.inner.commit(plan);
        self.inner.offer_each(board, off);
        answer(entry, skips)
    }

    // Plans a command, if there are any keys.
    fn plan(&self, kind: &Kind, matched: Vec<Key>) -> Result<Option<PlannedCommand>, AllocError>
        requires rising { ascending matched.items ≡ true }
        requires rows { HaveRows (rows_of self.now.history) matched.items }
        ensures { IfOk result (IsPlan kind.now matched.items (rows_of self.now.history)) }
    {
        if matched.is_empty() {
            return Ok(None);
        }
        let kind = kind.copy()?;
        Ok(Some(self.inner.books.kept().plan(kind, Keys::new(matched))?))
    }
}
