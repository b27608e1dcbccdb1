//! The desk: its opening, its keys, and what it lends.
ghost use Rattle.std.specs.Prelude.{◌≡◌, List, None, Some, [], length, true, IfOk, IfErr, OnOk};
ghost use Rattle.std.specs.Prelude.{IfNone, IfSome, MatchBool, slice_get};
ghost use Rattle.std.specs.Fn.{FnOnceReturnsAt};
ghost use Rattle.std.specs.Option.{option_copied};
ghost use Rattle.td_board.specs.Answers.{IsWon, IsLost};
ghost use Rattle.td_board.specs.Knowledge.{new_desk};
ghost use Rattle.td_rows.specs.Table.{IsAt, keys_of, row_of};
ghost use Rattle.td_supply.specs.Supply.{opened as opened_stock, stock_of};
ghost use Rattle.td_core.specs.Phases.{NoneBuilt};
ghost use Rattle.td_book.specs.Desk.{BookModel};
ghost use Rattle.td_journal.specs.declared.entry.Marked.{Marked as MarkedValue};
ghost use Rattle.td_journal.specs.JournalFile.{IsJournalText, FaultOf};
ghost use Rattle.td_desk.specs.Calls.{IsOfDesk};
ghost use Rattle.td_desk.specs.Changes.{changes, still_undone};
ghost use Rattle.td_desk.specs.GoingOn.{Begins};
ghost use Rattle.td_desk.specs.Marks.{marks_in, IsNamedJournal};
ghost use Rattle.td_desk.specs.inner.Begun.{IsBegun};
ghost use Rattle.td_desk.specs.inner.Ticks.{AreBegun};

use crate::clerk::Clerk;
use crate::lock::Lock;
use crate::locked::{Locked, Shut};
use crate::named::Named;
use crate::place::set_ticks;
use crate::tick::Tick;
use std::alloc::{AllocError, Global};
use std::sync::Wait;
use std::sync::ledger::{Blank, Ledger};
use td_board::{Board, BuilderSeat, DeskSeat};
use td_book::Book;
use td_journal::ReadError;
use td_rows::{Key, Rows};
use td_supply::Supply;

/// How many parts the ledger of a desk has.
pub const PARTS: u64 = 1024;

/// A named board, and the book of it under a lock with the ledger of its changes. Threads share
/// it by reference.
#[derive(Drop)]
pub struct Desk<'a, N: Named, C: Ledger> {
    pub(crate) alloc: Global,
    pub(crate) board: Board,
    pub(crate) opening: Rows,
    pub(crate) locked: Lock<'a, N, C>,
    ghost named: { board.table ≡ N.table },
}

impl<'a, N: Named, C: Ledger> Desk<'a, N, C> {
    /// A desk before the first entry, and the clerk with all parts of its ledger.
    pub fn open(
        alloc: Global,
        board: Board,
        seat: DeskSeat,
        rows: Rows,
        supply: Supply<'a>,
        blank: Blank,
    ) -> Result<(Desk<'a, N, C>, Clerk<C>), AllocError>
        requires board { board.table ≡ N.table }
        requires seat { seat.table ≡ N.table }
        requires origin { N.origin
            ≡ record {
              rows = rows;
              stock = stock_of supply;
              builders = length seat.desk.noted;
              journal = None;
            } }
        requires opened { N.opened ≡ [] }
        requires fresh_seat { seat.desk ≡ new_desk (length rows) (length seat.desk.noted) }
        requires idle { NoneBuilt rows }
        requires fresh_supply { supply ≡ opened_stock (stock_of supply) }
        requires ledger { (blank.name ≡ C.name) × (blank.parts ≡ C.parts) × (blank.parts ≡ 1024) }
        ensures clerk { IfOk result (λ made. made.1 ≡ record { parts = 1024; receipts = [] }) }
        ensures board { IfOk result (λ made. made.0.board ≡ board) }
        ensures opening { IfOk result (λ made. made.0.opening ≡ rows) }
    {
        let opening = match rows.copy() {
            Ok(opening) => opening,
            Err(no_memory) => {
                // (by calls, so that the proof of this body stays short)
                drop(board);
                drop(seat);
                drop(rows);
                drop(supply);
                return Err(no_memory);
            }
        };
        match Book::open(alloc, &board, seat, rows, supply) {
            Ok(book) => Ok(begin(alloc, board, opening, book, Vec::new(alloc), blank)),
            Err(no_memory) => {
                drop(board);
                drop(opening);
                Err(no_memory)
            }
        }
    }

    /// A desk over the journal whose text it is over the opening rows, in either version, and the
    /// clerk with all parts of its ledger: what was changed before is no change of this desk. Each
    /// row that the journal leaves with a builder is given back.
    pub fn reopen(
        alloc: Global,
        board: Board,
        seat: DeskSeat,
        rows: Rows,
        supply: Supply<'a>,
        blank: Blank,
        text: &str,
    ) -> Result<(Desk<'a, N, C>, Clerk<C>), ReadError>
        requires board { board.table ≡ N.table }
        requires seat { seat.table ≡ N.table }
        requires origin { N.origin
            ≡ record {
              rows = rows;
              stock = stock_of supply;
              builders = length seat.desk.noted;
              journal = Some text.now;
            } }
        requires opened { N.opened ≡ marks_in text.now }
        requires fresh_seat { seat.desk ≡ new_desk (length rows) (length seat.desk.noted) }
        requires fresh_supply { supply ≡ opened_stock (stock_of supply) }
        requires ledger { (blank.name ≡ C.name) × (blank.parts ≡ C.parts) × (blank.parts ≡ 1024) }
        ensures clerk { IfOk result (λ made. made.1 ≡ record { parts = 1024; receipts = [] }) }
        ensures board { IfOk result (λ made. made.0.board ≡ board) }
        ensures opening { IfOk result (λ made. made.0.opening ≡ rows) }
        ensures found { OnOk result (IsNamedJournal N.opened rows text.now) }
        ensures only { (ms : List MarkedValue) → IsJournalText rows text.now ms
            → IfErr result (λ e. e ≡ ReadError.NoMemory) }
        ensures fault { IfErr result (FaultOf rows text.now) }
    {
        let Ok(opening) = rows.copy() else {
            // (by calls, so that the proof of this body stays short)
            drop(board);
            drop(seat);
            drop(rows);
            drop(supply);
            return Err(ReadError::NoMemory);
        };
        match read_back(alloc, &board, seat, rows, supply, text) {
            Ok((book, ticks)) => Ok(begin(alloc, board, opening, book, ticks, blank)),
            Err(fault) => {
                drop(board);
                drop(opening);
                Err(fault)
            }
        }
    }

    /// The number of a key's row. It needs no lock, as the rows of a desk stay the same ones.
    pub fn row_no(&self, key: &Key) -> Option<usize>
        ensures found { IfSome result (IsAt self.now.opening key.now) }
        ensures absent { IfNone result (row_of self.now.opening key.now ≡ None) }
    {
        self.opening.number(key)
    }

    /// The key of the row with a number. It needs no lock.
    pub fn key_at(&self, row: usize) -> Option<&Key>
        ensures { option_copied result ≡ slice_get (keys_of self.now.opening) row }
    {
        match self.opening.at(row) {
            Some((key, _)) => Some(key),
            None => None,
        }
    }

    /// Lends the locked book.
    pub fn look<T, F: FnOnce(&Book<'a>) -> T, R: Wait>(&self, rt: &R, f: F) -> T
        requires { F.IsAlwaysCallable f }
        ensures { (book : BookModel) × IsOfDesk N.table N.origin book
            × FnOnceReturnsAt F.FnOnce f book result }
    {
        let locked = self.locked.lock(rt);
        f(locked.book())
    }

    /// Says that nothing more comes: builders whom no row waits for go home. No other call says so.
    pub fn shut<R: Wait>(&self, rt: &R) -> Shut<N>
        requires { N.may_shut ≡ true }
    {
        self.locked.shut(rt)
    }

    /// A builder's claim of a row, without the lock.
    pub fn claim(&self, row: usize, seat: &mut BuilderSeat) -> bool
        requires { seat.old.table ≡ N.table }
        ensures { MatchBool result
            (IsWon self.now.board.rows row seat.old seat.new)
            (IsLost self.now.board.rows row seat.old seat.new) }
    {
        self.board.claim(row, seat)
    }
}

// The book of a journal whose text it is over the opening rows, and ticks for its entries.
fn read_back<'a>(
    alloc: Global,
    board: &Board,
    seat: DeskSeat,
    rows: Rows,
    supply: Supply<'a>,
    text: &str,
) -> Result<(Book<'a>, Vec<Tick>), ReadError>
    requires board { board.now.table ≡ seat.table }
    requires fresh_seat { seat.desk ≡ new_desk (length rows) (length seat.desk.noted) }
    requires fresh_supply { supply ≡ opened_stock (stock_of supply) }
    ensures begun { IfOk result (λ made.
        IsBegun seat.table
        (record {
          rows = rows;
          stock = stock_of supply.entry;
          builders = length seat.desk.noted;
          journal = Some text.now;
        })
        (marks_in text.now) made.0) }
    ensures named { OnOk result (IsNamedJournal (marks_in text.now) rows text.now) }
    ensures ticks { IfOk result (λ made.
        AreBegun (marks_in text.now) (length made.0.history.journal) made.1.items) }
    ensures only { (ms : List MarkedValue) → IsJournalText rows text.now ms
        → IfErr result (λ e. e ≡ ReadError.NoMemory) }
    ensures fault { IfErr result (FaultOf rows text.now) }
{
    // (a text's length is a `usize`)
    let _len = text.len();
    let book = match Book::reopen(alloc, board, seat, rows, supply, text) {
        Ok(book) => book,
        Err(fault) => return Err(fault),
    };
    match with_ticks(alloc, text, book) {
        Ok(made) => Ok(made),
        Err(_) => Err(ReadError::NoMemory),
    }
}

// A book with ticks for its entries, the first of which have the marks of a text.
fn with_ticks<'a>(
    alloc: Global,
    text: &str,
    book: Book<'a>,
) -> Result<(Book<'a>, Vec<Tick>), AllocError>
    ensures book { IfOk result (λ made. made.0 ≡ book.entry) }
    ensures ticks { IfOk result (λ made.
        AreBegun (marks_in text.now) (length book.entry.history.journal) made.1.items) }
{
    let mut ticks = Vec::new(alloc);
    let made = set_ticks(alloc, &mut ticks, text, book.journal().as_slice().len());
    // (so the book is freed nowhere here, which would cost the check fifteen seconds)
    made.and(Ok((book, ticks)))
}

// A desk that begins with a book, and the clerk with all parts of its ledger.
fn begin<'a, N: Named, C: Ledger>(
    alloc: Global,
    board: Board,
    opening: Rows,
    book: Book<'a>,
    ticks: Vec<Tick>,
    blank: Blank,
) -> (Desk<'a, N, C>, Clerk<C>)
    requires board { board.table ≡ N.table }
    requires book { book.fixed.table ≡ N.table }
    requires origin { book.history.opening ≡ N.origin.rows }
    requires stocked { book.fixed.stock ≡ N.origin.stock }
    requires staffed { book.fixed.builders ≡ N.origin.builders }
    requires began { Begins N.origin book.history.journal }
    requires still { still_undone book.history.journal N.opened ≡ true }
    requires none { changes N.opened book ≡ [] }
    requires ticks { AreBegun N.opened (length book.history.journal) ticks.items }
    requires ledger { (blank.name ≡ C.name) × (blank.parts ≡ C.parts) × (blank.parts ≡ 1024) }
    ensures clerk { result.1 ≡ record { parts = 1024; receipts = [] } }
    ensures board { result.0.board ≡ board }
    ensures opening { result.0.opening ≡ opening }
{
    let (ledger, share) = blank.open::<C>();
    let desk = Desk {
        alloc,
        board,
        opening,
        locked: Lock::new(Locked::new(book, ledger, ticks)),
    };
    let clerk = Clerk {
        share,
        parts: PARTS,
        receipts: Vec::new(alloc),
    };
    (desk, clerk)
}
