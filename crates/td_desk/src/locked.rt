//! What lies under the lock of a desk.
ghost use Rattle.std.specs.Prelude.{◌≡◌, ◌||◌, ◌<◌, length, vec_capacity, not};
ghost use Rattle.std.specs.Prelude.{true, false, OnOk, OnErr, OnSome, IfOk, MatchOption, is_none};
ghost use Rattle.td_book.specs.Arriving.{ArriveOutcome, SweepOutcome};
ghost use Rattle.td_book.specs.Building.{StartOutcome};
ghost use Rattle.td_book.specs.Ready.{is_any_queued};
ghost use Rattle.td_core.specs.History.{rows_of};
ghost use Rattle.td_desk.specs.declared.receipt.Receipt.TheVariants as receipt;
ghost use Rattle.td_wbread.specs.Views.{parts_of};
ghost use Rattle.td_book.specs.Commands.{IsDone};
ghost use Rattle.td_desk.specs.Calls.{FinishTold, IsOfDesk, UndoTold, arrival_receipt};
ghost use Rattle.td_desk.specs.Calls.{command_receipt};
ghost use Rattle.td_desk.specs.Changes.{changes};
ghost use Rattle.td_desk.specs.inner.Held.{IsHeld};
ghost use Rattle.td_desk.specs.inner.Telling.{IsTold, IsUntold};

use crate::home::Home;
use crate::named::Named;
use crate::receipt::{Receipt, has_room};
use crate::tick::{Tick, add_ticks};
use crate::told::{Draft, left_out};
use std::alloc::{AllocError, Global};
use std::marker::PhantomData;
use std::sync::ledger;
use std::sync::ledger::{Ledger, Share};
use td_board::{Board, BuilderSeat, Hand};
use td_book::{
    ArriveRefusal, Book, CommandRefusal, FinishRefusal, Job, StartRefusal, Taken, UndoRefusal,
};
use td_journal::{EntryNo, Keys};
use td_rows::{Key, Kind, Outcome};
use td_wbread::Command;

/// That a desk is shut. It is made of what lies under the lock while that is shut, and nothing
/// opens a desk again.
#[derive(Drop)]
pub struct Shut<N: Named> {
    of: PhantomData<N>,
}

impl<N: Named> Shut<N> {
    fn of<C: Ledger>(locked: &Locked<'_, N, C>) -> Shut<N>
        requires { locked.now.shut ≡ true }
    {
        let _shut = locked;
        Shut { of: PhantomData }
    }
}

/// The book, the ledger whose total is the number of its changes, and ticks for its entries, so
/// that closing takes no memory.
#[derive(Drop)]
pub(crate) struct Locked<'a, N: Named, C: Ledger> {
    pub(crate) book: Book<'a>,
    pub(crate) ledger: ledger::Book<C>,
    pub(crate) ticks: Vec<Tick>,
    shut: bool,
    of: PhantomData<N>,
    ghost held: { IsHeld N.table N.origin N.opened book ledger.total ticks.items },
}

impl<'a, N: Named, C: Ledger> Locked<'a, N, C> {
    /// A book with the ledger of its changes, and ticks for its entries.
    pub(crate) fn new(book: Book<'a>, ledger: ledger::Book<C>, ticks: Vec<Tick>) -> Locked<'a, N, C>
        requires { IsHeld N.table N.origin N.opened book ledger.total ticks.items }
        ensures book { result.book ≡ book.entry }
        ensures open { result.shut ≡ false }
    {
        Locked {
            book,
            ledger,
            ticks,
            shut: false,
            of: PhantomData,
        }
    }

    /// The book, as one of the desk's. Each call begins with it, for its own clause `of_desk`.
    pub(crate) fn book(&self) -> &Book<'a>
        ensures book { result.now ≡ self.now.book }
        ensures of_desk { IsOfDesk N.table N.origin self.now.book }
    {
        // (`rows` says that the history is lawful)
        let _lawful = self.book.rows();
        &self.book
    }

    /// Reads the ledger: a share with all parts counts as much as the book has changes.
    #[tactic(auto, using(crate::proofs::Holding::held_audited))]
    pub(crate) fn audit(&mut self, mine: &mut Share<C>)
        ensures book { self.new.book ≡ self.old.book }
        ensures shut { self.new.shut ≡ self.old.shut }
        ensures parts { mine.new.parts ≡ mine.old.parts }
        ensures amount { mine.new.amount ≡ mine.old.amount }
        ensures whole { mine.old.parts ≡ C.parts
            → mine.old.amount ≡ length (changes N.opened self.new.book) }
    {
        self.ledger.audit(mine);
    }

    /// Shuts the desk.
    pub(crate) fn shut(&mut self) -> Shut<N>
        requires { N.may_shut ≡ true }
        ensures shut { self.new.shut ≡ true }
        ensures book { self.new.book ≡ self.old.book }
    {
        self.shut = true;
        Shut::of(self)
    }

    /// Whether who asks for work has to wait: the desk is open, and no row waits for a builder.
    pub(crate) fn is_idle(&self) -> bool
        ensures { result
            ≡ not (self.now.shut || is_any_queued (rows_of self.now.book.history)) }
    {
        !self.shut && !self.book.waits()
    }

    /// What a builder goes home with, if no row waits for one. It is asked of a desk that is shut,
    /// or has a row that waits.
    pub(crate) fn home(&self) -> Option<Home<N>>
        requires { (self.now.shut || is_any_queued (rows_of self.now.book.history)) ≡ true }
        ensures work { is_none result ≡ is_any_queued (rows_of self.now.book.history) }
        ensures shut { OnSome result (self.now.shut ≡ true) }
        ensures of_desk { IsOfDesk N.table N.origin self.now.book }
    {
        if self.book().waits() {
            return None;
        }
        Some(Home::of(self))
    }

    /// A command, with its receipt. If the receipt has no room, memory is missing.
    pub(crate) fn command(
        &mut self,
        alloc: Global,
        board: &Board,
        mine: &mut Share<C>,
        receipts: &mut Vec<Receipt>,
        command: &Command<'_>,
    ) -> Result<Taken, CommandRefusal>
        requires board { board.now.table ≡ N.table }
        requires part { 0 < mine.old.parts }
        ensures told { IfOk result (λ taken. IsTold
            (command_receipt (parts_of command.now) self.old.book taken)
            receipts.old.items receipts.new.items mine.old.amount mine.new.amount
            (changes N.opened self.old.book) (changes N.opened self.new.book)) }
        ensures untold { OnErr result (IsUntold
            receipts.old.items receipts.new.items mine.old.amount mine.new.amount) }
        ensures parts { mine.new.parts ≡ mine.old.parts }
        ensures no_growth { vec_capacity receipts.new ≡ vec_capacity receipts.old }
        ensures shut { self.new.shut ≡ self.old.shut }
        ensures of_desk { IsOfDesk N.table N.origin self.old.book }
        ensures answer { IsDone (parts_of command.now) self.old.book self.new.book result }
    {
        let _of_desk = self.book();
        if !has_room(receipts) {
            return Err(CommandRefusal::NoMemory);
        }
        let Locked {
            book,
            ledger,
            ticks,
            ..
        } = self;
        let Ok(draft) = Draft::of(alloc, book, command) else {
            return Err(CommandRefusal::NoMemory);
        };
        if add_ticks(ticks, book.journal().len(), draft.named.len() + 1).is_err() {
            return Err(CommandRefusal::NoMemory);
        }
        let taken = book.command(board, command)?;
        ledger.add(mine, 1);
        let Draft { kind, named, told } = draft;
        let keys = left_out(named, taken.skips.as_slice(), told);
        receipts.push_reserved(Receipt::Made(taken.number, kind, Keys::new(keys)));
        Ok(taken)
    }

    /// An undo, with its receipt. One that the marks refuse is answered so also if its receipt has
    /// no room.
    pub(crate) fn undo(
        &mut self,
        board: &Board,
        mine: &mut Share<C>,
        receipts: &mut Vec<Receipt>,
        n: EntryNo,
    ) -> Result<(), UndoRefusal>
        requires board { board.now.table ≡ N.table }
        requires part { 0 < mine.old.parts }
        ensures told { OnOk result (IsTold (receipt.Undid n)
            receipts.old.items receipts.new.items mine.old.amount mine.new.amount
            (changes N.opened self.old.book) (changes N.opened self.new.book)) }
        ensures untold { OnErr result (IsUntold
            receipts.old.items receipts.new.items mine.old.amount mine.new.amount) }
        ensures parts { mine.new.parts ≡ mine.old.parts }
        ensures no_growth { vec_capacity receipts.new ≡ vec_capacity receipts.old }
        ensures shut { self.new.shut ≡ self.old.shut }
        ensures of_desk { IsOfDesk N.table N.origin self.old.book }
        ensures answer { UndoTold n self.old.book self.new.book result }
    {
        let _of_desk = self.book();
        let Locked {
            book,
            ledger,
            ticks,
            ..
        } = self;
        if let Some(refusal) = book.undo_refusal(n) {
            return Err(refusal);
        }
        if !has_room(receipts) || add_ticks(ticks, book.journal().len(), 1).is_err() {
            return Err(UndoRefusal::NoMemory);
        }
        book.undo_standing(board, n)?;
        ledger.add(mine, 1);
        receipts.push_reserved(Receipt::Undid(n));
        Ok(())
    }

    /// An arrival, with its receipt. One without a row on which it applies is answered so also if
    /// its receipt has no room.
    pub(crate) fn arrive(
        &mut self,
        mine: &mut Share<C>,
        receipts: &mut Vec<Receipt>,
        key: &Key,
        alloc: Global,
    ) -> Result<EntryNo, ArriveRefusal>
        requires part { 0 < mine.old.parts }
        ensures told { IfOk result (λ n. IsTold (arrival_receipt key.now n)
            receipts.old.items receipts.new.items mine.old.amount mine.new.amount
            (changes N.opened self.old.book) (changes N.opened self.new.book)) }
        ensures untold { OnErr result (IsUntold
            receipts.old.items receipts.new.items mine.old.amount mine.new.amount) }
        ensures parts { mine.new.parts ≡ mine.old.parts }
        ensures no_growth { vec_capacity receipts.new ≡ vec_capacity receipts.old }
        ensures shut { self.new.shut ≡ self.old.shut }
        ensures of_desk { IsOfDesk N.table N.origin self.old.book }
        ensures answer { ArriveOutcome key.now self.old.book self.new.book result }
    {
        let _of_desk = self.book();
        let Locked {
            book,
            ledger,
            ticks,
            ..
        } = self;
        if let Err(refusal) = book.arrival_row(key) {
            return Err(refusal);
        }
        let Ok(keys) = Keys::of_one(alloc, key) else {
            return Err(ArriveRefusal::NoMemory);
        };
        if !has_room(receipts) || add_ticks(ticks, book.journal().len(), 1).is_err() {
            return Err(ArriveRefusal::NoMemory);
        }
        let n = book.arrive(key)?;
        ledger.add(mine, 1);
        receipts.push_reserved(Receipt::Made(n, Kind::Arrive, keys));
        Ok(n)
    }

    /// A sweep, with its receipt. If the receipt has no room, memory is missing.
    pub(crate) fn sweep(
        &mut self,
        board: &Board,
        mine: &mut Share<C>,
        receipts: &mut Vec<Receipt>,
    ) -> Result<Option<EntryNo>, AllocError>
        requires board { board.now.table ≡ N.table }
        requires part { 0 < mine.old.parts }
        ensures told { IfOk result (λ swept. MatchOption swept
            (IsUntold receipts.old.items receipts.new.items mine.old.amount mine.new.amount)
            (λ n. IsTold (receipt.Swept n)
            receipts.old.items receipts.new.items mine.old.amount mine.new.amount
            (changes N.opened self.old.book) (changes N.opened self.new.book))) }
        ensures untold { OnErr result (IsUntold
            receipts.old.items receipts.new.items mine.old.amount mine.new.amount) }
        ensures parts { mine.new.parts ≡ mine.old.parts }
        ensures no_growth { vec_capacity receipts.new ≡ vec_capacity receipts.old }
        ensures shut { self.new.shut ≡ self.old.shut }
        ensures of_desk { IsOfDesk N.table N.origin self.old.book }
        ensures answer { SweepOutcome self.old.book self.new.book result }
    {
        let _of_desk = self.book();
        if !has_room(receipts) {
            return Err(AllocError);
        }
        let Locked {
            book,
            ledger,
            ticks,
            ..
        } = self;
        add_ticks(ticks, book.journal().len(), 1)?;
        let Some(n) = book.sweep(board)? else {
            return Ok(None);
        };
        ledger.add(mine, 1);
        receipts.push_reserved(Receipt::Swept(n));
        Ok(Some(n))
    }

    /// The start of a build.
    pub(crate) fn start(&mut self, board: &Board, seat: &BuilderSeat) -> Result<Job, StartRefusal>
        requires board { board.now.table ≡ N.table }
        requires seat { seat.now.table ≡ N.table }
        ensures shut { self.new.shut ≡ self.old.shut }
        ensures of_desk { IsOfDesk N.table N.origin self.old.book }
        ensures answer { StartOutcome seat.now.builder.number seat.now.builder.hand self.old.book
            self.new.book result }
    {
        let _of_desk = self.book();
        let Locked { book, ticks, .. } = self;
        let Hand::Holding(_) = seat.hand() else {
            return Err(StartRefusal::NothingHeld);
        };
        if add_ticks(ticks, book.journal().len(), 1).is_err() {
            return Err(StartRefusal::NoMemory);
        }
        book.start(board, seat)
    }

    /// The end of a build.
    pub(crate) fn finish(
        &mut self,
        board: &Board,
        seat: &mut BuilderSeat,
        outcome: Outcome,
    ) -> Result<EntryNo, FinishRefusal>
        requires board { board.now.table ≡ N.table }
        requires seat { seat.old.table ≡ N.table }
        ensures table { seat.new.table ≡ seat.old.table }
        ensures shut { self.new.shut ≡ self.old.shut }
        ensures of_desk { IsOfDesk N.table N.origin self.old.book }
        ensures answer { FinishTold outcome seat.old.builder seat.new.builder self.old.book
            self.new.book result }
    {
        let _of_desk = self.book();
        let Locked { book, ticks, .. } = self;
        if matches!(seat.hand(), Hand::Free) {
            return Err(FinishRefusal::NothingHeld);
        }
        if add_ticks(ticks, book.journal().len(), 2).is_err() {
            return Err(FinishRefusal::NoMemory);
        }
        book.finish(board, seat, outcome)
    }
}
