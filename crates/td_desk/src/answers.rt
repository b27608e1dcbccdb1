//! The answers to the calls of builders and clerks. Each is made of the book under the lock, as it
//! was before the call and as the call leaves it: no body can make one up.
ghost use Rattle.std.specs.Prelude.{◌≡◌, None, MatchResult};
ghost use Rattle.td_core.specs.History.{rows_of};
ghost use Rattle.td_wbread.specs.Views.{parts_of};
ghost use Rattle.td_book.specs.Arriving.{ArriveOutcome, SweepOutcome};
ghost use Rattle.td_book.specs.Building.{StartOutcome};
ghost use Rattle.td_book.specs.Commands.{IsDone};
ghost use Rattle.td_book.specs.Ready.{IsReady};
ghost use Rattle.td_desk.specs.Calls.{FinishTold, Finishing, IsOfDesk, MayBeReady, Starting};
ghost use Rattle.td_desk.specs.Calls.{UndoTold};

use crate::locked::Locked;
use crate::named::Named;
use std::alloc::AllocError;
use std::marker::PhantomData;
use std::snapshot::Snapshot;
use std::sync::ledger::Ledger;
use td_board::BuilderSeat;
use td_book::{
    ArriveRefusal, Book, CommandRefusal, FinishRefusal, Job, StartRefusal, Taken, UndoRefusal,
};
use td_builder::Tells;
use td_journal::EntryNo;
use td_rows::{Key, Outcome};
use td_wbread::Command;

/// The answer to who asks for work: the numbers of the rows that wait for a builder.
pub struct Ready<N: Named> {
    numbers: Vec<usize>,
    of: PhantomData<N>,
}

impl<N: Named> Ready<N> {
    /// The numbers of the rows that wait for a builder, by what lies under the lock.
    pub(crate) fn of<C: Ledger>(locked: &Locked<'_, N, C>, numbers: Vec<usize>) -> Ready<N>
        requires of_desk { IsOfDesk N.table N.origin locked.now.book }
        requires ready { IsReady (rows_of locked.now.book.history) numbers.items }
        ensures numbers { result.numbers.items ≡ numbers.items }
        ensures told { MayBeReady N.table N.origin result.numbers.items }
    {
        let _by = locked;
        Ready {
            numbers,
            of: PhantomData,
        }
    }
}

impl<N: Named> Tells<Vec<usize>> for Ready<N> {
    ghost tells = { λ ready. ready.numbers };

    fn answer(self) -> Vec<usize> {
        let Ready { numbers, of: _ } = self;
        numbers
    }
}

/// The answer to a start.
pub struct Started<N: Named> {
    answer: Result<Job, StartRefusal>,
    of: PhantomData<N>,
}

impl<N: Named> Started<N> {
    /// The answer to a start, by the book before it, and what lies under the lock after it.
    pub(crate) fn of<C: Ledger>(
        before: Snapshot<Book<'_>>,
        locked: &Locked<'_, N, C>,
        seat: &BuilderSeat,
        answer: Result<Job, StartRefusal>,
    ) -> Started<N>
        requires of_desk { IsOfDesk N.table N.origin before.value }
        requires answer { StartOutcome seat.now.builder.number seat.now.builder.hand before.value
            locked.now.book answer }
        ensures answer { result.answer ≡ answer }
        ensures told { Starting seat.now N.table N.origin result.answer }
    {
        let _by = (before, locked, seat);
        Started {
            answer,
            of: PhantomData,
        }
    }
}

impl<N: Named> Tells<Result<Job, StartRefusal>> for Started<N> {
    ghost tells = { λ started. started.answer };

    fn answer(self) -> Result<Job, StartRefusal> {
        let Started { answer, of: _ } = self;
        answer
    }
}

/// The answer to the end of a build, and the outcome that the builder told the book.
pub struct Ended<N: Named> {
    answer: Result<EntryNo, FinishRefusal>,
    outcome: Snapshot<Outcome>,
    of: PhantomData<N>,
}

impl<N: Named> Ended<N> {
    /// The answer to an end, by the book and seat before it, and by `locked` and seat after it.
    pub(crate) fn of<C: Ledger>(
        before: Snapshot<Book<'_>>,
        locked: &Locked<'_, N, C>,
        was: Snapshot<BuilderSeat>,
        seat: &BuilderSeat,
        outcome: Snapshot<Outcome>,
        answer: Result<EntryNo, FinishRefusal>,
    ) -> Ended<N>
        requires of_desk { IsOfDesk N.table N.origin before.value }
        requires answer { FinishTold outcome.value was.value.builder seat.now.builder before.value
            locked.now.book answer }
        ensures answer { result.answer ≡ answer }
        ensures outcome { result.outcome.value ≡ outcome.value }
        ensures told { Finishing outcome.value was.value seat.now N.table N.origin result.answer }
    {
        let _by = (before, locked, was, seat);
        Ended {
            answer,
            outcome,
            of: PhantomData,
        }
    }
}

impl<N: Named> Tells<Result<EntryNo, FinishRefusal>> for Ended<N> {
    ghost tells = { λ ended. ended.answer };

    fn answer(self) -> Result<EntryNo, FinishRefusal> {
        let Ended {
            answer,
            outcome: _,
            of: _,
        } = self;
        answer
    }
}

/// The answer to an undo, and its entry.
pub struct Undone<N: Named> {
    answer: Result<(), UndoRefusal>,
    entry: EntryNo,
    of: PhantomData<N>,
}

impl<N: Named> Undone<N> {
    /// The answer to an undo, by the book before it, and what lies under the lock after it.
    pub(crate) fn of<C: Ledger>(
        before: Snapshot<Book<'_>>,
        locked: &Locked<'_, N, C>,
        n: EntryNo,
        answer: Result<(), UndoRefusal>,
    ) -> Undone<N>
        requires of_desk { IsOfDesk N.table N.origin before.value }
        requires answer { UndoTold n before.value locked.now.book answer }
        ensures answer { result.answer ≡ answer }
        ensures entry { result.entry ≡ n }
    {
        let _by = (before, locked);
        Undone {
            answer,
            entry: n,
            of: PhantomData,
        }
    }
}

impl<N: Named> Tells<Result<(), UndoRefusal>> for Undone<N> {
    ghost tells = { λ undone. undone.answer };

    fn answer(self) -> Result<(), UndoRefusal> {
        let Undone {
            answer,
            entry: _,
            of: _,
        } = self;
        answer
    }
}

/// The answer to a command, and the command.
pub struct Commanded<'c, N: Named> {
    answer: Result<Taken, CommandRefusal>,
    command: Snapshot<Command<'c>>,
    of: PhantomData<N>,
}

impl<'c, N: Named> Commanded<'c, N> {
    /// The answer to a command, by the book before it, and what lies under the lock after it.
    pub(crate) fn of<C: Ledger>(
        before: Snapshot<Book<'_>>,
        locked: &Locked<'_, N, C>,
        command: &Command<'c>,
        answer: Result<Taken, CommandRefusal>,
    ) -> Commanded<'c, N>
        requires of_desk { IsOfDesk N.table N.origin before.value }
        requires answer { IsDone (parts_of command.now) before.value locked.now.book answer }
        ensures answer { result.answer ≡ answer }
        ensures command { result.command.value ≡ command.now }
    {
        let _by = (before, locked, command);
        Commanded {
            answer,
            command: Snapshot::of(command),
            of: PhantomData,
        }
    }
}

impl<'c, N: Named> Tells<Result<Taken, CommandRefusal>> for Commanded<'c, N> {
    ghost tells = { λ commanded. commanded.answer };

    fn answer(self) -> Result<Taken, CommandRefusal> {
        let Commanded {
            answer,
            command: _,
            of: _,
        } = self;
        answer
    }
}

/// The answer to an arrival, and the key of the build that arrived.
pub struct Arrived<N: Named> {
    answer: Result<EntryNo, ArriveRefusal>,
    key: Snapshot<Key>,
    of: PhantomData<N>,
}

impl<N: Named> Arrived<N> {
    /// The answer to an arrival, by the book before it, and what lies under the lock after it.
    pub(crate) fn of<C: Ledger>(
        before: Snapshot<Book<'_>>,
        locked: &Locked<'_, N, C>,
        key: &Key,
        answer: Result<EntryNo, ArriveRefusal>,
    ) -> Arrived<N>
        requires of_desk { IsOfDesk N.table N.origin before.value }
        requires answer { ArriveOutcome key.now before.value locked.now.book answer }
        ensures answer { result.answer ≡ answer }
        ensures key { result.key.value ≡ key.now }
    {
        let _by = (before, locked, key);
        Arrived {
            answer,
            key: Snapshot::of(key),
            of: PhantomData,
        }
    }
}

impl<N: Named> Tells<Result<EntryNo, ArriveRefusal>> for Arrived<N> {
    ghost tells = { λ arrived. arrived.answer };

    fn answer(self) -> Result<EntryNo, ArriveRefusal> {
        let Arrived {
            answer,
            key: _,
            of: _,
        } = self;
        answer
    }
}

/// The answer to a sweep.
pub struct Swept<N: Named> {
    answer: Result<Option<EntryNo>, AllocError>,
    of: PhantomData<N>,
}

impl<N: Named> Swept<N> {
    /// The answer to a sweep, by the book before it, and what lies under the lock after it.
    pub(crate) fn of<C: Ledger>(
        before: Snapshot<Book<'_>>,
        locked: &Locked<'_, N, C>,
        answer: Result<Option<EntryNo>, AllocError>,
    ) -> Swept<N>
        requires of_desk { IsOfDesk N.table N.origin before.value }
        requires answer { SweepOutcome before.value locked.now.book answer }
        ensures { result.answer ≡ answer }
    {
        let (_before, _locked) = (before, locked);
        Swept {
            answer,
            of: PhantomData,
        }
    }

    /// The number of its entry, if it made one, while the answer is still to be taken out.
    pub fn entry(&self) -> Option<EntryNo>
        ensures { MatchResult self.now.answer (λ swept. result ≡ swept) (λ _. result ≡ None) }
    {
        match self.answer {
            Ok(swept) => swept,
            Err(AllocError) => None,
        }
    }
}

impl<N: Named> Tells<Result<Option<EntryNo>, AllocError>> for Swept<N> {
    ghost tells = { λ swept. swept.answer };

    fn answer(self) -> Result<Option<EntryNo>, AllocError> {
        let Swept { answer, of: _ } = self;
        answer
    }
}
