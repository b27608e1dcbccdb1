//! The desk as builders of a crew find it: each call answers what the desk's does.
ghost use Rattle.std.specs.Prelude.{◌≡◌, IfErr, IfOk, OnOk, OnErr, OnSome, is_none};
ghost use Rattle.td_core.specs.History.{rows_of};
ghost use Rattle.td_book.specs.Desk.{BookModel};
ghost use Rattle.td_book.specs.Ready.{is_any_queued};
ghost use Rattle.td_builder.specs.Floors.{IsHolding, IsFinished, IsIdle, IsRefused};
ghost use Rattle.td_desk.specs.Calls.{IsOfDesk, Starting, Finishing, MayStart, MayBeReady};
ghost use Rattle.td_desk.specs.Calls.{IsAtEnd, MayEnd, MayBreakOff};

use crate::ends::{Ends, Stopped};
use crate::worker::Worker;
use std::alloc::AllocError;
use std::sync::ledger::Ledger;
use std::sync::{Mutex, Wait};
use td_board::BuilderSeat;
use td_builder::{Floor, WorkStop};
use td_desk::{Desk, Ended, Home, Homes, Named, Ready, Started};
use td_rows::Outcome;

/// A desk as its builders see it. Once a builder has stopped for memory, `ready` says to the others
/// that memory ran out: the row in that builder's hand would keep them busy for good.
#[derive(Drop)]
pub struct Shift<'d, 'a, N: Named, C: Ledger> {
    pub desk: &'d Desk<'a, N, C>,
    ends: Mutex<Ends<N>>,
}

impl<'d, 'a, N: Named, C: Ledger> Shift<'d, 'a, N, C> {
    pub fn new(desk: &'d Desk<'a, N, C>, homes: Homes<N>) -> Shift<'d, 'a, N, C> {
        Shift {
            desk,
            ends: Mutex::new(Ends::new(homes)),
        }
    }

    /// Counts a builder by how its work ended. It leaves its seat; one that goes home has no row.
    pub fn count<R: Wait>(&self, rt: &R, end: Result<Home<N>, Stopped<N>>, worker: Worker<N>)
        requires { OnOk end (IsIdle worker.hired.seat) }
    {
        self.ends.lock(rt).count(end, worker);
    }

    /// Who has gone home, once no builder has a thread any more; an error if one lacked memory.
    pub fn end(self) -> Result<Homes<N>, AllocError> {
        self.ends.into_inner().end()
    }
}

impl<'d, 'a, N: Named, C: Ledger> Floor for Shift<'d, 'a, N, C> {
    ghost use Rattle.td_desk.specs.Calls.{IsAtEnd, MayBeReady, MayBreakOff, MayEnd, MayStart};

    type Home = Home<N>;

    type Offer = Ready<N>;

    type Started = Started<N>;

    type Ended = Ended<N>;

    type Stopped = Stopped<N>;

    ghost table = { λ s. N.table };

    ghost rows = { λ s. s.desk.now.board.rows };

    ghost offers = { λ s seat. MayBeReady N.table N.origin };

    ghost jobs = { λ s. MayStart N.table N.origin };

    ghost ends = { λ s. MayEnd N.table N.origin };

    ghost breaks_off = { λ s. MayBreakOff N.table N.origin };

    ghost ended = { λ s. IsAtEnd N.table N.origin };

    ghost stopped = { λ s why. Unit {0} };

    ghost reason = { λ stopped. stopped.why };

    fn ready<R: Wait>(&self, rt: &R, _seat: &BuilderSeat) -> Result<Ready<N>, AllocError>
        ensures offered { IfOk result (λ ready. MayBeReady N.table N.origin ready.numbers.items) }
        ensures err { OnErr result (Unit {0}) }
    {
        if self.ends.lock(rt).want_memory() {
            return Err(AllocError);
        }
        self.desk.ready(rt)
    }

    fn claim(&self, row: usize, seat: &mut BuilderSeat) -> bool {
        self.desk.claim(row, seat)
    }

    fn start<R: Wait>(&self, rt: &R, seat: &BuilderSeat) -> Started<N>
        requires { seat.now.table ≡ N.table }
        ensures answer { Starting seat.now N.table N.origin result.answer }
        ensures job { IfOk result.answer (MayStart N.table N.origin seat.now) }
        ensures err { IfErr result.answer (λ e. Unit {0}) }
    {
        Floor::start(self.desk, rt, seat)
    }

    fn finish<R: Wait>(&self, rt: &R, seat: &mut BuilderSeat, outcome: Outcome) -> Ended<N>
        requires table { seat.old.table ≡ N.table }
        requires hand { IsHolding seat.old }
        ensures outcome { result.outcome.value ≡ outcome }
        ensures answer { Finishing outcome seat.old seat.new N.table N.origin result.answer }
        ensures ok { OnOk result.answer
            (IsFinished (MayEnd N.table N.origin) outcome seat.old seat.new) }
        ensures seat { OnErr result.answer
            (IsRefused (MayBreakOff N.table N.origin) outcome seat.old seat.new) }
        ensures err { IfErr result.answer (λ e. Unit {0}) }
    {
        Floor::finish(self.desk, rt, seat, outcome)
    }

    fn wait_for_work<R: Wait>(&self, rt: &R) -> Option<Home<N>>
        ensures answer { (book : BookModel) × IsOfDesk N.table N.origin book
            × (is_none result ≡ is_any_queued (rows_of book.history)) }
        ensures ended { OnSome result (IsAtEnd N.table N.origin) }
    {
        Floor::wait_for_work(self.desk, rt)
    }

    fn stop<R: Wait>(&self, rt: &R, why: WorkStop) -> Stopped<N> {
        self.ends.lock(rt).stop(why)
    }
}
