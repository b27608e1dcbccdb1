//! The desk as a floor on which builders find rows: each call answers what the desk's does.
ghost use Rattle.std.specs.Prelude.{◌≡◌, IfErr, IfOk, OnOk, OnErr, OnSome, is_none};
ghost use Rattle.td_core.specs.History.{rows_of};
ghost use Rattle.td_book.specs.Desk.{BookModel};
ghost use Rattle.td_book.specs.Ready.{is_any_queued};
ghost use Rattle.td_builder.specs.Floors.{IsHolding, IsFinished, IsRefused};
ghost use Rattle.td_desk.specs.Calls.{IsOfDesk, Starting, Finishing, MayStart, MayBeReady};
ghost use Rattle.td_desk.specs.Calls.{IsAtEnd, MayEnd, MayBreakOff};

use crate::answers::{Ended, Ready, Started};
use crate::desk::Desk;
use crate::home::Home;
use crate::named::Named;
use std::alloc::AllocError;
use std::sync::Wait;
use std::sync::ledger::Ledger;
use td_board::BuilderSeat;
use td_builder::{Floor, WorkStop};
use td_rows::Outcome;

impl<'a, N: Named, C: Ledger> Floor for Desk<'a, N, C> {
    ghost use Rattle.td_desk.specs.Calls.{IsAtEnd, MayBeReady, MayBreakOff, MayEnd, MayStart};

    type Home = Home<N>;

    type Offer = Ready<N>;

    type Started = Started<N>;

    type Ended = Ended<N>;

    type Stopped = WorkStop;

    ghost table = { λ d. N.table };

    ghost rows = { λ d. d.board.rows };

    ghost offers = { λ d seat. MayBeReady N.table N.origin };

    ghost jobs = { λ d. MayStart N.table N.origin };

    ghost ends = { λ d. MayEnd N.table N.origin };

    ghost breaks_off = { λ d. MayBreakOff N.table N.origin };

    ghost ended = { λ d. IsAtEnd N.table N.origin };

    ghost stopped = { λ d why. Unit {0} };

    ghost reason = { λ why. why };

    fn ready<R: Wait>(&self, rt: &R, _seat: &BuilderSeat) -> Result<Ready<N>, AllocError>
        ensures offered { IfOk result (λ ready. MayBeReady N.table N.origin ready.numbers.items) }
        ensures err { OnErr result (Unit {0}) }
    {
        Desk::ready(self, rt)
    }

    fn claim(&self, row: usize, seat: &mut BuilderSeat) -> bool {
        Desk::claim(self, row, seat)
    }

    #[tactic(auto, using(crate::proofs::Flooring::started))]
    fn start<R: Wait>(&self, rt: &R, seat: &BuilderSeat) -> Started<N>
        requires { seat.now.table ≡ N.table }
        ensures answer { Starting seat.now N.table N.origin result.answer }
        ensures job { IfOk result.answer (MayStart N.table N.origin seat.now) }
        ensures err { IfErr result.answer (λ e. Unit {0}) }
    {
        Desk::start(self, rt, seat)
    }

    #[tactic(auto, using(crate::proofs::Flooring::finished, crate::proofs::Flooring::kept_or_finished))]
    fn finish<R: Wait>(&self, rt: &R, seat: &mut BuilderSeat, outcome: Outcome) -> Ended<N>
        requires table { seat.old.table ≡ N.table }
        requires hand { IsHolding seat.old }
        ensures outcome { result.outcome.value ≡ outcome }
        ensures answer { Finishing outcome seat.old seat.new N.table N.origin result.answer }
        ensures ok { OnOk result.answer
            (IsFinished (MayEnd N.table N.origin) outcome seat.old seat.new) }
        ensures seat { OnErr result.answer
            (IsRefused (MayBreakOff N.table N.origin) outcome seat.old seat.new) }
        ensures err { IfErr result.answer (λ e. Unit {0}) }
    {
        Desk::finish(self, rt, seat, outcome)
    }

    #[tactic(auto, using(crate::proofs::Flooring::at_end))]
    fn wait_for_work<R: Wait>(&self, rt: &R) -> Option<Home<N>>
        ensures answer { (book : BookModel) × IsOfDesk N.table N.origin book
            × (is_none result ≡ is_any_queued (rows_of book.history)) }
        ensures ended { OnSome result (IsAtEnd N.table N.origin) }
    {
        Desk::wait_for_work(self, rt)
    }

    fn stop<R: Wait>(&self, _rt: &R, why: WorkStop) -> WorkStop {
        why
    }
}
