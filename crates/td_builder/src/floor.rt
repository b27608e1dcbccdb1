//! Where builders find rows, and how a row is built.
ghost use Rattle.std.specs.Prelude.{◌≡◌, ℕ, List, IfOk, IfErr, OnOk, OnErr, OnSome, MatchBool};
ghost use Rattle.td_board.specs.Answers.{IsWon, IsLost};
ghost use Rattle.td_builder.specs.Floors.{IsHolding, IsFinished, IsRefused};
ghost use Rattle.td_builder.specs.Stops.{start_stop, finish_stop};

use crate::stop::WorkStop;
use std::alloc::AllocError;
use std::sync::Wait;
use td_board::BuilderSeat;
use td_book::{FinishRefusal, Job, StartRefusal};
use td_journal::EntryNo;
use td_rows::Outcome;

/// A way to build, as one builder has it: builders who share one have a reference each. A job is
/// handed over to it, and so is built once.
pub trait Builds {
    ghost use Rattle.td_book.specs.declared.starting.Job.{Job as JobValue};
    ghost use Rattle.td_rows.specs.declared.outcome.Outcome.{Outcome as OutcomeValue};

    /// How it goes on by a build: from what it is, by a job and how that ended, to what it is then.
    ghost goes_on: { Self → JobValue → OutcomeValue → Self → Type 0 };

    /// Builds what the job says, and answers how that ended.
    fn build<R: Wait>(&mut self, rt: &R, job: Job) -> Outcome
        ensures { goes_on self.old job result self.new };
}

/// What a call of a floor gives: a value that tells one answer. If only the call itself can make
/// the value, no answer is made up.
pub trait Tells<A> {
    /// The answer.
    ghost tells: { Self → A };

    /// Takes the answer out.
    fn answer(self) -> A
        ensures { result ≡ tells self };
}

/// Where builders find rows. Many builders' threads share one.
pub trait Floor {
    ghost use Rattle.atomic_table.specs.Seated.{TableId};
    ghost use Rattle.td_board.specs.Seats.{BuilderModel};
    ghost use Rattle.td_book.specs.declared.starting.Job.{Job as JobValue};
    ghost use Rattle.td_rows.specs.declared.outcome.Outcome.{Outcome as OutcomeValue};
    ghost use Rattle.td_builder.specs.declared.stop.WorkStop.{WorkStop as WorkStopValue};

    /// What it gives a builder to go home with: none goes home without it.
    type Home;

    /// What `ready` gives. Its answer is the numbers of the rows.
    type Offer: Tells<Vec<usize>>;

    /// What `start` gives: it tells the job, or why there is none.
    type Started: Tells<Result<Job, StartRefusal>>;

    /// What `finish` gives: it tells the number of the entry, or why there is none.
    type Ended: Tells<Result<EntryNo, FinishRefusal>>;

    /// What `stop` gives a builder: none stops without it.
    type Stopped;

    /// The table of the board at which its builders sit.
    ghost table: { Self → TableId };

    /// How many rows the board has.
    ghost rows: { Self → ℕ };

    /// Which numbers `ready` may answer to the builder of a seat, as the seat stands, in which order.
    ghost offers: { Self → BuilderModel → List ℕ → Type 0 };

    /// Which jobs `start` may answer to the builder of a seat, as it is.
    ghost jobs: { Self → BuilderModel → JobValue → Type 0 };

    /// What is known of a builder's seat, as it was, and an outcome once `finish` has answered
    /// that the build of the row in hand ended with it, text included.
    ghost ends: { Self → BuilderModel → OutcomeValue → Type 0 };

    /// What is known of a builder's seat, as it was, and an outcome once `finish` was refused
    /// though the build of the row in hand ended with it.
    ghost breaks_off: { Self → BuilderModel → OutcomeValue → Type 0 };

    /// What is known once `wait_for_work` has said that nothing more comes.
    ghost ended: { Self → Type 0 };

    /// What is known once one of its calls was refused: for what the builder stops.
    ghost stopped: { Self → WorkStopValue → Type 0 };

    /// Why a builder stops, by what it was given.
    ghost reason: { Self.Stopped → WorkStopValue };

    /// The numbers of the rows that wait for the builder, in the order in which they are to be
    /// tried.
    fn ready<R: Wait>(&self, rt: &R, seat: &BuilderSeat) -> Result<Self::Offer, AllocError>
        ensures offered { IfOk result (λ ready.
            offers self.now seat.now (Self.Offer.tells ready).items) }
        ensures err { OnErr result (stopped self.now WorkStop.NoMemory) };

    /// Claims a row, as a board does.
    fn claim(&self, row: usize, seat: &mut BuilderSeat) -> bool
        requires { seat.old.table ≡ table self.now }
        ensures { MatchBool result
            (IsWon (rows self.now) row seat.old seat.new)
            (IsLost (rows self.now) row seat.old seat.new) };

    /// Starts the build of the row that the builder holds.
    fn start<R: Wait>(&self, rt: &R, seat: &BuilderSeat) -> Self::Started
        requires { seat.now.table ≡ table self.now }
        ensures job { IfOk (Self.Started.tells result) (jobs self.now seat.now) }
        ensures err { IfErr (Self.Started.tells result) (λ e. stopped self.now (start_stop e)) };

    /// Ends the build of the row that the builder holds. If that is refused, it may have ended
    /// all the same, as the seat says.
    fn finish<R: Wait>(&self, rt: &R, seat: &mut BuilderSeat, outcome: Outcome) -> Self::Ended
        requires table { seat.old.table ≡ table self.now }
        requires hand { IsHolding seat.old }
        ensures ok { OnOk (Self.Ended.tells result)
            (IsFinished (ends self.now) outcome seat.old seat.new) }
        ensures seat { OnErr (Self.Ended.tells result)
            (IsRefused (breaks_off self.now) outcome seat.old seat.new) }
        ensures err { IfErr (Self.Ended.tells result) (λ e. stopped self.now (finish_stop e)) };

    /// Waits until a row waits for a builder, or the floor is shut. If it is shut, and none
    /// waits, the builder gets what it goes home with.
    fn wait_for_work<R: Wait>(&self, rt: &R) -> Option<Self::Home>
        ensures { OnSome result (ended self.now) };

    /// Notes that a builder stops, for what one of the calls was refused for.
    fn stop<R: Wait>(&self, rt: &R, why: WorkStop) -> Self::Stopped
        requires { stopped self.now why }
        ensures { reason result ≡ why };
}
