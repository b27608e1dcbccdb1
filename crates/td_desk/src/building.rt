//! The calls of builders.
ghost use Rattle.std.specs.Prelude.{◌≡◌, IfOk, is_none};
ghost use Rattle.td_core.specs.History.{rows_of};
ghost use Rattle.td_book.specs.Desk.{BookModel};
ghost use Rattle.td_book.specs.Ready.{is_any_queued};
ghost use Rattle.td_desk.specs.Calls.{IsOfDesk, MayBeReady, Starting, Finishing};

use crate::answers::{Ended, Ready, Started};
use crate::desk::Desk;
use crate::home::Home;
use crate::named::Named;
use std::alloc::AllocError;
use std::snapshot::Snapshot;
use std::sync::Wait;
use std::sync::ledger::Ledger;
use td_board::BuilderSeat;
use td_rows::Outcome;

impl<'a, N: Named, C: Ledger> Desk<'a, N, C> {
    /// The numbers of the rows that wait for a builder, in the order in which they are to be tried.
    pub fn ready<R: Wait>(&self, rt: &R) -> Result<Ready<N>, AllocError>
        ensures { IfOk result (λ ready. MayBeReady N.table N.origin ready.numbers.items) }
    {
        let locked = self.locked.lock(rt);
        let numbers = locked.book().ready()?;
        Ok(Ready::of(&locked, numbers))
    }

    /// Starts the build of the row that the builder holds.
    pub fn start<R: Wait>(&self, rt: &R, seat: &BuilderSeat) -> Started<N>
        requires { seat.now.table ≡ N.table }
        ensures { Starting seat.now N.table N.origin result.answer }
    {
        let mut locked = self.locked.lock(rt);
        let before = Snapshot::of(locked.book());
        let answer = locked.start(&self.board, seat);
        Started::of(before, &locked, seat, answer)
    }

    /// Ends the build of the row that the builder holds.
    pub fn finish<R: Wait>(&self, rt: &R, seat: &mut BuilderSeat, outcome: Outcome) -> Ended<N>
        requires { seat.old.table ≡ N.table }
        ensures table { seat.new.table ≡ seat.old.table }
        ensures outcome { result.outcome.value ≡ outcome }
        ensures answer { Finishing outcome seat.old seat.new N.table N.origin result.answer }
    {
        let (was, told) = (Snapshot::of(&*seat), Snapshot::of(&outcome));
        let mut locked = self.locked.lock(rt);
        let before = Snapshot::of(locked.book());
        let answer = locked.finish(&self.board, seat, outcome);
        let ended = Ended::of(before, &locked, was, seat, told, answer);
        drop(locked);
        self.locked.wake();
        ended
    }

    /// Waits until a row waits for a builder, or the desk is shut. If it is shut, and none waits,
    /// the builder gets what it goes home with.
    pub fn wait_for_work<R: Wait>(&self, rt: &R) -> Option<Home<N>>
        ensures { (book : BookModel) × IsOfDesk N.table N.origin book
            × (is_none result ≡ is_any_queued (rows_of book.history)) }
    {
        self.locked.lock_awake(rt).home()
    }
}
