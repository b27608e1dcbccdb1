//! The builders of a crew, who do nothing else than work.
ghost use Rattle.std.specs.Prelude.{◌≡◌, ◌⊎◌, ◌+◌, ◌<◌, ◌-◌, ◌^◌, [], ℕ, List, IfErr, IfOk, IsSome};
ghost use Rattle.std.specs.Prelude.{OnErr, OnOk, OnSome, length, map};
ghost use Rattle.td_board.specs.Seats.{new_seats};
ghost use Rattle.td_builder.specs.Floors.{IsIdle};
ghost use Rattle.td_builder.specs.Rounds.{AsksInRounds};
ghost use Rattle.td_builder.specs.Turns.{Worked, WorkedUntil};

use std::alloc::{AllocError, Global};
use std::sync::Wait;
use td_board::BuilderSeat;
use td_builder::{Builds, Floor, work};
use td_desk::{Hired, Home, Homes, Named, hire};

/// A builder who has a seat at the named board, and does nothing else on it than to work.
#[derive(Drop)]
pub struct Worker<N: Named> {
    hired: Hired<N>,
}

impl<N: Named> Worker<N> {
    /// Builds, as `td_builder::work` does.
    pub fn work<F: Floor, B: Builds, R: Wait>(
        &mut self,
        rt: &R,
        floor: &F,
        builds: &mut B,
    ) -> Result<(u64, Option<F::Home>), F::Stopped>
        requires { N.table ≡ F.table floor.now }
        ensures worked { IfOk result (λ done. Worked (F.jobs floor.now) (F.ends floor.now)
            B.goes_on done.0 self.old.hired.seat builds.old self.new.hired.seat builds.new) }
        ensures asked { IfOk result (λ done. (left : List ℕ)
            × AsksInRounds (F.rows floor.now) (F.offers floor.now) left self.old.hired.seat
            self.new.hired.seat × (done.0 < 2 ^ 64 - 1 → left ≡ [])) }
        ensures idle { OnOk result (IsIdle self.new.hired.seat) }
        ensures ended { IfOk result (λ done. OnSome done.1 (F.ended floor.now)) }
        ensures home { IfOk result (λ done. IsSome done.1 ⊎ (done.0 ≡ 2 ^ 64 - 1)) }
        ensures meanwhile { OnErr result (WorkedUntil (F.jobs floor.now) (F.ends floor.now)
            (F.breaks_off floor.now) B.goes_on self.old.hired.seat builds.old self.new.hired.seat
            builds.new) }
        ensures asked_meanwhile { OnErr result ((left : List ℕ)
            × AsksInRounds (F.rows floor.now) (F.offers floor.now) left self.old.hired.seat
            self.new.hired.seat) }
        ensures stopped { IfErr result (λ stop. F.stopped floor.now (F.reason stop)) }
    {
        work(rt, floor, &mut self.hired.seat, builds)
    }

    /// Goes home, and leaves the seat.
    pub fn go(self, home: Home<N>, homes: &mut Homes<N>)
        requires { IsIdle self.hired.seat }
        ensures { homes.old.count < 2 ^ 64 - 1 → homes.new.count ≡ homes.old.count + 1 }
    {
        homes.add(home, self.hired);
    }
}

// Each of those who are hired, as one who only works.
fn each<N: Named>(alloc: Global, hired: Vec<Hired<N>>) -> Result<Vec<Worker<N>>, AllocError>
    ensures { IfOk result (λ workers. map (λ w. w.hired) workers.items ≡ hired.items) }
{
    let mut workers = Vec::with_capacity(alloc, hired.len())?;
    for one in hired {
        workers
            .push(Worker { hired: one })
            .map_err(AllocError::from)?;
    }
    Ok(workers)
}

/// A builder on each of the seats, which are new, and that none has gone home.
#[tactic(auto, using(td_board::proofs::NewSeats::seats_at))]
pub fn hire_workers<N: Named>(
    alloc: Global,
    seats: Vec<BuilderSeat>,
) -> Result<(Vec<Worker<N>>, Homes<N>), AllocError>
    requires new { seats.items ≡ new_seats N.table 1 (length seats.items) }
    requires all { length seats.items ≡ N.origin.builders }
    ensures hired { IfOk result (λ made.
        map (λ h. h.seat) (map (λ w. w.hired) made.0.items) ≡ seats.items) }
    ensures none { IfOk result (λ made. made.1.count ≡ 0) }
{
    let (hired, homes) = hire::<N>(alloc, seats)?;
    let workers = each(alloc, hired)?;
    Ok((workers, homes))
}
