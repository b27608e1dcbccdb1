//! A builder's work.
ghost use Rattle.std.specs.Prelude.{◌≡◌, ◌≤◌, ◌<◌, ◌⊎◌, ◌^◌, ◌-◌, ℕ, List, [], IfOk, IfErr, OnOk};
ghost use Rattle.std.specs.Prelude.{IsSome, OnErr, OnSome};
ghost use Rattle.td_builder.specs.Floors.{IsHolding, IsIdle};
ghost use Rattle.td_builder.specs.Rounds.{Asks, AsksInRounds, Claims, IsAsked};
ghost use Rattle.td_builder.specs.Turns.{Worked, WorkedUntil};

use crate::floor::{Builds, Floor, Tells};
use crate::stop::{WorkStop, finish_stop, start_stop};
use std::sync::Wait;
use td_board::{BuilderSeat, Hand};

/// Claims rows of the floor, in the order in which it offers them, and builds them until the floor
/// ends, and answers how many builds were finished, and with what the builder goes home. A row that
/// the seat comes with is built first. If it stops, the floor has noted why; the seat says then where
/// the builder is, and the next `work` goes on from there. It ends at the last `u64`, too, without
/// going home.
pub fn work<F: Floor, B: Builds, R: Wait>(
    rt: &R,
    floor: &F,
    seat: &mut BuilderSeat,
    builds: &mut B,
) -> Result<(u64, Option<F::Home>), F::Stopped>
    requires { seat.old.table ≡ F.table floor.now }
    ensures worked { IfOk result (λ done. Worked (F.jobs floor.now) (F.ends floor.now) B.goes_on
        done.0 seat.old builds.old seat.new builds.new) }
    ensures table { seat.new.table ≡ seat.old.table }
    // Rows are asked for offer by offer: all of an offer, except at the last `u64`.
    ensures asked { IfOk result (λ done. (left : List ℕ)
        × AsksInRounds (F.rows floor.now) (F.offers floor.now) left seat.old seat.new
        × (done.0 < 2 ^ 64 - 1 → left ≡ [])) }
    ensures idle { OnOk result (IsIdle seat.new) }
    ensures ended { IfOk result (λ done. OnSome done.1 (F.ended floor.now)) }
    ensures home { IfOk result (λ done. IsSome done.1 ⊎ (done.0 ≡ 2 ^ 64 - 1)) }
    ensures meanwhile { OnErr result (WorkedUntil (F.jobs floor.now) (F.ends floor.now)
        (F.breaks_off floor.now) B.goes_on seat.old builds.old seat.new builds.new) }
    ensures asked_meanwhile { OnErr result ((left : List ℕ)
        × AsksInRounds (F.rows floor.now) (F.offers floor.now) left seat.old seat.new) }
    ensures stopped { IfErr result (λ stop. F.stopped floor.now (F.reason stop)) }
{
    let mut built = 0u64;
    if let Hand::Holding(_) = seat.hand() {
        build_held(rt, floor, seat, builds)?;
        built = 1;
    }
    for _ in rt.forever() {
        let Ok(ready) = floor.ready(rt, seat) else {
            return Err(floor.stop(rt, WorkStop::NoMemory));
        };
        let ready = ready.answer();
        built += build_each(rt, floor, ready.as_slice(), u64::MAX - built, seat, builds)?;
        if built == u64::MAX {
            return Ok((built, None));
        }
        if let Some(home) = floor.wait_for_work(rt) {
            return Ok((built, Some(home)));
        }
    }
    Ok((built, None))
}

// Claims each row, and builds those whose claims are won, at most `most`. Answers how many builds
// were finished.
fn build_each<F: Floor, B: Builds, R: Wait>(
    rt: &R,
    floor: &F,
    rows: &[usize],
    most: u64,
    seat: &mut BuilderSeat,
    builds: &mut B,
) -> Result<u64, F::Stopped>
    requires table { seat.old.table ≡ F.table floor.now }
    requires idle { IsIdle seat.old }
    ensures worked { IfOk result (λ n. Worked (F.jobs floor.now) (F.ends floor.now) B.goes_on n
        seat.old builds.old seat.new builds.new × (n ≤ most)) }
    ensures asked { IfOk result (λ n. (left : List ℕ)
        × Asks (F.rows floor.now) rows.now left seat.old seat.new × (n < most → left ≡ [])) }
    ensures idle { OnOk result (IsIdle seat.new) }
    ensures meanwhile { OnErr result (WorkedUntil (F.jobs floor.now) (F.ends floor.now)
        (F.breaks_off floor.now) B.goes_on seat.old builds.old seat.new builds.new) }
    ensures asked_meanwhile { OnErr result ((left : List ℕ)
        × Asks (F.rows floor.now) rows.now left seat.old seat.new) }
    ensures stopped { IfErr result (λ stop. F.stopped floor.now (F.reason stop)) }
{
    let mut built = 0u64;
    for row in rows {
        if built == most {
            return Ok(built);
        }
        built += claim_and_build(rt, floor, *row, seat, builds)?;
    }
    Ok(built)
}

// Claims a row, and builds it if the claim is won. Answers how many builds were finished.
fn claim_and_build<F: Floor, B: Builds, R: Wait>(
    rt: &R,
    floor: &F,
    row: usize,
    seat: &mut BuilderSeat,
    builds: &mut B,
) -> Result<u64, F::Stopped>
    requires table { seat.old.table ≡ F.table floor.now }
    requires idle { IsIdle seat.old }
    ensures worked { IfOk result (λ n. Worked (F.jobs floor.now) (F.ends floor.now) B.goes_on n
        seat.old builds.old seat.new builds.new × (n ≤ 1)) }
    ensures asked { Claims (IsAsked (F.rows floor.now) row) seat.old seat.new }
    ensures idle { OnOk result (IsIdle seat.new) }
    ensures meanwhile { OnErr result (WorkedUntil (F.jobs floor.now) (F.ends floor.now)
        (F.breaks_off floor.now) B.goes_on seat.old builds.old seat.new builds.new) }
    ensures stopped { IfErr result (λ stop. F.stopped floor.now (F.reason stop)) }
{
    if !floor.claim(row, seat) {
        return Ok(0);
    }
    build_held(rt, floor, seat, builds)?;
    Ok(1)
}

// Builds the row in hand.
fn build_held<F: Floor, B: Builds, R: Wait>(
    rt: &R,
    floor: &F,
    seat: &mut BuilderSeat,
    builds: &mut B,
) -> Result<(), F::Stopped>
    requires table { seat.old.table ≡ F.table floor.now }
    requires hand { IsHolding seat.old }
    ensures worked { OnOk result (Worked (F.jobs floor.now) (F.ends floor.now) B.goes_on 1
        seat.old builds.old seat.new builds.new) }
    ensures unasked { Claims (λ claims. claims ≡ []) seat.old seat.new }
    ensures idle { OnOk result (IsIdle seat.new) }
    ensures meanwhile { OnErr result (WorkedUntil (F.jobs floor.now) (F.ends floor.now)
        (F.breaks_off floor.now) B.goes_on seat.old builds.old seat.new builds.new) }
    ensures stopped { IfErr result (λ stop. F.stopped floor.now (F.reason stop)) }
{
    let job = match floor.start(rt, seat).answer() {
        Ok(job) => job,
        Err(refusal) => return Err(floor.stop(rt, start_stop(refusal))),
    };
    let outcome = builds.build(rt, job);
    match floor.finish(rt, seat, outcome).answer() {
        Ok(_) => Ok(()),
        Err(refusal) => Err(floor.stop(rt, finish_stop(refusal))),
    }
}
