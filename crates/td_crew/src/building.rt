//! The builders of a crew, on threads of their own.
ghost use Rattle.std.specs.Prelude.{OnOk};
ghost use Rattle.td_builder.specs.Floors.{IsIdle};

use crate::ends::Stopped;
use crate::shift::Shift;
use crate::worker::Worker;
use std::sync::Wait;
use std::sync::ledger::Ledger;
use td_builder::Builds;
use td_desk::{Home, Named};

// One builder, until it may go home, without a row, or stops.
fn build<N: Named, C: Ledger, B: Builds, R: Wait>(
    rt: &R,
    shift: &Shift<'_, '_, N, C>,
    worker: &mut Worker<N>,
    builds: &mut B,
) -> Result<Home<N>, Stopped<N>>
    ensures { OnOk result (IsIdle worker.new.hired.seat) }
{
    for _ in rt.forever() {
        // (work ends at the last number, too, and goes on from there)
        if let (_, Some(home)) = worker.work(rt, shift, builds)? {
            return Ok(home);
        }
    }
    unreachable!()
}

/// One builder, in its thread: it builds, and is counted, with its seat, by what its work ended
/// with. That can't be let go, and there is one seat, so no builder is counted as anything else.
pub fn serve<N: Named, C: Ledger, B: Builds + Copy, R: Wait>(
    rt: &R,
    shift: &Shift<'_, '_, N, C>,
    worker: Worker<N>,
    builds: B,
) {
    let (mut worker, mut builds) = (worker, builds);
    let end = build(rt, shift, &mut worker, &mut builds);
    shift.count(rt, end, worker);
}
