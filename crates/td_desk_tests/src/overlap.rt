//! The answers to two builders whose builds wait for one another.
use crate::people::{People, work_of};
use crate::together::Together;
use std::sync::ledger::Ledger;
use std::sync::{Mutex, Wait};
use std::thread;
use std::thread::Threads;
use td_builder::WorkStop;
use td_desk::{Desk, Hired, Homes, Named};

// The answers to the work of these two, at the same time.
fn work_both<N: Named + Send + Sync, C: Ledger + Send + Sync, R: Threads + Wait + Sync>(
    rt: &R,
    desk: &Desk<'static, N, C>,
    one: Hired<N>,
    two: Hired<N>,
    homes: &Mutex<Homes<N>>,
) -> (Result<u64, WorkStop>, Result<u64, WorkStop>) {
    let together = Together::new();
    let (mut first, mut second) = (&together, &together);
    let ((one, _), (two, _)) = thread::join(
        rt,
        || work_of(rt, desk, one, &mut first, homes),
        || work_of(rt, desk, two, &mut second, homes),
    );
    (one, two)
}

// The answers to the work of the last two builders, at the same time; nothing without two.
pub(crate) fn work_together<
    N: Named + Send + Sync,
    C: Ledger + Send + Sync,
    R: Threads + Wait + Sync,
>(
    rt: &R,
    desk: &Desk<'static, N, C>,
    people: &mut People<N, C>,
) -> Option<(Result<u64, WorkStop>, Result<u64, WorkStop>)> {
    let two = people.builders.pop()?;
    let one = people.builders.pop()?;
    Some(work_both(rt, desk, one, two, &people.homes))
}
