//! Builds that wait for one another.
use std::sync::Wait;
use std::sync::atomic::{AtomicU64, Ordering};
use td_book::Job;
use td_builder::Builds;
use td_rows::Outcome;

/// How many turns a build waits for another.
const MOST_TURNS: u32 = 100_000_000;

/// Builds that wait for one another: each is built once two have begun, and else an attempt.
#[derive(Drop)]
pub struct Together {
    begun: AtomicU64,
}

impl Together {
    /// None has begun.
    pub fn new() -> Together {
        Together {
            begun: AtomicU64::new(0),
        }
    }
}

impl Builds for &Together {
    ghost goes_on = { λ together job outcome after. Unit {0} };

    fn build<R: Wait>(&mut self, _rt: &R, _job: Job) -> Outcome {
        self.begun.fetch_add(1, Ordering::SeqCst);
        for _ in 0..MOST_TURNS {
            if self.begun.load(Ordering::SeqCst) > 1 {
                return Outcome::Built;
            }
        }
        Outcome::Attempted
    }
}
