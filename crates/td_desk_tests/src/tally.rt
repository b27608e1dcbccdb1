//! What clerks and builders count while they are at a desk together.
use std::alloc::Global;
use std::sync::Wait;
use std::sync::atomic::{AtomicBool, AtomicU64, Ordering};
use std::test::Fail;
use td_book::Job;
use td_builder::Builds;
use td_rows::Outcome;

// The answer to a clerk's call.
#[derive(Clone, Copy, PartialEq, Eq)]
pub(crate) enum Answer {
    Accepted,
    Refused,
    // An answer that no call may have.
    Wrong,
}

// What was counted: calls that were accepted, answers that no call may have, builds that began, and
// builds that builders finished.
#[derive(Drop)]
pub(crate) struct Tally {
    accepted: AtomicU64,
    wrong: AtomicU64,
    begun: AtomicU64,
    finished: AtomicU64,
    ended: AtomicBool,
}

impl Tally {
    pub(crate) fn new() -> Tally {
        Tally {
            accepted: AtomicU64::new(0),
            wrong: AtomicU64::new(0),
            begun: AtomicU64::new(0),
            finished: AtomicU64::new(0),
            ended: AtomicBool::new(false),
        }
    }

    pub(crate) fn note(&self, answer: Answer) {
        match answer {
            Answer::Accepted => {
                self.accepted.fetch_add(1, Ordering::SeqCst);
            }
            Answer::Refused => {}
            Answer::Wrong => {
                self.wrong.fetch_add(1, Ordering::SeqCst);
            }
        }
    }

    // Builds were finished.
    pub(crate) fn finish(&self, builds: u64) {
        self.finished.fetch_add(builds, Ordering::SeqCst);
    }

    // The clerks are done.
    pub(crate) fn end(&self) {
        self.ended.store(true, Ordering::SeqCst);
    }

    pub(crate) fn has_ended(&self) -> bool {
        self.ended.load(Ordering::SeqCst)
    }

    // Whether more than a few builds have begun.
    pub(crate) fn is_busy(&self) -> bool {
        self.begun.load(Ordering::SeqCst) > 100
    }

    // How the next build ends: builds are given back or fail, in turn, and succeed in the end.
    pub(crate) fn outcome(&self) -> Outcome {
        let number = self.begun.fetch_add(1, Ordering::SeqCst);
        if self.has_ended() {
            return Outcome::Built;
        }
        if number % 4 == 0 {
            Outcome::Attempted
        } else {
            Outcome::GivenBack
        }
    }

    // What was counted, after this many calls.
    pub(crate) fn told(&self, alloc: Global, calls: u64) -> Result<String, Fail> {
        let begun = self.begun.load(Ordering::SeqCst);
        Ok(format!(in alloc;
            "wrong {}, accepted some {}, built some {}, counted all {}",
            self.wrong.load(Ordering::SeqCst),
            self.accepted.load(Ordering::SeqCst) > calls / 9,
            self.is_busy(),
            self.finished.load(Ordering::SeqCst) == begun
        )?)
    }
}

impl Builds for &Tally {
    ghost goes_on = { λ tally job outcome after. Unit {0} };

    fn build<R: Wait>(&mut self, _rt: &R, _job: Job) -> Outcome {
        (**self).outcome()
    }
}
