//! Builds that end only when a number of them are under way.
use std::sync::{Barrier, Wait};
use td_book::Job;
use td_builder::Builds;
use td_rows::Outcome;

/// Builds that wait until a number of them are under way. With fewer they wait for good.
#[derive(Drop)]
pub(crate) struct AtOnce {
    all_under_way: Barrier,
}

impl AtOnce {
    pub(crate) fn of(count: usize) -> AtOnce {
        AtOnce {
            all_under_way: Barrier::new(count),
        }
    }
}

impl Builds for &AtOnce {
    ghost goes_on = { λ at_once job outcome after. Unit {0} };

    fn build<R: Wait>(&mut self, rt: &R, _job: Job) -> Outcome {
        let _last = self.all_under_way.wait(rt);
        Outcome::Built
    }
}
