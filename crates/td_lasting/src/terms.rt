//! By what the lines of a desk are answered.
use td_report::Transition;

/// What the lines of a desk are answered by, beside its history and what is on offer.
#[derive(Drop)]
pub struct Terms<'l, 's, 'r, 'b, 't, 'a, 'q> {
    /// The suites that a command may name.
    pub suites: &'l [&'s str],
    /// What makes reports, where there is a tracker.
    pub reports: Option<&'r Transition<'b, 't, 'a, 'q>>,
}
