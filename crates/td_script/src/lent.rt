//! What is lent, together with a book, to those who answer lines.
use crate::reports::Reports;
use std::alloc::Global;
use td_board::Board;

/// What it takes to answer a script's lines from a book without builders. That it is lent to the
/// book, with reports that fit it, is no field: that speaks of the book, and what `fits` says is
/// left to `Reports`. So each call asks for it, by `IsLentTo`.
#[derive(Drop)]
pub struct Lent<'l, 's, 'r, R: Reports> {
    pub alloc: Global,
    /// The board at which the book has its seat.
    pub board: &'l Board,
    /// The suites that a command may name.
    pub suites: &'l [&'s str],
    /// What makes reports, if there is a tracker.
    pub reports: Option<&'r R>,
}
