//! What was opened of texts, as it is lent.

use td_indices::Archive;
use td_query::Tracker;
use td_rows::Rows;

/// A tracker with its text.
#[derive(Drop)]
pub struct GivenTracker<'q> {
    pub tracker: Tracker<'q>,
    pub text: &'q str,
}

/// What was opened of texts: the archive of the table and the indices, and what is given over it.
#[derive(Drop)]
pub struct Opened<'o, 't, 'a, 'g, 'q> {
    pub archive: &'o Archive<'t, 'a>,
    /// The rows of a state file, if one is given, instead of those with which a desk opens over the
    /// archive. If none is, the archive says the rows (`Archive::opening_rows`).
    pub rows: Option<Rows>,
    pub tracker: Option<&'g GivenTracker<'q>>,
}
