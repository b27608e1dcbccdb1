//! An offer, and the rebuild of it that has arrived.
use td_version::Version;

/// Whose rebuild an offer may be: a binary package of the source, which a rebuild offers at this
/// version with its number after it.
#[derive(Clone, Copy)]
pub struct Build<'a> {
    pub source: &'a str,
    pub base: Version<'a>,
}

/// The version of a rebuild that has arrived: the base, with another last part.
#[derive(Drop)]
pub struct Rebuilt<'a> {
    pub base: Version<'a>,
    pub last: String,
}

/// An offer, and the rebuild of it that has arrived, if one has.
#[derive(Drop)]
pub struct Stocked<'a> {
    pub name: &'a str,
    pub version: Option<Version<'a>>,
    /// The place of its architecture in the table; `None` for `all`.
    pub arch: Option<usize>,
    pub build: Option<Build<'a>>,
    pub rebuilt: Option<Rebuilt<'a>>,
}
