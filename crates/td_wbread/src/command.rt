//! A command, and where its packages stand.
ghost use Rattle.td_wbread.specs.inner.Places.{FindsPackages, FindsPackages-prop};

use crate::places::Places;
use td_rows::{Line, Priority, RebuildNumber};

/// What a command does to the rows that it names.
#[derive(Clone, Copy)]
pub enum Verb {
    /// Gives builds back.
    Gb,
    /// Schedules rebuilds, under a number that isn't 0 or under each row's next.
    Nmu(Option<RebuildNumber>),
    /// Sets the priority.
    Bp(Priority),
    /// Lets builds wait for the relation that is the message.
    Dw,
}

/// A package that a command names.
#[derive(Drop)]
pub struct Package {
    pub source: String,
    /// The version that the source has to have, where one is given.
    pub version: Option<String>,
}

/// A command: what is to be done, and to which rows.
#[derive(Drop)]
pub struct Command<'a> {
    pub verb: Verb,
    pub packages: Vec<Package>,
    /// Where the packages of each source stand.
    pub(crate) places: Places,
    /// The names of the chosen architectures, in the order of their table.
    pub archs: Vec<&'a str>,
    /// The message of a rebuild or the relation to wait for; empty where there is none.
    pub message: Line,
    /// What a rebuild needs in addition to its build dependencies; empty if nothing.
    pub extra: Line,
    ghost found: { FindsPackages packages.items places } by { FindsPackages-prop packages.items
        places },
}
