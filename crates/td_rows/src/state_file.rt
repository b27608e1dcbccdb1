//! Why a text is no state file.
ghost use Rattle.std.specs.Prelude.{◌≡◌};
ghost use Rattle.td_rows.specs.FaultNames.{name_of};

use thiserror::Error;

/// Why a text isn't a state file: the first fault from its first line on. Lines count from 1.
#[derive(Clone, Copy, Debug, PartialEq, Eq, Drop, Error)]
pub enum StateFault {
    /// The line isn't a row's.
    #[error("line {0} isn't a row's")]
    BadLine(usize),
    /// An earlier line has the key.
    #[error("line {0} has the key of an earlier one")]
    Twice(usize),
    /// The row is Building: no builder has a row when the desk opens.
    #[error("the row of line {0} is Building")]
    NotOpening(usize),
    /// There are more rows than the limit.
    #[error("there are too many rows")]
    TooManyRows,
    #[error("want of memory")]
    NoMemory,
}

impl StateFault {
    /// The name that the program prints.
    pub fn name(self) -> &'static str
        ensures { result.now ≡ name_of self }
    {
        match self {
            StateFault::BadLine(_) => "BadLine",
            StateFault::Twice(_) => "Twice",
            StateFault::NotOpening(_) => "NotOpening",
            StateFault::TooManyRows => "TooManyRows",
            StateFault::NoMemory => "NoMemory",
        }
    }
}
