//! Why a line is no command.
use thiserror::Error;

/// What is wrong with a line that is no command.
#[derive(Clone, Copy, Debug, PartialEq, Eq, Drop, Error)]
pub enum LineFault {
    #[error("a quote isn't closed")]
    UnterminatedQuote,
    #[error("no such command")]
    UnknownCommand,
    #[error("a number is missing, or out of range")]
    BadNumber,
    #[error("no package is named")]
    NoPackage,
    #[error("this is no package")]
    BadPackage,
    #[error("the dot behind the packages is missing")]
    NoDot,
    #[error("no architecture is named")]
    NoArch,
    #[error("no such architecture")]
    UnknownArch,
    #[error("no such suite")]
    UnknownSuite,
    #[error("this is no relation")]
    BadRelation,
    #[error("the message is missing")]
    MissingMessage,
    #[error("this is too much")]
    Extra,
    #[error("the value of the option is missing")]
    MissingValue,
}

/// Why a line wasn't read as a command.
#[derive(Clone, Copy, Debug, PartialEq, Eq, Drop, Error)]
pub enum CommandFault {
    /// The first fault from the left, and its place in the line, in bytes.
    #[error("{0} (at byte {1})")]
    Wrong(LineFault, usize),
    #[error("want of memory")]
    NoMemory,
}

impl LineFault {
    ghost use Rattle.std.specs.Prelude.{◌≡◌};
    ghost use Rattle.td_wbread.specs.FaultNames.{name_of};

    /// The name that is printed after `refused: `.
    pub fn name(self) -> &'static str
        ensures { result.now ≡ name_of self }
    {
        match self {
            LineFault::UnterminatedQuote => "UnterminatedQuote",
            LineFault::UnknownCommand => "UnknownCommand",
            LineFault::BadNumber => "BadNumber",
            LineFault::NoPackage => "NoPackage",
            LineFault::BadPackage => "BadPackage",
            LineFault::NoDot => "NoDot",
            LineFault::NoArch => "NoArch",
            LineFault::UnknownArch => "UnknownArch",
            LineFault::UnknownSuite => "UnknownSuite",
            LineFault::BadRelation => "BadRelation",
            LineFault::MissingMessage => "MissingMessage",
            LineFault::Extra => "Extra",
            LineFault::MissingValue => "MissingValue",
        }
    }
}
