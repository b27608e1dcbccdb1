//! Why a text is no tracker.
ghost use Rattle.std.specs.Prelude.{◌≡◌};
ghost use Rattle.td_query.specs.TrackerFaults.{fault_name, key_name};

use thiserror::Error;

/// A key that a tracker needs.
#[derive(Clone, Copy, Debug, PartialEq, Eq)]
pub enum TrackerKey {
    IsAffected,
    IsGood,
    IsBad,
}

impl TrackerKey {
    /// The key as a tracker has it.
    pub fn name(self) -> &'static str
        ensures name { result.now ≡ key_name self }
    {
        match self {
            TrackerKey::IsAffected => "is_affected",
            TrackerKey::IsGood => "is_good",
            TrackerKey::IsBad => "is_bad",
        }
    }
}

/// Why a text isn't read as a tracker: the first fault from the left, then what is missing.
#[derive(Clone, Copy, Debug, PartialEq, Eq, Error)]
pub enum TrackerFault {
    /// At this place is the first byte that no token and no rule can take.
    #[error("byte {0}: syntax")]
    Syntax(usize),
    #[error("no key {0:?}")]
    MissingKey(TrackerKey),
    /// `regex` refuses the pattern whose opening `/` is at this place, or finds it too large.
    #[error("byte {0}: bad pattern")]
    BadPattern(usize),
    #[error("want of memory")]
    NoMemory,
}

impl TrackerFault {
    /// The name that is printed.
    pub fn name(self) -> &'static str
        ensures name { result.now ≡ fault_name self }
    {
        match self {
            TrackerFault::Syntax(_) => "Syntax",
            TrackerFault::MissingKey(_) => "MissingKey",
            TrackerFault::BadPattern(_) => "BadPattern",
            TrackerFault::NoMemory => "NoMemory",
        }
    }
}
