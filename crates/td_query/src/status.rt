//! The status of an affected row.
ghost use Rattle.std.specs.Prelude.{◌≡◌};
ghost use Rattle.td_query.specs.Statuses.{status_name};

/// How far the rebuild of an affected row has come.
#[derive(Clone, Copy, PartialEq, Eq)]
pub enum Status {
    /// The row is good, and not bad.
    Good,
    /// The row is bad, and not good.
    Bad,
    /// The row is good and bad.
    Partial,
    /// The row is neither good nor bad.
    Unknown,
}

impl Status {
    /// The name that a report prints.
    pub fn name(self) -> &'static str
        ensures name { result.now ≡ status_name self }
    {
        match self {
            Status::Good => "good",
            Status::Bad => "bad",
            Status::Partial => "partial",
            Status::Unknown => "unknown",
        }
    }
}
