//! Which rows of a report have a line.

use td_query::Status;

/// The statuses whose rows have a line in a report. The lines over the rows of a level and the last
/// line count all rows.
#[derive(Clone, Copy)]
pub struct Shown {
    pub good: bool,
    pub bad: bool,
    pub partial: bool,
    pub unknown: bool,
}

impl Shown {
    ghost use Rattle.std.specs.Prelude.{◌≡◌};
    ghost use Rattle.td_report.specs.Report.{all_shown, shows};

    /// Each row has its line.
    pub fn all() -> Shown
        ensures { result ≡ all_shown }
    {
        Shown {
            good: true,
            bad: true,
            partial: true,
            unknown: true,
        }
    }

    /// Whether rows of a status have a line.
    pub fn has(&self, status: Status) -> bool
        ensures { result ≡ shows self.now status }
    {
        match status {
            Status::Good => self.good,
            Status::Bad => self.bad,
            Status::Partial => self.partial,
            Status::Unknown => self.unknown,
        }
    }
}
