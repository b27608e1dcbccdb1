//! What a report says of a row.
ghost use Rattle.std.specs.Prelude.{◌≡◌};
ghost use Rattle.td_report.specs.Report.{same_status as same_status_of};

use td_query::Status;
use td_rows::{Key, Row, State};
use td_waves::Level;

/// An affected row. `level` is that of its source among the affected ones.
#[derive(Clone, Copy)]
pub struct Item<'r> {
    pub key: &'r Key,
    pub row: &'r Row,
    pub status: Status,
    pub level: Option<Level>,
}

impl<'r> Item<'r> {
    ghost use Rattle.std.specs.Prelude.{◌≡◌};
    ghost use Rattle.td_report.specs.inner.ItemLines.{has_status, is_installed};

    /// Whether the row is Installed.
    pub fn is_installed(&self) -> bool
        ensures { result ≡ is_installed self.now }
    {
        matches!(self.row.state, State::Installed)
    }

    pub fn has_status(&self, status: Status) -> bool
        ensures { result ≡ has_status status self.now }
    {
        same_status(status, self.status)
    }
}

// Whether two statuses are one.
fn same_status(status: Status, other: Status) -> bool
    ensures { result ≡ same_status_of status other }
{
    status == other
}
