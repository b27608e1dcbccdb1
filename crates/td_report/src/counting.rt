//! How many rows are counted in a report.
ghost use Rattle.std.specs.Prelude.{◌≡◌, count_by};
ghost use Rattle.td_report.specs.inner.ItemLines.{has_status, is_installed};

use crate::item::Item;
use td_query::Status;

/// How many of the rows have a status.
pub fn count_of(items: &[Item<'_>], status: Status) -> usize
    ensures { result ≡ count_by (has_status status) items.now }
{
    let mut count = 0;
    for item in items {
        if item.has_status(status) {
            count += 1;
        }
    }
    count
}

/// How many of the rows are Installed.
pub fn count_installed(items: &[Item<'_>]) -> usize
    ensures { result ≡ count_by is_installed items.now }
{
    let mut count = 0;
    for item in items {
        if item.is_installed() {
            count += 1;
        }
    }
    count
}
