//! The rows with which a desk opens: Installed with the greatest rebuild number, or Needs-Build.
ghost use Rattle.std.specs.Prelude.{◌≡◌, ◌<◌, Some, None, length, slice_get, if◌then◌else◌};
ghost use Rattle.td_version.specs.Version.{parts_of};
ghost use Rattle.td_relation.specs.TableView.{table};
ghost use Rattle.td_indices.specs.Rows.{has_row as has_row_of};
ghost use Rattle.td_indices.specs.Kept.{binaries_of, binary_of};
ghost use Rattle.td_indices.specs.Opening.{
  current_number as current_number_of,
  is_current as is_current_of,
  greater as greater_of,
  greatest_at,
  opening_of,
  rebuild_number as rebuild_number_of,
  with_number as with_number_of,
};

use crate::binaries::Binaries;
use crate::packaged::{PackageKey, Packaged};
use crate::rows::has_row;
use crate::sourced::Sourced;
use std::alloc::Global;
use td_relation::Archs;
use td_rows::{Line, Priority, RebuildNumber, Row, State};
use td_version::{Version, is_same_version, split_rebuild};

/// The number of the rebuild that a version ends in.
fn rebuild_number(version: &str) -> RebuildNumber
    ensures { result ≡ rebuild_number_of version.now }
{
    let (_, number) = split_rebuild(version);
    match RebuildNumber::new(number) {
        Some(number) => number,
        None => RebuildNumber::zero(),
    }
}

fn greater(best: Option<RebuildNumber>, number: RebuildNumber) -> Option<RebuildNumber>
    ensures { result ≡ greater_of best number }
{
    match best {
        Some(so_far) if number.get() < so_far.get() => Some(so_far),
        _ => Some(number),
    }
}

fn with_number(best: Option<RebuildNumber>, number: Option<RebuildNumber>) -> Option<RebuildNumber>
    ensures { result ≡ with_number_of best number }
{
    match number {
        Some(number) => greater(best, number),
        None => best,
    }
}

/// Whether a package is on exactly the architecture and was built from the version.
fn is_current(
    key: &PackageKey<'_>,
    packaged: &Packaged<'_>,
    parts: &Version<'_>,
    place: usize,
) -> bool
    ensures { result
        ≡ is_current_of (parts_of parts.now) place (binary_of (key.now, packaged.now)) }
{
    key.arch == Some(place) && is_same_version(&packaged.source_parts, parts)
}

/// The rebuild number of a package, if it was built on the architecture from the version.
fn number_of(
    key: &PackageKey<'_>,
    packaged: &Packaged<'_>,
    parts: &Version<'_>,
    place: usize,
) -> Option<RebuildNumber>
    ensures { result
        ≡ current_number_of (parts_of parts.now) place (Some (binary_of (key.now, packaged.now))) }
{
    if is_current(key, packaged, parts, place) {
        Some(rebuild_number(packaged.version))
    } else {
        None
    }
}

/// The rebuild number of the package with a number, if it was built on the architecture from the
/// version.
fn current_number(
    binaries: &Binaries<'_>,
    number: usize,
    parts: &Version<'_>,
    place: usize,
) -> Option<RebuildNumber>
    ensures { result ≡ current_number_of (parts_of parts.now) place
        (slice_get (binaries_of binaries.now) number) }
{
    match binaries.get_index(number) {
        Some((key, packaged)) => number_of(key, packaged, parts, place),
        None => None,
    }
}

/// The greatest rebuild number among the packages that were built on the architecture from the
/// version.
pub fn greatest_number(
    binaries: &Binaries<'_>,
    numbers: &[usize],
    parts: &Version<'_>,
    place: usize,
) -> Option<RebuildNumber>
    ensures { result ≡ greatest_at (binaries_of binaries.now) (parts_of parts.now) place
        None numbers.now }
{
    let mut best = None;
    for number in numbers {
        best = with_number(best, current_number(binaries, *number, parts, place));
    }
    best
}

/// The row with which a source opens on an architecture. It takes no memory.
pub fn opening(alloc: Global, best: Option<RebuildNumber>) -> Row
    ensures { result ≡ opening_of best }
{
    match best {
        None => Row::blank(alloc),
        Some(number) => Row {
            state: State::Installed,
            priority: Priority::zero(),
            number,
            dep_wait: Line::empty(alloc),
            extra: Line::empty(alloc),
        },
    }
}

/// The row of a source, whose packages have these numbers, on the architecture at a place.
pub fn opening_on(
    alloc: Global,
    archs: &Archs<'_>,
    binaries: &Binaries<'_>,
    numbers: &[usize],
    sourced: &Sourced<'_>,
    place: usize,
) -> Option<Row>
    requires { place < length (table archs.now) }
    ensures { result ≡ (if has_row_of (table archs.now) sourced.now.archs.now place
        then Some (opening_of (greatest_at (binaries_of binaries.now)
        (parts_of sourced.now.parts) place None numbers.now)) else None) }
{
    if has_row(archs, sourced.archs, place) {
        let best = greatest_number(binaries, numbers, &sourced.parts, place);
        Some(opening(alloc, best))
    } else {
        None
    }
}
