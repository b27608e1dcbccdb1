//! The rows of an architecture, and which of them open as Needs-Build.
ghost use Rattle.std.specs.Prelude.{◌≡◌, ℕ, List, ◌<◌, false, count_by, length, slice_get};
ghost use Rattle.std.specs.List.{list_any};
ghost use Rattle.std.specs.Option.{option_map_or};
ghost use Rattle.td_version.specs.Version.{parts_of};
ghost use Rattle.td_indices.specs.Archive.{is_of};
ghost use Rattle.td_indices.specs.Opening.{is_current as is_current_of};
ghost use Rattle.td_details.specs.Counts.{has_built, is_queued_there, is_there};

use td_indices::{Archive, Source};
use td_version::{Version, is_same_version};

// Whether the binary package with a number was built on the architecture from the version.
fn is_current(archive: &Archive<'_, '_>, number: usize, parts: &Version<'_>, place: usize) -> bool
    ensures { result ≡ option_map_or (is_current_of (parts_of parts.now) place)
        (slice_get archive.now.binaries number) false }
{
    match archive.binary(number) {
        Some(binary) => {
            binary.arch == Some(place) && is_same_version(&binary.source_parts, parts)
        }
        None => false,
    }
}

// Whether some package of the source was built on the architecture from it as it is now.
fn is_built(archive: &Archive<'_, '_>, source: &Source<'_>, place: usize) -> bool
    ensures { result ≡ has_built archive.now source.now.name.now (parts_of source.now.parts) place }
{
    for number in archive.packages_of(source.name) {
        if is_current(archive, *number, &source.parts, place) {
            return true;
        }
    }
    false
}

// Whether the row of the source with a number on the architecture opens as Needs-Build.
#[tactic(auto, using(crate::proofs::NeedsBuild::queued_there))]
fn is_queued(archive: &Archive<'_, '_>, number: usize, place: usize) -> bool
    requires { place < length archive.now.table }
    ensures { result ≡ option_map_or (is_queued_there archive.now place)
        (slice_get archive.now.sources number) false }
{
    let Some(source) = archive.source_at(number) else {
        return false;
    };
    archive.has_row(number, place) && !is_built(archive, &source, place)
}

/// How many rows the architecture at a place has.
#[tactic(auto, using(crate::proofs::Counting::counted_more))]
pub fn row_count(archive: &Archive<'_, '_>, place: usize) -> usize
    requires { place < length archive.now.table }
    ensures { result ≡ count_by (is_there archive.now place) archive.now.sources }
{
    let mut count = 0;
    for number in 0..archive.source_count() {
        if archive.has_row(number, place) {
            count += 1;
        }
    }
    count
}

/// How many rows of the architecture at a place open as Needs-Build.
#[tactic(auto, using(crate::proofs::Counting::counted_more))]
pub fn queued_count(archive: &Archive<'_, '_>, place: usize) -> usize
    requires { place < length archive.now.table }
    ensures { result ≡ count_by (is_queued_there archive.now place) archive.now.sources }
{
    let mut count = 0;
    for number in 0..archive.source_count() {
        if is_queued(archive, number, place) {
            count += 1;
        }
    }
    count
}
