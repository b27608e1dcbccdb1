//! The details of an archive: its architectures one by one, and what is odd about it.
ghost use Rattle.std.specs.Prelude.{◌≡◌, ◌<◌, ◌++◌, ◌∷◌, [], OnOk, length, string_bytes};
ghost use Rattle.td_text.specs.Lines.{text_of};
ghost use Rattle.td_details.specs.Counts.{AreOwnCounts, counts_at, own_count};
ghost use Rattle.td_details.specs.Details.{arch_line_at, arch_lines, details_lines};
ghost use Rattle.td_details.specs.Details.{missing_at, missing_lines};
ghost use Rattle.td_details.specs.Details.{swapped_lines, swapped_package_lines};
ghost use Rattle.td_details.specs.Details.{swapped_source_lines, warning_lines};

use crate::counts::ArchCounts;
use crate::lines::{put_arch_line, put_no_package_line, put_swapped_line};
use crate::owning::own_counts;
use crate::queued::{queued_count, row_count};
use crate::swapped::{swapped_packages, swapped_sources};
use std::alloc::{AllocError, Global};
use td_indices::Archive;

// What there is on the architecture at a place, which has so many packages of its own.
fn counts_of(archive: &Archive<'_, '_>, place: usize, binaries: usize) -> ArchCounts
    requires place { place < length archive.now.table }
    requires own { binaries ≡ own_count archive.now place }
    ensures { result ≡ counts_at archive.now place }
{
    ArchCounts {
        binaries,
        rows: row_count(archive, place),
        queued: queued_count(archive, place),
    }
}

// Appends the line of the architecture at a place.
fn put_arch(
    out: &mut String,
    archive: &Archive<'_, '_>,
    place: usize,
    binaries: usize,
) -> Result<(), AllocError>
    requires place { place < length archive.now.table }
    requires own { binaries ≡ own_count archive.now place }
    ensures { OnOk result (string_bytes out.new
        ≡ string_bytes out.old ++ (arch_line_at archive.now place ++ 10 ∷ [])) }
{
    let counts = counts_of(archive, place, binaries);
    put_arch_line(out, archive.archs().name(place), counts)
}

// Appends the lines of all architectures, which have so many packages of their own.
fn put_archs(
    out: &mut String,
    archive: &Archive<'_, '_>,
    counts: &[usize],
) -> Result<(), AllocError>
    requires { AreOwnCounts archive.now counts.now }
    ensures { OnOk result (string_bytes out.new
        ≡ string_bytes out.old ++ text_of (arch_lines archive.now)) }
{
    for place in 0..counts.len() {
        put_arch(out, archive, place, counts[place])?;
    }
    Ok(())
}

// Appends the warning of the architecture at a place, if it has no package.
fn put_missing(
    out: &mut String,
    archive: &Archive<'_, '_>,
    place: usize,
    binaries: usize,
) -> Result<(), AllocError>
    requires place { place < length archive.now.table }
    requires own { binaries ≡ own_count archive.now place }
    ensures { OnOk result (string_bytes out.new
        ≡ string_bytes out.old ++ text_of (missing_at archive.now place)) }
{
    if binaries > 0 {
        return Ok(());
    }
    put_no_package_line(out, archive.archs().name(place))
}

// Appends the warnings of architectures without a package.
fn put_all_missing(
    out: &mut String,
    archive: &Archive<'_, '_>,
    counts: &[usize],
) -> Result<(), AllocError>
    requires { AreOwnCounts archive.now counts.now }
    ensures { OnOk result (string_bytes out.new
        ≡ string_bytes out.old ++ text_of (missing_lines archive.now)) }
{
    for place in 0..counts.len() {
        put_missing(out, archive, place, counts[place])?;
    }
    Ok(())
}

// Appends what is said of stanzas of sources in Packages.
fn put_swapped_packages(out: &mut String, archive: &Archive<'_, '_>) -> Result<(), AllocError>
    ensures { OnOk result (string_bytes out.new
        ≡ string_bytes out.old ++ text_of (swapped_package_lines archive.now)) }
{
    put_swapped_line(
        out,
        "Packages has stanzas of sources",
        swapped_packages(archive),
    )
}

// Appends what is said of stanzas of packages in Sources.
fn put_swapped_sources(out: &mut String, archive: &Archive<'_, '_>) -> Result<(), AllocError>
    ensures { OnOk result (string_bytes out.new
        ≡ string_bytes out.old ++ text_of (swapped_source_lines archive.now)) }
{
    put_swapped_line(
        out,
        "Sources has stanzas of packages",
        swapped_sources(archive),
    )
}

// Appends the warnings of stanzas in the wrong index.
fn put_swapped(out: &mut String, archive: &Archive<'_, '_>) -> Result<(), AllocError>
    ensures { OnOk result (string_bytes out.new
        ≡ string_bytes out.old ++ text_of (swapped_lines archive.now)) }
{
    put_swapped_packages(out, archive)?;
    put_swapped_sources(out, archive)
}

// Appends all warnings; the architectures have so many packages of their own.
fn put_warnings(
    out: &mut String,
    archive: &Archive<'_, '_>,
    counts: &[usize],
) -> Result<(), AllocError>
    requires { AreOwnCounts archive.now counts.now }
    ensures { OnOk result (string_bytes out.new
        ≡ string_bytes out.old ++ text_of (warning_lines archive.now)) }
{
    put_all_missing(out, archive, counts)?;
    put_swapped(out, archive)
}

/// Appends the details of an archive.
pub fn put_details(
    alloc: Global,
    out: &mut String,
    archive: &Archive<'_, '_>,
) -> Result<(), AllocError>
    ensures { OnOk result (string_bytes out.new
        ≡ string_bytes out.old ++ text_of (details_lines archive.now)) }
{
    let counts = own_counts(alloc, archive)?;
    put_archs(out, archive, &counts)?;
    put_warnings(out, archive, &counts)
}
