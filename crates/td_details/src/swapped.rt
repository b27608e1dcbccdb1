//! Stanzas of one index in the other.
ghost use Rattle.std.specs.Prelude.{◌≡◌, ◌<◌, false, length, slice_get};
ghost use Rattle.std.specs.Option.{option_map_or};
ghost use Rattle.td_stanza.specs.Table.{fields_of};
ghost use Rattle.td_details.specs.Swapped.{is_of_packages as is_of_packages_of};
ghost use Rattle.td_details.specs.Swapped.{is_of_sources as is_of_sources_of};
ghost use Rattle.td_details.specs.Swapped.{is_swapped_package, is_swapped_source};
ghost use Rattle.td_details.specs.Swapped.{swapped_packages as swapped_packages_of};
ghost use Rattle.td_details.specs.Swapped.{swapped_sources as swapped_sources_of};

use td_indices::{Archive, value_of};
use td_stanza::Stanza;

// Whether a stanza is a source's.
fn is_of_sources(stanza: &Stanza<'_, '_>) -> bool
    ensures { result ≡ is_of_sources_of (fields_of stanza.now) }
{
    value_of(stanza, "Directory").is_some() && value_of(stanza, "Filename").is_none()
}

// Whether a stanza is a binary package's.
fn is_of_packages(stanza: &Stanza<'_, '_>) -> bool
    ensures { result ≡ is_of_packages_of (fields_of stanza.now) }
{
    value_of(stanza, "Filename").is_some() && value_of(stanza, "Directory").is_none()
}

// Whether the package with a number was kept of a source's stanza.
fn is_package_swapped(archive: &Archive<'_, '_>, number: usize) -> bool
    requires { number < length archive.now.binaries }
    ensures { result ≡ option_map_or (is_swapped_package archive.now)
        (slice_get archive.now.binaries number) false }
{
    let stanza = archive.stanza_of_binary(number);
    is_of_sources(&stanza)
}

// Whether the source with a number was kept of a package's stanza.
fn is_source_swapped(archive: &Archive<'_, '_>, number: usize) -> bool
    requires { number < length archive.now.sources }
    ensures { result ≡ option_map_or (is_swapped_source archive.now)
        (slice_get archive.now.sources number) false }
{
    let stanza = archive.stanza_of_source(number);
    is_of_packages(&stanza)
}

/// How many packages count that were kept of a source's stanza.
#[tactic(auto, using(crate::proofs::Counting::counted_more))]
pub fn swapped_packages(archive: &Archive<'_, '_>) -> usize
    ensures { result ≡ swapped_packages_of archive.now }
{
    let mut count = 0;
    for number in 0..archive.binary_count() {
        if is_package_swapped(archive, number) {
            count += 1;
        }
    }
    count
}

/// How many sources count that were kept of a package's stanza.
#[tactic(auto, using(crate::proofs::Counting::counted_more))]
pub fn swapped_sources(archive: &Archive<'_, '_>) -> usize
    ensures { result ≡ swapped_sources_of archive.now }
{
    let mut count = 0;
    for number in 0..archive.source_count() {
        if is_source_swapped(archive, number) {
            count += 1;
        }
    }
    count
}
