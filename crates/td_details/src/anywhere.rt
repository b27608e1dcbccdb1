//! Whether some stanza of an archive has a field.
ghost use Rattle.std.specs.Prelude.{◌≡◌, ◌<◌, false, length, slice_get};
ghost use Rattle.std.specs.List.{list_any};
ghost use Rattle.std.specs.Option.{option_map_or};
ghost use Rattle.td_indices.specs.Stanzas.{package_fields, source_fields};
ghost use Rattle.td_details.specs.Asked.{is_anywhere as is_anywhere_of};
ghost use Rattle.td_details.specs.Swapped.{has_field};

use td_indices::{Archive, value_of};

// Whether the stanza of the package with a number has a field.
fn package_has(archive: &Archive<'_, '_>, number: usize, field: &str) -> bool
    requires { number < length archive.now.binaries }
    ensures { result ≡ option_map_or (λ b. has_field (package_fields archive.now b) field.now)
        (slice_get archive.now.binaries number) false }
{
    let stanza = archive.stanza_of_binary(number);
    value_of(&stanza, field).is_some()
}

// Whether the stanza of the source with a number has a field.
fn source_has(archive: &Archive<'_, '_>, number: usize, field: &str) -> bool
    requires { number < length archive.now.sources }
    ensures { result ≡ option_map_or (λ s. has_field (source_fields archive.now s) field.now)
        (slice_get archive.now.sources number) false }
{
    let stanza = archive.stanza_of_source(number);
    value_of(&stanza, field).is_some()
}

// Whether some stanza of a package has a field.
fn is_in_packages(archive: &Archive<'_, '_>, field: &str) -> bool
    ensures { result ≡ list_any (λ b. has_field (package_fields archive.now b) field.now)
        archive.now.binaries }
{
    for number in 0..archive.binary_count() {
        if package_has(archive, number, field) {
            return true;
        }
    }
    false
}

// Whether some stanza of a source has a field.
fn is_in_sources(archive: &Archive<'_, '_>, field: &str) -> bool
    ensures { result ≡ list_any (λ s. has_field (source_fields archive.now s) field.now)
        archive.now.sources }
{
    for number in 0..archive.source_count() {
        if source_has(archive, number, field) {
            return true;
        }
    }
    false
}

/// Whether some stanza that a package, or a source, was kept of has a field.
pub fn is_anywhere(archive: &Archive<'_, '_>, field: &str) -> bool
    ensures { result ≡ is_anywhere_of archive.now field.now }
{
    is_in_packages(archive, field) || is_in_sources(archive, field)
}
