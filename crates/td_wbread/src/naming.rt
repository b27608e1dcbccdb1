//! The rows that a command names.
ghost use Rattle.std.specs.Prelude.{◌≡◌, ◌&&◌, ◌||◌, option_map, slice_get};
ghost use Rattle.std.specs.List.{list_any};
ghost use Rattle.std.specs.Str.{bytes_eq};
ghost use Rattle.td_version.specs.Reading.{parts_read, reading};
ghost use Rattle.td_version.specs.Version.{parts_of as version_of};
ghost use Rattle.td_wbread.specs.Naming.{is_base as is_base_of, is_numbered as is_numbered_of};
ghost use Rattle.td_wbread.specs.Naming.{is_rebuild_of, split_of};
ghost use Rattle.td_wbread.specs.Naming.{version_matches as version_matches_of};
ghost use Rattle.td_wbread.specs.inner.Places.{is_matching, is_without_version};

use crate::command::{Command, Package};
use crate::package_reading::read_version;
use td_rows::RebuildNumber;
use td_version::{Version, is_same_version, split_rebuild};

/// Whether a base is equal in order to a source's version.
fn is_base(version: &Version<'_>, base: &str) -> bool
    ensures { result ≡ is_base_of (version_of version.now) (reading base.now) }
{
    match read_version(base) {
        Ok(read) => is_same_version(&read, version),
        Err(_) => false,
    }
}

fn split(text: &str) -> (&str, u16)
    ensures { (result.0.now, result.1) ≡ split_of text.now }
{
    split_rebuild(text)
}

fn is_numbered(rebuild: u16, number: RebuildNumber) -> bool
    ensures { result ≡ is_numbered_of rebuild number }
{
    rebuild == 0 || rebuild == number.get()
}

/// Whether a text is the source's version, or a rebuild of it with the row's number.
fn is_rebuild(version: &Version<'_>, number: RebuildNumber, text: &str) -> bool
    ensures { result ≡ is_rebuild_of (version_of version.now) number (split_of text.now) }
{
    let (base, rebuild) = split(text);
    is_base(version, base) && is_numbered(rebuild, number)
}

fn version_matches(version: &Version<'_>, number: RebuildNumber, text: Option<&str>) -> bool
    ensures { result ≡ version_matches_of (version_of version.now) number
        (option_map (λ x. x.now) text.entry) }
{
    match text {
        None => true,
        Some(text) => is_rebuild(version, number, text),
    }
}

fn package_at(packages: &[Package], place: usize) -> Option<&Package>
    ensures { option_map (λ p. p.now) result ≡ slice_get packages.now place }
{
    packages.get(place)
}

/// Whether the package at a place, if there is one, has a version that matches.
fn matches_at(
    packages: &[Package],
    place: usize,
    version: &Version<'_>,
    number: RebuildNumber,
) -> bool
    ensures { result ≡ is_matching (version_of version.now) number (slice_get packages.now place) }
{
    match package_at(packages, place) {
        Some(package) => version_matches(version, number, package.version.as_deref()),
        None => false,
    }
}

/// Whether some package at these places has a version that matches.
fn has_match(
    packages: &[Package],
    places: &[usize],
    version: &Version<'_>,
    number: RebuildNumber,
) -> bool
    ensures { result ≡ list_any (λ place.
        is_matching (version_of version.now) number (slice_get packages.now place)) places.now }
{
    places
        .iter()
        .any(|place| matches_at(packages, *place, version, number))
}

/// Whether there is a package at a place, without a version.
fn is_bare_at(packages: &[Package], place: usize) -> bool
    ensures { result ≡ is_without_version (slice_get packages.now place) }
{
    match package_at(packages, place) {
        Some(package) => package.version.is_none(),
        None => false,
    }
}

/// Whether some package at these places has no version.
fn has_bare(packages: &[Package], places: &[usize]) -> bool
    ensures { result ≡ list_any
        (λ place. is_without_version (slice_get packages.now place)) places.now }
{
    places.iter().any(|place| is_bare_at(packages, *place))
}

fn has_arch(archs: &[&str], arch: &str) -> bool
    ensures { result ≡ list_any (λ a. bytes_eq a.now arch.now) archs.now }
{
    archs.iter().any(|a| *a == arch)
}

impl Command<'_> {
    ghost use Rattle.std.specs.Prelude.{◌≡◌};
    ghost use Rattle.td_version.specs.Version.{parts_of as version_of};
    ghost use Rattle.td_wbread.specs.Naming.{is_bare as is_bare_of, is_matched as is_matched_of};
    ghost use Rattle.td_wbread.specs.Naming.{is_named as is_named_of};
    ghost use Rattle.td_wbread.specs.Views.{parts_of};

    /// Whether it names the row of a source on an architecture, if there is one.
    pub fn is_named(&self, source: &str, arch: &str) -> bool
        ensures { result ≡ is_named_of (parts_of self.now) source.now arch.now }
    {
        !self.places.of(source).is_empty() && has_arch(self.archs.as_slice(), arch)
    }

    /// Whether the version of a row matches, given its source, the source's version and the row's
    /// rebuild number.
    pub fn is_matched(&self, source: &str, version: &Version<'_>, number: RebuildNumber) -> bool
        ensures { result ≡ is_matched_of (parts_of self.now) source.now
            (version_of version.now) number }
    {
        has_match(
            self.packages.as_slice(),
            self.places.of(source),
            version,
            number,
        )
    }

    /// Whether some package of it is the source without a version, so that any version matches.
    pub fn is_bare(&self, source: &str) -> bool
        ensures { result ≡ is_bare_of (parts_of self.now) source.now }
    {
        has_bare(self.packages.as_slice(), self.places.of(source))
    }
}
