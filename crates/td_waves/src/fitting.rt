//! Where an alternative of a source's build meets a package: on some architecture.
ghost use Rattle.std.specs.Prelude.{◌≡◌, ◌<◌, ℕ, Option, length};
ghost use Rattle.td_relation.specs.Asked.{asked};
ghost use Rattle.td_waves.specs.BuildsOn.{fits as fits_of, fits_at as fits_at_of};

use td_indices::{Archive, is_on};
use td_relation::Alternative;

fn fits_at(
    archive: &Archive<'_, '_>,
    source: usize,
    alternative: &Alternative<'_>,
    home: Option<usize>,
    place: usize,
) -> bool
    requires { place < length archive.now.table }
    ensures { result ≡ fits_at_of archive.now source (asked alternative.now) home place }
{
    is_on(place, home)
        && alternative.is_active(archive.archs(), place)
        && archive.has_row(source, place)
}

/// Whether on some architecture the source has a row, the alternative is active and a package with
/// this home is there.
pub fn fits(
    archive: &Archive<'_, '_>,
    source: usize,
    alternative: &Alternative<'_>,
    home: Option<usize>,
) -> bool
    ensures { result ≡ fits_of archive.now source (asked alternative.now) home }
{
    for place in 0..archive.arch_count() {
        if fits_at(archive, source, alternative, home, place) {
            return true;
        }
    }
    false
}
