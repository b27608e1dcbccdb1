//! The one that counts is found of several stanzas of one package in one place: no package is
//! moved, a map keeps where each is.
ghost use Rattle.std.specs.Prelude.{
  ◌≡◌,
  ◌<◌,
  [],
  Some,
  IfOk,
  OnOk,
  length,
  option_copied,
  option_map,
  slice_get,
};
ghost use Rattle.td_version.specs.Version.{parts_of};
ghost use Rattle.td_indices.specs.Kept.{binaries_of, binary_of, lower_package, put};
ghost use Rattle.td_indices.specs.Kept.{same_package, stays};
ghost use Rattle.td_indices.specs.inner.Parts.{packages_in, put_all};
ghost use Rattle.td_indices.specs.inner.Placed.{ArePlaced, packaged_in, placed};

use crate::packaged::{PackageKey, Packaged};
use indexmap::IndexMap;
use std::alloc::{AllocError, Global};
use td_version::{Version, cmp_version};

/// Where a package stands: in which part, and where in it.
#[derive(Clone, Copy)]
pub struct Place {
    pub part: usize,
    pub at: usize,
}

/// The package at a place.
pub fn packaged_at<'r, 'a>(
    parts: &'r [Vec<(PackageKey<'a>, Packaged<'a>)>],
    place: Place,
) -> Option<&'r Packaged<'a>>
    ensures { option_copied result ≡ packaged_in parts.now place }
{
    let packages = parts.get(place.part)?;
    let (_, packaged) = packages.get(place.at)?;
    Some(packaged)
}

/// Whether the package at a place has a version that isn't lower.
fn is_better<'a>(
    parts: &[Vec<(PackageKey<'a>, Packaged<'a>)>],
    place: Place,
    version: &Version<'a>,
) -> bool
    ensures { result ≡ stays (packaged_in parts.now place) (parts_of version.now) }
{
    match packaged_at(parts, place) {
        Some(packaged) => !cmp_version(&packaged.parts, version).is_lt(),
        None => false,
    }
}

/// Keeps the place of a package: instead of that of an earlier one of its key if that has a lower
/// version, and after all if there is none of its key.
fn keep_place<'a>(
    parts: &[Vec<(PackageKey<'a>, Packaged<'a>)>],
    places: &mut IndexMap<PackageKey<'a>, Place>,
    taken: &(PackageKey<'a>, Packaged<'a>),
    place: Place,
) -> Result<(), AllocError>
    requires there { packaged_in parts.now place ≡ Some taken.now.1 }
    requires placed { ArePlaced parts.now places.old.entries }
    ensures kept { OnOk result (binaries_of (placed parts.now places.new.entries)
        ≡ put same_package lower_package (binaries_of (placed parts.now places.old.entries))
        (binary_of taken.now)) }
    ensures placed { OnOk result (ArePlaced parts.now places.new.entries) }
{
    let (key, packaged) = taken;
    let Ok(earlier) = places.insert(*key, place) else {
        return Err(AllocError);
    };
    match earlier {
        // (few packages have an earlier one, so that one look-up is enough for most)
        Some(earlier) if is_better(parts, earlier, &packaged.parts) => {
            match places.insert(*key, earlier) {
                Ok(_) => Ok(()),
                Err(_) => Err(AllocError),
            }
        }
        _ => Ok(()),
    }
}

/// Keeps the places of those of a part's packages that count.
fn keep_part<'a>(
    parts: &[Vec<(PackageKey<'a>, Packaged<'a>)>],
    places: &mut IndexMap<PackageKey<'a>, Place>,
    packages: &[(PackageKey<'a>, Packaged<'a>)],
    part: usize,
) -> Result<(), AllocError>
    requires there { option_map (λ v. v.items) (slice_get parts.now part) ≡ Some packages.now }
    requires placed { ArePlaced parts.now places.old.entries }
    ensures kept { OnOk result (binaries_of (placed parts.now places.new.entries)
        ≡ put_all (binaries_of (placed parts.now places.old.entries))
        (binaries_of packages.now)) }
    ensures placed { OnOk result (ArePlaced parts.now places.new.entries) }
{
    for at in 0..packages.len() {
        keep_place(parts, places, &packages[at], Place { part, at })?;
    }
    Ok(())
}

/// The places of those packages that count. There is room for `room` places from the first.
pub fn places_of<'a>(
    alloc: Global,
    parts: &[Vec<(PackageKey<'a>, Packaged<'a>)>],
    room: usize,
) -> Result<IndexMap<PackageKey<'a>, Place>, AllocError>
    ensures kept { IfOk result (λ places. binaries_of (placed parts.now places.entries)
        ≡ put_all [] (binaries_of (packages_in parts.now))) }
    ensures placed { IfOk result (λ places. ArePlaced parts.now places.entries) }
{
    let mut places = IndexMap::with_capacity(alloc, room)?;
    for part in 0..parts.len() {
        keep_part(parts, &mut places, &parts[part], part)?;
    }
    Ok(places)
}
