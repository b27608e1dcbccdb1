//! The binary packages that count, where they were read.

use crate::packaged::{PackageKey, Packaged};
use crate::placing::{Place, packaged_at, places_of};
use indexmap::IndexMap;
use std::alloc::{AllocError, Global};
use std::marker::Model;

/// The packages as they were read, in parts, and the places of those that count, by their keys.
/// Contracts see those that count, each with its key.
#[derive(Drop)]
pub struct Binaries<'a> {
    parts: Vec<Vec<(PackageKey<'a>, Packaged<'a>)>>,
    places: IndexMap<PackageKey<'a>, Place>,
}

impl<'a> Model for Binaries<'a> {
    ghost use Rattle.std.specs.Prelude.{List};
    ghost use Rattle.td_indices.specs.declared.packaged.PackageKey.{PackageKey};
    ghost use Rattle.td_indices.specs.declared.packaged.Packaged.{Packaged};
    ghost use Rattle.td_indices.specs.inner.Placed.{ArePlaced, placed};

    ghost Value = { List (PackageKey × Packaged) };

    ghost view = { λ b. placed b.parts.items b.places.entries };

    ghost invariant = { λ b. ArePlaced b.parts.items b.places.entries };
}

impl<'a> Binaries<'a> {
    ghost use Rattle.std.specs.Prelude.{◌≡◌, [], IfOk, length, option_map, slice_get};
    ghost use Rattle.std.specs.Map.Iter.{deref_pair};
    ghost use Rattle.td_indices.specs.Kept.{binaries_of};
    ghost use Rattle.td_indices.specs.inner.Parts.{packages_in, put_all};

    /// The packages of these parts that count. There is room for `room` packages from the first.
    pub fn of_parts(
        alloc: Global,
        parts: Vec<Vec<(PackageKey<'a>, Packaged<'a>)>>,
        room: usize,
    ) -> Result<Binaries<'a>, AllocError>
        ensures { IfOk result (λ kept.
            binaries_of kept ≡ put_all [] (binaries_of (packages_in parts.entry.items))) }
    {
        let places = places_of(alloc, &parts, room)?;
        Ok(Binaries { parts, places })
    }

    /// How many there are.
    pub fn len(&self) -> usize
        ensures { result ≡ length self.now }
    {
        self.places.len()
    }

    /// The package with a number, from 0, and its key.
    pub fn get_index(&self, number: usize) -> Option<(&PackageKey<'a>, &Packaged<'a>)>
        ensures entry { option_map deref_pair result ≡ slice_get self.now number }
    {
        let (key, place) = self.places.get_index(number)?;
        let packaged = packaged_at(&self.parts, *place)?;
        Some((key, packaged))
    }
}
