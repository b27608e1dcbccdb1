//! A supply: the offers of an archive, and the rebuilds that have arrived.
ghost use Rattle.std.specs.Prelude.{◌≡◌, ◌<◌, ◌≤◌, List, ℕ, [], None, IfOk, IfSome, IsOk, OnOk};
ghost use Rattle.std.specs.Prelude.{OnErr};
ghost use Rattle.std.specs.Prelude.{length, map, option_map, slice_get};
ghost use Rattle.td_text.specs.Limits.{max_rebuild};
ghost use Rattle.td_version.specs.Version.{parts_of};
ghost use Rattle.td_relation.specs.Table.{place_of};
ghost use Rattle.td_relation.specs.TableView.{table};
ghost use Rattle.td_supply.specs.Supply.{arrived, meets as meets_of, nothing, opened, unstocked};
ghost use Rattle.td_supply.specs.Supply.{unread as unread_of, version_of, with_offer, with_source};
ghost use Rattle.td_supply.specs.SupplyViews.{built};
ghost use Rattle.td_supply.specs.VersionTexts.{HasVersion, IsVersionText};

use crate::arrival::{put_each, rebuilds};
use crate::asking::some_suits;
use crate::numbers::Numbers;
use crate::stocked::{Build, Stocked};
use indexmap::IndexMap;
use std::alloc::{AllocError, Global};
use std::marker::Model;
use td_relation::{Archs, Offering, Relation, RelationFault, Restriction};
use td_version::Version;

/// What is on offer now: the offers of an index, and the rebuilds that have arrived. Contracts see
/// it as a `SupplyView`.
#[derive(Drop)]
pub struct Supply<'a> {
    archs: Archs<'a>,
    sources: IndexMap<&'a str, &'a str>,
    items: Vec<Stocked<'a>>,
    by_name: Numbers<'a>,
    by_source: Numbers<'a>,
    alloc: Global,
}

impl<'a> Model for Supply<'a> {
    ghost use Rattle.std.specs.Prelude.{◌≡◌, ℕ, List, map};
    ghost use Rattle.td_relation.specs.TableView.{table};
    ghost use Rattle.td_supply.specs.Numbers.{numbers_of};
    ghost use Rattle.td_supply.specs.Places.{places_from};
    ghost use Rattle.td_supply.specs.Supply.{SupplyView};
    ghost use Rattle.td_supply.specs.SupplyViews.{item, is_by, is_under, sources_of};
    ghost use Rattle.td_supply.specs.VersionTexts.{AreVersions};

    ghost Value = { SupplyView };

    ghost view = { λ s. record {
      table = table s.archs;
      sources = sources_of s.sources.entries;
      items = map item s.items.items;
    } };

    ghost invariant = { λ s.
        ((q : List ℕ) → numbers_of s.by_name q ≡ places_from (is_under q) 0 s.items.items)
        × ((q : List ℕ) → numbers_of s.by_source q ≡ places_from (is_by q) 0 s.items.items)
        × AreVersions (sources_of s.sources.entries) };
}

// Whether a text is met that wasn't read as a relation for this cause.
fn unread(fault: RelationFault) -> Result<bool, AllocError>
    ensures { result ≡ unread_of fault }
{
    match fault {
        RelationFault::NoMemory => Err(AllocError),
        _ => Ok(false),
    }
}

impl<'a> Supply<'a> {
    /// Nothing, on no architecture. It takes no memory.
    pub fn empty(alloc: Global) -> Supply<'a>
        ensures { result ≡ opened nothing }
    {
        Supply::new(alloc, Archs::empty(alloc))
    }

    /// Nothing yet, on the architectures of this table. It takes no memory.
    pub fn new(alloc: Global, archs: Archs<'a>) -> Supply<'a>
        ensures { result ≡ opened (unstocked (table archs.entry)) }
    {
        Supply {
            archs,
            sources: IndexMap::new(alloc),
            items: Vec::new(alloc),
            by_name: Numbers::new(alloc),
            by_source: Numbers::new(alloc),
            alloc,
        }
    }

    /// Adds a source with its version as it is written. Ask `version` first whether it is there,
    /// and `Version::read` whether the text is a version.
    pub fn push_source(&mut self, name: &'a str, version: &'a str) -> Result<(), AllocError>
        requires absent { version_of self.old name.now ≡ None }
        requires reads { IsVersionText version.now }
        ensures ok { OnOk result (self.new ≡ with_source self.old name.now version.now) }
        ensures err { OnErr result (self.new ≡ self.old) }
    {
        self.sources.insert(name, version)?;
        Ok(())
    }

    /// Adds an offer of the index: under its name, with its version if it has one, on the
    /// architecture with this place in the table (`None` for `all`), and with its build if it is a
    /// binary package.
    pub fn push(
        &mut self,
        name: &'a str,
        version: Option<Version<'a>>,
        arch: Option<usize>,
        build: Option<Build<'a>>,
    ) -> Result<(), AllocError>
        ensures ok { OnOk result
            (self.new
            ≡ with_offer self.old
            (record {
              name = name.now;
              version = option_map parts_of version.entry;
              arch = arch;
              build = option_map built build.entry;
            })) }
        ensures err { OnErr result (self.new ≡ self.old) }
    {
        self.items.reserve(1)?;
        let number = self.items.len();
        self.by_name.push(name, number)?;
        if let Some(build) = build {
            if let Err(error) = self.by_source.push(build.source, number) {
                self.by_name.pop(name);
                return Err(error);
            }
        }
        self.items.push_reserved(Stocked {
            name,
            version,
            arch,
            build,
            rebuilt: None,
        });
        Ok(())
    }

    /// A rebuild of a source with this number has arrived on an architecture: each of the source's
    /// binary packages of exactly that architecture is offered at the rebuilt version from now on.
    /// On an architecture that isn't in the table nothing changes, and that takes no memory.
    pub fn arrive(&mut self, source: &str, arch: &str, number: u16) -> Result<(), AllocError>
        requires limited { number ≤ max_rebuild }
        ensures ok { OnOk result (self.new ≡ arrived self.old source.now arch.now number) }
        ensures err { OnErr result (self.new ≡ self.old) }
        ensures elsewhere { place_of self.old.table arch.now ≡ None → IsOk result }
    {
        let Some(place) = self.archs.index(arch) else {
            return Ok(());
        };
        let numbers = self.by_source.of(source);
        let made = rebuilds(self.alloc, self.items.as_slice(), numbers, place, number)?;
        put_each(&mut self.items, made);
        Ok(())
    }

    /// The version of a source as it is written.
    pub fn version(&self, source: &str) -> Option<&'a str>
        ensures text { option_map (λ version. version.now) result ≡ version_of self.now source.now }
        // `Version::read` reads it.
        ensures reads { IfSome result (λ version. IsVersionText version.now) }
    {
        self.sources.get(source).copied()
    }

    /// The version of a source by its parts, read from how it is written.
    pub fn version_parts(&self, source: &str) -> Option<Version<'a>>
        ensures { HasVersion self.now source.now (option_map parts_of result) }
    {
        let text = self.version(source)?;
        match Version::read(text) {
            Ok(version) => Some(version),
            Err(_) => unreachable!(),
        }
    }

    /// The table of architectures.
    pub fn archs(&self) -> &Archs<'a>
        ensures { table result.now ≡ self.now.table }
    {
        &self.archs
    }

    /// How many offers there are.
    pub fn len(&self) -> usize
        ensures { result ≡ length self.now.items }
    {
        self.items.len()
    }

    /// Whether a text is a relation (Debian Policy 7.1) that what is on offer now meets on the
    /// architecture with this name. It takes memory to read the text, and none for an architecture
    /// that isn't in the table.
    pub fn meets(&self, text: &str, arch: &str) -> Result<bool, AllocError>
        ensures is { IfOk result (λ is. is ≡ meets_of self.now text.now arch.now) }
        ensures elsewhere { place_of self.now.table arch.now ≡ None → IsOk result }
    {
        let place = match self.archs.index(arch) {
            Some(place) => place,
            None => return Ok(false),
        };
        match Relation::read(self.alloc, text) {
            Ok(relation) => Ok(relation.met_by(self, &self.archs, place)),
            Err(fault) => unread(fault),
        }
    }
}

impl<'a> Offering for Supply<'a> {
    ghost use Rattle.td_supply.specs.Supply.{offers_of};

    ghost on_offer = { λ s name. offers_of s.items name };

    fn has(&self, name: &str, place: usize, restriction: &Option<Restriction<'_>>) -> bool {
        some_suits(
            self.items.as_slice(),
            self.by_name.of(name),
            place,
            restriction,
        )
    }
}
