//! The packages of affected sources, found by the names that they offer.

use indexmap::IndexSet;
use std::alloc::{AllocError, Global};
use std::collections::HashMap;
use std::collections::hash_map::Entry;
use td_indices::Archive;

/// What is kept of a package under a name: the place of its architecture, `None` for `all`, and the
/// number of its source among those affected.
#[derive(Clone, Copy)]
pub struct Provider {
    pub home: Option<usize>,
    pub owner: usize,
}

/// What is found under a name: a first package, and the others. Nearly every name has just the
/// one, for which no list is made.
#[derive(Drop)]
pub struct Found {
    pub first: Provider,
    pub others: Vec<Provider>,
}

/// The packages of affected sources, by the names that they offer.
#[derive(Drop)]
pub struct Providers<'a> {
    by_name: HashMap<&'a str, Found>,
}

impl<'a> Providers<'a> {
    ghost use Rattle.std.specs.Prelude.{◌≡◌, ◌++◌, ◌∷◌, ◌||◌, ◌&&◌, [], Bool, List, ℕ, false};
    ghost use Rattle.std.specs.Prelude.{IfOk, OnOk, if◌then◌else◌, length, slice_get};
    ghost use Rattle.std.specs.Prelude.{slice_index_or};
    ghost use Rattle.std.specs.List.{list_any};
    ghost use Rattle.std.specs.Option.{option_map_or};
    ghost use Rattle.std.specs.Str.{bytes_eq};
    ghost use Rattle.td_indices.specs.Archive.{is_of};
    ghost use Rattle.td_waves.specs.declared.providers.Provider.{Provider};
    ghost use Rattle.td_waves.specs.Named.{texts};
    ghost use Rattle.td_waves.specs.Providers.{all_found, passes_numbered, some_below};
    ghost use Rattle.td_waves.specs.Providers.{some_passes, under};

    // No package yet, and room for this many names.
    fn with_capacity(alloc: Global, names: usize) -> Result<Providers<'a>, AllocError>
        ensures { IfOk result (λ providers. (q : List ℕ) → under providers q ≡ []) }
    {
        let by_name = HashMap::with_capacity(alloc, names)?;
        Ok(Providers { by_name })
    }

    fn push(&mut self, alloc: Global, name: &'a str, provider: Provider) -> Result<(), AllocError>
        ensures { OnOk result
            ((q : List ℕ) → under self.new q ≡ (if bytes_eq q name.now then under self.old q
            ++ provider ∷ [] else under self.old q)) }
    {
        match self.by_name.entry(name)? {
            Entry::Occupied(entry) => entry.into_mut().others.push(provider)?,
            Entry::Vacant(entry) => {
                entry.insert(Found {
                    first: provider,
                    others: Vec::new(alloc),
                });
            }
        }
        Ok(())
    }

    // Adds the package with a number under each of its names.
    fn push_package(
        &mut self,
        alloc: Global,
        archive: &Archive<'_, 'a>,
        number: usize,
        owner: usize,
    ) -> Result<(), AllocError>
        ensures { OnOk result
            ((q : List ℕ) (test : Provider → Bool)
            → list_any test (under self.new q) ≡ (list_any test (under self.old q)
            || passes_numbered archive.now q test owner number)) }
    {
        let Some(binary) = archive.binary(number) else {
            return Ok(());
        };
        let provider = Provider {
            home: binary.arch,
            owner,
        };
        for name in archive.offered_names(number) {
            self.push(alloc, name, provider)?;
        }
        Ok(())
    }

    // Adds the packages of a source.
    fn push_source(
        &mut self,
        alloc: Global,
        archive: &Archive<'_, 'a>,
        source: &str,
        owner: usize,
    ) -> Result<(), AllocError>
        ensures { OnOk result
            ((q : List ℕ) (test : Provider → Bool)
            → list_any test (under self.new q) ≡ (list_any test (under self.old q)
            || some_passes archive.now q test source.now owner)) }
    {
        let numbers = archive.packages_of(source);
        for number in numbers {
            self.push_package(alloc, archive, *number, owner)?;
        }
        Ok(())
    }

    /// The packages of these sources.
    pub fn of(
        alloc: Global,
        archive: &Archive<'_, 'a>,
        sources: &IndexSet<&str>,
    ) -> Result<Providers<'a>, AllocError>
        ensures { IfOk result
            (λ providers. (q : List ℕ) (test : Provider → Bool)
            → list_any test (under providers q)
            ≡ some_below archive.now (texts sources.now.keys) q test (length sources.now.keys)) }
    {
        let mut providers = Providers::with_capacity(alloc, sources.len().saturating_mul(2))?;
        for owner in 0..sources.len() {
            let source = sources[owner];
            providers.push_source(alloc, archive, source, owner)?;
        }
        Ok(providers)
    }

    /// What is found under a name.
    pub fn of_name(&self, name: &str) -> Option<&Found>
        ensures { option_map_or (λ found. all_found found.now) result [] ≡ under self.now name.now }
    {
        self.by_name.get(name)
    }
}
