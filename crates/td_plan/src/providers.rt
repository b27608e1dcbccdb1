//! The packages of the sources that a plan moves, found by the names that they offer. The sources
//! are in four shares, each of which is made in a thread.
ghost use Rattle.std.specs.Prelude.{◌≡◌, ℕ, IfOk};
ghost use Rattle.td_plan.specs.inner.Providing.{AreInShare, AreShares, share_of};

use crate::movers::Mover;
use rayon::prelude::*;
use std::alloc::{AllocError, Global};
use std::collections::HashMap;
use std::collections::hash_map::Entry;
use std::thread::Threads;
use td_indices::Archive;

/// How many shares the sources are in.
const SHARES: usize = 4;

/// How many names the packages of as many sources as there are shares have, with those that they
/// provide: room is taken for so many in each share.
const NAMES: usize = 2;

/// A package under a name that it offers.
#[derive(Clone, Copy)]
pub struct Provider {
    /// The package's number in the archive.
    pub binary: usize,
    /// The number of its source among those that are affected.
    pub owner: usize,
    /// The place of its architecture; `None` for `all`.
    pub home: Option<usize>,
    /// Whether the name is the package's own.
    pub is_own: bool,
}

/// The packages of the sources in a share, by the names that they offer.
#[derive(Drop)]
pub struct Share<'a> {
    by_name: HashMap<&'a str, Vec<Provider>>,
}

/// The packages of sources, by the names that they offer: those of each share.
#[derive(Drop)]
pub struct Providers<'a> {
    shares: Vec<Share<'a>>,
}

// The number of the share that the source with a number is in.
fn share_with(owner: usize) -> usize
    ensures { result ≡ share_of owner }
{
    owner % SHARES
}

impl<'a> Share<'a> {
    ghost use Rattle.std.specs.Prelude.{◌≡◌, ◌<◌, ◌++◌, ◌∷◌, ◌||◌, [], Bool, List, ℕ};
    ghost use Rattle.std.specs.Prelude.{IfOk, OnOk, if◌then◌else◌, length};
    ghost use Rattle.std.specs.List.{list_any};
    ghost use Rattle.std.specs.Str.{bytes_eq};
    ghost use Rattle.td_plan.specs.declared.providers.Provider.{Provider};
    ghost use Rattle.td_plan.specs.inner.Providing.{
      AreInShare,
      passes_numbered,
      passes_of,
      shared_passes,
      shared_under,
      some_passes,
    };

    // No packages yet, and room for `names` names.
    fn with_capacity(alloc: Global, names: usize) -> Result<Share<'a>, AllocError>
        ensures { IfOk result (λ share. (q : List ℕ) → shared_under share q ≡ []) }
    {
        let by_name = HashMap::with_capacity(alloc, names)?;
        Ok(Share { by_name })
    }

    fn push(&mut self, alloc: Global, name: &'a str, provider: Provider) -> Result<(), AllocError>
        ensures { OnOk result
            ((q : List ℕ) → shared_under self.new q ≡ (if bytes_eq q name.now
            then shared_under self.old q ++ provider ∷ [] else shared_under self.old q)) }
    {
        match self.by_name.entry(name)? {
            Entry::Occupied(entry) => entry.into_mut().push(provider)?,
            Entry::Vacant(entry) => {
                let mut found = Vec::with_capacity(alloc, 1)?;
                found.push(provider)?;
                entry.insert(found);
            }
        }
        Ok(())
    }

    // Adds the package with a number under each of its names.
    fn push_package(
        &mut self,
        alloc: Global,
        archive: &Archive<'_, 'a>,
        number: usize,
        owner: usize,
    ) -> Result<(), AllocError>
        ensures { OnOk result
            ((q : List ℕ) (test : Provider → Bool)
            → list_any test (shared_under self.new q) ≡ (list_any test (shared_under self.old q)
            || passes_numbered archive.now q test owner number)) }
    {
        let Some(binary) = archive.binary(number) else {
            return Ok(());
        };
        for name in archive.offered_names(number) {
            let provider = Provider {
                binary: number,
                owner,
                home: binary.arch,
                is_own: name == binary.name,
            };
            self.push(alloc, name, provider)?;
        }
        Ok(())
    }

    // Adds the packages of a source.
    fn push_source(
        &mut self,
        alloc: Global,
        archive: &Archive<'_, 'a>,
        source: &str,
        owner: usize,
    ) -> Result<(), AllocError>
        ensures { OnOk result
            ((q : List ℕ) (test : Provider → Bool)
            → list_any test (shared_under self.new q) ≡ (list_any test (shared_under self.old q)
            || some_passes archive.now q test source.now owner)) }
    {
        let packages = archive.packages_of(source);
        for number in packages {
            self.push_package(alloc, archive, *number, owner)?;
        }
        Ok(())
    }

    // Adds the packages of the source with a number, if it moves.
    fn push_mover(
        &mut self,
        alloc: Global,
        archive: &Archive<'_, 'a>,
        movers: &[Mover<'_>],
        owner: usize,
    ) -> Result<(), AllocError>
        requires { owner < length movers.now }
        ensures { OnOk result
            ((q : List ℕ) (test : Provider → Bool)
            → list_any test (shared_under self.new q) ≡ (list_any test (shared_under self.old q)
            || passes_of archive.now movers.now q test owner)) }
    {
        let mover = &movers[owner];
        if !mover.moves() {
            return Ok(());
        }
        self.push_source(alloc, archive, mover.source.name, owner)
    }

    // Adds the packages of the source with a number, if it is in the share and moves.
    fn push_shared(
        &mut self,
        alloc: Global,
        archive: &Archive<'_, 'a>,
        movers: &[Mover<'_>],
        share: usize,
        owner: usize,
    ) -> Result<(), AllocError>
        requires { owner < length movers.now }
        ensures { OnOk result
            ((q : List ℕ) (test : Provider → Bool)
            → list_any test (shared_under self.new q) ≡ (list_any test (shared_under self.old q)
            || shared_passes archive.now movers.now q test share owner)) }
    {
        if share_with(owner) != share {
            return Ok(());
        }
        self.push_mover(alloc, archive, movers, owner)
    }

    // The packages of the sources that move, of those in the share with the number `share`.
    fn of(
        alloc: Global,
        archive: &Archive<'_, 'a>,
        movers: &[Mover<'_>],
        share: usize,
    ) -> Result<Share<'a>, AllocError>
        ensures { IfOk result (AreInShare archive.now movers.now share) }
    {
        let mut found = Share::with_capacity(alloc, movers.len().saturating_mul(NAMES))?;
        for owner in 0..movers.len() {
            found.push_shared(alloc, archive, movers, share, owner)?;
        }
        Ok(found)
    }

    /// The packages under a name.
    pub fn of_name(&self, name: &str) -> &[Provider]
        ensures { result.now ≡ shared_under self.now name.now }
    {
        match self.by_name.get(name) {
            Some(found) => found.as_slice(),
            None => &[],
        }
    }
}

// The packages of the sources that move; each thread makes some of the shares.
fn shares_of<'a>(
    rt: &(impl Threads + Sync),
    alloc: Global,
    archive: &Archive<'_, 'a>,
    movers: &[Mover<'_>],
) -> Result<Vec<Share<'a>>, AllocError>
    ensures { IfOk result (λ shares. AreShares archive.now movers.now shares.items) }
{
    (0..SHARES)
        .into_par_iter()
        .map(
            |share: usize| -> Result<Share<'_>, AllocError>
                ensures { IfOk result (AreInShare archive.entry.now movers.entry.now share) }
            { Share::of(alloc, archive, movers, share) },
        )
        .collect::<Result<Vec<Share<'a>>, AllocError>>(rt, alloc)?
}

impl<'a> Providers<'a> {
    ghost use Rattle.std.specs.Prelude.{◌≡◌, IfOk};
    ghost use Rattle.td_plan.specs.inner.Providing.{AreProviders};

    /// The packages of the sources that move.
    pub fn of(
        rt: &(impl Threads + Sync),
        alloc: Global,
        archive: &Archive<'_, 'a>,
        movers: &[Mover<'_>],
    ) -> Result<Providers<'a>, AllocError>
        ensures { IfOk result (λ providers. AreProviders archive.now movers.now providers) }
    {
        let shares = shares_of(rt, alloc, archive, movers)?;
        Ok(Providers { shares })
    }

    /// The shares, each of which has packages of its own.
    pub fn shares(&self) -> &[Share<'a>]
        ensures { result.now ≡ self.now.shares.items }
    {
        self.shares.as_slice()
    }
}
