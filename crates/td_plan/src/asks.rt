//! What the builds of sources ask for on each architecture.

ghost use Rattle.std.specs.Prelude.{◌≡◌, ◌++◌, ℕ, Bool, List, IfOk, OnOk, [], length, map};
ghost use Rattle.std.specs.List.{All, list_any};
ghost use Rattle.td_waves.specs.Graph.{lists};
ghost use Rattle.td_plan.specs.declared.asks.Ask.{Ask as AskOf};
ghost use Rattle.td_plan.specs.declared.movers.Mover.{Mover as MoverOf};
ghost use Rattle.td_plan.specs.inner.Askers.{AreAllAsks, AreAsksAt, AreAsksOf};
ghost use Rattle.td_plan.specs.inner.Asking.{AreWithin, IsByOwner, asks_at, owners_of};
ghost use Rattle.td_plan.specs.inner.Providing.{AreProviders};
ghost use Rattle.td_plan.specs.inner.Searching.{IsGraph};

use crate::movers::{LEAST, Mover};
use crate::providers::{Provider, Providers, Share};
use rayon::prelude::*;
use std::alloc::{AllocError, Global};
use std::thread::Threads;
use td_indices::{Archive, is_on};
use td_relation::{Alternative, Relation};

/// A package that a source's build asks for.
#[derive(Clone, Copy)]
pub struct Ask {
    /// The package's number in the archive.
    pub binary: usize,
    /// The number of its source among those that are affected.
    pub owner: usize,
    /// Whether it is asked for by its own name.
    pub is_own: bool,
}

/// What a source asks for, by the places where it does; each list in the order of the owners.
pub type Asks = Vec<Vec<Ask>>;

/// A source that asks, and those whom it asks.
#[derive(Clone, Copy)]
pub struct Asker<'b, 't, 'a> {
    pub archive: &'b Archive<'t, 'a>,
    pub providers: &'b Providers<'a>,
    /// The source's number among those that are affected, and its number in the archive.
    pub mover: usize,
    pub number: usize,
}

impl Asker<'_, '_, '_> {
    ghost use Rattle.std.specs.Prelude.{◌≡◌, ◌<◌, ◌==◌, ◌&&◌, ◌||◌, ℕ, Bool, IfOk, OnOk, length};
    ghost use Rattle.std.specs.List.{list_any};
    ghost use Rattle.td_relation.specs.Asked.{asked};
    ghost use Rattle.td_relation.specs.Members.{members};
    ghost use Rattle.td_indices.specs.Fields.{asked_by};
    ghost use Rattle.td_waves.specs.BuildsOn.{fits_at, some_asked};
    ghost use Rattle.td_plan.specs.declared.asks.Ask.{Ask};
    ghost use Rattle.td_plan.specs.inner.Asking.{
      IsByOwner,
      asks_any,
      asks_at as asks_there,
      asks_one,
      asks_other,
      asks_shared,
      asks_some,
    };
    ghost use Rattle.td_plan.specs.inner.Providing.{under};

    // Whether at a place the source has a row, the alternative is active and the package is there.
    fn fits(&self, alternative: &Alternative<'_>, home: Option<usize>, place: usize) -> bool
        requires { place < length self.now.archive.now.table }
        ensures { result ≡ fits_at self.now.archive.now self.now.number (asked alternative.now)
            home place }
    {
        is_on(place, home)
            && alternative.is_active(self.archive.archs(), place)
            && self.archive.has_row(self.number, place)
    }

    // Adds a package at a place, if it is asked for there.
    fn push_at(
        &self,
        asks: &mut Asks,
        alternative: &Alternative<'_>,
        found: &Provider,
        place: usize,
    ) -> Result<(), AllocError>
        requires len { length asks.old.items ≡ length self.now.archive.now.table }
        requires place { place < length asks.old.items }
        ensures len { length asks.new.items ≡ length asks.old.items }
        ensures asked { OnOk result ((k : ℕ) (test : Ask → Bool)
            → list_any test (asks_there asks.new.items k)
            ≡ (list_any test (asks_there asks.old.items k) || ((place == k)
            && asks_one self.now place test (asked alternative.now) found.now))) }
    {
        if !self.fits(alternative, found.home, place) {
            return Ok(());
        }
        let ask = Ask {
            binary: found.binary,
            owner: found.owner,
            is_own: found.is_own,
        };
        asks[place].push(ask)?;
        Ok(())
    }

    // Adds a package at each place where it is asked for.
    fn push_found(
        &self,
        asks: &mut Asks,
        alternative: &Alternative<'_>,
        found: &Provider,
    ) -> Result<(), AllocError>
        requires { length asks.old.items ≡ length self.now.archive.now.table }
        ensures len { length asks.new.items ≡ length asks.old.items }
        ensures asked { OnOk result ((place : ℕ) (test : Ask → Bool) → place < length asks.old.items
            → list_any test (asks_there asks.new.items place)
            ≡ (list_any test (asks_there asks.old.items place)
            || asks_one self.now place test (asked alternative.now) found.now)) }
    {
        for place in 0..asks.len() {
            self.push_at(asks, alternative, found, place)?;
        }
        Ok(())
    }

    // Adds a package at each place where it is asked for, unless it is the source's own.
    fn push_other(
        &self,
        asks: &mut Asks,
        alternative: &Alternative<'_>,
        found: &Provider,
    ) -> Result<(), AllocError>
        requires { length asks.old.items ≡ length self.now.archive.now.table }
        ensures len { length asks.new.items ≡ length asks.old.items }
        ensures asked { OnOk result ((place : ℕ) (test : Ask → Bool) → place < length asks.old.items
            → list_any test (asks_there asks.new.items place)
            ≡ (list_any test (asks_there asks.old.items place)
            || asks_other self.now place test (asked alternative.now) found.now)) }
    {
        if found.owner == self.mover {
            return Ok(());
        }
        self.push_found(asks, alternative, found)?;
        Ok(())
    }

    // Adds what an alternative names of a share, except what the source itself offers.
    fn push_shared(
        &self,
        asks: &mut Asks,
        alternative: &Alternative<'_>,
        share: &Share<'_>,
    ) -> Result<(), AllocError>
        requires { length asks.old.items ≡ length self.now.archive.now.table }
        ensures len { length asks.new.items ≡ length asks.old.items }
        ensures asked { OnOk result ((place : ℕ) (test : Ask → Bool) → place < length asks.old.items
            → list_any test (asks_there asks.new.items place)
            ≡ (list_any test (asks_there asks.old.items place)
            || asks_shared self.now place test (asked alternative.now) share.now)) }
    {
        for found in share.of_name(alternative.name) {
            self.push_other(asks, alternative, found)?;
        }
        Ok(())
    }

    // Adds what an alternative names, except what the source itself offers.
    fn push_alternative(
        &self,
        asks: &mut Asks,
        alternative: &Alternative<'_>,
    ) -> Result<(), AllocError>
        requires { length asks.old.items ≡ length self.now.archive.now.table }
        ensures len { length asks.new.items ≡ length asks.old.items }
        ensures asked { OnOk result ((place : ℕ) (test : Ask → Bool) → place < length asks.old.items
            → list_any test (asks_there asks.new.items place)
            ≡ (list_any test (asks_there asks.old.items place)
            || asks_some self.now place test (asked alternative.now))) }
    {
        for share in self.providers.shares() {
            self.push_shared(asks, alternative, share)?;
        }
        Ok(())
    }

    // Adds what the alternatives of a member name.
    fn push_member(&self, asks: &mut Asks, member: &[Alternative<'_>]) -> Result<(), AllocError>
        requires { length asks.old.items ≡ length self.now.archive.now.table }
        ensures len { length asks.new.items ≡ length asks.old.items }
        ensures asked { OnOk result ((place : ℕ) (test : Ask → Bool) → place < length asks.old.items
            → list_any test (asks_there asks.new.items place)
            ≡ (list_any test (asks_there asks.old.items place)
            || list_any (λ x. asks_some self.now place test (asked x)) member.now)) }
    {
        for alternative in member {
            self.push_alternative(asks, alternative)?;
        }
        Ok(())
    }

    fn push_relation(&self, asks: &mut Asks, relation: &Relation<'_>) -> Result<(), AllocError>
        requires { length asks.old.items ≡ length self.now.archive.now.table }
        ensures len { length asks.new.items ≡ length asks.old.items }
        ensures asked { OnOk result ((place : ℕ) (test : Ask → Bool) → place < length asks.old.items
            → list_any test (asks_there asks.new.items place)
            ≡ (list_any test (asks_there asks.old.items place)
            || some_asked (asks_some self.now place test) (members relation.now))) }
    {
        for member in relation.members() {
            self.push_member(asks, member)?;
        }
        Ok(())
    }

    // Adds what a field of the source asks for.
    fn push_field(&self, asks: &mut Asks, field: &Option<Relation<'_>>) -> Result<(), AllocError>
        requires { length asks.old.items ≡ length self.now.archive.now.table }
        ensures len { length asks.new.items ≡ length asks.old.items }
        ensures asked { OnOk result ((place : ℕ) (test : Ask → Bool) → place < length asks.old.items
            → list_any test (asks_there asks.new.items place)
            ≡ (list_any test (asks_there asks.old.items place)
            || some_asked (asks_some self.now place test) (asked_by field.now))) }
    {
        match field {
            Some(relation) => self.push_relation(asks, relation),
            None => Ok(()),
        }
    }

    // What the source asks for at each place, as it is found.
    fn found(&self, alloc: Global) -> Result<Asks, AllocError>
        requires { self.now.number < length self.now.archive.now.sources }
        ensures len { IfOk result
            (λ asks. length asks.items ≡ length self.now.archive.now.table) }
        ensures asked { IfOk result (λ asks. (place : ℕ) (test : Ask → Bool)
            → place < length self.now.archive.now.table
            → list_any test (asks_there asks.items place) ≡ asks_any self.now place test) }
    {
        let mut asks = empty_lists(alloc, self.archive.arch_count())?;
        let first = self.archive.build_depends(self.number)?;
        self.push_field(&mut asks, &first)?;
        let for_arch = self.archive.build_depends_arch(self.number)?;
        self.push_field(&mut asks, &for_arch)?;
        Ok(asks)
    }

    /// What the source asks for at each place, in the order of the owners.
    pub fn asks(&self, alloc: Global) -> Result<Asks, AllocError>
        requires { self.now.number < length self.now.archive.now.sources }
        ensures len { IfOk result
            (λ asks. length asks.items ≡ length self.now.archive.now.table) }
        ensures asked { IfOk result (λ asks. (place : ℕ) (test : Ask → Bool)
            → place < length self.now.archive.now.table
            → list_any test (asks_there asks.items place) ≡ asks_any self.now place test) }
        ensures in_order { IfOk result (λ asks. (place : ℕ)
            → IsByOwner (asks_there asks.items place)) }
    {
        let mut asks = self.found(alloc)?;
        for place in 0..asks.len() {
            sort_by_owner(&mut asks[place]);
        }
        Ok(asks)
    }
}

/// Puts asks in the order of their owners.
pub fn sort_by_owner(asks: &mut Vec<Ask>)
    ensures same { (test : AskOf → Bool)
        → list_any test asks.new.items ≡ list_any test asks.old.items }
    ensures in_order { IsByOwner asks.new.items }
{
    asks.sort_unstable_by_key(|ask| ask.owner);
}

// `count` empty lists.
fn empty_lists(alloc: Global, count: usize) -> Result<Asks, AllocError>
    ensures len { IfOk result (λ lists. length lists.items ≡ count) }
    ensures empty { IfOk result (λ lists. (place : ℕ) → asks_at lists.items place ≡ []) }
{
    let mut lists = Vec::with_capacity(alloc, count)?;
    for _list in 0..count {
        lists.push(Vec::new(alloc))?;
    }
    Ok(lists)
}

// What the source with a number among those that are affected asks for; nothing if it doesn't
// move.
fn asks_by<'a>(
    alloc: Global,
    archive: &Archive<'_, 'a>,
    providers: &Providers<'a>,
    mover: &Mover<'a>,
    number: usize,
) -> Result<Asks, AllocError>
    ensures { IfOk result (λ asks. (ms : List MoverOf)
        → AreProviders archive.now ms providers.now
        → AreAsksOf archive.now ms number mover.now asks.items) }
{
    if !mover.moves() {
        return Ok(Vec::new(alloc));
    }
    if mover.number >= archive.source_count() {
        return Ok(Vec::new(alloc));
    }
    let asker = Asker {
        archive,
        providers,
        mover: number,
        number: mover.number,
    };
    let asks = asker.asks(alloc)?;
    Ok(asks)
}

// What the source with a number among those that are affected asks for, if there is one.
fn asks_numbered<'a>(
    alloc: Global,
    archive: &Archive<'_, 'a>,
    providers: &Providers<'a>,
    movers: &[Mover<'a>],
    number: usize,
) -> Result<Asks, AllocError>
    ensures { IfOk result (λ asks. AreProviders archive.now movers.now providers.now
        → AreAsksAt archive.now movers.now number asks.items) }
{
    let Some(mover) = movers.get(number) else {
        return Ok(Vec::new(alloc));
    };
    asks_by(alloc, archive, providers, mover, number)
}

// For each affected source what it asks for; `providers` are the packages of those that move.
fn asks_among<'a>(
    rt: &(impl Threads + Sync),
    alloc: Global,
    archive: &Archive<'_, 'a>,
    providers: &Providers<'a>,
    movers: &[Mover<'a>],
) -> Result<Vec<Asks>, AllocError>
    requires { AreProviders archive.now movers.now providers.now }
    ensures { IfOk result (λ all. AreAllAsks archive.now movers.now all.items) }
{
    (0..movers.len())
        .into_par_iter()
        .with_min_len(LEAST)
        .map(
            |number: usize| -> Result<Asks, AllocError>
                ensures { IfOk result (λ asks.
                    AreProviders archive.entry.now movers.entry.now providers.entry.now
                    → AreAsksAt archive.entry.now movers.entry.now number asks.items) }
            { asks_numbered(alloc, archive, providers, movers, number) },
        )
        .collect::<Result<Vec<Asks>, AllocError>>(rt, alloc)?
}

/// For each affected source what it asks for; nothing if it doesn't move. If the sources are many,
/// each thread finds what some of them ask for.
pub fn asks_of<'a>(
    rt: &(impl Threads + Sync),
    alloc: Global,
    archive: &Archive<'_, 'a>,
    movers: &[Mover<'a>],
) -> Result<Vec<Asks>, AllocError>
    ensures { IfOk result (λ all. AreAllAsks archive.now movers.now all.items) }
{
    let providers = Providers::of(rt, alloc, archive, movers)?;
    asks_among(rt, alloc, archive, &providers, movers)
}

// Adds the owners of what is asked for.
fn push_owners(bases: &mut Vec<usize>, asks: &[Ask]) -> Result<(), AllocError>
    ensures { OnOk result (bases.new.items ≡ bases.old.items
        ++ map (λ ask. ask.owner) asks.now) }
{
    for ask in asks {
        bases.push(ask.owner)?;
    }
    Ok(())
}

// The owners of all that a source asks for, some of them more than once.
fn bases_of(alloc: Global, asks: &Asks) -> Result<Vec<usize>, AllocError>
    ensures { IfOk result (λ bases. bases.items ≡ owners_of asks.now.items) }
{
    let mut bases = Vec::new(alloc);
    for list in asks {
        push_owners(&mut bases, list)?;
    }
    Ok(bases)
}

/// For each affected source those on which it builds, some of them more than once.
pub fn graph_of(alloc: Global, all: &[Asks]) -> Result<Vec<Vec<usize>>, AllocError>
    requires { All (λ asks. AreWithin (length all.now) asks.items) all.now }
    ensures edges { IfOk result (λ graph. lists graph.items
        ≡ map (λ asks. owners_of asks.items) all.now) }
    ensures len { IfOk result (λ graph. length graph.items ≡ length all.now) }
    ensures within { IfOk result (λ graph. IsGraph (length all.now) graph.items) }
{
    let mut graph = Vec::with_capacity(alloc, all.len())?;
    for asks in all {
        graph.push(bases_of(alloc, asks)?)?;
    }
    Ok(graph)
}
