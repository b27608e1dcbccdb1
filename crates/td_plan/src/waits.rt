//! For what a source that is rebuilt waits on an architecture.

ghost use Rattle.std.specs.Prelude.{◌≡◌, ◌<◌, ◌≤◌, ℕ, length, option_map, slice_index_or};
ghost use Rattle.td_version.specs.Version.{parts_of};
ghost use Rattle.td_indices.specs.Kept.{KeptBinary};
ghost use Rattle.td_indices.specs.Seen.{seen_binary, shown_binary};
ghost use Rattle.td_indices.specs.Supplying.{base_version};
ghost use Rattle.std.specs.Cmp.Lexicographic.{slice_cmp};
ghost use Rattle.std.specs.List.Sorted.{IsPermutation, IsSortedByKey};
ghost use Rattle.std.specs.Ordering.{nat_cmp};
ghost use Rattle.td_plan.specs.declared.asks.Ask.{Ask as AskOf};
ghost use Rattle.td_plan.specs.declared.waits.Wait.{Wait as WaitOf};
ghost use Rattle.td_plan.specs.Packages.{arrival_base as arrival_base_of};
ghost use Rattle.td_plan.specs.Waits.{wait_for as wait_for_of};
ghost use Rattle.td_plan.specs.inner.Asking.{IsByOwner};
ghost use Rattle.td_plan.specs.inner.Inputs.{kept_source};
ghost use Rattle.td_plan.specs.inner.Waiting.{seen};

use crate::asks::Ask;
use crate::movers::{Mover, earlier, earlier_present};
use crate::versions::Rebuilt;
use std::alloc::{AllocError, Global};
use td_indices::{Archive, Binary, Source};
use td_version::{Version, base_of, is_same_version};

/// A package that is waited for, and the version from which on.
#[derive(Clone, Copy)]
pub struct Wait<'a> {
    pub name: &'a str,
    pub version: Rebuilt<'a>,
    /// The name of its source.
    pub on: &'a str,
    /// Whether it is of an older version of the source.
    pub is_older: bool,
}

/// What a source waits for at a place.
#[derive(Drop)]
pub struct Waits<'a> {
    /// The waits, in the order of their packages.
    pub waits: Vec<Wait<'a>>,
    /// The names of the sources for which the source can't be told to wait, in byte order.
    pub waitless: Vec<&'a str>,
}

/// A source that waits at a place, by its number among those that are affected, and all of these
/// with the first sources of their parts.
#[derive(Clone, Copy)]
pub struct Waiter<'b, 't, 'a> {
    pub archive: &'b Archive<'t, 'a>,
    pub movers: &'b [Mover<'a>],
    pub firsts: &'b [usize],
    pub mover: usize,
    pub place: usize,
}

/// Where the asks for one owner end that begin at a place of a list in the order of the owners.
pub fn group_end(asks: &[Ask], start: usize) -> usize
    requires { start < length asks.now }
    ensures after { start < result }
    ensures within { result ≤ length asks.now }
    ensures same { (k : ℕ) (d : AskOf) → start ≤ k → k < result
        → (slice_index_or asks.now k d).owner ≡ (slice_index_or asks.now start d).owner }
    ensures whole { IsByOwner asks.now → (k : ℕ) (d : AskOf) → result ≤ k → k < length asks.now
        → (slice_index_or asks.now start d).owner < (slice_index_or asks.now k d).owner }
{
    let owner = asks[start].owner;
    let mut end = start + 1;
    while end < asks.len() && asks[end].owner == owner {
        end += 1;
    }
    end
}

/// The owner of the first of some asks.
pub fn first_owner(asks: &[Ask]) -> usize
    requires { 0 < length asks.now }
    ensures { (d : AskOf) → result ≡ (slice_index_or asks.now 0 d).owner }
{
    asks[0].owner
}

// The version whose rebuild the arrival of a source offers for a package of the source.
fn arrival_base<'a>(source: &Source<'a>, binary: &Binary<'a>) -> Version<'a>
    ensures { parts_of result ≡ base_version (parts_of binary.now.parts)
        (parts_of binary.now.source_parts) (parts_of source.now.parts) }
{
    if is_same_version(&binary.source_parts, &source.parts) {
        base_of(&binary.parts)
    } else {
        source.parts
    }
}

// The wait for a package of a source, whose arrival has a number.
fn wait_for<'a>(
    source: &Source<'a>,
    binary: &Binary<'a>,
    arrival: u16,
    is_older: bool,
) -> Option<Wait<'a>>
    ensures { (b : KeptBinary) → seen_binary binary.now ≡ shown_binary b
        → option_map seen result ≡ wait_for_of (kept_source source.now) b
        (arrival_base_of (kept_source source.now) b) arrival is_older }
{
    let version = Rebuilt {
        base: arrival_base(source, binary),
        number: arrival,
    };
    if !version.is_written() {
        return None;
    }
    Some(Wait {
        name: binary.name,
        version,
        on: source.name,
        is_older,
    })
}

// Puts waits in the order of their packages.
fn sort_by_name(waits: &mut Vec<Wait<'_>>)
    ensures permutation { IsPermutation waits.old.items waits.new.items }
    ensures sorted { IsSortedByKey (λ (wait : WaitOf). wait.name.now) (slice_cmp nat_cmp)
        waits.new.items }
{
    waits.sort_unstable_by(|wait, other| wait.name.cmp(other.name));
}

impl<'a> Waits<'a> {
    ghost use Rattle.std.specs.Prelude.{◌≡◌, ◌++◌, ◌∷◌, [], OnOk, is_none, map, option_map};
    ghost use Rattle.std.specs.Prelude.{if◌then◌else◌};
    ghost use Rattle.std.specs.List.{cons_option};
    ghost use Rattle.td_plan.specs.inner.Waiters.{seen_waits, waitless_names};
    ghost use Rattle.td_plan.specs.inner.Waiting.{seen};

    /// No waits.
    pub fn none(alloc: Global) -> Waits<'a>
        ensures waits { result.waits.items ≡ [] }
        ensures waitless { result.waitless.items ≡ [] }
    {
        Waits {
            waits: Vec::new(alloc),
            waitless: Vec::new(alloc),
        }
    }

    // Adds the wait for a source, or the source's name if there is none.
    fn push(&mut self, wait: Option<Wait<'a>>, name: &'a str) -> Result<(), AllocError>
        ensures waits { OnOk result
            (seen_waits self.new
            ≡ seen_waits self.old ++ cons_option (option_map seen wait.entry) []) }
        ensures waitless { OnOk result (waitless_names self.new ≡ waitless_names self.old
            ++ (if is_none wait.entry then name.now ∷ [] else [])) }
    {
        match wait {
            Some(wait) => self.waits.push(wait)?,
            None => self.waitless.push(name)?,
        }
        Ok(())
    }
}

impl<'a> Waiter<'_, '_, 'a> {
    ghost use Rattle.std.specs.Prelude.{◌≡◌, ◌∷◌, ◌<◌, ℕ, [], false, Bool, IfOk, None, OnOk, Some};
    ghost use Rattle.std.specs.Prelude.{IfSome, fold, length, map, option_map, slice_get};
    ghost use Rattle.std.specs.Prelude.{slice_index_or};
    ghost use Rattle.std.specs.Option.{option_and_then, option_map_or};
    ghost use Rattle.td_version.specs.Version.{parts_of};
    ghost use Rattle.td_indices.specs.Opening.{is_current};
    ghost use Rattle.td_plan.specs.Packages.{arrival_base as arrival_base_of, present_package};
    ghost use Rattle.td_plan.specs.Reasons.{is_exactly};
    ghost use Rattle.td_indices.specs.Sources.{KeptSource};
    ghost use Rattle.td_plan.specs.Due.{arrival_number};
    ghost use Rattle.td_plan.specs.Premises.{Premises};
    ghost use Rattle.td_plan.specs.Waits.{wait_for as wait_for_of, wait_of};
    ghost use Rattle.td_plan.specs.declared.movers.Mover.{Mover};
    ghost use Rattle.td_plan.specs.inner.Asked.{AreAsks, AreAsksFor};
    ghost use Rattle.td_plan.specs.inner.Inputs.{kept_source};
    ghost use Rattle.td_plan.specs.inner.Movers.{package_numbered};
    ghost use Rattle.td_plan.specs.inner.Waiters.{AreAdded, AreFound, AreWaits, IsWaiter};
    ghost use Rattle.td_plan.specs.inner.Waiters.{chosen_package, is_of_part, kept_of, package_for};
    ghost use Rattle.td_plan.specs.inner.Waiting.{next_named, next_own, seen};

    // The first package of the owner that is asked for under a name that it offers, of exactly the
    // architecture and of the owner's present version.
    fn first_named(&self, owner: &Mover<'a>, asks: &[Ask]) -> Option<usize>
        ensures { package_numbered self.now.archive.now result ≡ fold (next_named
            self.now.archive.now (parts_of owner.now.source.parts) self.now.place) None asks.now }
    {
        let mut first = None;
        for ask in asks {
            first = earlier_present(self.archive, &owner.source, self.place, first, ask.binary);
        }
        first
    }

    // The earlier of the package that was found and the one that is asked for, if that is asked for
    // under its own name, and of exactly the architecture.
    fn earlier_own(&self, first: Option<usize>, ask: &Ask) -> Option<usize>
        ensures { package_numbered self.now.archive.now result
            ≡ next_own self.now.archive.now self.now.place
            (package_numbered self.now.archive.now first) ask.now }
    {
        if ask.is_own && self.is_there(ask.binary) {
            earlier(self.archive, first, ask.binary)
        } else {
            first
        }
    }

    // The first package that is asked for under its own name, of exactly the architecture.
    fn first_own(&self, asks: &[Ask]) -> Option<usize>
        ensures { package_numbered self.now.archive.now result
            ≡ fold (next_own self.now.archive.now self.now.place) None asks.now }
    {
        let mut first = None;
        for ask in asks {
            first = self.earlier_own(first, ask);
        }
        first
    }

    // Whether a package is of exactly the architecture.
    fn is_there(&self, number: usize) -> bool
        ensures { result ≡ option_map_or (is_exactly self.now.place)
            (slice_get self.now.archive.now.binaries number) false }
    {
        match self.archive.binary(number) {
            Some(binary) => binary.arch == Some(self.place),
            None => false,
        }
    }

    // A package's number, if the archive has it.
    fn known(&self, number: Option<usize>) -> Option<usize>
        ensures is { package_numbered self.now.archive.now result
            ≡ package_numbered self.now.archive.now number }
        ensures there { IfSome result (λ n. n < length self.now.archive.now.binaries) }
    {
        match number {
            Some(number) if number < self.archive.binary_count() => Some(number),
            _ => None,
        }
    }

    // The first package of the owner there that is of its present version, as it was found.
    fn first_of(&self, owner: &Mover<'a>) -> Option<usize>
        ensures { result ≡ slice_index_or owner.now.packages.items self.now.place None }
    {
        match owner.packages.get(self.place) {
            Some(number) => *number,
            None => None,
        }
    }

    // The package of the owner's present version that is waited for.
    fn present(&self, owner: &Mover<'a>, asks: &[Ask]) -> Option<usize>
        requires { 0 < length asks.now }
        ensures is { (p : Premises) (beside : KeptSource → Bool) (s : KeptSource) (j : ℕ)
            → IsWaiter p beside s self.now → slice_get self.now.movers.now j ≡ Some owner.now
            → AreAsksFor p.archive self.now.movers.now self.now.mover s self.now.place j asks.now
            → package_numbered p.archive result
            ≡ present_package p.archive s (kept_of owner.now) self.now.place }
        ensures there { IfSome result (λ n. n < length self.now.archive.now.binaries) }
    {
        match self.known(self.first_named(owner, asks)) {
            Some(number) => Some(number),
            None => self.known(self.first_of(owner)),
        }
    }

    // The package that is waited for, and whether it is of an older version.
    fn chosen(&self, owner: &Mover<'a>, asks: &[Ask]) -> Option<(usize, bool)>
        requires { 0 < length asks.now }
        ensures { (p : Premises) (beside : KeptSource → Bool) (s : KeptSource) (j : ℕ)
            → IsWaiter p beside s self.now → slice_get self.now.movers.now j ≡ Some owner.now
            → AreAsksFor p.archive self.now.movers.now self.now.mover s self.now.place j asks.now
            → chosen_package p.archive result
            ≡ package_for p.archive s (kept_of owner.now) self.now.place }
    {
        match self.present(owner, asks) {
            Some(number) => Some((number, false)),
            None => match self.first_own(asks) {
                Some(number) => Some((number, true)),
                None => None,
            },
        }
    }

    // The wait for the package with a number of the owner, whose arrival has a number.
    fn wait_numbered(
        &self,
        owner: &Mover<'a>,
        arrival: u16,
        number: usize,
        is_older: bool,
    ) -> Option<Wait<'a>>
        ensures { option_map seen result ≡ option_and_then (λ b.
            wait_for_of (kept_source owner.now.source) b
            (arrival_base_of (kept_source owner.now.source) b) arrival is_older)
            (slice_get self.now.archive.now.binaries number) }
    {
        let binary = self.archive.binary(number)?;
        wait_for(&owner.source, &binary, arrival, is_older)
    }

    // The wait for an owner of asks whose arrival has a number, if it can be written.
    fn wait(&self, owner: &Mover<'a>, arrival: u16, asks: &[Ask]) -> Option<Wait<'a>>
        requires { 0 < length asks.now }
        ensures { (p : Premises) (beside : KeptSource → Bool) (s : KeptSource) (j : ℕ)
            → IsWaiter p beside s self.now → slice_get self.now.movers.now j ≡ Some owner.now
            → AreAsksFor p.archive self.now.movers.now self.now.mover s self.now.place j asks.now
            → arrival ≡ arrival_number p (kept_of owner.now) self.now.place
            → option_map seen result ≡ wait_of p s self.now.place (kept_of owner.now) }
    {
        let (number, is_older) = self.chosen(owner, asks)?;
        self.wait_numbered(owner, arrival, number, is_older)
    }

    // Adds the wait for an owner of asks, which is of another part, if its row there arrives.
    fn push_wait(
        &self,
        found: &mut Waits<'a>,
        owner: &Mover<'a>,
        asks: &[Ask],
    ) -> Result<(), AllocError>
        requires { 0 < length asks.now }
        ensures { OnOk result ((p : Premises) (beside : KeptSource → Bool) (s : KeptSource) (j : ℕ)
            → IsWaiter p beside s self.now → slice_get self.now.movers.now j ≡ Some owner.now
            → AreAsksFor p.archive self.now.movers.now self.now.mover s self.now.place j asks.now
            → is_of_part self.now.firsts.now self.now.mover j ≡ false
            → AreAdded p beside s self.now.place (kept_of owner.now ∷ []) found.old found.new) }
    {
        match owner.arrival(self.place) {
            Some(arrival) => found.push(self.wait(owner, arrival, asks), owner.source.name),
            None => Ok(()),
        }
    }

    // Adds the wait for the owner of some asks, if its row there arrives and it is of another part.
    fn push_owner(&self, found: &mut Waits<'a>, asks: &[Ask]) -> Result<(), AllocError>
        requires { 0 < length asks.now }
        ensures { OnOk result ((p : Premises) (beside : KeptSource → Bool) (s : KeptSource) (j : ℕ)
            (t : Mover) → IsWaiter p beside s self.now → slice_get self.now.movers.now j ≡ Some t
            → AreAsksFor p.archive self.now.movers.now self.now.mover s self.now.place j asks.now
            → AreAdded p beside s self.now.place (kept_of t ∷ []) found.old found.new) }
    {
        let number = first_owner(asks);
        if number >= self.movers.len() {
            return Ok(());
        }
        if self.is_beside(number) {
            return Ok(());
        }
        self.push_wait(found, &self.movers[number], asks)
    }

    // Whether a source is of the part of the source that waits.
    fn is_beside(&self, number: usize) -> bool
        ensures { result ≡ is_of_part self.now.firsts.now self.now.mover number }
    {
        match (self.firsts.get(number), self.firsts.get(self.mover)) {
            (Some(first), Some(own)) => first == own,
            _ => false,
        }
    }

    // What the source waits for, by what it asks for there, in the order of the sources.
    fn found(&self, alloc: Global, asks: &[Ask]) -> Result<Waits<'a>, AllocError>
        ensures { IfOk result (λ found. (p : Premises) (beside : KeptSource → Bool)
            (s : KeptSource) → IsWaiter p beside s self.now
            → AreAsks p.archive self.now.movers.now self.now.mover s self.now.place asks.now
            → AreFound p beside s self.now.place (map kept_of self.now.movers.now) found) }
    {
        let mut found = Waits::none(alloc);
        let mut start = 0;
        while start < asks.len() {
            let end = group_end(asks, start);
            self.push_owner(&mut found, &asks[start..end])?;
            start = end;
        }
        Ok(found)
    }

    /// What the source waits for, by what it asks for there, which is in the order of the owners.
    pub fn waits(&self, alloc: Global, asks: &[Ask]) -> Result<Waits<'a>, AllocError>
        ensures { IfOk result (λ found. (p : Premises) (beside : KeptSource → Bool)
            (s : KeptSource) → IsWaiter p beside s self.now
            → AreAsks p.archive self.now.movers.now self.now.mover s self.now.place asks.now
            → AreWaits p beside s self.now.place found) }
    {
        let mut found = self.found(alloc, asks)?;
        sort_by_name(&mut found.waits);
        Ok(found)
    }
}
