//! The affected sources, with what a plan has to do with their rows.
ghost use Rattle.std.specs.Prelude.{◌≡◌, ◌<◌, ℕ, true, false, fold, map, IfOk, Some, None};
ghost use Rattle.std.specs.Prelude.{length, slice_get, slice_index_or};
ghost use Rattle.std.specs.List.{All};
ghost use Rattle.std.specs.Option.{option_map_or};
ghost use Rattle.td_version.specs.Version.{parts_of};
ghost use Rattle.td_indices.specs.Kept.{KeptBinary};
ghost use Rattle.td_indices.specs.Opening.{is_current};
ghost use Rattle.td_query.specs.Statuses.{is_affected};
ghost use Rattle.td_plan.specs.Due.{is_present as is_present_of};
ghost use Rattle.td_plan.specs.InOrder.{
  earlier as earlier_of,
  first_where,
  is_before as is_before_of,
};
ghost use Rattle.td_plan.specs.Packages.{package_name};
ghost use Rattle.td_plan.specs.Premises.{AreSound, Premises};
ghost use Rattle.td_plan.specs.inner.Inputs.{AreFor, kept_source};
ghost use Rattle.td_plan.specs.inner.Movers.{
  AreMovers,
  AreNamed,
  IsAffectedName,
  IsMade,
  IsMover,
  package_numbered,
  stepped,
};

use crate::affected::affected_names;
use crate::due::{Motion, Motions, motions_of};
use crate::inputs::Inputs;
use crate::numbers::is_present;
use rayon::prelude::*;
use std::alloc::{AllocError, Global};
use std::thread::Threads;
use td_indices::{Archive, Source};

/// The fewest sources that are worth a second thread.
pub const LEAST: usize = 128;

/// An affected source.
#[derive(Drop)]
pub struct Mover<'a> {
    pub source: Source<'a>,
    /// The source's number in the archive.
    pub number: usize,
    pub motions: Motions,
    /// For each place the number of the first package, in byte order, of exactly that architecture
    /// and of the source's present version.
    pub packages: Vec<Option<usize>>,
}

impl<'a> Mover<'a> {
    ghost use Rattle.std.specs.Prelude.{◌≡◌, false, None, slice_get};
    ghost use Rattle.std.specs.List.{list_any};
    ghost use Rattle.std.specs.Option.{option_and_then, option_map_or};
    ghost use Rattle.td_plan.specs.inner.Movers.{arrival_of, is_due_motion, is_moving_motion};

    /// Whether the source's row at a place is rebuilt.
    pub fn is_due(&self, place: usize) -> bool
        ensures { result
            ≡ option_map_or is_due_motion (slice_get self.now.motions.at.items place) false }
    {
        matches!(self.motions.at.get(place), Some(Motion::Due))
    }

    /// Whether some row of the source is rebuilt.
    pub fn has_due(&self) -> bool
        ensures { result ≡ list_any is_due_motion self.now.motions.at.items }
    {
        for motion in &self.motions.at {
            if matches!(*motion, Motion::Due) {
                return true;
            }
        }
        false
    }

    /// Whether some row of the source is rebuilt, or on its way.
    pub fn moves(&self) -> bool
        ensures { result ≡ list_any is_moving_motion self.now.motions.at.items }
    {
        for motion in &self.motions.at {
            if !matches!(*motion, Motion::Still) {
                return true;
            }
        }
        false
    }

    /// The number under which the source's row at a place arrives, if it is rebuilt or on its way.
    pub fn arrival(&self, place: usize) -> Option<u16>
        ensures { result ≡ option_and_then (arrival_of self.now.motions.number)
            (slice_get self.now.motions.at.items place) }
    {
        match self.motions.at.get(place) {
            Some(Motion::Due) => Some(self.motions.number),
            Some(Motion::Pending(number)) => Some(*number),
            _ => None,
        }
    }
}

// Whether one name is before another in the order of their bytes.
fn is_before(name: &str, other: &str) -> bool
    ensures { result ≡ is_before_of name.now other.now }
{
    name.cmp(other).is_lt()
}

/// The one of two packages, by their numbers, whose name comes first; the next counts only with a
/// number that the archive has.
pub fn earlier(archive: &Archive<'_, '_>, best: Option<usize>, next: usize) -> Option<usize>
    ensures found { (b : KeptBinary) → slice_get archive.now.binaries next ≡ Some b
        → package_numbered archive.now result
        ≡ earlier_of package_name (package_numbered archive.now best) b }
    ensures absent { slice_get archive.now.binaries next ≡ None → result ≡ best }
{
    let Some(found) = archive.binary(next) else {
        return best;
    };
    let Some(number) = best else {
        return Some(next);
    };
    match archive.binary(number) {
        Some(other) if !is_before(found.name, other.name) => best,
        _ => Some(next),
    }
}

/// Whether the package with a number is of exactly the architecture at a place, and of the
/// source's present version.
pub fn is_present_at(
    archive: &Archive<'_, '_>,
    source: &Source<'_>,
    place: usize,
    binary: usize,
) -> bool
    ensures { result ≡ option_map_or (is_current (parts_of source.now.parts) place)
        (slice_get archive.now.binaries binary) false }
{
    match archive.binary(binary) {
        Some(binary) => is_present(source, place, &binary),
        None => false,
    }
}

/// The earlier of the package that was found and the one with a number, if that is present there.
pub fn earlier_present(
    archive: &Archive<'_, '_>,
    source: &Source<'_>,
    place: usize,
    first: Option<usize>,
    number: usize,
) -> Option<usize>
    ensures { package_numbered archive.now result
        ≡ stepped (earlier_of package_name) (is_current (parts_of source.now.parts) place)
        (package_numbered archive.now first) (slice_get archive.now.binaries number) }
{
    if is_present_at(archive, source, place, number) {
        earlier(archive, first, number)
    } else {
        first
    }
}

// The first package that is present at a place, among those with these numbers.
fn first_among(
    archive: &Archive<'_, '_>,
    source: &Source<'_>,
    place: usize,
    numbers: &[usize],
) -> Option<usize>
    ensures { package_numbered archive.now result
        ≡ fold (λ found n. stepped (earlier_of package_name)
        (is_current (parts_of source.now.parts) place) found (slice_get archive.now.binaries n))
        None numbers.now }
{
    let mut first = None;
    for number in numbers {
        first = earlier_present(archive, source, place, first, *number);
    }
    first
}

// The first package of a source that is present at a place.
fn first_present(archive: &Archive<'_, '_>, source: &Source<'_>, place: usize) -> Option<usize>
    ensures { package_numbered archive.now result
        ≡ first_where package_name (is_present_of (kept_source source.now) place)
        archive.now.binaries }
{
    first_among(archive, source, place, archive.packages_of(source.name))
}

fn first_packages(
    alloc: Global,
    archive: &Archive<'_, '_>,
    source: &Source<'_>,
) -> Result<Vec<Option<usize>>, AllocError>
    ensures packages { IfOk result (λ packages. (place : ℕ) → place < length archive.now.table
        → package_numbered archive.now (slice_index_or packages.items place None)
        ≡ first_where package_name (is_present_of (kept_source source.now) place)
        archive.now.binaries) }
    ensures len { IfOk result (λ packages.
        length packages.items ≡ length archive.now.table) }
{
    let mut packages = Vec::with_capacity(alloc, archive.arch_count())?;
    for place in 0..archive.arch_count() {
        packages.push(first_present(archive, source, place))?;
    }
    Ok(packages)
}

// The source with a number.
fn mover_of<'a>(
    alloc: Global,
    inputs: &Inputs<'_, '_, 'a>,
    number: usize,
    source: Source<'a>,
) -> Result<Mover<'a>, AllocError>
    requires { slice_get inputs.now.archive.now.sources number ≡ Some (kept_source source) }
    ensures source { IfOk result (λ mover. mover.source ≡ source.entry) }
    ensures mover { IfOk result (λ mover. (p : Premises) → AreFor inputs.now p
        → is_affected p.archive p.tracker (kept_source source.entry) ≡ true
        → IsMover p mover (kept_source source.entry)) }
{
    let motions = motions_of(alloc, inputs, number, &source)?;
    let packages = first_packages(alloc, inputs.archive, &source)?;
    Ok(Mover {
        source,
        number,
        motions,
        packages,
    })
}

// The source with a name, if the archive has one.
fn mover_by_name<'a>(
    alloc: Global,
    inputs: &Inputs<'_, '_, 'a>,
    name: &str,
) -> Option<Result<Mover<'a>, AllocError>>
    ensures { (p : Premises) → AreFor inputs.now p → IsAffectedName p name.now
        → IsMade p name.now result }
{
    let number = inputs.archive.source_number(name)?;
    let source = inputs.archive.source_at(number)?;
    Some(mover_of(alloc, inputs, number, source))
}

// The sources with these names, as far as the archive has them. If they are many, each thread
// finds some of them.
fn movers_named<'a>(
    rt: &(impl Threads + Sync),
    alloc: Global,
    inputs: &Inputs<'_, '_, 'a>,
    names: &[&'a str],
) -> Result<Vec<Mover<'a>>, AllocError>
    ensures { IfOk result (λ movers. (p : Premises) → AreFor inputs.now p
        → All (IsAffectedName p) (map (λ name. name.now) names.now)
        → AreNamed p (map (λ name. name.now) names.now) movers.items) }
{
    names
        .par_iter()
        .with_min_len(LEAST)
        .filter_map(
            |name: &&str| -> Option<Result<Mover<'_>, AllocError>>
                ensures { (p : Premises) → AreFor inputs.entry.now p
                    → IsAffectedName p name.now.now → IsMade p name.now.now result }
            { mover_by_name(alloc, inputs, *name) },
        )
        .collect::<Result<Vec<Mover<'a>>, AllocError>>(rt, alloc)?
}

/// The affected sources, in the byte order of their names.
pub fn movers_of<'a>(
    rt: &(impl Threads + Sync),
    alloc: Global,
    inputs: &Inputs<'_, '_, 'a>,
) -> Result<Vec<Mover<'a>>, AllocError>
    ensures { IfOk result (λ movers. (p : Premises) → AreFor inputs.now p → AreSound p
        → AreMovers p movers.items) }
{
    let names = affected_names(rt, alloc, inputs.archive, inputs.marks)?;
    movers_named(rt, alloc, inputs, &names)
}
