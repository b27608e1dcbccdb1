//! The affected sources, whatever their rows are.
ghost use Rattle.std.specs.Prelude.{◌≡◌, List, ℕ, true, IfOk, OnOk, Some, map, slice_get};
ghost use Rattle.std.specs.Cmp.Lexicographic.{slice_cmp};
ghost use Rattle.std.specs.List.{All};
ghost use Rattle.std.specs.List.Sorted.{IsPermutation, IsSorted};
ghost use Rattle.std.specs.Ordering.{nat_cmp};
ghost use Rattle.td_query.specs.Marks.{AreMarks};
ghost use Rattle.td_query.specs.Statuses.{affected_names as affected_names_of};
ghost use Rattle.td_query.specs.Tracking.{Tracking};
ghost use Rattle.td_plan.specs.Premises.{SourcesAreApart};
ghost use Rattle.td_plan.specs.inner.Inputs.{kept_source};
ghost use Rattle.td_plan.specs.inner.Movers.{
  AreAffected,
  AreNamedOf,
  HasMoreOf,
  IsAffectedMover,
  IsNameAffected,
  has_moving_motion,
};

use crate::due::{Motion, Motions};
use crate::movers::Mover;
use std::alloc::{AllocError, Global};
use std::thread::Threads;
use td_indices::{Archive, Source};
use td_query::Marks;

/// The names of the affected sources, in byte order.
pub fn affected_names<'a>(
    rt: &(impl Threads + Sync),
    alloc: Global,
    archive: &Archive<'_, 'a>,
    marks: &Marks,
) -> Result<Vec<&'a str>, AllocError>
    ensures all { IfOk result (λ names. (t : Tracking) → AreMarks archive.now t marks.now
        → IsPermutation (affected_names_of archive.now t) (map (λ name. name.now) names.items)) }
    ensures in_order { IfOk result (λ names.
        IsSorted (slice_cmp nat_cmp) (map (λ name. name.now) names.items)) }
{
    let mut names = marks.affected_sources(rt, alloc, archive)?;
    names.sort_unstable();
    Ok(names)
}

// A source as one that moves: steps of waves are of all affected sources, as if a row of each were
// due.
fn as_moving<'a>(alloc: Global, number: usize, source: Source<'a>) -> Result<Mover<'a>, AllocError>
    ensures source { IfOk result (λ mover. mover.source ≡ source.entry) }
    ensures number { IfOk result (λ mover. mover.number ≡ number) }
    ensures moves { IfOk result (λ mover. has_moving_motion mover ≡ true) }
{
    let mut at = Vec::with_capacity(alloc, 1)?;
    at.push(Motion::Due)?;
    Ok(Mover {
        source,
        number,
        motions: Motions {
            number: 0,
            is_numbered: false,
            at,
        },
        packages: Vec::new(alloc),
    })
}

// Adds the source with a name, if the archive has one.
fn push_named<'a>(
    alloc: Global,
    archive: &Archive<'_, 'a>,
    movers: &mut Vec<Mover<'a>>,
    name: &str,
) -> Result<(), AllocError>
    ensures { OnOk result ((t : Tracking) → IsNameAffected archive.now t name.now
        → HasMoreOf (IsAffectedMover archive.now t) name.now movers.old.items movers.new.items) }
{
    let Some(number) = archive.source_number(name) else {
        return Ok(());
    };
    let Some(source) = archive.source_at(number) else {
        return Ok(());
    };
    let mover = as_moving(alloc, number, source)?;
    movers.push(mover)?;
    Ok(())
}

// The sources with these names, as far as the archive has them.
fn affected_named<'a>(
    alloc: Global,
    archive: &Archive<'_, 'a>,
    names: &[&'a str],
) -> Result<Vec<Mover<'a>>, AllocError>
    ensures { IfOk result (λ movers. (t : Tracking)
        → All (IsNameAffected archive.now t) (map (λ name. name.now) names.now)
        → AreNamedOf (IsAffectedMover archive.now t) (map (λ name. name.now) names.now)
        movers.items) }
{
    let mut movers = Vec::with_capacity(alloc, names.len())?;
    for name in names {
        push_named(alloc, archive, &mut movers, *name)?;
    }
    Ok(movers)
}

/// The affected sources, in the byte order of their names, each as one that moves.
pub fn affected_of<'a>(
    rt: &(impl Threads + Sync),
    alloc: Global,
    archive: &Archive<'_, 'a>,
    marks: &Marks,
) -> Result<Vec<Mover<'a>>, AllocError>
    ensures { IfOk result (λ movers. (t : Tracking) → AreMarks archive.now t marks.now
        → SourcesAreApart archive.now → AreAffected archive.now t movers.items) }
{
    let names = affected_names(rt, alloc, archive, marks)?;
    affected_named(alloc, archive, &names)
}
