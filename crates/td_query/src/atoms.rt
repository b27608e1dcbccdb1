//! The texts and patterns of a tracker.
ghost use Rattle.std.specs.Prelude.{◌≡◌, ◌++◌, IfOk, OnOk, map, option_map, slice_get};
ghost use Rattle.td_query.specs.Atoms.{atom_shape, atoms_of, tracker_atoms as atoms_in};
ghost use Rattle.td_query.specs.Query.{all_of, any_of, shape_of};
ghost use Rattle.td_query.specs.Tracking.{tracking};

use crate::query::Query;
use crate::tracker::Tracker;
use std::alloc::{AllocError, Global};

/// A text or a pattern of a query, after the field in which it is searched.
#[derive(Clone, Copy)]
pub enum Atom<'q> {
    Text(&'q str, &'q str),
    /// The pattern with this number: `pattern_text` gives its text.
    Pattern(&'q str, usize),
}

// Appends the texts and patterns of a query.
#[cycle(push_atoms)]
fn push_atoms<'q>(query: &'q Query<'_>, atoms: &mut Vec<Atom<'q>>) -> Result<(), AllocError>
    ensures { OnOk result (map atom_shape atoms.new.items
        ≡ map atom_shape atoms.old.items ++ atoms_of (shape_of query.now)) }
{
    match query {
        Query::Always(_) => Ok(()),
        Query::Text(field, text) => Ok(atoms.push(Atom::Text(field, text))?),
        Query::Pattern(field, number) => Ok(atoms.push(Atom::Pattern(field, *number))?),
        Query::Not(part) => push_atoms(part, atoms),
        Query::All(parts) => push_parts(parts, atoms),
        Query::Any(parts) => push_parts(parts, atoms),
    }
}

// Appends the texts and patterns of some queries.
#[cycle(push_atoms)]
fn push_parts<'q>(parts: &'q [Query<'_>], atoms: &mut Vec<Atom<'q>>) -> Result<(), AllocError>
    ensures all { OnOk result (map atom_shape atoms.new.items
        ≡ map atom_shape atoms.old.items ++ atoms_of (all_of (map shape_of parts.now))) }
    ensures any { OnOk result (map atom_shape atoms.new.items
        ≡ map atom_shape atoms.old.items ++ atoms_of (any_of (map shape_of parts.now))) }
{
    for i in 0..parts.len() {
        push_atoms(&parts[i], atoms)?;
    }
    Ok(())
}

/// The texts and patterns of a tracker, from the left: those of `is_affected`, of `is_good`, and of
/// `is_bad`. One that is written twice is there twice.
pub fn tracker_atoms<'q>(
    alloc: Global,
    tracker: &'q Tracker<'_>,
) -> Result<Vec<Atom<'q>>, AllocError>
    ensures { IfOk result
        (λ atoms. map atom_shape atoms.items ≡ atoms_in (tracking tracker.now)) }
{
    let mut atoms = Vec::new(alloc);
    push_atoms(&tracker.affected, &mut atoms)?;
    push_atoms(&tracker.good, &mut atoms)?;
    push_atoms(&tracker.bad, &mut atoms)?;
    Ok(atoms)
}

/// The text of the pattern with a number, without the backslashes before its slashes.
pub fn pattern_text<'q>(tracker: &'q Tracker<'_>, number: usize) -> Option<&'q str>
    ensures { option_map (λ text. text.now) result
        ≡ slice_get (tracking tracker.now).sources number }
{
    match tracker.patterns.get(number) {
        Some(pattern) => Some(pattern.as_str()),
        None => None,
    }
}
