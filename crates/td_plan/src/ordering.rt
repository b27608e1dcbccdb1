//! The order of a plan's lines.
ghost use Rattle.std.specs.Prelude.{◌≡◌, ◌==◌, ◌++◌, ◌∷◌, [], ◌<◌, ℕ, true, false, IfOk, OnOk};
ghost use Rattle.std.specs.Prelude.{length, slice_get, if◌then◌else◌};
ghost use Rattle.std.specs.List.Sorted.{IsPermutation, IsSorted};
ghost use Rattle.std.specs.Option.{option_map_or};
ghost use Rattle.td_waves.specs.Graph.{bases_of, lists};
ghost use Rattle.td_plan.specs.inner.Movers.{has_due_motion};
ghost use Rattle.td_plan.specs.inner.Ordering.{AreMembers, ArePartsOf, position_cmp};
ghost use Rattle.td_plan.specs.inner.Ordering.{
  due_positions as due_positions_of,
  position_of as position_in,
};

use crate::movers::Mover;
use crate::parts::Parts;
use crate::turning::empty_lists;
use std::alloc::{AllocError, Global};

/// The position of a source with a due row: its step, then the first source of its part, then its
/// own number.
pub type Position = (usize, usize, usize);

// The position of the source with a number.
fn position_of(parts: &Parts, number: usize) -> Position
    requires firsts { number < length parts.now.firsts.items }
    requires steps { number < length parts.now.steps.items }
    ensures { result ≡ position_in parts.now number }
{
    (parts.steps[number], parts.firsts[number], number)
}

// Whether the source with a number has a due row, and a place among the parts.
fn stands(movers: &[Mover<'_>], parts: &Parts, number: usize) -> bool
    requires { number < length movers.now }
    ensures within { result ≡ true → (number < length parts.now.firsts.items)
        × (number < length parts.now.steps.items) }
    ensures due { ArePartsOf (length movers.now) parts.now
        → result ≡ option_map_or has_due_motion (slice_get movers.now number) false }
{
    if number >= parts.firsts.len() {
        return false;
    }
    if number >= parts.steps.len() {
        return false;
    }
    movers[number].has_due()
}

// Adds the position of the source with a number, if it has a due row.
fn push_position(
    positions: &mut Vec<Position>,
    movers: &[Mover<'_>],
    parts: &Parts,
    number: usize,
) -> Result<(), AllocError>
    requires { number < length movers.now }
    ensures { OnOk result (ArePartsOf (length movers.now) parts.now → positions.new.items
        ≡ (if option_map_or has_due_motion (slice_get movers.now number) false
        then positions.old.items ++ position_in parts.now number ∷ [] else positions.old.items)) }
{
    if !stands(movers, parts, number) {
        return Ok(());
    }
    positions.push(position_of(parts, number))?;
    Ok(())
}

// The positions of the sources with a due row, by their numbers.
fn due_positions(
    alloc: Global,
    movers: &[Mover<'_>],
    parts: &Parts,
) -> Result<Vec<Position>, AllocError>
    ensures { IfOk result (λ positions. ArePartsOf (length movers.now) parts.now
        → positions.items ≡ due_positions_of parts.now movers.now) }
{
    let mut positions = Vec::new(alloc);
    for number in 0..movers.len() {
        push_position(&mut positions, movers, parts, number)?;
    }
    Ok(positions)
}

/// The positions of the sources with a due row, in order.
pub fn positions_of(
    alloc: Global,
    movers: &[Mover<'_>],
    parts: &Parts,
) -> Result<Vec<Position>, AllocError>
    ensures all { IfOk result (λ positions. ArePartsOf (length movers.now) parts.now
        → IsPermutation (due_positions_of parts.now movers.now) positions.items) }
    ensures in_order { IfOk result (λ positions. IsSorted position_cmp positions.items) }
{
    let mut positions = due_positions(alloc, movers, parts)?;
    positions.sort_unstable();
    Ok(positions)
}

/// Adds a number to the list with another number, `first`, if there is that list.
pub fn push_member(
    members: &mut Vec<Vec<usize>>,
    first: usize,
    number: usize,
) -> Result<(), AllocError>
    ensures lists { OnOk result ((k : ℕ) → k < length members.old.items
        → bases_of (lists members.new.items) k
        ≡ (if first == k then bases_of (lists members.old.items) k ++ number ∷ []
        else bases_of (lists members.old.items) k)) }
    ensures len { length members.new.items ≡ length members.old.items }
{
    if first >= members.len() {
        return Ok(());
    }
    members[first].push(number)?;
    Ok(())
}

/// For each source, by number, the members of the part that it is the first of, itself included.
pub fn members_of(alloc: Global, parts: &Parts) -> Result<Vec<Vec<usize>>, AllocError>
    ensures { IfOk result (λ members. AreMembers parts.now.firsts.items (lists members.items)) }
{
    let mut members = empty_lists(alloc, parts.firsts.len())?;
    for number in 0..parts.firsts.len() {
        push_member(&mut members, parts.firsts[number], number)?;
    }
    Ok(members)
}
