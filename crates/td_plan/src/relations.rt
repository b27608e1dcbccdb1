//! What a source is told to wait for, and where.

ghost use Rattle.std.specs.Prelude.{◌≡◌, ◌++◌, [], IfOk, OnOk, filter, length, map, nat_lt};
ghost use Rattle.std.specs.Prelude.{position};
ghost use Rattle.std.specs.Prelude.{string_bytes, if◌then◌else◌};
ghost use Rattle.std.specs.Str.{bytes_eq};
ghost use Rattle.td_rows.specs.Appending.{Grown};
ghost use Rattle.td_relation.specs.RelationWriting.{member_text};
ghost use Rattle.td_plan.specs.Relations.{member_of, relation_of as relation_of_waits};
ghost use Rattle.td_plan.specs.Plan.{is_waiting};
ghost use Rattle.td_plan.specs.inner.Told.{groups, seen_told, waiting_from, with_place};
ghost use Rattle.td_plan.specs.inner.Waiting.{seen};

use crate::waits::{Wait, Waits};
use std::alloc::{AllocError, Global};

/// A relation, and the places of the architectures on which a source waits for it.
#[derive(Drop)]
pub struct Told {
    pub relation: String,
    pub places: Vec<usize>,
}

// Appends `PACKAGE (>= VERSION)`.
#[tactic(auto, using(td_rows::proofs::Appends::growing))]
fn put_wait(out: &mut String, wait: &Wait<'_>) -> Result<(), AllocError>
    ensures ok { OnOk result
        (string_bytes out.new ≡ string_bytes out.old ++ member_text (member_of (seen wait.now))) }
    ensures front { Grown (string_bytes out.old) (string_bytes out.new) }
{
    out.push_str(wait.name)?;
    out.push_str(" (>= ")?;
    wait.version.put(out)?;
    out.push_str(")")
}

// The relation of some waits.
fn relation_of(alloc: Global, waits: &[Wait<'_>]) -> Result<String, AllocError>
    ensures { IfOk result
        (λ text. string_bytes text ≡ relation_of_waits (map seen waits.now)) }
{
    let mut text = String::new(alloc);
    for number in 0..waits.len() {
        if number > 0 {
            text.push_str(", ")?;
        }
        put_wait(&mut text, &waits[number])?;
    }
    Ok(text)
}

// The number of the `Told` with this relation.
fn number_of(told: &[Told], relation: &str) -> Option<usize>
    ensures { result ≡ position (λ t. bytes_eq (string_bytes t.relation) relation.now) told.now }
{
    told.iter()
        .position(|one| one.relation.as_str() == relation)
}

// Adds a place to the places that have its relation.
#[tactic(auto, using(crate::proofs::ToldGroups::told_so))]
fn push_place(
    alloc: Global,
    told: &mut Vec<Told>,
    relation: String,
    place: usize,
) -> Result<(), AllocError>
    ensures { OnOk result (map seen_told told.new.items
        ≡ with_place (string_bytes relation) place (map seen_told told.old.items)) }
{
    match number_of(told.as_slice(), relation.as_str()) {
        Some(number) => {
            told[number].places.push(place)?;
        }
        None => {
            let mut places = Vec::with_capacity(alloc, 1)?;
            places.push(place)?;
            told.push(Told { relation, places })?;
        }
    }
    Ok(())
}

// Adds a place to the places that have the relation of its waits, if there are any waits.
fn push_waits(
    alloc: Global,
    told: &mut Vec<Told>,
    waits: &[Wait<'_>],
    place: usize,
) -> Result<(), AllocError>
    ensures { OnOk result (map seen_told told.new.items ≡ (if nat_lt 0 (length waits.now)
        then with_place (relation_of_waits (map seen waits.now)) place
        (map seen_told told.old.items)
        else map seen_told told.old.items)) }
{
    if waits.is_empty() {
        return Ok(());
    }
    let relation = relation_of(alloc, waits)?;
    push_place(alloc, told, relation, place)?;
    Ok(())
}

/// Each different relation of a source with the places that have it, in the order of their first
/// places. `waits` says what the source waits for at each place.
pub fn told_of(alloc: Global, waits: &[Waits<'_>]) -> Result<Vec<Told>, AllocError>
    ensures { IfOk result (λ told. map seen_told told.items
        ≡ groups [] (filter is_waiting (waiting_from 0 waits.now))) }
{
    let mut told = Vec::new(alloc);
    for place in 0..waits.len() {
        push_waits(alloc, &mut told, &waits[place].waits, place)?;
    }
    Ok(told)
}
