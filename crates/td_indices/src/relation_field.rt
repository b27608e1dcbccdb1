//! The fields of a stanza that are relations.
ghost use Rattle.std.specs.Prelude.{◌≡◌, List, Ok, IfOk, IfErr, option_map};
ghost use Rattle.td_stanza.specs.Table.{fields_of};
ghost use Rattle.td_relation.specs.Asked.{Asked};
ghost use Rattle.td_relation.specs.Members.{members};
ghost use Rattle.td_relation.specs.RelationGrammar.{relation_at};
ghost use Rattle.td_indices.specs.Fields.{Fails, asked_by, relation_in as relation_in_of};
ghost use Rattle.td_indices.specs.Fields.{relation_of as relation_of_in, relation_or_bad};
ghost use Rattle.td_indices.specs.Fields.{unread_relation};
ghost use Rattle.td_indices.specs.Kept.{provides_at};

use crate::archive_fault::{EntryFault, RelationField};
use crate::field::value_of;
use std::alloc::{AllocError, Global};
use td_relation::{Relation, RelationFault};
use td_stanza::Stanza;
use td_text::is_blank;

// The fault of a field whose text wasn't read as a relation for this cause.
fn unread(field: RelationField, fault: RelationFault) -> EntryFault
    ensures { result ≡ unread_relation field fault }
{
    match fault {
        RelationFault::NoMemory => EntryFault::NoMemory,
        _ => EntryFault::BadRelation(field),
    }
}

fn read_relation(
    alloc: Global,
    field: RelationField,
    text: &str,
) -> Result<Relation<'_>, EntryFault>
    ensures ok { IfOk result (λ r.
        relation_or_bad field (relation_at text.now) ≡ Ok (members r)) }
    ensures err { IfErr result (λ e. Fails (relation_or_bad field (relation_at text.now)) e) }
{
    match Relation::read(alloc, text) {
        Ok(relation) => Ok(relation),
        Err(fault) => Err(unread(field, fault)),
    }
}

// What a relation field with this value asks.
fn relation_in(
    alloc: Global,
    field: RelationField,
    value: Option<&str>,
) -> Result<Option<Relation<'_>>, EntryFault>
    ensures ok { IfOk result (λ r.
        relation_in_of field (option_map (λ x. x.now) value.entry) ≡ Ok (asked_by r)) }
    ensures err { IfErr result (λ e.
        Fails (relation_in_of field (option_map (λ x. x.now) value.entry)) e) }
{
    let Some(text) = value else {
        return Ok(None);
    };
    if is_blank(text) {
        return Ok(None);
    }
    match read_relation(alloc, field, text) {
        Ok(relation) => Ok(Some(relation)),
        Err(fault) => Err(fault),
    }
}

/// What a relation field of a stanza asks; `None` if it isn't there, or has only whitespace.
pub fn relation_of<'a>(
    alloc: Global,
    stanza: &Stanza<'_, 'a>,
    field: RelationField,
) -> Result<Option<Relation<'a>>, EntryFault>
    ensures ok { IfOk result (λ r.
        relation_of_in (fields_of stanza.now) field ≡ Ok (asked_by r)) }
    ensures err { IfErr result (λ e. Fails (relation_of_in (fields_of stanza.now) field) e) }
{
    relation_in(alloc, field, value_of(stanza, field.name()))
}

/// What a binary package provides; its other relations are read only for their faults.
#[tactic(auto, unfolding(crate::specs::Kept::provides_at))]
pub fn read_provides<'a>(
    alloc: Global,
    stanza: &Stanza<'_, 'a>,
) -> Result<Option<Relation<'a>>, EntryFault>
    ensures ok { IfOk result (λ r. provides_at (fields_of stanza.now) ≡ Ok (asked_by r)) }
    ensures err { IfErr result (λ e. Fails (provides_at (fields_of stanza.now)) e) }
{
    match relation_of(alloc, stanza, RelationField::Depends) {
        Ok(_) => {}
        Err(fault) => return Err(fault),
    }
    match relation_of(alloc, stanza, RelationField::PreDepends) {
        Ok(_) => {}
        Err(fault) => return Err(fault),
    }
    relation_of(alloc, stanza, RelationField::Provides)
}

/// What a relation field of a stanza asks, if it was read before: it fails only if memory runs out.
pub fn read_again<'a>(
    alloc: Global,
    stanza: &Stanza<'_, 'a>,
    field: RelationField,
) -> Result<Option<Relation<'a>>, AllocError>
    requires { (members : List (List Asked))
        × (relation_of_in (fields_of stanza.now) field ≡ Ok members) }
    ensures { IfOk result (λ r.
        relation_of_in (fields_of stanza.now) field ≡ Ok (asked_by r)) }
{
    match relation_of(alloc, stanza, field) {
        Ok(relation) => Ok(relation),
        Err(EntryFault::NoMemory) => Err(AllocError),
        Err(_) => unreachable!(),
    }
}
