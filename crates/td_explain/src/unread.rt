//! The relation of a stanza that can't be read.
ghost use Rattle.std.specs.Prelude.{◌≡◌, option_map, IfOk};
ghost use Rattle.td_explain.specs.Unread.{IsUnread, IsValue, is_read as is_read_of, unread_in};

use std::alloc::{AllocError, Global};
use td_relation::{Relation, RelationFault};
use td_stanza::{StanzaFault, stanzas};
use td_text::{is_blank, next_piece};

// Whether a piece between commas can be read: it is only whitespace, or a relation.
fn is_read(alloc: Global, piece: &str) -> Result<bool, AllocError>
    ensures { IfOk result (λ read. read ≡ is_read_of piece.now) }
{
    if is_blank(piece) {
        return Ok(true);
    }
    match Relation::read(alloc, piece) {
        Ok(_) => Ok(true),
        Err(RelationFault::NoMemory) => Err(AllocError),
        Err(
            RelationFault::BadName
            | RelationFault::BadOperator
            | RelationFault::BadVersion
            | RelationFault::BadArchList
            | RelationFault::BadProfile
            | RelationFault::Empty,
        ) => Ok(false),
    }
}

// The first piece of a field's value that can't be read.
fn first_unread(alloc: Global, value: &str) -> Result<Option<&str>, AllocError>
    ensures { IfOk result (λ found. option_map (λ x. x.now) found ≡ unread_in value.now) }
{
    let mut rest = Some(value);
    while let Some(here) = rest {
        let (piece, after) = next_piece(here, ',');
        if !is_read(alloc, piece)? {
            return Ok(Some(piece));
        }
        rest = after;
    }
    Ok(None)
}

// The value of the field with this name, in the stanza with this number.
fn field_value<'a>(
    alloc: Global,
    text: &'a str,
    number: usize,
    name: &str,
) -> Result<Option<&'a str>, AllocError>
    ensures { IfOk result (λ found. IsValue number name.now text.now
        (option_map (λ x. x.now) found)) }
{
    let list = match stanzas(alloc, text) {
        Ok(list) => list,
        Err(StanzaFault::NoMemory) => return Err(AllocError),
        Err(
            StanzaFault::BadName(_)
            | StanzaFault::NoColon(_)
            | StanzaFault::ContinuationFirst(_)
            | StanzaFault::Duplicate(_),
        ) => return Ok(None),
    };
    let Some(stanza) = list.stanza(number.saturating_sub(1)) else {
        return Ok(None);
    };
    Ok(stanza.get(name))
}

/// The first relation that can't be read of the field with this name, in the stanza with this
/// number, from 1 on.
pub fn unread_relation<'a>(
    alloc: Global,
    text: &'a str,
    number: usize,
    name: &str,
) -> Result<Option<&'a str>, AllocError>
    ensures { IfOk result (λ found. IsUnread number name.now text.now
        (option_map (λ x. x.now) found)) }
{
    match field_value(alloc, text, number, name) {
        Ok(Some(value)) => first_unread(alloc, value),
        Ok(None) => Ok(None),
        Err(error) => Err(error),
    }
}
