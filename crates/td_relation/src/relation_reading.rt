//! How a relation is read.
ghost use Rattle.std.specs.Prelude.{◌≡◌, ◌≤◌, [], ◌∷◌, ◌++◌, Ok, IfErr, IfOk, OnOk, false, length};
ghost use Rattle.std.specs.Prelude.{◌+◌, map};
ghost use Rattle.memchr.specs.Find.{is_byte2, places};
ghost use Rattle.td_text.specs.Cut.{Without};
ghost use Rattle.td_text.specs.Lines.{on_ok, pieces_of};
ghost use Rattle.td_relation.specs.Asked.{asked};
ghost use Rattle.td_relation.specs.Members.{chunked, members, total};
ghost use Rattle.td_relation.specs.RelationGrammar.{alternative_step, member_at, member_step, over};
ghost use Rattle.td_relation.specs.RelationGrammar.{relation_at};
ghost use Rattle.td_relation.specs.RelationViews.{IsFaultOf};

use crate::alternative_reading::read_alternative;
use crate::relation::{Alternative, Relation};
use crate::relation_fault::RelationFault;
use memchr::memchr2_iter;
use std::alloc::Global;
use td_text::{is_blank, next_piece};

/// For how many alternatives there is room from the first at most, whatever the text has.
const MOST_ROOM: usize = 256;

// As many alternatives as a relation with this text can have: one more than it has commas and bars.
fn most_alternatives(text: &str) -> usize
    ensures { result ≡ length (places (is_byte2 44 124) text.now) + 1 }
{
    memchr2_iter(b',', b'|', text.as_bytes()).count() + 1
}

// Adds the alternative that the piece is.
fn push_alternative<'a>(
    list: &mut Vec<Alternative<'a>>,
    piece: &'a str,
) -> Result<(), RelationFault>
    ensures ok { OnOk result
        (alternative_step (map asked list.old.items) piece.now ≡ Ok (map asked list.new.items)) }
    ensures longer { OnOk result (length list.old.items ≤ length list.new.items) }
    ensures err { IfErr result
        (λ e. IsFaultOf (alternative_step (map asked list.old.items) piece.now) e) }
{
    let alternative = match read_alternative(piece) {
        Ok(alternative) => alternative,
        Err(fault) => return Err(fault),
    };
    match list.push(alternative) {
        Ok(()) => Ok(()),
        Err(_) => Err(RelationFault::NoMemory),
    }
}

// Adds the alternatives that stand between the bars of a member.
fn push_between_bars<'a>(
    list: &mut Vec<Alternative<'a>>,
    text: &'a str,
) -> Result<(), RelationFault>
    ensures ok { OnOk result (over alternative_step (map asked list.old.items)
        (pieces_of 124 text.now) ≡ Ok (map asked list.new.items)) }
    ensures longer { OnOk result (length list.old.items ≤ length list.new.items) }
    ensures err { IfErr result (λ e.
        IsFaultOf (over alternative_step (map asked list.old.items) (pieces_of 124 text.now)) e) }
{
    let mut rest = Some(text);
    while let Some(text) = rest {
        let (piece, after) = next_piece(text, '|');
        rest = after;
        match push_alternative(list, piece) {
            Ok(()) => {}
            Err(fault) => return Err(fault),
        }
    }
    Ok(())
}

// Adds the alternatives of a member, which is one where there is no bar.
fn push_alternatives<'a>(
    list: &mut Vec<Alternative<'a>>,
    text: &'a str,
    barred: bool,
) -> Result<(), RelationFault>
    requires { barred ≡ false → Without 124 text.now }
    ensures ok { OnOk result (over alternative_step (map asked list.old.items)
        (pieces_of 124 text.now) ≡ Ok (map asked list.new.items)) }
    ensures longer { OnOk result (length list.old.items ≤ length list.new.items) }
    ensures err { IfErr result (λ e.
        IsFaultOf (over alternative_step (map asked list.old.items) (pieces_of 124 text.now)) e) }
{
    if barred {
        push_between_bars(list, text)
    } else {
        push_alternative(list, text)
    }
}

// Adds a member, and its size.
fn push_member<'a>(
    alternatives: &mut Vec<Alternative<'a>>,
    sizes: &mut Vec<usize>,
    text: &'a str,
    barred: bool,
) -> Result<(), RelationFault>
    requires whole { total sizes.old.items ≡ length alternatives.old.items }
    requires alone { barred ≡ false → Without 124 text.now }
    ensures ok { OnOk result
        (on_ok (member_at text.now)
        (λ m. Ok (chunked sizes.old.items (map asked alternatives.old.items) ++ m ∷ []))
        ≡ Ok (chunked sizes.new.items (map asked alternatives.new.items))) }
    ensures whole { OnOk result (total sizes.new.items ≡ length alternatives.new.items) }
    ensures err { IfErr result (λ e. IsFaultOf (member_at text.now) e) }
{
    let before = alternatives.len();
    match push_alternatives(alternatives, text, barred) {
        Ok(()) => {}
        Err(fault) => return Err(fault),
    }
    match sizes.push(alternatives.len() - before) {
        Ok(()) => Ok(()),
        Err(_) => Err(RelationFault::NoMemory),
    }
}

// Whether a bar stands somewhere in the text: in most there is none, and no member is searched.
fn has_bar(text: &str) -> bool
    ensures none { result ≡ false → Without 124 text.now }
    ensures some { Without 124 text.now → result ≡ false }
{
    next_piece(text, '|').1.is_some()
}

fn with_room<T: Drop>(alloc: Global, count: usize) -> Result<Vec<T>, RelationFault>
    ensures ok { IfOk result (λ list. list.items ≡ []) }
    ensures err { IfErr result (λ e. e ≡ RelationFault.NoMemory) }
{
    match Vec::with_capacity(alloc, count) {
        Ok(list) => Ok(list),
        Err(_) => Err(RelationFault::NoMemory),
    }
}

// The members between the commas.
fn read_members(alloc: Global, text: &str) -> Result<Relation<'_>, RelationFault>
    ensures ok { IfOk result (λ r. over member_step [] (pieces_of 44 text.now)
        ≡ Ok (chunked r.sizes.items (map asked r.alternatives.items))) }
    ensures err { IfErr result (λ e. IsFaultOf (over member_step [] (pieces_of 44 text.now)) e) }
{
    let count = most_alternatives(text).min(MOST_ROOM);
    let mut alternatives = match with_room(alloc, count) {
        Ok(list) => list,
        Err(fault) => return Err(fault),
    };
    let mut sizes = match with_room(alloc, count) {
        Ok(list) => list,
        Err(fault) => return Err(fault),
    };
    let barred = has_bar(text);
    let mut rest = Some(text);
    while let Some(text) = rest {
        let (piece, after) = next_piece(text, ',');
        rest = after;
        if !is_blank(piece) {
            match push_member(&mut alternatives, &mut sizes, piece, barred) {
                Ok(()) => {}
                Err(fault) => return Err(fault),
            }
        }
    }
    Ok(Relation {
        alternatives,
        sizes,
    })
}

/// The relation that a text is.
pub fn read_relation(alloc: Global, text: &str) -> Result<Relation<'_>, RelationFault>
    ensures ok { IfOk result (λ r. relation_at text.now ≡ Ok (members r)) }
    ensures err { IfErr result (λ e. IsFaultOf (relation_at text.now) e) }
{
    let relation = match read_members(alloc, text) {
        Ok(relation) => relation,
        Err(fault) => return Err(fault),
    };
    if relation.sizes.is_empty() {
        return Err(RelationFault::Empty);
    }
    Ok(relation)
}
