//! How build profiles are read.
ghost use Rattle.std.specs.Prelude.{◌≡◌, false};
ghost use Rattle.td_text.specs.Lines.{on_ok, pieces_of};
ghost use Rattle.td_relation.specs.RelationGrammar.{ended as ended_of, over};
ghost use Rattle.td_relation.specs.RelationGrammar.{profile_piece as profile_piece_of};
ghost use Rattle.td_relation.specs.RelationGrammar.{profile_step, unprofiled_at};

use crate::arch_list::{is_profile_list, is_unprofiled};
use crate::relation_fault::RelationFault;
use td_text::{is_blank, next_piece, strip, trimmed};

/// What stands before a `>`: whether the list holds where no profile is active.
#[tactic(auto, unfolding(crate::specs::RelationGrammar::profile_piece))]
fn profile_piece(piece: &str) -> Option<bool>
    ensures { result ≡ profile_piece_of piece.now }
{
    let inside = strip(trimmed(piece), "<")?;
    if is_profile_list(inside) {
        Some(is_unprofiled(inside))
    } else {
        None
    }
}

/// With a piece more: whether a list so far holds where no profile is active, and whether the lists
/// have ended.
fn next_profiles(seen: (bool, bool), piece: &str) -> Result<(bool, bool), RelationFault>
    ensures { result ≡ profile_step seen piece.now }
{
    if seen.1 {
        return Err(RelationFault::BadProfile);
    }
    if is_blank(piece) {
        return Ok((seen.0, true));
    }
    match profile_piece(piece) {
        Some(holds) => Ok((seen.0 || holds, false)),
        None => Err(RelationFault::BadProfile),
    }
}

fn ended(seen: (bool, bool)) -> Result<bool, RelationFault>
    ensures { result ≡ ended_of seen }
{
    if seen.1 {
        Ok(seen.0)
    } else {
        Err(RelationFault::BadProfile)
    }
}

fn read_profiles(text: &str) -> Result<bool, RelationFault>
    ensures { result ≡ on_ok (over profile_step (false, false) (pieces_of 62 text.now)) ended_of }
{
    let mut seen = (false, false);
    let mut rest = Some(text);
    while let Some(text) = rest {
        let (piece, after) = next_piece(text, '>');
        rest = after;
        seen = match next_profiles(seen, piece) {
            Ok(more) => more,
            Err(fault) => return Err(fault),
        };
    }
    ended(seen)
}

/// Whether one of the profile lists holds where no profile is active, or there is none.
#[tactic(auto, unfolding(crate::specs::RelationGrammar::unprofiled_at))]
pub fn read_unprofiled(text: &str) -> Result<bool, RelationFault>
    ensures { result ≡ unprofiled_at text.now }
{
    if is_blank(text) {
        Ok(true)
    } else {
        read_profiles(text)
    }
}
