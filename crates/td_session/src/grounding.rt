//! How it is made of an archive what a desk is opened over.
ghost use Rattle.std.specs.Prelude.{IfSome, option_map};
ghost use Rattle.td_core.specs.Phases.{NoneBuilt};
ghost use Rattle.td_inputs.specs.Inputs.{AreRowsOf, IsArchiveOf};
ghost use Rattle.td_session.specs.Grounds.{texts_of};
ghost use Rattle.td_session.specs.inner.Grounding.{IsGroundOf};

use crate::ground::Ground;
use crate::texts::SessionTexts;
use std::alloc::Global;
use td_indices::Archive;
use td_inputs::given_text;
use td_lasting::header;
use td_rows::{Rows, read_state};

// The rows with which a desk opens over an archive, with those of a state file instead of the ones
// with their keys; `None` if the state file is refused, or memory runs out.
fn rows_over(alloc: Global, archive: &Archive<'_, '_>, state: Option<&str>) -> Option<Rows>
    ensures rows { IfSome result (AreRowsOf archive.now (option_map (λ s. s.now) state.entry)) }
    ensures idle { IfSome result NoneBuilt }
{
    let Ok(mut rows) = archive.opening_rows() else {
        return None;
    };
    // (`len` says that the keys of the rows rise)
    let _rising = rows.len();
    let Some(text) = state else {
        return Some(rows);
    };
    let Ok(given) = read_state(alloc, text) else {
        return None;
    };
    match rows.overlay(given) {
        Ok(()) => Some(rows),
        Err(_) => None,
    }
}

/// What a desk is opened over whose texts are this archive; `None` if the state file is refused, or
/// memory runs out.
pub(crate) fn ground_over<'a>(
    alloc: Global,
    texts: &SessionTexts,
    archive: &Archive<'_, 'a>,
) -> Option<Ground<'a>>
    requires { IsArchiveOf (texts_of texts.now) archive.now }
    ensures { IfSome result (IsGroundOf (texts_of texts.now) archive.now) }
{
    let Some(rows) = rows_over(alloc, archive, given_text(&texts.state)) else {
        return None;
    };
    let Ok(header) = header(alloc, texts.archs.as_str(), archive, &rows) else {
        return None;
    };
    let Ok(supply) = archive.supply() else {
        return None;
    };
    Some(Ground {
        rows,
        supply,
        header,
    })
}
