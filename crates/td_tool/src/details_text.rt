//! The details of what was opened, and what its tracker asks of it, as a text.
ghost use Rattle.std.specs.Prelude.{◌≡◌, IfOk, IfSome, string_bytes};
ghost use Rattle.td_query.specs.Tracking.{tracking};
ghost use Rattle.td_tool.specs.Counted.{tracked_text};
ghost use Rattle.td_tool.specs.TrackInside.{GivenSays};
ghost use Rattle.td_tool.specs.Tracks.{details_says};

use crate::checking::told;
use crate::early_texts::CutOff;
use crate::steps_text::rows_stand;
use std::alloc::{AllocError, Global};
use std::mem;
use td_details::put_tracker_details;
use td_indices::Archive;
use td_inputs::Opened;
use td_query::Tracker;

// The details of an archive, of whose indices these may be cut off, and what a tracker asks of it.
fn detailed(
    alloc: Global,
    archive: &Archive<'_, '_>,
    tracker: &Tracker<'_>,
    cut: CutOff,
) -> Result<String, AllocError>
    ensures { IfOk result (λ said.
        string_bytes said ≡ tracked_text cut archive.now (tracking tracker.now)) }
{
    let mut text = told(alloc, archive, true, cut)?;
    put_tracker_details(alloc, &mut text, archive, tracker)?;
    Ok(text)
}

/// The details of what was opened, and what its tracker asks. (A tracker is always among it.)
pub fn opened_details(
    alloc: Global,
    opened: Opened<'_, '_, '_, '_, '_>,
    cut: CutOff,
) -> Result<String, AllocError>
    ensures { IfOk result (λ said. IfSome opened.entry.tracker (λ given.
        GivenSays (details_says cut) opened.entry.archive.now opened.entry.rows
        (tracking given.now.tracker) (string_bytes said))) }
{
    let Opened {
        archive,
        rows,
        tracker,
    } = opened;
    let Some(given) = tracker else {
        return Ok(String::new(alloc));
    };
    rows_stand(archive, &rows)?;
    let said = detailed(alloc, archive, &given.tracker, cut);
    mem::forget(rows);
    said
}
