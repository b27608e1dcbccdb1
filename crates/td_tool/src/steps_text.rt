//! The affected sources of what was opened by steps, or with what each builds on, as a text.
ghost use Rattle.std.specs.Prelude.{◌≡◌, IfOk, IfSome, OnOk, string_bytes};
ghost use Rattle.td_plan.specs.Premises.{SourcesAreApart};
ghost use Rattle.td_query.specs.Tracking.{IsTracker, tracking};
ghost use Rattle.td_rows.specs.Table.{Table};
ghost use Rattle.td_tool.specs.TrackInside.{AreLookedAt, GivenSays, WasOpened, ordered_of};

use std::alloc::{AllocError, Global};
use std::mem;
use std::thread::Threads;
use td_indices::Archive;
use td_inputs::Opened;
use td_plan::Steps;
use td_query::{Marks, Tracker};
use td_rows::Rows;

/// How affected sources are listed.
#[derive(Clone, Copy, Drop)]
pub enum Order {
    /// By steps, each source with what it builds on if this is true.
    Steps(bool),
    /// By levels, each source with what it builds on.
    Levels,
}

/// That there are rows over which all is said: those that are given, or all with which the archive
/// opens. (None of these is made: no source is asked for.)
pub fn rows_stand(archive: &Archive<'_, '_>, given: &Option<Rows>) -> Result<(), AllocError>
    ensures { OnOk result ((rows : Table) × AreLookedAt archive.now given.now rows) }
{
    let _none = archive.opening_rows_of(&[])?;
    Ok(())
}

// The affected sources of a text's tracker over an archive.
fn ordered<R: Threads + Sync>(
    rt: &R,
    alloc: Global,
    archive: &Archive<'_, '_>,
    tracker: &Tracker<'_>,
    text: &str,
    order: Order,
) -> Result<String, AllocError>
    requires tracker { IsTracker text.now (tracking tracker.now) }
    requires apart { SourcesAreApart archive.now }
    ensures { IfOk result (λ said. (rows : Table)
        → ordered_of order archive.now (tracking tracker.now) rows (string_bytes said)) }
{
    let marks = Marks::make(rt, alloc, archive, tracker, text)?;
    let steps = Steps::of(rt, alloc, archive, &marks)?;
    match order {
        Order::Steps(why) => steps.text(alloc, why),
        Order::Levels => steps.by_levels(rt, alloc),
    }
}

/// The affected sources of what was opened. (A tracker is always among it.)
pub fn opened_order<R: Threads + Sync>(
    rt: &R,
    alloc: Global,
    opened: Opened<'_, '_, '_, '_, '_>,
    order: Order,
) -> Result<String, AllocError>
    requires tracker { IfSome opened.tracker (λ given.
        IsTracker given.now.text.now (tracking given.now.tracker)) }
    requires opened { WasOpened opened }
    ensures { IfOk result (λ said. IfSome opened.entry.tracker (λ given.
        GivenSays (ordered_of order) opened.entry.archive.now opened.entry.rows
        (tracking given.now.tracker) (string_bytes said))) }
{
    let Opened {
        archive,
        rows,
        tracker,
    } = opened;
    let Some(given) = tracker else {
        return Ok(String::new(alloc));
    };
    rows_stand(archive, &rows)?;
    let said = ordered(rt, alloc, archive, &given.tracker, given.text, order);
    mem::forget(rows);
    said
}
