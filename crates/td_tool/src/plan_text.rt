//! The plan of a tracker over what was opened, as a text.
ghost use Rattle.std.specs.Prelude.{◌≡◌, IfOk, IfSome, None, string_bytes};
ghost use Rattle.td_plan.specs.Plan.{IsPlan};
ghost use Rattle.td_plan.specs.Premises.{Premises};
ghost use Rattle.td_plan.specs.SoundLaws.{CanBePlanned, WasRead};
ghost use Rattle.td_plan.specs.inner.Inputs.{AreFor};
ghost use Rattle.td_plan.specs.inner.Writing.{seen_words};
ghost use Rattle.td_query.specs.Tracking.{IsTracker, tracking};
ghost use Rattle.td_tool.specs.TrackInside.{GivenSays, WasOpened};
ghost use Rattle.td_tool.specs.Tracks.{IsPlanWith, premises_of};

use std::alloc::{AllocError, Global};
use std::mem;
use std::thread::Threads;
use td_indices::Archive;
use td_inputs::Opened;
use td_plan::{Inputs, Plan, Words};
use td_query::{Marks, Tracker};
use td_rows::Rows;

// The lines of the plan of these inputs.
fn lines_of(
    rt: &(impl Threads + Sync),
    alloc: Global,
    inputs: Inputs<'_, '_, '_>,
    title: &str,
    words: &Words<'_>,
) -> Result<String, AllocError>
    ensures { IfOk result (λ said. (p : Premises) → AreFor inputs.entry p → CanBePlanned p
        → p.tracker.title ≡ title.now → IsPlan (seen_words words.now) p (string_bytes said)) }
{
    let plan = Plan::of(rt, alloc, inputs)?;
    plan.text(rt, alloc, title, words)
}

// The plan of a text's tracker over an archive and these rows.
fn planned<R: Threads + Sync>(
    rt: &R,
    alloc: Global,
    archive: &Archive<'_, '_>,
    rows: &Rows,
    tracker: &Tracker<'_>,
    text: &str,
    words: &Words<'_>,
) -> Result<String, AllocError>
    requires tracker { IsTracker text.now (tracking tracker.now) }
    requires planned { CanBePlanned
        (premises_of archive.now (tracking tracker.now) rows.now) }
    ensures { IfOk result (λ said. IsPlanWith (seen_words words.now) archive.now
        (tracking tracker.now) rows.now (string_bytes said)) }
{
    let marks = Marks::make(rt, alloc, archive, tracker, text)?;
    let inputs = Inputs {
        archive,
        marks: &marks,
        rows,
    };
    lines_of(rt, alloc, inputs, tracker.title(), words)
}

// The plan of a text's tracker over all rows with which the archive opens. Those of the affected
// sources are enough.
fn opening_planned<R: Threads + Sync>(
    rt: &R,
    alloc: Global,
    archive: &Archive<'_, '_>,
    tracker: &Tracker<'_>,
    text: &str,
    words: &Words<'_>,
) -> Result<String, AllocError>
    requires tracker { IsTracker text.now (tracking tracker.now) }
    requires read { WasRead archive.now }
    ensures { IfOk result (λ said. GivenSays (IsPlanWith (seen_words words.now)) archive.now None
        (tracking tracker.now) (string_bytes said)) }
{
    let marks = Marks::make(rt, alloc, archive, tracker, text)?;
    let flags = marks.affected_flags(rt, alloc, archive)?;
    let rows = archive.opening_rows_of(&flags)?;
    let inputs = Inputs {
        archive,
        marks: &marks,
        rows: &rows,
    };
    let said = lines_of(rt, alloc, inputs, tracker.title(), words);
    mem::forget(rows);
    said
}

/// The plan of what was opened. (A tracker is always among it.)
pub fn opened_plan<R: Threads + Sync>(
    rt: &R,
    alloc: Global,
    opened: Opened<'_, '_, '_, '_, '_>,
    words: &Words<'_>,
) -> Result<String, AllocError>
    requires tracker { IfSome opened.tracker (λ given.
        IsTracker given.now.text.now (tracking given.now.tracker)) }
    requires opened { WasOpened opened }
    ensures { IfOk result (λ said. IfSome opened.entry.tracker (λ given.
        GivenSays (IsPlanWith (seen_words words.now)) opened.entry.archive.now opened.entry.rows
        (tracking given.now.tracker) (string_bytes said))) }
{
    let Opened {
        archive,
        rows,
        tracker,
    } = opened;
    let Some(given) = tracker else {
        return Ok(String::new(alloc));
    };
    match rows {
        None => opening_planned(rt, alloc, archive, &given.tracker, given.text, words),
        Some(rows) => {
            let said = planned(rt, alloc, archive, &rows, &given.tracker, given.text, words);
            mem::forget(rows);
            said
        }
    }
}
