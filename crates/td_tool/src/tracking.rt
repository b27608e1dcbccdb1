//! What is asked of a tracker: `track`, `waves` and `plan`, and a check's details.
ghost use Rattle.std.specs.Prelude.{◌≡◌, ◌≤◌, None, IfOk, IfErr, IfSome, true, length};
ghost use Rattle.std.specs.Prelude.{string_bytes};
ghost use Rattle.std.specs.Result.{ForOk};
ghost use Rattle.td_inputs.specs.Opened.{texts_of as texts_opened};
ghost use Rattle.td_query.specs.Tracking.{IsTracker, tracking};
ghost use Rattle.td_report.specs.Transition.{IsReportOf};
ghost use Rattle.td_report.specs.TransitionView as of;
ghost use Rattle.td_tool.specs.CheckInside.{FileUnread};
ghost use Rattle.td_tool.specs.Limits.{file_limit};
ghost use Rattle.td_tool.specs.Tracks.{EndsBy, EndsSo, as_script, details_of};
ghost use Rattle.td_tool.specs.TrackInside.{GivenSays, IsTableWithin, Tells, TellsTexts, WasOpened};
ghost use Rattle.td_tool.specs.TrackInside.{asked_of, files_at, listed_of, saying_of, texts_of};
ghost use Rattle.td_tool.specs.TrackInside.{texts_over};

use crate::checking::{or_no_memory, write};
use crate::details_text::opened_details;
use crate::early_texts::{CutOff, EarlyTexts};
use crate::ending::{Ending, ending_of_file, ending_of_opening};
use crate::file_texts::FileFault;
use crate::plan_text::opened_plan;
use crate::steps_text::{Order, opened_order};
use crate::texts::Texts;
use crate::track_files::{TrackPaths, TrackTexts, TrackerTexts, read_track_files};
use std::alloc::{AllocError, Global};
use std::mem;
use std::thread::Threads;
use td_bytes::Writer;
use td_indices::{Archive, IndexText};
use td_inputs::{InputTexts, Opened, given_text, open_texts};
use td_plan::Words;
use td_query::Tracker;
use td_report::{Shown, Transition};
use td_rows::Rows;
use td_words::WavesForm;

/// A list of what a transition has.
#[derive(Clone, Copy, Drop)]
pub enum Listing {
    /// The report with these rows, by chunks of so many rows if that is given.
    Report(Shown, Option<usize>),
    /// The levels of the affected sources.
    Waves,
}

/// What is asked of a tracker.
#[derive(Clone, Copy, Drop)]
pub enum Asked<'w> {
    /// A list over its transition.
    Listed(Listing),
    /// The affected sources by steps, or with what each builds on.
    Ordered(Order),
    /// The plan, whose lines have this message and this suite.
    Planned(Words<'w>),
    /// The details of the archive, of whose indices these may be cut off, and what the tracker asks
    /// of it.
    Detailed(CutOff),
}

/// What is asked of a tracker by the words of waves.
pub fn asked_by(form: WavesForm) -> Asked<'static>
    ensures { result ≡ asked_of form }
{
    match (form.steps, form.why) {
        (true, why) => Asked::Ordered(Order::Steps(why)),
        (false, true) => Asked::Ordered(Order::Levels),
        (false, false) => Asked::Listed(Listing::Waves),
    }
}

// The report with these rows, by chunks if they are given. A chunk has a row at least.
fn reported(
    rt: &(impl Threads + Sync),
    alloc: Global,
    transition: &Transition<'_, '_, '_, '_>,
    rows: &Rows,
    shown: Shown,
    chunk: Option<usize>,
) -> Result<String, AllocError>
    requires { of.IsMade transition.now }
    ensures { IfOk result (λ text.
        IsReportOf shown (of.contents_of transition.now) (of.tracking_of transition.now) rows.now
        (string_bytes text)) }
{
    match chunk {
        Some(chunk) => transition.report_split(rt, alloc, rows, shown, chunk.max(1)),
        None => transition.report_showing(alloc, rows, shown),
    }
}

// The list.
fn listed(
    rt: &(impl Threads + Sync),
    alloc: Global,
    transition: &Transition<'_, '_, '_, '_>,
    rows: &Rows,
    listing: Listing,
) -> Result<String, AllocError>
    requires { of.IsMade transition.now }
    ensures { IfOk result (λ text.
        listed_of listing (of.contents_of transition.now) (of.tracking_of transition.now) rows.now
        (string_bytes text)) }
{
    match listing {
        Listing::Report(shown, chunk) => reported(rt, alloc, transition, rows, shown, chunk),
        Listing::Waves => transition.waves(alloc, rows),
    }
}

// What is listed of a text's tracker over an archive and these rows.
fn transition_says(
    rt: &(impl Threads + Sync),
    alloc: Global,
    archive: &Archive<'_, '_>,
    rows: &Rows,
    tracker: &Tracker<'_>,
    text: &str,
    listing: Listing,
) -> Result<String, AllocError>
    requires { IsTracker text.now (tracking tracker.now) }
    ensures { IfOk result (λ said.
        listed_of listing archive.now (tracking tracker.now) rows.now (string_bytes said)) }
{
    let transition = Transition::of(rt, alloc, archive, tracker, text)?;
    listed(rt, alloc, &transition, rows, listing)
}

// What is listed over the rows with which a desk opens over the archive: those of the sources that
// aren't affected say nothing, and aren't made.
fn opening_says(
    rt: &(impl Threads + Sync),
    alloc: Global,
    archive: &Archive<'_, '_>,
    tracker: &Tracker<'_>,
    text: &str,
    listing: Listing,
) -> Result<String, AllocError>
    requires { IsTracker text.now (tracking tracker.now) }
    ensures { IfOk result (λ said.
        GivenSays (listed_of listing) archive.now None (tracking tracker.now)
        (string_bytes said)) }
{
    let (transition, rows) = Transition::with_opening_rows(rt, alloc, archive, tracker, text)?;
    listed(rt, alloc, &transition, &rows, listing)
}

// The list of what was opened. (A tracker is always among it.)
fn opened_list<R: Threads + Sync>(
    rt: &R,
    alloc: Global,
    opened: Opened<'_, '_, '_, '_, '_>,
    listing: Listing,
) -> Result<String, AllocError>
    requires { IfSome opened.tracker (λ given.
        IsTracker given.now.text.now (tracking given.now.tracker)) }
    ensures { IfOk result (λ said. IfSome opened.entry.tracker (λ given.
        GivenSays (listed_of listing) opened.entry.archive.now opened.entry.rows
        (tracking given.now.tracker) (string_bytes said))) }
{
    let Opened {
        archive,
        rows,
        tracker,
    } = opened;
    let Some(given) = tracker else {
        return Ok(String::new(alloc));
    };
    match rows {
        Some(rows) => {
            let tracker = &given.tracker;
            let said = transition_says(rt, alloc, archive, &rows, tracker, given.text, listing);
            mem::forget(rows);
            said
        }
        None => opening_says(rt, alloc, archive, &given.tracker, given.text, listing),
    }
}

// What is asked of what was opened.
fn opened_says<R: Threads + Sync>(
    rt: &R,
    alloc: Global,
    opened: Opened<'_, '_, '_, '_, '_>,
    asked: Asked<'_>,
) -> Result<String, AllocError>
    requires tracker { IfSome opened.tracker (λ given.
        IsTracker given.now.text.now (tracking given.now.tracker)) }
    requires opened { WasOpened opened }
    ensures { IfOk result (λ said. IfSome opened.entry.tracker (λ given.
        GivenSays (saying_of asked.entry) opened.entry.archive.now opened.entry.rows
        (tracking given.now.tracker) (string_bytes said))) }
{
    match asked {
        Asked::Listed(listing) => opened_list(rt, alloc, opened, listing),
        Asked::Ordered(order) => opened_order(rt, alloc, opened, order),
        Asked::Planned(words) => opened_plan(rt, alloc, opened, &words),
        Asked::Detailed(cut) => opened_details(alloc, opened, cut),
    }
}

// The texts that are opened.
fn lend<'i>(
    archs: &'i str,
    packages: IndexText<'i>,
    sources: IndexText<'i>,
    over: &'i TrackerTexts,
) -> InputTexts<'i>
    requires { length archs.now ≤ file_limit }
    ensures { texts_opened result
        ≡ as_script (texts_over archs.now packages.entry sources.entry over.now) }
{
    InputTexts {
        archs,
        packages,
        sources,
        state: given_text(&over.state),
        tracker: Some(over.tracker.as_str()),
    }
}

// The text that is asked for, by all texts.
fn texts_say<R: Threads + Sync>(
    rt: &R,
    alloc: Global,
    texts: TrackTexts,
    asked: Asked<'_>,
) -> Result<String, Ending>
    requires { IsTableWithin texts }
    ensures { Tells (saying_of asked.entry) (texts_of texts) result }
{
    let TrackTexts { indices, over } = texts;
    let EarlyTexts {
        archs,
        packages,
        sources,
        ..
    } = indices;
    let lent = lend(archs.as_str(), packages, sources, &over);
    let says = move |opened: Opened| -> Result<String, AllocError>
        requires tracker { IfSome opened.tracker (λ given.
            IsTracker given.now.text.now (tracking given.now.tracker)) }
        requires opened { WasOpened opened }
        ensures { IfOk result (λ said. IfSome opened.entry.tracker (λ given.
            GivenSays (saying_of asked.entry) opened.entry.archive.now opened.entry.rows
            (tracking given.now.tracker) (string_bytes said))) }
    { opened_says(rt, alloc, opened, asked) };
    let said = open_texts(rt, alloc, lent, says);
    match said {
        Ok(said) => or_no_memory(said),
        Err(fault) => Err(ending_of_opening(fault)),
    }
}

// How a run ends by what was read of the files.
fn tell<R: Threads + Sync, W: Writer>(
    rt: &R,
    alloc: Global,
    read: Result<TrackTexts, FileFault>,
    asked: Asked<'_>,
    output: &mut W,
) -> Ending
    requires { ForOk read IsTableWithin }
    ensures texts { IfOk read (λ x. TellsTexts (saying_of asked.entry) (texts_of x)
        (W.contents output.old) (W.contents output.new) result) }
    ensures unread { IfErr read (λ fault.
        FileUnread fault (W.contents output.old) (W.contents output.new) result) }
    ensures due { result ≡ Ending.CannotWrite → W.can_fail output.old ≡ true }
{
    let read = match read {
        Ok(read) => read,
        Err(unread) => return ending_of_file(unread.role, unread.fault),
    };
    write(texts_say(rt, alloc, read, asked), output)
}

// Which of the indices that were read may be cut off; if none were read, none.
fn cut_of(read: &Result<TrackTexts, FileFault>) -> CutOff
    ensures { IfOk read.now (λ x. result ≡ x.indices.cut) }
{
    match read {
        Ok(read) => read.indices.cut,
        Err(_) => CutOff {
            packages: false,
            sources: false,
        },
    }
}

/// Writes the details of the archive, and what the tracker of this path asks of it. All is read
/// before anything is written.
pub fn track_details<R: Threads + Sync, T: Texts + Sync, W: Writer>(
    rt: &R,
    alloc: Global,
    texts: &T,
    paths: &TrackPaths<'_>,
    output: &mut W,
) -> Ending
    ensures ends { EndsBy details_of
        (files_at (T.bytes texts.now) (T.can_fail texts.now) paths.now)
        (W.contents output.old) (W.contents output.new) result }
    ensures due { result ≡ Ending.CannotWrite → W.can_fail output.old ≡ true }
{
    let read = read_track_files(rt, alloc, texts, paths);
    let cut = cut_of(&read);
    tell(rt, alloc, read, Asked::Detailed(cut), output)
}

/// Writes what the tracker of this path says over the archive. All is read before anything is
/// written.
pub fn track<R: Threads + Sync, T: Texts + Sync, W: Writer>(
    rt: &R,
    alloc: Global,
    texts: &T,
    paths: &TrackPaths<'_>,
    asked: Asked<'_>,
    output: &mut W,
) -> Ending
    ensures ends { EndsSo (saying_of asked.entry)
        (files_at (T.bytes texts.now) (T.can_fail texts.now) paths.now)
        (W.contents output.old) (W.contents output.new) result }
    ensures due { result ≡ Ending.CannotWrite → W.can_fail output.old ≡ true }
{
    let read = read_track_files(rt, alloc, texts, paths);
    tell(rt, alloc, read, asked, output)
}
