//! The words that ask for a report.
ghost use Rattle.std.specs.Prelude.{◌≡◌, ℕ, List, Some, None, codes, MatchResult, IfOk, IfErr};
ghost use Rattle.std.specs.List.{list_all};
ghost use Rattle.clap.specs.Matches.{found_of};
ghost use Rattle.clap.specs.Walk.{first_of, rows_of};
ghost use Rattle.td_text.specs.Lines.{pieces_of};
ghost use Rattle.td_words.specs.CommandLine.{HasTrack, HasTracker, TrackWords, chunk_at};
ghost use Rattle.td_words.specs.CommandLine.{chunk_in as chunk_in_of};
ghost use Rattle.td_words.specs.ShownWords.{is_listed as is_listed_in, is_status_name as is_status};
ghost use Rattle.td_words.specs.ShownWords.{none_shown as none_shown_of};
ghost use Rattle.td_words.specs.ShownWords.{shown_in as shown_in_of, statuses_at};
ghost use Rattle.td_words.specs.CommandLine.{HasFiles};
ghost use Rattle.td_words.specs.Folder.{folder_in, path_if, tracker_said};
ghost use Rattle.td_words.specs.Asked.{IsGivenBy, IsUsage, report_of, request_words, track_said};

use crate::folder::{file_in, tracker_in};
use crate::present::Present;
use crate::request::{
    Request, TrackRequest, WordsFault, archive_in, is_set, usage_fault, value_in,
};
use clap::ArgMatches;
use std::alloc::Global;
use td_query::Status;
use td_report::Shown;
use td_text::{next_piece, number};

/// The most rows that a piece of a report has.
const MAX_CHUNK: u64 = 1_000_000;

/// What is said of the statuses of a report.
const SHOWN: &str =
    "error: --only takes good, bad, partial and unknown, with commas between, and no --summary\n";

// How many rows a piece of the report has, of 1 to 1000000.
fn chunk_of(text: &str) -> Option<usize>
    ensures { result ≡ chunk_at text.now }
{
    let rows = number(text, MAX_CHUNK)?;
    if rows > 0 { Some(rows as usize) } else { None }
}

// How many rows a chunk has, if the option is given; `None` if its text is no such number.
fn chunk_in(matches: &ArgMatches<'_>) -> Option<Option<usize>>
    ensures { result ≡ chunk_in_of (first_of (codes "chunk") (rows_of (found_of matches.now))) }
{
    match value_in(matches, "chunk") {
        Some(text) => match chunk_of(text) {
            Some(rows) => Some(Some(rows)),
            None => None,
        },
        None => Some(None),
    }
}

// Whether a name is among those of a list with commas between.
fn is_listed(list: &str, name: &str) -> bool
    ensures { result ≡ is_listed_in list.now name.now }
{
    let mut rest = Some(list);
    while let Some(text) = rest {
        let (piece, after) = next_piece(text, ',');
        if name == piece {
            return true;
        }
        rest = after;
    }
    false
}

// Whether a name is that of a status.
fn is_status_name(name: &str) -> bool
    ensures { result ≡ is_status name.now }
{
    name == Status::Good.name()
        || name == Status::Bad.name()
        || name == Status::Partial.name()
        || name == Status::Unknown.name()
}

// Whether a list with commas between names nothing but statuses.
fn are_statuses(list: &str) -> bool
    ensures { result ≡ list_all is_status (pieces_of 44 list.now) }
{
    let mut rest = Some(list);
    while let Some(text) = rest {
        let (piece, after) = next_piece(text, ',');
        if !is_status_name(piece) {
            return false;
        }
        rest = after;
    }
    true
}

// The statuses that a list names, if it names no other thing.
fn statuses_of(list: &str) -> Option<Shown>
    ensures { result ≡ statuses_at list.now }
{
    if !are_statuses(list) {
        return None;
    }
    Some(Shown {
        good: is_listed(list, Status::Good.name()),
        bad: is_listed(list, Status::Bad.name()),
        partial: is_listed(list, Status::Partial.name()),
        unknown: is_listed(list, Status::Unknown.name()),
    })
}

// No row.
fn none_shown() -> Shown
    ensures { result ≡ none_shown_of }
{
    Shown {
        good: false,
        bad: false,
        partial: false,
        unknown: false,
    }
}

// Which rows are asked for; `None` if the options say another thing.
fn shown_in(matches: &ArgMatches<'_>) -> Option<Shown>
    ensures { result ≡ shown_in_of (rows_of (found_of matches.now)) }
{
    let summary = is_set(matches, "summary");
    match value_in(matches, "only") {
        Some(_) if summary => None,
        Some(list) => statuses_of(list),
        None if summary => Some(none_shown()),
        None => Some(Shown::all()),
    }
}

/// The report that the matches of `track` ask for.
pub(crate) fn track_in(
    alloc: Global,
    words: &[String],
    matches: &ArgMatches<'_>,
    present: Present,
) -> Result<Request, WordsFault>
    ensures track { (w : TrackWords) → HasTrack present (rows_of (found_of matches.now)) w
        → MatchResult result (λ r. request_words r ≡ report_of w)
        (λ e. e ≡ WordsFault.NoMemory) }
    ensures said { (archs packages sources tracker : List ℕ)
        → HasTracker present (rows_of (found_of matches.now)) archs packages sources tracker
        → IfErr result (λ e. IsUsage e (track_said (rows_of (found_of matches.now)))) }
    ensures lacking { (archs packages sources folder : List ℕ)
        → HasFiles (rows_of (found_of matches.now)) archs packages sources
        → path_if present.tracker (codes "tracker") (rows_of (found_of matches.now)) ≡ None
        → folder_in (rows_of (found_of matches.now)) ≡ Some folder
        → IfErr result (λ e. IsUsage e tracker_said) }
    ensures only { IfOk result (λ r. IsGivenBy present
        (Some (codes "track", rows_of (found_of matches.now))) (request_words r)) }
{
    let files = archive_in(alloc, words, matches)?;
    let tracker = tracker_in(alloc, words, matches, present)?;
    let state = file_in(alloc, matches, "state", present.state)?;
    let Some(chunk) = chunk_in(matches) else {
        return Err(usage_fault(alloc, "error: --chunk takes a number from 1 to 1000000\n"));
    };
    let Some(shown) = shown_in(matches) else {
        return Err(usage_fault(alloc, SHOWN));
    };
    Ok(Request::Track(TrackRequest {
        files,
        tracker,
        state,
        shown,
        chunk,
    }))
}
