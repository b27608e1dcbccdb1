//! The words that ask for a desk that lasts.
ghost use Rattle.std.specs.Prelude.{◌≡◌, Some, codes, MatchResult, IfOk};
ghost use Rattle.clap.specs.Matches.{found_of};
ghost use Rattle.clap.specs.Walk.{rows_of};
ghost use Rattle.td_words.specs.DeskWords.{DeskWords, HasDesk};
ghost use Rattle.td_words.specs.Asked.{IsGivenBy, desk_of, request_words};

use crate::folder::path_in;
use crate::present::Present;
use crate::request::{DeskRequest, Request, WordsFault, archive_in, is_set};
use crate::run_words::opening_in;
use clap::ArgMatches;
use std::alloc::Global;

/// The desk that the matches of `desk` ask for.
pub(crate) fn desk_in(
    alloc: Global,
    words: &[String],
    matches: &ArgMatches<'_>,
    present: Present,
) -> Result<Request, WordsFault>
    ensures desk { (w : DeskWords) → HasDesk present (rows_of (found_of matches.now)) w
        → MatchResult result (λ r. request_words r ≡ desk_of w) (λ e. e ≡ WordsFault.NoMemory) }
    ensures only { IfOk result (λ r. IsGivenBy present
        (Some (codes "desk", rows_of (found_of matches.now))) (request_words r)) }
{
    let files = archive_in(alloc, words, matches)?;
    let journal = path_in(alloc, words, matches, "journal")?;
    let opening = opening_in(alloc, matches, present)?;
    Ok(Request::Desk(DeskRequest {
        files,
        journal,
        state: opening.state,
        tracker: opening.tracker,
        suite: opening.suite,
        waits: is_set(matches, "wait"),
    }))
}
