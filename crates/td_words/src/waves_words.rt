//! The words that ask for waves.
ghost use Rattle.std.specs.Prelude.{◌≡◌, ℕ, List, Some, None, codes, MatchResult, IfOk, IfErr};
ghost use Rattle.clap.specs.Matches.{found_of};
ghost use Rattle.clap.specs.Walk.{rows_of};
ghost use Rattle.td_words.specs.CommandLine.{HasFiles, HasWaves, WavesWords};
ghost use Rattle.td_words.specs.Folder.{folder_in, path_if, tracker_said};
ghost use Rattle.td_words.specs.Asked.{IsGivenBy, IsUsage, request_words, waves_of};
ghost use Rattle.td_words.specs.ShownWords.{form_in as form_in_of};

use crate::folder::tracker_in;
use crate::present::Present;
use crate::request::{Request, WavesForm, WavesRequest, WordsFault, archive_in, is_set};
use clap::ArgMatches;
use std::alloc::Global;

// How the matches of `waves` ask for affected sources to be listed.
fn form_in(matches: &ArgMatches<'_>) -> WavesForm
    ensures { result ≡ form_in_of (rows_of (found_of matches.now)) }
{
    WavesForm {
        steps: is_set(matches, "steps"),
        why: is_set(matches, "why"),
    }
}

/// The waves that the matches of `waves` ask for.
pub(crate) fn waves_in(
    alloc: Global,
    words: &[String],
    matches: &ArgMatches<'_>,
    present: Present,
) -> Result<Request, WordsFault>
    ensures waves { (w : WavesWords) → HasWaves present (rows_of (found_of matches.now)) w
        → MatchResult result (λ r. request_words r ≡ waves_of w) (λ e. e ≡ WordsFault.NoMemory) }
    ensures lacking { (archs packages sources folder : List ℕ)
        → HasFiles (rows_of (found_of matches.now)) archs packages sources
        → path_if present.tracker (codes "tracker") (rows_of (found_of matches.now)) ≡ None
        → folder_in (rows_of (found_of matches.now)) ≡ Some folder
        → IfErr result (λ e. IsUsage e tracker_said) }
    ensures only { IfOk result (λ r. IsGivenBy present
        (Some (codes "waves", rows_of (found_of matches.now))) (request_words r)) }
{
    Ok(Request::Waves(WavesRequest {
        files: archive_in(alloc, words, matches)?,
        tracker: tracker_in(alloc, words, matches, present)?,
        form: form_in(matches),
    }))
}
