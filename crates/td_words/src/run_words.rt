//! The words that ask for a run.
ghost use Rattle.std.specs.Prelude.{◌≡◌, ℕ, List, Some, codes, option_map, string_bytes};
ghost use Rattle.std.specs.Prelude.{MatchResult, IfOk, IfErr};
ghost use Rattle.clap.specs.Matches.{found_of};
ghost use Rattle.clap.specs.Walk.{first_of, rows_of};
ghost use Rattle.td_words.specs.CommandLine.{HasFiles, HasRun, RunWords};
ghost use Rattle.td_words.specs.CommandLine.{builders_in as builders_in_of};
ghost use Rattle.td_words.specs.CommandLine.{suite_in as suite_in_of};
ghost use Rattle.td_words.specs.Folder.{path_if};
ghost use Rattle.td_words.specs.Asked.{IsGivenBy, IsUsage, builders_said, request_words, run_of};

use crate::folder::file_in;
use crate::present::Present;
use crate::request::{
    Request, RunRequest, WordsFault, archive_in, given_in, usage_fault, value_in,
};
use clap::ArgMatches;
use std::alloc::Global;
use td_text::number;

/// The most builders that a run has.
const MAX_BUILDERS: u64 = 64;

/// The suite that command lines may name if no other is given.
const SUITE: &str = "unstable";

// How many builders there are, 0 if the option is left out; `None` if its text is no number from
// 0 to 64.
fn builders_in(matches: &ArgMatches<'_>) -> Option<usize>
    ensures { result
        ≡ builders_in_of (first_of (codes "builders") (rows_of (found_of matches.now))) }
{
    match value_in(matches, "builders") {
        Some(text) => match number(text, MAX_BUILDERS) {
            Some(count) => Some(count as usize),
            None => None,
        },
        None => Some(0),
    }
}

/// The suite that is named, or the usual one.
pub(crate) fn suite_in(alloc: Global, matches: &ArgMatches<'_>) -> Result<String, WordsFault>
    ensures text { IfOk result (λ s.
        string_bytes s ≡ suite_in_of (first_of (codes "suite") (rows_of (found_of matches.now)))) }
    ensures memory { IfErr result (λ e. e ≡ WordsFault.NoMemory) }
{
    match value_in(matches, "suite") {
        Some(text) => Ok(String::from_str(alloc, text)?),
        None => Ok(String::from_str(alloc, SUITE)?),
    }
}

/// What a desk is opened with as well as an archive.
#[derive(Drop)]
pub(crate) struct OpeningOptions {
    pub state: Option<String>,
    pub tracker: Option<String>,
    pub suite: String,
}

/// What the matches of `run` or `desk` have of these.
pub(crate) fn opening_in(
    alloc: Global,
    matches: &ArgMatches<'_>,
    present: Present,
) -> Result<OpeningOptions, WordsFault>
    ensures state { IfOk result (λ d. option_map string_bytes d.state
        ≡ path_if present.state (codes "state") (rows_of (found_of matches.now))) }
    ensures tracker { IfOk result (λ d. option_map string_bytes d.tracker
        ≡ path_if present.tracker (codes "tracker") (rows_of (found_of matches.now))) }
    ensures suite { IfOk result (λ d. string_bytes d.suite
        ≡ suite_in_of (first_of (codes "suite") (rows_of (found_of matches.now)))) }
    ensures memory { IfErr result (λ e. e ≡ WordsFault.NoMemory) }
{
    let state = file_in(alloc, matches, "state", present.state)?;
    let tracker = file_in(alloc, matches, "tracker", present.tracker)?;
    let suite = suite_in(alloc, matches)?;
    Ok(OpeningOptions {
        state,
        tracker,
        suite,
    })
}

// Who builds, and the journal of an earlier run.
#[derive(Drop)]
struct CrewOptions {
    builders: usize,
    outcomes: Option<String>,
    journal: Option<String>,
}

fn crew_in(
    alloc: Global,
    matches: &ArgMatches<'_>,
    present: Present,
) -> Result<CrewOptions, WordsFault>
    ensures builders { IfOk result (λ c.
        builders_in_of (first_of (codes "builders") (rows_of (found_of matches.now)))
        ≡ Some c.builders) }
    ensures outcomes { IfOk result (λ c. option_map string_bytes c.outcomes
        ≡ first_of (codes "outcomes") (rows_of (found_of matches.now))) }
    ensures journal { IfOk result (λ c. option_map string_bytes c.journal
        ≡ path_if present.journal (codes "journal") (rows_of (found_of matches.now))) }
    ensures memory { (count : ℕ)
        → builders_in_of (first_of (codes "builders") (rows_of (found_of matches.now))) ≡ Some count
        → IfErr result (λ e. e ≡ WordsFault.NoMemory) }
    ensures said { IfErr result (λ e. IsUsage e builders_said) }
{
    let Some(builders) = builders_in(matches) else {
        return Err(usage_fault(alloc, "error: --builders takes a number from 0 to 64\n"));
    };
    let outcomes = given_in(alloc, matches, "outcomes")?;
    let journal = file_in(alloc, matches, "journal", present.journal)?;
    Ok(CrewOptions {
        builders,
        outcomes,
        journal,
    })
}

/// The run that the matches of `run` ask for.
pub(crate) fn run_in(
    alloc: Global,
    words: &[String],
    matches: &ArgMatches<'_>,
    present: Present,
) -> Result<Request, WordsFault>
    ensures run { (w : RunWords) → HasRun present (rows_of (found_of matches.now)) w
        → MatchResult result (λ r. request_words r ≡ run_of w) (λ e. e ≡ WordsFault.NoMemory) }
    ensures said { (archs packages sources : List ℕ)
        → HasFiles (rows_of (found_of matches.now)) archs packages sources
        → IfErr result (λ e. IsUsage e builders_said) }
    ensures only { IfOk result (λ r. IsGivenBy present
        (Some (codes "run", rows_of (found_of matches.now))) (request_words r)) }
{
    let files = archive_in(alloc, words, matches)?;
    let opening = opening_in(alloc, matches, present)?;
    let crew = crew_in(alloc, matches, present)?;
    Ok(Request::Run(RunRequest {
        files,
        state: opening.state,
        tracker: opening.tracker,
        suite: opening.suite,
        builders: crew.builders,
        outcomes: crew.outcomes,
        journal: crew.journal,
    }))
}
