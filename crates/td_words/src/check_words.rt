//! The words that ask for a check.
ghost use Rattle.std.specs.Prelude.{◌≡◌, ℕ, true, List, Some, codes, option_map, string_bytes};
ghost use Rattle.std.specs.Prelude.{MatchResult, IfOk, IfErr};
ghost use Rattle.clap.specs.Matches.{found_of};
ghost use Rattle.clap.specs.Walk.{first_of, rows_of};
ghost use Rattle.td_words.specs.CheckWords.{CheckWords, HasCheck, check_said};
ghost use Rattle.td_words.specs.CheckWords.{details_fit as details_fit_in};
ghost use Rattle.td_words.specs.CommandLine.{HasFiles};
ghost use Rattle.td_words.specs.Asked.{IsGivenBy, IsUsage, check_of, request_words};
ghost use Rattle.td_words.specs.ShownWords.{is_set as is_set_in};
ghost use Rattle.td_words.specs.declared.present.Present.{Present};

use crate::request::{
    CheckRequest, Request, WordsFault, archive_in, given_in, is_set, usage_fault, value_in,
};
use clap::ArgMatches;
use std::alloc::Global;

// Whether no tracker is given, or details are asked for.
fn details_fit(matches: &ArgMatches<'_>) -> bool
    ensures { result ≡ details_fit_in (rows_of (found_of matches.now)) }
{
    match value_in(matches, "tracker") {
        Some(_) => is_set(matches, "details"),
        None => true,
    }
}

// Whether a check has details, and the tracker that they are about, too.
#[derive(Drop)]
struct DetailOptions {
    details: bool,
    tracker: Option<String>,
}

fn details_in(alloc: Global, matches: &ArgMatches<'_>) -> Result<DetailOptions, WordsFault>
    ensures details { IfOk result (λ d.
        is_set_in (codes "details") (rows_of (found_of matches.now)) ≡ d.details) }
    ensures tracker { IfOk result (λ d. option_map string_bytes d.tracker
        ≡ first_of (codes "tracker") (rows_of (found_of matches.now))) }
    ensures fits { IfOk result (λ _. details_fit_in (rows_of (found_of matches.now)) ≡ true) }
    ensures memory { details_fit_in (rows_of (found_of matches.now)) ≡ true
        → IfErr result (λ e. e ≡ WordsFault.NoMemory) }
    ensures said { IfErr result (λ e. IsUsage e check_said) }
{
    if !details_fit(matches) {
        return Err(usage_fault(alloc, "error: check takes --tracker only with --details\n"));
    }
    Ok(DetailOptions {
        details: is_set(matches, "details"),
        tracker: given_in(alloc, matches, "tracker")?,
    })
}

/// The check that the matches of `check` ask for.
pub(crate) fn check_in(
    alloc: Global,
    words: &[String],
    matches: &ArgMatches<'_>,
) -> Result<Request, WordsFault>
    ensures check { (w : CheckWords) → HasCheck (rows_of (found_of matches.now)) w
        → MatchResult result (λ r. request_words r ≡ check_of w) (λ e. e ≡ WordsFault.NoMemory) }
    ensures said { (archs packages sources : List ℕ)
        → HasFiles (rows_of (found_of matches.now)) archs packages sources
        → IfErr result (λ e. IsUsage e check_said) }
    ensures only { (present : Present) → IfOk result (λ r. IsGivenBy present
        (Some (codes "check", rows_of (found_of matches.now))) (request_words r)) }
{
    let files = archive_in(alloc, words, matches)?;
    let asked = details_in(alloc, matches)?;
    Ok(Request::Check(CheckRequest {
        files,
        details: asked.details,
        tracker: asked.tracker,
    }))
}
