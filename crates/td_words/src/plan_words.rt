//! The words that ask for a plan.
ghost use Rattle.std.specs.Prelude.{◌≡◌, ℕ, List, Some, None, codes, string_bytes, MatchResult};
ghost use Rattle.std.specs.Prelude.{IfErr, IfOk, OnOk};
ghost use Rattle.clap.specs.Matches.{found_of};
ghost use Rattle.clap.specs.Walk.{first_of, rows_of};
ghost use Rattle.td_words.specs.CommandLine.{HasFiles, HasTracker, suite_in as suite_in_of};
ghost use Rattle.td_words.specs.Folder.{folder_in, path_if, tracker_said};
ghost use Rattle.td_words.specs.PlanWords.{AreLineWords, HasPlan, PlanWords, line_words_said};
ghost use Rattle.td_words.specs.inner.Judged.{said_of as said_of_fault};
ghost use Rattle.td_words.specs.Asked.{IsGivenBy, IsUsage, plan_of, request_words};

use crate::folder::{file_in, tracker_in};
use crate::line_words::LineWords;
use crate::present::Present;
use crate::request::{PlanRequest, Request, WordsFault, archive_in, needed_in, usage_fault};
use crate::run_words::suite_in;
use clap::ArgMatches;
use std::alloc::Global;
use td_plan::{WordFault, Words};

// What is said of a message, or of a suite, that no line can have.
fn said_of(fault: WordFault) -> &'static str
    ensures { result.now ≡ said_of_fault fault }
{
    match fault {
        WordFault::BadMessage => {
            "error: --message takes one line that a single or double quote can hold\n"
        }
        WordFault::BadSuite => {
            "error: --suite takes small letters, digits and hyphens, a letter first\n"
        }
    }
}

// Whether lines can have a message and a suite.
fn judged(message: &str, suite: &str) -> Result<(), WordFault>
    ensures fine { OnOk result (AreLineWords message.now suite.now) }
    ensures said { IfErr result (λ fault. said_of_fault fault ≡ line_words_said message.now) }
    ensures refused { IfErr result (λ _. ¬ AreLineWords message.now suite.now) }
{
    match Words::new(message, suite) {
        Ok(_) => Ok(()),
        Err(fault) => Err(fault),
    }
}

// A message with a suite if lines can have both, or else what is said of the first that no line can
// have.
fn line_words(alloc: Global, message: String, suite: String) -> Result<LineWords, WordsFault>
    ensures message { IfOk result (λ words. words.message ≡ message) }
    ensures suite { IfOk result (λ words. words.suite ≡ suite) }
    ensures said { IfErr result (λ e. IsUsage e (line_words_said (string_bytes message))) }
    ensures refused { IfErr result (λ _.
        ¬ AreLineWords (string_bytes message) (string_bytes suite)) }
{
    match judged(message.as_str(), suite.as_str()) {
        Ok(()) => Ok(LineWords { message, suite }),
        Err(fault) => Err(usage_fault(alloc, said_of(fault))),
    }
}

/// What is said if a folder is given, and no message.
const NO_MESSAGE: &str =
    "error: the following required arguments were not provided:\n  --message <TEXT>\n\nFor more information, try '--help'.\n";

// The message and the suite that the matches of `plan` have.
fn words_in(
    alloc: Global,
    words: &[String],
    matches: &ArgMatches<'_>,
) -> Result<LineWords, WordsFault>
    ensures message { IfOk result (λ words.
        first_of (codes "message") (rows_of (found_of matches.now))
        ≡ Some (string_bytes words.message)) }
    ensures suite { IfOk result (λ words. string_bytes words.suite
        ≡ suite_in_of (first_of (codes "suite") (rows_of (found_of matches.now)))) }
    ensures memory { (message : List ℕ)
        → first_of (codes "message") (rows_of (found_of matches.now)) ≡ Some message
        → AreLineWords message
        (suite_in_of (first_of (codes "suite") (rows_of (found_of matches.now))))
        → IfErr result (λ e. e ≡ WordsFault.NoMemory) }
    ensures said { (message : List ℕ)
        → first_of (codes "message") (rows_of (found_of matches.now)) ≡ Some message
        → IfErr result (λ e. IsUsage e (line_words_said message)) }
{
    let message = needed_in(alloc, words, matches, "message", NO_MESSAGE)?;
    let suite = suite_in(alloc, matches)?;
    line_words(alloc, message, suite)
}

/// The plan that the matches of `plan` ask for.
pub(crate) fn plan_in(
    alloc: Global,
    words: &[String],
    matches: &ArgMatches<'_>,
    present: Present,
) -> Result<Request, WordsFault>
    ensures plan { (w : PlanWords) → HasPlan present (rows_of (found_of matches.now)) w
        → MatchResult result (λ r. request_words r ≡ plan_of w) (λ e. e ≡ WordsFault.NoMemory) }
    ensures said { (archs packages sources tracker message : List ℕ)
        → HasTracker present (rows_of (found_of matches.now)) archs packages sources tracker
        → first_of (codes "message") (rows_of (found_of matches.now)) ≡ Some message
        → IfErr result (λ e. IsUsage e (line_words_said message)) }
    ensures lacking { (archs packages sources folder : List ℕ)
        → HasFiles (rows_of (found_of matches.now)) archs packages sources
        → path_if present.tracker (codes "tracker") (rows_of (found_of matches.now)) ≡ None
        → folder_in (rows_of (found_of matches.now)) ≡ Some folder
        → IfErr result (λ e. IsUsage e tracker_said) }
    ensures only { IfOk result (λ r. IsGivenBy present
        (Some (codes "plan", rows_of (found_of matches.now))) (request_words r)) }
{
    let files = archive_in(alloc, words, matches)?;
    let tracker = tracker_in(alloc, words, matches, present)?;
    let state = file_in(alloc, matches, "state", present.state)?;
    let words = words_in(alloc, words, matches)?;
    Ok(Request::Plan(PlanRequest {
        files,
        tracker,
        state,
        words,
    }))
}
