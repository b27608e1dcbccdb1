//! What the words of the command line ask for, or why they ask for nothing.
ghost use Rattle.std.specs.Prelude.{◌≡◌, ℕ, List, [], Some, None, map, option_map, codes};
ghost use Rattle.std.specs.Prelude.{string_bytes};
ghost use Rattle.std.specs.Prelude.{MatchResult, IfOk, IfErr};
ghost use Rattle.clap.specs.Matches.{found_of};
ghost use Rattle.clap.specs.Simple.{subcommand_rows_of};
ghost use Rattle.clap.specs.Walk.{first_of, rows_of};
ghost use Rattle.td_words.specs.CheckWords.{AskForCheck, CheckWords, HasCheck, check_said};
ghost use Rattle.td_words.specs.CommandLine.{AskFor, AskForRun, AskForTrack};
ghost use Rattle.td_words.specs.CommandLine.{AskForWaves, HasFiles, HasRun, HasTrack, HasTracker};
ghost use Rattle.td_words.specs.CommandLine.{HasWaves, RunWords, TrackWords, WavesWords};
ghost use Rattle.td_words.specs.CommandLine.{faults_of, is_explained, name_in, options_of};
ghost use Rattle.td_words.specs.CommandLine.{rows_in};
ghost use Rattle.td_words.specs.Folder.{folder_in, path_if, tracker_said};
ghost use Rattle.td_words.specs.Asked.{AreFilesIn, AreFilesOf, Asks, IsGivenBy, IsUsage, call_as};
ghost use Rattle.td_words.specs.Asked.{builders_said, check_of, desk_of, plan_of, report_of};
ghost use Rattle.td_words.specs.Asked.{request_words, run_of, track_said, waves_of};
ghost use Rattle.td_words.specs.DeskWords.{AskForDesk, DeskWords, HasDesk};
ghost use Rattle.td_words.specs.PlanWords.{AskForPlan, HasPlan, PlanWords, line_words_said};
ghost use Rattle.td_words.specs.ShownWords.{is_set as is_set_in};

use crate::bad_words::{fault_of, lacking};
use crate::check_words::check_in;
use crate::command::command;
use crate::desk_words::desk_in;
use crate::folder::path_in;
use crate::line_words::LineWords;
use crate::plan_words::plan_in;
use crate::present::Present;
use crate::run_words::run_in;
use crate::track_words::track_in;
use crate::waves_words::waves_in;
use clap::ArgMatches;
use std::alloc::{AllocError, Global};
use td_report::Shown;

/// The paths of an archive's files.
#[derive(Drop)]
pub struct ArchivePaths {
    pub archs: String,
    pub packages: String,
    pub sources: String,
}

/// A count of what these files hold.
#[derive(Drop)]
pub struct CheckRequest {
    pub files: ArchivePaths,
    /// Whether details follow the count.
    pub details: bool,
    /// The tracker that the details are about, too. It is given only with details.
    pub tracker: Option<String>,
}

/// A report over these files, by chunks of `chunk` rows if that is given.
#[derive(Drop)]
pub struct TrackRequest {
    pub files: ArchivePaths,
    pub tracker: String,
    /// Rows to use instead of those that the indices say.
    pub state: Option<String>,
    /// Which rows have a line.
    pub shown: Shown,
    pub chunk: Option<usize>,
}

/// How affected sources are listed.
#[derive(Clone, Copy, Drop)]
pub struct WavesForm {
    /// By steps, part by part; else by levels.
    pub steps: bool,
    /// Each with what it builds on.
    pub why: bool,
}

/// The affected sources over these files.
#[derive(Drop)]
pub struct WavesRequest {
    pub files: ArchivePaths,
    pub tracker: String,
    pub form: WavesForm,
}

/// A plan over these files.
#[derive(Drop)]
pub struct PlanRequest {
    pub files: ArchivePaths,
    pub tracker: String,
    /// Rows to use instead of those that the indices say.
    pub state: Option<String>,
    /// The message and the suite of its lines.
    pub words: LineWords,
}

/// A run over these files.
#[derive(Drop)]
pub struct RunRequest {
    pub files: ArchivePaths,
    /// Rows to use instead of those that the indices say.
    pub state: Option<String>,
    pub tracker: Option<String>,
    /// The suite that command lines may name.
    pub suite: String,
    /// How many builders are asked for.
    pub builders: usize,
    /// How the builds of a crew end. If there is no crew, the file is read and not looked at.
    pub outcomes: Option<String>,
    /// The journal that is gone on with.
    pub journal: Option<String>,
}

/// A desk over these files that lasts.
#[derive(Drop)]
pub struct DeskRequest {
    pub files: ArchivePaths,
    /// The file that keeps what was done. It need not be there yet.
    pub journal: String,
    /// Rows to use instead of those that the indices say.
    pub state: Option<String>,
    pub tracker: Option<String>,
    /// The suite that command lines may name.
    pub suite: String,
    /// Whether to wait while another desk has the file.
    pub waits: bool,
}

/// What the words ask for.
#[derive(Drop)]
pub enum Request {
    /// The steps of a simulation are on standard input.
    Simulate,
    /// The sources, binaries and rows of these files are counted.
    Check(CheckRequest),
    Track(TrackRequest),
    Waves(WavesRequest),
    Plan(PlanRequest),
    /// The script is on standard input.
    Run(RunRequest),
    /// The lines are on standard input.
    Desk(DeskRequest),
}

/// What the words ask for, and whether a refusal is to be explained.
#[derive(Drop)]
pub struct Call {
    pub request: Request,
    pub explained: bool,
}

/// Why the words ask for nothing that can be done.
#[derive(Debug, Drop)]
pub enum WordsFault {
    /// The text that says why. Calls for help and for the version are such faults, too.
    Usage(String),
    NoMemory,
}

impl From<AllocError> for WordsFault {
    ghost use Rattle.std.specs.Prelude.{◌≡◌};
    ghost use Rattle.td_words.specs.declared.request.WordsFault.TheVariants.{NoMemory};

    ghost from_gives = { λ _ fault. fault ≡ NoMemory };

    fn from(_error: AllocError) -> WordsFault {
        WordsFault::NoMemory
    }
}

/// The fault of a value that an option doesn't take, by the text that says so.
pub(crate) fn usage_fault(alloc: Global, text: &str) -> WordsFault
    ensures { IsUsage result text.now }
{
    match String::from_str(alloc, text) {
        Ok(text) => WordsFault::Usage(text),
        Err(_) => WordsFault::NoMemory,
    }
}

/// The value that an option was given.
pub(crate) fn value_in<'a>(matches: &ArgMatches<'a>, name: &str) -> Option<&'a str>
    ensures { option_map (λ s. s.now) result
        ≡ first_of name.now (rows_of (found_of matches.now)) }
{
    matches.get_str(name)
}

/// Whether an option without a value is given.
pub(crate) fn is_set(matches: &ArgMatches<'_>, name: &str) -> bool
    ensures { result ≡ is_set_in name.now (rows_of (found_of matches.now)) }
{
    match value_in(matches, name) {
        Some(text) => text == "true",
        None => false,
    }
}

/// The text of an option that is needed. If it isn't given, the words lack it: with a folder the
/// text `said` says so.
pub(crate) fn needed_in(
    alloc: Global,
    words: &[String],
    matches: &ArgMatches<'_>,
    name: &str,
    said: &str,
) -> Result<String, WordsFault>
    ensures text { (text : List ℕ) → first_of name.now (rows_of (found_of matches.now)) ≡ Some text
        → MatchResult result (λ s. string_bytes s ≡ text) (λ e. e ≡ WordsFault.NoMemory) }
    ensures only { IfOk result (λ s.
        first_of name.now (rows_of (found_of matches.now)) ≡ Some (string_bytes s)) }
{
    match value_in(matches, name) {
        Some(text) => Ok(String::from_str(alloc, text)?),
        None => Err(lacking(alloc, words, matches, said)),
    }
}

/// The files of an archive.
pub(crate) fn archive_in(
    alloc: Global,
    words: &[String],
    matches: &ArgMatches<'_>,
) -> Result<ArchivePaths, WordsFault>
    ensures files { (archs packages sources : List ℕ)
        → HasFiles (rows_of (found_of matches.now)) archs packages sources
        → MatchResult result (AreFilesOf archs packages sources) (λ e. e ≡ WordsFault.NoMemory) }
    ensures only { IfOk result (AreFilesIn (rows_of (found_of matches.now))) }
{
    Ok(ArchivePaths {
        archs: path_in(alloc, words, matches, "archs")?,
        packages: path_in(alloc, words, matches, "packages")?,
        sources: path_in(alloc, words, matches, "sources")?,
    })
}

/// The text of an option that may be left out.
pub(crate) fn given_in(
    alloc: Global,
    matches: &ArgMatches<'_>,
    name: &str,
) -> Result<Option<String>, WordsFault>
    ensures text { IfOk result (λ s.
        option_map string_bytes s ≡ first_of name.now (rows_of (found_of matches.now))) }
    ensures memory { IfErr result (λ e. e ≡ WordsFault.NoMemory) }
{
    match value_in(matches, name) {
        Some(text) => Ok(Some(String::from_str(alloc, text)?)),
        None => Ok(None),
    }
}

// A subcommand is required, and each is listed here: others come only if `clap` broke a promise.
fn request_in(
    alloc: Global,
    words: &[String],
    matches: &ArgMatches<'_>,
    present: Present,
) -> Result<Request, WordsFault>
    ensures simulate { name_in (subcommand_rows_of matches.now) ≡ Some (codes "simulate")
        → result ≡ Ok Request.Simulate }
    ensures check { (w : CheckWords)
        → name_in (subcommand_rows_of matches.now) ≡ Some (codes "check")
        → HasCheck (rows_in (subcommand_rows_of matches.now)) w
        → MatchResult result (λ r. request_words r ≡ check_of w) (λ e. e ≡ WordsFault.NoMemory) }
    ensures track { (w : TrackWords)
        → name_in (subcommand_rows_of matches.now) ≡ Some (codes "track")
        → HasTrack present (rows_in (subcommand_rows_of matches.now)) w
        → MatchResult result (λ r. request_words r ≡ report_of w)
        (λ e. e ≡ WordsFault.NoMemory) }
    ensures waves { (w : WavesWords)
        → name_in (subcommand_rows_of matches.now) ≡ Some (codes "waves")
        → HasWaves present (rows_in (subcommand_rows_of matches.now)) w
        → MatchResult result (λ r. request_words r ≡ waves_of w) (λ e. e ≡ WordsFault.NoMemory) }
    ensures plan { (w : PlanWords)
        → name_in (subcommand_rows_of matches.now) ≡ Some (codes "plan")
        → HasPlan present (rows_in (subcommand_rows_of matches.now)) w
        → MatchResult result (λ r. request_words r ≡ plan_of w)
        (λ e. e ≡ WordsFault.NoMemory) }
    ensures run { (w : RunWords)
        → name_in (subcommand_rows_of matches.now) ≡ Some (codes "run")
        → HasRun present (rows_in (subcommand_rows_of matches.now)) w
        → MatchResult result (λ r. request_words r ≡ run_of w)
        (λ e. e ≡ WordsFault.NoMemory) }
    ensures desk { (w : DeskWords)
        → name_in (subcommand_rows_of matches.now) ≡ Some (codes "desk")
        → HasDesk present (rows_in (subcommand_rows_of matches.now)) w
        → MatchResult result (λ r. request_words r ≡ desk_of w)
        (λ e. e ≡ WordsFault.NoMemory) }
    ensures check_said { (archs packages sources : List ℕ)
        → name_in (subcommand_rows_of matches.now) ≡ Some (codes "check")
        → HasFiles (rows_in (subcommand_rows_of matches.now)) archs packages sources
        → IfErr result (λ e. IsUsage e check_said) }
    ensures track_said { (archs packages sources tracker : List ℕ)
        → name_in (subcommand_rows_of matches.now) ≡ Some (codes "track")
        → HasTracker present (rows_in (subcommand_rows_of matches.now)) archs packages sources
        tracker
        → IfErr result (λ e.
        IsUsage e (track_said (rows_in (subcommand_rows_of matches.now)))) }
    ensures plan_said { (archs packages sources tracker message : List ℕ)
        → name_in (subcommand_rows_of matches.now) ≡ Some (codes "plan")
        → HasTracker present (rows_in (subcommand_rows_of matches.now)) archs packages sources
        tracker
        → first_of (codes "message") (rows_in (subcommand_rows_of matches.now)) ≡ Some message
        → IfErr result (λ e. IsUsage e (line_words_said message)) }
    ensures run_said { (archs packages sources : List ℕ)
        → name_in (subcommand_rows_of matches.now) ≡ Some (codes "run")
        → HasFiles (rows_in (subcommand_rows_of matches.now)) archs packages sources
        → IfErr result (λ e. IsUsage e builders_said) }
    ensures track_lacking { (archs packages sources folder : List ℕ)
        → name_in (subcommand_rows_of matches.now) ≡ Some (codes "track")
        → HasFiles (rows_in (subcommand_rows_of matches.now)) archs packages sources
        → path_if present.tracker (codes "tracker") (rows_in (subcommand_rows_of matches.now))
        ≡ None
        → folder_in (rows_in (subcommand_rows_of matches.now)) ≡ Some folder
        → IfErr result (λ e. IsUsage e tracker_said) }
    ensures waves_lacking { (archs packages sources folder : List ℕ)
        → name_in (subcommand_rows_of matches.now) ≡ Some (codes "waves")
        → HasFiles (rows_in (subcommand_rows_of matches.now)) archs packages sources
        → path_if present.tracker (codes "tracker") (rows_in (subcommand_rows_of matches.now))
        ≡ None
        → folder_in (rows_in (subcommand_rows_of matches.now)) ≡ Some folder
        → IfErr result (λ e. IsUsage e tracker_said) }
    ensures plan_lacking { (archs packages sources folder : List ℕ)
        → name_in (subcommand_rows_of matches.now) ≡ Some (codes "plan")
        → HasFiles (rows_in (subcommand_rows_of matches.now)) archs packages sources
        → path_if present.tracker (codes "tracker") (rows_in (subcommand_rows_of matches.now))
        ≡ None
        → folder_in (rows_in (subcommand_rows_of matches.now)) ≡ Some folder
        → IfErr result (λ e. IsUsage e tracker_said) }
    ensures only { IfOk result (λ r.
        IsGivenBy present (subcommand_rows_of matches.now) (request_words r)) }
{
    match matches.subcommand() {
        Some((name, _)) if name == "simulate" => Ok(Request::Simulate),
        Some((name, options)) if name == "check" => check_in(alloc, words, options),
        Some((name, options)) if name == "track" => track_in(alloc, words, options, present),
        Some((name, options)) if name == "waves" => waves_in(alloc, words, options, present),
        Some((name, options)) if name == "run" => run_in(alloc, words, options, present),
        Some((name, options)) if name == "plan" => plan_in(alloc, words, options, present),
        Some((name, options)) if name == "desk" => desk_in(alloc, words, options, present),
        _ => Err(WordsFault::Usage(String::new(alloc))),
    }
}

// Whether an explanation is asked for.
fn is_explained_in(matches: &ArgMatches<'_>) -> bool
    ensures { result ≡ is_explained (rows_in (subcommand_rows_of matches.now)) }
{
    let Some((_, options)) = matches.subcommand() else {
        return false;
    };
    is_set(options, "explain")
}

// A request, and whether its refusal is to be explained.
fn call_of(request: Result<Request, WordsFault>, explained: bool) -> Result<Call, WordsFault>
    ensures { result ≡ call_as request explained }
{
    match request {
        Ok(request) => Ok(Call { request, explained }),
        Err(fault) => Err(fault),
    }
}

// The folder that the subcommand is given.
fn folder_of(alloc: Global, matches: &ArgMatches<'_>) -> Result<Option<String>, WordsFault>
    ensures folder { IfOk result (λ f. option_map string_bytes f
        ≡ folder_in (rows_in (subcommand_rows_of matches.now))) }
    ensures memory { IfErr result (λ e. e ≡ WordsFault.NoMemory) }
{
    let Some((_, options)) = matches.subcommand() else {
        return Ok(None);
    };
    given_in(alloc, options, "folder")
}

/// The folder that the words give; `read_words` has to know which files are in it.
pub fn read_folder(alloc: Global, words: &[String]) -> Result<Option<String>, WordsFault>
    ensures folder { IfOk result (λ f. option_map string_bytes f
        ≡ folder_in (options_of (map string_bytes words.now))) }
    // Words without a fault have a folder or none, unless memory runs out.
    ensures memory { faults_of (map string_bytes words.now) ≡ []
        → IfErr result (λ e. e ≡ WordsFault.NoMemory) }
{
    match command(alloc, false)?.try_get_matches_from(words) {
        Ok(matches) => folder_of(alloc, &matches),
        Err(fault) => Err(fault_of(alloc, words, &fault)),
    }
}

/// Reads the program's words; the first is its own name. `present` says which files the folder has,
/// if the words give one.
pub fn read_words(alloc: Global, words: &[String], present: Present) -> Result<Call, WordsFault>
    // Words that ask for the simulation are answered by it, unless memory runs out.
    ensures simulate { AskFor (codes "simulate") (map string_bytes words.now)
        → MatchResult result (λ c. c.request ≡ Request.Simulate) (λ e. e ≡ WordsFault.NoMemory) }
    // Words that ask for a check of three files are answered by it, unless memory runs out.
    ensures check { (w : CheckWords) → AskForCheck (map string_bytes words.now) w
        → MatchResult result (λ c. request_words c.request ≡ check_of w)
        (λ e. e ≡ WordsFault.NoMemory) }
    // If only details are missing, for a tracker that is given, the fault says so.
    ensures check_said { (archs packages sources : List ℕ)
        → AskFor (codes "check") (map string_bytes words.now)
        → HasFiles (options_of (map string_bytes words.now)) archs packages sources
        → IfErr result (λ e. IsUsage e check_said) }
    // Words that ask for a report are answered by it, unless memory runs out.
    ensures track { (w : TrackWords) → AskForTrack present (map string_bytes words.now) w
        → MatchResult result (λ c. request_words c.request ≡ report_of w)
        (λ e. e ≡ WordsFault.NoMemory) }
    // If only the number of a chunk or the list of statuses is wrong, that is said.
    ensures track_said { (archs packages sources tracker : List ℕ)
        → AskFor (codes "track") (map string_bytes words.now)
        → HasTracker present (options_of (map string_bytes words.now)) archs packages sources
        tracker
        → IfErr result (λ e. IsUsage e (track_said (options_of (map string_bytes words.now)))) }
    // Words that ask for waves are answered by them, unless memory runs out.
    ensures waves { (w : WavesWords) → AskForWaves present (map string_bytes words.now) w
        → MatchResult result (λ c. request_words c.request ≡ waves_of w)
        (λ e. e ≡ WordsFault.NoMemory) }
    // Words that ask for a plan are answered by it, unless memory runs out.
    ensures plan { (w : PlanWords) → AskForPlan present (map string_bytes words.now) w
        → MatchResult result (λ c. request_words c.request ≡ plan_of w)
        (λ e. e ≡ WordsFault.NoMemory) }
    // If only the message or the suite is wrong, the fault says which.
    ensures plan_said { (archs packages sources tracker message : List ℕ)
        → AskFor (codes "plan") (map string_bytes words.now)
        → HasTracker present (options_of (map string_bytes words.now)) archs packages sources
        tracker
        → first_of (codes "message") (options_of (map string_bytes words.now)) ≡ Some message
        → IfErr result (λ e. IsUsage e (line_words_said message)) }
    // Words that ask for a run are answered by it, unless memory runs out.
    ensures run { (w : RunWords) → AskForRun present (map string_bytes words.now) w
        → MatchResult result (λ c. request_words c.request ≡ run_of w)
        (λ e. e ≡ WordsFault.NoMemory) }
    // If only the number of builders is wrong, the fault says so.
    ensures run_said { (archs packages sources : List ℕ)
        → AskFor (codes "run") (map string_bytes words.now)
        → HasFiles (options_of (map string_bytes words.now)) archs packages sources
        → IfErr result (λ e. IsUsage e builders_said) }
    // Words that ask for a desk are answered by it, unless memory runs out.
    ensures desk { (w : DeskWords) → AskForDesk present (map string_bytes words.now) w
        → MatchResult result (λ c. request_words c.request ≡ desk_of w)
        (λ e. e ≡ WordsFault.NoMemory) }
    // If only the tracker is missing, in a folder that is given, the fault says so.
    ensures track_lacking { (archs packages sources folder : List ℕ)
        → AskFor (codes "track") (map string_bytes words.now)
        → HasFiles (options_of (map string_bytes words.now)) archs packages sources
        → path_if present.tracker (codes "tracker") (options_of (map string_bytes words.now)) ≡ None
        → folder_in (options_of (map string_bytes words.now)) ≡ Some folder
        → IfErr result (λ e. IsUsage e tracker_said) }
    ensures waves_lacking { (archs packages sources folder : List ℕ)
        → AskFor (codes "waves") (map string_bytes words.now)
        → HasFiles (options_of (map string_bytes words.now)) archs packages sources
        → path_if present.tracker (codes "tracker") (options_of (map string_bytes words.now)) ≡ None
        → folder_in (options_of (map string_bytes words.now)) ≡ Some folder
        → IfErr result (λ e. IsUsage e tracker_said) }
    ensures plan_lacking { (archs packages sources folder : List ℕ)
        → AskFor (codes "plan") (map string_bytes words.now)
        → HasFiles (options_of (map string_bytes words.now)) archs packages sources
        → path_if present.tracker (codes "tracker") (options_of (map string_bytes words.now)) ≡ None
        → folder_in (options_of (map string_bytes words.now)) ≡ Some folder
        → IfErr result (λ e. IsUsage e tracker_said) }
    // Words that are answered are without fault, and name what they are answered by.
    ensures only { IfOk result (λ c.
        Asks present (map string_bytes words.now) (request_words c.request)) }
    // An explanation is due if and only if the option is given.
    ensures explained { IfOk result (λ c. c.explained
        ≡ is_explained (options_of (map string_bytes words.now))) }
{
    match command(alloc, false)?.try_get_matches_from(words) {
        Ok(matches) => call_of(
            request_in(alloc, words, &matches, present),
            is_explained_in(&matches),
        ),
        Err(error) => Err(fault_of(alloc, words, &error)),
    }
}
