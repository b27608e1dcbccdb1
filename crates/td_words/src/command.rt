//! The command line as it is built for `clap`: subcommands, options and their help.
ghost use Rattle.std.specs.Prelude.{◌≡◌, IfOk, false};
ghost use Rattle.clap.specs.Simple.{App, Shape, app_of, shape_of, with_rule, with_subcommand};
ghost use Rattle.clap.specs.declared.builder.command.Command.TheViews.{out-Command};
ghost use Rattle.clap.specs.Walk.{rule_of};
ghost use Rattle.td_words.specs.CommandLine.{bare_desk, check_shape, desk_by, desk_shape, flag_of};
ghost use Rattle.td_words.specs.CommandLine.{needed_option};
ghost use Rattle.td_words.specs.CommandLine.{option_of, plan_shape, run_shape, simulate_shape};
ghost use Rattle.td_words.specs.CommandLine.{track_shape, waves_shape, with_archive_rules};
ghost use Rattle.td_words.specs.CommandLine.{with_check_rules};
ghost use Rattle.td_words.specs.CommandLine.{with_crew_rules, with_desk_rules, with_explanation};
ghost use Rattle.td_words.specs.CommandLine.{with_form_rules, with_lasting_rules, with_plan_rules};
ghost use Rattle.td_words.specs.CommandLine.{with_report_rules, with_tracker_rules};

use crate::help::{CHECK, DESK, PLAN, RUN, SIMULATE, STATUSES, TRACK, WAVES};
use clap::{Arg, ArgAction, Command};
use std::alloc::{AllocError, Global};

const EXPLAIN: &str = "Say on a second line where a refused text is wrong, and what is wanted";

// An option without a value, given once or not at all.
fn flag<'a>(alloc: Global, name: &'static str, help: &'static str) -> Arg<'a>
    ensures rule { rule_of result ≡ flag_of name.now }
    ensures global { result.global ≡ false }
{
    Arg::new(alloc, name)
        .long(name)
        .help(help)
        .action(ArgAction::SetTrue)
}

// The command with one more option that has no value.
fn with_flag<'a>(
    alloc: Global,
    command: Command<'a>,
    name: &'static str,
    help: &'static str,
) -> Result<Command<'a>, AllocError>
    ensures app { IfOk result (λ c.
        app_of c ≡ with_rule (app_of command.entry) (flag_of name.now)) }
    ensures globals { (out-Command command.entry).has_globals ≡ false
        → IfOk result (λ c. (out-Command c).has_globals ≡ false) }
{
    command.arg(flag(alloc, name, help))
}

// The command with the option to explain a refusal.
fn explained<'a>(alloc: Global, command: Command<'a>) -> Result<Command<'a>, AllocError>
    ensures app { IfOk result (λ c. app_of c ≡ with_explanation (app_of command.entry)) }
    ensures globals { (out-Command command.entry).has_globals ≡ false
        → IfOk result (λ c. (out-Command c).has_globals ≡ false) }
{
    with_flag(alloc, command, "explain", EXPLAIN)
}

fn simulate<'a>(alloc: Global) -> Result<Command<'a>, AllocError>
    ensures shape { IfOk result (λ c. shape_of c ≡ simulate_shape) }
    ensures globals { IfOk result (λ c. (out-Command c).has_globals ≡ false) }
{
    let command = Command::new(alloc, "simulate")
        .about("Play steps of the desk and of its builders, as standard input lists them")
        .override_usage("transdesk simulate [OPTIONS] < FILE")
        .after_help(SIMULATE);
    explained(alloc, command)
}

const ARCHS: &str = "The table of architectures: a line `NAME OS CPU` for each";

const PACKAGES: &str = "The Packages index of those architectures";

const SOURCES: &str = "The Sources index";

const FOLDER: &str = "A folder that has the files whose options are left out, by those names";

const TRACKER: &str = "Which packages the transition affects, and which of them are good or bad";

// The command with the files of an archive, and with the options for details.
fn with_details<'a>(
    alloc: Global,
    command: Command<'a>,
    strict: bool,
) -> Result<Command<'a>, AllocError>
    ensures app { IfOk result (λ c. app_of c ≡ with_check_rules strict (app_of command.entry)) }
    ensures globals { (out-Command command.entry).has_globals ≡ false
        → IfOk result (λ c. (out-Command c).has_globals ≡ false) }
{
    let command = with_archive(alloc, command, strict)?;
    let details = "Print a line for each architecture, and warnings";
    let tracker = "With --details: a tracker, of which details are printed too";
    let command = with_flag(alloc, command, "details", details)?;
    with_option(alloc, command, "tracker", "FILE", tracker)
}

fn check<'a>(alloc: Global, strict: bool) -> Result<Command<'a>, AllocError>
    ensures shape { IfOk result (λ c. shape_of c ≡ check_shape strict) }
    ensures globals { IfOk result (λ c. (out-Command c).has_globals ≡ false) }
{
    let command = Command::new(alloc, "check")
        .about("Count what two package indices hold, and the rows that a desk would open with")
        .after_help(CHECK);
    let command = with_details(alloc, command, strict)?;
    explained(alloc, command)
}

const STATE: &str = "Rows to put in the place of those that the indices say";

// An option that may be left out, with one value.
fn option<'a>(alloc: Global, name: &'static str, value: &'static str, help: &'static str) -> Arg<'a>
    ensures rule { rule_of result ≡ option_of name.now }
    ensures global { result.global ≡ false }
{
    Arg::new(alloc, name)
        .long(name)
        .value_name(value)
        .help(help)
}

// An option with one value that has to be there, if the command line is read strictly.
fn needed<'a>(
    alloc: Global,
    strict: bool,
    name: &'static str,
    value: &'static str,
    help: &'static str,
) -> Arg<'a>
    ensures rule { rule_of result ≡ needed_option strict name.now }
    ensures global { result.global ≡ false }
{
    option(alloc, name, value, help).required(strict)
}

// The command with one more option that may be left out.
fn with_option<'a>(
    alloc: Global,
    command: Command<'a>,
    name: &'static str,
    value: &'static str,
    help: &'static str,
) -> Result<Command<'a>, AllocError>
    ensures app { IfOk result (λ c.
        app_of c ≡ with_rule (app_of command.entry) (option_of name.now)) }
    ensures globals { (out-Command command.entry).has_globals ≡ false
        → IfOk result (λ c. (out-Command c).has_globals ≡ false) }
{
    command.arg(option(alloc, name, value, help))
}

// The command with one more option that has to be there, if it is read strictly.
fn with_needed<'a>(
    alloc: Global,
    command: Command<'a>,
    strict: bool,
    name: &'static str,
    value: &'static str,
    help: &'static str,
) -> Result<Command<'a>, AllocError>
    ensures app { IfOk result (λ c.
        app_of c ≡ with_rule (app_of command.entry) (needed_option strict name.now)) }
    ensures globals { (out-Command command.entry).has_globals ≡ false
        → IfOk result (λ c. (out-Command c).has_globals ≡ false) }
{
    command.arg(needed(alloc, strict, name, value, help))
}

// The command with one more file.
fn with_file<'a>(
    alloc: Global,
    command: Command<'a>,
    strict: bool,
    name: &'static str,
    help: &'static str,
) -> Result<Command<'a>, AllocError>
    ensures app { IfOk result (λ c.
        app_of c ≡ with_rule (app_of command.entry) (needed_option strict name.now)) }
    ensures globals { (out-Command command.entry).has_globals ≡ false
        → IfOk result (λ c. (out-Command c).has_globals ≡ false) }
{
    with_needed(alloc, command, strict, name, "FILE", help)
}

// The command with the files of an archive, and a folder that may have them.
fn with_archive<'a>(
    alloc: Global,
    command: Command<'a>,
    strict: bool,
) -> Result<Command<'a>, AllocError>
    ensures app { IfOk result (λ c. app_of c ≡ with_archive_rules strict (app_of command.entry)) }
    ensures globals { (out-Command command.entry).has_globals ≡ false
        → IfOk result (λ c. (out-Command c).has_globals ≡ false) }
{
    let command = with_file(alloc, command, strict, "archs", ARCHS)?;
    let command = with_file(alloc, command, strict, "packages", PACKAGES)?;
    let command = with_file(alloc, command, strict, "sources", SOURCES)?;
    with_option(alloc, command, "folder", "DIR", FOLDER)
}

// The command with the files of an archive and a tracker.
fn with_tracker<'a>(
    alloc: Global,
    command: Command<'a>,
    strict: bool,
) -> Result<Command<'a>, AllocError>
    ensures app { IfOk result (λ c. app_of c ≡ with_tracker_rules strict (app_of command.entry)) }
    ensures globals { (out-Command command.entry).has_globals ≡ false
        → IfOk result (λ c. (out-Command c).has_globals ≡ false) }
{
    let command = with_archive(alloc, command, strict)?;
    with_file(alloc, command, strict, "tracker", TRACKER)
}

// The command with the files of a tracker, and how affected sources are listed.
fn with_form<'a>(
    alloc: Global,
    command: Command<'a>,
    strict: bool,
) -> Result<Command<'a>, AllocError>
    ensures app { IfOk result (λ c. app_of c ≡ with_form_rules strict (app_of command.entry)) }
    ensures globals { (out-Command command.entry).has_globals ≡ false
        → IfOk result (λ c. (out-Command c).has_globals ≡ false) }
{
    let command = with_tracker(alloc, command, strict)?;
    let steps = "List the sources by steps, and those that build on one another on one line";
    let why = "Print after each source what it builds on, and by which package";
    let command = with_flag(alloc, command, "steps", steps)?;
    with_flag(alloc, command, "why", why)
}

fn waves<'a>(alloc: Global, strict: bool) -> Result<Command<'a>, AllocError>
    ensures shape { IfOk result (λ c. shape_of c ≡ waves_shape strict) }
    ensures globals { IfOk result (λ c. (out-Command c).has_globals ≡ false) }
{
    let command = Command::new(alloc, "waves")
        .about("List the sources of a transition by the levels in which they can be rebuilt")
        .after_help(WAVES);
    let command = with_form(alloc, command, strict)?;
    explained(alloc, command)
}

// The command with the files and the options of a report.
fn with_report<'a>(
    alloc: Global,
    command: Command<'a>,
    strict: bool,
) -> Result<Command<'a>, AllocError>
    ensures app { IfOk result (λ c. app_of c ≡ with_report_rules strict (app_of command.entry)) }
    ensures globals { (out-Command command.entry).has_globals ≡ false
        → IfOk result (λ c. (out-Command c).has_globals ≡ false) }
{
    let command = with_tracker(alloc, command, strict)?;
    let only = "Print only rows of these statuses: good, bad, partial, unknown";
    let summary = "Print no rows, only the line of each level and the last one";
    let chunk = "Make the report by N rows at a time, in several threads: 1 to 1000000";
    let command = with_option(alloc, command, "state", "FILE", STATE)?;
    let command = with_option(alloc, command, "only", "STATUS,..", only)?;
    let command = with_flag(alloc, command, "summary", summary)?;
    with_option(alloc, command, "chunk", "N", chunk)
}

fn track<'a>(alloc: Global, strict: bool) -> Result<Command<'a>, AllocError>
    ensures shape { IfOk result (λ c. shape_of c ≡ track_shape strict) }
    ensures globals { IfOk result (λ c. (out-Command c).has_globals ≡ false) }
{
    let command = Command::new(alloc, "track")
        .about("Report how far a transition has come, row by row")
        .after_help(TRACK);
    let command = with_report(alloc, command, strict)?;
    explained(alloc, command)
}

// The command with the files of a tracker, and with the options of a plan.
fn with_plan<'a>(
    alloc: Global,
    command: Command<'a>,
    strict: bool,
) -> Result<Command<'a>, AllocError>
    ensures app { IfOk result (λ c. app_of c ≡ with_plan_rules strict (app_of command.entry)) }
    ensures globals { (out-Command command.entry).has_globals ≡ false
        → IfOk result (λ c. (out-Command c).has_globals ≡ false) }
{
    let command = with_tracker(alloc, command, strict)?;
    let text = "Why the rows are rebuilt: the text of each `nmu` line";
    let command = with_needed(alloc, command, strict, "message", "TEXT", text)?;
    let suite = "The suite that the lines name; unstable where none is given";
    let command = with_option(alloc, command, "state", "FILE", STATE)?;
    with_option(alloc, command, "suite", "NAME", suite)
}

fn plan<'a>(alloc: Global, strict: bool) -> Result<Command<'a>, AllocError>
    ensures shape { IfOk result (λ c. shape_of c ≡ plan_shape strict) }
    ensures globals { IfOk result (λ c. (out-Command c).has_globals ≡ false) }
{
    let command = Command::new(alloc, "plan")
        .about("Write the lines that rebuild a transition, step by step, for a script or a desk")
        .after_help(PLAN);
    let command = with_plan(alloc, command, strict)?;
    explained(alloc, command)
}

// The command with what a desk is opened with as well as an archive.
fn with_desk<'a>(alloc: Global, command: Command<'a>) -> Result<Command<'a>, AllocError>
    ensures app { IfOk result (λ c. app_of c ≡ with_desk_rules (app_of command.entry)) }
    ensures globals { (out-Command command.entry).has_globals ≡ false
        → IfOk result (λ c. (out-Command c).has_globals ≡ false) }
{
    let suite = "The suite that command lines may name; unstable where none is given";
    let command = with_option(alloc, command, "state", "FILE", STATE)?;
    let command = with_option(alloc, command, "tracker", "FILE", TRACKER)?;
    with_option(alloc, command, "suite", "NAME", suite)
}

// The command with who builds, and with the journal of an earlier run.
fn with_crew<'a>(alloc: Global, command: Command<'a>) -> Result<Command<'a>, AllocError>
    ensures app { IfOk result (λ c. app_of c ≡ with_crew_rules (app_of command.entry)) }
    ensures globals { (out-Command command.entry).has_globals ≡ false
        → IfOk result (λ c. (out-Command c).has_globals ≡ false) }
{
    let builders = "How many builders there are, from 0 to 64; none where none are given";
    let outcomes = "How the builds of each row end";
    let journal = "The journal of an earlier run, to go on with";
    let command = with_option(alloc, command, "builders", "N", builders)?;
    let command = with_option(alloc, command, "outcomes", "FILE", outcomes)?;
    with_option(alloc, command, "journal", "FILE", journal)
}

fn run<'a>(alloc: Global, strict: bool) -> Result<Command<'a>, AllocError>
    ensures shape { IfOk result (λ c. shape_of c ≡ run_shape strict) }
    ensures globals { IfOk result (λ c. (out-Command c).has_globals ≡ false) }
{
    let command = Command::new(alloc, "run")
        .about("Do what a script says over the rows of an archive, and answer each line")
        .override_usage(
            "transdesk run [OPTIONS] --archs <FILE> --packages <FILE> --sources <FILE> < SCRIPT",
        )
        .after_help(RUN);
    let command = with_archive(alloc, command, strict)?;
    let command = with_desk(alloc, command)?;
    let command = with_crew(alloc, command)?;
    explained(alloc, command)
}

// The command with a desk's own file, and with all that the desk is opened with.
fn with_lasting<'a>(
    alloc: Global,
    command: Command<'a>,
    strict: bool,
) -> Result<Command<'a>, AllocError>
    ensures app { IfOk result (λ c. app_of c ≡ with_lasting_rules strict (app_of command.entry)) }
    ensures globals { (out-Command command.entry).has_globals ≡ false
        → IfOk result (λ c. (out-Command c).has_globals ≡ false) }
{
    let journal = "The file that keeps what was done; it is made if it isn't there";
    let wait = "Wait while another desk has the file, instead of ending with status 5";
    let command = with_file(alloc, command, strict, "journal", journal)?;
    let command = with_archive(alloc, command, strict)?;
    let command = with_desk(alloc, command)?;
    with_flag(alloc, command, "wait", wait)
}

fn desk<'a>(alloc: Global, strict: bool) -> Result<Command<'a>, AllocError>
    ensures shape { IfOk result (λ c. shape_of c ≡ desk_shape strict) }
    ensures globals { IfOk result (λ c. (out-Command c).has_globals ≡ false) }
{
    let command = Command::new(alloc, "desk")
        .about("Answer each line at once over the rows of an archive, and keep what is done")
        .after_help(DESK);
    let command = with_lasting(alloc, command, strict)?;
    explained(alloc, command)
}

// The program without its subcommands.
fn program<'a>(alloc: Global) -> Command<'a>
    ensures { app_of result ≡ bare_desk }
{
    Command::new(alloc, "transdesk")
        .version("0.1.0")
        .about("A desk for the rebuilds of a Debian transition, whose undo is proved")
        .after_help(STATUSES)
        .subcommand_required(true)
}

// The program with one more subcommand.
fn with_part<'a>(
    whole: Result<Command<'a>, AllocError>,
    part: Result<Command<'a>, AllocError>,
) -> Result<Command<'a>, AllocError>
    ensures { IfOk result (λ c. (a : App) (s : Shape)
        → IfOk whole.entry (λ w. app_of w ≡ a) → IfOk part.entry (λ p. shape_of p ≡ s)
        → IfOk part.entry (λ p. (out-Command p).has_globals ≡ false)
        → app_of c ≡ with_subcommand a s) }
{
    let whole = whole?;
    whole.subcommand(part?)
}

/// The program's command line, as `clap` has it. If it is strict, `clap` wants all that is needed
/// to be among the words; else a folder may give it.
pub(crate) fn command<'a>(alloc: Global, strict: bool) -> Result<Command<'a>, AllocError>
    ensures { IfOk result (λ c. app_of c ≡ desk_by strict) }
{
    let whole = with_part(Ok(program(alloc)), simulate(alloc));
    let whole = with_part(whole, check(alloc, strict));
    let whole = with_part(whole, track(alloc, strict));
    let whole = with_part(whole, waves(alloc, strict));
    let whole = with_part(whole, plan(alloc, strict));
    let whole = with_part(whole, run(alloc, strict));
    with_part(whole, desk(alloc, strict))
}
