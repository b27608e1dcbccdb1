//! What no clause can say: that each subcommand answers if there is memory, over files of which
//! clauses know all. The archive, the words and the answers are this project's worked examples.
use crate::checks::{is_told, made};
use crate::path_texts::PathTexts;
use crate::waves::{ARCHS, LEVELS, PACKAGES, REPORT, SOURCES, TRACKER};
use std::alloc::{AllocError, Global};
use std::process::Abort;
use std::sync::Wait;
use std::thread::Threads;
use td_tool::{simulate, tool};

// The first words, over the archive.
const ARCHIVE: [&str; 6] = [
    "--archs",
    ARCHS,
    "--packages",
    PACKAGES,
    "--sources",
    SOURCES,
];

// Appends the words of the others.
fn put_words(words: &mut Vec<String>, others: &[&str]) -> Result<(), AllocError> {
    let alloc = *words.allocator();
    for other in others {
        words.push(String::from_str(alloc, other)?)?;
    }
    Ok(())
}

// The words of a subcommand; the simulation has no files.
fn words(alloc: Global, subcommand: &str, others: &[&str]) -> Result<Vec<String>, AllocError> {
    let mut words = Vec::new(alloc);
    put_words(&mut words, &["transdesk", subcommand])?;
    if subcommand != "simulate" {
        put_words(&mut words, &ARCHIVE)?;
    }
    put_words(&mut words, others)?;
    Ok(words)
}

// The status, and after it standard output and standard error.
fn spelled(alloc: Global, status: u8, output: &[u8], faults: &[u8]) -> Result<String, AllocError> {
    let output = String::from_utf8_lossy(alloc, output)?;
    let faults = String::from_utf8_lossy(alloc, faults)?;
    format!(in alloc; "{status} {output}{faults}")
}

// What comes of these words, with this standard input.
fn told<R: Threads + Wait + Sync>(
    rt: &R,
    alloc: Global,
    words: Vec<String>,
    mut input: &[u8],
) -> Result<String, AllocError> {
    let mut output = Vec::new(alloc);
    let mut faults = Vec::new(alloc);
    let status = tool(
        rt,
        alloc,
        Ok(words),
        &PathTexts,
        &mut input,
        &mut output,
        &mut faults,
    );
    spelled(alloc, status, output.as_slice(), faults.as_slice())
}

// A subcommand, its words after the archive, the standard input, the status and what is written.
type Case = (
    &'static str,
    &'static [&'static str],
    &'static str,
    u8,
    &'static str,
);

// The example first-undo.
const STEPS: &str = "\
bar/i386 Failed 0 2
foo/amd64 Built 0 1
steps
gb bar/i386
bp=7 bar/i386 foo/amd64
bp=9 foo/amd64
undo 2
undo 3
undo 2
undo 2
undo 1
gb foo/i386
";

const ANSWERS: &str = "\
entry 1
entry 2
entry 3
refused: Blocked 3
undone 3
undone 2
refused: AlreadyUndone
undone 1
refused: NoSuchRow foo/i386
rows
bar/i386 Failed 0 2
foo/amd64 Built 0 1
";

// The rows of the example waves, its report with these, its script, and what that answers.
const STATE: &str = "\
qb/amd64 Uploaded 7 1
rc/amd64 Dep-Wait -3 1 : libx
te/amd64 Failed 0 0
";

const CHANGED: &str = "\
tracker libfoo2
level 1 rows 1 installed 0
qb/amd64 partial Uploaded 7 1
level 2 rows 1 installed 1
pa/amd64 good Installed 0 0
cyclic rows 2 installed 1
rc/amd64 bad Dep-Wait -3 1
sd/amd64 bad Installed 0 0
affected 4 good 1 bad 2 partial 1 unknown 0
";

const SCRIPT: &str = "arrive qb amd64\nreport\nnmu pa . amd64\nundo 2\n";

const ANSWERED: &str = "\
entry 1 takes qb/amd64
tracker libfoo2
level 1 rows 1 installed 1
qb/amd64 partial Installed 7 1
level 2 rows 1 installed 1
pa/amd64 good Installed 0 0
cyclic rows 2 installed 1
rc/amd64 bad Dep-Wait -3 1
sd/amd64 bad Installed 0 0
affected 4 good 1 bad 2 partial 1 unknown 0
entry 2 takes pa/amd64
undone 2
";

const BUILT: &str = "\
entry 1 takes qb/amd64 te/amd64
rows
pa/amd64 Installed 0 0
qb/amd64 Build-Attempted 0 1
rc/amd64 Installed 0 0
sd/amd64 Installed 0 0
te/amd64 Built 0 1
";

const CASES: [Case; 10] = [
    ("simulate", &[], STEPS, 1, ANSWERS),
    ("check", &[], "", 0, "sources 5 binaries 6 rows 5\n"),
    ("track", &["--tracker", TRACKER], "", 0, REPORT),
    (
        "track",
        &["--tracker", TRACKER, "--chunk", "2"],
        "",
        0,
        REPORT,
    ),
    (
        "track",
        &["--tracker", TRACKER, "--state", STATE],
        "",
        0,
        CHANGED,
    ),
    ("waves", &["--tracker", TRACKER], "", 0, LEVELS),
    (
        "run",
        &["--tracker", TRACKER, "--state", STATE],
        SCRIPT,
        0,
        ANSWERED,
    ),
    (
        "run",
        &["--builders", "2", "--outcomes", "qb/amd64 attempted\n"],
        "nmu qb te . amd64\n",
        0,
        BUILT,
    ),
    (
        "track",
        &["--tracker", TRACKER, "--state", "zz/amd64 Failed 0 0\n"],
        "",
        2,
        "transdesk: state: NoSuchRow\n",
    ),
    (
        "waves",
        &["--tracker", "is_affected"],
        "",
        2,
        "transdesk: tracker: Syntax\n",
    ),
];

// Whether the words of a case are answered so.
fn is_answered(rt: &(impl Threads + Wait + Abort + Sync), alloc: Global, case: &Case) {
    let (subcommand, others, input, status, text) = *case;
    let words = made(rt, words(alloc, subcommand, others));
    let told = told(rt, alloc, words, input.as_bytes());
    let expected = made(rt, format!(in alloc; "{status} {text}"));
    is_told(rt, told, expected.as_str(), subcommand);
    drop(expected);
}

#[test]
fn each_subcommand_answers_over_files_in_memory(rt: HostRuntime) {
    for case in &CASES {
        is_answered(&rt, rt.alloc(), case);
    }
}

// What comes of a simulation by itself.
fn simulated(alloc: Global, mut input: &[u8]) -> Result<String, AllocError> {
    let mut output = Vec::new(alloc);
    let mut faults = Vec::new(alloc);
    let status = simulate(alloc, &mut input, &mut output, &mut faults);
    spelled(alloc, status, output.as_slice(), faults.as_slice())
}

const SIMULATIONS: [(&str, &str, &str); 3] = [
    (STEPS, "1 ", ANSWERS),
    ("foo/amd64 Built 0 1\n", "0 ", "rows\nfoo/amd64 Built 0 1\n"),
    ("steps\nfinish 1\n", "2 ", "transdesk: input: BadLine\n"),
];

#[test]
fn a_simulation_by_itself_answers_too(rt: HostRuntime) {
    for (input, status, text) in &SIMULATIONS {
        let told = simulated(rt.alloc(), input.as_bytes());
        let expected = made(&rt, format!(in rt.alloc(); "{status}{text}"));
        is_told(&rt, told, expected.as_str(), input);
        drop(expected);
    }
}
