//! How a case is planned, and compared with what is expected.
ghost use Rattle.std.specs.Prelude.{◌≡◌, Ok};

use crate::{left, numbers, parts, quotes, steps, waits};
use std::alloc::{AllocError, Global};
use std::fmt::Debug;
use std::process::Abort;
use std::thread::Threads;
use td_indices::Archive;
use td_plan::{Inputs, Plan, Steps, Words};
use td_query::{Marks, Tracker};
use td_relation::Archs;
use td_rows::{Rows, read_state};

pub const MESSAGE: &str = "Rebuild against libfoo2";

pub const AMD64: &str = "amd64 linux amd64\n";

pub const TWO_ARCHS: &str = "amd64 linux amd64\ni386 linux i386\n";

pub const THREE_ARCHS: &str = "amd64 linux amd64\ni386 linux i386\narm64 linux arm64\n";

const TRACKER: &str = r#"title = "libfoo2";
is_affected = .depends ~ "libold" | .depends ~ "libnew";
is_good = .depends ~ "libnew";
is_bad = .depends ~ "libold";
"#;

/// An archive, a state file, a message, and the plan that is expected.
#[derive(Clone, Copy)]
pub struct Case {
    pub name: &'static str,
    pub archs: &'static str,
    pub packages: &'static str,
    pub sources: &'static str,
    pub state: &'static str,
    pub message: &'static str,
    pub expected: &'static str,
}

// What was made; a fault ends the test.
fn made<T, E: Debug + Drop>(rt: &impl Abort, made: Result<T, E>) -> T
    ensures { made ≡ Ok result }
{
    match made {
        Ok(made) => made,
        Err(fault) => panic!(rt; "{fault:?}"),
    }
}

// The rows with which the archive opens, and over them those of a state file.
fn rows_of(rt: &impl Abort, alloc: Global, archive: &Archive<'_, '_>, state: &str) -> Rows {
    let mut rows = made(rt, archive.opening_rows());
    let others = made(rt, read_state(alloc, state));
    made(rt, rows.overlay(others));
    rows
}

// The plan's text.
fn planned(
    rt: &(impl Threads + Sync),
    alloc: Global,
    inputs: Inputs<'_, '_, '_>,
    title: &str,
    words: &Words<'_>,
) -> Result<String, AllocError> {
    let plan = Plan::of(rt, alloc, inputs)?;
    plan.text(rt, alloc, title, words)
}

fn is_planned(rt: &(impl Abort + Threads + Sync), alloc: Global, case: &Case) {
    let archs = made(rt, Archs::read(alloc, case.archs));
    let archive = made(
        rt,
        Archive::read(rt, alloc, case.packages, case.sources, &archs),
    );
    let tracker = made(rt, Tracker::read(alloc, TRACKER));
    let marks = made(rt, Marks::make(rt, alloc, &archive, &tracker, TRACKER));
    let rows = rows_of(rt, alloc, &archive, case.state);
    let inputs = Inputs {
        archive: &archive,
        marks: &marks,
        rows: &rows,
    };
    let words = made(rt, Words::new(case.message, "unstable"));
    let text = made(rt, planned(rt, alloc, inputs, tracker.title(), &words));
    assert_eq!(rt; text.as_str(), case.expected, "{}", case.name);
}

fn are_planned(rt: &(impl Abort + Threads + Sync), alloc: Global, cases: &[Case]) {
    for case in cases {
        is_planned(rt, alloc, case);
    }
}

// What is printed by steps, by levels with reasons, and by steps with reasons.
#[derive(Drop)]
struct StepTexts {
    steps: String,
    why: String,
    steps_why: String,
}

fn texts_of(
    rt: &(impl Threads + Sync),
    alloc: Global,
    archive: &Archive<'_, '_>,
    marks: &Marks,
) -> Result<StepTexts, AllocError> {
    let found = Steps::of(rt, alloc, archive, marks)?;
    Ok(StepTexts {
        steps: found.text(alloc, false)?,
        why: found.by_levels(rt, alloc)?,
        steps_why: found.text(alloc, true)?,
    })
}

fn is_stepped(rt: &(impl Abort + Threads + Sync), alloc: Global, case: &steps::Case) {
    let archs = made(rt, Archs::read(alloc, case.archs));
    let archive = made(
        rt,
        Archive::read(rt, alloc, case.packages, case.sources, &archs),
    );
    let tracker = made(rt, Tracker::read(alloc, TRACKER));
    let marks = made(rt, Marks::make(rt, alloc, &archive, &tracker, TRACKER));
    let texts = made(rt, texts_of(rt, alloc, &archive, &marks));
    assert_eq!(rt; texts.steps.as_str(), case.steps, "{}", case.name);
    assert_eq!(rt; texts.why.as_str(), case.why, "{}", case.name);
    assert_eq!(rt; texts.steps_why.as_str(), case.steps_why, "{}", case.name);
}

fn are_stepped(rt: &(impl Abort + Threads + Sync), alloc: Global, cases: &[steps::Case]) {
    for case in cases {
        is_stepped(rt, alloc, case);
    }
}

#[test]
fn affected_sources_go_by_steps_and_reasons(rt: HostRuntime) {
    are_stepped(&rt, rt.alloc(), &steps::CASES);
}

#[test]
fn lines_go_by_parts_and_steps(rt: HostRuntime) {
    are_planned(&rt, rt.alloc(), &parts::CASES);
}

#[test]
fn rows_of_a_source_get_one_number(rt: HostRuntime) {
    are_planned(&rt, rt.alloc(), &numbers::CASES);
}

#[test]
fn a_row_waits_for_one_package_of_each_source(rt: HostRuntime) {
    are_planned(&rt, rt.alloc(), &waits::CASES);
}

#[test]
fn a_row_that_is_left_has_a_reason(rt: HostRuntime) {
    are_planned(&rt, rt.alloc(), &left::CASES);
}

#[test]
fn a_message_stands_between_quotes(rt: HostRuntime) {
    are_planned(&rt, rt.alloc(), &quotes::CASES);
}

#[test]
fn some_messages_and_suites_have_no_line(rt: HostRuntime) {
    assert!(rt; Words::new("two\nlines", "sid").is_err());
    assert!(rt; Words::new("it's $5", "sid").is_err());
    assert!(rt; Words::new("a message", "Sid").is_err());
    assert!(rt; Words::new("a message", "9sid").is_err());
    assert!(rt; Words::new("a message", "").is_err());
    assert!(rt; Words::new("a message", "bookworm-backports2").is_ok());
}
