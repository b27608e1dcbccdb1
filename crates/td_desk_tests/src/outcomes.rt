//! Lines of outcomes: which texts are read, and which line a build uses. Expected answers are by
//! hand from `docs/FORMATS.md`.
use crate::spelling::{key, shown};
use std::alloc::Global;
use std::process::Abort;
use std::sync::Wait;
use std::test::Fail;
use td_book::Job;
use td_builder::{Builds, Outcomes};
use td_rows::{Line, Outcome, RebuildNumber};

// What reading a text answers.
fn read_as(alloc: Global, text: &str) -> Result<String, Fail> {
    match Outcomes::read(alloc, text) {
        Ok(outcomes) => {
            drop(outcomes);
            Ok(String::from_str(alloc, "read")?)
        }
        Err(fault) => shown(alloc, &fault),
    }
}

const TEXTS: [(&str, &str); 27] = [
    ("", "read"),
    ("foo/amd64 built", "read"),
    (
        "foo/amd64 built\nbar+/i386 attempted\nfoo/amd64 givenback\n",
        "read",
    ),
    ("foo/amd64 waits : libbar-dev (>= 2) | libqq-dev\n", "read"),
    ("foo/amd64 waits :  : \n", "read"),
    ("foo/amd64 waits\n", "read"),
    ("\n", "BadLine(1)"),
    ("foo/amd64 built\n\n", "BadLine(2)"),
    ("foo/amd64 built\n\nfoo/amd64 built\n", "BadLine(2)"),
    ("foo/amd64 built\nfoo/amd64 Built\n? \n", "BadLine(2)"),
    ("? \nfoo/amd64 Built\n", "BadLine(1)"),
    ("foo/amd64 built\r\n", "BadLine(1)"),
    ("foo/amd64 built \n", "BadLine(1)"),
    (" foo/amd64 built\n", "BadLine(1)"),
    ("foo/amd64  built\n", "BadLine(1)"),
    ("foo/amd64\n", "BadLine(1)"),
    ("foo built\n", "BadLine(1)"),
    ("Foo/amd64 built\n", "BadLine(1)"),
    ("foo/AMD64 built\n", "BadLine(1)"),
    ("foo/amd64 built : libbar-dev\n", "BadLine(1)"),
    ("foo/amd64 waits : \n", "BadLine(1)"),
    ("foo/amd64 waits : ", "BadLine(1)"),
    ("foo/amd64 waits :libbar-dev\n", "BadLine(1)"),
    ("foo/amd64 waits libbar-dev\n", "BadLine(1)"),
    ("foo/amd64 waits ;1 x : libbar-dev\n", "BadLine(1)"),
    ("foo/amd64 built=1\n", "BadLine(1)"),
    ("# foo/amd64 built\n", "BadLine(1)"),
];

#[test]
fn a_text_is_read_or_its_first_bad_line_told(rt: HostRuntime) -> Result<(), Fail> {
    for (text, answer) in &TEXTS {
        assert_eq!(rt; read_as(rt.alloc(), text)?.as_str(), *answer);
    }
    Ok(())
}

// A build of `source/arch`.
fn job(alloc: Global, name: &str) -> Result<Job, Fail> {
    let key = key(alloc, name)?;
    Ok(Job {
        key,
        version: String::new(alloc),
        number: RebuildNumber::zero(),
        extra: Line::empty(alloc),
    })
}

// An outcome, as its line would say it.
fn spelled(alloc: Global, outcome: &Outcome) -> Result<String, Fail> {
    let (word, text) = match outcome {
        Outcome::Built => ("built", ""),
        Outcome::Attempted => ("attempted", ""),
        Outcome::GivenBack => ("givenback", ""),
        Outcome::Waits(text) => ("waits : ", text.as_str()),
    };
    Ok(format!(in alloc; "{word}{text}")?)
}

// How a build of the key ends.
fn built_as<R: Wait>(
    rt: &R,
    alloc: Global,
    mut outcomes: &Outcomes,
    key: &str,
) -> Result<String, Fail> {
    let job = job(alloc, key)?;
    spelled(alloc, &outcomes.build(rt, job))
}

const LINES: &str = "\
foo/amd64 givenback
bar/i386 waits : libbar-dev (>= 2)
foo/amd64 attempted
foo/i386 attempted
foo/amd64 waits : x : y
foo/amd64 built
foo/amd64 waits
";

// A key, and how its next build ends by these lines.
const BUILDS: [(&str, &str); 11] = [
    ("foo/amd64", "givenback"),
    ("foo/amd64", "attempted"),
    ("bar/i386", "waits : libbar-dev (>= 2)"),
    ("bar/i386", "built"),
    ("foo/amd64", "waits : x : y"),
    ("zz/amd64", "built"),
    ("foo/amd64", "built"),
    ("foo/amd64", "waits : "),
    ("foo/amd64", "built"),
    ("foo/i386", "attempted"),
    ("bar/amd64", "built"),
];

fn are_used<R: Wait + Abort>(rt: &R, alloc: Global, outcomes: &Outcomes) -> Result<(), Fail> {
    for (key, outcome) in &BUILDS {
        assert_eq!(rt; built_as(rt, alloc, outcomes, key)?.as_str(), *outcome);
    }
    Ok(())
}

#[test]
fn each_build_of_a_key_uses_its_next_line(rt: HostRuntime) -> Result<(), Fail> {
    let outcomes = Outcomes::read(rt.alloc(), LINES)?;
    let used = are_used(&rt, rt.alloc(), &outcomes);
    drop(outcomes);
    used
}
