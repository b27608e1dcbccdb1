//! Builders at a desk: what their work answers, and that they build at the same time. Expected
//! answers are by hand from the tables of `docs/FORMATS.md`.
use crate::shop::{Played, Trial, all_leave, played};
use crate::tries::Tries;
use std::alloc::{AllocError, Global};
use std::test::Fail;

const WORKS: [Played<'static>; 4] = [
    (
        "foo/amd64 Installed 0 0\n",
        "foo/amd64 waits : libbar-dev\n",
        "nmu foo . amd64 => entry 1\nshut => true\nwork => Some(Ok(1))\n",
        "closed\nreplayed\ntransdesk journal 2\n\
         1 + nmu foo/amd64\n\
         2 + claim=1 foo/amd64\n\
         3 + waits=1 foo/amd64 : libbar-dev\n\
         foo/amd64 Dep-Wait 0 1 : libbar-dev\n",
    ),
    (
        "foo/amd64 Needs-Build 0 0\n",
        "foo/amd64 givenback\nfoo/amd64 built\n",
        "shut => true\nwork => Some(Ok(2))\nwork => None\n",
        "closed\nreplayed\ntransdesk journal 2\n\
         1 + claim=1 foo/amd64\n\
         2 + givenback=1 foo/amd64\n\
         3 + claim=1 foo/amd64\n\
         4 + built=1 foo/amd64\n\
         foo/amd64 Built 0 0\n",
    ),
    (
        "foo/amd64 Needs-Build 0 0\nfoo/i386 Needs-Build 7 0\n",
        "foo/i386 attempted\nfoo/amd64 givenback\n",
        "ready => Ok([1, 0])\nshut => true\nwork => Some(Ok(3))\nready => Ok([])\n",
        "closed\nreplayed\ntransdesk journal 2\n\
         1 + claim=1 foo/i386\n\
         2 + attempted=1 foo/i386\n\
         3 + claim=1 foo/amd64\n\
         4 + givenback=1 foo/amd64\n\
         5 + claim=1 foo/amd64\n\
         6 + built=1 foo/amd64\n\
         foo/amd64 Built 0 0\n\
         foo/i386 Build-Attempted 7 0\n",
    ),
    (
        "",
        "",
        "shut => true\nwork => Some(Ok(0))\n",
        "closed\nreplayed\ntransdesk journal 2\n",
    ),
];

#[test]
fn a_builder_works_until_nothing_is_ready(rt: HostRuntime) -> Result<(), Fail> {
    all_leave(&rt, rt.alloc(), &WORKS)
}

// A builder in turn with a clerk, who makes a call each time that the builder has tried what was
// ready. After the calls comes what was answered meanwhile: each job with its row, and each call's
// entry. After `refuse` each finish is refused once the desk took it.
const TURNS: [Played<'static>; 5] = [
    (
        "bar/amd64 Uploaded 0 1\nfoo/amd64 Needs-Build 0 0\n",
        "foo/amd64 waits : libbar-dev (>= 2.0-1+b1)\nfoo/amd64 waits : libbaz-dev (>= 3)\n",
        "turns sweep; arrive bar/amd64; sweep; sweep => \
         foo/amd64 1.2-3 0 () of foo/amd64 Building=1 0 0|\
         no entry|entry 3|entry 4|\
         foo/amd64 1.2-3 0 () of foo/amd64 Building=1 0 0|\
         no entry|Some(Ok(2))\n",
        "closed\nreplayed\ntransdesk journal 2\n\
         1 + claim=1 foo/amd64\n\
         2 + waits=1 foo/amd64 : libbar-dev (>= 2.0-1+b1)\n\
         3 + arrive bar/amd64\n\
         4 + sweep foo/amd64\n\
         5 + claim=1 foo/amd64\n\
         6 + waits=1 foo/amd64 : libbaz-dev (>= 3)\n\
         bar/amd64 Installed 0 1\n\
         foo/amd64 Dep-Wait 0 0 : libbaz-dev (>= 3)\n",
    ),
    (
        "foo/amd64 Needs-Build 3 0\n",
        "foo/amd64 attempted\nfoo/amd64 built\n",
        "turns dw foo . amd64 . -m libbar-dev; undo 3; gb foo . amd64; undo 4 => \
         foo/amd64 1.2-3 0 () of foo/amd64 Building=1 3 0|\
         entry 3|entry 3|entry 4|\
         foo/amd64 1.2-3 0 () of foo/amd64 Building=1 3 0|\
         no entry|Some(Ok(2))\n",
        "closed\nreplayed\ntransdesk journal 2\n\
         1 + claim=1 foo/amd64\n\
         2 + attempted=1 foo/amd64\n\
         3 - dw foo/amd64 : libbar-dev\n\
         4 + gb foo/amd64\n\
         5 + claim=1 foo/amd64\n\
         6 + built=1 foo/amd64\n\
         foo/amd64 Built 3 0\n",
    ),
    (
        "foo/amd64 Installed 0 0\n",
        "",
        "turns nmu foo . amd64 . --extra-depends 'libbar-dev (>= 2.0-1)'; arrive foo/amd64; \
         nmu 4 foo . amd64; arrive foo/amd64; \
         nmu foo . amd64 . --extra-depends libqq-dev => \
         entry 1|\
         foo/amd64 1.2-3+b1 1 (libbar-dev (>= 2.0-1)) of \
         foo/amd64 Building=1 0 1 ;21 libbar-dev (>= 2.0-1)|\
         entry 4|entry 5|\
         foo/amd64 1.2-3+b4 4 () of foo/amd64 Building=1 0 4|\
         entry 8|entry 9|\
         foo/amd64 1.2-3+b5 5 (libqq-dev) of foo/amd64 Building=1 0 5 ;9 libqq-dev|\
         Some(Ok(3))\n",
        "closed\nreplayed\ntransdesk journal 2\n\
         1 + nmu foo/amd64 ;21 libbar-dev (>= 2.0-1)\n\
         2 + claim=1 foo/amd64\n\
         3 + built=1 foo/amd64\n\
         4 + arrive foo/amd64\n\
         5 + nmu=4 foo/amd64\n\
         6 + claim=1 foo/amd64\n\
         7 + built=1 foo/amd64\n\
         8 + arrive foo/amd64\n\
         9 + nmu foo/amd64 ;9 libqq-dev\n\
         10 + claim=1 foo/amd64\n\
         11 + built=1 foo/amd64\n\
         foo/amd64 Built 0 5 ;9 libqq-dev\n",
    ),
    (
        "foo/amd64 Needs-Build 0 0\nfoo/i386 Needs-Build 7 0\n",
        "foo/amd64 waits : libbar-dev\n\
         foo/i386 attempted\n\
         foo/amd64 attempted\n\
         foo/amd64 built\n\
         foo/i386 waits : libbar-dev (>= 2)\n",
        "turns sweep; gb foo . ANY; sweep => \
         foo/i386 1.2-3 0 () of foo/i386 Building=1 7 0|\
         foo/amd64 1.2-3 0 () of foo/amd64 Building=1 0 0|\
         entry 5|\
         foo/amd64 1.2-3 0 () of foo/amd64 Building=1 0 0|\
         entry 8|\
         foo/i386 1.2-3 0 () of foo/i386 Building=1 7 0|\
         foo/amd64 1.2-3 0 () of foo/amd64 Building=1 0 0|\
         entry 13|\
         foo/i386 1.2-3 0 () of foo/i386 Building=1 7 0|\
         Some(Ok(6))\n",
        "closed\nreplayed\ntransdesk journal 2\n\
         1 + claim=1 foo/i386\n\
         2 + attempted=1 foo/i386\n\
         3 + claim=1 foo/amd64\n\
         4 + waits=1 foo/amd64 : libbar-dev\n\
         5 + sweep foo/amd64\n\
         6 + claim=1 foo/amd64\n\
         7 + attempted=1 foo/amd64\n\
         8 + gb foo/amd64 foo/i386\n\
         9 + claim=1 foo/i386\n\
         10 + waits=1 foo/i386 : libbar-dev (>= 2)\n\
         11 + claim=1 foo/amd64\n\
         12 + built=1 foo/amd64\n\
         13 + sweep foo/i386\n\
         14 + claim=1 foo/i386\n\
         15 + built=1 foo/i386\n\
         foo/amd64 Built 0 0\n\
         foo/i386 Built 7 0\n",
    ),
    (
        "foo/amd64 Needs-Build 0 0\n",
        "foo/amd64 attempted\n",
        "turns refuse; gb foo . amd64; bp 5 foo . amd64 => \
         foo/amd64 1.2-3 0 () of foo/amd64 Building=1 0 0|\
         entry 3|\
         foo/amd64 1.2-3 0 () of foo/amd64 Building=1 0 0|\
         Some(Err(Mismatch))\n\
         gb foo . amd64 => entry 6\n\
         shut => true\n\
         work => Some(Ok(1))\n",
        "closed\nreplayed\ntransdesk journal 2\n\
         1 + claim=1 foo/amd64\n\
         2 + attempted=1 foo/amd64\n\
         3 + gb foo/amd64\n\
         4 + claim=1 foo/amd64\n\
         5 + built=1 foo/amd64\n\
         6 + gb foo/amd64\n\
         7 + claim=1 foo/amd64\n\
         8 + built=1 foo/amd64\n\
         foo/amd64 Built 0 0\n",
    ),
];

#[test]
fn each_build_has_its_own_job_and_its_own_end(rt: HostRuntime) -> Result<(), Fail> {
    all_leave(&rt, rt.alloc(), &TURNS)
}

// A line, a thousand times over.
fn thousand(alloc: Global, line: &str) -> Result<String, AllocError> {
    let mut text = String::new(alloc);
    for _ in 0..1000 {
        text.push_str(line)?;
    }
    Ok(text)
}

// What is left of a thousand builds that are given back, and of the last, which succeeds.
fn thousand_builds(alloc: Global) -> Result<String, Fail> {
    let mut text = String::from_str(alloc, "closed\nreplayed\ntransdesk journal 2\n")?;
    for build in 0..1000u64 {
        write!(
            &mut text,
            "{} + claim=1 foo/amd64\n{} + givenback=1 foo/amd64\n",
            build * 2 + 1,
            build * 2 + 2
        )?;
    }
    text.push_str("2001 + claim=1 foo/amd64\n2002 + built=1 foo/amd64\n")?;
    text.push_str("foo/amd64 Built 0 0\n")?;
    Ok(text)
}

#[test]
fn a_thousand_lines_are_used_one_by_one(rt: HostRuntime) -> Result<(), Fail> {
    let outcomes = thousand(rt.alloc(), "foo/amd64 givenback\n")?;
    let expected = thousand_builds(rt.alloc())?;
    let played = (
        "foo/amd64 Needs-Build 0 0\n",
        outcomes.as_str(),
        "shut => true\nwork => Some(Ok(1001))\n",
        expected.as_str(),
    );
    all_leave(&rt, rt.alloc(), &[played])
}

// Were one build to end before the other begins, its row would be Build-Attempted.
#[test]
fn two_builds_overlap(rt: HostRuntime) -> Result<(), Fail> {
    let trial = Trial {
        builders: 2,
        opening: "foo/amd64 Needs-Build 0 0\nfoo/i386 Needs-Build 0 0\n",
        outcomes: "",
        script: "shut => true\ntogether => Some((Ok(1), Ok(1)))\n",
        tries: Tries::One,
    };
    let found = played(&rt, rt.alloc(), &trial)?;
    let left = found.as_str();
    assert!(rt; left.starts_with("closed\nreplayed\n"), "{}", left);
    let rows = "\nfoo/amd64 Built 0 0\nfoo/i386 Built 0 0\n";
    assert!(rt; left.ends_with(rows), "{}", left);
    Ok(())
}
