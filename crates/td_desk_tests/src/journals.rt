//! Desks over journals that are read again. Expected answers are by hand from `docs/FORMATS.md`.
use crate::sample::{INSTALLED, LEFT, NO_JOURNALS};
use crate::shop::{Trial, played_on};
use crate::tries::Tries;
use std::alloc::Global;
use std::process::Abort;
use std::sync::Wait;
use std::test::Fail;
use std::thread::Threads;

const GIVEN_BACK: &str = "closed
replayed
transdesk journal 2
1 + nmu foo/amd64
2 + claim=1 foo/amd64
3 + givenback=1 foo/amd64
bar/amd64 Installed 0 0
bar/i386 Installed 0 0
foo/amd64 Needs-Build 0 1
foo/i386 Installed 0 1
";

const AFTER_LEFT: &str = "\
installed 0 => None
receipts => [1024:]
entry 3 => 3 + givenback=1 foo/amd64
entry 4 => none
row foo/amd64 => foo/amd64 Needs-Build 0 1
ready => Ok([2])
undo 1 => Err(Blocked(3))
undo 2 => Err(NotACommand)
receipts => [1024:]
bp 5 foo . i386 => entry 4
shut => true
work => Some(Ok(1))
receipts => [1024: made 4 foo/i386;]
";

const UNDONE: &str = "transdesk journal 2\n1 - bp=5 foo/amd64\n2 + bp=7 bar/amd64\n";

const AFTER_UNDONE: &str = "\
undo 1 => Err(AlreadyUndone)
undo 2 => Ok(())
undo 2 => Err(AlreadyUndone)
nmu foo . amd64 => entry 3
undo 3 => Ok(())
receipts => [1024: undid 2; made 3 foo/amd64; undid 3;]
";

// A journal, the calls at a desk over it, and what the closed desk leaves.
const JOURNALS: [(&str, &str, &str); 4] = [
    (LEFT, "", GIVEN_BACK),
    (
        LEFT,
        AFTER_LEFT,
        "closed\nreplayed\ntransdesk journal 2\n\
         1 + nmu foo/amd64\n\
         2 + claim=1 foo/amd64\n\
         3 + givenback=1 foo/amd64\n\
         4 + bp=5 foo/i386\n\
         5 + claim=1 foo/amd64\n\
         6 + built=1 foo/amd64\n\
         bar/amd64 Installed 0 0\n\
         bar/i386 Installed 0 0\n\
         foo/amd64 Built 0 1\n\
         foo/i386 Installed 5 1\n",
    ),
    (
        UNDONE,
        AFTER_UNDONE,
        "closed\nreplayed\ntransdesk journal 2\n\
         1 - bp=5 foo/amd64\n\
         2 - bp=7 bar/amd64\n\
         3 - nmu foo/amd64\n\
         bar/amd64 Installed 0 0\n\
         bar/i386 Installed 0 0\n\
         foo/amd64 Installed 0 0\n\
         foo/i386 Installed 0 1\n",
    ),
    (
        UNDONE,
        "part => true\nsecond undo 2 => Ok(())\nleave => true\n",
        "[1023:]\nreplayed\ntransdesk journal 2\n\
         1 - bp=5 foo/amd64\n\
         2 - bp=7 bar/amd64\n\
         bar/amd64 Installed 0 0\n\
         bar/i386 Installed 0 0\n\
         foo/amd64 Installed 0 0\n\
         foo/i386 Installed 0 1\n",
    ),
];

fn leaves<R: Threads + Wait + Abort + Sync>(
    rt: &R,
    alloc: Global,
    journal: &str,
    script: &str,
    expected: &str,
) -> Result<(), Fail> {
    let trial = Trial {
        builders: 1,
        opening: INSTALLED,
        outcomes: "",
        script,
        tries: Tries::One,
    };
    let left = played_on(rt, alloc, journal, &trial)?;
    assert_eq!(rt; left.as_str(), expected);
    Ok(())
}

#[test]
fn a_desk_goes_on_with_a_journal(rt: HostRuntime) -> Result<(), Fail> {
    for (journal, script, expected) in &JOURNALS {
        leaves(&rt, rt.alloc(), journal, script, expected)?;
    }
    Ok(())
}

#[test]
fn a_desk_goes_on_with_no_other_text(rt: HostRuntime) -> Result<(), Fail> {
    for (journal, fault) in &NO_JOURNALS {
        leaves(&rt, rt.alloc(), journal, "", fault)?;
    }
    Ok(())
}
