//! Books over journals that are read again: what builds are given back, and what texts are refused.
use super::desk::refusal_of;
use super::script::journal_after;
use crate::sample::{INSTALLED, LEFT, NO_JOURNALS};
use crate::tries::Tries;
use std::test::Fail;

const AFTER_LEFT: &str = "\
entry 3 => 3 + givenback=1 foo/amd64
row foo/amd64 => foo/amd64 Needs-Build 0 1
ready => Ok([2])
undo 1 => Err(Blocked(3))
claim 2 foo/amd64 => true
start 2 => foo/amd64 1.2-3+b1 1 ()
finish 2 built => Ok(5)
";

const TWO_LEFT: &str = "\
transdesk journal 2
1 + nmu bar/amd64 foo/i386
2 + claim=1 foo/i386
3 + claim=1 bar/amd64
4 - bp=5 foo/amd64
";

const AFTER_TWO_LEFT: &str = "\
ready => Ok([0, 3])
undo 4 => Err(AlreadyUndone)
undo 1 => Err(Blocked(6))
claim 1 foo/i386 => true
start 1 => foo/i386 1.2-3+b2 2 ()
undo 1 => Err(Blocked(7))
";

// A journal, a script at a desk over it, and the journal after that.
const GIVEN_BACK: [(&str, &str, &str); 2] = [
    (
        LEFT,
        AFTER_LEFT,
        "transdesk journal 2\n\
         1 + nmu foo/amd64\n\
         2 + claim=1 foo/amd64\n\
         3 + givenback=1 foo/amd64\n\
         4 + claim=2 foo/amd64\n\
         5 + built=2 foo/amd64\n",
    ),
    (
        TWO_LEFT,
        AFTER_TWO_LEFT,
        "transdesk journal 2\n\
         1 + nmu bar/amd64 foo/i386\n\
         2 + claim=1 foo/i386\n\
         3 + claim=1 bar/amd64\n\
         4 - bp=5 foo/amd64\n\
         5 + givenback=1 bar/amd64\n\
         6 + givenback=1 foo/i386\n\
         7 + claim=1 foo/i386\n",
    ),
];

#[test]
fn a_build_that_a_journal_left_is_given_back(rt: HostRuntime) -> Result<(), Fail> {
    for (left, script, journal) in &GIVEN_BACK {
        let found = journal_after(rt.alloc(), INSTALLED, Some(left), script, Tries::One)?;
        assert_eq!(rt; found.as_str(), *journal);
    }
    Ok(())
}

#[test]
fn a_text_that_is_no_journal_opens_no_book(rt: HostRuntime) -> Result<(), Fail> {
    for (text, refusal) in &NO_JOURNALS {
        let found = refusal_of(rt.alloc(), INSTALLED, text)?;
        assert_eq!(rt; found.as_str(), *refusal);
    }
    Ok(())
}
