//! That calls succeed with ample memory, and what they answer over the example archive. Expected
//! answers are the project's own worked examples, by hand from the tables of `docs/FORMATS.md`.
use super::script::{Played, are_played, are_played_with};
use crate::sample::INSTALLED;
use crate::tries::Tries;
use std::alloc::Global;
use std::process::Abort;
use std::test::Fail;

const TAKES: &str = "\
nmu foo_1.2-3 . ANY . unstable . -m \"Rebuild against libbar2\" => entry 1
row foo/amd64 => foo/amd64 Needs-Build 0 1
row foo/i386 => foo/i386 Needs-Build 0 2
row zz/i386 => none
entry 1 => 1 + nmu foo/amd64 foo/i386 : Rebuild against libbar2
entry 2 => none
";

const SKIPS: &str = "\
nmu 1 foo . ANY => entry 1, foo/i386 State(Installed)
nmu foo_1.2-3+b1 . ANY => entry 2, foo/amd64 State(NeedsBuild)
gb foo_1.2-4 . ANY => NothingApplies, foo/amd64 Version, foo/i386 Version
gb foo bar_1.2-3 . ANY => NothingApplies, bar/amd64 Version, bar/i386 Version, \
foo/amd64 State(NeedsBuild), foo/i386 State(NeedsBuild)
";

const LAST_NUMBER: &str = "\
nmu foo . amd64 => NothingApplies, foo/amd64 State(Installed)
gb foo . ANY -amd64 -i386 => NothingApplies
";

const CHOSEN_ONCE: &str = "\
nmu foo . amd64 => entry 1
nmu foo . ANY => entry 2, foo/amd64 State(NeedsBuild)
undo 1 => Ok(())
row foo/amd64 => foo/amd64 Installed 0 0
entry 2 => 2 + nmu foo/i386
";

const TAKEN: [Played<'static>; 4] = [
    (
        INSTALLED,
        TAKES,
        "transdesk journal 2\n1 + nmu foo/amd64 foo/i386 : Rebuild against libbar2\n",
    ),
    (
        INSTALLED,
        SKIPS,
        "transdesk journal 2\n1 + nmu=1 foo/amd64\n2 + nmu foo/i386\n",
    ),
    (
        "foo/amd64 Installed 0 9999\n",
        LAST_NUMBER,
        "transdesk journal 2\n",
    ),
    (
        INSTALLED,
        CHOSEN_ONCE,
        "transdesk journal 2\n1 - nmu foo/amd64\n2 + nmu foo/i386\n",
    ),
];

#[test]
fn a_command_takes_rows_and_says_which_it_skips(rt: HostRuntime) -> Result<(), Fail> {
    are_played(&rt, rt.alloc(), &TAKEN)
}

const NUMBER_BACK: &str = "\
nmu foo . i386 => entry 1
undo 1 => Ok(())
row foo/i386 => foo/i386 Installed 0 1
nmu foo . i386 => entry 2
row foo/i386 => foo/i386 Needs-Build 0 2
";

const OTHER_KEYS: &str = "\
bp 5 foo . ANY => entry 1
nmu bar . ANY => entry 2
undo 1 => Ok(())
row bar/amd64 => bar/amd64 Needs-Build 0 1
row foo/amd64 => foo/amd64 Installed 0 0
";

const EQUAL_VALUE: &str = "\
bp 5 foo . amd64 => entry 1
bp 5 foo . amd64 => entry 2
undo 1 => Err(Blocked(2))
undo 2 => Ok(())
undo 1 => Ok(())
undo 1 => Err(AlreadyUndone)
undo 9 => Err(NoSuchEntry)
undo 0 => Err(NoSuchEntry)
";

const OTHER_CELLS: &str = "\
nmu foo . amd64 => entry 1
bp 7 foo . amd64 => entry 2
undo 1 => Ok(())
row foo/amd64 => foo/amd64 Installed 7 0
undo 2 => Ok(())
row foo/amd64 => foo/amd64 Installed 0 0
";

const BLOCKED: [Played<'static>; 4] = [
    (
        INSTALLED,
        NUMBER_BACK,
        "transdesk journal 2\n1 - nmu foo/i386\n2 + nmu foo/i386\n",
    ),
    (
        INSTALLED,
        OTHER_KEYS,
        "transdesk journal 2\n1 - bp=5 foo/amd64 foo/i386\n2 + nmu bar/amd64 bar/i386\n",
    ),
    (
        INSTALLED,
        EQUAL_VALUE,
        "transdesk journal 2\n1 - bp=5 foo/amd64\n2 - bp=5 foo/amd64\n",
    ),
    (
        INSTALLED,
        OTHER_CELLS,
        "transdesk journal 2\n1 - nmu foo/amd64\n2 - bp=7 foo/amd64\n",
    ),
];

#[test]
fn an_undo_is_blocked_by_the_last_entry_that_touches(rt: HostRuntime) -> Result<(), Fail> {
    are_played(&rt, rt.alloc(), &BLOCKED)
}

const BUILT_I386: &str = "\
bar/amd64 Installed 0 0
bar/i386 Installed 0 0
foo/amd64 Installed 0 0
foo/i386 Built 0 1
";

// A row that a builder has won, and the two other rows of the entry.
const WON: [(&str, &str, &str); 3] = [
    ("bar/i386", "foo/amd64", "bar/amd64"),
    ("bar/amd64", "foo/amd64", "bar/i386"),
    ("foo/amd64", "bar/amd64", "bar/i386"),
];

// Checks that the claim of a row blocks the undo of its entry, whose other rows stay on offer.
fn blocks(
    rt: &impl Abort,
    alloc: Global,
    won: &str,
    second: &str,
    third: &str,
    tries: Tries,
) -> Result<(), Fail> {
    let script = format!(in alloc;
        "nmu foo bar . ANY => entry 1, foo/i386 State(Built)\n\
         claim 1 {won} => true\n\
         undo 1 => Err(Blocked(2))\n\
         claim 2 {won} => false\n\
         claim 2 {second} => true\n\
         claim 3 {third} => true\n"
    )?;
    let journal = format!(in alloc;
        "transdesk journal 2\n1 + nmu bar/amd64 bar/i386 foo/amd64\n2 + claim=1 {won}\n"
    )?;
    are_played_with(
        rt,
        alloc,
        &[(BUILT_I386, script.as_str(), journal.as_str())],
        tries,
    )
}

const TOO_LATE: [Played<'static>; 1] = [(
    BUILT_I386,
    "nmu foo bar . ANY => entry 1, foo/i386 State(Built)\n\
     undo 1 => Ok(())\n\
     claim 1 bar/i386 => false\n\
     row bar/amd64 => bar/amd64 Installed 0 0\n\
     row bar/i386 => bar/i386 Installed 0 0\n\
     row foo/amd64 => foo/amd64 Installed 0 0\n",
    "transdesk journal 2\n1 - nmu bar/amd64 bar/i386 foo/amd64\n",
)];

// Two builders have claimed the rows of an entry. Its undo comes to them in the order of the keys,
// whichever builder has the first, and the other claim is noted when its builder starts.
const TWO_WON: [Played<'static>; 2] = [
    (
        INSTALLED,
        "nmu foo bar . amd64 => entry 1\n\
         claim 1 bar/amd64 => true\n\
         claim 2 foo/amd64 => true\n\
         undo 1 => Err(Blocked(2))\n\
         start 2 => foo/amd64 1.2-3+b1 1 ()\n",
        "transdesk journal 2\n\
         1 + nmu bar/amd64 foo/amd64\n\
         2 + claim=1 bar/amd64\n\
         3 + claim=2 foo/amd64\n",
    ),
    (
        INSTALLED,
        "nmu foo bar . amd64 => entry 1\n\
         claim 1 foo/amd64 => true\n\
         claim 2 bar/amd64 => true\n\
         undo 1 => Err(Blocked(2))\n",
        "transdesk journal 2\n1 + nmu bar/amd64 foo/amd64\n2 + claim=2 bar/amd64\n",
    ),
];

#[test]
fn a_claim_that_a_builder_has_won_blocks_an_undo(rt: HostRuntime) -> Result<(), Fail> {
    for (won, second, third) in &WON {
        blocks(&rt, rt.alloc(), won, second, third, Tries::One)?;
    }
    are_played(&rt, rt.alloc(), &TWO_WON)?;
    are_played(&rt, rt.alloc(), &TOO_LATE)
}

const NEEDS_BUILD: &str = "foo/amd64 Needs-Build 0 1\n";

const NEEDS_FIRST_BUILD: &str = "foo/amd64 Needs-Build 0 0\n";

const WAITS: &str = "\
start 1 => NothingHeld
nmu foo . amd64 => entry 1
claim 1 foo/amd64 => true
start 1 => foo/amd64 1.2-3+b1 1 ()
entry 2 => 2 + claim=1 foo/amd64
start 1 => foo/amd64 1.2-3+b1 1 ()
finish 1 waits libbar-dev (>= 3) => Ok(3)
row foo/amd64 => foo/amd64 Dep-Wait 0 1 : libbar-dev (>= 3)
finish 1 waits libbar-dev (>= 3) => Err(NothingHeld)
start 1 => NothingHeld
ready => Ok([])
release => true
";

const WAITS_WITH_EXTRA: &str = "\
nmu foo . amd64 . -m x --extra-depends libxx => entry 1
claim 1 foo/amd64 => true
start 1 => foo/amd64 1.2-3+b1 1 (libxx)
finish 1 waits libbar-dev (>= 3) => Ok(3)
row foo/amd64 => foo/amd64 Dep-Wait 0 1 ;5 libxx : libbar-dev (>= 3)
";

const NOTED_BY_A_COMMAND: &str = "\
claim 1 foo/amd64 => true
dw foo . amd64 . -m libbar-dev => NothingApplies, foo/amd64 State(Building(1))
";

const NOTED_BY_A_GB: &str = "\
claim 1 foo/amd64 => true
gb foo . amd64 => NothingApplies, foo/amd64 State(Building(1))
";

const NOTED_OF_ANOTHER_VERSION: &str = "\
claim 1 foo/amd64 => true
dw foo_9 . amd64 . unstable . -m libx => NothingApplies, foo/amd64 Version
";

const PRIORITY_BACK: &str = "\
bp 5 foo . amd64 => entry 1
claim 1 foo/amd64 => true
start 1 => foo/amd64 1.2-3+b1 1 ()
undo 1 => Ok(())
row foo/amd64 => foo/amd64 Building=1 0 1
finish 1 built => Ok(3)
";

const GIVEN_BACK: &str = "\
finish 2 built => Err(NothingHeld)
claim 2 foo/amd64 => true
finish 2 givenback => Ok(2)
row foo/amd64 => foo/amd64 Needs-Build 0 1
claim 1 foo/amd64 => true
claim 2 foo/amd64 => false
finish 1 attempted => Ok(4)
row foo/amd64 => foo/amd64 Build-Attempted 0 1
gb foo . amd64 => entry 5
claim 3 foo/amd64 => true
finish 3 built => Ok(7)
gb foo . amd64 => entry 8
claim 1 foo/amd64 => true
finish 1 waits libx => Ok(10)
row foo/amd64 => foo/amd64 Dep-Wait 0 1 : libx
";

const ENDED_AT_THE_BOARD: &str = "\
claim 1 foo/amd64 => true
end => false
start 1 => foo/amd64 1.2-3+b1 1 ()
end => true
row foo/amd64 => foo/amd64 Building=1 0 1
finish 1 built => Err(Mismatch)
finish 1 attempted => Ok(2)
row foo/amd64 => foo/amd64 Build-Attempted 0 1
finish 1 attempted => Err(NothingHeld)
";

const BUILT: [Played<'static>; 8] = [
    (
        INSTALLED,
        WAITS,
        "transdesk journal 2\n\
         1 + nmu foo/amd64\n\
         2 + claim=1 foo/amd64\n\
         3 + waits=1 foo/amd64 : libbar-dev (>= 3)\n",
    ),
    (
        INSTALLED,
        WAITS_WITH_EXTRA,
        "transdesk journal 2\n\
         1 + nmu foo/amd64 ;5 libxx : x\n\
         2 + claim=1 foo/amd64\n\
         3 + waits=1 foo/amd64 : libbar-dev (>= 3)\n",
    ),
    (
        NEEDS_FIRST_BUILD,
        NOTED_BY_A_COMMAND,
        "transdesk journal 2\n1 + claim=1 foo/amd64\n",
    ),
    (
        NEEDS_BUILD,
        NOTED_BY_A_GB,
        "transdesk journal 2\n1 + claim=1 foo/amd64\n",
    ),
    (
        NEEDS_BUILD,
        NOTED_OF_ANOTHER_VERSION,
        "transdesk journal 2\n1 + claim=1 foo/amd64\n",
    ),
    (
        NEEDS_BUILD,
        PRIORITY_BACK,
        "transdesk journal 2\n\
         1 - bp=5 foo/amd64\n\
         2 + claim=1 foo/amd64\n\
         3 + built=1 foo/amd64\n",
    ),
    (
        NEEDS_BUILD,
        GIVEN_BACK,
        "transdesk journal 2\n\
         1 + claim=2 foo/amd64\n\
         2 + givenback=2 foo/amd64\n\
         3 + claim=1 foo/amd64\n\
         4 + attempted=1 foo/amd64\n\
         5 + gb foo/amd64\n\
         6 + claim=3 foo/amd64\n\
         7 + built=3 foo/amd64\n\
         8 + gb foo/amd64\n\
         9 + claim=1 foo/amd64\n\
         10 + waits=1 foo/amd64 : libx\n",
    ),
    (
        NEEDS_BUILD,
        ENDED_AT_THE_BOARD,
        "transdesk journal 2\n\
         1 + claim=1 foo/amd64\n\
         2 + attempted=1 foo/amd64\n",
    ),
];

#[test]
fn a_build_goes_from_its_claim_to_its_outcome(rt: HostRuntime) -> Result<(), Fail> {
    are_played(&rt, rt.alloc(), &BUILT)
}

const UPLOADED: &str = "\
bar/amd64 Uploaded 0 1
foo/amd64 Needs-Build 0 1
";

const SWEPT: &str = "\
dw foo . amd64 . unstable . -m \"libbar-dev (>= 2.0-1+b1)\" => entry 1
sweep => Ok(None)
arrive bar/amd64 => Ok(2)
sweep => Ok(Some(3))
row foo/amd64 => foo/amd64 Needs-Build 0 1
claim 1 foo/amd64 => true
undo 1 => Err(Blocked(3))
undo 2 => Err(NotACommand)
arrive foo/amd64 => Err(DoesNotApply(NeedsBuild))
arrive foo/i386 => Err(NoSuchRow)
";

const UPLOADED_FIRST: &str = "\
bar/amd64 Uploaded 0 1
foo/amd64 Installed 0 0
";

const SWEPT_WITH_EXTRA: &str = "\
nmu foo . amd64 . -m Rebuild --extra-depends \"libbar-dev (>= 2.0-1+b1)\" => entry 1
row foo/amd64 => foo/amd64 Needs-Build 0 1 ;24 libbar-dev (>= 2.0-1+b1)
dw foo . amd64 . -m \"libbar-dev (>= 2)\" => entry 2
sweep => Ok(None)
arrive bar/amd64 => Ok(3)
sweep => Ok(Some(4))
entry 1 => 1 + nmu foo/amd64 ;24 libbar-dev (>= 2.0-1+b1) : Rebuild
undo 1 => Err(Blocked(4))
";

const UPLOADED_MEANWHILE: &str = "\
bar/amd64 Uploaded 0 1
foo/amd64 Dep-Wait 0 1 : libbar-dev (>= 2.0-1+b1)
foo/i386 Needs-Build 0 1
";

const SWEPT_MEANWHILE: &str = "\
claim 1 foo/i386 => true
start 1 => foo/i386 1.2-3+b1 1 ()
arrive bar/amd64 => Ok(2)
sweep => Ok(Some(3))
row foo/amd64 => foo/amd64 Needs-Build 0 1
finish 1 built => Ok(4)
";

const FREED: [Played<'static>; 3] = [
    (
        UPLOADED,
        SWEPT,
        "transdesk journal 2\n\
         1 + dw foo/amd64 : libbar-dev (>= 2.0-1+b1)\n\
         2 + arrive bar/amd64\n\
         3 + sweep foo/amd64\n",
    ),
    (
        UPLOADED_FIRST,
        SWEPT_WITH_EXTRA,
        "transdesk journal 2\n\
         1 + nmu foo/amd64 ;24 libbar-dev (>= 2.0-1+b1) : Rebuild\n\
         2 + dw foo/amd64 : libbar-dev (>= 2)\n\
         3 + arrive bar/amd64\n\
         4 + sweep foo/amd64\n",
    ),
    (
        UPLOADED_MEANWHILE,
        SWEPT_MEANWHILE,
        "transdesk journal 2\n\
         1 + claim=1 foo/i386\n\
         2 + arrive bar/amd64\n\
         3 + sweep foo/amd64\n\
         4 + built=1 foo/i386\n",
    ),
];

#[test]
fn a_sweep_frees_the_rows_whose_wait_an_arrival_ends(rt: HostRuntime) -> Result<(), Fail> {
    are_played(&rt, rt.alloc(), &FREED)
}

const IN_ORDER: &str = "\
ready => Ok([])
nmu foo bar . ANY => entry 1
ready => Ok([0, 1, 2, 3])
bp 5 foo . i386 => entry 2
bp -5 bar . amd64 => entry 3
ready => Ok([3, 1, 2, 0])
claim 1 foo/i386 => true
start 1 => foo/i386 1.2-3+b2 2 ()
ready => Ok([1, 2, 0])
finish 1 givenback => Ok(5)
ready => Ok([3, 1, 2, 0])
";

// The rows have the numbers 0 to 3 in the order of their keys.
const READY: [Played<'static>; 1] = [(
    INSTALLED,
    IN_ORDER,
    "transdesk journal 2\n\
     1 + nmu bar/amd64 bar/i386 foo/amd64 foo/i386\n\
     2 + bp=5 foo/i386\n\
     3 + bp=-5 bar/amd64\n\
     4 + claim=1 foo/i386\n\
     5 + givenback=1 foo/i386\n",
)];

#[test]
fn rows_are_ready_by_priority_and_then_by_key(rt: HostRuntime) -> Result<(), Fail> {
    are_played(&rt, rt.alloc(), &READY)
}

// `tools/stress/fail-memory-calls` runs these two once for each of their allocations, which is
// refused. With memory each call succeeds the first time, as in the tests above.
#[test]
fn an_undo_that_lacks_memory_changes_nothing(rt: HostRuntime) -> Result<(), Fail> {
    let (won, second, third) = WON[0];
    blocks(&rt, rt.alloc(), won, second, third, Tries::Two)?;
    are_played_with(&rt, rt.alloc(), &TWO_WON, Tries::Two)
}

#[test]
fn a_build_that_lacks_memory_changes_nothing(rt: HostRuntime) -> Result<(), Fail> {
    are_played_with(&rt, rt.alloc(), &BUILT, Tries::Two)?;
    are_played_with(&rt, rt.alloc(), &FREED, Tries::Two)
}
