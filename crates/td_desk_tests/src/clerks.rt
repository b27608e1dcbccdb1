//! What clerks learn, what they read at the desk, and when it is closed. Expected answers are
//! by hand from the tables of `docs/FORMATS.md`.
use crate::sample::INSTALLED;
use crate::shop::{Played, all_leave, all_leave_with};
use crate::tries::Tries;
use std::alloc::Global;
use std::process::Abort;
use std::sync::Wait;
use std::test::Fail;
use std::thread::Threads;

const TWO_CLERKS: &str = "\
part => true
nmu foo . ANY => entry 1
second bp 5 bar . ANY => entry 2
second undo 2 => Ok(())
shut => true
work => Some(Ok(2))
receipts => [1023: made 1 foo/amd64 foo/i386;][1: made 2 bar/amd64 bar/i386; undid 2;]
";

const TWO_CHANGED: &str = "replayed
transdesk journal 2
1 + nmu foo/amd64 foo/i386
2 - bp=5 bar/amd64 bar/i386
3 + claim=1 foo/amd64
4 + built=1 foo/amd64
5 + claim=1 foo/i386
6 + built=1 foo/i386
bar/amd64 Installed 0 0
bar/i386 Installed 0 0
foo/amd64 Built 0 1
foo/i386 Built 0 2
";

// Checks that the trial whose script ends so leaves this front before the book.
fn ends<R: Threads + Wait + Abort + Sync>(
    rt: &R,
    alloc: Global,
    end: &str,
    front: &str,
) -> Result<(), Fail> {
    let script = format!(in alloc; "{TWO_CLERKS}{end}")?;
    let expected = format!(in alloc; "{front}\n{TWO_CHANGED}")?;
    let played = (INSTALLED, "", script.as_str(), expected.as_str());
    all_leave(rt, alloc, &[played])
}

// Builds are no clerk's change. What the first clerk has in the end comes before the book.
#[test]
fn a_desk_is_closed_by_the_receipts_of_all_clerks(rt: HostRuntime) -> Result<(), Fail> {
    ends(&rt, rt.alloc(), "", "closed")?;
    ends(&rt, rt.alloc(), "join => true\n", "closed")?;
    // (a clerk who has done nothing joins, too)
    ends(
        &rt,
        rt.alloc(),
        "join => true\npart => true\njoin => true\n",
        "closed",
    )?;
    ends(
        &rt,
        rt.alloc(),
        "leave => true\n",
        "[1023: made 1 foo/amd64 foo/i386;]",
    )
}

const NUMBERED: &str = "\
row_no bar/amd64 => Some(0)
row_no bar/i386 => Some(1)
row_no foo/amd64 => Some(2)
row_no foo/i386 => Some(3)
row_no zz/amd64 => None
key_at 0 => bar/amd64
key_at 1 => bar/i386
key_at 2 => foo/amd64
key_at 3 => foo/i386
key_at 4 => none
";

const LOOKED_AT: &str = "\
nmu 1 foo . ANY => entry 1, foo/i386 State(Installed)
row foo/amd64 => foo/amd64 Needs-Build 0 1
row foo/i386 => foo/i386 Installed 0 1
row zz/i386 => none
entry 1 => 1 + nmu=1 foo/amd64
entry 2 => none
journal => transdesk journal 2|1 + nmu=1 foo/amd64|
ready => Ok([2])
installed 0 => None
nmu 1 foo . ANY => NothingApplies, foo/amd64 State(NeedsBuild), foo/i386 State(Installed)
arrive foo/amd64 => Err(DoesNotApply(NeedsBuild))
sweep => Ok(None)
undo 1 => Ok(())
entry 1 => 1 - nmu=1 foo/amd64
undo 1 => Err(AlreadyUndone)
receipts => [1024: made 1 foo/amd64; undid 1;]
";

const WAITING: &str = "\
bar/amd64 Uploaded 0 1
foo/amd64 Dep-Wait 0 1 : libbar-dev (>= 2.0-1+b1)
";

const SWEPT: &str = "\
sweep => Ok(None)
arrive bar/amd64 => Ok(1)
sweep => Ok(Some(2))
row foo/amd64 => foo/amd64 Needs-Build 0 1
receipts => [1024: made 1 bar/amd64; swept 2;]
";

const UNTOUCHED: &str = "\
closed
replayed
transdesk journal 2
bar/amd64 Installed 0 0
bar/i386 Installed 0 0
foo/amd64 Installed 0 0
foo/i386 Installed 0 1
";

const READ_BACK: [Played<'static>; 4] = [
    (INSTALLED, "", "", UNTOUCHED),
    (INSTALLED, "", NUMBERED, UNTOUCHED),
    (
        INSTALLED,
        "",
        LOOKED_AT,
        "closed\nreplayed\ntransdesk journal 2\n\
         1 - nmu=1 foo/amd64\n\
         bar/amd64 Installed 0 0\n\
         bar/i386 Installed 0 0\n\
         foo/amd64 Installed 0 0\n\
         foo/i386 Installed 0 1\n",
    ),
    (
        WAITING,
        "",
        SWEPT,
        "closed\nreplayed\ntransdesk journal 2\n\
         1 + arrive bar/amd64\n\
         2 + sweep foo/amd64\n\
         bar/amd64 Installed 0 1\n\
         foo/amd64 Needs-Build 0 1\n",
    ),
];

#[test]
fn desk_reads_back(rt: HostRuntime) -> Result<(), Fail> {
    all_leave(&rt, rt.alloc(), &READ_BACK)
}

// `tools/stress/fail-memory-calls` runs it once for each of its allocations, which is refused. With
// memory each call succeeds the first time, as above.
#[test]
fn a_clerk_who_lacks_memory_changes_nothing(rt: HostRuntime) -> Result<(), Fail> {
    all_leave_with(&rt, rt.alloc(), &READ_BACK, Tries::Two)
}

const HELD: &str = "\
hold foo/amd64 => true
arrive foo/amd64 => Err(DoesNotApply(NeedsBuild))
dw foo . ANY . -m libqq-dev => entry 2, foo/amd64 State(Building(1))
arrive foo/amd64 => Err(DoesNotApply(Building(1)))
gb foo . ANY => entry 3, foo/amd64 State(Building(1))
nmu foo . amd64 => NothingApplies, foo/amd64 State(Building(1))
end built => Some(Ok(4))
end built => Some(Err(NothingHeld))
end attempted => Some(Err(NothingHeld))
arrive foo/amd64 => Ok(5)
receipts => [1024: made 2 foo/i386; made 3 foo/i386; made 5 foo/amd64;]
";

// A row that a builder has is skipped with that state, and its build hasn't arrived. A claim is
// noted by the command that finds it.
const HAD: [Played<'static>; 1] = [(
    "foo/amd64 Needs-Build 0 0\nfoo/i386 Failed 0 0\n",
    "",
    HELD,
    "closed\nreplayed\ntransdesk journal 2\n\
     1 + claim=1 foo/amd64\n\
     2 + dw foo/i386 : libqq-dev\n\
     3 + gb foo/i386\n\
     4 + built=1 foo/amd64\n\
     5 + arrive foo/amd64\n\
     foo/amd64 Installed 0 0\n\
     foo/i386 Needs-Build 0 0\n",
)];

#[test]
fn a_row_that_a_builder_has_is_skipped(rt: HostRuntime) -> Result<(), Fail> {
    all_leave(&rt, rt.alloc(), &HAD)
}

const BOTH: &str = "\
part => true
arrive bar/amd64 => Ok(1)
sweep => Ok(Some(2))
second arrive bar/amd64 => Err(DoesNotApply(Installed))
second sweep => Ok(None)
second arrive bar/i386 => Ok(3)
second sweep => Ok(Some(4))
sweep => Ok(None)
receipts => [1023: made 1 bar/amd64; swept 2;][1: made 3 bar/i386; swept 4;]
";

// Each clerk is answered of its own arrival and its own sweep.
const OF_BOTH: [Played<'static>; 1] = [(
    "bar/amd64 Uploaded 0 1\n\
     bar/i386 Uploaded 0 1\n\
     foo/amd64 Dep-Wait 0 1 : libbar-dev (>= 2.0-1+b1)\n\
     foo/i386 Dep-Wait 0 1 : libbar-dev (>= 2.0-1+b1)\n",
    "",
    BOTH,
    "closed\nreplayed\ntransdesk journal 2\n\
     1 + arrive bar/amd64\n\
     2 + sweep foo/amd64\n\
     3 + arrive bar/i386\n\
     4 + sweep foo/i386\n\
     bar/amd64 Installed 0 1\n\
     bar/i386 Installed 0 1\n\
     foo/amd64 Needs-Build 0 1\n\
     foo/i386 Needs-Build 0 1\n",
)];

#[test]
fn a_second_clerk_arrives_and_sweeps_for_itself(rt: HostRuntime) -> Result<(), Fail> {
    all_leave(&rt, rt.alloc(), &OF_BOTH)
}

// A ledger has 1,024 parts.
const GIVEN_AWAY: [Played<'static>; 1] = [(
    "foo/amd64 Installed 0 0\n",
    "",
    "receipts => [1024:]\ngive => 1023\nreceipts => [1:]\ngive => 0\npart => false\n",
    "closed\nreplayed\ntransdesk journal 2\nfoo/amd64 Installed 0 0\n",
)];

#[test]
fn a_clerk_gives_all_parts_away_but_the_last(rt: HostRuntime) -> Result<(), Fail> {
    all_leave(&rt, rt.alloc(), &GIVEN_AWAY)
}
