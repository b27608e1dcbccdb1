//! Clerks and builders at one desk, each on a thread: the rows are a replay of the journal,
//! whatever the order was in which they came.
use crate::shop::{Trial, played};
use crate::tries::Tries;
use std::alloc::Global;
use std::process::Abort;
use std::sync::Wait;
use std::test::Fail;
use std::thread::Threads;

const FOUR: &str = "\
bar/amd64 Needs-Build 0 0
bar/i386 Installed 0 0
foo/amd64 Failed 0 0
foo/i386 Installed 0 1
";

// Builders who work while two clerks make 500 calls each; and builders who claim without pause
// against the 2,000 calls of one clerk.
const CREWS: [(usize, &str); 2] = [
    (
        8,
        "part => true\n\
         beside 500 => wrong 0, accepted some true, built some true, counted all true\n",
    ),
    (
        2,
        "against 2000 => wrong 0, accepted some true, built some true, counted all true\n",
    ),
];

// Checks that what the trial leaves begins so.
fn begins<R: Threads + Wait + Abort + Sync>(
    rt: &R,
    alloc: Global,
    trial: &Trial<'_>,
    expected: &str,
) -> Result<(), Fail> {
    let left = played(rt, alloc, trial)?;
    let all = left.as_str();
    let (front, _) = all.split_once("\ntransdesk").unwrap_or((all, ""));
    assert_eq!(rt; front, expected);
    Ok(())
}

#[test]
fn rows_are_the_replay_of_the_journal_whoever_comes_first(rt: HostRuntime) -> Result<(), Fail> {
    for (builders, script) in &CREWS {
        let trial = Trial {
            builders: *builders,
            opening: FOUR,
            outcomes: "",
            script,
            tries: Tries::One,
        };
        begins(&rt, rt.alloc(), &trial, "closed\nreplayed")?;
    }
    Ok(())
}
