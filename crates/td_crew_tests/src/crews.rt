//! What no clause can say: that the builders of a crew build while its script is answered, each of
//! them, and at the same time; that a crew of none tells its rows too (the program has a script
//! without builders run by itself); and that a writer which takes one byte a call gets all that a
//! script answers. The archives and the answers are this project's worked examples.
use crate::archive::{ARCHS, PACKAGES, SOURCES};
use crate::at_once::AtOnce;
use crate::checks::{is_told, made};
use crate::narrow::Narrow;
use std::alloc::{AllocError, Global};
use std::fmt::Debug;
use std::process::Abort;
use std::sync::Wait;
use std::test::Fail;
use std::thread::Threads;
use td_builder::Builds;
use td_crew::{run_crew, run_crew_with};
use td_desk_tests::Together;
use td_script::{Inputs, ScriptEnd, run_script};

// An archive of these indices and no other file, and less than 65 builders.
fn inputs_over(
    alloc: Global,
    packages: &str,
    sources: &str,
    builders: u8,
) -> Result<Inputs, AllocError> {
    let archs = String::from_str(alloc, ARCHS)?;
    let packages = String::from_str(alloc, packages)?;
    let sources = String::from_str(alloc, sources)?;
    Ok(Inputs {
        archs,
        packages,
        sources,
        state: None,
        tracker: None,
        journal: None,
        suite: String::new(alloc),
        outcomes: None,
        builders: usize::from(builders % 65),
    })
}

// The archive of the tests, and less than 65 builders.
fn inputs(alloc: Global, builders: u8) -> Result<Inputs, AllocError> {
    inputs_over(alloc, PACKAGES, SOURCES, builders)
}

// How many lines are refused, or the fault, and after it what is written.
fn spelled<F: Debug>(
    alloc: Global,
    end: &Result<ScriptEnd, F>,
    written: &[u8],
) -> Result<String, AllocError> {
    let text = String::from_utf8_lossy(alloc, written)?;
    match end {
        Ok(end) => format!(in alloc; "{} {text}", end.refusals),
        Err(fault) => format!(in alloc; "{fault:?} {text}"),
    }
}

// What comes of a script that a crew runs.
fn told<R: Threads + Wait + Sync>(
    rt: &R,
    alloc: Global,
    inputs: &Inputs,
    mut script: &[u8],
) -> Result<String, AllocError> {
    let mut writer = Vec::new(alloc);
    let end = run_crew(rt, alloc, inputs, &mut script, &mut writer);
    spelled(alloc, &end, writer.as_slice())
}

const WITHOUT_BUILDERS: &str = "\
1 entry 1 takes foo/i386
refused: NoSuchEntry
rows
foo/amd64 Installed 0 0
foo/i386 Needs-Build 0 1
";

#[test]
fn without_builders_the_rows_are_told_too(rt: HostRuntime) -> Result<(), Fail> {
    let inputs = inputs(rt.alloc(), 0)?;
    let found = told(&rt, rt.alloc(), &inputs, b"nmu foo . i386\nundo 2\n");
    drop(inputs);
    assert_eq!(rt; found?.as_str(), WITHOUT_BUILDERS);
    Ok(())
}

// What comes of a script that a crew runs whose builders build in this way.
fn told_by<R: Threads + Wait + Sync>(
    rt: &R,
    alloc: Global,
    inputs: &Inputs,
    mut script: &[u8],
    builds: impl Builds + Copy + Send + Sync,
) -> Result<String, AllocError> {
    let mut writer = Vec::new(alloc);
    let end = run_crew_with(rt, alloc, inputs, &mut script, &mut writer, builds);
    spelled(alloc, &end, writer.as_slice())
}

const BOTH_BUILT: &str = "\
0 entry 1 takes foo/amd64 foo/i386
rows
foo/amd64 Built 0 1
foo/i386 Built 0 1
";

#[test]
fn two_builds_of_a_crew_overlap(rt: HostRuntime) -> Result<(), Fail> {
    let inputs = inputs(rt.alloc(), 2)?;
    let builds = Together::new();
    let found = told_by(&rt, rt.alloc(), &inputs, b"nmu foo . ANY\n", &builds);
    drop(inputs);
    assert_eq!(rt; found?.as_str(), BOTH_BUILT);
    Ok(())
}

// The package of `foo` on i386: on amd64 nothing was built of it, so its row there needs a build.
const BUILT_ON_I386: &str = "Package: libfoo1\nSource: foo\nVersion: 1.2-3\nArchitecture: i386\n";

// A script that looks at the row on amd64 again and again, for some milliseconds, and then asks for
// a build on i386.
fn long_script(alloc: Global) -> Result<String, AllocError> {
    let mut script = String::new(alloc);
    for _ in 0..10_000 {
        script.push_str("row foo amd64\n")?;
    }
    script.push_str("nmu foo . i386\n")?;
    Ok(script)
}

// What the answers to `long_script` end with if a builder builds on amd64 by then: the entry of
// its claim comes before that of the command. Neither build ends before the other has begun.
const BEGUN_BEFORE: &str = "\
entry 2 takes foo/i386
rows
foo/amd64 Built 0 0
foo/i386 Built 0 1
";

// Whether a builder built while the script was answered.
fn is_built_meanwhile(
    rt: &(impl Threads + Wait + Abort + Sync),
    alloc: Global,
    inputs: &Inputs,
    script: &str,
) -> bool {
    let builds = AtOnce::of(2);
    let found = made(rt, told_by(rt, alloc, inputs, script.as_bytes(), &builds));
    let is_beside = found.as_str().ends_with(BEGUN_BEFORE);
    drop(found);
    is_beside
}

// No clerk waits for a builder, so a script may be answered before one begins. Of many scripts one
// isn't, mostly the first.
#[test]
fn a_builder_builds_while_a_script_is_answered(rt: HostRuntime) {
    let inputs = made(&rt, inputs_over(rt.alloc(), BUILT_ON_I386, SOURCES, 2));
    let script = made(&rt, long_script(rt.alloc()));
    let is_one = (0..100).any(|_| is_built_meanwhile(&rt, rt.alloc(), &inputs, script.as_str()));
    drop(script);
    drop(inputs);
    assert!(rt; is_one);
}

// The stanzas of `count` sources of which nothing was built.
fn unbuilt(alloc: Global, count: u8) -> Result<String, AllocError> {
    let mut sources = String::new(alloc);
    for number in 0..count {
        write!(
            sources,
            "Package: s{number}\nVersion: 1\nArchitecture: amd64\n\n"
        )?;
    }
    Ok(sources)
}

// Whether a crew of this many builders builds as many rows at once, one row each.
fn all_build(rt: &(impl Threads + Wait + Abort + Sync), alloc: Global, builders: u8) {
    let sources = made(rt, unbuilt(alloc, builders));
    let inputs = made(rt, inputs_over(alloc, "", sources.as_str(), builders));
    let builds = AtOnce::of(usize::from(builders));
    let found = made(rt, told_by(rt, alloc, &inputs, b"", &builds));
    drop(inputs);
    let built = found
        .as_str()
        .lines()
        .filter(|row| row.ends_with(" Built 0 0"))
        .count();
    assert_eq!(rt; built, usize::from(builders));
}

#[test]
fn each_builder_of_a_crew_builds(rt: HostRuntime) {
    all_build(&rt, rt.alloc(), 8);
    all_build(&rt, rt.alloc(), 64);
}

// What a writer of one byte a call gets of a script.
fn told_narrowly<R: Threads + Sync>(
    rt: &R,
    alloc: Global,
    inputs: &Inputs,
    mut script: &[u8],
) -> Result<String, AllocError> {
    let taken = Vec::new(alloc);
    let mut writer = Narrow { taken };
    let end = run_script(rt, alloc, inputs, &mut script, &mut writer);
    spelled(alloc, &end, writer.taken.as_slice())
}

const BYTE_BY_BYTE: &str = "\
1 entry 1 takes foo/i386
refused: NoSuchEntry
foo/i386 Needs-Build 0 1
";

#[test]
fn a_writer_of_one_byte_a_call_gets_all_answers(rt: HostRuntime) {
    let inputs = made(&rt, inputs(rt.alloc(), 0));
    let script = b"nmu foo . i386\nundo 2\nrow foo i386\n";
    let found = told_narrowly(&rt, rt.alloc(), &inputs, script);
    is_told(&rt, found, BYTE_BY_BYTE, "a script");
    drop(inputs);
}
