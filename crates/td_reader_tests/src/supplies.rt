//! What a supply meets before and after arrivals.
ghost use Rattle.std.specs.Prelude.{List, [], ◌∷◌, if◌then◌else◌};
ghost use Rattle.std.specs.Str.{bytes_eq};

use crate::checks::{holds, made};
use std::alloc::{AllocError, Global};
use std::process::Abort;
use td_relation::Archs;
use td_supply::{Build, Supply};
use td_version::Version;

const TABLE: &str = "amd64 linux amd64\ni386 linux i386";

/// A package, its version, the place of its architecture and its source.
type Put = (&'static str, &'static str, Option<usize>, &'static str);

/// A library's development files on amd64 and i386, a name that these provide on amd64, and its
/// documentation for every architecture; and a package whose version has an epoch and no revision.
const PUT: [Put; 5] = [
    ("libbar-dev", "2.0-1", Some(0), "bar"),
    ("libbar-dev", "2.0-1", Some(1), "bar"),
    ("libbar-abi-2", "", Some(0), ""),
    ("bar-doc", "2.0-1", None, "bar"),
    ("baz", "1:3", Some(0), "baz"),
];

/// Puts up a package of a source; a name that is provided has neither a version nor a source.
fn put(supply: &mut Supply<'_>, (name, version, arch, source): &Put) -> Result<(), AllocError> {
    match Version::read(version) {
        Ok(base) => {
            let source = *source;
            supply.push(*name, Some(base), *arch, Some(Build { source, base }))
        }
        Err(_) => supply.push(*name, None, *arch, None),
    }
}

/// Puts up the one source that has a version.
fn put_source(supply: &mut Supply<'_>) -> Result<(), AllocError> {
    let Ok(_) = Version::read("2.0-1") else {
        return Err(AllocError);
    };
    if supply.version("bar").is_none() {
        supply.push_source("bar", "2.0-1")?;
    }
    Ok(())
}

fn fill(supply: &mut Supply<'_>) -> Result<(), AllocError> {
    put_source(supply)?;
    for package in &PUT {
        put(supply, package)?;
    }
    Ok(())
}

/// The offers of a small index.
fn example(rt: &impl Abort, alloc: Global) -> Supply<'static> {
    let archs = made(rt, Archs::read(alloc, TABLE));
    let mut supply = Supply::new(alloc, archs);
    made(rt, fill(&mut supply));
    supply
}

/// Whether the supply answers so, whether it meets the relation.
fn answers(supply: &Supply<'_>, text: &str, arch: &str, expected: bool) -> bool {
    match supply.meets(text, arch) {
        Ok(is_met) => is_met == expected,
        Err(_) => false,
    }
}

/// A relation, an architecture, and whether the relation is met there.
type Asked = (&'static str, &'static str, bool);

fn are_met(rt: &impl Abort, supply: &Supply<'_>, asked: &[Asked]) {
    for (text, arch, expected) in asked {
        holds(rt, answers(supply, text, arch, *expected), text);
    }
}

// Expected by hand, from Policy 7.1 and the Developer's Reference 5.10.2.1.
const BEFORE: [Asked; 2] = [
    ("libbar-dev (= 2.0-1)", "amd64", true),
    ("libbar-dev (>= 2.0-1+b1)", "amd64", false),
];

const WITH_BAR: [Asked; 5] = [
    ("libbar-dev (>= 2.0-1+b1)", "amd64", true),
    ("libbar-dev (= 2.0-1)", "amd64", false),
    ("libbar-dev (>= 2.0-1+b1)", "i386", false),
    ("libbar-dev (= 2.0-1)", "i386", true),
    ("bar-doc (= 2.0-1), libbar-abi-2", "amd64", true),
];

const WITH_BAZ: [Asked; 1] = [("baz (= 1:3+b12)", "amd64", true)];

#[test]
fn a_rebuild_is_offered_once_it_has_arrived(rt: HostRuntime) {
    let mut supply = example(&rt, rt.alloc());
    are_met(&rt, &supply, &BEFORE);
    made(&rt, supply.arrive("bar", "amd64", 1));
    are_met(&rt, &supply, &WITH_BAR);
    made(&rt, supply.arrive("baz", "amd64", 12));
    are_met(&rt, &supply, &WITH_BAZ);
    drop(supply);
}

const WANTING: [Asked; 3] = [
    ("libbar-dev (>= 2.0-1+b1)", "amd64", false),
    ("libbar-dev", "s390x", false),
    ("libbar-dev (> 1)", "amd64", false),
];

/// How the source's version is written.
fn version<'a>(supply: &Supply<'a>, source: &str) -> &'a str {
    supply.version(source).unwrap_or("none")
}

/// The upstream part of a source's version.
fn upstream<'a>(supply: &Supply<'a>, source: &str) -> &'a str {
    match supply.version_parts(source) {
        Some(version) => version.upstream,
        None => "none",
    }
}

fn has_what_was_put(supply: &Supply<'_>) -> bool {
    version(supply, "bar") == "2.0-1"
        && version(supply, "baz") == "none"
        && upstream(supply, "bar") == "2.0"
        && upstream(supply, "baz") == "none"
        && supply.archs().len() == 2
        && supply.len() == 5
}

#[test]
fn what_is_not_there_is_not_met(rt: HostRuntime) {
    let empty = Supply::empty(rt.alloc());
    are_met(&rt, &empty, &[("libbar-dev", "amd64", false)]);
    drop(empty);
    let mut supply = example(&rt, rt.alloc());
    made(&rt, supply.arrive("bar", "s390x", 1));
    are_met(&rt, &supply, &WANTING);
    holds(&rt, has_what_was_put(&supply), "what was put");
    drop(supply);
}
