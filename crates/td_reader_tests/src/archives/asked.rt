//! What the program asks of indices and a tracker, in several threads: the stanzas of long texts,
//! which are found while these come, then marks, flags and levels. What no clause says is that all
//! of it is answered if memory suffices. The archive is that of `statuses`, and after its five
//! sources come 6,000 that ask for nothing. Expected by hand, from the rules in `docs/FORMATS.md`.

use super::answers::counts;
use crate::checks::{is_told, made};
use crate::statuses::{ARCHS, LIBFOO2, PACKAGES, SOURCES, status_name};
use std::alloc::{AllocError, Global};
use std::process::Abort;
use std::thread::Threads;
use td_indices::{Archive, IndexText};
use td_query::{Marks, Tracker};
use td_relation::Archs;
use td_waves::{Level, Waves};

// Puts down the stanzas with these numbers, each after an empty line. 3,000 of them are more bytes
// than are read as one piece.
fn put_stanzas(out: &mut String, from: usize, to: usize) -> Result<(), AllocError> {
    for number in from..to {
        write!(
            out,
            "\nPackage: zz{number}\nVersion: 1\nArchitecture: amd64\n"
        )?;
    }
    Ok(())
}

// A text with stanzas after it, up to a number.
fn lengthened(alloc: Global, text: &str, to: usize) -> Result<String, AllocError> {
    let mut out = String::from_str(alloc, text)?;
    put_stanzas(&mut out, 0, to)?;
    Ok(out)
}

// The stanzas after the first 3,000.
fn rest(alloc: Global) -> Result<String, AllocError> {
    let mut out = String::new(alloc);
    put_stanzas(&mut out, 3000, 6000)?;
    Ok(out)
}

fn put_level(out: &mut String, level: Option<Level>) -> Result<(), AllocError> {
    match level {
        Some(Level::At(number)) => write!(out, "{number}")?,
        Some(Level::Cyclic) => out.push_str("cyclic")?,
        None => out.push_str("-")?,
    }
    Ok(())
}

// Puts down a source's status and its level.
fn put_source(
    out: &mut String,
    archive: &Archive<'_, '_>,
    marks: &Marks,
    waves: &Waves<'_>,
    name: &str,
) -> Result<(), AllocError> {
    let number = archive.source_number(name).unwrap_or(usize::MAX);
    out.push_str(", ")?;
    out.push_str(status_name(marks.status(archive, number, 0)))?;
    out.push_str(" ")?;
    put_level(out, waves.level(name))
}

const NAMES: [&str; 6] = ["pa", "qb", "rc", "sd", "te", "zz5999"];

// How many levels there are, and the statuses and levels of those names.
fn told_in_levels(
    alloc: Global,
    archive: &Archive<'_, '_>,
    marks: &Marks,
    waves: &Waves<'_>,
) -> Result<String, AllocError> {
    let mut out = format!(in alloc; "{} levels", waves.depth())?;
    for name in &NAMES {
        put_source(&mut out, archive, marks, waves, name)?;
    }
    Ok(out)
}

// How many levels the sources have whose flag is set, and the statuses and levels of those names.
fn told_flagged(
    rt: &(impl Threads + Sync),
    alloc: Global,
    archive: &Archive<'_, '_>,
    marks: &Marks,
    flags: &[bool],
) -> Result<String, AllocError> {
    let names = archive.names_of(alloc, flags)?;
    match Waves::of(rt, alloc, archive, &names) {
        Ok(waves) => {
            let told = told_in_levels(alloc, archive, marks, &waves);
            drop(waves);
            told
        }
        Err(error) => Err(error),
    }
}

// How many levels the affected sources have, and the statuses and levels of those names.
fn told_marked(
    rt: &(impl Threads + Sync),
    alloc: Global,
    archive: &Archive<'_, '_>,
    marks: &Marks,
) -> Result<String, AllocError> {
    match marks.affected_flags(rt, alloc, archive) {
        Ok(flags) => told_flagged(rt, alloc, archive, marks, flags.as_slice()),
        Err(error) => Err(error),
    }
}

// How many levels the affected sources have by these marks, if there are some, and the statuses
// and levels of those names.
fn told_by(
    rt: &(impl Threads + Sync),
    alloc: Global,
    archive: &Archive<'_, '_>,
    marks: Result<Marks, AllocError>,
) -> Result<String, AllocError> {
    match marks {
        Ok(marks) => {
            let told = told_marked(rt, alloc, archive, &marks);
            drop(marks);
            told
        }
        Err(error) => Err(error),
    }
}

// What the tracker of a text says of the archive.
fn told(
    rt: &(impl Threads + Sync),
    alloc: Global,
    archive: &Archive<'_, '_>,
    text: &str,
) -> Result<String, AllocError> {
    match Tracker::read(alloc, text) {
        Ok(tracker) => {
            let marks = Marks::make(rt, alloc, archive, &tracker, text);
            told_by(rt, alloc, archive, marks)
        }
        Err(_) => String::from_str(alloc, "no tracker"),
    }
}

// A tracker, and what it says of the archive.
const TOLD: [(&str, &str); 3] = [
    (
        LIBFOO2,
        "2 levels, good 2, partial 1, bad cyclic, bad cyclic, - -, - -",
    ),
    (
        "is_affected = true; is_good = .package ~ /^zz/; is_bad = false;",
        "2 levels, unknown 2, unknown 1, unknown cyclic, unknown cyclic, unknown 1, good 1",
    ),
    (
        "is_affected = .package ~ /^zz/; is_good = true; is_bad = true;",
        "1 levels, - -, - -, - -, - -, - -, partial 1",
    ),
];

// Whether the archive of indices whose stanzas were found early is as it should be.
fn is_read(
    rt: &(impl Threads + Abort + Sync),
    alloc: Global,
    packages: IndexText<'_>,
    sources: IndexText<'_>,
) {
    let archs = made(rt, Archs::read(alloc, ARCHS));
    let read = Archive::of_texts(rt, alloc, packages, sources, &archs);
    let archive = made(rt, read);
    is_told(rt, counts(alloc, &archive), "6005 6006 6005", "counts");
    for (text, expected) in &TOLD {
        is_told(rt, told(rt, alloc, &archive, text), expected, text);
    }
    drop(archive);
}

#[test]
fn long_indices_that_come_whole_are_asked_in_threads(rt: HostRuntime) {
    let packages = made(&rt, lengthened(rt.alloc(), PACKAGES, 6000));
    let sources = made(&rt, lengthened(rt.alloc(), SOURCES, 6000));
    let of_packages = IndexText::read(&rt, rt.alloc(), packages.as_str());
    let of_sources = IndexText::read(&rt, rt.alloc(), sources.as_str());
    is_read(&rt, rt.alloc(), of_packages, of_sources);
}

#[test]
fn long_indices_that_come_in_halves_are_asked_in_threads(rt: HostRuntime) {
    let packages = made(&rt, lengthened(rt.alloc(), PACKAGES, 3000));
    let sources = made(&rt, lengthened(rt.alloc(), SOURCES, 3000));
    let rest = made(&rt, rest(rt.alloc()));
    let of_packages = IndexText::of_halves(&rt, rt.alloc(), packages.as_str(), rest.as_str());
    let of_sources = IndexText::of_halves(&rt, rt.alloc(), sources.as_str(), rest.as_str());
    let of_packages = made(&rt, of_packages.ok_or("no halves"));
    let of_sources = made(&rt, of_sources.ok_or("no halves"));
    is_read(&rt, rt.alloc(), of_packages, of_sources);
}
