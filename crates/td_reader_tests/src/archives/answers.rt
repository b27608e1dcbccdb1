//! Questions to an archive, in words, and what it answers. One function owns the archive; the
//! others have it by reference, so that the proof of a test is short.
use crate::checks::{is_told, made};
use std::alloc::{AllocError, Global};
use std::fmt::Debug;
use std::process::Abort;
use std::thread::Threads;
use td_indices::{Archive, Binary};
use td_relation::Archs;
use td_rows::{Key, read_key, rows_text};
use td_supply::Supply;

fn number(digits: &str) -> usize {
    digits.parse::<usize>().unwrap_or(usize::MAX)
}

pub(super) fn shown(alloc: Global, answer: &impl Debug) -> Result<String, AllocError> {
    format!(in alloc; "{answer:?}")
}

fn spelled(alloc: Global, binary: Option<Binary<'_>>) -> Result<String, AllocError> {
    match binary {
        Some(found) => format!(in alloc; "{} {} {}", found.name, found.version, found.source),
        None => String::from_str(alloc, "none"),
    }
}

pub(super) fn counts(alloc: Global, archive: &Archive<'_, '_>) -> Result<String, AllocError> {
    format!(in alloc;
        "{} {} {}",
        archive.source_count(),
        archive.binary_count(),
        archive.row_count()
    )
}

// The numbers of a source's packages on an architecture, whose place is the first word.
fn binaries(alloc: Global, archive: &Archive<'_, '_>, rest: &str) -> Result<String, AllocError> {
    let (place, source) = rest.split_once(' ').unwrap_or(("", rest));
    match archive.binaries(source, number(place)) {
        Ok(numbers) => shown(alloc, &numbers.as_slice()),
        Err(error) => Err(error),
    }
}

// The version of a source, and the number of its stanza.
fn source(alloc: Global, archive: &Archive<'_, '_>, name: &str) -> Result<String, AllocError> {
    match archive.source(name) {
        Some(found) => format!(in alloc; "{} {}", found.version, found.stanza),
        None => String::from_str(alloc, "none"),
    }
}

// The rebuild number of a row.
fn rebuild(archive: &Archive<'_, '_>, key: &Key) -> Option<u16> {
    Some(archive.opening_row(key)?.number.get())
}

fn opening(alloc: Global, archive: &Archive<'_, '_>, name: &str) -> Result<String, AllocError> {
    let (source, arch) = read_key(name).unwrap_or(("", ""));
    match Key::new(alloc, source, arch) {
        Ok(key) => shown(alloc, &rebuild(archive, &key)),
        Err(_) => Err(AllocError),
    }
}

fn rows(alloc: Global, archive: &Archive<'_, '_>) -> Result<String, AllocError> {
    let rows = archive.opening_rows()?;
    rows_text(alloc, &rows)
}

fn met(alloc: Global, supply: &Supply<'_>, relation: &str) -> Result<String, AllocError> {
    match supply.meets(relation, "amd64") {
        Ok(true) => String::from_str(alloc, "met"),
        Ok(false) => String::from_str(alloc, "not met"),
        Err(error) => Err(error),
    }
}

fn meets(alloc: Global, archive: &Archive<'_, '_>, relation: &str) -> Result<String, AllocError> {
    match archive.supply() {
        Ok(supply) => {
            let told = met(alloc, &supply, relation);
            drop(supply);
            told
        }
        Err(error) => Err(error),
    }
}

fn met_then(alloc: Global, supply: &mut Supply<'_>, relation: &str) -> Result<String, AllocError> {
    match supply.arrive("foo", "amd64", 2) {
        Ok(()) => met(alloc, supply, relation),
        Err(error) => Err(error),
    }
}

// Whether the relation is met once the second rebuild of foo has arrived on amd64.
fn rebuilt(alloc: Global, archive: &Archive<'_, '_>, relation: &str) -> Result<String, AllocError> {
    match archive.supply() {
        Ok(mut supply) => {
            let told = met_then(alloc, &mut supply, relation);
            drop(supply);
            told
        }
        Err(error) => Err(error),
    }
}

// The names that a package offers, each after a space.
fn names(alloc: Global, archive: &Archive<'_, '_>, digits: &str) -> Result<String, AllocError> {
    let mut out = String::new(alloc);
    for name in archive.offered_names(number(digits)) {
        out.push_str(" ")?;
        out.push_str(name)?;
    }
    Ok(out)
}

// Whether the first source has a row on the second architecture, and a field of it.
fn first_source(archive: &Archive<'_, '_>) -> Option<&'static str> {
    if archive.arch_count() < 2 || archive.source_count() == 0 || !archive.has_row(0, 1) {
        return None;
    }
    match archive.stanza_of_source(0).get("build-depends") {
        Some("libbar-dev") => Some("libbar-dev"),
        _ => None,
    }
}

// Whether the second package's stanza says that it is bar's.
fn second_package_is_of_bar(archive: &Archive<'_, '_>) -> bool {
    archive.binary_count() > 1 && archive.stanza_of_binary(1).get("Source") == Some("bar")
}

// Whether every build of the first source asks for something.
fn depends(alloc: Global, archive: &Archive<'_, '_>) -> Result<String, AllocError> {
    if archive.source_count() == 0 {
        return String::from_str(alloc, "no source");
    }
    match archive.build_depends(0) {
        Ok(relation) => shown(alloc, &relation.is_some()),
        Err(error) => Err(error),
    }
}

// Whether the builds of the first source's packages that aren't of `all` ask for something.
fn depends_arch(alloc: Global, archive: &Archive<'_, '_>) -> Result<String, AllocError> {
    if archive.source_count() == 0 {
        return String::from_str(alloc, "no source");
    }
    match archive.build_depends_arch(0) {
        Ok(relation) => shown(alloc, &relation.is_some()),
        Err(error) => Err(error),
    }
}

fn archs(alloc: Global, archive: &Archive<'_, '_>) -> Result<String, AllocError> {
    format!(in alloc; "{} {}", archive.archs().len(), archive.arch_count())
}

fn lookup(
    alloc: Global,
    archive: &Archive<'_, '_>,
    word: &str,
    rest: &str,
) -> Result<String, AllocError> {
    match word {
        "number" => shown(alloc, &archive.source_number(rest)),
        "archs" => archs(alloc, archive),
        "first" => shown(alloc, &first_source(archive)),
        "second" => shown(alloc, &second_package_is_of_bar(archive)),
        "depends" => depends(alloc, archive),
        "depends-arch" => depends_arch(alloc, archive),
        "provides" => shown(alloc, &archive.provides(number(rest)).is_some()),
        _ => shown(alloc, &archive.packages_of(rest)),
    }
}

fn answer(alloc: Global, archive: &Archive<'_, '_>, asked: &str) -> Result<String, AllocError> {
    let (word, rest) = asked.split_once(' ').unwrap_or((asked, ""));
    match word {
        "counts" => counts(alloc, archive),
        "binary" => spelled(alloc, archive.binary(number(rest))),
        "binaries" => binaries(alloc, archive, rest),
        "source" => source(alloc, archive, rest),
        "opening" => opening(alloc, archive, rest),
        "rows" => rows(alloc, archive),
        "meets" => meets(alloc, archive, rest),
        "rebuilt" => rebuilt(alloc, archive, rest),
        "names" => names(alloc, archive, rest),
        _ => lookup(alloc, archive, word, rest),
    }
}

/// Asks the archive of these texts each question, after which comes what is expected.
pub(super) fn are_answered<'x>(
    rt: &(impl Threads + Abort + Sync),
    alloc: Global,
    table: &'x str,
    packages: &'x str,
    sources: &'x str,
    questions: &[(&'static str, &'static str)],
) {
    let archs = made(rt, Archs::read(alloc, table));
    let archive = made(rt, Archive::read(rt, alloc, packages, sources, &archs));
    for (asked, expected) in questions {
        is_told(rt, answer(alloc, &archive, asked), expected, asked);
    }
    drop(archive);
}
