//! What no clause says: that calls succeed with ample memory, and what the definitions make of
//! texts. Expected by hand from `docs/FORMATS.md`, deb-version(7) and Policy.
mod answers;
mod asked;
mod long;

use crate::checks::{is_same, made};
use crate::statuses;
use answers::are_answered;
use std::alloc::{AllocError, Global};
use std::process::Abort;
use std::thread::Threads;
use td_indices::{Archive, ArchiveFault, IndexField, IndexFile, RelationField, VersionField};
use td_relation::Archs;
use td_stanza::StanzaFault;

// The archive in examples/archives/foobar.
const ARCHS: &str = "amd64 linux amd64\ni386 linux i386\n";

const PACKAGES: &str = "\
Package: libfoo1
Source: foo
Version: 1.2-3
Architecture: amd64

Package: libfoo1
Source: foo (1.2-3)
Version: 1.2-3+b1
Architecture: i386

Package: libbar-dev
Source: bar
Version: 2.0-1
Architecture: amd64

Package: libbar-dev
Source: bar
Version: 2.0-1
Architecture: i386
";

const SOURCES: &str = "\
Package: foo
Version: 1.2-3
Architecture: any
Build-Depends: libbar-dev

Package: bar
Version: 2.0-1
Architecture: any
";

const SMALL: [(&str, &str); 7] = [
    ("counts", "2 4 4"),
    ("binary 0", "libfoo1 1.2-3 foo"),
    ("binary 1", "libfoo1 1.2-3+b1 foo"),
    ("binary 3", "libbar-dev 2.0-1 bar"),
    ("binaries 1 foo", "[1]"),
    ("opening foo/i386", "Some(1)"),
    ("rows", OPENING),
];

const OPENING: &str = "\
bar/amd64 Installed 0 0
bar/i386 Installed 0 0
foo/amd64 Installed 0 0
foo/i386 Installed 0 1
";

#[test]
fn a_small_archive_is_read_and_its_rows_open_with_the_rebuilds_that_are_there(rt: HostRuntime) {
    are_answered(&rt, rt.alloc(), ARCHS, PACKAGES, SOURCES, &SMALL);
}

// `1.0` and `1.0-0` are equal in order (Policy 5.6.12), so the first of them counts; the package
// of `all` is foo's on both architectures, the one of s390x is nowhere here.
const SEVERAL: &str = "\
Package: doc
Source: foo
Version: 1.0
Architecture: all

Package: doc
Version: 1.0-0
Architecture: all

Package: lib
Source: foo
Version: 1.9
Architecture: i386

Package: lib
Source: foo (1.2-3)
Version: 1.10
Architecture: i386

Package: lib
Source: Foo
Version: 1_0
Architecture: s390x
";

const GREATEST: [(&str, &str); 4] = [
    ("binary 0", "doc 1.0 foo"),
    ("binary 1", "lib 1.10 foo"),
    ("binary 2", "none"),
    ("binaries 0 foo", "[0]"),
];

#[test]
fn the_greatest_version_counts_and_the_first_of_equals(rt: HostRuntime) {
    are_answered(&rt, rt.alloc(), ARCHS, SEVERAL, SOURCES, &GREATEST);
}

const TWICE: &str = "\
Package: foo
Version: 1.2-3
Architecture: any

Package: foo
Version: 1.10
Architecture: amd64

Package: old
Version: 1
Architecture: any
Extra-Source-Only: yes
";

const FOUND: [(&str, &str); 2] = [("source old", "none"), ("source foo", "1.10 1")];

#[test]
fn a_source_is_found_by_its_name(rt: HostRuntime) {
    are_answered(&rt, rt.alloc(), ARCHS, "", TWICE, &FOUND);
}

// A virtual package has no version unless the field gives one (Policy 7.5).
const PROVIDING: &str = "\
Package: mawk
Source: foo
Version: 1.2-3+b1
Architecture: amd64
Provides: awk, posix-awk (= 2)
";

const OFFERED: [(&str, &str); 4] = [
    ("meets awk, posix-awk (= 2)", "met"),
    ("meets awk (>= 1)", "not met"),
    ("meets mawk (>= 1.2-3+b2)", "not met"),
    ("rebuilt mawk (= 1.2-3+b2)", "met"),
];

#[test]
fn a_package_and_what_it_provides_are_on_offer(rt: HostRuntime) {
    are_answered(&rt, rt.alloc(), ARCHS, PROVIDING, SOURCES, &OFFERED);
}

// The opening rows of the archive in examples/archives/waves.
const WAVES_OPENING: &str = "\
pa/amd64 Installed 0 0
qb/amd64 Installed 0 0
rc/amd64 Installed 0 0
sd/amd64 Installed 0 0
te/amd64 Installed 0 0
";

const WAVES: [(&str, &str); 2] = [("counts", "5 6 5"), ("rows", WAVES_OPENING)];

#[test]
fn five_sources_have_five_rows(rt: HostRuntime) {
    let (packages, sources) = (statuses::PACKAGES, statuses::SOURCES);
    are_answered(&rt, rt.alloc(), statuses::ARCHS, packages, sources, &WAVES);
}

// Policy 7.5: `(= 2)` gives a version; another restriction, or two alternatives, offer no name.
const ASKED: &str = "\
Package: mawk
Source: foo
Version: 1.2-3
Architecture: amd64
Provides: awk, posix-awk (= 2), old-awk (<< 1), nawk | gawk

Package: libbar-dev
Source: bar
Version: 2.0-1
Architecture: all
";

// What packages offer by name, and what is asked by the number of a source or a package: the first
// source's row on i386 and its field, the second package's source, and what the first source's
// builds ask for.
const NUMBERED: [(&str, &str); 14] = [
    ("names 0", " mawk awk posix-awk"),
    ("names 1", " libbar-dev"),
    ("names 2", ""),
    ("provides 0", "true"),
    ("provides 1", "false"),
    ("packages bar", "[1]"),
    ("archs", "2 2"),
    ("number bar", "Some(1)"),
    ("number qux", "None"),
    ("counts", "2 2 4"),
    ("first", "Some(\"libbar-dev\")"),
    ("second", "true"),
    ("depends", "true"),
    ("depends-arch", "false"),
];

#[test]
fn packages_and_sources_are_asked_by_their_numbers(rt: HostRuntime) {
    are_answered(&rt, rt.alloc(), ARCHS, ASKED, SOURCES, &NUMBERED);
}

fn fault_of(
    rt: &(impl Threads + Abort + Sync),
    alloc: Global,
    packages: &str,
    sources: &str,
) -> Option<ArchiveFault> {
    let archs = made(rt, Archs::read(alloc, ARCHS));
    Archive::read(rt, alloc, packages, sources, &archs).err()
}

// This many stanzas of Packages, and after them one without what it needs.
fn faulty_after(alloc: Global, count: usize) -> Result<String, AllocError> {
    let mut text = String::new(alloc);
    for _ in 0..count {
        text.push_str("Package: lib\nVersion: 1\nArchitecture: all\n\n")?;
    }
    text.push_str("Package: lib\n")?;
    Ok(text)
}

// The 65,537th stanza has its number like any other.
#[test]
fn a_fault_past_sixty_five_thousand_stanzas_is_named(rt: HostRuntime) {
    let text = made(&rt, faulty_after(rt.alloc(), 65536));
    let found = fault_of(&rt, rt.alloc(), text.as_str(), "");
    let fault = ArchiveFault::MissingField(IndexFile::Packages, 65537, IndexField::Version);
    is_same(&rt, &found, &Some(fault), "the last stanza");
}

// This many sources, each for every architecture.
fn sources_of_any(alloc: Global, count: usize) -> Result<String, AllocError> {
    let mut text = String::new(alloc);
    for number in 0..count {
        write!(
            text,
            "Package: s{number}\nVersion: 1\nArchitecture: any\n\n"
        )?;
    }
    Ok(text)
}

fn table_of(alloc: Global, count: usize) -> Result<String, AllocError> {
    let mut text = String::new(alloc);
    for number in 0..count {
        writeln!(text, "arch{number} linux cpu{number}")?;
    }
    Ok(text)
}

fn rows_of(
    rt: &(impl Threads + Abort + Sync),
    alloc: Global,
    table: &str,
    sources: &str,
) -> Result<usize, ArchiveFault> {
    let archs = made(rt, Archs::read(alloc, table));
    match Archive::read(rt, alloc, "", sources, &archs) {
        Ok(archive) => {
            let count = archive.row_count();
            drop(archive);
            Ok(count)
        }
        Err(fault) => Err(fault),
    }
}

const MOST_ROWS: [(usize, Result<usize, ArchiveFault>); 2] = [
    (32768, Ok(1048576)),
    (32769, Err(ArchiveFault::TooManyRows)),
];

// 32,768 sources on 32 architectures have the 1,048,576 rows that a desk may have.
#[test]
fn one_row_too_many_is_too_many_rows(rt: HostRuntime) {
    let table = made(&rt, table_of(rt.alloc(), 32));
    for (count, expected) in &MOST_ROWS {
        let sources = made(&rt, sources_of_any(rt.alloc(), *count));
        let found = rows_of(&rt, rt.alloc(), table.as_str(), sources.as_str());
        is_same(&rt, &found, expected, "rows of many sources");
    }
}

const LIB: &str = "Package: lib\nArchitecture: i386\nVersion: 1\n";

/// Packages, Sources, and their first fault.
const FAULTS: [(&str, &str, ArchiveFault); 7] = [
    (
        "x",
        "y",
        ArchiveFault::Stanza(IndexFile::Packages, StanzaFault::NoColon(1)),
    ),
    (
        LIB,
        "y",
        ArchiveFault::Stanza(IndexFile::Sources, StanzaFault::NoColon(1)),
    ),
    (
        "Package: L\nVersion: 1\n",
        "",
        ArchiveFault::MissingField(IndexFile::Packages, 1, IndexField::Package),
    ),
    (
        "Package: lib\nVersion: 1_0\nArchitecture: i386\nSource: F (1)\n",
        "",
        ArchiveFault::MissingField(IndexFile::Packages, 1, IndexField::Source),
    ),
    (
        "Package: lib\nVersion: 1\nArchitecture: i386\nSource: foo (1_0)\nDepends: F\n",
        "",
        ArchiveFault::BadVersion(IndexFile::Packages, 1, VersionField::Source),
    ),
    (
        "Package: lib\nVersion: 1\nArchitecture: all\nPre-Depends: F\n",
        "Package: foo\n",
        ArchiveFault::BadRelation(IndexFile::Packages, 1, RelationField::PreDepends),
    ),
    (
        LIB,
        "Package: foo\nArchitecture: any\n",
        ArchiveFault::MissingField(IndexFile::Sources, 1, IndexField::Version),
    ),
];

// A stanza without what it needs, and which fault is the first one.
#[test]
fn the_first_fault_decides(rt: HostRuntime) {
    for (packages, sources, fault) in &FAULTS {
        let found = fault_of(&rt, rt.alloc(), packages, sources);
        is_same(&rt, &found, &Some(*fault), packages);
    }
}
