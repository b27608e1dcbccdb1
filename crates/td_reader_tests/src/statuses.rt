//! Statuses over two small archives. Expected by hand, from the rules in `docs/FORMATS.md`.
ghost use Rattle.td_query.specs.Tracking.{IsTracker, tracking};

use crate::checks::{is_told, made};
use std::alloc::{AllocError, Global};
use std::process::Abort;
use std::thread::Threads;
use td_indices::Archive;
use td_query::{Marks, Status, Tracker};
use td_relation::Archs;
use td_rows::Key;

// The archive in examples/archives/waves.
pub const ARCHS: &str = "amd64 linux amd64\n";

pub const PACKAGES: &str = "\
Package: pa-bin
Source: pa
Version: 1
Architecture: amd64
Depends: libfoo2

Package: qb-dev
Source: qb
Version: 1
Architecture: amd64
Depends: libfoo1 (>= 1.0)

Package: qb-bin
Source: qb
Version: 1
Architecture: amd64
Depends: libfoo2

Package: rc-dev
Source: rc
Version: 1
Architecture: amd64
Depends: libfoo1

Package: sd-dev
Source: sd
Version: 1
Architecture: amd64
Depends: libfoo1 | libfoo3

Package: te
Version: 1
Architecture: amd64
Depends: libfoo10
";

pub const SOURCES: &str = "\
Package: pa
Version: 1
Architecture: any
Build-Depends: qb-dev

Package: qb
Version: 1
Architecture: any
Build-Depends: libfoo-dev

Package: rc
Version: 1
Architecture: any
Build-Depends: sd-dev

Package: sd
Version: 1
Architecture: any
Build-Depends: rc-dev

Package: te
Version: 1
Architecture: any
";

// Two architectures: one has a package on each, two has one of `all`, three has a field of its own
// and a row only on the second.
const TWO_ARCHS: &str = "amd64 linux amd64\ni386 linux i386\n";

const TWO_PACKAGES: &str = "\
Package: one-bin
Source: one
Version: 1
Architecture: amd64
Depends: libfoo1

Package: one-bin
Source: one
Version: 1
Architecture: i386
Depends: libfoo2

Package: two-data
Source: two
Version: 1
Architecture: all
Depends: libfoo1
";

const TWO_SOURCES: &str = "\
Package: one
Version: 1
Architecture: any

Package: two
Version: 1
Architecture: any

Package: three
Version: 1
Architecture: i386
Note: ax x x
";

pub const LIBFOO2: &str = r#"title = "libfoo2";
is_affected = .depends ~ "libfoo1" | .depends ~ "libfoo2";
is_good = .depends ~ "libfoo2";
is_bad = .depends ~ "libfoo1";
"#;

/// A row's status as the tracker says.
fn tracked(
    alloc: Global,
    archive: &Archive<'_, '_>,
    tracker: &Tracker<'_>,
    source: &str,
    arch: &str,
) -> Result<Option<Status>, AllocError> {
    match Key::new(alloc, source, arch) {
        Ok(key) => tracker.status(alloc, archive, &key),
        Err(_) => Err(AllocError),
    }
}

/// A row's status as the marks say.
fn marked(archive: &Archive<'_, '_>, marks: &Marks, source: &str, arch: &str) -> Option<Status> {
    let number = archive.source_number(source).unwrap_or(usize::MAX);
    let place = archive.archs().index(arch).unwrap_or(usize::MAX);
    marks.status(archive, number, place)
}

pub fn status_name(status: Option<Status>) -> &'static str {
    match status {
        Some(status) => status.name(),
        None => "-",
    }
}

/// Puts down a row's status after a space, as the tracker and as its marks say, if they say the
/// same.
fn put_status(
    out: &mut String,
    archive: &Archive<'_, '_>,
    tracker: &Tracker<'_>,
    marks: &Marks,
    row: &str,
) -> Result<(), AllocError> {
    let (source, arch) = row.split_once('/').unwrap_or((row, ""));
    let status = tracked(*out.allocator(), archive, tracker, source, arch)?;
    out.push_str(" ")?;
    if status == marked(archive, marks, source, arch) {
        out.push_str(status_name(status))
    } else {
        out.push_str("two statuses")
    }
}

/// The statuses of these rows, each after a space.
fn statuses_marked(
    alloc: Global,
    archive: &Archive<'_, '_>,
    tracker: &Tracker<'_>,
    marks: &Marks,
    rows: &str,
) -> Result<String, AllocError> {
    let mut out = String::new(alloc);
    for row in rows.split(' ') {
        put_status(&mut out, archive, tracker, marks, row)?;
    }
    Ok(out)
}

/// The statuses of these rows by the tracker of a text.
fn statuses_by(
    rt: &(impl Threads + Sync),
    alloc: Global,
    archive: &Archive<'_, '_>,
    tracker: &Tracker<'_>,
    text: &str,
    rows: &str,
) -> Result<String, AllocError>
    requires { IsTracker text.now (tracking tracker.now) }
{
    match Marks::make(rt, alloc, archive, tracker, text) {
        Ok(marks) => {
            let told = statuses_marked(alloc, archive, tracker, &marks, rows);
            drop(marks);
            told
        }
        Err(error) => Err(error),
    }
}

/// The statuses of these rows by what a text is read as.
fn statuses(
    rt: &(impl Threads + Sync),
    alloc: Global,
    archive: &Archive<'_, '_>,
    text: &str,
    rows: &str,
) -> Result<String, AllocError> {
    match Tracker::read(alloc, text) {
        Ok(tracker) => {
            let told = statuses_by(rt, alloc, archive, &tracker, text, rows);
            drop(tracker);
            told
        }
        Err(_) => String::from_str(alloc, "no tracker"),
    }
}

/// A tracker's text, rows, and the statuses that they have.
type Asked = (&'static str, &'static str, &'static str);

/// Asks each tracker for the statuses of its rows over the archive of these texts.
fn are_graded<'x>(
    rt: &(impl Threads + Abort + Sync),
    alloc: Global,
    table: &'x str,
    packages: &'x str,
    sources: &'x str,
    asked: &[Asked],
) {
    let archs = made(rt, Archs::read(alloc, table));
    let archive = made(rt, Archive::read(rt, alloc, packages, sources, &archs));
    for (tracker, rows, expected) in asked {
        is_told(
            rt,
            statuses(rt, alloc, &archive, tracker, rows),
            expected,
            rows,
        );
    }
    drop(archive);
}

const TRANSITION: [Asked; 1] = [(
    LIBFOO2,
    "pa/amd64 qb/amd64 rc/amd64 sd/amd64 te/amd64 te/i386 no/amd64",
    " good partial bad bad - - -",
)];

#[test]
fn the_rows_of_a_transition_have_their_statuses(rt: HostRuntime) {
    are_graded(&rt, rt.alloc(), ARCHS, PACKAGES, SOURCES, &TRANSITION);
}

const TWO_ROWS: &str = "one/amd64 one/i386 two/amd64 two/i386 three/amd64 three/i386";

const OF_ALL: [Asked; 2] = [
    (LIBFOO2, TWO_ROWS, " bad good bad bad - -"),
    (
        "is_affected = true; is_good = false; is_bad = false;",
        TWO_ROWS,
        " unknown unknown unknown unknown - unknown",
    ),
];

#[test]
fn a_row_has_its_own_architecture_and_all(rt: HostRuntime) {
    let alloc = rt.alloc();
    are_graded(&rt, alloc, TWO_ARCHS, TWO_PACKAGES, TWO_SOURCES, &OF_ALL);
}

/// A query, and after ` →` the sources of the second archive that it affects.
const QUERIES: &str = r##"
.note ~ "x x" → three
.NoTe ~ "x x" → three
.note ~ "ax" → three
.note ~ "a" →
.note ~ "x x x" →
.note ~ "" →
.depends ~ "libfoo" →
.depends ~ /libfoo/ → one two
.depends ~ /^LIBFOO/ →
.Depends ~ /^libfoo1$/ → one two
.depends ~ "libfoo1" & .depends ~ "libfoo2" →
.depends ~ "libfoo2" | .note ~ /^a/ → one three
.depends ~ "libfoo2" | true & false → one
(.depends ~ "libfoo2" | true) & false →
.recommends ~ /.*/ →
!.recommends ~ /.*/ & .package ~ "two" → two
.package ~ /o$/ → two
.architecture ~ "all" → two
"##;

/// The names, each after a space.
fn spaced(alloc: Global, names: &[&str]) -> Result<String, AllocError> {
    let mut out = String::new(alloc);
    for name in names {
        out.push_str(" ")?;
        out.push_str(name)?;
    }
    Ok(out)
}

/// The sources that are marked as affected.
fn affected_marked(
    rt: &(impl Threads + Sync),
    alloc: Global,
    archive: &Archive<'_, '_>,
    marks: &Marks,
) -> Result<String, AllocError> {
    match marks.affected_sources(rt, alloc, archive) {
        Ok(names) => spaced(alloc, names.as_slice()),
        Err(error) => Err(error),
    }
}

/// The sources that the tracker of a text affects.
fn affected_by(
    rt: &(impl Threads + Sync),
    alloc: Global,
    archive: &Archive<'_, '_>,
    tracker: &Tracker<'_>,
    text: &str,
) -> Result<String, AllocError>
    requires { IsTracker text.now (tracking tracker.now) }
{
    match Marks::make(rt, alloc, archive, tracker, text) {
        Ok(marks) => {
            let told = affected_marked(rt, alloc, archive, &marks);
            drop(marks);
            told
        }
        Err(error) => Err(error),
    }
}

/// The sources that are affected by what a text is read as.
fn affected(
    rt: &(impl Threads + Sync),
    alloc: Global,
    archive: &Archive<'_, '_>,
    text: &str,
) -> Result<String, AllocError> {
    match Tracker::read(alloc, text) {
        Ok(tracker) => {
            let told = affected_by(rt, alloc, archive, &tracker, text);
            drop(tracker);
            told
        }
        Err(_) => String::from_str(alloc, "no tracker"),
    }
}

fn is_affecting(
    rt: &(impl Threads + Abort + Sync),
    alloc: Global,
    archive: &Archive<'_, '_>,
    query: &str,
    expected: &str,
) {
    let text = format!(in alloc; "is_affected = {query}; is_good = true; is_bad = true;");
    let tracker = made(rt, text);
    let told = affected(rt, alloc, archive, tracker.as_str());
    is_told(rt, told, expected, query);
}

fn are_affecting(rt: &(impl Threads + Abort + Sync), alloc: Global, archive: &Archive<'_, '_>) {
    for row in QUERIES.split('\n') {
        if let Some((query, expected)) = row.split_once(" →") {
            is_affecting(rt, alloc, archive, query, expected);
        }
    }
}

#[test]
fn queries_affect_the_sources_that_they_should(rt: HostRuntime) {
    let archs = made(&rt, Archs::read(rt.alloc(), TWO_ARCHS));
    let read = Archive::read(&rt, rt.alloc(), TWO_PACKAGES, TWO_SOURCES, &archs);
    let archive = made(&rt, read);
    are_affecting(&rt, rt.alloc(), &archive);
    drop(archive);
}
