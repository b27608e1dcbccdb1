//! Control files that are read, or refused at a line. Expected by hand, from Policy 5.1.
use crate::checks::{holds, is_same, is_told, made};
use std::alloc::{AllocError, Global};
use std::process::Abort;
use td_stanza::{Stanza, StanzaFault, StanzaList, stanzas};

fn put_fields(out: &mut String, stanza: &Stanza<'_, '_>) -> Result<(), AllocError> {
    for place in 0..stanza.len() {
        if let Some((name, value)) = stanza.field(place) {
            write!(out, "{name}={value}|")?;
        }
    }
    out.push_str("\n")
}

fn told(alloc: Global, list: &StanzaList<'_>) -> Result<String, AllocError> {
    let mut out = String::new(alloc);
    for number in 0..list.len() {
        if let Some(stanza) = list.stanza(number) {
            put_fields(&mut out, &stanza)?;
        }
    }
    Ok(out)
}

/// The fields of all stanzas, a newline after each stanza.
fn shown(alloc: Global, text: &str) -> Result<String, AllocError> {
    match stanzas(alloc, text) {
        Ok(list) => told(alloc, &list),
        Err(_) => String::from_str(alloc, "refused"),
    }
}

fn fault_of(alloc: Global, text: &str) -> Option<StanzaFault> {
    stanzas(alloc, text).err()
}

/// Whether the stanza has the field with this value.
fn has(stanza: &Stanza<'_, '_>, name: &str, value: &str) -> bool {
    match stanza.get(name) {
        Some(found) => found == value,
        None => false,
    }
}

/// Whether this is the stanza's first field.
fn begins_with(stanza: &Stanza<'_, '_>, name: &str, value: &str) -> bool {
    match stanza.field(0) {
        Some((first, found)) => first == name && found == value,
        None => false,
    }
}

fn is_foo(first: &Stanza<'_, '_>) -> bool {
    first.len() == 2
        && !first.is_empty()
        && has(first, "package", "foo")
        && has(first, "DEPENDS", "\n libc6,\n libfoo1")
        && begins_with(first, "Package", "foo")
        && first.get("Version").is_none()
        && first.field(2).is_none()
}

fn begins_with_foo(list: &StanzaList<'_>) -> bool {
    match list.stanza(0) {
        Some(first) => {
            is_foo(&first) && list.len() == 2 && !list.is_empty() && list.stanza(2).is_none()
        }
        None => false,
    }
}

// Two stanzas, the second without a newline at its end.
#[test]
fn a_value_keeps_the_newlines_inside_it(rt: HostRuntime) {
    let text = "Package: foo \nDepends:\n libc6,\n libfoo1\n \nPackage: bar";
    let list = made(&rt, stanzas(rt.alloc(), text));
    holds(&rt, begins_with_foo(&list), text);
    drop(list);
    let wanted = "Package=foo|Depends=\n libc6,\n libfoo1|\nPackage=bar|\n";
    is_told(&rt, shown(rt.alloc(), text), wanted, text);
}

/// Whether a text is read, and has no stanza.
fn is_without(alloc: Global, text: &str) -> bool {
    match stanzas(alloc, text) {
        Ok(list) => list.is_empty(),
        Err(_) => false,
    }
}

const SEPARATORS: [&str; 5] = ["", "\n", "\n\n", " \n\t\n", "\t \t"];

#[test]
fn a_text_of_separators_has_no_stanza(rt: HostRuntime) {
    for text in &SEPARATORS {
        holds(&rt, is_without(rt.alloc(), text), text);
    }
}

/// A text, and its first fault.
const FAULTS: [(&str, StanzaFault); 13] = [
    (" x", StanzaFault::ContinuationFirst(1)),
    ("a: 1\n\t\n x\n", StanzaFault::ContinuationFirst(3)),
    ("Package: a1\npackage: b2", StanzaFault::Duplicate(2)),
    ("a: 1\n b\nA:\n", StanzaFault::Duplicate(3)),
    ("Package", StanzaFault::NoColon(1)),
    ("Package\n foo: bar\n", StanzaFault::NoColon(1)),
    ("# c", StanzaFault::BadName(1)),
    ("#c: d", StanzaFault::BadName(1)),
    ("a: 1\n\n-b: 2", StanzaFault::BadName(3)),
    (": no name\nPackage", StanzaFault::BadName(1)),
    ("Pack age: a", StanzaFault::BadName(1)),
    ("Paket\u{e9}: a", StanzaFault::BadName(1)),
    ("two words", StanzaFault::BadName(1)),
];

#[test]
fn the_first_line_with_a_fault_decides(rt: HostRuntime) {
    for (text, fault) in &FAULTS {
        is_same(&rt, &fault_of(rt.alloc(), text), &Some(*fault), text);
    }
}

/// Fields with names of one byte: ten digits and the capitals, W to Z after 32 others.
const MANY: &str = "0:\n1:\n2:\n3:\n4:\n5:\n6:\n7:\n8:\n9:\n\
A:\nB:\nC:\nD:\nE:\nF:\nG:\nH:\nI:\nJ:\nK:\nL:\nM:\n\
N:\nO:\nP:\nQ:\nR:\nS:\nT:\nU:\nV:\nW:\nX:\nY:\nZ:\n";

/// The many fields with a line after them.
fn many_and(alloc: Global, line: &str) -> Result<String, AllocError> {
    let mut text = String::from_str(alloc, MANY)?;
    text.push_str(line)?;
    Ok(text)
}

/// The number of stanzas, and of the fields of the last one.
fn counts(alloc: Global, list: &StanzaList<'_>) -> Result<String, AllocError> {
    let fields = match list.stanza(list.len().saturating_sub(1)) {
        Some(last) => last.len(),
        None => 0,
    };
    format!(in alloc; "{} {fields}", list.len())
}

/// What is read of the many fields with a line after them: the counts, or the fault.
fn counted(alloc: Global, line: &str) -> Result<String, AllocError> {
    let text = many_and(alloc, line)?;
    match stanzas(alloc, text.as_str()) {
        Ok(list) => counts(alloc, &list),
        Err(fault) => format!(in alloc; "{fault:?}"),
    }
}

/// A line after the many fields, and what is read with it.
const BEHIND_MANY: [(&str, &str); 8] = [
    ("9:", "Duplicate(37)"),
    ("a:", "Duplicate(37)"),
    ("v:", "Duplicate(37)"),
    ("W:", "Duplicate(37)"),
    ("w:", "Duplicate(37)"),
    ("z: z", "Duplicate(37)"),
    ("zz:", "1 37"),
    ("\nz:", "2 1"),
];

// Debian Policy 5.1: a stanza has a name once, in whatever case.
#[test]
fn a_name_comes_once_among_many_fields(rt: HostRuntime) {
    for (line, read) in &BEHIND_MANY {
        is_told(&rt, counted(rt.alloc(), line), read, line);
    }
}

// A line of only a dot, a tab, a colon where a name would stand, a carriage return.
#[test]
fn a_continuation_has_any_text(rt: HostRuntime) {
    let text = "Description: short\n long\n .\n\ttab: here\nTag:a\t\r\n  \n\nA:\n";
    let wanted = "Description=short\n long\n .\n\ttab: here|Tag=a\t\r|\nA=|\n";
    is_told(&rt, shown(rt.alloc(), text), wanted, text);
}

/// A stanza of sid's Packages.
const PACKAGES: &str = "\
Package: 0ad-data
Source: 0ad
Version: 0.27.0-1
Installed-Size: 3218682
Maintainer: Debian Games Team <pkg-games-devel@lists.alioth.debian.org>
Architecture: all
Suggests: 0ad
Description: Real-time strategy game of ancient warfare (data files)
Tag: role::app-data
Section: games
Priority: optional

";

/// A stanza of sid's Sources, shortened.
const SOURCES: &str = "\
Package: 0ad
Binary: 0ad, 0ad-data
Version: 0.27.0-1
Architecture: amd64 arm64 all
Format: 3.0 (quilt)
Files:
 34bbd1a1 2391 0ad_0.27.0-1.dsc
 4ae0c0ff 75656312 0ad_0.27.0.orig.tar.xz
Package-List:
 0ad deb games optional arch=amd64,arm64
 0ad-data deb games optional arch=all
Directory: pool/main/0/0ad
";

/// A field's name, and its value.
type Held = (&'static str, &'static str);

const OF_PACKAGES: [Held; 2] = [("Source", "0ad"), ("Version", "0.27.0-1")];

const OF_SOURCES: [Held; 2] = [
    (
        "files",
        "\n 34bbd1a1 2391 0ad_0.27.0-1.dsc\n 4ae0c0ff 75656312 0ad_0.27.0.orig.tar.xz",
    ),
    ("Directory", "pool/main/0/0ad"),
];

/// Whether the stanza has this many fields, these among them.
fn has_all(stanza: &Stanza<'_, '_>, count: usize, fields: &[Held]) -> bool {
    for (name, value) in fields {
        if !has(stanza, name, value) {
            return false;
        }
    }
    stanza.len() == count
}

/// Whether the first stanza has this many fields, these among them.
fn first_has_all(list: &StanzaList<'_>, count: usize, fields: &[Held]) -> bool {
    match list.stanza(0) {
        Some(first) => has_all(&first, count, fields),
        None => false,
    }
}

fn are_held(rt: &impl Abort, alloc: Global, text: &str, count: usize, fields: &[Held]) {
    let list = made(rt, stanzas(alloc, text));
    holds(rt, first_has_all(&list, count, fields), text);
}

// From Debian's own indices (sid).
#[test]
fn stanzas_of_the_archive_are_read(rt: HostRuntime) {
    are_held(&rt, rt.alloc(), PACKAGES, 11, &OF_PACKAGES);
    are_held(&rt, rt.alloc(), SOURCES, 8, &OF_SOURCES);
}
