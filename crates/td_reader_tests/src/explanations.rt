//! Lines worked by hand: this project's own.
use crate::checks::{is_same, is_told, made};
use std::alloc::{AllocError, Global};
use std::process::Abort;
use td_explain::{
    ArchFlaw, Packing, Place, Stray, arch_flaw, explain, explain_path, explain_relation,
    packing_of, stray_at,
};

/// A place, and the line that explains it.
type Explained = (Place, &'static str);

fn are_explained(rt: &impl Abort, alloc: Global, text: &str, cases: &[Explained]) {
    for (place, line) in cases {
        is_told(rt, explain(alloc, "", *place, "x", text), line, line);
    }
}

#[test]
fn a_line_is_shown_with_its_number(rt: HostRuntime) {
    let text = "Package: qb-bin\nVersion 1\nArchitecture: amd64\n";
    let line = explain(rt.alloc(), "packages: ", Place::Line(2), "a colon", text);
    let wanted = "packages: line 2 has \"Version 1\"; wanted: a colon\n";
    is_told(&rt, line, wanted, text);
}

const STANZAS: [Explained; 3] = [
    (
        Place::Stanza(1),
        "stanza 1, line 2 has \"Package: a\"; wanted: x\n",
    ),
    (
        Place::Stanza(2),
        "stanza 2, line 8 has \"Package: b\"; wanted: x\n",
    ),
    (Place::Stanza(3), "stanza 3; wanted: x\n"),
];

// A stanza begins after separators, whatever their number; the last line of an index is empty.
#[test]
fn a_stanza_is_shown_by_its_first_line(rt: HostRuntime) {
    let text = "\nPackage: a\nDescription: one\n .\n two\n \t\n\nPackage: b\n";
    are_explained(&rt, rt.alloc(), text, &STANZAS);
}

const BYTES: [Explained; 7] = [
    (
        Place::Byte(0),
        "byte 0, line 1, column 1 has \"a = 1;\"; wanted: x\n",
    ),
    (
        Place::Byte(6),
        "byte 6, line 1, column 7 has \"\"; wanted: x\n",
    ),
    (
        Place::Byte(7),
        "byte 7, line 2, column 1 has \"b = é;\"; wanted: x\n",
    ),
    (
        Place::Byte(11),
        "byte 11, line 2, column 5 has \"é;\"; wanted: x\n",
    ),
    (
        Place::Byte(12),
        "byte 12, line 2, column 6 has \"b = é;\"; wanted: x\n",
    ),
    (
        Place::Byte(15),
        "byte 15, line 3, column 1 has \"\"; wanted: x\n",
    ),
    (Place::Byte(16), "byte 16; wanted: x\n"),
];

// The offset of the end is after the last newline.
#[test]
fn a_byte_has_a_line_and_a_column(rt: HostRuntime) {
    are_explained(&rt, rt.alloc(), "a = 1;\nb = é;\n", &BYTES);
}

const UNPRINTABLE: &str = "foo\0\t\u{9b}é\u{7f}\r\n";

const ESCAPED: [Explained; 1] = [(
    Place::Line(1),
    "line 1 has \"foo\\x00\\x09\\x9bé\\x7f\\x0d\"; wanted: x\n",
)];

#[test]
fn one_line_stays_one_line(rt: HostRuntime) {
    are_explained(&rt, rt.alloc(), UNPRINTABLE, &ESCAPED);
    let line = explain(rt.alloc(), "input: ", Place::Whole, "x", UNPRINTABLE);
    is_told(&rt, line, "input: wanted: x\n", "the whole");
}

/// 60 characters of two bytes each.
const SIXTY: &str = "\
éééééééééé\
éééééééééé\
éééééééééé\
éééééééééé\
éééééééééé\
éééééééééé";

/// The sixty characters between these.
fn around(alloc: Global, front: &str, behind: &str) -> Result<String, AllocError> {
    let mut text = String::from_str(alloc, front)?;
    text.push_str(SIXTY)?;
    text.push_str(behind)?;
    Ok(text)
}

/// How a line of the sixty characters and these is shown.
fn shown(alloc: Global, behind: &str) -> Result<String, AllocError> {
    match around(alloc, "", behind) {
        Ok(text) => explain(alloc, "", Place::Line(1), "x", text.as_str()),
        Err(error) => Err(error),
    }
}

/// Whether it is shown as the sixty characters and an end.
fn is_cut(rt: &impl Abort, alloc: Global, behind: &str, end: &str) {
    let wanted = made(rt, around(alloc, "line 1 has \"", end));
    is_told(rt, shown(alloc, behind), wanted.as_str(), behind);
}

// 60 characters are shown, and of more the first 60.
#[test]
fn a_long_line_is_cut(rt: HostRuntime) {
    is_cut(&rt, rt.alloc(), "", "\"; wanted: x\n");
    is_cut(&rt, rt.alloc(), "z", "\"...; wanted: x\n");
}

const BAD_RELATION: &str = "\
Package: a

Package: b
Depends: foo (>= 1),
 bar | baz (> 1), foo (
";

const BAD_SAID: &str = "packages: stanza 2, line 3 has \"Package: b\"; \
depends has \"bar | baz (> 1)\"; wanted: x\n";

// Policy 7.1 has no `>`.
#[test]
fn the_first_relation_that_cannot_be_read_is_shown(rt: HostRuntime) {
    let line = explain_relation(rt.alloc(), "packages: ", 2, "depends", "x", BAD_RELATION);
    is_told(&rt, line, BAD_SAID, "two stanzas");
    let line = explain_relation(rt.alloc(), "", 1, "Depends", "x", BAD_RELATION);
    is_told(
        &rt,
        line,
        "stanza 1, line 1 has \"Package: a\"; wanted: x\n",
        "no such field",
    );
}

#[test]
fn a_path_is_shown_with_what_is_said_of_it(rt: HostRuntime) {
    let line = explain_path(rt.alloc(), "archs: ", "a\tb", "isn't there", "x");
    is_told(
        &rt,
        line,
        "archs: \"a\\x09b\" isn't there; wanted: x\n",
        "a\\tb",
    );
}

/// The first bytes that `gzip`, `xz`, `zstd` and `bzip2` write, and those of an index.
const PACKED: [(&[u8], Option<Packing>); 5] = [
    (&[31, 139, 8, 0], Some(Packing::Gzip)),
    (&[253, 55, 122, 88, 90, 0, 0], Some(Packing::Xz)),
    (&[40, 181, 47, 253, 4], Some(Packing::Zstd)),
    (b"BZh91AY", Some(Packing::Bzip2)),
    (b"Package: a", None),
];

#[test]
fn packed_files_are_known_by_their_first_bytes(rt: HostRuntime) {
    for (bytes, packing) in &PACKED {
        is_same(&rt, &packing_of(bytes), packing, "a file");
    }
}

const FORMS: &str = "a = .b ~ /x/i >= source 'and' \\\"x";

/// What comes at a place of these forms.
const STRAYS: [(usize, Stray); 8] = [
    (0, Stray::Other),
    (12, Stray::AfterSlash),
    (14, Stray::Comparison),
    (17, Stray::Source),
    (24, Stray::Apostrophe),
    (25, Stray::Word),
    (32, Stray::AfterQuote),
    (33, Stray::End),
];

#[test]
fn what_comes_is_known_by_its_front(rt: HostRuntime) {
    for (at, stray) in &STRAYS {
        is_same(&rt, &stray_at(FORMS, *at), stray, FORMS);
    }
}

const LINES: &str = "# one\namd64 linux x86_64\nall linux all\namd64\nAMD linux amd64\na any b\n";

/// What is wrong with the lines of these numbers.
const FLAWS: [(usize, ArchFlaw); 6] = [
    (2, ArchFlaw::Cpu),
    (3, ArchFlaw::Reserved),
    (4, ArchFlaw::Words),
    (5, ArchFlaw::Name),
    (6, ArchFlaw::Os),
    (9, ArchFlaw::Nothing),
];

#[test]
fn the_first_wrong_word_of_a_line_is_named(rt: HostRuntime) {
    for (number, flaw) in &FLAWS {
        is_same(&rt, &arch_flaw(LINES, *number), flaw, LINES);
    }
}
