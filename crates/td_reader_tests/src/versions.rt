//! Versions that are read, ordered and rebuilt.
use crate::checks::{holds, is_same, is_text, is_told, made};
use std::alloc::{AllocError, Global};
use std::cmp::Ordering;
use std::process::Abort;
use td_version::{
    MAX_EPOCH, MAX_REBUILD, Version, VersionFault, base_of, cmp_version, is_same_version,
    split_rebuild, write_rebuild,
};

/// Pairs whose order `dpkg --compare-versions` gave. `tools/compare/ask-dpkg-versions` asks again.
const ORDERED: &str = "\
# worked examples
1.0~rc1 < 1.0
1.0 = 1.0-0
1.0 < 1.0+b1
1.0+b1 < 1:0.1
1.0000000000000000000000000000000000000009 < 1.10
1.9999999999999999999999999999999999999999 > 1.999999999999999999999999999999999999999
# tildes, the end, letters, others
1~~ < 1~~a
1~~a < 1~
1~ < 1
1 < 1a
1a < 1+
1+1-0 < 1-1-0
1-1-0 < 1.1-0
1+ < 1.
1A < 1a
1Z < 1a
1z < 1+
1.0~ < 1.0
1.0~beta1~svn1245 < 1.0~beta1
1.0~beta1 < 1.0
1.0a < 1.0+
1.0a < 1.0b
1.0-1 < 1.0-1a
1.0-1~bpo12+1 < 1.0-1
1.0-1 < 1.0-1+deb12u1
1~1 < 1
1a~ < 1a
1~a < 1~b
# numbers, and zeros in front
1.2 < 1.10
1.09 = 1.9
1.0 = 1.00
1. = 1.0
1.a = 1.a0
1.a1 > 1.a
0 = 000
1a1 < 1a02
1.18446744073709551616 > 1.18446744073709551615
1.18446744073709551617 > 1.1
1.340282366920938463463374607431768211457 > 1.1
20240101 < 20240102
1.0.1 > 1.0
1.0. = 1.0.0
# epochs
0:1.0 = 1.0
007:1 = 7:1
2:1.0 > 1:9.9
10:1 > 9:1
2147483647:1 > 99:9
1:2:3 < 1:2:4
# revisions
1.0-0 = 1.0-00
1.0-1 < 1.0-1.1
1.0-1-2 > 1.0-1
1.0-1-2 < 1.0-2-1
1.0-~ < 1.0
1.0-9 < 1.0-10
1.0-1 < 1.0.0-1
# rebuilds
1.2-3 < 1.2-3+b1
1.2-3+b9 < 1.2-3+b10
1.2-3+b1 < 1.2-3.1
1.2-3+b1 < 1.2-3+nmu1
";

fn sign(order: Ordering) -> &'static str {
    match order {
        Ordering::Less => "<",
        Ordering::Equal => "=",
        Ordering::Greater => ">",
    }
}

/// How two versions are ordered.
fn order(a: &str, b: &str) -> &'static str {
    let Ok(a) = Version::read(a) else {
        return "the first isn't read";
    };
    match Version::read(b) {
        Ok(b) => sign(cmp_version(&a, &b)),
        Err(_) => "the second isn't read",
    }
}

fn turned(order: &str) -> &'static str {
    match order {
        "<" => ">",
        ">" => "<",
        _ => "=",
    }
}

/// Whether these versions are ordered so, either way round.
fn are_ordered(a: &str, expected: &str, b: &str) -> bool {
    order(a, b) == expected && order(b, a) == turned(expected)
}

/// Whether the row's versions are ordered as it says.
fn is_ordered(row: &str) -> bool {
    let Some((a, rest)) = row.split_once(' ') else {
        return false;
    };
    match rest.split_once(' ') {
        Some((expected, b)) => are_ordered(a, expected, b),
        None => false,
    }
}

#[test]
fn versions_are_ordered_as_dpkg_orders_them(rt: HostRuntime) {
    for row in ORDERED.lines() {
        holds(&rt, row.starts_with('#') || is_ordered(row), row);
    }
}

/// Whether two versions are the same in order.
fn sameness(a: &str, b: &str) -> &'static str {
    let Ok(a) = Version::read(a) else {
        return "the first isn't read";
    };
    match Version::read(b) {
        Ok(b) if is_same_version(&a, &b) => "the same",
        Ok(_) => "another",
        Err(_) => "the second isn't read",
    }
}

#[test]
fn equal_order_is_not_equal_text(rt: HostRuntime) {
    is_text(&rt, sameness("1.0", "1.0-0"), "the same", "1.0-0");
    is_text(&rt, sameness("1.0", "1.0+b1"), "another", "1.0+b1");
}

/// A version's epoch, its upstream part and its revision.
type Parts<'a> = (u32, &'a str, Option<&'a str>);

fn is_read_as(text: &str, (epoch, upstream, revision): &Parts<'_>) -> bool {
    match Version::read(text) {
        Ok(version) => version.epoch == *epoch && has_rest(&version, upstream, *revision),
        Err(_) => false,
    }
}

fn has_rest(version: &Version<'_>, upstream: &str, revision: Option<&str>) -> bool {
    version.upstream == upstream && version.revision == revision
}

// The forms of deb-version(7).
const FORMS: [(&str, Parts<'static>); 6] = [
    ("1.2-3", (0, "1.2", Some("3"))),
    ("1:1.2-3", (1, "1.2", Some("3"))),
    ("1.2", (0, "1.2", None)),
    ("1.2-rc1-3", (0, "1.2-rc1", Some("3"))),
    ("00:1:2-3", (0, "1:2", Some("3"))),
    ("2147483647:1~a+B.", (MAX_EPOCH, "1~a+B.", None)),
];

#[test]
fn a_version_has_an_epoch_an_upstream_part_and_a_revision(rt: HostRuntime) {
    for (text, parts) in &FORMS {
        holds(&rt, is_read_as(text, parts), text);
    }
}

/// A text, and what is wrong with it.
const FAULTS: [(&str, VersionFault); 25] = [
    ("", VersionFault::Empty),
    ("-", VersionFault::Empty),
    ("-1", VersionFault::Empty),
    ("1.0-", VersionFault::Empty),
    ("1:", VersionFault::Empty),
    ("1:-1", VersionFault::Empty),
    ("1.0--", VersionFault::Empty),
    (":", VersionFault::BadEpoch),
    (":1", VersionFault::BadEpoch),
    ("a:1", VersionFault::BadEpoch),
    ("+1:1", VersionFault::BadEpoch),
    ("-1:1", VersionFault::BadEpoch),
    ("1.0-1:2", VersionFault::BadEpoch),
    ("2147483648:1", VersionFault::BadEpoch),
    ("_:_", VersionFault::BadEpoch),
    ("9_:", VersionFault::BadEpoch),
    ("1_0", VersionFault::BadCharacter(1)),
    ("1_0-", VersionFault::BadCharacter(1)),
    ("_-", VersionFault::BadCharacter(0)),
    ("1:2_", VersionFault::BadCharacter(3)),
    ("1:2-3:4", VersionFault::BadCharacter(5)),
    ("1.0-1_", VersionFault::BadCharacter(5)),
    ("1.0-a_-", VersionFault::BadCharacter(5)),
    ("1 ", VersionFault::BadCharacter(1)),
    ("1.é", VersionFault::BadCharacter(2)),
];

// Policy 5.6.12 has the forms; that the first fault from the left is named is this project's own.
#[test]
fn the_first_fault_from_the_left_is_named(rt: HostRuntime) {
    for (text, fault) in &FAULTS {
        is_same(&rt, &Version::read(text).err(), &Some(*fault), text);
    }
}

/// A version, what stands before its rebuild suffix, and the suffix's number.
const SUFFIXED: [(&str, &str, u16); 4] = [
    ("1.2-3+b4", "1.2-3", 4),
    ("1.2-3+b9999", "1.2-3", MAX_REBUILD),
    ("1.2+b1+b2", "1.2+b1", 2),
    ("1.2", "1.2", 0),
];

/// Texts without a rebuild suffix.
const UNSUFFIXED: [&str; 9] = [
    "",
    "1.0+b0",
    "1.0+b01",
    "1.0+b10000",
    "1.0+b",
    "1.0+b1a",
    "1.0b1",
    "+b1",
    "1.0+B1",
];

/// The rebuild's version; nothing where the number is too great.
fn rebuilt(alloc: Global, base: &str, number: u16) -> Result<String, AllocError> {
    if number > MAX_REBUILD {
        return Ok(String::new(alloc));
    }
    write_rebuild(alloc, base, number)
}

/// Whether a text is split into these.
fn is_split(text: &str, base: &str, number: u16) -> bool {
    let (front, suffix) = split_rebuild(text);
    front == base && suffix == number
}

fn are_whole(rt: &impl Abort) {
    for text in &UNSUFFIXED {
        holds(rt, is_split(text, text, 0), text);
    }
}

// Debian Policy has no word on the number's form; no leading zeros and at most 9999 are this
// project's own.
#[test]
fn a_rebuild_suffix_is_split_off_and_written(rt: HostRuntime) {
    for (text, base, number) in &SUFFIXED {
        holds(&rt, is_split(text, base, *number), text);
        is_told(&rt, rebuilt(rt.alloc(), base, *number), text, base);
    }
    are_whole(&rt);
}

/// The upstream part and the revision of a version's base.
type Base<'a> = (&'a str, Option<&'a str>);

fn has_base(text: &str, (upstream, revision): &Base<'_>) -> bool {
    match Version::read(text) {
        Ok(version) => has_rest(&base_of(&version), upstream, *revision),
        Err(_) => false,
    }
}

// The bases are as `split_rebuild` has them, which leaves `+b1` whole; nothing of `1.0-+b1` is left
// after the hyphen.
const BASES: [(&str, Base<'static>); 6] = [
    ("1:1.2-3+b4", ("1.2", Some("3"))),
    ("1.2+b1+b2", ("1.2+b1", None)),
    ("1.0+b0", ("1.0+b0", None)),
    ("+b1", ("+b1", None)),
    ("1:+b1", ("", None)),
    ("1.0-+b1", ("1.0", Some(""))),
];

#[test]
fn a_version_has_a_base(rt: HostRuntime) {
    for (text, base) in &BASES {
        holds(&rt, has_base(text, base), text);
    }
}

/// A text's front, and what follows it this many times.
type Repeated = (&'static str, &'static str, u32);

fn repeated(alloc: Global, (front, unit, count): &Repeated) -> Result<String, AllocError> {
    let mut text = String::from_str(alloc, front)?;
    for _ in 0..*count {
        text.push_str(unit)?;
    }
    Ok(text)
}

fn are_ordered_repeated(
    rt: &impl Abort,
    alloc: Global,
    a: &Repeated,
    expected: &str,
    b: &Repeated,
) {
    let a = made(rt, repeated(alloc, a));
    let b = made(rt, repeated(alloc, b));
    is_text(rt, order(a.as_str(), b.as_str()), expected, expected);
}

const LONG: [(Repeated, &str, Repeated); 5] = [
    (("1.", "9", 100_000), "<", ("1.", "9", 100_001)),
    (("1.", "9", 100_000), "=", ("1.", "9", 100_000)),
    (("1.", "0", 100_000), "=", ("1.", "", 0)),
    (("1.", "0", 100_000), "<", ("1.1", "", 0)),
    (("1", ".1", 100_001), ">", ("1", ".1", 100_000)),
];

#[test]
fn versions_of_a_hundred_thousand_digits_are_ordered(rt: HostRuntime) {
    for (a, expected, b) in &LONG {
        are_ordered_repeated(&rt, rt.alloc(), a, expected, b);
    }
}
