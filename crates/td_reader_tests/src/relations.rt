//! Relations and tables of architectures that are read, and relations that are met.
ghost use Rattle.std.specs.Prelude.{List, [], ◌∷◌, if◌then◌else◌};
ghost use Rattle.std.specs.Str.{bytes_eq};
ghost use Rattle.td_relation.specs.Offers.{offered};

use crate::checks::{holds, is_same, made};
use std::alloc::{AllocError, Global};
use std::process::Abort;
use td_relation::{
    Alternative, Archs, ArchsFault, MAX_ARCHS, Offer, Offering, Offers, Relation, RelationFault,
    Restriction,
};
use td_version::Version;

const TABLE: &str =
    "# name os cpu\namd64 linux amd64\n\ni386 linux i386\nkfreebsd-amd64 kfreebsd amd64";

/// Offers of the worked example: a library and its development files on amd64 and i386, and one for
/// every architecture; each with its version and the place of its architecture. One is without a
/// version.
const OFFERED: [(&str, &str, Option<usize>); 7] = [
    ("libfoo1", "1.2-3", Some(0)),
    ("libfoo1", "1.2-3+b1", Some(1)),
    ("libbar-dev", "2.0-1", Some(0)),
    ("libbar-dev", "2.0-1", Some(1)),
    ("data", "1.0", None),
    ("native", "1.0-0", Some(0)),
    ("virtual", "", Some(0)),
];

fn fill(offers: &mut Offers<'_>) -> Result<(), AllocError> {
    for (name, version, arch) in &OFFERED {
        offers.push(name, Version::read(version).ok(), *arch)?;
    }
    Ok(())
}

fn example(alloc: Global) -> Result<Offers<'static>, AllocError> {
    let mut offers = Offers::new(alloc);
    match fill(&mut offers) {
        Ok(()) => Ok(offers),
        Err(error) => {
            drop(offers);
            Err(error)
        }
    }
}

/// Whether these offers meet the relation on the table's first architecture, and on its second.
fn met_on(relation: &Relation<'_>, offers: &Offers<'_>, archs: &Archs<'_>) -> Option<(bool, bool)> {
    if archs.len() < 2 {
        return None;
    }
    let there = relation.met_by(offers, archs, 0);
    Some((there, relation.met_by(offers, archs, 1)))
}

/// Whether these offers meet the relation of a text on the table's first architecture, and on its
/// second; nothing where the text isn't read.
fn met(alloc: Global, text: &str, offers: &Offers<'_>, archs: &Archs<'_>) -> Option<(bool, bool)> {
    match Relation::read(alloc, text) {
        Ok(relation) => met_on(&relation, offers, archs),
        Err(_) => None,
    }
}

/// A relation, and whether the example's offers meet it on amd64, and on i386.
type Asked<'a> = (&'a str, (bool, bool));

fn are_met(rt: &impl Abort, alloc: Global, asked: &[Asked<'_>]) {
    let archs = made(rt, Archs::read(alloc, TABLE));
    let offers = made(rt, example(alloc));
    for (text, expected) in asked {
        let found = met(alloc, text, &offers, &archs);
        is_same(rt, &found, &Some(*expected), text);
    }
    drop(offers);
}

fn fault_of(alloc: Global, text: &str) -> Option<RelationFault> {
    Relation::read(alloc, text).err()
}

const WORKED: [Asked<'static>; 6] = [
    (
        "libqq-dev [i386], libbar-dev (>= 2) <!nocheck>",
        (true, false),
    ),
    ("libbar-dev <nocheck>", (true, true)),
    ("libbar-dev:any (<< 2)", (false, false)),
    ("libqq-dev | libbar-dev", (true, true)),
    ("libfoo1 (= 1.2-3)", (true, false)),
    ("data (>= 1.0), libbar-dev, ", (true, true)),
];

// The worked example: expected by hand, from Policy 7.1.
#[test]
fn a_build_dependency_is_met_by_what_is_on_offer_there(rt: HostRuntime) {
    are_met(&rt, rt.alloc(), &WORKED);
}

const OPERATORS: [Asked<'static>; 7] = [
    ("native (<< 1.0)", (false, false)),
    ("native (<= 1.0)", (true, false)),
    ("native (= 1.0)", (true, false)),
    ("native (>= 1.0)", (true, false)),
    ("native (>> 1.0)", (false, false)),
    ("native ( << 1.0+b1 )", (true, false)),
    ("native(>>1.0~rc1)", (true, false)),
];

// Policy 7.1: `<<` is strictly earlier; Policy 5.6.12: 1.0 and 1.0-0 are equal. What meets them is
// on offer only on amd64.
#[test]
fn operators_go_by_the_order_of_versions(rt: HostRuntime) {
    are_met(&rt, rt.alloc(), &OPERATORS);
}

const VIRTUAL: [Asked<'static>; 2] = [
    ("virtual", (true, false)),
    ("virtual (>= 0)", (false, false)),
];

// Policy 7.5: a virtual package without a version satisfies no versioned relation.
#[test]
fn an_offer_without_a_version_satisfies_only_no_restriction(rt: HostRuntime) {
    are_met(&rt, rt.alloc(), &VIRTUAL);
}

const INACTIVE: [Asked<'static>; 6] = [
    ("missing [!linux-any]", (true, true)),
    ("missing [any-i386 kfreebsd-any]", (true, false)),
    ("missing [!amd64 !kfreebsd-any]", (true, false)),
    ("missing <!nocheck> <!nodoc>", (false, false)),
    ("missing <!nocheck nodoc>", (true, true)),
    ("missing <cross> <!nodoc>", (false, false)),
];

// Policy 7.1: architecture lists; deb-src-control(5): build profiles.
#[test]
fn inactive_alternatives_ask_nothing(rt: HostRuntime) {
    are_met(&rt, rt.alloc(), &INACTIVE);
}

/// A text, and what is wrong with it.
const FAULTS: [(&str, RelationFault); 21] = [
    (" , ", RelationFault::Empty),
    ("", RelationFault::Empty),
    ("a", RelationFault::BadName),
    ("foo |", RelationFault::BadName),
    ("foo :any", RelationFault::BadName),
    ("foo: any", RelationFault::BadName),
    ("foo bar", RelationFault::BadName),
    ("foo (< 1)", RelationFault::BadOperator),
    ("foo (1)", RelationFault::BadOperator),
    ("foo (>= 1_0)", RelationFault::BadVersion),
    ("foo (>= 1", RelationFault::BadVersion),
    ("foo (>= 1) x", RelationFault::BadArchList),
    ("foo [any-i386 !arm64]", RelationFault::BadArchList),
    ("foo [! i386]", RelationFault::BadArchList),
    ("foo [!a!b]", RelationFault::BadArchList),
    ("foo []", RelationFault::BadArchList),
    ("foo <! a>", RelationFault::BadProfile),
    ("foo <a!b>", RelationFault::BadProfile),
    ("foo <a> x", RelationFault::BadProfile),
    ("foo [i386] x", RelationFault::BadProfile),
    ("foo (< 1), B", RelationFault::BadOperator),
];

const UNFAULTED: [&str; 2] = [
    "foo,,bar,",
    " foo:any(>=1)[ !i386 !hurd-any ]<!a b>\n\t< c >",
];

// The first fault from the left decides, and at one place the first in the table of
// `docs/FORMATS.md`: this project's own.
#[test]
fn the_first_fault_from_the_left_is_named(rt: HostRuntime) {
    for (text, fault) in &FAULTS {
        is_same(&rt, &fault_of(rt.alloc(), text), &Some(*fault), text);
    }
    for text in &UNFAULTED {
        is_same(&rt, &fault_of(rt.alloc(), text), &None, text);
    }
}

/// One offer, and nothing else.
#[derive(Clone, Copy)]
struct Sole<'a> {
    name: &'a str,
    offer: Offer<'a>,
}

impl<'a> Offering for Sole<'a> {
    ghost on_offer = { λ s q. if bytes_eq q s.name.now then offered s.offer ∷ [] else [] };

    fn has(&self, name: &str, place: usize, restriction: &Option<Restriction<'_>>) -> bool {
        name == self.name && self.offer.suits(place, restriction)
    }
}

/// Whether the offer meets the relation of this text on amd64.
fn sole_meets(alloc: Global, text: &str, sole: &Sole<'_>, archs: &Archs<'_>) -> Option<bool> {
    match Relation::read(alloc, text) {
        Ok(relation) => Some(archs.len() > 0 && relation.met_by(sole, archs, 0)),
        Err(_) => None,
    }
}

fn foo() -> Sole<'static> {
    let version = Version::read("1.2").ok();
    let arch = None;
    Sole {
        name: "foo",
        offer: Offer { version, arch },
    }
}

/// A relation, and whether the offer meets it.
const OF_SOLE: [(&str, bool); 2] = [
    ("foo (>= 1) | bar, foo (<< 2)", true),
    ("foo (>= 1), bar", false),
];

// Policy 7.1 and 7.5, as for the offers of the worked example.
#[test]
fn another_type_is_asked_what_it_offers(rt: HostRuntime) {
    let archs = made(&rt, Archs::read(rt.alloc(), TABLE));
    let sole = foo();
    for (text, expected) in &OF_SOLE {
        let is_met = sole_meets(rt.alloc(), text, &sole, &archs);
        is_same(&rt, &is_met, &Some(*expected), text);
    }
}

fn first_is(member: Option<&[Alternative<'_>]>, name: &str) -> bool {
    match member {
        Some(alternatives) => match alternatives.first() {
            Some(first) => first.name == name,
            None => false,
        },
        None => false,
    }
}

fn has_two_members(relation: &Relation<'_>) -> bool {
    let mut members = relation.members();
    members.count() == 2
        && first_is(members.next(), "foo")
        && first_is(members.next(), "baz")
        && members.next().is_none()
}

// Policy 7.1: commas between members, bars between alternatives.
#[test]
fn a_relation_is_gone_through_member_by_member(rt: HostRuntime) {
    let text = "foo (= 1) | bar, , baz";
    let relation = made(&rt, Relation::read(rt.alloc(), text));
    holds(&rt, has_two_members(&relation), text);
}

fn names_its_active(relation: &Relation<'_>, archs: &Archs<'_>) -> bool {
    archs.len() == 3
        && relation.names(archs, 1, "foo")
        && !relation.names(archs, 0, "foo")
        && relation.names(archs, 0, "bar")
        && !relation.names(archs, 0, "baz")
}

#[test]
fn a_relation_names_what_is_active_there(rt: HostRuntime) {
    let text = "foo [i386] | bar, baz <nodoc>";
    let archs = made(&rt, Archs::read(rt.alloc(), TABLE));
    let relation = made(&rt, Relation::read(rt.alloc(), text));
    holds(&rt, names_its_active(&relation, &archs), text);
}

// Policy 11.1.1: architecture wildcards.
fn names_its_own(archs: &Archs<'_>) -> bool {
    archs.len() == 3
        && archs.name(2) == "kfreebsd-amd64"
        && archs.index("i386") == Some(1)
        && archs.index("any").is_none()
        && archs.matches(2, "any-amd64")
        && archs.matches(2, "kfreebsd-any")
        && archs.matches(2, "any")
        && !archs.matches(2, "amd64")
        && !archs.matches(2, "linux-any")
}

#[test]
fn a_table_names_its_architectures_and_their_wildcards(rt: HostRuntime) {
    let archs = made(&rt, Archs::read(rt.alloc(), TABLE));
    let copy = made(&rt, archs.copy());
    drop(archs);
    holds(&rt, names_its_own(&copy), TABLE);
}

/// How many architectures a table has.
fn table_size(alloc: Global, text: &str) -> Result<usize, ArchsFault> {
    match Archs::read(alloc, text) {
        Ok(archs) => Ok(archs.len()),
        Err(fault) => Err(fault),
    }
}

/// A table, and its first faulty line.
const TABLES: [(&str, ArchsFault); 7] = [
    ("a b c\nd  e f", ArchsFault::BadLine(2)),
    ("any linux amd64", ArchsFault::BadLine(1)),
    ("any-x linux amd64", ArchsFault::BadLine(1)),
    ("x-any linux amd64", ArchsFault::BadLine(1)),
    ("-x linux amd64", ArchsFault::BadLine(1)),
    ("x any amd64", ArchsFault::BadLine(1)),
    ("a b c\n# x\na d e", ArchsFault::Twice(3)),
];

// This project's own.
#[test]
fn the_first_faulty_line_of_a_table_is_named(rt: HostRuntime) {
    is_same(&rt, &table_size(rt.alloc(), ""), &Ok(0), "an empty table");
    for (text, fault) in &TABLES {
        is_same(&rt, &table_size(rt.alloc(), text), &Err(*fault), text);
    }
}

/// Lines `NAME linux x`, with this many names.
fn many(alloc: Global, count: usize) -> Result<String, AllocError> {
    let mut text = String::new(alloc);
    for i in 0..count {
        writeln!(text, "a{i} linux x")?;
    }
    Ok(text)
}

/// What is read of a table of this many.
fn size_of_many(alloc: Global, count: usize) -> Result<usize, ArchsFault> {
    match many(alloc, count) {
        Ok(text) => table_size(alloc, text.as_str()),
        Err(_) => Err(ArchsFault::NoMemory),
    }
}

#[test]
fn a_table_has_room_for_its_limit(rt: HostRuntime) {
    let full = size_of_many(rt.alloc(), MAX_ARCHS);
    is_same(&rt, &full, &Ok(32), "a full table");
    let more = size_of_many(rt.alloc(), MAX_ARCHS + 1);
    is_same(&rt, &more, &Err(ArchsFault::TooMany), "one more");
}

fn ten_thousand(alloc: Global) -> Result<String, AllocError> {
    let mut text = String::new(alloc);
    for _ in 0..10_000 {
        text.push_str("libqq-dev (>= 1) | ")?;
    }
    text.push_str("libbar-dev")?;
    Ok(text)
}

#[test]
fn ten_thousand_alternatives_are_read(rt: HostRuntime) {
    let text = made(&rt, ten_thousand(rt.alloc()));
    are_met(&rt, rt.alloc(), &[(text.as_str(), (true, true))]);
}
