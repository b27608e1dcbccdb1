//! What a text is cut into, and which numbers and names are read and written.
use std::test::Fail;
use td_text::{
    cut_at, is_arch, is_name, next_line, number, part_at, put_number, put_signed, signed, strip,
};

const CUTS: [(&str, char, Option<(&str, &str)>); 3] = [
    ("foo/amd64", '/', Some(("foo", "amd64"))),
    ("a b c", ' ', Some(("a", "b c"))),
    ("foo", '/', None),
];

const PARTS: [(&str, char, (&str, &str)); 2] = [
    ("3 : libbar-dev", ' ', ("3", " : libbar-dev")),
    ("3", ' ', ("3", "")),
];

const STRIPPED: [(&str, Option<&str>); 2] = [("bp=-5", Some("-5")), ("bp", None)];

#[test]
fn texts_are_cut_at_the_first_mark(rt: HostRuntime) {
    for &(text, mark, cut) in &CUTS {
        assert_eq!(rt; cut_at(text, mark), cut, "{text}");
    }
    for &(text, mark, parts) in &PARTS {
        assert_eq!(rt; part_at(text, mark), parts, "{text}");
    }
    for &(text, rest) in &STRIPPED {
        assert_eq!(rt; strip(text, "bp="), rest, "{text}");
    }
}

const LINES: [(&str, (&str, Option<&str>)); 3] = [
    ("one\n\ntwo", ("one", Some("\ntwo"))),
    ("\ntwo", ("", Some("two"))),
    ("two", ("two", None)),
];

#[test]
fn a_line_ends_at_its_newline(rt: HostRuntime) {
    for &(text, first) in &LINES {
        assert_eq!(rt; next_line(text), first, "{text}");
    }
}

// Texts, the limit, and the number. The limits are those of rebuild numbers (`+b9999`) and of 64
// bits.
const NUMBERS: [(&str, u64, Option<u64>); 14] = [
    ("0", u64::MAX, Some(0)),
    ("7", u64::MAX, Some(7)),
    ("9999", u64::MAX, Some(9999)),
    ("18446744073709551615", u64::MAX, Some(u64::MAX)),
    ("", u64::MAX, None),
    ("+1", u64::MAX, None),
    ("-1", u64::MAX, None),
    ("01", u64::MAX, None),
    ("00", u64::MAX, None),
    ("1 ", u64::MAX, None),
    ("1x", u64::MAX, None),
    ("18446744073709551616", u64::MAX, None),
    ("9999", 9999, Some(9999)),
    ("10000", 9999, None),
];

#[test]
fn a_number_has_no_sign_and_no_leading_zero(rt: HostRuntime) {
    for &(text, most, value) in &NUMBERS {
        assert_eq!(rt; number(text, most), value, "{text}");
    }
}

const SIGNED: [(&str, Option<i16>); 12] = [
    ("0", Some(0)),
    ("-1", Some(-1)),
    ("9999", Some(9999)),
    ("-9999", Some(-9999)),
    ("", None),
    ("-", None),
    ("-0", None),
    ("+1", None),
    ("--1", None),
    ("-01", None),
    ("10000", None),
    ("-10000", None),
];

#[test]
fn a_minus_stands_before_a_number_that_is_not_zero(rt: HostRuntime) {
    for &(text, value) in &SIGNED {
        assert_eq!(rt; signed(text, 9999), value, "{text}");
    }
}

// Debian Policy 5.6.1.
const PACKAGES: [(&str, bool); 14] = [
    ("0ad", true),
    ("g++", true),
    ("libc6", true),
    ("libstdc++6", true),
    ("x11-apps", true),
    ("python3.12", true),
    ("", false),
    ("a", false),
    (".net", false),
    ("-x", false),
    ("+x", false),
    ("Foo", false),
    ("foo_bar", false),
    ("foo bar", false),
];

// The first three from dpkg's table.
const ARCHS: [(&str, bool); 7] = [
    ("amd64", true),
    ("kfreebsd-i386", true),
    ("x32", true),
    ("", false),
    ("AMD64", false),
    ("linux.any", false),
    ("i386 ", false),
];

#[test]
fn packages_and_architectures_have_their_names(rt: HostRuntime) {
    for &(text, is_one) in &PACKAGES {
        assert!(rt; is_name(text) == is_one, "{text}");
    }
    for &(text, is_one) in &ARCHS {
        assert!(rt; is_arch(text) == is_one, "{text}");
    }
}

#[test]
fn numbers_are_written_in_decimal(rt: HostRuntime) -> Result<(), Fail> {
    let mut out = String::new(rt.alloc());
    put_number(&mut out, 0)?;
    out.push_str(" ")?;
    put_number(&mut out, u64::MAX)?;
    out.push_str(" ")?;
    put_signed(&mut out, -9999)?;
    out.push_str(" ")?;
    put_signed(&mut out, 42)?;
    assert_eq!(rt; out.as_str(), "0 18446744073709551615 -9999 42");
    Ok(())
}
