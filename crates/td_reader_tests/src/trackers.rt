//! What no clause says: that trackers are read with ample memory, and what the definitions make of
//! texts. Expected by hand, from the rules in `docs/FORMATS.md`; places are counted in the text.
use crate::checks::{is_told, made};
use std::alloc::{AllocError, Global};
use std::fmt::Display;
use td_query::{Tracker, TrackerFault};

/// A text, and after `→` its title, or the fault with its place or key.
const TEXTS: &str = r##"
title = "libfoo2"; is_affected = .depends ~ "libfoo1" | .depends ~ "libfoo2"; is_good = .depends ~ "libfoo2"; is_bad = .depends ~ "libfoo1"; → "libfoo2"
is_affected=true;is_good=!(true&false)|false;is_bad=.Build-Depends~/^lib(foo|bar)\/[0-9]+$/; → ""
 → MissingKey is_affected
is_affected = true; is_bad = true; → MissingKey is_good
is_affected = true; is_good = true; Is_bad = true; → MissingKey is_bad
title = "t"; is_affected = .depends ~ /(/; → BadPattern 38
title = "t"; is_affected = .depends ~ /(/; is_good = ; → BadPattern 38
is_good = ; is_affected = .depends ~ /(/; → Syntax 10
other = .depends ~ /(/; note = "(": → Syntax 34
other = .depends ~ /(/; → MissingKey is_affected
is_affected = tru; → Syntax 17
is_affected = falsetto; → Syntax 19
is_affected = truth; → Syntax 17
is_affected = . depends ~ "x"; → Syntax 15
is_affected = .depends ~ x; → Syntax 25
is_affected = .depends ~ "x; → Syntax 28
is_affected = .depends ~ /x\/; → Syntax 30
is_affected = .depends ~ /x\\/; → Syntax 31
is_affected = "true"; → Syntax 14
title = true; → Syntax 8
title = 't'; → Syntax 8
is_affected = true & ; → Syntax 21
is_affected = (true; → Syntax 19
is_affected = true → Syntax 18
is_affected true; → Syntax 12
= true; → Syntax 0
# only a comment → MissingKey is_affected
title = "#1"; is_affected = true; # is_good = true; → MissingKey is_good
title = "a"; is_affected = true; title = "b"; is_good = true; is_bad = false; title = "c"; → "c"
is_affected = true; is_good = .depends ~ /[/; is_bad = true; is_good = true; → BadPattern 41
is_affected = .depends ~ /(?=x)/; → BadPattern 25
is_affected = .depends ~ /x{1000}{1000}{1000}/; → BadPattern 25
is_affected = .depends ~ /a\\//; → MissingKey is_good
title = "perl"; is_affected = .depends ~ /perlapi-5\.(34|36)/; is_good = .depends ~ "perlapi-5.36.0"; is_bad = .depends ~ "perlapi-5.34.0"; → "perl"
title = "ocaml"; is_affected = .build-depends ~ /ocaml-nox|dh-ocaml/ & !(.package ~ "ocaml"); is_good = .provides ~ /ocaml-base-5/; is_bad = .provides ~ /ocaml-base-4/; notes = "#1000000"; export = false; → "ocaml"
is_affected = true; is_good = true; is_bad = true; title = 1; → Syntax 59
"##;

fn told_of(alloc: Global, name: &str, what: &impl Display) -> Result<String, AllocError> {
    format!(in alloc; "{name} {what}")
}

fn fault_told(alloc: Global, fault: &TrackerFault) -> Result<String, AllocError> {
    match fault {
        TrackerFault::Syntax(place) => told_of(alloc, "Syntax", place),
        TrackerFault::BadPattern(place) => told_of(alloc, "BadPattern", place),
        TrackerFault::MissingKey(key) => told_of(alloc, "MissingKey", &key.name()),
        TrackerFault::NoMemory => Err(AllocError),
    }
}

/// What reading the text gives, as the table writes it.
fn reading(alloc: Global, text: &str) -> Result<String, AllocError> {
    match Tracker::read(alloc, text) {
        Ok(tracker) => {
            let told = format!(in alloc; "\"{}\"", tracker.title());
            drop(tracker);
            told
        }
        Err(fault) => fault_told(alloc, &fault),
    }
}

#[test]
fn texts_are_read_as_trackers_or_refused_at_their_first_fault(rt: HostRuntime) {
    for row in TEXTS.split('\n') {
        if let Some((text, want)) = row.split_once(" → ") {
            is_told(&rt, reading(rt.alloc(), text), want, text);
        }
    }
}

#[test]
fn a_title_may_have_newlines(rt: HostRuntime) {
    let text = "title = \"two\nlines\"; is_affected = true; is_good = true; is_bad = true;";
    is_told(&rt, reading(rt.alloc(), text), "\"two\nlines\"", text);
}

fn put_times(out: &mut String, text: &str, count: usize) -> Result<(), AllocError> {
    for _ in 0..count {
        out.push_str(text)?;
    }
    Ok(())
}

/// A key with what stands in this many brackets.
fn nested(alloc: Global, depth: usize, inner: &str, close: &str) -> Result<String, AllocError> {
    let mut out = String::from_str(alloc, "is_affected = ")?;
    put_times(&mut out, "(", depth)?;
    out.push_str(inner)?;
    put_times(&mut out, close, depth)?;
    out.push_str(";")?;
    Ok(out)
}

/// How many brackets, what stands in them, how each closes, and what reading that gives.
const NESTED: [(usize, &str, &str, &str); 4] = [
    (100, "true", ")", "MissingKey is_good"),
    (100, "!true", ")", "Syntax 114"),
    (99, "!true", ")", "MissingKey is_good"),
    (101, "", "", "Syntax 114"),
];

#[test]
fn a_hundred_brackets_may_be_open(rt: HostRuntime) {
    for (depth, inner, close, want) in &NESTED {
        let text = made(&rt, nested(rt.alloc(), *depth, inner, close));
        is_told(&rt, reading(rt.alloc(), text.as_str()), want, inner);
    }
}
