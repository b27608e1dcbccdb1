//! What no clause says: that lines are read with ample memory, and what the definitions make of the
//! lines that the release team writes. Expected by hand, from the rules in `docs/FORMATS.md`.
use crate::checks::{holds, is_told, made};
use std::alloc::{AllocError, Global};
use std::process::Abort;
use td_relation::Archs;
use td_rows::{Kind, Line, RebuildNumber};
use td_version::Version;
use td_wbread::{Command, CommandFault, Verb, kind_of, read_command};

const TABLE: &str = "amd64 linux amd64\ni386 linux i386";

const SUITES: [&str; 1] = ["unstable"];

/// A line, and after `#` what is read: verb, packages, architectures, message and extra, or the
/// fault and its place.
const LINES: &str = r##"
nmu foo_1.2-3 . ANY . unstable . -m "Rebuild against libbar2" # nmu foo_1.2-3 / amd64 i386 / Rebuild against libbar2 /
nmu 2 foo . ANY -i386 . -m '..' # nmu 2 foo / amd64 / .. /
dw foo_1.2-3 . ANY . unstable . -m "libbar-dev (>= 2)" # dw foo_1.2-3 / amd64 i386 / libbar-dev (>= 2) /
gb foo_1.2-3 . amd64 # gb foo_1.2-3 / amd64 / /
bp 5 foo bar . ALL # bp 5 foo bar / amd64 i386 / /
nmu foo . amd64 . unstable . -m "Rebuild" --extra-depends "libbar-dev (>= 2.0-1+b1)" # nmu foo / amd64 / Rebuild / libbar-dev (>= 2.0-1+b1)
nmu foo . ANY . --extra-depends libbar-dev -m x # nmu foo / amd64 i386 / x / libbar-dev
gb foo . ANY -i386 # gb foo / amd64 / /
gb foo . ANY -i386 -amd64 i386 . # gb foo / i386 / /
gb foo . ANY -amd64 -i386 # gb foo / / /
  'gb'  f"o"'o' . "ANY" # gb foo / amd64 i386 / /
nmu 12 . i386 # nmu 12 / i386 / /
bp 007 foo . i386 . unstable . # bp 7 foo / i386 / /
bp -0 foo . i386 # bp 0 foo / i386 / /
nmu foo . i386 . -m -m # nmu foo / i386 / -m /
nmu foo . i386 . -m '' # nmu foo / i386 / /
fail foo . ANY # UnknownCommand 0
fail "x # UnknownCommand 0
nmu 0 foo . ANY # BadNumber 4
nmu 010 foo . ANY # BadNumber 4
bp 10000 foo . ANY # BadNumber 3
bp foo . ANY # BadNumber 3
bp # BadNumber 2
gb . ANY # NoPackage 3
gb Foo . ANY # BadPackage 3
gb foo_ . ANY # BadPackage 3
nmu 1 . ANY # BadPackage 4
gb foo # NoDot 6
gb foo "." # BadPackage 7
gb foo . # NoArch 8
gb foo . . # NoArch 9
gb foo . mips # UnknownArch 9
gb foo . -i386 # UnknownArch 9
gb foo . ANY . stable # UnknownSuite 15
gb foo . ANY . . # UnknownSuite 15
nmu foo . ANY . "-m" x # UnknownSuite 16
dw foo . ANY . -m "libbar-dev (> 2)" # BadRelation 18
nmu foo . ANY . --extra-depends "(x)" # BadRelation 32
dw foo . ANY . unstable # MissingMessage 23
dw foo . ANY # MissingMessage 12
nmu foo . ANY . -m # MissingMessage 18
bp 5 foo . ANY . unstable x # Extra 26
dw foo . ANY . unstable x # Extra 24
gb foo . ANY . -m x # Extra 15
nmu foo . ANY . -m x -m y # Extra 21
gb foo . ANY . --extra-depends x1 # Extra 15
nmu foo . ANY . --extra-depends # MissingValue 31
nmu foo . ANY . -m "x # UnterminatedQuote 19
nmu 1 "foo # UnterminatedQuote 6
"##;

fn put_verb(out: &mut String, verb: &Verb) -> Result<(), AllocError> {
    match verb {
        Verb::Gb => out.push_str("gb"),
        Verb::Nmu(None) => out.push_str("nmu"),
        Verb::Nmu(Some(number)) => write!(out, "nmu {}", number.get()),
        Verb::Bp(priority) => write!(out, "bp {}", priority.get()),
        Verb::Dw => out.push_str("dw"),
    }
}

fn put_version(out: &mut String, version: &str) -> Result<(), AllocError> {
    out.push_str("_")?;
    out.push_str(version)
}

fn put_packages(out: &mut String, command: &Command<'_>) -> Result<(), AllocError> {
    for package in &command.packages {
        out.push_str(" ")?;
        out.push_str(package.source.as_str())?;
        if let Some(version) = &package.version {
            put_version(out, version.as_str())?;
        }
    }
    Ok(())
}

fn put_archs(out: &mut String, archs: &[&str]) -> Result<(), AllocError> {
    out.push_str(" /")?;
    for arch in archs {
        out.push_str(" ")?;
        out.push_str(arch)?;
    }
    Ok(())
}

fn put_text(out: &mut String, text: &str) -> Result<(), AllocError> {
    out.push_str(" /")?;
    if text.is_empty() {
        return Ok(());
    }
    out.push_str(" ")?;
    out.push_str(text)
}

fn put_command(out: &mut String, command: &Command<'_>) -> Result<(), AllocError> {
    put_verb(out, &command.verb)?;
    put_packages(out, command)?;
    put_archs(out, command.archs.as_slice())?;
    put_text(out, command.message.as_str())?;
    put_text(out, command.extra.as_str())
}

fn told(alloc: Global, command: &Command<'_>) -> Result<String, AllocError> {
    let mut out = String::new(alloc);
    put_command(&mut out, command)?;
    Ok(out)
}

/// What reading the line gives, as the table writes it.
fn reading(alloc: Global, archs: &Archs<'_>, line: &str) -> Result<String, AllocError> {
    match read_command(alloc, line, archs, &SUITES) {
        Ok(command) => {
            let told = told(alloc, &command);
            drop(command);
            told
        }
        Err(CommandFault::Wrong(what, place)) => format!(in alloc; "{} {place}", what.name()),
        Err(CommandFault::NoMemory) => Err(AllocError),
    }
}

#[test]
fn lines_are_read_as_the_release_team_means_them(rt: HostRuntime) {
    let archs = made(&rt, Archs::read(rt.alloc(), TABLE));
    for row in LINES.split('\n') {
        if let Some((line, want)) = row.split_once(" # ") {
            is_told(&rt, reading(rt.alloc(), &archs, line), want, line);
        }
    }
}

// Whether the first bytes of a line are read, or refused at a place within them.
fn is_answered(alloc: Global, archs: &Archs<'_>, line: &str, len: usize) -> bool {
    let Some(front) = line.get(..len) else {
        return false;
    };
    match read_command(alloc, front, archs, &SUITES) {
        Ok(_) => true,
        Err(CommandFault::Wrong(_, place)) => place <= len,
        Err(CommandFault::NoMemory) => false,
    }
}

fn fronts_are_answered(rt: &impl Abort, alloc: Global, archs: &Archs<'_>, line: &str) {
    for len in 0..line.len() {
        holds(rt, is_answered(alloc, archs, line, len), line);
    }
}

#[test]
fn each_front_of_a_line_is_answered(rt: HostRuntime) {
    let archs = made(&rt, Archs::read(rt.alloc(), TABLE));
    for row in LINES.split('\n') {
        fronts_are_answered(&rt, rt.alloc(), &archs, row);
    }
}

/// A command's packages, and whether they match foo 1.2-3 whose row has the number 2.
const VERSIONS: [(&str, bool); 11] = [
    ("foo", true),
    ("foo_1.2-3", true),
    ("foo_0:1.2-3", true),
    ("foo_1.2-3+b2", true),
    ("foo_1.2-3+b1", false),
    ("foo_1.2-4", false),
    ("foo_1.2-4+b2", false),
    ("foo_1.2-+b2", false),
    ("bar", false),
    ("bar_1.2-3 foo_1", false),
    ("foo_1 foo_1.2-3", true),
];

fn command<'a>(rt: &impl Abort, alloc: Global, archs: &Archs<'a>, line: &str) -> Command<'a> {
    made(rt, read_command(alloc, line, archs, &[]))
}

// Whether the command names the row foo/i386 and not foo/amd64, and its version matches.
fn takes_foo(command: &Command<'_>) -> bool {
    let Ok(version) = Version::read("1.2-3") else {
        return false;
    };
    let number = RebuildNumber::new(2).unwrap_or(RebuildNumber::zero());
    command.is_named("foo", "i386")
        && !command.is_named("foo", "amd64")
        && command.is_matched("foo", &version, number)
}

// Whether the command for these packages on i386 names foo/i386 and not foo/amd64, and its version
// matches.
fn takes(rt: &impl Abort, alloc: Global, archs: &Archs<'_>, packages: &str) -> bool {
    let line = made(rt, format!(in alloc; "gb {packages} . ANY -amd64"));
    let command = command(rt, alloc, archs, line.as_str());
    let is_taken = takes_foo(&command);
    drop(command);
    is_taken
}

#[test]
fn a_command_takes_the_rows_whose_version_matches(rt: HostRuntime) {
    let archs = made(&rt, Archs::read(rt.alloc(), TABLE));
    for (packages, want) in &VERSIONS {
        let is_taken = takes(&rt, rt.alloc(), &archs, packages);
        holds(&rt, is_taken == *want, packages);
    }
}

// The kind of the entry that a line's command makes.
fn kind(rt: &impl Abort, alloc: Global, line: &str) -> Kind {
    let archs = made(rt, Archs::read(alloc, TABLE));
    let command = command(rt, alloc, &archs, line);
    let kind = kind_of(&command);
    drop(command);
    made(rt, kind)
}

fn has_kind(rt: &impl Abort, alloc: Global, line: &str, expected: Kind) {
    let kind = kind(rt, alloc, line);
    holds(rt, kind == expected, line);
}

fn line(rt: &impl Abort, alloc: Global, text: &str) -> Line {
    made(rt, Line::new(alloc, text))
}

fn third_rebuild(rt: &impl Abort, alloc: Global) -> Kind {
    Kind::Nmu {
        number: RebuildNumber::new(3),
        extra: line(rt, alloc, "libbar-dev"),
        message: line(rt, alloc, "Rebuild"),
    }
}

#[test]
fn a_command_makes_an_entry_of_its_kind(rt: HostRuntime) {
    let alloc = rt.alloc();
    has_kind(&rt, alloc, "gb foo . ANY", Kind::Gb);
    let nmu = "nmu 3 foo . ANY . -m Rebuild --extra-depends libbar-dev";
    has_kind(&rt, alloc, nmu, third_rebuild(&rt, alloc));
    let dw = Kind::Dw(line(&rt, alloc, "libbar-dev"));
    has_kind(&rt, alloc, "dw foo . ANY . -m libbar-dev", dw);
}
