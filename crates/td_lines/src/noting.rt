//! The notes of a script's lines.
ghost use Rattle.std.specs.Prelude.{◌≡◌, ◌<◌, ◌^◌, ◌-◌, ◌++◌, ◌∷◌, [], IfOk, OnOk, length};
ghost use Rattle.std.specs.Prelude.{codes, decimal, option_map, string_bytes};
ghost use Rattle.std.specs.List.{flat_map};
ghost use Rattle.td_indices.specs.Supplying.{supply_of};
ghost use Rattle.td_supply.specs.Supply.{opened};
ghost use Rattle.td_relation.specs.Table.{place_of};
ghost use Rattle.td_wbread.specs.Command.{command_at};
ghost use Rattle.td_wbread.specs.Views.{package_of};
ghost use Rattle.td_script.specs.Reading.{first_word as first_word_of, verb_at};
ghost use Rattle.td_lines.specs.Faults.{fault_said, of_word};
ghost use Rattle.td_lines.specs.Lost.{lost_said, version_in, version_said};
ghost use Rattle.td_lines.specs.Notes.{arch_notes, asked_notes, form_of as form_of_of, key_notes};
ghost use Rattle.td_lines.specs.Notes.{line_notes, note, notes as notes_of, package_notes};
ghost use Rattle.td_lines.specs.Notes.{package_notes_by, typed_notes, version_notes};

use crate::faults::{put_fault, put_word};
use crate::lost::{is_version, put_lost, put_version};
use crate::pieces::first_word;
use std::alloc::{AllocError, Global};
use td_indices::Archive;
use td_rows::Key;
use td_script::{Request, Said, read_line};
use td_supply::Supply;
use td_text::{next_line, put_number};
use td_wbread::{CommandFault, LineFault, Package, read_command};

/// What the index offers, and the suite that a command may name.
#[derive(Clone, Copy)]
pub struct Offered<'o, 't, 'a> {
    pub supply: &'o Supply<'a>,
    pub archive: &'o Archive<'t, 'a>,
    pub suite: &'o str,
    ghost same: { supply.now ≡ opened (supply_of archive.now) },
}

// Appends the front of a note.
fn put_front(out: &mut String, number: u64) -> Result<(), AllocError>
    ensures { OnOk result (string_bytes out.new
        ≡ string_bytes out.old ++ (codes "line " ++ (decimal number ++ codes ": "))) }
{
    out.push_str("line ")?;
    put_number(out, number)?;
    out.push_str(": ")
}

// Appends the note of a name that no source has.
fn put_lost_note(
    out: &mut String,
    offered: &Offered<'_, '_, '_>,
    number: u64,
    name: &str,
) -> Result<(), AllocError>
    ensures { OnOk result (string_bytes out.new ≡ string_bytes out.old
        ++ note number (lost_said (supply_of offered.now.archive.now) name.now)) }
{
    put_front(out, number)?;
    put_lost(out, offered.archive, name)?;
    out.push_str("\n")
}

// Appends the note of an architecture that isn't in the table.
fn put_arch_note(out: &mut String, number: u64, arch: &str) -> Result<(), AllocError>
    ensures { OnOk result (string_bytes out.new ≡ string_bytes out.old
        ++ note number (of_word arch.now (codes "no architecture of the table"))) }
{
    put_front(out, number)?;
    put_word(out, arch, "no architecture of the table")?;
    out.push_str("\n")
}

// Appends the note of an architecture, if it isn't in the table.
fn put_arch(
    out: &mut String,
    number: u64,
    arch: &str,
    place: Option<usize>,
) -> Result<(), AllocError>
    ensures { OnOk result (string_bytes out.new
        ≡ string_bytes out.old ++ arch_notes number arch.now place) }
{
    match place {
        Some(_) => Ok(()),
        None => put_arch_note(out, number, arch),
    }
}

// Appends the note of a key, if its source or its architecture isn't there.
fn put_key(
    out: &mut String,
    offered: &Offered<'_, '_, '_>,
    number: u64,
    key: &Key,
) -> Result<(), AllocError>
    ensures { OnOk result (string_bytes out.new ≡ string_bytes out.old
        ++ key_notes (supply_of offered.now.archive.now) number key.now
        (version_in (supply_of offered.now.archive.now) key.now.source)) }
{
    match offered.supply.version(key.source()) {
        None => put_lost_note(out, offered, number, key.source()),
        Some(_) => {
            let place = offered.supply.archs().index(key.arch());
            put_arch(out, number, key.arch(), place)
        }
    }
}

// Appends the note of a version that a source hasn't.
fn put_version_note(
    out: &mut String,
    number: u64,
    source: &str,
    version: &str,
    word: &Option<String>,
) -> Result<(), AllocError>
    ensures { OnOk result (string_bytes out.new ≡ string_bytes out.old
        ++ version_notes number source.now version.now (option_map string_bytes word.now)) }
{
    let Some(word) = word else {
        return Ok(());
    };
    if is_version(version, word.as_str()) {
        return Ok(());
    }
    put_front(out, number)?;
    put_version(out, source, version, word.as_str())?;
    out.push_str("\n")
}

// Appends the note of a package word, if its source isn't there or has another version.
fn put_package(
    out: &mut String,
    offered: &Offered<'_, '_, '_>,
    number: u64,
    named: &Package,
) -> Result<(), AllocError>
    ensures { OnOk result (string_bytes out.new ≡ string_bytes out.old
        ++ package_notes (supply_of offered.now.archive.now) number (package_of named.now)) }
{
    let source = named.source.as_str();
    match offered.supply.version(source) {
        None => put_lost_note(out, offered, number, source),
        Some(version) => put_version_note(out, number, source, version, &named.version),
    }
}

// Appends the notes of package words.
fn put_packages(
    out: &mut String,
    offered: &Offered<'_, '_, '_>,
    number: u64,
    packages: &[Package],
) -> Result<(), AllocError>
    ensures { OnOk result (string_bytes out.new ≡ string_bytes out.old
        ++ flat_map (λ p. package_notes (supply_of offered.now.archive.now) number (package_of p))
        packages.now) }
{
    for named in packages {
        put_package(out, offered, number, named)?;
    }
    Ok(())
}

// Appends the note of a line that is no command.
fn put_wrong(
    alloc: Global,
    out: &mut String,
    offered: &Offered<'_, '_, '_>,
    number: u64,
    line: &str,
    wrong: (LineFault, usize),
) -> Result<(), AllocError>
    ensures { OnOk result (string_bytes out.new ≡ string_bytes out.old
        ++ note number (fault_said (supply_of offered.now.archive.now).table
        offered.now.suite.now line.now wrong.0 wrong.1)) }
{
    put_front(out, number)?;
    let archs = offered.supply.archs();
    put_fault(alloc, out, archs, offered.suite, line, wrong.0, wrong.1)?;
    out.push_str("\n")
}

// Appends the notes of a line that is typed.
fn put_typed(
    alloc: Global,
    out: &mut String,
    offered: &Offered<'_, '_, '_>,
    number: u64,
    line: &str,
) -> Result<(), AllocError>
    ensures { OnOk result (string_bytes out.new ≡ string_bytes out.old
        ++ typed_notes (supply_of offered.now.archive.now) offered.now.suite.now number line.now
        (command_at (supply_of offered.now.archive.now).table (offered.now.suite.now ∷ [])
        line.now)) }
{
    let suites = [offered.suite];
    match read_command(alloc, line, offered.supply.archs(), suites.as_slice()) {
        Ok(command) => put_packages(out, offered, number, &command.packages),
        Err(CommandFault::Wrong(fault, place)) => {
            put_wrong(alloc, out, offered, number, line, (fault, place))
        }
        Err(CommandFault::NoMemory) => Err(AllocError),
    }
}

// The form of the request with this first word.
#[tactic(auto, unfolding(td_script::specs::Reading::verb_at))]
fn form_of(word: &str) -> &'static str
    ensures { result.now ≡ form_of_of (verb_at word.now) }
{
    match word {
        "undo" => "wanted: undo N",
        "arrive" => "wanted: arrive SOURCE ARCH",
        "sweep" => "wanted: sweep",
        "row" => "wanted: row SOURCE ARCH",
        "entry" => "wanted: entry N",
        "report" => "wanted: report",
        "journal" => "wanted: journal",
        _ => "",
    }
}

// Appends the note of a line whose first word is that of a request.
fn put_form(out: &mut String, number: u64, line: &str) -> Result<(), AllocError>
    ensures { OnOk result (string_bytes out.new ≡ string_bytes out.old
        ++ note number (form_of_of (verb_at (first_word_of line.now)))) }
{
    put_front(out, number)?;
    out.push_str(form_of(first_word(line)))?;
    out.push_str("\n")
}

// Appends the notes of a request.
fn put_asked(
    out: &mut String,
    offered: &Offered<'_, '_, '_>,
    number: u64,
    request: &Request,
) -> Result<(), AllocError>
    ensures { OnOk result (string_bytes out.new ≡ string_bytes out.old
        ++ asked_notes (supply_of offered.now.archive.now) number request.now) }
{
    match request {
        Request::Arrive(key) | Request::Row(key) => put_key(out, offered, number, key),
        Request::Undo(_)
        | Request::Sweep
        | Request::Entry(_)
        | Request::Report
        | Request::Journal => Ok(()),
    }
}

// Appends the notes of the line with this number.
fn put_line(
    alloc: Global,
    out: &mut String,
    offered: &Offered<'_, '_, '_>,
    number: u64,
    line: &str,
) -> Result<(), AllocError>
    ensures { OnOk result (string_bytes out.new ≡ string_bytes out.old
        ++ line_notes (supply_of offered.now.archive.now) offered.now.suite.now number line.now) }
{
    match read_line(alloc, line)? {
        Said::Skipped => Ok(()),
        Said::Asked(request) => put_asked(out, offered, number, &request),
        Said::Bad => put_form(out, number, line),
        Said::Typed => put_typed(alloc, out, offered, number, line),
    }
}

/// The notes of a script.
pub fn notes(
    alloc: Global,
    offered: &Offered<'_, '_, '_>,
    script: &str,
) -> Result<String, AllocError>
    requires { length script.now < 2 ^ 63 - 1 }
    ensures { IfOk result (λ text. string_bytes text
        ≡ notes_of (supply_of offered.now.archive.now) offered.now.suite.now script.now) }
{
    let mut out = String::new(alloc);
    let mut number = 1;
    let mut rest = Some(script);
    while let Some(lines) = rest {
        let (line, after) = next_line(lines);
        put_line(alloc, &mut out, offered, number, line)?;
        number += 1;
        rest = after;
    }
    Ok(out)
}
