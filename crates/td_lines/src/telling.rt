//! A staff that tells a script by its notes.
ghost use Rattle.std.specs.Prelude.{◌≡◌, ◌<◌, ◌^◌, ◌-◌, [], IfErr, IfOk, IfSome, Some, Ok, Err};
ghost use Rattle.std.specs.Prelude.{length, string_bytes};
ghost use Rattle.td_indices.specs.Supplying.{supply_of};
ghost use Rattle.td_script.specs.Asking.{IsFit, IsToldOf};
ghost use Rattle.td_script.specs.Ends.{Plays};
ghost use Rattle.td_script.specs.Openings.{texts_of};
ghost use Rattle.td_lines.specs.Notes.{IsNoted, notes as notes_of};

use crate::noting::{Offered, notes};
use std::alloc::{AllocError, Global};
use std::thread::Threads;
use td_indices::Archive;
use td_journal::ReadError;
use td_script::{Asked, Inputs, Staff, Told, run_with, tell_alone};

/// One who says what there is to say of a script's lines, and answers none.
#[derive(Clone, Copy)]
pub struct Noting;

impl Staff for Noting {
    ghost use Rattle.td_lines.specs.Notes.{IsNoted};

    ghost tells = { λ noting. IsNoted };
}

// The notes of a script over what an archive offers.
fn notes_over(
    alloc: Global,
    archive: &Archive<'_, '_>,
    suite: &str,
    script: &str,
) -> Result<String, AllocError>
    requires { length script.now < 2 ^ 63 - 1 }
    ensures { IfOk result (λ text.
        string_bytes text ≡ notes_of (supply_of archive.now) suite.now script.now) }
{
    let supply = archive.supply()?;
    let offered = Offered {
        supply: &supply,
        archive,
        suite,
    };
    notes(alloc, &offered, script)
}

// What was asked, without the lines.
fn without_lines<'i, 't, 'a, 's, 'j, 'r, 'b, 'u, 'c, 'q>(
    asked: Asked<'i, 't, 'a, 's, 'j, 'r, 'b, 'u, 'c, 'q, '_>,
) -> Asked<'i, 't, 'a, 's, 'j, 'r, 'b, 'u, 'c, 'q, 'static>
    ensures rows { result.rows ≡ asked.entry.rows }
    ensures journal { result.journal ≡ asked.entry.journal }
    ensures reports { result.reports ≡ asked.entry.reports }
    ensures script { result.script.now ≡ [] }
{
    Asked {
        alloc: asked.alloc,
        archive: asked.archive,
        rows: asked.rows,
        suite: asked.suite,
        journal: asked.journal,
        reports: asked.reports,
        script: "",
    }
}

// How notes are told, or that memory ran out for them.
fn told_of(noted: Result<String, AllocError>) -> Result<Told, ReadError>
    ensures told { IfOk noted (λ text. result ≡ Ok (record { text = text; refused = 0 })) }
    ensures memory { IfErr noted (λ _. result ≡ Err ReadError.NoMemory) }
{
    match noted {
        Ok(text) => Ok(Told { text, refused: 0 }),
        Err(_) => Err(ReadError::NoMemory),
    }
}

// The notes of a script, if its journal is one.
fn tell_notes(asked: Asked) -> Result<Told, ReadError>
    requires { IsFit asked }
    ensures { IsToldOf IsNoted asked.entry result }
{
    let noted = notes_over(asked.alloc, asked.archive, asked.suite, asked.script);
    match tell_alone(without_lines(asked)) {
        Ok(_) => told_of(noted),
        Err(fault) => Err(fault),
    }
}

/// What is said of the lines of a script over what the inputs say. Nothing if memory runs out or
/// the script can't be answered over them.
pub fn note_script(
    rt: &(impl Threads + Sync),
    alloc: Global,
    inputs: &Inputs,
    script: &str,
) -> Option<String>
    ensures { IfSome result (λ notes. Plays IsNoted (texts_of inputs.now) (Some script.now)
        (λ text refused. string_bytes notes ≡ text)) }
{
    let mut bytes = Vec::new(alloc);
    let mut reader = script.as_bytes();
    let told = run_with(
        rt,
        alloc,
        &Noting,
        &tell_notes,
        inputs,
        &mut reader,
        &mut bytes,
    );
    match told {
        Ok(_) => String::from_utf8(bytes).ok(),
        Err(_) => None,
    }
}
