//! What is written of the answers of a book's calls. Each function says whether the line is
//! refused. If memory runs out, or had run out in the book's call, it appends nothing.
ghost use Rattle.std.specs.Prelude.{◌≡◌, IfOk, OnErr};
ghost use Rattle.std.specs.Option.{option_copied};
ghost use Rattle.std.specs.String.{string_bytes};
ghost use Rattle.td_script.specs.Replying.{IsArrivalPut, IsArrivalRefused, IsCommandPut};
ghost use Rattle.td_script.specs.Replying.{IsCommandRefused, IsFoundPut, IsRowPut, IsSweepPut};
ghost use Rattle.td_script.specs.Replying.{IsUndoPut};

use crate::writing::{
    put_entered, put_entry, put_made, put_nothing, put_row, put_state_refusal, put_undo_refusal,
    put_undone, refuse,
};
use std::alloc::AllocError;
use td_book::{ArriveRefusal, CommandRefusal, Taken, UndoRefusal};
use td_journal::{EntryNo, Journal, Marked};
use td_rows::{Key, Row};

/// Appends the line of a key's row, or that it has none.
pub fn put_asked_row(out: &mut String, key: &Key, row: Option<&Row>) -> Result<bool, AllocError>
    ensures ok { IfOk result
        (IsRowPut key.now (option_copied row.entry) (string_bytes out.old)
        (string_bytes out.new)) }
    ensures err { OnErr result (string_bytes out.new ≡ string_bytes out.old) }
{
    match row {
        Some(row) => put_row(out, key, row).and(Ok(false)),
        None => refuse(out, "NoSuchRow"),
    }
}

/// Appends the line of entry n, or that there is none.
pub fn put_asked_entry(
    out: &mut String,
    n: EntryNo,
    marked: Option<&Marked>,
) -> Result<bool, AllocError>
    ensures ok { IfOk result
        (IsFoundPut n (option_copied marked.entry) (string_bytes out.old)
        (string_bytes out.new)) }
    ensures err { OnErr result (string_bytes out.new ≡ string_bytes out.old) }
{
    match marked {
        Some(marked) => put_entry(out, n, marked).and(Ok(false)),
        None => refuse(out, "NoSuchEntry"),
    }
}

/// Appends what an undo answered.
pub fn put_undo(
    out: &mut String,
    n: EntryNo,
    answer: Result<(), UndoRefusal>,
) -> Result<bool, AllocError>
    ensures ok { IfOk result (IsUndoPut n answer (string_bytes out.old) (string_bytes out.new)) }
    ensures err { OnErr result (string_bytes out.new ≡ string_bytes out.old) }
{
    match answer {
        Ok(()) => put_undone(out, n).and(Ok(false)),
        Err(UndoRefusal::NoMemory) => Err(AllocError),
        Err(refusal) => put_undo_refusal(out, refusal).and(Ok(true)),
    }
}

/// Appends why an arrival was refused.
pub fn put_arrival_refusal(out: &mut String, refusal: ArriveRefusal) -> Result<bool, AllocError>
    ensures ok { IfOk result
        (IsArrivalRefused refusal (string_bytes out.old) (string_bytes out.new)) }
    ensures err { OnErr result (string_bytes out.new ≡ string_bytes out.old) }
{
    match refusal {
        ArriveRefusal::NoMemory => Err(AllocError),
        ArriveRefusal::NoSuchRow => refuse(out, "NoSuchRow"),
        ArriveRefusal::DoesNotApply(state) => {
            put_state_refusal(out, "DoesNotApply ", state).and(Ok(true))
        }
    }
}

/// Appends what an arrival answered. The journal has its entry.
pub fn put_arrival(
    out: &mut String,
    journal: &Journal,
    answer: Result<EntryNo, ArriveRefusal>,
) -> Result<bool, AllocError>
    ensures ok { IfOk result
        (IsArrivalPut journal.now.entries answer (string_bytes out.old) (string_bytes out.new)) }
    ensures err { OnErr result (string_bytes out.new ≡ string_bytes out.old) }
{
    match answer {
        Ok(n) => put_made(out, journal, n).and(Ok(false)),
        Err(refusal) => put_arrival_refusal(out, refusal),
    }
}

/// Appends what a sweep answered. The journal has its entry.
pub fn put_sweep(
    out: &mut String,
    journal: &Journal,
    swept: Option<EntryNo>,
) -> Result<bool, AllocError>
    ensures ok { IfOk result
        (IsSweepPut journal.now.entries swept (string_bytes out.old) (string_bytes out.new)) }
    ensures err { OnErr result (string_bytes out.new ≡ string_bytes out.old) }
{
    match swept {
        Some(n) => put_made(out, journal, n)?,
        None => out.push_str("nothing to sweep\n")?,
    }
    Ok(false)
}

/// Appends why a command was refused, and the rows that it names.
pub fn put_command_refusal(out: &mut String, refusal: CommandRefusal) -> Result<bool, AllocError>
    ensures ok { IfOk result
        (IsCommandRefused refusal (string_bytes out.old) (string_bytes out.new)) }
    ensures err { OnErr result (string_bytes out.new ≡ string_bytes out.old) }
{
    match refusal {
        CommandRefusal::NothingApplies(skips) => {
            put_nothing(out, skips.as_slice())?;
            Ok(true)
        }
        CommandRefusal::NoMemory => Err(AllocError),
    }
}

/// Appends what a command answered. The journal has its entry.
pub fn put_command(
    out: &mut String,
    journal: &Journal,
    answer: Result<Taken, CommandRefusal>,
) -> Result<bool, AllocError>
    ensures ok { IfOk result
        (IsCommandPut journal.now.entries answer (string_bytes out.old) (string_bytes out.new)) }
    ensures err { OnErr result (string_bytes out.new ≡ string_bytes out.old) }
{
    match answer {
        Ok(taken) => {
            put_entered(out, journal, taken.number, taken.skips.as_slice())?;
            Ok(false)
        }
        Err(refusal) => put_command_refusal(out, refusal),
    }
}
