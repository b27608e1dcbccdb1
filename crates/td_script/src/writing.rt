//! The lines of answers. What appends the pieces of a line leaves a front of them if memory runs
//! out. What appends a whole line, or whole lines, leaves nothing of them then.
ghost use Rattle.std.specs.Prelude.{◌≡◌, ◌++◌, Some, true, IfOk, OnOk, OnErr, codes, decimal};
ghost use Rattle.std.specs.List.{flat_map};
ghost use Rattle.std.specs.String.{string_bytes};
ghost use Rattle.td_rows.specs.Appending.{Grown};
ghost use Rattle.td_rows.specs.RowLine.{row_line};
ghost use Rattle.td_rows.specs.StateWord.{state_word};
ghost use Rattle.td_journal.specs.declared.entry.Marked.{Marked as MarkedValue};
ghost use Rattle.td_journal.specs.Entries.{entry_at};
ghost use Rattle.td_journal.specs.JournalText.{entry_line};
ghost use Rattle.td_script.specs.Replies.{ended, entry_made, reason_word, refusal_line, skip_line};
ghost use Rattle.td_script.specs.Replies.{undo_name};
ghost use Rattle.td_script.specs.Replying.{IsPut};

use std::alloc::AllocError;
use td_book::UndoRefusal;
use td_journal::{EntryNo, Journal, Marked, put_entry_line, put_keys};
use td_naming::{Skip, SkipReason};
use td_rows::{Key, Row, State, put_key, put_row_line, put_state_word};
use td_text::put_number;

// Appends the pieces of the line of a refusal.
#[tactic(auto, using(td_rows::proofs::Appends::growing))]
fn write_refusal(out: &mut String, name: &str) -> Result<(), AllocError>
    ensures ok { OnOk result
        (string_bytes out.new ≡ string_bytes out.old ++ refusal_line name.now) }
    ensures front { Grown (string_bytes out.old) (string_bytes out.new) }
{
    out.push_str("refused: ")?;
    out.push_str(name)?;
    out.push_str("\n")
}

/// Appends the line of a refusal; nothing if memory runs out.
pub fn put_refusal(out: &mut String, name: &str) -> Result<(), AllocError>
    ensures ok { OnOk result
        (string_bytes out.new ≡ string_bytes out.old ++ refusal_line name.now) }
    ensures err { OnErr result (string_bytes out.new ≡ string_bytes out.old) }
{
    let start = out.len();
    let done = write_refusal(out, name);
    if done.is_err() {
        out.truncate(start);
    }
    done
}

/// Refuses a line: appends the line of the refusal, and answers that it is refused. If memory
/// runs out, it appends nothing.
pub fn refuse(out: &mut String, name: &str) -> Result<bool, AllocError>
    ensures ok { IfOk result
        (IsPut (refusal_line name.now) true (string_bytes out.old) (string_bytes out.new)) }
    ensures err { OnErr result (string_bytes out.new ≡ string_bytes out.old) }
{
    put_refusal(out, name).and(Ok(true))
}

#[tactic(auto, using(td_rows::proofs::Appends::growing))]
fn put_block(out: &mut String, n: EntryNo) -> Result<(), AllocError>
    ensures ok { OnOk result
        (string_bytes out.new ≡ string_bytes out.old ++ undo_name (UndoRefusal.Blocked n)) }
    ensures front { Grown (string_bytes out.old) (string_bytes out.new) }
{
    out.push_str("Blocked ")?;
    put_number(out, n)
}

// Appends the pieces of the line of an undo that an entry blocks.
#[tactic(auto, using(td_rows::proofs::Appends::growing))]
fn write_blocked(out: &mut String, n: EntryNo) -> Result<(), AllocError>
    ensures ok { OnOk result (string_bytes out.new
        ≡ string_bytes out.old ++ refusal_line (undo_name (UndoRefusal.Blocked n))) }
    ensures front { Grown (string_bytes out.old) (string_bytes out.new) }
{
    out.push_str("refused: ")?;
    put_block(out, n)?;
    out.push_str("\n")
}

// Appends the line of an undo that an entry blocks; nothing if memory runs out.
fn put_blocked(out: &mut String, n: EntryNo) -> Result<(), AllocError>
    ensures ok { OnOk result (string_bytes out.new
        ≡ string_bytes out.old ++ refusal_line (undo_name (UndoRefusal.Blocked n))) }
    ensures err { OnErr result (string_bytes out.new ≡ string_bytes out.old) }
{
    let start = out.len();
    let done = write_blocked(out, n);
    if done.is_err() {
        out.truncate(start);
    }
    done
}

/// Appends the line of an undo that is refused; nothing if memory runs out.
pub fn put_undo_refusal(out: &mut String, refusal: UndoRefusal) -> Result<(), AllocError>
    ensures ok { OnOk result
        (string_bytes out.new ≡ string_bytes out.old ++ refusal_line (undo_name refusal)) }
    ensures err { OnErr result (string_bytes out.new ≡ string_bytes out.old) }
{
    match refusal {
        UndoRefusal::NoSuchEntry => put_refusal(out, "NoSuchEntry"),
        UndoRefusal::NotACommand => put_refusal(out, "NotACommand"),
        UndoRefusal::AlreadyUndone => put_refusal(out, "AlreadyUndone"),
        UndoRefusal::NoMemory => put_refusal(out, "NoMemory"),
        UndoRefusal::Blocked(n) => put_blocked(out, n),
    }
}

// Appends the pieces of the line of an entry that is undone.
#[tactic(auto, using(td_rows::proofs::Appends::growing))]
fn write_undone(out: &mut String, n: EntryNo) -> Result<(), AllocError>
    ensures ok { OnOk result
        (string_bytes out.new ≡ string_bytes out.old ++ ended (codes "undone " ++ decimal n)) }
    ensures front { Grown (string_bytes out.old) (string_bytes out.new) }
{
    out.push_str("undone ")?;
    put_number(out, n)?;
    out.push_str("\n")
}

/// Appends the line of an entry that is undone; nothing if memory runs out.
pub fn put_undone(out: &mut String, n: EntryNo) -> Result<(), AllocError>
    ensures ok { OnOk result
        (string_bytes out.new ≡ string_bytes out.old ++ ended (codes "undone " ++ decimal n)) }
    ensures err { OnErr result (string_bytes out.new ≡ string_bytes out.old) }
{
    let start = out.len();
    let done = write_undone(out, n);
    if done.is_err() {
        out.truncate(start);
    }
    done
}

#[tactic(auto, using(td_rows::proofs::Appends::growing))]
fn put_named_state(out: &mut String, name: &str, state: State) -> Result<(), AllocError>
    ensures ok { OnOk result
        (string_bytes out.new ≡ string_bytes out.old ++ (name.now ++ state_word state)) }
    ensures front { Grown (string_bytes out.old) (string_bytes out.new) }
{
    out.push_str(name)?;
    put_state_word(out, state)
}

// Appends the pieces of the line of a refusal that names a state.
#[tactic(auto, using(td_rows::proofs::Appends::growing))]
fn write_state_refusal(out: &mut String, name: &str, state: State) -> Result<(), AllocError>
    ensures ok { OnOk result (string_bytes out.new
        ≡ string_bytes out.old ++ refusal_line (name.now ++ state_word state)) }
    ensures front { Grown (string_bytes out.old) (string_bytes out.new) }
{
    out.push_str("refused: ")?;
    put_named_state(out, name, state)?;
    out.push_str("\n")
}

/// Appends the line of a refusal that names a state; nothing if memory runs out.
pub fn put_state_refusal(out: &mut String, name: &str, state: State) -> Result<(), AllocError>
    ensures ok { OnOk result (string_bytes out.new
        ≡ string_bytes out.old ++ refusal_line (name.now ++ state_word state)) }
    ensures err { OnErr result (string_bytes out.new ≡ string_bytes out.old) }
{
    let start = out.len();
    let done = write_state_refusal(out, name, state);
    if done.is_err() {
        out.truncate(start);
    }
    done
}

// Appends the pieces of the line of an entry that was made on these keys.
#[tactic(auto, using(td_rows::proofs::Appends::growing))]
fn write_taken(out: &mut String, n: EntryNo, keys: &[Key]) -> Result<(), AllocError>
    ensures ok { OnOk result
        (string_bytes out.new ≡ string_bytes out.old ++ entry_made n keys.now) }
    ensures front { Grown (string_bytes out.old) (string_bytes out.new) }
{
    out.push_str("entry ")?;
    put_number(out, n)?;
    out.push_str(" takes")?;
    put_keys(out, keys)?;
    out.push_str("\n")
}

/// Appends the line of an entry that was made on these keys; nothing if memory runs out.
pub fn put_taken(out: &mut String, n: EntryNo, keys: &[Key]) -> Result<(), AllocError>
    ensures ok { OnOk result
        (string_bytes out.new ≡ string_bytes out.old ++ entry_made n keys.now) }
    ensures err { OnErr result (string_bytes out.new ≡ string_bytes out.old) }
{
    let start = out.len();
    let done = write_taken(out, n, keys);
    if done.is_err() {
        out.truncate(start);
    }
    done
}

/// Appends the line of an entry that was made; nothing if memory runs out.
#[tactic(auto, using(td_rows::proofs::Appends::growing))]
pub fn put_made(out: &mut String, journal: &Journal, n: EntryNo) -> Result<(), AllocError>
    ensures ok { (m : MarkedValue) → entry_at journal.now.entries n ≡ Some m
        → OnOk result (string_bytes out.new ≡ string_bytes out.old ++ entry_made n m.entry.keys) }
    ensures err { OnErr result (string_bytes out.new ≡ string_bytes out.old) }
    ensures front { Grown (string_bytes out.old) (string_bytes out.new) }
{
    let Some(marked) = journal.entry(n) else {
        return Ok(());
    };
    put_taken(out, n, marked.entry.keys.as_slice())
}

// Appends the pieces of the line of a row.
#[tactic(auto, using(td_rows::proofs::Appends::growing))]
fn write_row(out: &mut String, key: &Key, row: &Row) -> Result<(), AllocError>
    ensures ok { OnOk result
        (string_bytes out.new ≡ string_bytes out.old ++ ended (row_line (key.now, row.now))) }
    ensures front { Grown (string_bytes out.old) (string_bytes out.new) }
{
    put_row_line(out, key, row)?;
    out.push_str("\n")
}

/// Appends the line of a row; nothing if memory runs out.
pub fn put_row(out: &mut String, key: &Key, row: &Row) -> Result<(), AllocError>
    ensures ok { OnOk result
        (string_bytes out.new ≡ string_bytes out.old ++ ended (row_line (key.now, row.now))) }
    ensures err { OnErr result (string_bytes out.new ≡ string_bytes out.old) }
{
    let start = out.len();
    let done = write_row(out, key, row);
    if done.is_err() {
        out.truncate(start);
    }
    done
}

// Appends the pieces of the journal's line of an entry.
#[tactic(auto, using(td_rows::proofs::Appends::growing))]
fn write_entry(out: &mut String, n: EntryNo, marked: &Marked) -> Result<(), AllocError>
    ensures ok { OnOk result
        (string_bytes out.new ≡ string_bytes out.old ++ ended (entry_line n marked.now)) }
    ensures front { Grown (string_bytes out.old) (string_bytes out.new) }
{
    put_entry_line(out, n, marked)?;
    out.push_str("\n")
}

/// Appends the journal's line of an entry; nothing if memory runs out.
pub fn put_entry(out: &mut String, n: EntryNo, marked: &Marked) -> Result<(), AllocError>
    ensures ok { OnOk result
        (string_bytes out.new ≡ string_bytes out.old ++ ended (entry_line n marked.now)) }
    ensures err { OnErr result (string_bytes out.new ≡ string_bytes out.old) }
{
    let start = out.len();
    let done = write_entry(out, n, marked);
    if done.is_err() {
        out.truncate(start);
    }
    done
}

fn put_reason(out: &mut String, reason: SkipReason) -> Result<(), AllocError>
    ensures ok { OnOk result (string_bytes out.new ≡ string_bytes out.old ++ reason_word reason) }
    ensures err { OnErr result (string_bytes out.new ≡ string_bytes out.old) }
{
    match reason {
        SkipReason::Version => out.push_str("version"),
        SkipReason::State(state) => put_state_word(out, state),
    }
}

#[tactic(auto, using(td_rows::proofs::Appends::growing))]
fn put_skip(out: &mut String, skip: &Skip) -> Result<(), AllocError>
    ensures ok { OnOk result
        (string_bytes out.new ≡ string_bytes out.old ++ skip_line skip.now) }
    ensures front { Grown (string_bytes out.old) (string_bytes out.new) }
{
    out.push_str("skipped ")?;
    put_key(out, &skip.key)?;
    out.push_str(" ")?;
    put_reason(out, skip.reason)?;
    out.push_str("\n")
}

// Appends the lines of the rows that a command names and doesn't take, one after the other.
#[tactic(auto, using(td_rows::proofs::Appends::growing))]
fn write_skips(out: &mut String, skips: &[Skip]) -> Result<(), AllocError>
    ensures ok { OnOk result
        (string_bytes out.new ≡ string_bytes out.old ++ flat_map skip_line skips.now) }
    ensures front { Grown (string_bytes out.old) (string_bytes out.new) }
{
    for skip in skips {
        put_skip(out, skip)?;
    }
    Ok(())
}

/// Appends the lines of the rows that a command names and doesn't take; nothing if memory runs
/// out.
pub fn put_skips(out: &mut String, skips: &[Skip]) -> Result<(), AllocError>
    ensures ok { OnOk result
        (string_bytes out.new ≡ string_bytes out.old ++ flat_map skip_line skips.now) }
    ensures err { OnErr result (string_bytes out.new ≡ string_bytes out.old) }
{
    let start = out.len();
    let done = write_skips(out, skips);
    if done.is_err() {
        out.truncate(start);
    }
    done
}

// Appends the line of an entry that was made, and then those of the rows that its command leaves.
#[tactic(auto, using(td_rows::proofs::Appends::growing))]
fn write_entered(
    out: &mut String,
    journal: &Journal,
    n: EntryNo,
    skips: &[Skip],
) -> Result<(), AllocError>
    ensures ok { (m : MarkedValue) → entry_at journal.now.entries n ≡ Some m
        → OnOk result (string_bytes out.new ≡ string_bytes out.old
        ++ (entry_made n m.entry.keys ++ flat_map skip_line skips.now)) }
    ensures front { Grown (string_bytes out.old) (string_bytes out.new) }
{
    put_made(out, journal, n)?;
    write_skips(out, skips)
}

/// Appends the line of an entry that was made, and the lines of the rows that its command leaves;
/// nothing if memory runs out.
pub fn put_entered(
    out: &mut String,
    journal: &Journal,
    n: EntryNo,
    skips: &[Skip],
) -> Result<(), AllocError>
    ensures ok { (m : MarkedValue) → entry_at journal.now.entries n ≡ Some m
        → OnOk result (string_bytes out.new ≡ string_bytes out.old
        ++ (entry_made n m.entry.keys ++ flat_map skip_line skips.now)) }
    ensures err { OnErr result (string_bytes out.new ≡ string_bytes out.old) }
{
    let start = out.len();
    let done = write_entered(out, journal, n, skips);
    if done.is_err() {
        out.truncate(start);
    }
    done
}

// Appends the line of a command that applies on no row, and then those of the rows that it names.
#[tactic(auto, using(td_rows::proofs::Appends::growing))]
fn write_nothing(out: &mut String, skips: &[Skip]) -> Result<(), AllocError>
    ensures ok { OnOk result (string_bytes out.new ≡ string_bytes out.old
        ++ (refusal_line (codes "NothingApplies") ++ flat_map skip_line skips.now)) }
    ensures front { Grown (string_bytes out.old) (string_bytes out.new) }
{
    put_refusal(out, "NothingApplies")?;
    write_skips(out, skips)
}

/// Appends the line of a command that applies on no row, and the lines of those that it names;
/// nothing if memory runs out.
pub fn put_nothing(out: &mut String, skips: &[Skip]) -> Result<(), AllocError>
    ensures ok { OnOk result (string_bytes out.new ≡ string_bytes out.old
        ++ (refusal_line (codes "NothingApplies") ++ flat_map skip_line skips.now)) }
    ensures err { OnErr result (string_bytes out.new ≡ string_bytes out.old) }
{
    let start = out.len();
    let done = write_nothing(out, skips);
    if done.is_err() {
        out.truncate(start);
    }
    done
}
