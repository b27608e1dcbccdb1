//! How a state file is read.
ghost use Rattle.std.specs.Prelude.{◌≡◌, ◌≤◌, ◌++◌, ◌∷◌, [], List, Ok, Err, IfOk, IfErr, OnOk};
ghost use Rattle.std.specs.Prelude.{MatchResult, length, true, None};
ghost use Rattle.td_rows.specs.Limits.{max_rows};
ghost use Rattle.td_text.specs.Cut.{Without};
ghost use Rattle.td_text.specs.Lines.{lines_of};
ghost use Rattle.td_rows.specs.Keys.{ascending, same_key};
ghost use Rattle.td_rows.specs.Table.{Table, row_of, keys_of};
ghost use Rattle.td_rows.specs.RowReading.{row_line_at};
ghost use Rattle.td_rows.specs.StateReading.{add_row, state_rows, Fails};
ghost use Rattle.td_rows.specs.StateFile.{IsStateFile, FaultOf};
ghost use Rattle.indexmap.specs.IndexMap.{IsUnique};

use crate::key::Key;
use crate::row::Row;
use crate::row_line::RowText;
use crate::rows::{MAX_ROWS, Rows};
use crate::state_file::StateFault;
use indexmap::IndexMap;
use std::alloc::{AllocError, Global};
use td_text::next_line;

// Adds a row after the others.
fn push_row(rows: &mut IndexMap<Key, Row>, key: Key, row: Row) -> Result<(), StateFault>
    requires { row_of rows.old.entries key ≡ None }
    ensures ok { OnOk result (rows.new.entries ≡ rows.old.entries ++ (key, row) ∷ []) }
    ensures err { IfErr result (λ e. e ≡ StateFault.NoMemory) }
{
    match rows.insert(key, row) {
        Ok(_) => Ok(()),
        Err(_) => Err(StateFault::NoMemory),
    }
}

// The key and the row of a line that isn't empty, after the rows that were read.
fn opening_row(
    alloc: Global,
    rows: &IndexMap<Key, Row>,
    number: usize,
    line: &str,
) -> Result<(Key, Row), StateFault>
    requires { Without 10 line.now }
    ensures ok { IfOk result (λ p. add_row number rows.now.entries (row_line_at line.now)
        ≡ Ok (rows.now.entries ++ p ∷ [])) }
    ensures fresh { IfOk result (λ p. row_of rows.now.entries p.0 ≡ None) }
    ensures err { IfErr result
        (λ e. Fails e (add_row number rows.now.entries (row_line_at line.now))) }
{
    let Some(text) = RowText::read(line) else {
        return Err(StateFault::BadLine(number));
    };
    let Ok(key) = text.key(alloc) else {
        return Err(StateFault::NoMemory);
    };
    if rows.contains_key(&key) {
        return Err(StateFault::Twice(number));
    }
    if text.state.is_building() {
        return Err(StateFault::NotOpening(number));
    }
    if rows.len() == MAX_ROWS {
        return Err(StateFault::TooManyRows);
    }
    let Ok(row) = text.row(alloc) else {
        return Err(StateFault::NoMemory);
    };
    Ok((key, row))
}

// How many rows there may be, so that room for them is made at once.
fn most_rows(text: &str) -> usize
    ensures few { result ≤ length text.now }
    ensures limited { result ≤ max_rows }
{
    let newlines = text
        .as_bytes()
        .iter()
        .filter(|byte| **byte == b'\n')
        .count();
    newlines.min(MAX_ROWS)
}

// The rows of the lines, in their order.
fn read_rows(alloc: Global, text: &str) -> Result<IndexMap<Key, Row>, StateFault>
    ensures ok { IfOk result (λ rows. state_rows text.now ≡ Ok rows.entries) }
    ensures err { IfErr result (λ e. Fails e (state_rows text.now)) }
{
    let Ok(mut rows) = IndexMap::with_capacity(alloc, most_rows(text)) else {
        return Err(StateFault::NoMemory);
    };
    let mut rest = Some(text);
    // Wide, since a text has a line more than newlines. A line that isn't empty has a `usize`.
    let mut number: u128 = 0;
    while let Some(text) = rest {
        let (line, after) = next_line(text);
        rest = after;
        number += 1;
        if !line.is_empty() {
            let (key, row) = opening_row(alloc, &rows, number as usize, line)?;
            push_row(&mut rows, key, row)?;
        }
    }
    Ok(rows)
}

/// The rows of a state file: row lines in any order, none Building, no key twice; empty lines
/// are skipped. The first fault decides.
pub fn read_state(alloc: Global, text: &str) -> Result<Rows, StateFault>
    // What is read is a state file.
    ensures found { IfOk result (IsStateFile (lines_of text.now)) }
    // A state file is read, unless memory runs out.
    ensures only { (t : Table) → IsStateFile (lines_of text.now) t
        → MatchResult result (λ rows. rows ≡ t) (λ e. e ≡ StateFault.NoMemory) }
    ensures fault { IfErr result (FaultOf (lines_of text.now)) }
{
    let rows = read_rows(alloc, text)?;
    match Rows::sorted(alloc, rows) {
        Ok(rows) => Ok(rows),
        Err(_) => Err(StateFault::NoMemory),
    }
}
