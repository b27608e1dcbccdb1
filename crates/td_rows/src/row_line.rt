//! The line of a row, read and written.
ghost use Rattle.std.specs.Prelude.{◌≡◌, ◌≤◌, ◌++◌, ◌∷◌, option_map, IfSome, OnOk, OnErr, decimal};
ghost use Rattle.std.specs.Fmt.{signed_decimal};
ghost use Rattle.std.specs.String.{string_bytes};
ghost use Rattle.td_text.specs.Numbers.{number_at, signed_at};
ghost use Rattle.td_rows.specs.Appending.{Grown};
ghost use Rattle.td_rows.specs.Notes.{notes};
ghost use Rattle.td_rows.specs.RowLine.{row_line, row_words};
ghost use Rattle.td_rows.specs.RowReading.{row_line_at};

use crate::key::Key;
use crate::key_text::{put_key, read_key};
use crate::line::Line;
use crate::notes::{put_notes, read_notes};
use crate::number::{Priority, RebuildNumber};
use crate::row::Row;
use crate::state::State;
use crate::state_word::{put_state_word, read_state_word};
use std::alloc::{AllocError, Global};
use td_text::{cut_at, number, part_at, put_number, put_signed, signed};

/// A row, by slices of the line that it was read from.
#[derive(Clone, Copy)]
pub struct RowText<'a> {
    pub source: &'a str,
    pub arch: &'a str,
    pub state: State,
    pub priority: Priority,
    pub number: RebuildNumber,
    pub extra: &'a str,
    pub dep_wait: &'a str,
}

impl<'a> RowText<'a> {
    ghost use Rattle.std.specs.Prelude.{◌≡◌, false, IfOk, option_map};
    ghost use Rattle.td_rows.specs.Text.{has_newline};
    ghost use Rattle.td_rows.specs.RowReading.{row_line_at};
    ghost use Rattle.td_rows.specs.RowText.{row_of_text};

    /// The row whose line it is.
    #[tactic(auto, unfolding(crate::specs::RowReading::row_line_at))]
    pub fn read(line: &'a str) -> Option<RowText<'a>>
        ensures { option_map row_of_text result ≡ row_line_at line.now }
    {
        let (key, rest) = cut_at(line, ' ')?;
        let (source, arch) = read_key(key)?;
        let (state, rest) = cut_at(rest, ' ')?;
        let state = read_state_word(state)?;
        let (priority, rest) = cut_at(rest, ' ')?;
        let priority = Priority::read(priority)?;
        let (number, texts) = part_at(rest, ' ');
        let number = RebuildNumber::read(number)?;
        let (extra, dep_wait) = read_notes(texts)?;
        Some(RowText {
            source,
            arch,
            state,
            priority,
            number,
            extra,
            dep_wait,
        })
    }

    /// The key, in memory of its own. No newline stands in a line.
    pub fn key(&self, alloc: Global) -> Result<Key, AllocError>
        requires source { has_newline self.now.source.now ≡ false }
        requires arch { has_newline self.now.arch.now ≡ false }
        ensures { IfOk result (λ key. key ≡ (row_of_text self.now).0) }
    {
        Key::from_lines(alloc, self.source, self.arch)
    }

    /// The row, in memory of its own. No newline stands in a line.
    pub fn row(&self, alloc: Global) -> Result<Row, AllocError>
        requires extra { has_newline self.now.extra.now ≡ false }
        requires dep_wait { has_newline self.now.dep_wait.now ≡ false }
        ensures { IfOk result (λ row. row ≡ (row_of_text self.now).1) }
    {
        Ok(Row {
            state: self.state,
            priority: self.priority,
            number: self.number,
            dep_wait: Line::from_line(alloc, self.dep_wait)?,
            extra: Line::from_line(alloc, self.extra)?,
        })
    }
}

#[tactic(auto, using(crate::proofs::Appends::growing))]
fn put_number_and_notes(out: &mut String, row: &Row) -> Result<(), AllocError>
    ensures ok { OnOk result (string_bytes out.new ≡ string_bytes out.old
        ++ (decimal row.now.number ++ notes (row.now.extra, row.now.dep_wait))) }
    ensures front { Grown (string_bytes out.old) (string_bytes out.new) }
{
    put_number(out, row.number.get() as u64)?;
    put_notes(out, row.extra.as_str(), row.dep_wait.as_str())
}

#[tactic(auto, using(crate::proofs::Appends::growing))]
fn put_words(out: &mut String, row: &Row) -> Result<(), AllocError>
    ensures ok { OnOk result (string_bytes out.new ≡ string_bytes out.old ++ row_words row.now) }
    ensures front { Grown (string_bytes out.old) (string_bytes out.new) }
{
    put_state_word(out, row.state)?;
    out.push_str(" ")?;
    put_signed(out, row.priority.get())?;
    out.push_str(" ")?;
    put_number_and_notes(out, row)
}

#[tactic(auto, using(crate::proofs::Appends::growing))]
fn put_key_and_words(out: &mut String, key: &Key, row: &Row) -> Result<(), AllocError>
    ensures ok { OnOk result (string_bytes out.new
        ≡ string_bytes out.old ++ row_line (key.now, row.now)) }
    ensures front { Grown (string_bytes out.old) (string_bytes out.new) }
{
    put_key(out, key)?;
    out.push_str(" ")?;
    put_words(out, row)
}

/// Appends the row's line, without a newline; where memory runs out nothing.
pub fn put_row_line(out: &mut String, key: &Key, row: &Row) -> Result<(), AllocError>
    ensures ok { OnOk result (string_bytes out.new
        ≡ string_bytes out.old ++ row_line (key.now, row.now)) }
    ensures err { OnErr result (string_bytes out.new ≡ string_bytes out.old) }
{
    let start = out.len();
    let done = put_key_and_words(out, key, row);
    if done.is_err() {
        out.truncate(start);
    }
    done
}
