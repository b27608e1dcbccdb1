//! Which line of a state file has a row that other rows haven't.
ghost use Rattle.std.specs.Prelude.{◌↔◌, IsTrue};
ghost use Rattle.td_text.specs.Lines.{lines_of};
ghost use Rattle.td_inputs.specs.Lacking.{IsFirstLacking, LacksRow};
ghost use Rattle.td_inputs.specs.inner.StateOver.{LacksPlace};

use td_rows::{RowText, Rows};
use td_text::next_line;

// Whether the line is that of a row whose key has no row among these. It takes no memory.
fn lacks_row(rows: &Rows, line: &str) -> bool
    ensures { IsTrue result ↔ LacksRow rows.now line.now }
{
    match RowText::read(line) {
        Some(row) => rows.number_of(row.source, row.arch).is_none(),
        None => false,
    }
}

/// The number of the first line, from 1 on, whose row has no place among these. It takes no memory.
pub fn first_lacking(rows: &Rows, text: &str) -> usize
    requires { LacksPlace rows.now text.now }
    ensures { IsFirstLacking rows.now (lines_of text.now) result }
{
    let mut rest = Some(text);
    // A text may have one line more than a `usize` counts: then each of its bytes is a newline.
    let mut number: u128 = 0;
    while let Some(here) = rest {
        let (line, after) = next_line(here);
        rest = after;
        number += 1;
        if !line.is_empty() && lacks_row(rows, line) {
            return number as usize;
        }
    }
    0
}
