//! How rows are written as a state file.
ghost use Rattle.std.specs.Prelude.{◌≡◌, IfOk};
ghost use Rattle.std.specs.String.{string_bytes};
ghost use Rattle.td_rows.specs.StateWriting.{state_text, ReadAgain};

use crate::row_line::put_row_line;
use crate::rows::Rows;
use std::alloc::{AllocError, Global};

/// The rows as text: a line each, in the order of their keys.
pub fn rows_text(alloc: Global, rows: &Rows) -> Result<String, AllocError>
    ensures { IfOk result (λ text. string_bytes text ≡ state_text rows.now) }
{
    let mut text = String::new(alloc);
    for number in 0..rows.len() {
        if let Some((key, row)) = rows.at(number) {
            put_row_line(&mut text, key, row)?;
            text.push_str("\n")?;
        }
    }
    Ok(text)
}

/// What is written of opening rows is a state file, whose rows they are.
pub fn written_rows_are_read_again()
    ensures { ReadAgain }
{}
