//! The line of an affected row.
ghost use Rattle.std.specs.Prelude.{◌≡◌, ◌++◌, ◌∷◌, [], OnOk, decimal, string_bytes};
ghost use Rattle.std.specs.Fmt.{signed_decimal};
ghost use Rattle.td_rows.specs.StateWord.{state_word};
ghost use Rattle.td_report.specs.inner.ItemLines.{item_line};

use crate::item::Item;
use std::alloc::AllocError;
use td_rows::{Row, put_key, put_state_word};
use td_text::{put_number, put_signed};

// Appends what a report says of a row as such.
fn put_row_words(out: &mut String, row: &Row) -> Result<(), AllocError>
    ensures { OnOk result
        (string_bytes out.new ≡ string_bytes out.old ++ (state_word row.now.state
        ++ 32 ∷ (signed_decimal row.now.priority ++ 32 ∷ decimal row.now.number))) }
{
    put_state_word(out, row.state)?;
    out.push_str(" ")?;
    put_signed(out, row.priority.get())?;
    out.push_str(" ")?;
    put_number(out, row.number.get() as u64)
}

/// Appends the line of an affected row.
pub fn put_item_line(out: &mut String, item: &Item<'_>) -> Result<(), AllocError>
    ensures { OnOk result
        (string_bytes out.new ≡ string_bytes out.old ++ (item_line item.now ++ 10 ∷ [])) }
{
    put_key(out, item.key)?;
    out.push_str(" ")?;
    out.push_str(item.status.name())?;
    out.push_str(" ")?;
    put_row_words(out, item.row)?;
    out.push_str("\n")
}
