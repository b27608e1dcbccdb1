//! The lines of a report except those of its rows.
ghost use Rattle.std.specs.Prelude.{◌≡◌, ◌++◌, ◌∷◌, [], OnOk, codes, decimal, map, string_bytes};
ghost use Rattle.td_report.specs.inner.ItemLines.{seen};
ghost use Rattle.td_report.specs.Report.{head_line, last_line, level_words, title_line};

use crate::counting::count_of;
use crate::item::Item;
use std::alloc::AllocError;
use td_query::Status;
use td_text::put_number;
use td_waves::Level;

/// Appends a line.
pub fn put_line(out: &mut String, line: &str) -> Result<(), AllocError>
    ensures { OnOk result (string_bytes out.new ≡ string_bytes out.old ++ (line.now ++ 10 ∷ [])) }
{
    out.push_str(line)?;
    out.push_str("\n")
}

/// Appends the first line.
pub fn put_title_line(out: &mut String, title: &str) -> Result<(), AllocError>
    ensures { OnOk result
        (string_bytes out.new ≡ string_bytes out.old ++ (title_line title.now ++ 10 ∷ [])) }
{
    out.push_str("tracker ")?;
    out.push_str(title)?;
    out.push_str("\n")
}

/// Appends the name of a level.
pub fn put_level(out: &mut String, level: Level) -> Result<(), AllocError>
    ensures { OnOk result (string_bytes out.new ≡ string_bytes out.old ++ level_words level) }
{
    match level {
        Level::At(number) => put_counted(out, "level ", number),
        Level::Cyclic => out.push_str("cyclic"),
    }
}

// Appends words and a number after them.
fn put_counted(out: &mut String, words: &str, count: usize) -> Result<(), AllocError>
    ensures { OnOk result
        (string_bytes out.new ≡ string_bytes out.old ++ (words.now ++ decimal count)) }
{
    out.push_str(words)?;
    put_number(out, count as u64)
}

/// Appends the line over the rows of a level.
pub fn put_head_line(
    out: &mut String,
    level: Level,
    rows: usize,
    installed: usize,
) -> Result<(), AllocError>
    ensures { OnOk result (string_bytes out.new
        ≡ string_bytes out.old ++ (head_line level rows installed ++ 10 ∷ [])) }
{
    put_level(out, level)?;
    put_counted(out, " rows ", rows)?;
    put_counted(out, " installed ", installed)?;
    out.push_str("\n")
}

/// Appends the last line.
pub fn put_last_line(out: &mut String, items: &[Item<'_>]) -> Result<(), AllocError>
    ensures { OnOk result (string_bytes out.new
        ≡ string_bytes out.old ++ (last_line (map seen items.now) ++ 10 ∷ [])) }
{
    put_counted(out, "affected ", items.len())?;
    put_counted(out, " good ", count_of(items, Status::Good))?;
    put_counted(out, " bad ", count_of(items, Status::Bad))?;
    put_counted(out, " partial ", count_of(items, Status::Partial))?;
    put_counted(out, " unknown ", count_of(items, Status::Unknown))?;
    out.push_str("\n")
}
