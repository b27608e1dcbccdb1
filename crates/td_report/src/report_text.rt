//! The text of a report.
ghost use Rattle.std.specs.Prelude.{◌≡◌, ◌++◌, IfOk, IfSome, OnOk, map, string_bytes};
ghost use Rattle.std.specs.List.{flat_map};
ghost use Rattle.td_text.specs.Lines.{text_of};
ghost use Rattle.td_report.specs.declared.shown.Shown.{Shown};
ghost use Rattle.td_report.specs.inner.Blocks.{AreInstalledCounts, texts_of};
ghost use Rattle.td_report.specs.inner.ItemLines.{seen};
ghost use Rattle.td_report.specs.inner.LinesText.{lines_text};
ghost use Rattle.td_report.specs.Report.{block_at, block_of, levels, lines_showing};

use crate::block::Block;
use crate::blocks::blocks;
use crate::grouping::by_level;
use crate::item::Item;
use crate::lines::Lines;
use crate::writing::{put_head_line, put_last_line, put_title_line};
use std::alloc::{AllocError, Global};

// Appends the lines of a block, given the lines of its rows.
fn put_block_lines(out: &mut String, block: &Block<'_, '_>, lines: &str) -> Result<(), AllocError>
    ensures { (shown : Shown) → lines.now ≡ lines_text shown block.now.items.now
        → OnOk result (string_bytes out.new ≡ string_bytes out.old
        ++ text_of (block_of shown block.now.level (map seen block.now.items.now))) }
{
    if block.items.is_empty() {
        return Ok(());
    }
    put_head_line(out, block.level, block.items.len(), block.installed)?;
    out.push_str(lines)
}

fn put_block<L: Lines>(
    alloc: Global,
    out: &mut String,
    block: &Block<'_, '_>,
    lines: &L,
) -> Result<(), AllocError>
    requires { L.ready lines.now }
    ensures { OnOk result (string_bytes out.new ≡ string_bytes out.old
        ++ text_of (block_of (L.shown lines.now) block.now.level
        (map seen block.now.items.now))) }
{
    let made = lines.of(alloc, block.items)?;
    put_block_lines(out, block, &made)
}

fn put_blocks<L: Lines>(
    alloc: Global,
    out: &mut String,
    blocks: &[Block<'_, '_>],
    lines: &L,
) -> Result<(), AllocError>
    requires { L.ready lines.now }
    ensures { OnOk result (string_bytes out.new
        ≡ string_bytes out.old ++ texts_of (block_of (L.shown lines.now)) blocks.now) }
{
    for block in blocks {
        put_block(alloc, out, block, lines)?;
    }
    Ok(())
}

// Appends the lines of all levels.
fn put_levels<L: Lines>(
    alloc: Global,
    out: &mut String,
    items: &[Item<'_>],
    depth: usize,
    counts: Option<&[usize]>,
    lines: &L,
) -> Result<(), AllocError>
    requires ready { L.ready lines.now }
    requires counts { IfSome counts (λ cs. AreInstalledCounts depth (map seen items.now) cs.now) }
    ensures { OnOk result (string_bytes out.new ≡ string_bytes out.old
        ++ text_of (flat_map (block_at (L.shown lines.now) (map seen items.now)) (levels depth))) }
{
    let grouped = by_level(alloc, items, depth)?;
    let blocks = blocks(alloc, &grouped, counts)?;
    put_blocks(alloc, out, &blocks, lines)
}

/// The report with this title for this many levels and these affected rows; `lines` makes the
/// lines of the rows. Counts of Installed rows are taken as given: level k has number k - 1, and
/// what is cyclic is the last.
pub fn report_text<L: Lines>(
    alloc: Global,
    title: &str,
    depth: usize,
    items: &[Item<'_>],
    counts: Option<&[usize]>,
    lines: &L,
) -> Result<String, AllocError>
    requires ready { L.ready lines.now }
    requires counts { IfSome counts (λ cs. AreInstalledCounts depth (map seen items.now) cs.now) }
    ensures { IfOk result (λ text. string_bytes text
        ≡ text_of (lines_showing (L.shown lines.now) title.now depth (map seen items.now))) }
{
    let mut out = String::new(alloc);
    put_title_line(&mut out, title)?;
    put_levels(alloc, &mut out, items, depth, counts, lines)?;
    put_last_line(&mut out, items)?;
    Ok(out)
}
