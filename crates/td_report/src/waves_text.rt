//! The text of waves: the sources of each level.
ghost use Rattle.std.specs.Prelude.{◌≡◌, ◌++◌, None, IfOk, OnOk, map, option_map, string_bytes};
ghost use Rattle.td_text.specs.Lines.{text_of};
ghost use Rattle.td_report.specs.inner.Blocks.{texts_of};
ghost use Rattle.td_report.specs.inner.ItemLines.{seen, source_of};
ghost use Rattle.td_report.specs.Report.{each_once, is_last as is_last_of, wave_of, waves_lines};

use crate::block::Block;
use crate::blocks::blocks;
use crate::grouping::by_level;
use crate::item::Item;
use crate::writing::{put_level, put_line};
use std::alloc::{AllocError, Global};

// Whether a text is the last one.
fn is_last(last: Option<&str>, text: &str) -> bool
    ensures { result ≡ is_last_of (option_map (λ l. l.now) last.entry) text.now }
{
    match last {
        Some(last) => last == text,
        None => false,
    }
}

// Appends the sources of rows that are in the order of their keys, each once.
fn put_sources(out: &mut String, items: &[Item<'_>]) -> Result<(), AllocError>
    ensures { OnOk result (string_bytes out.new
        ≡ string_bytes out.old ++ text_of (each_once None (map source_of items.now))) }
{
    let mut last = None;
    for item in items {
        let source = item.key.source();
        if !is_last(last, source) {
            put_line(out, source)?;
        }
        last = Some(source);
    }
    Ok(())
}

// Appends the lines of a block.
fn put_wave(out: &mut String, block: &Block<'_, '_>) -> Result<(), AllocError>
    ensures { OnOk result (string_bytes out.new ≡ string_bytes out.old
        ++ text_of (wave_of block.now.level (map seen block.now.items.now))) }
{
    if block.items.is_empty() {
        return Ok(());
    }
    put_level(out, block.level)?;
    out.push_str("\n")?;
    put_sources(out, block.items)
}

fn put_waves(out: &mut String, blocks: &[Block<'_, '_>]) -> Result<(), AllocError>
    ensures { OnOk result
        (string_bytes out.new ≡ string_bytes out.old ++ texts_of wave_of blocks.now) }
{
    for block in blocks {
        put_wave(out, block)?;
    }
    Ok(())
}

/// The sources of these affected rows by level, for this many levels.
pub fn waves_text(alloc: Global, depth: usize, items: &[Item<'_>]) -> Result<String, AllocError>
    ensures { IfOk result
        (λ text. string_bytes text ≡ text_of (waves_lines depth (map seen items.now))) }
{
    let grouped = by_level(alloc, items, depth)?;
    let blocks = blocks(alloc, &grouped, None)?;
    let mut out = String::new(alloc);
    put_waves(&mut out, &blocks)?;
    Ok(out)
}
