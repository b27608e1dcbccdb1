//! The blocks of a report.
ghost use Rattle.std.specs.Prelude.{◌≡◌, ℕ, IfOk, IfSome, List, Some, count_by, map, slice_get};
ghost use Rattle.td_report.specs.inner.Blocks.{AreBlocks, AreGroupedCounts};
ghost use Rattle.td_report.specs.inner.Grouped.{AreByLevel};
ghost use Rattle.td_report.specs.inner.ItemLines.{is_installed, seen};

use crate::block::Block;
use crate::counting::count_installed;
use crate::grouping::Grouped;
use crate::item::Item;
use std::alloc::{AllocError, Global};
use td_waves::Level;

// How many of the rows with a group's number are Installed: what is given, or else counted.
fn installed(items: &[Item<'_>], counts: Option<&[usize]>, group: usize) -> usize
    requires { IfSome counts (λ cs.
        slice_get cs.now group ≡ Some (count_by is_installed items.now)) }
    ensures { result ≡ count_by is_installed items.now }
{
    match counts {
        Some(counts) => counts[group],
        None => count_installed(items),
    }
}

/// The blocks of all levels, and after them that of what is cyclic. If counts of Installed rows
/// are given, that of level k with number k - 1 and that of what is cyclic as the last, these are
/// taken.
pub fn blocks<'g, 'r>(
    alloc: Global,
    grouped: &'g Grouped<'r>,
    counts: Option<&[usize]>,
) -> Result<Vec<Block<'g, 'r>>, AllocError>
    requires { IfSome counts (λ cs. AreGroupedCounts grouped.now cs.now) }
    ensures { (depth : ℕ) (items : List Item) → AreByLevel depth items grouped.now
        → IfOk result (λ bs. AreBlocks depth (map seen items) bs.items) }
{
    let mut blocks = Vec::new(alloc);
    for number in 0..grouped.levels.len() {
        let items: &'g [Item<'r>] = &grouped.levels[number];
        blocks.push(Block {
            level: Level::At(number + 1),
            items,
            installed: installed(items, counts, number),
        })?;
    }
    let items: &'g [Item<'r>] = &grouped.cyclic;
    blocks.push(Block {
        level: Level::Cyclic,
        items,
        installed: installed(items, counts, grouped.levels.len()),
    })?;
    Ok(blocks)
}
