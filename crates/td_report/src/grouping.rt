//! Affected rows by level.
ghost use Rattle.std.specs.Prelude.{◌≡◌, ℕ, ◌+◌, ◌<◌, ◌++◌, ◌∷◌, ◌==◌, [], IfOk, OnOk, length};
ghost use Rattle.std.specs.Prelude.{if◌then◌else◌};
ghost use Rattle.td_waves.specs.declared.level.Level.{Level};
ghost use Rattle.td_report.specs.inner.Grouped.{AreByLevel, list_at};
ghost use Rattle.td_report.specs.Report.{is_level};

use crate::item::Item;
use std::alloc::{AllocError, Global};
use td_waves::Level;

/// Affected rows by the levels of their sources, each list in the order of the keys.
#[derive(Drop)]
pub struct Grouped<'r> {
    /// Level 1 has number 0.
    pub levels: Vec<Vec<Item<'r>>>,
    pub cyclic: Vec<Item<'r>>,
}

// A list of `count` empty lists.
fn empty_lists<'r>(alloc: Global, count: usize) -> Result<Vec<Vec<Item<'r>>>, AllocError>
    ensures empty { IfOk result (λ lists. (n : ℕ) → list_at lists.items n ≡ []) }
    ensures len { IfOk result (λ lists. length lists.items ≡ count) }
{
    let mut lists = Vec::with_capacity(alloc, count)?;
    for _list in 0..count {
        lists.push(Vec::new(alloc))?;
    }
    Ok(lists)
}

// Adds a row to the list of its level, if there is such a list.
fn push_at<'r>(
    lists: &mut Vec<Vec<Item<'r>>>,
    level: usize,
    item: Item<'r>,
) -> Result<(), AllocError>
    ensures lists { OnOk result ((n : ℕ) → n < length lists.old.items → list_at lists.new.items n
        ≡ list_at lists.old.items n ++ (if level == n + 1 then item.entry ∷ [] else [])) }
    ensures len { length lists.new.items ≡ length lists.old.items }
{
    if level > 0 && level <= lists.len() {
        lists[level - 1].push(item)?;
    }
    Ok(())
}

impl<'r> Grouped<'r> {
    ghost use Rattle.std.specs.Prelude.{◌≡◌, ℕ, ◌+◌, ◌<◌, ◌++◌, ◌∷◌, [], OnOk, length};
    ghost use Rattle.std.specs.Prelude.{if◌then◌else◌};
    ghost use Rattle.td_waves.specs.declared.level.Level.{Level};
    ghost use Rattle.td_report.specs.inner.Grouped.{list_at};
    ghost use Rattle.td_report.specs.inner.ItemLines.{stands_at};

    // Adds a row after the others of its level.
    fn push(&mut self, item: Item<'r>) -> Result<(), AllocError>
        ensures levels { OnOk result
            ((n : ℕ) → n < length self.old.levels.items
            → list_at self.new.levels.items n ≡ list_at self.old.levels.items n
            ++ (if stands_at (Level.At (n + 1)) item.entry then item.entry ∷ [] else [])) }
        ensures cyclic { OnOk result (self.new.cyclic.items ≡ self.old.cyclic.items
            ++ (if stands_at Level.Cyclic item.entry then item.entry ∷ [] else [])) }
        ensures len { length self.new.levels.items ≡ length self.old.levels.items }
    {
        match item.level {
            None => Ok(()),
            Some(Level::At(level)) => push_at(&mut self.levels, level, item),
            Some(Level::Cyclic) => {
                self.cyclic.push(item)?;
                Ok(())
            }
        }
    }
}

/// The rows by level, for this many levels.
pub fn by_level<'r>(
    alloc: Global,
    items: &[Item<'r>],
    depth: usize,
) -> Result<Grouped<'r>, AllocError>
    ensures { IfOk result (AreByLevel depth items.now) }
{
    let mut grouped = Grouped {
        levels: empty_lists(alloc, depth)?,
        cyclic: Vec::new(alloc),
    };
    for item in items {
        grouped.push(*item)?;
    }
    Ok(grouped)
}
