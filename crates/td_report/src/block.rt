//! What a report says of one level.
ghost use Rattle.std.specs.Prelude.{◌≡◌, count_by};
ghost use Rattle.td_report.specs.inner.ItemLines.{is_installed};

use crate::item::Item;
use td_waves::Level;

/// The affected rows of a level, in the order of their keys, and how many of them are Installed.
#[derive(Clone, Copy)]
pub struct Block<'g, 'r> {
    pub level: Level,
    pub items: &'g [Item<'r>],
    pub installed: usize,
    ghost counted: { installed ≡ count_by is_installed items.now },
}
