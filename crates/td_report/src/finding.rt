//! The affected rows among those of a book or of an archive.

use crate::item::Item;
use crate::transition::Transition;
use std::alloc::{AllocError, Global};
use td_rows::Rows;

impl<'b, 't, 'a, 'q> Transition<'b, 't, 'a, 'q> {
    ghost use Rattle.std.specs.Prelude.{◌≡◌, None, IfOk, map, option_map, slice_get};
    ghost use Rattle.std.specs.Option.{option_map_or};
    ghost use Rattle.td_report.specs.inner.ItemLines.{seen};
    ghost use Rattle.td_report.specs.Transition.{affected_row, affected_rows};
    ghost use Rattle.td_report.specs.TransitionView as of;

    // What a report says of the row with a number, if it is affected.
    fn item_at<'r>(&self, rows: &'r Rows, number: usize) -> Option<Item<'r>>
        requires { of.IsMade self.now }
        ensures { option_map seen result
            ≡ option_map_or (affected_row (of.contents_of self.now) (of.tracking_of self.now)
            (of.level_of self.now)) (slice_get rows.now number) None }
    {
        let (key, row) = rows.at(number)?;
        // (few sources have a level, and no other is affected)
        let level = self.waves.level(key.source())?;
        let status = self.status(key)?;
        Some(Item {
            key,
            row,
            status,
            level: Some(level),
        })
    }

    /// The affected ones of the rows, in their order.
    pub(crate) fn items<'r>(
        &self,
        alloc: Global,
        rows: &'r Rows,
    ) -> Result<Vec<Item<'r>>, AllocError>
        requires { of.IsMade self.now }
        ensures { IfOk result (λ items. map seen items.items
            ≡ affected_rows (of.contents_of self.now) (of.tracking_of self.now)
            (of.level_of self.now) rows.now) }
    {
        let mut items = Vec::new(alloc);
        for number in 0..rows.len() {
            if let Some(item) = self.item_at(rows, number) {
                items.push(item)?;
            }
        }
        Ok(items)
    }
}
