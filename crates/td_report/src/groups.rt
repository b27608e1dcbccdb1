//! Affected rows in groups, by the levels of their sources.
ghost use Rattle.std.specs.Prelude.{◌≡◌};
ghost use Rattle.td_report.specs.Groups.{level_group as level_group_of};

use crate::transition::Transition;
use std::alloc::{AllocError, Global};
use td_rows::{Key, Rows};
use td_waves::Level;

/// Rows under their groups, which a book can watch.
#[derive(Drop)]
pub struct Groups {
    /// How many groups there are.
    pub count: usize,
    /// The keys of the rows that have a group, each with it.
    pub rows: Vec<(Key, usize)>,
}

// The group of a level.
fn level_group(depth: usize, level: Option<Level>) -> Option<usize>
    ensures { result ≡ level_group_of depth level }
{
    match level {
        None => None,
        Some(Level::At(number)) => Some(number.saturating_sub(1)),
        Some(Level::Cyclic) => Some(depth),
    }
}

impl<'b, 't, 'a, 'q> Transition<'b, 't, 'a, 'q> {
    ghost use Rattle.std.specs.Prelude.{◌≡◌, ◌+◌, None, IfOk, slice_get};
    ghost use Rattle.std.specs.Option.{option_map_or};
    ghost use Rattle.td_report.specs.Groups.{group_of, grouped, with_group};
    ghost use Rattle.td_report.specs.TransitionView.{IsMade, depth_of};

    /// The group of a key's row, none if it isn't affected: level k has number k - 1, and what is
    /// cyclic has number `depth`.
    pub fn group(&self, key: &Key) -> Option<usize>
        requires { IsMade self.now }
        ensures { result ≡ group_of self.now key.now }
    {
        let _affected = self.status(key)?;
        level_group(self.depth(), self.level(key.source()))
    }

    // The key of the row with a number, with its group.
    fn grouped_at(&self, rows: &Rows, number: usize) -> Result<Option<(Key, usize)>, AllocError>
        requires { IsMade self.now }
        ensures { IfOk result
            (λ pair. pair ≡ option_map_or (with_group self.now) (slice_get rows.now number) None) }
    {
        let Some((key, _row)) = rows.at(number) else {
            return Ok(None);
        };
        match self.group(key) {
            Some(group) => Ok(Some((key.copy()?, group))),
            None => Ok(None),
        }
    }

    /// The affected rows under their groups, which a book is to watch.
    pub fn groups(&self, alloc: Global, rows: &Rows) -> Result<Groups, AllocError>
        requires { IsMade self.now }
        ensures count { IfOk result (λ groups. groups.count ≡ depth_of self.now + 1) }
        ensures rows { IfOk result (λ groups. groups.rows.items ≡ grouped self.now rows.now) }
    {
        // (counts of more groups have no room in memory)
        let Some(count) = self.depth().checked_add(1) else {
            return Err(AllocError);
        };
        let mut grouped = Vec::new(alloc);
        for number in 0..rows.len() {
            if let Some(pair) = self.grouped_at(rows, number)? {
                grouped.push(pair)?;
            }
        }
        Ok(Groups {
            count,
            rows: grouped,
        })
    }
}
