//! Rows that are watched under groups.
ghost use Rattle.std.specs.Prelude.{◌≡◌, ◌<◌, [], None, Some, IfOk, IfNone, length, map, slice_set};
ghost use Rattle.std.specs.Option.{option_copied};
ghost use Rattle.td_rows.specs.Table.{keys_of};
ghost use Rattle.td_core.specs.History.{rows_of};
ghost use Rattle.td_book.specs.Watching.{group_in, installed_in, watch_of};
ghost use Rattle.td_book.specs.inner.WatchOver.{IsOver};
ghost use Rattle.td_book.specs.WatchCalls.{WatchOutcome, outside_in, twice_in, unknown_in};

use crate::book::Book;
use crate::watch::Watch;
use std::alloc::{AllocError, Global};
use td_rows::{Key, Rows};

/// Why rows aren't watched.
#[derive(Debug, Drop)]
pub enum WatchRefusal {
    NoSuchRow(Key),
    /// The key stands there twice.
    Twice(Key),
    /// The key's group isn't below their number.
    BadGroup(Key),
    NoMemory,
}

// The first key that has no row.
fn unknown<'k>(rows: &Rows, given: &'k [(Key, usize)]) -> Option<&'k Key>
    ensures { option_copied result ≡ unknown_in rows.now given.now }
{
    let _rising = rows.len();
    for pair in given {
        let Some(_number) = rows.number(&pair.0) else {
            return Some(&pair.0);
        };
    }
    None
}

// The first key whose group isn't below their number.
fn outside<'k>(groups: usize, given: &'k [(Key, usize)]) -> Option<&'k Key>
    ensures { option_copied result ≡ outside_in groups given.now }
{
    for pair in given {
        if pair.1 >= groups {
            return Some(&pair.0);
        }
    }
    None
}

// Sets the group of the row with a number.
fn set_group(of_rows: &mut Vec<Option<usize>>, number: usize, group: usize)
    requires { number < length of_rows.old.items }
    ensures { of_rows.new.items ≡ slice_set of_rows.old.items number (Some group) }
{
    of_rows[number] = Some(group);
}

// Sets the groups of the rows, up to the first key that stands there twice.
fn set_groups<'k>(
    of_rows: &mut Vec<Option<usize>>,
    rows: &Rows,
    given: &'k [(Key, usize)],
) -> Option<&'k Key>
    requires known { unknown_in rows.now given.now ≡ None }
    requires none { of_rows.old.items ≡ map (group_in []) (keys_of rows.now) }
    ensures twice { option_copied result ≡ twice_in [] given.now }
    ensures set { IfNone result (of_rows.new.items ≡ map (group_in given.now) (keys_of rows.now)) }
{
    let _rising = rows.len();
    for pair in given {
        if let Some(number) = rows.number(&pair.0) {
            if of_rows[number].is_some() {
                return Some(&pair.0);
            }
            set_group(of_rows, number, pair.1);
        }
    }
    None
}

// A place for the group of each row.
fn no_groups(alloc: Global, rows: &Rows) -> Result<Vec<Option<usize>>, AllocError>
    ensures { IfOk result (λ of_rows. of_rows.items ≡ map (group_in []) (keys_of rows.now)) }
{
    let mut of_rows = Vec::with_capacity(alloc, rows.len())?;
    for _ in 0..rows.len() {
        of_rows.push(None)?;
    }
    Ok(of_rows)
}

impl<'a> Book<'a> {
    /// Watches rows, each under a group below their number, instead of those that were watched
    /// before.
    pub fn watch(&mut self, groups: usize, rows: &[(Key, usize)]) -> Result<(), WatchRefusal>
        ensures { WatchOutcome groups rows.now self.old self.new result }
    {
        let watch = self.watch_over(groups, rows)?;
        self.inner.set_watch(watch);
        Ok(())
    }

    /// How many watched rows of the group are Installed; none for no such group. They are counted
    /// as they change.
    pub fn installed(&self, group: usize) -> Option<usize>
        ensures { result ≡ installed_in self.now.fixed.watch (rows_of self.now.history) group }
    {
        self.inner.books.installed(group)
    }

    // A watch of the rows as they are.
    fn watch_over(&self, groups: usize, given: &[(Key, usize)]) -> Result<Watch, WatchRefusal>
        ensures { IsOver groups given.now self.now result }
    {
        let rows = self.inner.books.rows();
        if let Some(key) = unknown(rows, given) {
            let Ok(key) = key.copy() else {
                return Err(WatchRefusal::NoMemory);
            };
            return Err(WatchRefusal::NoSuchRow(key));
        }
        let Ok(mut of_rows) = no_groups(self.alloc, rows) else {
            return Err(WatchRefusal::NoMemory);
        };
        if let Some(key) = set_groups(&mut of_rows, rows, given) {
            let Ok(key) = key.copy() else {
                return Err(WatchRefusal::NoMemory);
            };
            return Err(WatchRefusal::Twice(key));
        }
        if let Some(key) = outside(groups, given) {
            let Ok(key) = key.copy() else {
                return Err(WatchRefusal::NoMemory);
            };
            return Err(WatchRefusal::BadGroup(key));
        }
        match Watch::over(self.alloc, groups, of_rows, rows) {
            Ok(watch) => Ok(watch),
            Err(_) => Err(WatchRefusal::NoMemory),
        }
    }
}
