//! The rows that wait for a builder.
ghost use Rattle.std.specs.Prelude.{◌≡◌, IfOk};
ghost use Rattle.std.specs.List.Sorted.{IsPermutation, IsSortedBy};
ghost use Rattle.td_core.specs.History.{rows_of};
ghost use Rattle.td_book.specs.Ready.{IsReady, is_any_queued, is_before};
ghost use Rattle.td_book.specs.Ready.{priority_of as priority_in};

use crate::book::Book;
use std::alloc::{AllocError, Global};
use std::cmp::Reverse;
use td_rows::Rows;

// The priority of the row with a number.
fn priority_of(rows: &Rows, number: usize) -> i16
    ensures { result ≡ priority_in rows.now number }
{
    match rows.at(number) {
        Some((_, row)) => row.priority.get(),
        None => 0,
    }
}

/// Puts first what is to be built first, of the rows with these numbers.
pub fn sort_ready(rows: &Rows, numbers: &mut Vec<usize>)
    ensures all { IsPermutation numbers.old.items numbers.new.items }
    ensures order { IsSortedBy (is_before rows.now) numbers.new.items }
{
    numbers.sort_unstable_by_key(|number| (Reverse(priority_of(rows, *number)), *number));
}

impl<'a> Book<'a> {
    /// Whether any row waits for a builder. No row is looked at.
    pub fn waits(&self) -> bool
        ensures { result ≡ is_any_queued (rows_of self.now.history) }
    {
        self.inner.desk.is_any_out()
    }

    /// The numbers of the rows that wait for a builder: greater priority first, then by key. No
    /// other row is looked at.
    pub fn ready(&self) -> Result<Vec<usize>, AllocError>
        ensures { IfOk result (λ numbers. IsReady (rows_of self.now.history) numbers.items) }
    {
        let rows = self.inner.books.rows();
        let mut numbers = self.inner.desk.outs(self.alloc)?;
        sort_ready(rows, &mut numbers);
        Ok(numbers)
    }
}
