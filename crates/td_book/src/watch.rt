//! The rows that are watched, and how many of each group are Installed.
ghost use Rattle.std.specs.Prelude.{◌≡◌, ◌<◌, ℕ, true, [], IfOk, IfSome, length};
ghost use Rattle.std.specs.Prelude.{slice_index, slice_get, if◌then◌else◌};
ghost use Rattle.td_rows.specs.Keys.{ascending};
ghost use Rattle.td_core.specs.History.{rows_of};
ghost use Rattle.td_book.specs.Watching.{is_of, is_there};
ghost use Rattle.td_book.specs.inner.Tallies.{AreChanged, AreTallied, IsEntered, IsStep};
ghost use Rattle.td_book.specs.inner.Tallies.{IsTakenBack, MayStep, group_at};
ghost use Rattle.td_book.specs.inner.Tallies.{made_installed as made_installed_by};

use std::alloc::{AllocError, Global};
use td_core::Books;
use td_journal::EntryNo;
use td_rows::{Key, Kind, Rows, State};

/// Which rows are watched: by row number its group, if the row is watched; by group how many of its
/// rows are Installed.
#[derive(Drop)]
pub struct Watch {
    pub(crate) groups: Vec<Option<usize>>,
    pub(crate) installed: Vec<usize>,
}

// Whether an entry of the kind makes its rows Installed, or takes that from them; None where it
// leaves it.
fn made_installed(kind: &Kind) -> Option<bool>
    ensures { result ≡ made_installed_by kind.now }
{
    match kind {
        Kind::Nmu { .. } => Some(false),
        Kind::Arrive => Some(true),
        _ => None,
    }
}

// Whether the row with a number is Installed.
fn is_installed(rows: &Rows, number: usize) -> bool
    ensures { IfSome (slice_get rows.now number) (λ p. result ≡ is_there p) }
{
    match rows.at(number) {
        Some((_, row)) => matches!(row.state, State::Installed),
        None => false,
    }
}

impl Watch {
    /// No group, and no row.
    pub fn none(alloc: Global) -> Watch
        ensures groups { result.groups.items ≡ [] }
        ensures installed { result.installed.items ≡ [] }
    {
        Watch {
            groups: Vec::new(alloc),
            installed: Vec::new(alloc),
        }
    }

    /// A watch of rows by the group of each, out of this many groups, as the rows are.
    pub fn over(
        alloc: Global,
        groups: usize,
        of_rows: Vec<Option<usize>>,
        rows: &Rows,
    ) -> Result<Watch, AllocError>
        ensures groups { IfOk result (λ watch. watch.groups ≡ of_rows) }
        ensures len { IfOk result (λ watch. length watch.installed.items ≡ groups) }
        ensures counts { IfOk result (λ watch.
            AreTallied is_there watch.installed.items watch.groups.items rows.now) }
    {
        let mut watch = Watch {
            groups: of_rows,
            installed: vec![in alloc; 0; groups]?,
        };
        watch.count(rows);
        Ok(watch)
    }

    // Counts the rows that are Installed.
    fn count(&mut self, rows: &Rows)
        requires { (g : ℕ) → g < length self.old.installed.items
            → slice_index self.old.installed.items g ≡ 0 }
        ensures counts { AreTallied is_there self.new.installed.items self.new.groups.items
            rows.now }
        ensures groups { self.new.groups ≡ self.old.groups }
        ensures len { length self.new.installed.items ≡ length self.old.installed.items }
    {
        for number in 0..rows.len() {
            if is_installed(rows, number) {
                self.change(number, true);
            }
        }
    }

    // The group of the row with a number.
    fn group_of(&self, number: usize) -> Option<usize>
        ensures { result ≡ group_at self.now.groups.items number }
    {
        match self.groups.get(number) {
            Some(group) => *group,
            None => None,
        }
    }

    // One Installed row more in the group of the row with a number, or one less.
    fn change(&mut self, number: usize, there: bool)
        requires { (g : ℕ) → g < length self.old.installed.items
            → is_of (group_at self.old.groups.items number) g ≡ true
            → MayStep there (slice_index self.old.installed.items g) }
        ensures each { (g : ℕ) → g < length self.old.installed.items
            → IsStep there (if is_of (group_at self.old.groups.items number) g then 1 else 0)
            (slice_index self.old.installed.items g) (slice_index self.new.installed.items g) }
        ensures groups { self.new.groups ≡ self.old.groups }
        ensures len { length self.new.installed.items ≡ length self.old.installed.items }
    {
        if let Some(group) = self.group_of(number) {
            if group < self.installed.len() {
                if there {
                    self.installed[group] += 1;
                } else {
                    self.installed[group] -= 1;
                }
            }
        }
    }

    // The rows of the keys are Installed now, or no more.
    fn change_each(&mut self, rows: &Rows, keys: &[Key], there: bool)
        requires rising { ascending keys.now ≡ true }
        requires changed { AreChanged there keys.now self.old.installed.items self.old.groups.items
            rows.now }
        ensures counts { AreTallied is_there self.new.installed.items self.new.groups.items
            rows.now }
        ensures groups { self.new.groups ≡ self.old.groups }
        ensures len { length self.new.installed.items ≡ length self.old.installed.items }
    {
        let _rising = rows.len();
        for key in keys {
            if let Some(number) = rows.number(key) {
                self.change(number, there);
            }
        }
    }

    /// Keeps the counts up with entry n, which was made last.
    pub fn entered(&mut self, books: &Books<'_>, n: EntryNo)
        requires { IsEntered n books.now.history self.old.installed.items self.old.groups.items }
        ensures counts { AreTallied is_there self.new.installed.items self.new.groups.items
            (rows_of books.now.history) }
        ensures groups { self.new.groups ≡ self.old.groups }
        ensures len { length self.new.installed.items ≡ length self.old.installed.items }
    {
        let Some(marked) = books.journal().entry(n) else {
            return;
        };
        if let Some(there) = made_installed(&marked.entry.kind) {
            self.change_each(books.rows(), marked.entry.keys.as_slice(), there);
        }
    }

    /// Keeps the counts up with the undo of entry n.
    pub fn undone(&mut self, books: &Books<'_>, n: EntryNo)
        requires { IsTakenBack n books.now.history self.old.installed.items self.old.groups.items }
        ensures counts { AreTallied is_there self.new.installed.items self.new.groups.items
            (rows_of books.now.history) }
        ensures groups { self.new.groups ≡ self.old.groups }
        ensures len { length self.new.installed.items ≡ length self.old.installed.items }
    {
        let Some(marked) = books.journal().entry(n) else {
            return;
        };
        if let Some(there) = made_installed(&marked.entry.kind) {
            self.change_each(books.rows(), marked.entry.keys.as_slice(), !there);
        }
    }
}
