//! Reports by the counts of a book that watches the groups of a transition.
ghost use Rattle.std.specs.Prelude.{◌≡◌, ◌<◌, ◌^◌, ◌-◌, ℕ, Some, IfOk, OnOk, length};
ghost use Rattle.std.specs.Prelude.{slice_get, string_bytes};
ghost use Rattle.td_core.specs.History.{rows_of};
ghost use Rattle.td_book.specs.Watching.{installed_in};
ghost use Rattle.td_book.specs.WatchCalls.{with_watch};
ghost use Rattle.td_report.specs.TransitionView.{IsMade};
ghost use Rattle.td_script.specs.Ends.{IsAnswered};
ghost use Rattle.td_script.specs.Reporting.{made, report_by};
ghost use Rattle.td_script.specs.Script.{IsTold};
ghost use Rattle.td_script.specs.Settings.{IsLentTo, setting_lent};
ghost use Rattle.td_script.specs.Watched.{Watches, watch_by};

use crate::lent::Lent;
use crate::reports::Reports;
use crate::told::{Told, tell};
use std::alloc::{AllocError, Global};
use td_book::Book;
use td_report::Transition;

/// A transition whose groups a book watches.
#[derive(Drop)]
pub struct Watched<'w, 'b, 't, 'a, 'q> {
    pub transition: &'w Transition<'b, 't, 'a, 'q>,
}

/// Reports whose Installed rows the book has counted.
impl Reports for Watched<'_, '_, '_, '_, '_> {
    ghost text = { λ w rows. report_by w.transition.now rows };

    ghost fits = { λ w opening fixed. Watches w.transition.now opening fixed };

    fn report(&self, alloc: Global, book: &Book<'_>) -> Result<String, AllocError> {
        let counts = counts_of(alloc, book)?;
        self.transition.report_counted(alloc, book.rows(), &counts)
    }
}

// How many rows of each group that a book watches are Installed.
fn counts_of(alloc: Global, book: &Book<'_>) -> Result<Vec<usize>, AllocError>
    ensures { IfOk result (λ counts.
        (group : ℕ) → slice_get counts.items group
        ≡ installed_in book.now.fixed.watch (rows_of book.now.history) group) }
{
    let mut counts = Vec::new(alloc);
    while let Some(count) = book.installed(counts.len()) {
        counts.push(count)?;
    }
    Ok(counts)
}

// Has a book watch the groups of a transition.
fn watch(
    alloc: Global,
    book: &mut Book<'_>,
    transition: &Transition<'_, '_, '_, '_>,
) -> Result<(), AllocError>
    requires { IsMade transition.now }
    ensures { OnOk result
        (book.new ≡ with_watch book.old (watch_by transition.now book.old.history.opening)) }
{
    let groups = transition.groups(alloc, book.rows())?;
    match book.watch(groups.count, &groups.rows) {
        Ok(()) => Ok(()),
        Err(_) => Err(AllocError),
    }
}

// Answers the lines of a script, one after the other, from a book that watches the groups.
fn tell_counted(
    book: &mut Book<'_>,
    lent: &Lent<'_, '_, '_, Transition<'_, '_, '_, '_>>,
    reports: &Watched<'_, '_, '_, '_, '_>,
    script: &str,
) -> Result<Told, AllocError>
    requires lent { IsLentTo Watches lent.now.board.now.table (Some reports.now.transition)
        book.old }
    requires small { length script.now < 2 ^ 63 - 1 }
    ensures { IfOk result (IsTold
        (setting_lent report_by book.old.fixed.stock lent.now.suites.now
        (Some reports.now.transition)) script.now book.old book.new) }
{
    let lent = Lent {
        alloc: lent.alloc,
        board: lent.board,
        suites: lent.suites,
        reports: Some(reports),
    };
    tell(book, &lent, script)
}

/// Answers the lines of a script, one after the other, from a book without builders, which watches
/// the groups of the transition if there is one.
pub fn tell_watched(
    book: &mut Book<'_>,
    lent: &Lent<'_, '_, '_, Transition<'_, '_, '_, '_>>,
    script: &str,
) -> Result<Told, AllocError>
    requires lent { IsLentTo made lent.now.board.now.table lent.now.reports book.old }
    requires small { length script.now < 2 ^ 63 - 1 }
    ensures { IfOk result (λ told.
        IsAnswered (setting_lent report_by book.old.fixed.stock lent.now.suites.now
        lent.now.reports) book.old.history script.now (string_bytes told.text) told.refused) }
{
    match lent.reports {
        Some(transition) => {
            watch(lent.alloc, book, transition)?;
            tell_counted(book, lent, &Watched { transition }, script)
        }
        None => tell(book, lent, script),
    }
}
