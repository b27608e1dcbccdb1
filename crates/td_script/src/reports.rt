//! The report of the rows, as a script asks for it.
ghost use Rattle.std.specs.Prelude.{◌≡◌, ℕ, List, IfOk, string_bytes};
ghost use Rattle.td_rows.specs.Table.{Table};
ghost use Rattle.td_core.specs.History.{rows_of};
ghost use Rattle.td_book.specs.Desk.{Fixed};
ghost use Rattle.td_script.specs.Reporting.{made, report_by};

use std::alloc::{AllocError, Global};
use td_book::Book;
use td_report::Transition;

/// What makes the report of a book's rows.
pub trait Reports {
    /// The report of the rows, each line with its newline.
    ghost text: { Self → Table → List ℕ };

    /// What has to hold of the reports, of the rows with which the history opens, and of what no
    /// call changes of the book.
    ghost fits: { Self → Table → Fixed → Type 0 };

    fn report(&self, alloc: Global, book: &Book<'_>) -> Result<String, AllocError>
        requires { fits self.now book.now.history.opening book.now.fixed }
        ensures { IfOk result (λ report.
            string_bytes report ≡ text self.now (rows_of book.now.history)) };
}

/// Reports that are made anew of all rows each time.
impl Reports for Transition<'_, '_, '_, '_> {
    ghost text = { λ x rows. report_by x rows };

    ghost fits = { λ x opening fixed. made x opening fixed };

    fn report(&self, alloc: Global, book: &Book<'_>) -> Result<String, AllocError> {
        Transition::report(self, alloc, book.rows())
    }
}
