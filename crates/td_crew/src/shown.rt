//! What is read off the book of a desk, put in the words of scripts.
ghost use Rattle.std.specs.Prelude.{◌≡◌, ◌++◌, IfOk, option_map, string_bytes};
ghost use Rattle.td_script.specs.declared.line.Said.TheVariants.{Asked};
ghost use Rattle.td_script.specs.Answering.{Answers};
ghost use Rattle.td_script.specs.Reading.{said_at};
ghost use Rattle.td_script.specs.Replies.{entry_made};
ghost use Rattle.td_desk.specs.Calls.{IsMetBy};
ghost use Rattle.td_crew.specs.Lines.{FitAnyBook};
ghost use Rattle.td_crew.specs.Replies.{MayShow, Says, keys_at, request_of, shown_by};

use crate::line_answers::LineAnswers;
use crate::lines::Lines;
use std::alloc::{AllocError, Global};
use std::sync::Wait;
use std::sync::ledger::Ledger;
use td_book::Book;
use td_desk::{Clerk, Desk, Looks, Named};
use td_journal::EntryNo;
use td_rows::Key;
use td_script::{Reports, put_taken, show_entry, show_journal, show_report, show_row};

/// What a line asks to see of a book.
#[derive(Clone, Copy)]
pub enum View<'k> {
    Row(&'k Key),
    Entry(EntryNo),
    Report,
    Journal,
}

/// What a book shows, and whether that is a refusal.
#[derive(Drop)]
pub struct Shown {
    text: String,
    refused: bool,
}

/// Appends what a book showed. Answers whether it is a refusal.
pub fn put_shown(out: &mut String, shown: Shown) -> Result<bool, AllocError>
    ensures { IfOk result (λ refused.
        (string_bytes out.new ≡ string_bytes out.old ++ string_bytes shown.text)
        × (refused ≡ shown.refused)) }
{
    out.push_str(shown.text.as_str())?;
    Ok(shown.refused)
}

// Appends a view of a book. The reports fit any book.
fn put_view<T: Reports>(
    alloc: Global,
    book: &Book<'_>,
    reports: Option<&T>,
    view: View<'_>,
    out: &mut String,
) -> Result<bool, AllocError>
    requires { FitAnyBook T.fits reports }
    ensures { IfOk result (Answers
        (shown_by (option_map (λ r. T.text r.now) reports.entry) book.now.history view.entry)
        book.now book.now (string_bytes out.old) (string_bytes out.new)) }
{
    match view {
        View::Row(key) => show_row(book, key, out),
        View::Entry(n) => show_entry(book, n, out),
        View::Report => show_report(alloc, book, reports, out),
        View::Journal => show_journal(book, out),
    }
}

/// What looks at a book for a line that asks to see something of it, with what makes the report,
/// if there is a tracker.
#[derive(Drop)]
pub struct Look<'r, T: Reports> {
    alloc: Global,
    reports: Option<&'r T>,
    view: View<'r>,
}

impl<T: Reports> Looks<Result<Shown, AllocError>> for Look<'_, T> {
    ghost use Rattle.std.specs.Prelude.{IfOk, option_map};
    ghost use Rattle.td_crew.specs.Lines.{FitAnyBook};
    ghost use Rattle.td_crew.specs.Replies.{IsShown, shown_by};

    ghost asks = { λ x. FitAnyBook T.fits x.reports };

    ghost sees = { λ x book result. IfOk result
        (IsShown (shown_by (option_map (λ r. T.text r.now) x.reports) book.history x.view)) };

    fn see(&self, book: &Book<'_>) -> Result<Shown, AllocError> {
        let mut text = String::new(self.alloc);
        let refused = put_view(self.alloc, book, self.reports, self.view, &mut text)?;
        Ok(Shown { text, refused })
    }
}

/// Appends what a line asks to see, as the book under the lock shows it. The reports fit any book.
pub fn show<N: Named, C: Ledger, T: Reports, R: Wait>(
    rt: &R,
    desk: &Desk<'_, N, C>,
    clerk: &mut Clerk<C>,
    lines: &Lines<'_, '_, T>,
    view: View<'_>,
    out: &mut LineAnswers<'_, N>,
) -> Result<bool, AllocError>
    requires fits { FitAnyBook T.fits lines.now.reports }
    requires line { said_at out.old.turn.line.now ≡ Asked (request_of view) }
    ensures same { clerk.new ≡ clerk.old }
    ensures turn { out.new.turn ≡ out.old.turn }
    ensures says { IfOk result (Says
        (MayShow (IsMetBy N.table N.origin N.opened clerk.old.parts clerk.old.receipts)
        (λ h. shown_by (option_map (λ r. T.text r.now) lines.now.reports) h view.entry))
        (string_bytes out.old.text) (string_bytes out.new.text) clerk.old.receipts
        clerk.old.receipts) }
{
    let look = Look {
        alloc: lines.alloc,
        reports: lines.reports,
        view,
    };
    out.shown(desk.show_as::<Result<Shown, AllocError>, _, _>(rt, clerk, &look))
}

// The line of an entry that a sweep made, by the journal of a book after it.
fn swept_in(alloc: Global, book: &Book<'_>, n: EntryNo) -> Result<String, AllocError>
    ensures { IfOk result (λ text. string_bytes text
        ≡ entry_made n (keys_at book.now.history.journal n)) }
{
    let mut text = String::new(alloc);
    match book.journal().entry(n) {
        Some(marked) => put_taken(&mut text, n, marked.entry.keys.as_slice())?,
        None => put_taken(&mut text, n, &[])?,
    }
    Ok(text)
}

/// What looks for the entry that a sweep made in the journal of a book after it.
#[derive(Drop)]
pub struct SweptLook {
    pub alloc: Global,
    pub number: EntryNo,
}

impl Looks<Result<String, AllocError>> for SweptLook {
    ghost use Rattle.std.specs.Prelude.{◌≡◌, IfOk, string_bytes};
    ghost use Rattle.td_script.specs.Replies.{entry_made};
    ghost use Rattle.td_crew.specs.Replies.{keys_at};

    ghost asks = { λ x. Unit {0} };

    ghost sees = { λ x book result. IfOk result (λ text. string_bytes text
        ≡ entry_made x.number (keys_at book.history.journal x.number)) };

    fn see(&self, book: &Book<'_>) -> Result<String, AllocError> {
        swept_in(self.alloc, book, self.number)
    }
}
