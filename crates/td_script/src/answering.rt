//! The answers to requests. If memory runs out, nothing is appended, though the book may have
//! done what was asked for.
ghost use Rattle.std.specs.Prelude.{◌≡◌, false, IfOk, IfSome, OnErr, option_map};
ghost use Rattle.std.specs.String.{string_bytes};
ghost use Rattle.td_rows.specs.Table.{row_of};
ghost use Rattle.td_journal.specs.JournalText.{journal_text};
ghost use Rattle.td_core.specs.History.{rows_of};
ghost use Rattle.td_core.specs.Offers.{freed, supply_now};
ghost use Rattle.td_book.specs.Undoing.{undo_stop};
ghost use Rattle.td_script.specs.Answering.{Answers, IsLeftBy};
ghost use Rattle.td_script.specs.Replies.{undoes, arrives, sweeps, shows_row, shows_entry, says};
ghost use Rattle.td_script.specs.Replies.{reports as reports_of};
ghost use Rattle.td_script.specs.Replying.{IsPut};

use crate::replying::{put_arrival, put_asked_entry, put_asked_row, put_sweep, put_undo};
use crate::reports::Reports;
use crate::writing::refuse;
use std::alloc::{AllocError, Global};
use td_board::Board;
use td_book::Book;
use td_journal::{EntryNo, put_journal};
use td_rows::Key;

/// Undoes an entry. This answer and those below say whether the line is refused.
pub fn undo(
    book: &mut Book<'_>,
    board: &Board,
    n: EntryNo,
    out: &mut String,
) -> Result<bool, AllocError>
    requires board { board.now.table ≡ book.old.fixed.table }
    requires alone { book.old.fixed.builders ≡ 0 }
    ensures ok { IfOk result (Answers
        (undoes book.old.history n (undo_stop book.old.history.journal n)) book.old book.new
        (string_bytes out.old) (string_bytes out.new)) }
    ensures err { OnErr result (string_bytes out.new ≡ string_bytes out.old) }
    ensures book { IsLeftBy
        (undoes book.old.history n (undo_stop book.old.history.journal n)) book.old book.new }
{
    put_undo(out, n, book.undo(board, n))
}

/// The key's build has arrived.
pub fn arrive(book: &mut Book<'_>, key: &Key, out: &mut String) -> Result<bool, AllocError>
    ensures ok { IfOk result (Answers
        (arrives book.old.history key.now (row_of (rows_of book.old.history) key.now)) book.old
        book.new (string_bytes out.old) (string_bytes out.new)) }
    ensures err { OnErr result (string_bytes out.new ≡ string_bytes out.old) }
    ensures book { IsLeftBy
        (arrives book.old.history key.now (row_of (rows_of book.old.history) key.now)) book.old
        book.new }
{
    let answer = book.arrive(key);
    put_arrival(out, book.journal(), answer)
}

/// Frees the rows that wait for what is on offer now.
pub fn sweep(book: &mut Book<'_>, board: &Board, out: &mut String) -> Result<bool, AllocError>
    requires { board.now.table ≡ book.old.fixed.table }
    ensures ok { IfOk result (Answers
        (sweeps book.old.history
        (freed (supply_now book.old.fixed.stock book.old.history) (rows_of book.old.history)))
        book.old book.new (string_bytes out.old) (string_bytes out.new)) }
    ensures err { OnErr result (string_bytes out.new ≡ string_bytes out.old) }
    ensures book { IsLeftBy
        (sweeps book.old.history
        (freed (supply_now book.old.fixed.stock book.old.history) (rows_of book.old.history)))
        book.old book.new }
{
    let swept = book.sweep(board)?;
    put_sweep(out, book.journal(), swept)
}

/// Shows the row of a key.
pub fn show_row(book: &Book<'_>, key: &Key, out: &mut String) -> Result<bool, AllocError>
    ensures ok { IfOk result (Answers
        (shows_row book.now.history key.now (row_of (rows_of book.now.history) key.now)) book.now
        book.now (string_bytes out.old) (string_bytes out.new)) }
    ensures err { OnErr result (string_bytes out.new ≡ string_bytes out.old) }
{
    put_asked_row(out, key, book.rows().get(key))
}

/// Shows an entry.
pub fn show_entry(book: &Book<'_>, n: EntryNo, out: &mut String) -> Result<bool, AllocError>
    ensures ok { IfOk result (Answers (shows_entry book.now.history n) book.now book.now
        (string_bytes out.old) (string_bytes out.new)) }
    ensures err { OnErr result (string_bytes out.new ≡ string_bytes out.old) }
{
    put_asked_entry(out, n, book.journal().entry(n))
}

/// Shows the journal.
pub fn show_journal(book: &Book<'_>, out: &mut String) -> Result<bool, AllocError>
    ensures ok { IfOk result (Answers
        (says book.now.history (journal_text book.now.history.journal)) book.now book.now
        (string_bytes out.old) (string_bytes out.new)) }
    ensures err { OnErr result (string_bytes out.new ≡ string_bytes out.old) }
{
    put_journal(out, book.journal())?;
    Ok(false)
}

// Appends the report of the rows.
fn put_report<R: Reports>(
    alloc: Global,
    book: &Book<'_>,
    reports: &R,
    out: &mut String,
) -> Result<bool, AllocError>
    requires { R.fits reports.now book.now.history.opening book.now.fixed }
    ensures ok { IfOk result (IsPut (R.text reports.now (rows_of book.now.history)) false
        (string_bytes out.old) (string_bytes out.new)) }
    ensures err { OnErr result (string_bytes out.new ≡ string_bytes out.old) }
{
    let text = reports.report(alloc, book)?;
    out.push_str(text.as_str()).and(Ok(false))
}

/// Shows the report of the rows, if there is a tracker.
pub fn show_report<R: Reports>(
    alloc: Global,
    book: &Book<'_>,
    reports: Option<&R>,
    out: &mut String,
) -> Result<bool, AllocError>
    requires { IfSome reports (λ r. R.fits r.now book.now.history.opening book.now.fixed) }
    ensures ok { IfOk result (Answers
        (reports_of book.now.history (option_map (λ r. R.text r.now) reports.entry)) book.now
        book.now (string_bytes out.old) (string_bytes out.new)) }
    ensures err { OnErr result (string_bytes out.new ≡ string_bytes out.old) }
{
    match reports {
        Some(reports) => put_report(alloc, book, reports, out),
        None => refuse(out, "NoTracker"),
    }
}
