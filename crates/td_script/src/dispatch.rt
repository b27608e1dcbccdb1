//! The answer to a line.
ghost use Rattle.std.specs.Prelude.{◌≡◌, IfOk, OnErr, map};
ghost use Rattle.std.specs.String.{string_bytes};
ghost use Rattle.td_script.specs.Answering.{Answers, IsLeftBy};
ghost use Rattle.td_script.specs.Replies.{answer as answer_to, asks, types};
ghost use Rattle.td_script.specs.Settings.{IsLentTo, setting_lent};
ghost use Rattle.td_wbread.specs.Command.{command_at};

use crate::answering::{arrive, show_entry, show_journal, show_report, show_row, sweep, undo};
use crate::commanding::command;
use crate::lent::Lent;
use crate::line::{Said, read_line};
use crate::reports::Reports;
use crate::request::Request;
use crate::writing::refuse;
use std::alloc::AllocError;
use td_book::Book;
use td_wbread::{CommandFault, read_command};

// Answers what is asked for.
#[tactic(auto, using(crate::proofs::AnswerLaws::left_still))]
fn ask<R: Reports>(
    book: &mut Book<'_>,
    lent: &Lent<'_, '_, '_, R>,
    request: &Request,
    out: &mut String,
) -> Result<bool, AllocError>
    requires { IsLentTo R.fits lent.now.board.now.table lent.now.reports book.old }
    ensures ok { IfOk result (Answers
        (asks (setting_lent R.text book.old.fixed.stock lent.now.suites.now lent.now.reports)
        book.old.history request.now) book.old book.new (string_bytes out.old)
        (string_bytes out.new)) }
    ensures err { OnErr result (string_bytes out.new ≡ string_bytes out.old) }
    ensures book { IsLeftBy
        (asks (setting_lent R.text book.old.fixed.stock lent.now.suites.now lent.now.reports)
        book.old.history request.now) book.old book.new }
{
    match request {
        Request::Undo(n) => undo(book, lent.board, *n, out),
        Request::Arrive(key) => arrive(book, key, out),
        Request::Sweep => sweep(book, lent.board, out),
        Request::Row(key) => show_row(book, key, out),
        Request::Entry(n) => show_entry(book, *n, out),
        Request::Report => show_report(lent.alloc, book, lent.reports, out),
        Request::Journal => show_journal(book, out),
    }
}

// Answers a line that is typed.
#[tactic(auto, using(crate::proofs::AnswerLaws::left_still))]
fn type_in<R: Reports>(
    book: &mut Book<'_>,
    lent: &Lent<'_, '_, '_, R>,
    line: &str,
    out: &mut String,
) -> Result<bool, AllocError>
    requires { IsLentTo R.fits lent.now.board.now.table lent.now.reports book.old }
    ensures ok { IfOk result (Answers
        (types book.old.fixed.stock book.old.history
        (command_at book.old.fixed.stock.table (map (λ s. s.now) lent.now.suites.now) line.now))
        book.old book.new (string_bytes out.old) (string_bytes out.new)) }
    ensures err { OnErr result (string_bytes out.new ≡ string_bytes out.old) }
    ensures book { IsLeftBy
        (types book.old.fixed.stock book.old.history
        (command_at book.old.fixed.stock.table (map (λ s. s.now) lent.now.suites.now) line.now))
        book.old book.new }
{
    match read_command(lent.alloc, line, book.supply().archs(), lent.suites) {
        Ok(typed) => command(book, lent.board, &typed, out),
        Err(CommandFault::Wrong(fault, _)) => refuse(out, fault.name()),
        Err(CommandFault::NoMemory) => Err(AllocError),
    }
}

/// Answers a line from a book without builders. Answers whether it is refused. If memory runs
/// out, nothing is appended, though the book may have done what the line says.
#[tactic(auto, using(crate::proofs::AnswerLaws::left_still))]
pub fn answer<R: Reports>(
    book: &mut Book<'_>,
    lent: &Lent<'_, '_, '_, R>,
    line: &str,
    out: &mut String,
) -> Result<bool, AllocError>
    requires { IsLentTo R.fits lent.now.board.now.table lent.now.reports book.old }
    ensures ok { IfOk result (Answers
        (answer_to (setting_lent R.text book.old.fixed.stock lent.now.suites.now lent.now.reports)
        book.old.history line.now) book.old book.new (string_bytes out.old)
        (string_bytes out.new)) }
    ensures err { OnErr result (string_bytes out.new ≡ string_bytes out.old) }
    ensures book { IsLeftBy
        (answer_to (setting_lent R.text book.old.fixed.stock lent.now.suites.now lent.now.reports)
        book.old.history line.now) book.old book.new }
{
    match read_line(lent.alloc, line)? {
        Said::Skipped => Ok(false),
        Said::Asked(request) => ask(book, lent, &request, out),
        Said::Bad => refuse(out, "BadLine"),
        Said::Typed => type_in(book, lent, line, out),
    }
}
