//! The answers to the lines of a script, one after the other.
ghost use Rattle.std.specs.Prelude.{◌<◌, ◌^◌, ◌-◌, IfOk, OnOk, length};
ghost use Rattle.td_script.specs.Answering.{IsLeftBy};
ghost use Rattle.td_script.specs.Replies.{answer as answer_to};
ghost use Rattle.td_script.specs.Script.{IsAdded, IsAnsweredUpTo, IsTold};
ghost use Rattle.td_script.specs.Settings.{IsLentTo, setting_lent};

use crate::dispatch::answer;
use crate::lent::Lent;
use crate::reports::Reports;
use std::alloc::AllocError;
use td_book::Book;
use td_text::next_line;

/// The answers to a script.
#[derive(Drop)]
pub struct Told {
    pub text: String,
    /// How many lines were refused.
    pub refused: u64,
}

// Answers one line more.
fn add_line<R: Reports>(
    book: &mut Book<'_>,
    lent: &Lent<'_, '_, '_, R>,
    line: &str,
    told: &mut Told,
) -> Result<(), AllocError>
    requires lent { IsLentTo R.fits lent.now.board.now.table lent.now.reports book.old }
    requires room { told.old.refused < 2 ^ 63 }
    ensures ok { OnOk result (IsAdded
        (setting_lent R.text book.old.fixed.stock lent.now.suites.now lent.now.reports) line.now
        book.old book.new told.old told.new) }
    ensures book { IsLeftBy
        (answer_to (setting_lent R.text book.old.fixed.stock lent.now.suites.now lent.now.reports)
        book.old.history line.now) book.old book.new }
{
    if answer(book, lent, line, &mut told.text)? {
        told.refused += 1;
    }
    Ok(())
}

/// Answers the lines of a script, one after the other, from a book without builders. If memory
/// runs out, the book has done what the lines before some place say.
pub fn tell<R: Reports>(
    book: &mut Book<'_>,
    lent: &Lent<'_, '_, '_, R>,
    script: &str,
) -> Result<Told, AllocError>
    requires lent { IsLentTo R.fits lent.now.board.now.table lent.now.reports book.old }
    requires small { length script.now < 2 ^ 63 - 1 }
    ensures told { IfOk result (IsTold
        (setting_lent R.text book.old.fixed.stock lent.now.suites.now lent.now.reports) script.now
        book.old book.new) }
    ensures book { IsAnsweredUpTo
        (setting_lent R.text book.old.fixed.stock lent.now.suites.now lent.now.reports) script.now
        book.old book.new }
{
    let mut told = Told {
        text: String::new(lent.alloc),
        refused: 0,
    };
    let mut rest = Some(script);
    while let Some(lines) = rest {
        let (line, after) = next_line(lines);
        add_line(book, lent, line, &mut told)?;
        rest = after;
    }
    Ok(told)
}
