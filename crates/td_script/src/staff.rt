//! Who answers a script, and what they are asked.
ghost use Rattle.std.specs.Prelude.{◌≡◌, ◌<◌, ◌^◌, ◌-◌, Err, IfOk};
ghost use Rattle.std.specs.Prelude.{MatchResult, length};
ghost use Rattle.td_board.specs.Knowledge.{new_desk};
ghost use Rattle.td_script.specs.Asking.{IsFit, IsToldOf};
ghost use Rattle.td_script.specs.Ends.{IsAnswered};
ghost use Rattle.td_script.specs.OpeningInside.{IsToldFor};
ghost use Rattle.td_script.specs.Reporting.{made, report_by};
ghost use Rattle.td_script.specs.Settings.{IsLentTo, setting_lent};

use crate::beginning::begin_over;
use crate::lent::Lent;
use crate::told::Told;
use crate::watched::tell_watched;
use std::alloc::{AllocError, Global};
use td_board::{Board, DeskSeat};
use td_book::Book;
use td_indices::Archive;
use td_journal::ReadError;
use td_report::Transition;
use td_rows::Rows;

/// What those who answer a script are asked.
#[derive(Drop)]
pub struct Asked<'i, 't, 'a, 's, 'j, 'r, 'b, 'u, 'c, 'q, 'l> {
    pub alloc: Global,
    /// What is on offer before the first arrival.
    pub archive: &'i Archive<'t, 'a>,
    /// The rows from which the script starts, or over which its journal is.
    pub rows: Rows,
    /// The suite that a command may name.
    pub suite: &'s str,
    /// The text of the journal that is gone on with.
    pub journal: Option<&'j str>,
    /// What makes reports, if there is a tracker.
    pub reports: Option<&'r Transition<'b, 'u, 'c, 'q>>,
    pub script: &'l str,
}

/// Who answers a script: a clerk without builders, or one with them. What they answer is the
/// contract of a closure (`run_with`).
pub trait Staff {
    ghost use Rattle.td_script.specs.Telling.{Telling};

    /// What may answer a script from this history: the text, and how many refusals.
    ghost tells: { Self → Telling };
}

/// A clerk in a world without builders.
#[derive(Clone, Copy)]
pub struct Alone;

impl Staff for Alone {
    ghost use Rattle.td_script.specs.Ends.{IsAnswered};

    ghost tells = { λ alone. IsAnswered };
}

// What a clerk without builders answers to the lines of a script, from a book.
fn tell_begun(
    book: &mut Book<'_>,
    lent: &Lent<'_, '_, '_, Transition<'_, '_, '_, '_>>,
    script: &str,
) -> Result<Told, ReadError>
    requires lent { IsLentTo made lent.now.board.now.table lent.now.reports book.old }
    requires small { length script.now < 2 ^ 63 - 1 }
    ensures { IsToldFor book.old (setting_lent report_by book.old.fixed.stock lent.now.suites.now
        lent.now.reports) script.now result }
{
    match tell_watched(book, lent, script) {
        Ok(told) => Ok(told),
        Err(AllocError) => Err(ReadError::NoMemory),
    }
}

// What a clerk without builders answers from a book, if one was begun.
fn tell_if_begun(
    begun: Result<Book<'_>, ReadError>,
    lent: &Lent<'_, '_, '_, Transition<'_, '_, '_, '_>>,
    script: &str,
) -> Result<Told, ReadError>
    requires lent { IfOk begun (IsLentTo made lent.now.board.now.table lent.now.reports) }
    requires small { length script.now < 2 ^ 63 - 1 }
    ensures { MatchResult begun.entry
        (λ book. IsToldFor book (setting_lent report_by book.fixed.stock lent.now.suites.now
        lent.now.reports) script.now result)
        (λ fault. result ≡ Err fault) }
{
    match begun {
        Ok(mut book) => {
            let told = tell_begun(&mut book, lent, script);
            drop(book);
            told
        }
        Err(fault) => Err(fault),
    }
}

// What a clerk without builders answers at this board, from the rows and the journal asked.
fn tell_at(board: &Board, desk: DeskSeat, asked: Asked) -> Result<Told, ReadError>
    requires board { board.now.table ≡ desk.table }
    requires seat { desk.desk ≡ new_desk (length asked.rows) 0 }
    requires fit { IsFit asked }
    ensures { IsToldOf IsAnswered asked.entry result }
{
    let begun = begin_over(
        asked.alloc,
        board,
        desk,
        asked.rows,
        asked.archive,
        asked.journal,
    );
    let suites = [asked.suite];
    let lent = Lent {
        alloc: asked.alloc,
        board,
        suites: suites.as_slice(),
        reports: asked.reports,
    };
    tell_if_begun(begun, &lent, asked.script)
}

/// What a clerk without builders answers to a script.
pub fn tell_alone(asked: Asked) -> Result<Told, ReadError>
    requires { IsFit asked }
    ensures { IsToldOf IsAnswered asked.entry result }
{
    match Board::make(asked.alloc, asked.rows.len(), 0) {
        Ok((board, desk, _)) => tell_at(&board, desk, asked),
        Err(_) => Err(ReadError::NoMemory),
    }
}
