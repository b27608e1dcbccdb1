//! The book with which a script starts.
ghost use Rattle.std.specs.Prelude.{◌≡◌, IfOk, IfErr, length, option_map};
ghost use Rattle.td_board.specs.Knowledge.{new_desk};
ghost use Rattle.td_supply.specs.Supply.{opened as opened_stock, stock_of};
ghost use Rattle.td_core.specs.Phases.{NoneBuilt};
ghost use Rattle.td_indices.specs.Supplying.{supply_of};
ghost use Rattle.td_script.specs.OpeningInside.{IsBegunBy, IsJournalFault};
ghost use Rattle.td_inputs.specs.Inputs.{IsJournalIfGiven};

use std::alloc::{AllocError, Global};
use td_board::{Board, DeskSeat};
use td_book::Book;
use td_indices::Archive;
use td_journal::ReadError;
use td_rows::Rows;
use td_supply::Supply;

// The book over these rows: before the first entry, or with the journal that is gone on with, in
// which each build that was left is given back.
fn begin<'a>(
    alloc: Global,
    board: &Board,
    desk: DeskSeat,
    rows: Rows,
    supply: Supply<'a>,
    journal: Option<&str>,
) -> Result<Book<'a>, ReadError>
    requires table { board.now.table ≡ desk.table }
    requires fresh_seat { desk.desk ≡ new_desk (length rows) (length desk.desk.noted) }
    requires idle { NoneBuilt rows }
    requires fresh_supply { supply ≡ opened_stock (stock_of supply) }
    ensures begun { IfOk result
        (IsBegunBy (option_map (λ s. s.now) journal.entry) rows desk.table (stock_of supply.entry)
        (length desk.desk.noted)) }
    ensures fault { IfErr result (IsJournalFault rows (option_map (λ s. s.now) journal.entry)) }
    ensures only { IfErr result (λ fault.
        IsJournalIfGiven rows (option_map (λ s. s.now) journal.entry)
        → fault ≡ ReadError.NoMemory) }
{
    match journal {
        Some(text) => Book::reopen(alloc, board, desk, rows, supply, text),
        None => match Book::open(alloc, board, desk, rows, supply) {
            Ok(book) => Ok(book),
            Err(AllocError) => Err(ReadError::NoMemory),
        },
    }
}

/// The book over these rows, if what an archive has is on offer.
pub fn begin_over<'a>(
    alloc: Global,
    board: &Board,
    desk: DeskSeat,
    rows: Rows,
    archive: &Archive<'_, 'a>,
    journal: Option<&str>,
) -> Result<Book<'a>, ReadError>
    requires table { board.now.table ≡ desk.table }
    requires fresh_seat { desk.desk ≡ new_desk (length rows) (length desk.desk.noted) }
    requires idle { NoneBuilt rows }
    ensures begun { IfOk result
        (IsBegunBy (option_map (λ s. s.now) journal.entry) rows desk.table (supply_of archive.now)
        (length desk.desk.noted)) }
    ensures fault { IfErr result (IsJournalFault rows (option_map (λ s. s.now) journal.entry)) }
    ensures only { IfErr result (λ fault.
        IsJournalIfGiven rows (option_map (λ s. s.now) journal.entry)
        → fault ≡ ReadError.NoMemory) }
{
    match archive.supply() {
        Ok(supply) => begin(alloc, board, desk, rows, supply, journal),
        Err(AllocError) => Err(ReadError::NoMemory),
    }
}
