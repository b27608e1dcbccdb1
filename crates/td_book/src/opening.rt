//! The opening of a book.
ghost use Rattle.std.specs.Prelude.{◌≡◌, IfOk, length};
ghost use Rattle.td_board.specs.Knowledge.{new_desk};
ghost use Rattle.td_supply.specs.Supply.{opened as opened_stock, stock_of};
ghost use Rattle.td_core.specs.History.{opened, rows_of};
ghost use Rattle.td_core.specs.Phases.{NoneBuilt};
ghost use Rattle.td_book.specs.Reopening.{book_from};
ghost use Rattle.td_book.specs.Tries.{first_offers};
ghost use Rattle.td_book.specs.Watching.{no_watch};

use crate::book::Book;
use crate::inner::Inner;
use crate::offers::Offers;
use std::alloc::{AllocError, Global};
use td_board::{Board, DeskSeat};
use td_core::Books;
use td_rows::Rows;
use td_supply::Supply;

impl<'a> Book<'a> {
    /// The book before the first entry: every row that needs a build is offered.
    pub fn open(
        alloc: Global,
        board: &Board,
        desk: DeskSeat,
        rows: Rows,
        supply: Supply<'a>,
    ) -> Result<Book<'a>, AllocError>
        requires table { board.now.table ≡ desk.table }
        requires fresh_seat { desk.desk ≡ new_desk (length rows) (length desk.desk.noted) }
        requires idle { NoneBuilt rows }
        requires fresh_supply { supply ≡ opened_stock (stock_of supply) }
        ensures { IfOk result (λ book.
            book ≡ record {
              history = opened rows;
              fixed = record {
                table = desk.table;
                stock = stock_of supply.entry;
                builders = length desk.desk.noted;
                since = 0;
                watch = no_watch;
              };
              tries = first_offers (opened rows);
            }) }
    {
        let offers = match Offers::new(alloc, desk) {
            Ok(offers) => offers,
            Err(no_memory) => {
                // (by calls, so that the proof of this body stays short)
                drop(rows);
                drop(supply);
                return Err(no_memory);
            }
        };
        match Books::open(alloc, rows, supply) {
            Ok(books) => Ok(begin(alloc, board, offers, books)),
            Err(no_memory) => {
                drop(offers);
                Err(no_memory)
            }
        }
    }
}

/// The book that begins with a history in which no row is Building: every row that needs a build
/// is offered.
pub(crate) fn begin<'a>(alloc: Global, board: &Board, offers: Offers, books: Books<'a>) -> Book<'a>
    requires table { board.now.table ≡ offers.table }
    requires fresh_seat { offers.desk
        ≡ new_desk (length books.history.opening) (length offers.desk.noted) }
    requires idle { NoneBuilt (rows_of books.history) }
    ensures { result
        ≡ book_from offers.table books.entry.stock (length offers.desk.noted) books.entry.history }
{
    // (`rows` says that the keys of the rows rise)
    let _rising = books.rows();
    let mut inner = Inner::new(alloc, books, offers);
    inner.offer_all(board);
    Book { inner, alloc }
}
