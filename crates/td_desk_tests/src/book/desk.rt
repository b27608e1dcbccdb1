//! A book over the example archive, with its board and three builders; and a call of each kind.
ghost use Rattle.std.specs.Prelude.{◌≡◌, All, IfOk, length};
ghost use Rattle.td_board.specs.Knowledge.{new_desk};
ghost use Rattle.td_core.specs.Phases.{NoneBuilt};
ghost use Rattle.td_supply.specs.Supply.{opened, stock_of};

use crate::sample::TABLE;
use crate::shop::{Shop, furnished};
use crate::spelling::{
    book_text, entry_line, key, outcome, row_line, shown, spelled, spelled_job, spelled_watch,
};
use std::alloc::Global;
use std::test::Fail;
use td_board::{Board, BuilderSeat, DeskSeat, Hand, OutcomeCode};
use td_book::Book;
use td_journal::{EntryNo, ReadError, text};
use td_relation::Archs;
use td_rows::{Key, Outcome, Rows};
use td_supply::Supply;
use td_wbread::{Command, read_command};

// A book over the example archive, with its board and three builders.
#[derive(Drop)]
pub(crate) struct Desk {
    pub(crate) alloc: Global,
    board: Board,
    pub(crate) book: Book<'static>,
    one: BuilderSeat,
    two: BuilderSeat,
    three: BuilderSeat,
    ghost book_at: { book.fixed.table ≡ board.table },
    ghost one_at: { one.table ≡ board.table },
    ghost two_at: { two.table ≡ board.table },
    ghost three_at: { three.table ≡ board.table },
}

// A book that opens with these rows, over a journal if one is given.
fn open_book(
    alloc: Global,
    board: &Board,
    seat: DeskSeat,
    rows: Rows,
    supply: Supply<'static>,
    journal: Option<&str>,
) -> Result<Book<'static>, Fail>
    requires table { board.now.table ≡ seat.table }
    requires fresh_seat { seat.desk ≡ new_desk (length rows) (length seat.desk.noted) }
    requires idle { NoneBuilt rows }
    requires fresh_supply { supply ≡ opened (stock_of supply) }
    ensures { IfOk result (λ book. book.fixed.table ≡ board.now.table) }
{
    match journal {
        Some(text) => Book::reopen(alloc, board, seat, rows, supply, text).map_err(Fail::from),
        None => Book::open(alloc, board, seat, rows, supply).map_err(Fail::from),
    }
}

// A desk with this book, and three of these builders.
fn seated(
    alloc: Global,
    board: Board,
    book: Book<'static>,
    builders: Vec<BuilderSeat>,
) -> Result<Desk, Fail>
    requires book { book.fixed.table ≡ board.table }
    requires builders { All (λ s. s.table ≡ board.table) builders.items }
{
    let mut builders = builders;
    let (Some(three), Some(two), Some(one)) = (builders.pop(), builders.pop(), builders.pop())
    else {
        drop(book);
        drop(board);
        return Err(Fail::from("three builders"));
    };
    Ok(Desk {
        alloc,
        board,
        book,
        one,
        two,
        three,
    })
}

// A desk with what it opens with, over a journal if one is given.
fn desk_of(alloc: Global, shop: Shop, journal: Option<&str>) -> Result<Desk, Fail> {
    let Shop {
        board,
        seat,
        builders,
        rows,
        supply,
    } = shop;
    match open_book(alloc, &board, seat, rows, supply, journal) {
        Ok(book) => seated(alloc, board, book, builders),
        Err(fail) => {
            drop(builders);
            drop(board);
            Err(fail)
        }
    }
}

// A desk that opens with these rows, over a journal if one is given.
pub(crate) fn open_desk(alloc: Global, opening: &str, journal: Option<&str>) -> Result<Desk, Fail> {
    match furnished(alloc, opening, 3) {
        Ok(shop) => desk_of(alloc, shop, journal),
        Err(fail) => Err(fail),
    }
}

// The journal that the book has, or why there is none.
fn journal_or_refusal(
    alloc: Global,
    begun: &Result<Book<'static>, ReadError>,
) -> Result<String, Fail> {
    match begun {
        Ok(book) => Ok(text(alloc, book.journal())?),
        Err(refusal) => shown(alloc, refusal),
    }
}

// Why a text isn't a journal's over what a book opens with; or the journal that a book has with it.
fn refusal_at(alloc: Global, shop: Shop, journal: &str) -> Result<String, Fail> {
    let Shop {
        board,
        seat,
        builders,
        rows,
        supply,
    } = shop;
    drop(builders);
    let begun = Book::reopen(alloc, &board, seat, rows, supply, journal);
    drop(board);
    let told = journal_or_refusal(alloc, &begun);
    drop(begun);
    told
}

// Why a text isn't a journal's over these rows; or the journal that a book has with it.
pub(crate) fn refusal_of(alloc: Global, opening: &str, journal: &str) -> Result<String, Fail> {
    match furnished(alloc, opening, 3) {
        Ok(shop) => refusal_at(alloc, shop, journal),
        Err(fail) => Err(fail),
    }
}

impl Desk {
    // The answer to a command.
    fn take(&mut self, command: &Command<'_>) -> Result<String, Fail> {
        let told = self.book.command(&self.board, command);
        spelled(self.alloc, &told)
    }

    // The answer to the command of a line.
    pub(crate) fn command(&mut self, line: &str) -> Result<String, Fail> {
        let archs = Archs::read(self.alloc, TABLE)?;
        match read_command(self.alloc, line, &archs, &["unstable"]) {
            Ok(command) => {
                let told = self.take(&command);
                drop(command);
                told
            }
            Err(fault) => Err(Fail::from(fault)),
        }
    }

    // Whether the builder's claim of a key's row wins.
    pub(crate) fn claim(&mut self, builder: u64, text: &str) -> Result<String, Fail> {
        let key = key(self.alloc, text)?;
        let Some(row) = self.book.rows().number(&key) else {
            return Err(Fail::from("a row"));
        };
        shown(self.alloc, &self.claim_row(builder, row))
    }

    fn claim_row(&mut self, builder: u64, row: usize) -> bool {
        match builder {
            1 => self.board.claim(row, &mut self.one),
            2 => self.board.claim(row, &mut self.two),
            _ => self.board.claim(row, &mut self.three),
        }
    }

    // The job that the builder is given.
    pub(crate) fn start(&mut self, builder: u64) -> Result<String, Fail> {
        let started = match builder {
            1 => self.book.start(&self.board, &self.one),
            2 => self.book.start(&self.board, &self.two),
            _ => self.book.start(&self.board, &self.three),
        };
        spelled_job(self.alloc, &started)
    }

    // The end of the builder's build.
    pub(crate) fn finish(&mut self, builder: u64, text: &str) -> Result<String, Fail> {
        let outcome = outcome(self.alloc, text)?;
        match builder {
            1 => self.finish_one(outcome),
            2 => self.finish_two(outcome),
            _ => self.finish_three(outcome),
        }
    }

    fn finish_one(&mut self, outcome: Outcome) -> Result<String, Fail> {
        let finished = self.book.finish(&self.board, &mut self.one, outcome);
        shown(self.alloc, &finished)
    }

    fn finish_two(&mut self, outcome: Outcome) -> Result<String, Fail> {
        let finished = self.book.finish(&self.board, &mut self.two, outcome);
        shown(self.alloc, &finished)
    }

    fn finish_three(&mut self, outcome: Outcome) -> Result<String, Fail> {
        let finished = self.book.finish(&self.board, &mut self.three, outcome);
        shown(self.alloc, &finished)
    }

    // Whether the first builder's build ends only at the board, as an attempt.
    pub(crate) fn end(&mut self) -> Result<String, Fail> {
        let ended = match self.one.hand() {
            Hand::Holding(_) => self.board.finish(&mut self.one, OutcomeCode::Attempted),
            _ => false,
        };
        shown(self.alloc, &ended)
    }

    // Whether the first builder's hand is released.
    pub(crate) fn release(&mut self) -> Result<String, Fail> {
        let released = match self.one.hand() {
            Hand::Finished(_, _) => self.board.release(&mut self.one),
            _ => false,
        };
        shown(self.alloc, &released)
    }

    pub(crate) fn undo(&mut self, n: EntryNo) -> Result<String, Fail> {
        let undone = self.book.undo(&self.board, n);
        shown(self.alloc, &undone)
    }

    pub(crate) fn arrive(&mut self, text: &str) -> Result<String, Fail> {
        let key = key(self.alloc, text)?;
        let arrived = self.book.arrive(&key);
        shown(self.alloc, &arrived)
    }

    pub(crate) fn sweep(&mut self) -> Result<String, Fail> {
        let swept = self.book.sweep(&self.board);
        shown(self.alloc, &swept)
    }

    // Watches rows under this many groups.
    pub(crate) fn watch(&mut self, groups: usize, rows: &[(Key, usize)]) -> Result<String, Fail> {
        let watched = self.book.watch(groups, rows);
        spelled_watch(self.alloc, &watched)
    }

    pub(crate) fn installed(&self, group: usize) -> Result<String, Fail> {
        shown(self.alloc, &self.book.installed(group))
    }

    pub(crate) fn ready(&self) -> Result<String, Fail> {
        shown(self.alloc, &self.book.ready())
    }

    pub(crate) fn row(&self, text: &str) -> Result<String, Fail> {
        let key = key(self.alloc, text)?;
        Ok(row_line(self.alloc, &key, self.book.row(&key))?)
    }

    pub(crate) fn entry(&self, n: EntryNo) -> Result<String, Fail> {
        Ok(entry_line(self.alloc, self.book.entry(n), n)?)
    }

    // The journal, the rows, and what each builder has in hand.
    pub(crate) fn whole(&self) -> Result<String, Fail> {
        let book = book_text(self.alloc, &self.book)?;
        Ok(format!(in self.alloc;
            "{book}{:?} {:?} {:?}",
            self.one.hand(),
            self.two.hand(),
            self.three.hand()
        )?)
    }
}
