//! What a book answers without the board.
ghost use Rattle.std.specs.Prelude.{◌≡◌};
ghost use Rattle.std.specs.Option.{option_copied};
ghost use Rattle.td_rows.specs.Table.{row_of};
ghost use Rattle.td_journal.specs.Entries.{entry_at, standing};
ghost use Rattle.td_journal.specs.Replay.{Lawful};
ghost use Rattle.td_core.specs.History.{rows_of};
ghost use Rattle.td_core.specs.Offers.{supply_now};
ghost use Rattle.td_book.specs.AtRest.{IsAtRest};

use crate::book::Book;
use td_board::DeskSeat;
use td_journal::{EntryNo, Journal, Marked};
use td_rows::{Key, Row, Rows};
use td_supply::Supply;

impl<'a> Book<'a> {
    /// The rows as they are.
    pub fn rows(&self) -> &Rows
        ensures rows { result.now ≡ rows_of self.now.history }
        ensures lawful { Lawful self.now.history.opening (standing self.now.history.journal) }
    {
        self.inner.books.rows()
    }

    /// The row of a key.
    pub fn row(&self, key: &Key) -> Option<&Row>
        ensures { option_copied result ≡ row_of (rows_of self.now.history) key.now }
    {
        self.inner.books.rows().get(key)
    }

    /// Entry n, counted from 1, with its mark.
    pub fn entry(&self, n: EntryNo) -> Option<&Marked>
        ensures { option_copied result ≡ entry_at self.now.history.journal n }
    {
        self.inner.books.kept().journal().entry(n)
    }

    /// The entries with their marks.
    pub fn journal(&self) -> &Journal
        ensures { result.now.entries ≡ self.now.history.journal }
    {
        self.inner.books.kept().journal()
    }

    /// The desk's seat at the board: what it knows of each row, and what it has noted of each
    /// builder.
    pub fn seat(&self) -> &DeskSeat
        ensures { IsAtRest result.now self.now }
    {
        self.inner.seat()
    }

    /// What is on offer: what the index offers, with the builds that have arrived.
    pub fn supply(&self) -> &Supply<'a>
        ensures { result.now ≡ supply_now self.now.fixed.stock self.now.history }
    {
        self.inner.books.kept().supply()
    }
}
