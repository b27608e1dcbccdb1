//! Arrivals and sweeps.
ghost use Rattle.std.specs.Prelude.{◌≡◌, true, Some, IfErr, IfOk};
ghost use Rattle.td_rows.specs.Meaning.{applies as applies_to};
ghost use Rattle.td_rows.specs.Table.{row_of};
ghost use Rattle.td_core.specs.History.{rows_of};
ghost use Rattle.td_book.specs.Arriving.{ArrivalStop, ArriveOutcome, ArriveStop, SweepOutcome};

use crate::book::{Book, copies};
use std::alloc::AllocError;
use td_board::Board;
use td_journal::{Entry, EntryNo, Keys};
use td_rows::{Key, Kind, Row, Rows, State, applies};

#[derive(Clone, Copy, Debug, PartialEq, Eq)]
pub enum ArriveRefusal {
    NoSuchRow,
    DoesNotApply(State),
    NoMemory,
}

/// The key's row, if an arrival applies on it, or why it doesn't. It takes no memory.
pub fn arrival_row<'r>(rows: &'r Rows, key: &Key) -> Result<&'r Row, ArriveRefusal>
    ensures ok { IfOk result (λ row.
        (row_of rows.now key.now ≡ Some row.now) × (applies_to Kind.Arrive row.now ≡ true)) }
    ensures err { IfErr result (ArrivalStop key.now rows.now) }
{
    let Some(row) = rows.get(key) else {
        return Err(ArriveRefusal::NoSuchRow);
    };
    if !applies(&Kind::Arrive, row) {
        return Err(ArriveRefusal::DoesNotApply(row.state));
    }
    Ok(row)
}

impl<'a> Book<'a> {
    /// The key's row, if an arrival applies on it, or why it doesn't. It takes no memory.
    pub fn arrival_row(&self, key: &Key) -> Result<&Row, ArriveRefusal>
        ensures ok { IfOk result (λ row.
            (row_of (rows_of self.now.history) key.now ≡ Some row.now)
            × (applies_to Kind.Arrive row.now ≡ true)) }
        ensures err { IfErr result (ArriveStop key.now self.now) }
    {
        arrival_row(self.inner.books.rows(), key)
    }

    /// The key's build has arrived in the archive.
    pub fn arrive(&mut self, key: &Key) -> Result<EntryNo, ArriveRefusal>
        ensures { ArriveOutcome key.now self.old self.new result }
    {
        // (`rows` says that the keys of the rows rise)
        let _rows = self.inner.books.rows();
        let number = self.arrival_row(key)?.number;
        match self.inner.arrive(key, number) {
            Ok(n) => Ok(n),
            Err(_) => Err(ArriveRefusal::NoMemory),
        }
    }

    /// Frees all rows that wait for what is on offer now.
    pub fn sweep(&mut self, board: &Board) -> Result<Option<EntryNo>, AllocError>
        requires { board.now.table ≡ self.old.fixed.table }
        ensures { SweepOutcome self.old self.new result }
    {
        // (`rows` says that the keys of the rows rise)
        let _rows = self.inner.books.rows();
        let keys = self.inner.books.kept().freed(self.alloc)?;
        if keys.is_empty() {
            return Ok(None);
        }
        let freed = copies(self.alloc, &keys)?;
        let n = self.inner.append(Entry {
            kind: Kind::Sweep,
            keys: Keys::new(keys),
        })?;
        self.inner.offer_each(board, &freed);
        Ok(Some(n))
    }
}
