//! The start of a build.
ghost use Rattle.std.specs.Prelude.{◌≡◌, ◌<◌, IfOk, length};
ghost use Rattle.td_core.specs.History.{rows_of};
ghost use Rattle.td_book.specs.Building.{IsJobAt, StartOutcome};

use crate::book::Book;
use std::alloc::AllocError;
use td_board::{Board, BuilderSeat, Hand};
use td_rows::{Key, Line, RebuildNumber};
use td_version::write_rebuild;

/// What is to be built.
#[derive(Drop)]
pub struct Job {
    pub key: Key,
    /// The source's version, with the rebuild's suffix.
    pub version: String,
    pub number: RebuildNumber,
    /// What the rebuild needs in addition to its build dependencies; empty if nothing.
    pub extra: Line,
}

#[derive(Clone, Copy, Debug, PartialEq, Eq)]
pub enum StartRefusal {
    NothingHeld,
    NoMemory,
    Mismatch,
}

impl<'a> Book<'a> {
    // The job of the row with a number.
    fn job(&self, row: usize) -> Result<Job, AllocError>
        requires { row < length (rows_of self.now.history) }
        ensures { IfOk result (IsJobAt row self.now) }
    {
        let Some((key, row)) = self.inner.books.rows().at(row) else {
            unreachable!()
        };
        let version = match self.inner.books.kept().supply().version(key.source()) {
            Some(version) => version,
            None => "",
        };
        Ok(Job {
            key: key.copy()?,
            version: write_rebuild(self.alloc, version, row.number.get())?,
            number: row.number,
            extra: row.extra.copy()?,
        })
    }

    /// Starts the build of the row that the builder holds: its claim is noted where that isn't
    /// done, and the job answered.
    pub fn start(&mut self, board: &Board, seat: &BuilderSeat) -> Result<Job, StartRefusal>
        requires board { board.now.table ≡ self.old.fixed.table }
        requires seat { seat.now.table ≡ self.old.fixed.table }
        ensures { StartOutcome seat.now.builder.number seat.now.builder.hand self.old self.new
            result }
    {
        let Hand::Holding(row) = seat.hand() else {
            return Err(StartRefusal::NothingHeld);
        };
        let _rows = self.inner.desk.rows();
        let Ok(job) = self.job(row) else {
            return Err(StartRefusal::NoMemory);
        };
        let Ok(claim) = self.inner.claim(self.alloc, &job.key) else {
            return Err(StartRefusal::NoMemory);
        };
        if self.inner.know(board, row, seat.number(), claim) {
            Ok(job)
        } else {
            Err(StartRefusal::Mismatch)
        }
    }
}
