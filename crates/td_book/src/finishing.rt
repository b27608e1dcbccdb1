//! The end of a build.
ghost use Rattle.std.specs.Prelude.{◌≡◌, ◌<◌, length};
ghost use Rattle.td_board.specs.declared.views.Hand.TheVariants.{Holding, Finished};
ghost use Rattle.td_core.specs.History.{rows_of};
ghost use Rattle.td_book.specs.Deeds.{code_of as code_in};
ghost use Rattle.td_book.specs.Finishing.{FinishAgain, FinishHeld, FinishOutcome, HasRowOf};

use crate::book::Book;
use crate::building::{Ending, is_built};
use td_board::{Board, BuilderSeat, Hand, OutcomeCode};
use td_journal::EntryNo;
use td_rows::{BuilderNo, Outcome};

/// Why a build wasn't ended.
#[derive(Clone, Copy, Debug, PartialEq, Eq)]
pub enum FinishRefusal {
    /// The builder holds no row, or its build is settled.
    NothingHeld,
    NoMemory,
    /// The board doesn't say of the row what the seat does, or the build ended otherwise.
    Mismatch,
}

// How a build ended, without the text.
fn code_of(outcome: &Outcome) -> OutcomeCode
    ensures { result ≡ code_in outcome.now }
{
    match outcome {
        Outcome::Built => OutcomeCode::Built,
        Outcome::Attempted => OutcomeCode::Attempted,
        Outcome::GivenBack => OutcomeCode::GivenBack,
        Outcome::Waits(_) => OutcomeCode::Waits,
    }
}

impl<'a> Book<'a> {
    /// Ends the build of the row that the builder holds: its claim is noted where that isn't done,
    /// and how it ended is journalled. Where an earlier call had ended it without settling, this
    /// one settles.
    pub fn finish(
        &mut self,
        board: &Board,
        seat: &mut BuilderSeat,
        outcome: Outcome,
    ) -> Result<EntryNo, FinishRefusal>
        requires board { board.now.table ≡ self.old.fixed.table }
        requires seat { seat.old.table ≡ self.old.fixed.table }
        ensures outcome { FinishOutcome seat.old.builder.hand outcome seat.old.builder
            seat.new.builder self.old self.new result }
        ensures table { seat.new.table ≡ seat.old.table }
    {
        let _rows = self.inner.desk.rows();
        match seat.hand() {
            Hand::Free => Err(FinishRefusal::NothingHeld),
            Hand::Holding(row) => self.finish_held(board, seat, row, outcome),
            Hand::Finished(row, code) => {
                let number = seat.number();
                self.finish_again(board, number, row, code, outcome)
            }
        }
    }

    // Ends the build of a row that the builder holds.
    fn finish_held(
        &mut self,
        board: &Board,
        seat: &mut BuilderSeat,
        row: usize,
        outcome: Outcome,
    ) -> Result<EntryNo, FinishRefusal>
        requires board { board.now.table ≡ self.old.fixed.table }
        requires seat { seat.old.table ≡ self.old.fixed.table }
        requires hand { seat.old.builder.hand ≡ Holding row }
        requires within { row < length (rows_of self.old.history) }
        ensures outcome { FinishHeld row outcome seat.old.builder seat.new.builder self.old self.new
            result }
        ensures table { seat.new.table ≡ seat.old.table }
    {
        let code = code_of(&outcome);
        let Ok(ending) = self.inner.prepare(self.alloc, row, seat.number(), outcome) else {
            return Err(FinishRefusal::NoMemory);
        };
        let ended = self.inner.finish(board, seat, row, code, ending);
        ended.ok_or(FinishRefusal::Mismatch)
    }

    // Whether the row with a number is Building by the builder.
    fn has_build(&self, row: usize, builder: BuilderNo) -> bool
        requires within { row < length (rows_of self.now.history) }
        ensures { HasRowOf result row builder self.now }
    {
        let _rows = self.inner.books.rows();
        is_built(self.inner.books.rows(), row, builder)
    }

    // Settles the build of a row that the builder had ended with this code.
    fn finish_again(
        &mut self,
        board: &Board,
        builder: BuilderNo,
        row: usize,
        code: OutcomeCode,
        outcome: Outcome,
    ) -> Result<EntryNo, FinishRefusal>
        requires board { board.now.table ≡ self.old.fixed.table }
        requires within { row < length (rows_of self.old.history) }
        requires one { 0 < builder }
        ensures { FinishAgain row code outcome builder self.old self.new result }
    {
        if !self.has_build(row, builder) {
            return Err(FinishRefusal::NothingHeld);
        }
        if code_of(&outcome) != code {
            return Err(FinishRefusal::Mismatch);
        }
        let Ok(ending) = self.inner.prepare(self.alloc, row, builder, outcome) else {
            return Err(FinishRefusal::NoMemory);
        };
        let Ending { offered, plan, .. } = ending;
        match self
            .inner
            .close(board, row, builder, code, offered.as_slice(), plan)
        {
            Some(n) => Ok(n),
            None => Err(FinishRefusal::Mismatch),
        }
    }
}
