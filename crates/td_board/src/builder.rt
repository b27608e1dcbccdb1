//! The steps of a builder's seat: claim a row, finish it, release the hand.
ghost use Rattle.std.specs.Prelude.{◌≡◌, ℕ, ◌<◌, ◌≤◌, MatchBool};
ghost use Rattle.td_board.specs.declared.outcome.OutcomeCode as outcome_code;
ghost use Rattle.td_board.specs.declared.views.Hand.TheVariants.{Free, Holding, Finished};
ghost use Rattle.td_board.specs.declared.views.BuilderTry.TheVariants.{FinishEarly, ReleaseEarly};
ghost use Rattle.td_board.specs.Knowledge.{with_claim, with_finish, with_free_hand, row_of};
ghost use Rattle.td_board.specs.Knowledge.{builder_tried};
ghost use Rattle.td_board.specs.Answers.{IsWon, IsLost, LostAtOnce};

use crate::board::Board;
use crate::outcome::OutcomeCode;
use crate::rule::{Claim, Finish, Release};
use crate::seats::BuilderSeat;
use crate::views::Hand;
use crate::words::{OPEN, done_word, held_word, noted_word};

impl Board {
    /// Claims a row. A hand that is Finished is released first. True if and only if this seat took
    /// the row from Open to Held. False where the row was tried and wasn't Open; without a try of
    /// it only where the hand isn't Free then, or there is no such row.
    pub fn claim(&self, row: usize, seat: &mut BuilderSeat) -> bool
        requires { seat.old.table ≡ self.now.table }
        ensures { MatchBool result
            (IsWon self.now.rows row seat.old seat.new)
            (IsLost self.now.rows row seat.old seat.new) }
    {
        if let Hand::Finished(_, _) = seat.hand {
            self.release(seat);
        }
        self.claim_at_once(row, seat)
    }

    // Claims a row, where the hand is Free.
    fn claim_at_once(&self, row: usize, seat: &mut BuilderSeat) -> bool
        requires { seat.old.table ≡ self.now.table }
        ensures { MatchBool result
            ((seat.old.builder.hand ≡ Free) × (row < self.now.rows)
            × (seat.new ≡ record seat.old { builder = with_claim row seat.old.builder }))
            (LostAtOnce self.now.rows row seat.old seat.new) }
    {
        if row >= self.rows {
            return false;
        }
        let Hand::Free = seat.hand else {
            return false;
        };
        let held = held_word(seat.number);
        let shared = &self.table.shared;
        let found = shared.compare_exchange::<Claim>(&mut seat.seat, row + 1, OPEN, held);
        if found != OPEN {
            return false;
        }
        seat.hand = Hand::Holding(row);
        true
    }

    /// Ends the build of the row that the builder holds. False where that was tried and the desk
    /// hadn't noted the claim yet.
    pub fn finish(&self, seat: &mut BuilderSeat, outcome: OutcomeCode) -> bool
        requires table { seat.old.table ≡ self.now.table }
        requires hand { (r : ℕ) × (seat.old.builder.hand ≡ Holding r) }
        ensures { let held = seat.old.builder in let row = row_of held.hand in
            MatchBool result
            (seat.new ≡ record seat.old { builder = with_finish row outcome held })
            (seat.new
            ≡ record seat.old { builder = builder_tried (FinishEarly row outcome) held }) }
    {
        let Hand::Holding(row) = seat.hand else {
            unreachable!()
        };
        let noted = noted_word(seat.number);
        let done = done_word(seat.number, outcome);
        let shared = &self.table.shared;
        let found = shared.compare_exchange::<Finish>(&mut seat.seat, row + 1, noted, done);
        if found != noted {
            return false;
        }
        seat.hand = Hand::Finished(row, outcome);
        true
    }

    /// Frees a hand whose finish is settled. False where that was tried and it wasn't settled yet.
    pub fn release(&self, seat: &mut BuilderSeat) -> bool
        requires table { seat.old.table ≡ self.now.table }
        requires hand { (r : ℕ) × (c : outcome_code.OutcomeCode)
            × (seat.old.builder.hand ≡ Finished r c) }
        ensures { let ended = seat.old.builder in let row = row_of ended.hand in
            MatchBool result
            (seat.new ≡ record seat.old { builder = with_free_hand ended })
            (seat.new ≡ record seat.old { builder = builder_tried (ReleaseEarly row) ended }) }
    {
        let Hand::Finished(row, outcome) = seat.hand else {
            unreachable!()
        };
        let done = done_word(seat.number, outcome);
        let shared = &self.table.shared;
        let found = shared.load::<Release>(&mut seat.seat, row + 1);
        if found == done {
            return false;
        }
        seat.hand = Hand::Free;
        true
    }
}
