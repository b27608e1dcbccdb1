//! The steps of the desk's seat: offer a row, take it back, note a claim, settle a finished build.
ghost use Rattle.std.specs.Prelude.{◌≡◌, ℕ, ◌<◌, ◌≤◌, length, MatchBool};
ghost use mathlib.Core.Option.{some};
ghost use lib.ListN.{get_elem?};
ghost use Rattle.td_board.specs.declared.views.RowView.TheVariants.{In, Out, Seen, Known};
ghost use Rattle.td_board.specs.declared.views.Deed.TheVariants as deed;
ghost use Rattle.td_board.specs.declared.views.DeskTry.TheVariants.{Offered, ClaimNoted};
ghost use Rattle.td_board.specs.declared.views.DeskTry.TheVariants.{SettleDone, SettleEarly};
ghost use Rattle.td_board.specs.Knowledge.{with_row, with_deed, desk_tried, holder_at};
ghost use Rattle.td_board.specs.Answers.{Withdraws};

use crate::board::Board;
use crate::outcome::OutcomeCode;
use crate::rule::{Note, Offer, Settle, Withdraw};
use crate::seats::DeskSeat;
use crate::words::{CLOSED, OPEN, PER_BUILDER, done_word, noted_word};

/// What became of a withdrawal.
#[derive(Clone, Copy, Debug, PartialEq, Eq)]
pub enum Withdrawal {
    Withdrawn,
    /// The builder of this number was faster.
    Held(u64),
}

impl Board {
    /// Offers a row that is In to the builders.
    pub fn offer(&self, desk: &mut DeskSeat, row: usize)
        requires table { desk.old.table ≡ self.now.table }
        requires row { get_elem? desk.old.desk.rows row ≡ some In }
        ensures { desk.new
            ≡ record desk.old { desk = desk_tried (Offered row) (with_row row Out desk.old.desk) } }
    {
        let shared = &self.table.shared;
        shared.store::<Offer>(&mut desk.seat, row + 1, OPEN);
    }

    /// Takes the offer of a row that is Out back, unless a builder was faster.
    pub fn withdraw(&self, desk: &mut DeskSeat, row: usize) -> Withdrawal
        requires table { desk.old.table ≡ self.now.table }
        requires row { get_elem? desk.old.desk.rows row ≡ some Out }
        ensures { Withdraws row desk.old desk.new result }
    {
        let shared = &self.table.shared;
        let found = shared.compare_exchange::<Withdraw>(&mut desk.seat, row + 1, OPEN, CLOSED);
        if found == OPEN {
            return Withdrawal::Withdrawn;
        }
        let builder = found / PER_BUILDER;
        desk.holders[row] = builder;
        Withdrawal::Held(builder)
    }

    /// Notes the claim on a row that is Seen, and answers the builder's number.
    pub fn note(&self, desk: &mut DeskSeat, row: usize) -> u64
        requires table { desk.old.table ≡ self.now.table }
        requires row { (b : ℕ) × (get_elem? desk.old.desk.rows row ≡ some (Seen b)) }
        ensures builder { get_elem? desk.old.desk.rows row ≡ some (Seen result) }
        ensures one_of_the_boards { (0 < result) × (result ≤ length desk.old.desk.noted) }
        ensures desk { let known = with_row row (Known result) desk.old.desk in
            let told = with_deed result (deed.Claim row) known in
            desk.new ≡ record desk.old { desk = desk_tried (ClaimNoted row result) told } }
    {
        let builder = desk.holder(row);
        let shared = &self.table.shared;
        shared.store::<Note>(&mut desk.seat, row + 1, noted_word(builder));
        builder
    }

    /// Closes a row that is Known, and notes the outcome, where its build ended with this one.
    /// False where that was tried and it hadn't.
    pub fn settle(&self, desk: &mut DeskSeat, row: usize, outcome: OutcomeCode) -> bool
        requires table { desk.old.table ≡ self.now.table }
        requires row { (b : ℕ) × (get_elem? desk.old.desk.rows row ≡ some (Known b)) }
        ensures { let builder = holder_at desk.old.desk.rows row in
            let closed = with_row row In desk.old.desk in
            let settled = with_deed builder (deed.Finish row outcome) closed in
            MatchBool result
            (desk.new ≡ record desk.old { desk = desk_tried (SettleDone row outcome) settled })
            (desk.new
            ≡ record desk.old { desk = desk_tried (SettleEarly row outcome) desk.old.desk }) }
    {
        let done = done_word(desk.holder(row), outcome);
        let shared = &self.table.shared;
        let found = shared.compare_exchange::<Settle>(&mut desk.seat, row + 1, done, CLOSED);
        if found != done {
            return false;
        }
        true
    }
}
