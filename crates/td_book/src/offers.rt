//! The desk's seat with a list of the rows that are on offer, so that they aren't looked for.
ghost use Rattle.std.specs.Prelude.{◌≡◌, ℕ, ◌<◌, ◌≤◌, false, length, IfOk, MatchBool};
ghost use Rattle.std.specs.List.Sorted.{IsPermutation};
ghost use mathlib.Core.Option.{some};
ghost use lib.ListN.{get_elem?};
ghost use Rattle.td_board.specs.declared.views.RowView.TheVariants.{In, Out, Seen, Known};
ghost use Rattle.td_board.specs.declared.views.Deed.TheVariants as deed;
ghost use Rattle.td_board.specs.declared.views.DeskTry.TheVariants.{Offered, ClaimNoted};
ghost use Rattle.td_board.specs.declared.views.DeskTry.TheVariants.{SettleDone, SettleEarly};
ghost use Rattle.td_board.specs.Limits.{max_rows};
ghost use Rattle.td_board.specs.Seats.{rows_of};
ghost use Rattle.td_board.specs.Knowledge.{with_row, with_deed, desk_tried, holder_at};
ghost use Rattle.td_board.specs.Answers.{Withdraws};
ghost use Rattle.td_book.specs.inner.OutRows.{is_out_no, is_any_out as is_any_out_in, outs_of};

use std::alloc::{AllocError, Global};
use std::marker::Model;
use td_board::{Board, DeskSeat, OutcomeCode, Withdrawal};

/// The desk's seat, and the rows that it knows to be on offer. Contracts see the seat.
#[derive(Drop)]
pub struct Offers {
    seat: DeskSeat,
    // The numbers of the rows on offer, in no order.
    outs: Vec<usize>,
    // By row number, where in `outs` the row is, if it's on offer.
    places: Vec<usize>,
}

impl Model for Offers {
    ghost use Rattle.td_board.specs.Seats.{DeskModel};

    ghost Value = { DeskModel };

    ghost use Rattle.std.specs.Vec.{vec_capacity};
    ghost use Rattle.td_book.specs.inner.OutRows.{IsListed};

    ghost view = { λ o. o.seat };

    ghost invariant = { λ o.
        IsListed o.seat.desk.rows o.outs.items o.places.items (vec_capacity o.outs) };
}

impl Offers {
    /// A seat that has nothing on offer. Room for the list is taken here: no later call wants any.
    pub fn new(alloc: Global, seat: DeskSeat) -> Result<Offers, AllocError>
        requires { (n : ℕ) → is_out_no seat.desk.rows n ≡ false }
        ensures { IfOk result (λ offers. offers ≡ seat) }
    {
        let rows = seat.rows();
        Ok(Offers {
            seat,
            outs: Vec::with_capacity(alloc, rows)?,
            places: vec![in alloc; 0; rows]?,
        })
    }

    /// How many rows the board has.
    pub fn rows(&self) -> usize
        ensures number { result ≡ length self.now.desk.rows }
        ensures table { result ≡ rows_of self.now.table }
        ensures bound { result ≤ max_rows }
    {
        self.seat.rows()
    }

    /// The seat.
    pub fn seat(&self) -> &DeskSeat
        ensures { result.now ≡ self.now }
    {
        &self.seat
    }

    /// Whether any row is on offer.
    pub fn is_any_out(&self) -> bool
        ensures { result ≡ is_any_out_in self.now.desk.rows }
    {
        !self.outs.is_empty()
    }

    /// The numbers of the rows on offer, in no order.
    pub fn outs(&self, alloc: Global) -> Result<Vec<usize>, AllocError>
        ensures { IfOk result (λ numbers.
            IsPermutation (outs_of self.now.desk.rows) numbers.items) }
    {
        Vec::from_slice(alloc, &self.outs)
    }

    /// Offers a row that is In to the builders.
    pub fn offer(&mut self, board: &Board, row: usize)
        requires table { board.now.table ≡ self.old.table }
        requires row { get_elem? self.old.desk.rows row ≡ some In }
        ensures { self.new
            ≡ record self.old { desk = desk_tried (Offered row) (with_row row Out self.old.desk) } }
    {
        board.offer(&mut self.seat, row);
        self.places[row] = self.outs.len();
        self.outs.push_reserved(row);
    }

    /// Takes the offer of a row that is Out back, unless a builder was faster.
    pub fn withdraw(&mut self, board: &Board, row: usize) -> Withdrawal
        requires table { board.now.table ≡ self.old.table }
        requires row { get_elem? self.old.desk.rows row ≡ some Out }
        ensures { Withdraws row self.old self.new result }
    {
        let withdrawal = board.withdraw(&mut self.seat, row);
        let place = self.places[row];
        let last = self.outs[self.outs.len() - 1];
        self.places[last] = place;
        self.outs.swap_remove(place);
        withdrawal
    }

    /// Notes the claim on a row that is Seen, and answers the builder's number.
    pub fn note(&mut self, board: &Board, row: usize) -> u64
        requires table { board.now.table ≡ self.old.table }
        requires row { (b : ℕ) × (get_elem? self.old.desk.rows row ≡ some (Seen b)) }
        ensures builder { get_elem? self.old.desk.rows row ≡ some (Seen result) }
        ensures one_of_the_boards { (0 < result) × (result ≤ length self.old.desk.noted) }
        ensures desk { let known = with_row row (Known result) self.old.desk in
            let told = with_deed result (deed.Claim row) known in
            self.new ≡ record self.old { desk = desk_tried (ClaimNoted row result) told } }
    {
        board.note(&mut self.seat, row)
    }

    /// Closes a row that is Known, and notes the outcome, where its build ended with this one.
    /// False where that was tried and it hadn't.
    pub fn settle(&mut self, board: &Board, row: usize, outcome: OutcomeCode) -> bool
        requires table { board.now.table ≡ self.old.table }
        requires row { (b : ℕ) × (get_elem? self.old.desk.rows row ≡ some (Known b)) }
        ensures { let builder = holder_at self.old.desk.rows row in
            let closed = with_row row In self.old.desk in
            let settled = with_deed builder (deed.Finish row outcome) closed in
            MatchBool result
            (self.new ≡ record self.old { desk = desk_tried (SettleDone row outcome) settled })
            (self.new
            ≡ record self.old { desk = desk_tried (SettleEarly row outcome) self.old.desk }) }
    {
        board.settle(&mut self.seat, row, outcome)
    }
}
