//! The desk's seat at a board, and a builder's.
ghost use Rattle.std.specs.Prelude.{◌≡◌, ℕ, ◌<◌, ◌≤◌, length};
ghost use mathlib.Core.Option.{some};
ghost use lib.ListN.{get_elem?};
ghost use Rattle.td_board.specs.Limits.{max_rows, max_builders};
ghost use Rattle.td_board.specs.declared.views.RowView.TheVariants.{Seen, Known};
ghost use Rattle.td_board.specs.Seats.{rows_of, HasRow, KnowsItsBuilders};

use crate::views::{Hand, View};
use atomic_table::Seat;
use std::marker::Model;

/// The desk's seat. Contracts see the table that it sits at, and what the desk knows.
#[derive(Drop)]
pub struct DeskSeat {
    pub(crate) seat: Seat<(), View>,
    // By row number, the builder's number, if the row is Seen or Known.
    pub(crate) holders: Vec<u64>,
    // How many builders have a seat.
    pub(crate) builders: u64,
}

impl Model for DeskSeat {
    ghost use Rattle.td_board.specs.Seats.{DeskModel};

    ghost Value = { DeskModel };

    ghost use Rattle.std.specs.Prelude.{◌≡◌};
    ghost use Rattle.td_board.specs.Seats.{IsDesk};
    ghost use Rattle.td_board.specs.Tells.{desk_in, at_desk};

    ghost view = { λ s. record { table = s.seat.table_id; desk = desk_in s.seat.me.0 } };

    ghost invariant = { λ s. (s.seat.me ≡ at_desk (desk_in s.seat.me.0))
        × IsDesk s.seat.table_id (desk_in s.seat.me.0) s.holders.items s.builders };
}

impl DeskSeat {
    /// How many builders have a seat at the board. Each whom the desk knows to have a row is one
    /// of them.
    pub fn builders(&self) -> u64
        ensures number { result ≡ length self.now.desk.noted }
        ensures bound { result ≤ max_builders }
        ensures seated { KnowsItsBuilders self.now.desk }
    {
        self.builders
    }

    /// How many rows the board has.
    pub fn rows(&self) -> usize
        ensures number { result ≡ length self.now.desk.rows }
        ensures table { result ≡ rows_of self.now.table }
        ensures bound { result ≤ max_rows }
    {
        self.holders.len()
    }

    // The builder that the desk knows to have the row.
    pub(crate) fn holder(&self, row: usize) -> u64
        requires { row < length self.now.desk.rows }
        ensures seen { (b : ℕ) →
            get_elem? self.now.desk.rows row ≡ some (Seen b) → result ≡ b }
        ensures known { (b : ℕ) →
            get_elem? self.now.desk.rows row ≡ some (Known b) → result ≡ b }
        ensures small { result ≤ max_builders }
    {
        self.holders[row]
    }
}

/// A builder's seat. Contracts see the table that it sits at, and what the builder knows. A
/// builder whose seat is dropped keeps its row.
#[derive(Drop)]
pub struct BuilderSeat {
    pub(crate) seat: Seat<(), View>,
    pub(crate) number: u64,
    pub(crate) hand: Hand,
}

impl Model for BuilderSeat {
    ghost use Rattle.td_board.specs.Seats.{BuilderModel};

    ghost Value = { BuilderModel };

    ghost use Rattle.std.specs.Prelude.{◌≡◌};
    ghost use Rattle.td_board.specs.Seats.{IsBuilder};
    ghost use Rattle.td_board.specs.Tells.{builder_in, at_builder};

    ghost view = { λ s. record { table = s.seat.table_id; builder = builder_in s.seat.me.0 } };

    ghost invariant = { λ s. (s.seat.me ≡ at_builder (builder_in s.seat.me.0))
        × IsBuilder s.seat.table_id (builder_in s.seat.me.0) s.number s.hand };
}

impl BuilderSeat {
    /// The builder's number, from 1 on.
    pub fn number(&self) -> u64
        ensures number { result ≡ self.now.builder.number }
        ensures bound { (0 < result) × (result ≤ max_builders) }
    {
        self.number
    }

    /// What the builder has in hand. Its row is one of the board's.
    pub fn hand(&self) -> Hand
        ensures hand { result ≡ self.now.builder.hand }
        ensures row { HasRow (rows_of self.now.table) result }
    {
        self.hand
    }
}
