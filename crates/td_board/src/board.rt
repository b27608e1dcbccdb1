//! The board, and the seats that are made with it.
ghost use Rattle.std.specs.Prelude.{◌≡◌, ◌+◌, ◌≤◌, [], length, IfOk, IfErr, OnOk};
ghost use Rattle.td_board.specs.Knowledge.{new_desk, new_lists, with_builder};
ghost use Rattle.td_board.specs.Limits.{max_rows, max_builders};
ghost use Rattle.td_board.specs.Seats.{rows_of, new_seat, new_seats};
ghost use Rattle.td_board.specs.Answers.{IsMade, IsRefusal};

use crate::rule::{BoardRule, Seats};
use crate::seats::{BuilderSeat, DeskSeat};
use crate::views::{Hand, View};
use atomic_table::Table;
use std::alloc::{AllocError, Global};
use std::marker::Model;
use thiserror::Error;

/// The most rows that a board has.
pub const MAX_ROWS: usize = 1_048_576;

/// The most builders that a board is made for.
pub const MAX_BUILDERS: usize = 64;

/// Which rows are offered, and who has one, in atomic words. Threads share it by reference.
/// Contracts see which table it is, and its number of rows.
// Word 0 is a spare one, at which seats are split off. Row r has the word r + 1.
#[derive(Drop)]
pub struct Board {
    pub(crate) table: Table<(), View, usize, BoardRule, Global>,
    pub(crate) rows: usize,
}

impl Model for Board {
    ghost use Rattle.td_board.specs.Seats.{BoardModel};

    ghost Value = { BoardModel };

    ghost use Rattle.std.specs.Prelude.{◌≡◌, ◌+◌, ◌≤◌};
    ghost use Rattle.td_board.specs.Limits.{max_rows};

    ghost view = { λ b. record { table = b.table.shared.table_id; rows = b.rows } };

    ghost invariant = { λ b. (b.table.shared.key ≡ b.rows)
        × (b.table.shared.table_id.words ≡ b.rows + 1)
        × (b.rows ≤ max_rows) };
}

/// Why a board wasn't made.
#[derive(Clone, Copy, Debug, PartialEq, Eq, Error)]
pub enum MakeRefusal {
    #[error("a board has at most {MAX_ROWS} rows")]
    TooManyRows,
    #[error("a board is made for at most {MAX_BUILDERS} builders")]
    TooManyBuilders,
    #[error("out of memory")]
    NoMemory,
}

impl Board {
    /// A board with every row closed, the desk's seat, and the seats of the builders 1, 2, .. in
    /// order.
    pub fn make(
        alloc: Global,
        rows: usize,
        builders: usize,
    ) -> Result<(Board, DeskSeat, Vec<BuilderSeat>), MakeRefusal>
        ensures ok { IfOk result (λ made. IsMade rows builders made.0 made.1 made.2.items) }
        ensures err { IfErr result (IsRefusal rows builders) }
    {
        if rows > MAX_ROWS {
            return Err(MakeRefusal::TooManyRows);
        }
        if builders > MAX_BUILDERS {
            return Err(MakeRefusal::TooManyBuilders);
        }
        let Ok((board, mut desk)) = laid_out(alloc, rows) else {
            return Err(MakeRefusal::NoMemory);
        };
        let Ok(seats) = board.seats(alloc, &mut desk, builders) else {
            return Err(MakeRefusal::NoMemory);
        };
        Ok((board, desk, seats))
    }

    /// How many rows the board has.
    pub fn rows(&self) -> usize
        ensures number { result ≡ self.now.rows }
        ensures table { result ≡ rows_of self.now.table }
        ensures bound { result ≤ max_rows }
    {
        self.rows
    }

    // The seats of this many builders, at a board that has none.
    fn seats(
        &self,
        alloc: Global,
        desk: &mut DeskSeat,
        builders: usize,
    ) -> Result<Vec<BuilderSeat>, AllocError>
        requires table { desk.old.table ≡ self.now.table }
        requires none { desk.old.desk.noted ≡ [] }
        requires few { builders ≤ max_builders }
        ensures seats { IfOk result (λ v. v.items ≡ new_seats self.now.table 1 builders) }
        ensures desk { OnOk result
            (desk.new ≡ record desk.old { desk = new_lists builders desk.old.desk }) }
    {
        let mut seats = Vec::with_capacity(alloc, builders)?;
        for number in 0..builders {
            seats.push(self.seat(desk, number as u64 + 1))?;
        }
        Ok(seats)
    }

    // A seat for one builder more, which has the next number.
    fn seat(&self, desk: &mut DeskSeat, number: u64) -> BuilderSeat
        requires table { desk.old.table ≡ self.now.table }
        requires next { number ≡ length desk.old.desk.noted + 1 }
        requires few { number ≤ max_builders }
        ensures desk { desk.new ≡ record desk.old { desk = with_builder desk.old.desk } }
        ensures builder { result ≡ new_seat self.now.table number }
    {
        let seat = self.table.shared.split_seat::<Seats>(&mut desk.seat);
        desk.builders = number;
        BuilderSeat {
            seat,
            number,
            hand: Hand::Free,
        }
    }
}

// A board with no builder yet.
fn laid_out(alloc: Global, rows: usize) -> Result<(Board, DeskSeat), AllocError>
    requires { rows ≤ max_rows }
    ensures board { IfOk result (λ made. made.0.rows ≡ rows) }
    ensures desk { IfOk result (λ made.
        made.1 ≡ record { table = made.0.table; desk = new_desk rows 0 }) }
{
    let words = Vec::from_elem(alloc, 0u64, rows + 1)?;
    let holders = Vec::from_elem(alloc, 0u64, rows)?;
    let (table, seat) = Table::of_words(alloc, words.as_slice(), &rows)?;
    let desk = DeskSeat {
        seat,
        holders,
        builders: 0,
    };
    Ok((Board { table, rows }, desk))
}
