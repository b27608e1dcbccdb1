//! The claim board: builders claim queued rows without a lock, and at most one holds a row.
//!
//! Start at `Board`. `desk` has the steps of the desk's seat, `builder` those of a builder's; each
//! is one atomic step on one word (a claim after a settled finish is two), needs neither a lock nor
//! memory, and is tried once.
//! Promised: each call says what its own seat knows before and after, and what it tried, also if
//! nothing came of it (`views`); and over every schedule of steps at most one builder holds a row,
//! a builder holds at most one, a hold ends only by its holder's finish, and the desk notes nothing
//! that the builder hasn't done (`promises`).
#![tactic(auto)]

mod board;
mod builder;
mod desk;
mod outcome;
mod promises;
mod rule;
mod seats;
pub mod views;
mod words;

pub use board::{Board, MAX_BUILDERS, MAX_ROWS, MakeRefusal};
pub use desk::Withdrawal;
pub use outcome::OutcomeCode;
pub use promises::{
    a_builder_holds_at_most_one_row, a_hold_ends_only_by_its_finish, lists_only_grow,
    nothing_is_invented, one_builder_holds_a_row, phases_have_words_of_their_own,
    the_board_rule_stands,
};
pub use seats::{BuilderSeat, DeskSeat};
pub use views::Hand;
