//! A change of rows that can be reverted.
//!
//! `Change::make` does to the rows what a kind of journal entry means, and keeps of each row that
//! it names the cells that the kind writes; `Change::revert` gives back exactly these. `Plan`
//! makes every growth of a change beforehand.
//! Promised: a change that is made and reverted leaves the rows as they were, also past later
//! entries that share no cell with it (`laws`); `revert` and `Plan::make` take no memory.
#![tactic(auto)]

mod change;
pub mod laws;
mod plan;
mod written;

pub use change::Change;
pub use plan::Plan;
