//! What is on offer to the sources that wait: the offers of an index, and the rebuilds that have
//! arrived since.
//!
//! Start at `Supply`: `push` and `push_source` fill it from an index, `arrive` puts a rebuild's
//! version instead of the index's, and `meets` asks whether a relation is met now. It holds slices
//! of the index's text. `Numbers` finds items by a name.
//! Promised: an arrival changes the offers of its source on exactly its architecture and no other,
//! and a relation is met exactly as td_relation's `specs/Meeting` says of what is on offer.
#![tactic(auto)]

mod arrival;
mod asking;
mod laws;
mod numbers;
mod stocked;
mod supply;

pub use laws::{arrivals_change_their_own, nothing_is_met};
pub use numbers::Numbers;
pub use stocked::Build;
pub use supply::Supply;
