//! Which rows a command names, which of them match its versions, and which of them it doesn't take.
//!
//! Start at `named`. `matched` has those of the named rows whose version matches. `doubts` has a
//! skip of each named row, should it not be taken; `Skips::left` are those that remain, with the
//! states that the rows have just before the entry.
//! Promised: the rows are exactly those of the sources and architectures that the command names,
//! in the order of their keys and each once; a skip has the first reason that holds of its row.
//! No call changes a row, and none scans the rows.
#![tactic(auto)]

mod naming;
mod skips;

pub use naming::{doubts, matched, named};
pub use skips::{Skip, SkipReason, Skips, fits};
