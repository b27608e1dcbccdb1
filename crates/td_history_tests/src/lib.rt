//! The tests of texts, of the crates from the rows to the core, and of the board: what no clause
//! says.
//!
//! A module a crate. They stand in a crate of their own, over the crates' public calls, so that
//! none of those is proved a second time with its tests.
#![tactic(auto)]

#[cfg(test)]
mod boards;
#[cfg(test)]
mod changes;
#[cfg(test)]
mod grid;
#[cfg(test)]
mod histories;
#[cfg(test)]
mod journals;
#[cfg(test)]
mod replays;
#[cfg(test)]
mod rows;
#[cfg(test)]
mod texts;
