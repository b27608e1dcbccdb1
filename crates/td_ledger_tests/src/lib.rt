//! The tests of ledgers over files in memory: what no clause says.
//!
//! The tests are in a crate of their own, over public calls, so that nothing is proved a second
//! time with them.
#![tactic(auto)]

#[cfg(test)]
mod ledgers;
