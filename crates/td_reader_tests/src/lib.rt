//! The tests of the crates that read and write: streams, stanzas, versions, relations and what is
//! on offer, indices, command lines, trackers, and explanations: what no clause says.
//!
//! There is a module for each crate, and one for what all of them ask. The tests are in a crate of
//! their own, over the crates' public calls, so that none of those is proved a second time with its
//! tests.
#![tactic(auto)]

#[cfg(test)]
mod archives;
#[cfg(test)]
mod checks;
#[cfg(test)]
mod commands;
#[cfg(test)]
mod explanations;
#[cfg(test)]
mod relations;
#[cfg(test)]
mod stanzas;
#[cfg(test)]
mod statuses;
#[cfg(test)]
mod streams;
#[cfg(test)]
mod supplies;
#[cfg(test)]
mod trackers;
#[cfg(test)]
mod versions;
