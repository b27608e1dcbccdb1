//! The tests of td_plan: whole plans and lists of steps over small archives, worked by hand.
//!
//! They are in a crate of their own, over public calls, so that td_plan isn't proved a second
//! time with its tests.
#![tactic(auto)]

#[cfg(test)]
mod left;
#[cfg(test)]
mod numbers;
#[cfg(test)]
mod parts;
#[cfg(test)]
mod planning;
#[cfg(test)]
mod quotes;
#[cfg(test)]
mod steps;
#[cfg(test)]
mod waits;
