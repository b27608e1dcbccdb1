//! The tests of crews, reports, and the program over files in memory: what no clause says.
//!
//! Start at `tools`, which asks the program for each subcommand, then `reports` and `crews`.
//! `archive` and `waves` are what they run over, `path_texts` the files in memory, `at_once` builds
//! that wait for one another. They are in a crate of their own, over public calls, so that
//! nothing is proved a second time with its tests.
#![tactic(auto)]

#[cfg(test)]
mod archive;
#[cfg(test)]
mod at_once;
#[cfg(test)]
mod checks;
#[cfg(test)]
mod crews;
#[cfg(test)]
mod kept_reports;
#[cfg(test)]
mod narrow;
#[cfg(test)]
mod path_texts;
#[cfg(test)]
mod reports;
#[cfg(test)]
mod tools;
#[cfg(test)]
mod waves;
