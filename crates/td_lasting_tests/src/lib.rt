//! The tests of sessions at a desk in a file, over files in memory: what no clause says.
//!
//! Start at `sessions`: they are over the texts of an archive's files (`archive`), and `place` has a
//! desk's file in memory. They stand in a crate of their own, over public calls, so that nothing is
//! proved a second time with its tests. What the program shows is shown by runs of it.
#![tactic(auto)]

#[cfg(test)]
mod archive;
#[cfg(test)]
mod place;
#[cfg(test)]
mod sessions;
