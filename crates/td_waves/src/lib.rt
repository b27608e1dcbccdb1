//! Waves: the levels in which affected sources can be rebuilt, each on what the levels before it
//! give.
//!
//! Start at `Waves::of`. Which source builds on which is said by `specs/BuildsOn.antt`, where a
//! source stands then by `specs/Levels.antt`, which knows no order of work and no threads.
//! Promised: each affected source has the level at which it stands, or is cyclic. It takes a
//! look-up for each alternative of an affected source's build, and a step for each source and edge;
//! that no clause says.
#![tactic(auto)]

mod asking;
mod edges;
mod fitting;
mod graph;
mod laws;
mod level;
mod named;
mod placing;
mod providers;
mod waves;

pub use laws::sources_build_on_what_they_ask_for;
pub use level::Level;
pub use waves::Waves;
