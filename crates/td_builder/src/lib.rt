//! Builders: what a builder does, over any floor with rows to build and any way to build one.
//!
//! Start at `work`. `Floor` is where builders find rows, `Builds` a way to build; `Outcomes` is
//! one, by lines of a text.
//! Promised: a builder works in turns. In each the job that the floor gives for the row in hand is
//! built, once, and the floor takes its own outcome as the end of the row; nothing else is built.
//! The turns are counted. A builder ends, or stops, only if the floor says so, or at the last
//! `u64`.
#![tactic(auto)]

mod fault;
mod floor;
mod key_line;
mod outcome_line;
mod outcomes;
mod stop;
mod unused;
mod working;

pub use fault::OutcomesFault;
pub use floor::{Builds, Floor, Tells};
pub use outcomes::Outcomes;
pub use stop::WorkStop;
pub use working::work;
