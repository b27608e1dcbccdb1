//! Crews: a clerk answers a script at a desk while builders build on threads of their own.
//!
//! Start at `run_crew_with`, over outcomes that are read; `run_crew` reads them from a text. The
//! script is read as `td_script` reads it, and each answer put in the same words; then the desk is
//! shut, the builders are joined, the desk is closed, and the rows of its book are written.
//! Promised: each fault of a script comes where it is due, in its place in the order of the script;
//! what is written is a reply to each line, which some book of the desk answers, and then the rows
//! of one, against whose changes the receipts of the lines are held; and the number of refusals,
//! except for missing builders. Which book answers a line depends on who is first.
#![tactic(auto)]

mod answering;
mod building;
mod crew;
mod dispatch;
mod ends;
mod line_answers;
mod lines;
mod running;
mod shift;
mod shown;
mod telling;
mod told;
mod worker;

pub use crew::{Crew, tell_script};
pub use running::{CrewFault, run_crew, run_crew_with};
