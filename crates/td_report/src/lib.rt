//! The report of a transition: the affected rows by the levels of their sources.
//!
//! Start at `Transition::of`, which asks a tracker about an archive; `Transition::report` is the
//! text, `groups` the rows to watch for one whose counts are kept.
//! `specs/Report.antt` says what its lines are, `specs/Transition.antt` which rows they are of,
//! `specs/Groups.antt` which rows are counted together.
//! Promised: the text is that of these lines, made in one piece, by chunks in several
//! threads, or by counts of Installed rows that are kept; an affected row is under the level of
//! its source, in the order of the keys, if its status is one that is shown (`Shown`).
#![tactic(auto)]

mod block;
mod blocks;
mod counting;
mod finding;
mod grouping;
mod groups;
mod item;
mod item_line;
mod laws;
mod lines;
mod opening;
mod report_text;
mod shown;
mod splitting;
mod transition;
mod waves_text;
mod writing;

pub use groups::Groups;
pub use laws::reports_are_one_text;
pub use shown::Shown;
pub use transition::Transition;
