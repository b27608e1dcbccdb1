//! What `check --details` says of an archive: a line for each architecture of its table, a line for
//! each text and pattern of a tracker, and warnings of what is lawful and yet rarely meant.
//!
//! Start at `put_details` and `put_tracker_details`. `specs/Counts.antt` says what is counted on an
//! architecture, `specs/Swapped.antt` which stanzas are in the wrong index, `specs/Asked.antt` what
//! a tracker asks for, `specs/CutOff.antt` which index may be cut off; `specs/Details.antt` and
//! `specs/TrackerDetails.antt` say which lines that makes.
//! Promised: the lines are those of an archive, in the order of its table, and of a tracker, from
//! the left; the warnings of each come after its lines. All packages are gone over once, and those
//! of a source once for each row that it has. For a tracker all stanzas that count are gone over
//! once for each text and pattern.
#![tactic(auto)]

mod anywhere;
mod asked;
mod counts;
mod cut_off;
mod details;
mod lines;
mod owning;
mod queued;
mod swapped;
mod tracker_details;

pub use counts::ArchCounts;
pub use cut_off::{are_halves_cut_off, is_cut_off, put_cut_lines};
pub use details::put_details;
pub use tracker_details::put_tracker_details;
