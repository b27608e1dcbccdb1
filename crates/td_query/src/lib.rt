//! Trackers: which packages a transition affects, and which of them are good or bad. The language
//! is this project's own, in the style of ben.
//!
//! Start at `Tracker::read`. `specs/TrackerGrammar.antt` says what a text's keys say, and
//! `specs/QueryGrammar.antt` what their queries are; both say which byte is the first wrong one.
//! `specs/Tracking.antt` says which text is a tracker's, and `specs/TrackerFaults.antt` what the
//! fault of any other text is.
//! Promised: a text is read if and only if it is a tracker's, as that tracker, unless memory runs
//! out or a pattern is refused as too large; else the first fault from the left is named, with its
//! place, or what is missing. No clause says which legal pattern is too large.
//! A row's status is what `specs/Statuses.antt` says: `Tracker::status` evaluates the queries on
//! the row's stanzas, `Marks` does so once for each stanza that an archive keeps and is asked row
//! by row.
//! `tracker_atoms` lists a tracker's texts and patterns, and `count_atoms` says how many stanzas
//! each finds: `specs/Atoms.antt`.
//! `specs/QueryLaws.antt` and `specs/StatusLaws.antt` say what queries and statuses mean.
//! The place of a wrong byte is the first that no continuation allows: `specs/FaultPlaces.antt`.
#![tactic(auto)]

mod affected;
mod atom;
mod atoms;
mod compiling;
mod finding;
mod laws;
mod mark;
mod marking;
mod marks;
mod parse;
mod query;
mod read_fault;
mod row_mark;
mod standing;
mod status;
mod tokens;
mod tracker;
mod tracker_fault;
mod tracker_reading;
mod truth;
mod unescape;

pub use atoms::{Atom, pattern_text, tracker_atoms};
pub use finding::{Found, count_atoms};
pub use laws::{
    atoms_are_read_as_written, comments_are_skipped, fields_match_by_their_values,
    keys_say_what_is_read, patterns_end_at_their_slash, queries_are_as_in_logic,
    queries_are_read_by_their_rules, right_bytes_go_on, rows_are_graded_by_their_stanzas,
    trackers_are_read_as_spelled, trackers_mean_one_thing, wrong_bytes_are_final,
};
pub use marks::Marks;
pub use query::Query;
pub use status::Status;
pub use tracker::Tracker;
pub use tracker_fault::{TrackerFault, TrackerKey};
