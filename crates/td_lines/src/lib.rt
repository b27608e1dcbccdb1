//! What is said of a script's lines, for people: why one is refused, and which of its words name
//! nothing.
//!
//! Start at `note_script`. It goes over a script as `td_script` does, by a staff of its own
//! (`Noting`), and says of each line what `specs/Notes.antt` has: a faulty word, a name that no
//! source has, a version that the source hasn't.
//! Promised: the notes are the stated ones, of the offers and the suite that the files say. Of the
//! rows' states nothing is said, so they are the same whatever builders do.
#![tactic(auto)]

mod faults;
mod lost;
mod noting;
mod pieces;
mod telling;

pub use telling::{Noting, note_script};
