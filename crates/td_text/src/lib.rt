//! What the readers and writers of text share: cuts at a character, runs of bytes, lines, numbers
//! as the formats write them, package names and architecture words.
//!
//! Start at `cut_at`, `next_piece` and `number`. Readers borrow from the text, take no memory, and
//! answer `None` where the text isn't of their form; writers append, or leave the text as it was.
//! Promised: a cut is at the first place, and a number is read if and only if it is written so.
//! `specs/Lines.antt` and `specs/FirstFault.antt` say what a reader of lines gives, whatever it
//! reads from a line.
#![tactic(auto)]

mod cutting;
mod line;
mod numeral;
mod runs;
mod word;
mod writing;

pub use cutting::{cut_at, part_at, strip};
pub use line::{behind, next_line, next_piece};
pub use numeral::{MAX_REBUILD, number, numbers_are_exact, rebuild_number, signed};
pub use runs::{arch_run, is_blank, is_space, name_run, trimmed};
pub use word::{are_arch_bytes, is_arch, is_name};
pub use writing::{put_number, put_signed};
