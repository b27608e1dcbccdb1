//! What the program does, over any reader, files and writers: its words, and its subcommands.
//!
//! Start at `tool`: it does what the words ask for, and may wait if that is a run with builders.
//! `answer_alone` does all else, `simulate` is that subcommand by itself; these wait for nobody.
//! `Texts` is where `tool` finds files, and `Desks` where the files of desks are. Its subcommands
//! are
//! `simulation`, `checks`, `tracking` for those that read a tracker (`planning` is one of them, and
//! a
//! check with a tracker another), `running`, and `keeping` for a desk in a file. `td_simulate`
//! reads and plays a simulation, `td_indices` reads indices,
//! `td_details` says what is odd about them, `td_plan` makes a plan, `td_script` answers a script,
//! `td_session` holds a session at a desk, `td_lines` says what there is to say of its lines
//! (`noting`), and `td_words` knows what the
//! words ask for.
//! Promised: what is written is the answer to what was read, and nothing if that is refused; a
//! write that fails leaves a front of it; the status and the line on standard error say which
//! (`specs/Ends.antt`, `specs/CheckEnds.antt`, `specs/Tracks.antt`, `specs/Runs.antt`,
//! `specs/Desks.antt`); and what
//! explains a refusal or a file that can't be read, if that is asked for, is the stated line, or
//! a front of it (`specs/Explained.antt`).
#![tactic(auto)]

mod answering;
mod cause;
mod checking;
mod checks;
mod desk_texts;
mod desks;
mod details_text;
mod early_texts;
mod ending;
mod explaining;
mod file_texts;
mod folder_files;
mod input_fault;
mod keeping;
mod noting;
mod places;
mod plan_text;
mod planning;
mod run_files;
mod running;
mod simulation;
mod steps_text;
mod texts;
mod track_files;
mod tracking;
mod wanted;

pub use answering::{BAD_WORDS, answer_alone, crew_of, tool};
pub use cause::Cause;
pub use desks::Desks;
pub use simulation::simulate;
pub use td_explain::{Packing, packing_of};
pub use texts::Texts;
