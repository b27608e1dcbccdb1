//! The words of the command line: what they ask for, or what the program says of them.
//!
//! Start at `read_words`. Which folder the words give, `read_folder` says before; the caller finds
//! out which files are there, and tells `read_words` (`Present`). Nothing but this crate knows
//! `clap`, and what it answers is plain data.
//! Promised: words without a fault that name a subcommand ask for just that, unless memory runs
//! out, and for an explanation if and only if `--explain` is given. Words in which `clap` finds a
//! fault ask for nothing (`specs/CommandLine.antt`, over `clap`'s account of a command line). What
//! the program says of other words, help included, is only tested, except for a wrong number of
//! `--chunk` or `--builders`, a wrong list of `--only`, and a message or a suite that no line of a
//! plan can have.
#![tactic(auto)]

mod bad_words;
mod check_words;
mod command;
mod desk_words;
mod folder;
mod help;
mod laws;
mod line_words;
mod plan_words;
mod present;
mod request;
mod run_words;
mod track_words;
mod waves_words;

pub use folder::in_folder;
pub use laws::{
    words_of_a_check_ask_for_it, words_of_a_desk_ask_for_it, words_of_a_folder_ask_for_its_files,
    words_of_a_plan_ask_for_it, words_of_a_run_ask_for_it, words_of_a_simulation_ask_for_it,
    words_of_a_track_ask_for_it, words_of_waves_ask_for_them,
};
pub use line_words::LineWords;
pub use present::Present;
pub use request::{
    ArchivePaths, Call, CheckRequest, DeskRequest, PlanRequest, Request, RunRequest, TrackRequest,
    WavesForm, WordsFault, read_folder, read_words,
};
