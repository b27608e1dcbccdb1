//! Scripts: the lines that a person gives the desk, and the answer to each.
//!
//! Start at `run_script`. A line is a command as `td_wbread` reads it, one of seven requests, or
//! nothing; `specs/Requests.antt` spells the requests, `specs/Replies.antt` says what the answer to
//! a line is and which history it leaves, `specs/Script.antt` goes from line to line.
//! Promised: what is written is the answers to the lines that were read, each from the history that
//! the lines before it leave, from the rows and offers that the files and the journal say; and the
//! refusals counted are those among them.
#![tactic(auto)]

mod answering;
mod beginning;
mod commanding;
mod dispatch;
mod files;
mod inputs;
mod laws;
mod lent;
mod line;
mod opening;
mod replying;
mod reports;
mod request;
mod running;
mod staff;
mod told;
mod watched;
mod writing;

pub use answering::{show_entry, show_journal, show_report, show_row};
pub use dispatch::answer;
pub use inputs::Inputs;
pub use laws::cut_scripts_tell_the_same;
pub use lent::Lent;
pub use line::{Said, asked_lines_are_requests, first_word, read_line};
pub use replying::{
    put_arrival, put_arrival_refusal, put_asked_entry, put_asked_row, put_command,
    put_command_refusal, put_sweep, put_undo,
};
pub use reports::Reports;
pub use request::{Request, read_own_key, read_request, request_lines_are_exact};
pub use running::{RunFault, SCRIPT_LIMIT, ScriptEnd, judge_files, run_script, run_with};
pub use staff::{Alone, Asked, Staff, tell_alone};
pub use told::{Told, tell};
pub use writing::{put_refusal, put_skips, put_state_refusal, put_taken, refuse};
