//! The desk that lasts in a file: a history over rows and offers, each change of it a line of the
//! file, which is on the disk before its answer is told.
//!
//! Start at `FileDesk`: `open` reads the file and goes on from the history that its lines tell,
//! `answer` answers a line. A line is one of a script (`td_script`), or one of five more
//! (`own_request`), by which builders take rows and say how their builds ended. `serve` reads lines
//! from a reader and writes each answer before it reads on: `Turns` is such a reader.
//! Promised: the answer to a line is `specs/DeskAnswers.antt` of the history that the lines before
//! it leave; a line that is refused, or for which memory runs out, changes neither rows nor file;
//! and whatever stops at whatever moment, the file opens, and tells the history of all answered
//! lines, with perhaps the event of the line under way.
#![tactic(auto)]

mod answering;
mod asking;
mod basis;
mod building;
mod chronicle;
mod desk;
mod event;
mod file_fault;
mod file_reading;
mod framing;
mod hands;
mod hearing;
mod laws;
mod looking;
mod opening;
mod order;
mod own_request;
mod records;
mod relations;
mod sending;
mod serving;
mod tale;
mod terms;
mod turns;

pub use basis::header;
pub use chronicle::DeskFault;
pub use desk::FileDesk;
pub use event::Event;
pub use file_fault::FileFault;
pub use file_reading::{read_event, records_are_exact};
pub use framing::{Framed, LINE_LIMIT};
pub use hearing::{Heard, hear, own_lines_are_heard};
pub use laws::{
    commands_are_undone, events_tell_all, files_tell_lawfully, files_tell_what_was_done,
    inputs_decide, lines_say_what_stands, stops_tell_fronts,
};
pub use order::priorities_decide;
pub use own_request::{OwnRequest, OwnVerb, own_lines_are_exact, read_own_request};
pub use serving::{ServeEnd, ServeFault, serve};
pub use terms::Terms;
pub use turns::{StreamFault, Turns};
