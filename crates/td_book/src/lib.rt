//! The book: the history of the rows, under the desk's seat at the claim board.
//!
//! Start at `Book`: `opening` begins one over rows, `reopening` over a journal that is read again.
//! `commanding` and `undoing` change the history, `starting` and `finishing` serve a builder,
//! `waiting` says what is to be built next, `arriving` tells the book what the archive has,
//! `watching` how many rows of a group are Installed. `inner` withdraws rows from the board and
//! offers them, and says what the desk knows of each row meanwhile.
//! Promised: between calls a row is offered if and only if it needs a build, and known to be a
//! builder's if and only if it is Building by it (`Book::seat`). Each call says which rows it tries
//! to withdraw (`specs/Tries.antt`); a try that a builder wins notes its claim, and no other claim
//! is noted. A refused call leaves the book as it was except for such claims, and a refused finish
//! may leave the builder's own hand finished. Each call says the history that it leaves.
#![tactic(auto)]

mod arriving;
mod book;
mod building;
mod commanding;
mod finishing;
mod inner;
mod offers;
mod opening;
mod reading;
mod reopening;
mod starting;
mod undoing;
mod waiting;
mod watch;
mod watched;
mod watching;

pub use arriving::{ArriveRefusal, arrival_row};
pub use book::Book;
pub use commanding::{CommandRefusal, Taken};
pub use finishing::FinishRefusal;
pub use starting::{Job, StartRefusal};
pub use undoing::{UndoRefusal, undo_refusal};
pub use waiting::sort_ready;
pub use watching::WatchRefusal;
