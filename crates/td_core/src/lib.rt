//! The history of the rows and of what is on offer, and the world that it changes in, step by step.
//!
//! Start at `Kept`: the opening rows, the journal that led from them to the rows as they are, and
//! of each standing command what it changed. `Books` also keeps what is on offer: an arrival
//! installs a row and offers its build, and a sweep frees the waiting rows whose relation the
//! offers meet. Both are opened again from a journal that is read (`reopen`). `World` adds the
//! builders: `World::step` takes one step of the desk, of a builder or of the archive, and `run`
//! takes a list of them.
//! Promised, over every list of steps: the rows are the meanings of the journal's standing entries,
//! folded over the opening rows; a command followed at once by its undo leaves every row as it was;
//! the undo of a standing command is refused for a later entry if and only if a standing one
//! touches it, and names the latest; no entry is changed or removed, and a mark only by an accepted
//! undo; who has a row has it in hand; only arrivals change what is on offer, and a sweep frees
//! exactly the rows that it meets (`laws`).
#![tactic(auto)]

mod arriving;
mod books;
mod committing;
mod kept;
mod key_list;
pub mod laws;
mod refusals;
mod reopening;
mod runs;
mod searching;
mod step;
mod stepping;
mod sweeping;
mod world;

pub use books::Books;
pub use committing::PlannedCommand;
pub use kept::Kept;
pub use key_list::KeyList;
pub use runs::run;
pub use step::{Answer, Hand, Phase, Refusal, Step};
pub use world::World;
