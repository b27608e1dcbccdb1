//! Inputs: the texts of the files that a desk is opened over, read one after the other.
//!
//! Start at `open_texts`: it reads the table of architectures, the two indices, a state file and a
//! tracker, in this order, and lends the archive, the rows and the tracker to a closure. A `Role`
//! is what a text is read as, a `FormFault` why one is refused.
//! Promised: what is lent is what the texts say (`specs/Opened.antt`), else the first fault is
//! named (`specs/Inputs.antt`), with its role and its name (`specs/Faults.antt`).
#![tactic(auto)]

mod form_fault;
mod input_texts;
mod lacking;
mod open_fault;
mod opened;
mod opening;
mod role;
mod state_over;

pub use form_fault::FormFault;
pub use input_texts::{InputTexts, given_text};
pub use open_fault::OpenFault;
pub use opened::{GivenTracker, Opened};
pub use opening::open_texts;
pub use role::Role;
