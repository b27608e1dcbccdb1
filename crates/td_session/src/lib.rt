//! A session at a desk in a file, over the texts of an archive's files.
//!
//! Start at `hold_session`: it judges the texts, then opens the desk's file, then answers the lines
//! of a reader. `SessionTexts` are what the files hold, `DeskFile` says where the desk's file comes
//! from, `Held` is what is left.
//! Promised (`specs/Sessions.antt`): the first fault of the texts is named as for a script, and
//! nothing is touched before all of them are judged; a file that is refused stays as it is; else
//! the lines are answered from the history that the file tells, and whatever stops at whatever
//! moment, the file tells the history of all answered lines.
#![tactic(auto)]

mod desk_file;
mod fault;
mod ground;
mod grounding;
mod held;
mod holding;
mod judging;
mod session;
mod texts;

pub use desk_file::{DeskFile, OpenRefusal};
pub use fault::SessionFault;
pub use held::Held;
pub use session::hold_session;
pub use texts::SessionTexts;
