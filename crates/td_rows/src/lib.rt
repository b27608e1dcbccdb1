//! The rows of the desk: the state of each source on each architecture, and what each kind of
//! journal entry makes of it.
//!
//! Start at `Row` and `Kind`. `kind::applies` says where a kind may be journalled, and
//! `specs/Meaning.antt` has the whole table. `Rows` is the finite map from keys to rows.
//! Promised: a kind writes only its own cells, and giving these cells their values back takes it
//! back, also past later kinds that share no cell with it (`laws`).
#![tactic(auto)]

mod cells;
mod exchange;
mod key;
mod key_ref;
mod key_text;
mod kind;
pub mod laws;
mod line;
mod notes;
mod number;
mod outcome;
mod row;
mod row_line;
mod rows;
mod sort;
mod state;
mod state_file;
mod state_reading;
mod state_word;
mod state_writing;

pub use cells::Cells;
pub use exchange::{has_text, texts_of};
pub use key::{Key, are_ascending};
pub use key_text::{put_key, read_key, read_own_key};
pub use kind::{Kind, applies, cells_of};
pub use line::{Line, LineError};
pub use notes::{put_notes, read_notes};
pub use number::{MAX_PRIORITY, Priority, RebuildNumber};
pub use outcome::Outcome;
pub use row::Row;
pub use row_line::{RowText, put_row_line};
pub use rows::{MAX_ROWS, OverlayError, Rows};
pub use state::{BuilderNo, MAX_BUILDERS, State};
pub use state_file::StateFault;
pub use state_reading::read_state;
pub use state_word::{put_state_word, read_state_word};
pub use state_writing::{rows_text, written_rows_are_read_again};
pub use td_text::MAX_REBUILD;
