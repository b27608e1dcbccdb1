//! Bytes in and bytes out: a reader is read to its end, up to a limit, and a writer is written to
//! until it has taken all, whatever pieces they move.
//!
//! Start at `read_text` and `write_whole`; a file is read as two texts by `halves_of`.
//! Promised, of any reader and writer whose bytes clauses know: `Ok` is all that remained, within
//! the limit, and TooLong only if more did; a write that fails leaves a front of the bytes.
//! No call says that a stream failed which can't fail: `Reader` and `Writer` say which can.
#![tactic(auto)]

mod files;
mod halves;
mod memory;
mod positioned;
mod reading;
mod streams;
mod text;
mod writing;

pub use halves::halves_of;
pub use positioned::Positioned;
pub use reading::{ReadFault, read_whole};
pub use streams::{Reader, Writer};
pub use text::{TextFault, read_text};
pub use writing::{WriteFault, write_whole};
