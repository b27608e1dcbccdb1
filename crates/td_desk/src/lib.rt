//! The desk: a book under a lock, and clerks who get receipts of what they changed.
//!
//! Start at `Desk`. `open` begins one before the first entry, `reopen` over a journal's text. Its
//! calls are those of the book, each under the lock; `claim`, by which a builder takes a row, needs
//! no lock. A `Clerk` keeps a receipt of each change that it made, and
//! `Desk::close` holds the receipts of all clerks against the book. `hire` seats builders at it.
//! Promised: each accepted call of a clerk adds its receipt and counts it in a ledger; a desk is
//! closed if and only if the receipts handed in are the book's changes, each once; what a call
//! answers is what the book's call answers on a book at the named board; only `shut` shuts it, and
//! a builder gets a `Home` if it is shut and no row waits.
#![tactic(auto)]

mod answers;
mod building;
mod clerk;
mod clerking;
mod closing;
mod desk;
mod floor;
mod hired;
mod home;
mod lock;
mod locked;
mod looking;
mod matching;
mod named;
mod place;
mod receipt;
mod tick;
mod told;

pub use answers::{Arrived, Commanded, Ended, Ready, Started, Swept, Undone};
pub use clerk::Clerk;
pub use closing::Differ;
pub use desk::{Desk, PARTS};
pub use hired::{Hired, hire};
pub use home::{Home, Homes};
pub use locked::Shut;
pub use looking::{Looks, Seen};
pub use named::Named;
pub use receipt::Receipt;
