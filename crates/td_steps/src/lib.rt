//! Each call of the book is a list of the core's steps.
//!
//! Start at `laws`, then at `specs/Sees.antt`: what the desk knows, and when that is so of a world.
//! Each call of `td_book` is a list of the desk's moves (`specs/Moves.antt`), each of them a step
//! of `td_core`'s world; builders' steps may come anywhere between (`specs/Runs.antt`).
//! Promised, over the definitions that the calls' contracts cite: whatever a call answers, some
//! moves do it, any run of them leads from a world that the book sees to one that it sees
//! afterwards, and such runs exist for the choices that worlds decide; and over any list of calls
//! the rows are the meanings of the journal's standing entries, folded over the opening rows, and a
//! command is undone at once.
//! Nothing here runs.
#![tactic(auto)]

pub mod laws;
