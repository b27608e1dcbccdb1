//! How often a call is made: a call that lacked memory may be made once more.

// One try, or a second if the first lacked memory.
#[derive(Clone, Copy)]
pub(crate) enum Tries {
    One,
    Two,
}

// What is shown instead of an answer if a call that lacked memory changed something.
pub(crate) const CHANGED: &str = "lacked memory, and changed something";

// Whether an answer says that memory ran out.
pub(crate) fn lacks_memory(told: &str) -> bool {
    told.contains("NoMemory") || told.contains("AllocError")
}
