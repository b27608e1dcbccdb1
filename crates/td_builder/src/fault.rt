//! Why a text of outcomes wasn't read.
use thiserror::Error;

/// Why a text isn't one of outcome lines. Lines count from 1.
#[derive(Clone, Copy, Debug, PartialEq, Eq, Drop, Error)]
pub enum OutcomesFault {
    /// The first line that isn't an outcome's.
    #[error("line {0} isn't an outcome's")]
    BadLine(usize),
    #[error("want of memory")]
    NoMemory,
}
