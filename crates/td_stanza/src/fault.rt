//! Why a text isn't read as stanzas.
use thiserror::Error;

/// Why a text isn't read as stanzas: the first line with a fault, counted from 1.
#[derive(Clone, Copy, Debug, PartialEq, Eq, Error)]
pub enum StanzaFault {
    #[error("line {0}: no field has that name")]
    BadName(usize),
    #[error("line {0}: a field without a colon")]
    NoColon(usize),
    #[error("line {0}: nothing that it could continue")]
    ContinuationFirst(usize),
    #[error("line {0}: the stanza has the field already")]
    Duplicate(usize),
    #[error("no memory")]
    NoMemory,
}
