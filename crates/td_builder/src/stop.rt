//! Why a builder stops.
ghost use Rattle.std.specs.Prelude.{◌≡◌};
ghost use Rattle.td_builder.specs.Stops.{start_stop, finish_stop};

use td_book::{FinishRefusal, StartRefusal};
use thiserror::Error;

/// Why a builder stopped before its floor ended.
#[derive(Clone, Copy, Debug, PartialEq, Eq, Error)]
pub enum WorkStop {
    #[error("want of memory")]
    NoMemory,
    /// The board doesn't say of the row in hand what the builder's seat does.
    #[error("the board and the builder's seat differ")]
    Mismatch,
}

// What a start that was refused stops a builder for.
pub(crate) fn start_stop(refusal: StartRefusal) -> WorkStop
    ensures { result ≡ start_stop refusal }
{
    match refusal {
        StartRefusal::NoMemory => WorkStop::NoMemory,
        StartRefusal::NothingHeld | StartRefusal::Mismatch => WorkStop::Mismatch,
    }
}

// What a finish that was refused stops a builder for.
pub(crate) fn finish_stop(refusal: FinishRefusal) -> WorkStop
    ensures { result ≡ finish_stop refusal }
{
    match refusal {
        FinishRefusal::NoMemory => WorkStop::NoMemory,
        FinishRefusal::NothingHeld | FinishRefusal::Mismatch => WorkStop::Mismatch,
    }
}
