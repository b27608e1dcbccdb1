//! A reader is read to its end, as a text.
ghost use Rattle.std.specs.Prelude.{◌≡◌, ◌≤◌, ◌<◌, length, IfOk, OnOk, OnErr, IfSome, IsErrOf};
ghost use Rattle.std.specs.Prelude.{true, IsUtf8};
ghost use Rattle.std.specs.String.{string_bytes};
ghost use Rattle.std.specs.Io.KnownBytes.{IsAtEnd};
ghost use Rattle.td_bytes.specs.Pieces.{ConsumesFront};

use crate::reading::{ReadFault, read_pieces};
use crate::streams::Reader;
use std::alloc::Global;
use thiserror::Error;

/// Why no text was read. What is both too long and no text is too long.
#[derive(Clone, Copy, Debug, PartialEq, Eq, Drop, Error)]
pub enum TextFault {
    /// The reader failed.
    #[error("cannot read")]
    CannotRead,
    /// More remained than the limit.
    #[error("too long")]
    TooLong,
    /// What remained isn't UTF-8.
    #[error("not text")]
    NotText,
    #[error("want of memory")]
    NoMemory,
}

impl From<ReadFault> for TextFault {
    ghost use Rattle.std.specs.Prelude.{◌≡◌};
    ghost use Rattle.td_bytes.specs.TextFault.{text_fault_of};

    ghost from_gives = { λ fault made. made ≡ text_fault_of fault };

    fn from(fault: ReadFault) -> TextFault {
        match fault {
            ReadFault::CannotRead => TextFault::CannotRead,
            ReadFault::TooLong => TextFault::TooLong,
            ReadFault::NoMemory => TextFault::NoMemory,
        }
    }
}

/// Reads all that remains, a text of at most `limit` bytes. There is room for `room` bytes from the
/// first. What was read before a fault is lost.
pub fn read_text<R: Reader>(
    alloc: Global,
    reader: &mut R,
    limit: usize,
    room: usize,
) -> Result<String, TextFault>
    ensures text { IfOk result (λ text.
        IfSome (R.remaining reader.old) (λ all. string_bytes text ≡ all)) }
    ensures end { OnOk result (IsAtEnd (R.remaining reader.new)) }
    ensures within { IfOk result (λ text. length (string_bytes text) ≤ limit) }
    ensures long { IsErrOf result TextFault.TooLong
        → IfSome (R.remaining reader.old) (λ all. limit < length all) }
    ensures not_text { IsErrOf result TextFault.NotText
        → IfSome (R.remaining reader.old) (λ all. (length all ≤ limit) × ¬ IsUtf8 all) }
    ensures lost { ConsumesFront (R.remaining reader.old) (R.remaining reader.new) }
    ensures due { IsErrOf result TextFault.CannotRead → R.can_fail reader.old ≡ true }
    ensures steady { OnOk result (R.can_fail reader.new ≡ R.can_fail reader.old) }
{
    let (bytes, known) = read_pieces(alloc, reader, limit, room)?;
    if known == bytes.len() {
        // SAFETY: what it requires is proved here: the first `known` bytes are UTF-8 (the clause
        // `text` of `read_pieces`), and these are all.
        return Ok(unsafe { String::from_utf8_unchecked(bytes) });
    }
    match String::from_utf8(bytes) {
        Ok(text) => Ok(text),
        Err(_) => Err(TextFault::NotText),
    }
}
