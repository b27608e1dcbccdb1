//! A reader is read to its end, within a limit.
ghost use Rattle.std.specs.Prelude.{◌≡◌, ◌≢◌, ◌≤◌, ◌<◌, ◌+◌, ◌++◌, ℕ, List, length, take, drop};
ghost use Rattle.std.specs.Prelude.{IfOk, OnOk, OnErr, IfSome};
ghost use Rattle.std.specs.Prelude.{◌↔◌, true, IfErr, IsErrOf, IsTrue, IsUtf8};
ghost use Rattle.std.specs.IoError.{error_kind};
ghost use Rattle.std.specs.Io.{ReadsAtMost};
ghost use Rattle.std.specs.Io.KnownBytes.{Consumes, IsAtEnd, Keeps};
ghost use Rattle.td_bytes.specs.Pieces.{ConsumesFront, HasLost};

use crate::streams::Reader;
use simdutf8::compat::from_utf8;
use std::alloc::{AllocError, Global};
use std::io;
use std::io::ErrorKind;
use thiserror::Error;

/// Why not all was read.
#[derive(Clone, Copy, Debug, PartialEq, Eq, Drop, Error)]
pub enum ReadFault {
    /// The reader failed.
    #[error("cannot read")]
    CannotRead,
    /// More remained than the limit.
    #[error("too long")]
    TooLong,
    #[error("want of memory")]
    NoMemory,
}

impl From<AllocError> for ReadFault {
    ghost use Rattle.std.specs.Prelude.{◌≡◌};
    ghost use Rattle.td_bytes.specs.declared.reading.ReadFault.TheVariants.{NoMemory};

    ghost from_gives = { λ _ fault. fault ≡ NoMemory };

    fn from(_error: AllocError) -> ReadFault {
        ReadFault::NoMemory
    }
}

/// The most bytes that one read gives. In larger pieces a long file is read no faster.
const PIECE: usize = 65_536;

// Whether a call failed by a signal.
pub(crate) fn is_interrupted(error: &io::Error) -> bool
    ensures { IsTrue result ↔ (error_kind error.now ≡ ErrorKind.Interrupted) }
{
    error.kind() == ErrorKind::Interrupted
}

// One read, tried again if a signal interrupts it: as std does, at most 2^64 times.
fn read_piece<R: Reader>(reader: &mut R, buffer: &mut [u8]) -> Result<usize, ReadFault>
    ensures bound { ReadsAtMost result buffer.new }
    ensures ok { IfOk result (λ n.
        Consumes (R.remaining reader.old) (R.remaining reader.new) (take n buffer.new)) }
    ensures end { IfOk result (λ n.
        n ≡ 0 → 0 < length buffer.old → IsAtEnd (R.remaining reader.new)) }
    ensures err { OnErr result (Keeps (R.remaining reader.old) (R.remaining reader.new)) }
    ensures fault { OnErr result (IsErrOf result ReadFault.CannotRead) }
    ensures due { OnErr result (R.can_fail reader.old ≡ true) }
    ensures steady { OnOk result (R.can_fail reader.new ≡ R.can_fail reader.old) }
{
    for tries in 0..u64::MAX {
        match reader.read_once(buffer) {
            Ok(count) => return Ok(count),
            Err(error) if is_interrupted(&error) => {}
            Err(_) => return Err(ReadFault::CannotRead),
        }
    }
    Err(ReadFault::CannotRead)
}

// One read into a buffer, from a place on.
fn read_from<R: Reader>(reader: &mut R, buffer: &mut [u8], at: usize) -> Result<usize, ReadFault>
    requires { at < length buffer.old }
    ensures front { take at buffer.new ≡ take at buffer.old }
    ensures fits { IfOk result (λ n. at + n ≤ length buffer.new) }
    ensures ok { IfOk result (λ n.
        Consumes (R.remaining reader.old) (R.remaining reader.new) (take n (drop at buffer.new))) }
    ensures end { IfOk result (λ n. n ≡ 0 → IsAtEnd (R.remaining reader.new)) }
    ensures err { OnErr result (Keeps (R.remaining reader.old) (R.remaining reader.new)) }
    ensures fault { OnErr result (IsErrOf result ReadFault.CannotRead) }
    ensures due { OnErr result (R.can_fail reader.old ≡ true) }
    ensures steady { OnOk result (R.can_fail reader.new ≡ R.can_fail reader.old) }
{
    read_piece(reader, &mut buffer[at..])
}

// Reads a piece after what was read before, straight into its place.
fn read_behind<R: Reader>(reader: &mut R, bytes: &mut Vec<u8>) -> Result<usize, ReadFault>
    ensures ok { IfOk result (λ n. (piece : List ℕ) × (length piece ≡ n)
        × (bytes.new.items ≡ bytes.old.items ++ piece)
        × Consumes (R.remaining reader.old) (R.remaining reader.new) piece) }
    ensures end { IfOk result (λ n. n ≡ 0 → IsAtEnd (R.remaining reader.new)) }
    ensures err { OnErr result (Keeps (R.remaining reader.old) (R.remaining reader.new)) }
    ensures fault { IfErr result (λ e. e ≢ ReadFault.TooLong) }
    ensures due { IsErrOf result ReadFault.CannotRead → R.can_fail reader.old ≡ true }
    ensures steady { OnOk result (R.can_fail reader.new ≡ R.can_fail reader.old) }
{
    let start = bytes.len();
    let Some(end) = start.checked_add(PIECE) else {
        return Err(ReadFault::NoMemory);
    };
    bytes.resize(end, 0)?;
    let count = read_from(reader, bytes.as_mut_slice(), start)?;
    bytes.truncate(start + count);
    Ok(count)
}

// How many bytes at the front are UTF-8: all of them, or those before the first fault.
fn text_len(bytes: &[u8]) -> usize
    ensures within { result ≤ length bytes.now }
    ensures text { IsUtf8 (take result bytes.now) }
{
    match from_utf8(bytes) {
        Ok(text) => text.len(),
        Err(fault) => fault.valid_up_to(),
    }
}

/// Reads all that remains, of at most `limit` bytes, and tells how many of them, from the first,
/// are known to be UTF-8: each piece is looked at while the caches have it. There is room for
/// `room` bytes from the first. What was read before a fault is lost.
pub fn read_pieces<R: Reader>(
    alloc: Global,
    reader: &mut R,
    limit: usize,
    room: usize,
) -> Result<(Vec<u8>, usize), ReadFault>
    ensures bytes { IfOk result (λ p.
        IfSome (R.remaining reader.old) (λ all. p.0.items ≡ all)) }
    ensures end { OnOk result (IsAtEnd (R.remaining reader.new)) }
    ensures within { IfOk result (λ p. length p.0.items ≤ limit) }
    ensures known { IfOk result (λ p. p.1 ≤ length p.0.items) }
    ensures text { IfOk result (λ p. IsUtf8 (take p.1 p.0.items)) }
    ensures long { IsErrOf result ReadFault.TooLong
        → IfSome (R.remaining reader.old) (λ all. limit < length all) }
    ensures lost { ConsumesFront (R.remaining reader.old) (R.remaining reader.new) }
    ensures fault { IfErr result (HasLost limit (R.remaining reader.old) (R.remaining reader.new)) }
    ensures due { IsErrOf result ReadFault.CannotRead → R.can_fail reader.old ≡ true }
    ensures steady { OnOk result (R.can_fail reader.new ≡ R.can_fail reader.old) }
{
    // (with room for a piece more the end is seen before the list would grow)
    let mut bytes = Vec::with_capacity(alloc, room.min(limit).saturating_add(PIECE))?;
    let mut known = 0;
    loop {
        let before = bytes.len();
        let count = read_behind(reader, &mut bytes)?;
        if count == 0 {
            return Ok((bytes, known));
        }
        if limit - before < count {
            return Err(ReadFault::TooLong);
        }
        known += text_len(bytes.as_slice().split_at(known).1);
    }
}

/// Reads all that remains, of at most `limit` bytes. There is room for `room` bytes from the first:
/// if that is how many remain, no byte is moved again. What was read before a fault is lost.
pub fn read_whole<R: Reader>(
    alloc: Global,
    reader: &mut R,
    limit: usize,
    room: usize,
) -> Result<Vec<u8>, ReadFault>
    ensures bytes { IfOk result (λ bytes.
        IfSome (R.remaining reader.old) (λ all. bytes.items ≡ all)) }
    ensures end { OnOk result (IsAtEnd (R.remaining reader.new)) }
    ensures within { IfOk result (λ bytes. length bytes.items ≤ limit) }
    ensures long { IsErrOf result ReadFault.TooLong
        → IfSome (R.remaining reader.old) (λ all. limit < length all) }
    ensures lost { ConsumesFront (R.remaining reader.old) (R.remaining reader.new) }
    ensures fault { IfErr result (HasLost limit (R.remaining reader.old) (R.remaining reader.new)) }
    ensures due { IsErrOf result ReadFault.CannotRead → R.can_fail reader.old ≡ true }
    ensures steady { OnOk result (R.can_fail reader.new ≡ R.can_fail reader.old) }
{
    match read_pieces(alloc, reader, limit, room) {
        Ok((bytes, _)) => Ok(bytes),
        Err(fault) => Err(fault),
    }
}
