//! A writer is written to until it has taken all.
ghost use Rattle.std.specs.Prelude.{◌≡◌, ◌≤◌, ◌<◌, true, length, take, IfOk, OnOk, OnErr};
ghost use Rattle.std.specs.Io.KnownBytes.{Appends, Keeps};
ghost use Rattle.td_bytes.specs.Pieces.{AppendsPrefix};

use crate::reading::is_interrupted;
use crate::streams::Writer;
use thiserror::Error;

/// The writer failed, or takes no more.
#[derive(Clone, Copy, Debug, PartialEq, Eq, Drop, Error)]
#[error("cannot write")]
pub struct WriteFault;

// One write, tried again if a signal interrupts it: as std does, at most 2^64 times.
fn write_piece<W: Writer>(writer: &mut W, bytes: &[u8]) -> Result<usize, WriteFault>
    ensures bound { IfOk result (λ n. (0 < n) × (n ≤ length bytes.now)) }
    ensures ok { IfOk result (λ n.
        Appends (W.contents writer.old) (W.contents writer.new) (take n bytes.now)) }
    ensures err { OnErr result (Keeps (W.contents writer.old) (W.contents writer.new)) }
    ensures due { 0 < length bytes.now → OnErr result (W.can_fail writer.old ≡ true) }
    ensures steady { OnOk result (W.can_fail writer.new ≡ W.can_fail writer.old) }
{
    for tries in 0..u64::MAX {
        match writer.write_once(bytes) {
            Ok(0) => return Err(WriteFault),
            Ok(count) => return Ok(count),
            Err(error) if is_interrupted(&error) => {}
            Err(_) => return Err(WriteFault),
        }
    }
    Err(WriteFault)
}

// One flush, tried again if a signal interrupts it: as std does, at most 2^64 times.
fn flush<W: Writer>(writer: &mut W) -> Result<(), WriteFault>
    ensures kept { Keeps (W.contents writer.old) (W.contents writer.new) }
    ensures due { OnErr result (W.can_fail writer.old ≡ true) }
    ensures steady { OnOk result (W.can_fail writer.new ≡ W.can_fail writer.old) }
{
    for tries in 0..u64::MAX {
        match writer.flush_once() {
            Ok(()) => return Ok(()),
            Err(error) if is_interrupted(&error) => {}
            Err(_) => return Err(WriteFault),
        }
    }
    Err(WriteFault)
}

/// Writes all of the bytes, and flushes. A fault leaves a front of them written: none, some, or
/// all if the flush failed.
pub fn write_whole<W: Writer>(writer: &mut W, bytes: &[u8]) -> Result<(), WriteFault>
    ensures whole { OnOk result
        (Appends (W.contents writer.old) (W.contents writer.new) bytes.now) }
    ensures prefix { OnErr result
        (AppendsPrefix (W.contents writer.old) (W.contents writer.new) bytes.now) }
    ensures due { OnErr result (W.can_fail writer.old ≡ true) }
    ensures steady { OnOk result (W.can_fail writer.new ≡ W.can_fail writer.old) }
{
    let mut rest = bytes;
    while !rest.is_empty() {
        let count = write_piece(writer, rest)?;
        rest = &rest[count..];
    }
    flush(writer)
}
