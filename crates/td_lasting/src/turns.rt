//! Readers that are read in turn with a writer.
ghost use Rattle.std.specs.Prelude.{◌≡◌, ◌↔◌, ◌<◌, true, length, take, IfOk, IsTrue, OnErr, OnOk};
ghost use Rattle.std.specs.Io.{ReadsAtMost};
ghost use Rattle.std.specs.Io.KnownBytes.{Consumes, IsAtEnd};
ghost use Rattle.std.specs.IoError.{error_kind};

use std::io;
use std::io::ErrorKind;
use td_bytes::{Reader, Writer};
use thiserror::Error;

/// A read failed.
#[derive(Clone, Copy, Debug, PartialEq, Eq, Drop, Error)]
#[error("cannot read")]
pub struct StreamFault;

/// A reader that is read in turn with a writer. Its clauses say at which states of the two more may
/// be read: whoever reads it has to show that the writer was told what is due before.
pub trait Turns<W: Writer> {
    ghost use Rattle.std.specs.Prelude.{◌≡◌, ◌<◌, ℕ, Bool, true, List, Option, length, take};
    ghost use Rattle.std.specs.Prelude.{IfOk, OnErr, OnOk};
    ghost use Rattle.std.specs.Io.{ReadsAtMost};
    ghost use Rattle.std.specs.Io.KnownBytes.{Consumes, IsAtEnd};

    // What is left to be read, if clauses know it.
    ghost left: { Self → Option (List ℕ) };

    // Whether a read may fail. It stays so until one does.
    ghost may_fail: { Self → Bool };

    // Whether more may be read now.
    ghost is_turn: { Self → W → Bool };

    /// One read.
    fn read_in_turn(&mut self, writer: &W, buffer: &mut [u8]) -> Result<usize, StreamFault>
        requires turn { is_turn self.old writer.now ≡ true }
        ensures bound { ReadsAtMost result buffer.new }
        ensures ok { IfOk result (λ count.
            Consumes (left self.old) (left self.new) (take count buffer.new)) }
        ensures end { IfOk result (λ count.
            count ≡ 0 → 0 < length buffer.old → IsAtEnd (left self.new)) }
        ensures due { OnErr result (may_fail self.old ≡ true) }
        ensures steady { OnOk result (may_fail self.new ≡ may_fail self.old) };
}

// Whether a read failed by a signal.
fn is_interrupted(error: &io::Error) -> bool
    ensures { IsTrue result ↔ (error_kind error.now ≡ ErrorKind.Interrupted) }
{
    error.kind() == ErrorKind::Interrupted
}

// One read into a buffer, tried again where a signal interrupts it.
fn read_piece<R: Reader>(reader: &mut R, buffer: &mut [u8]) -> Result<usize, StreamFault>
    ensures bound { ReadsAtMost result buffer.new }
    ensures ok { IfOk result (λ count. Consumes (R.remaining reader.old)
        (R.remaining reader.new) (take count buffer.new)) }
    ensures end { IfOk result (λ count.
        count ≡ 0 → 0 < length buffer.old → IsAtEnd (R.remaining reader.new)) }
    ensures due { OnErr result (R.can_fail reader.old ≡ true) }
    ensures steady { OnOk result (R.can_fail reader.new ≡ R.can_fail reader.old) }
{
    for tries in 0..u64::MAX {
        match reader.read_once(buffer) {
            Ok(count) => return Ok(count),
            Err(error) if is_interrupted(&error) => {}
            Err(_) => return Err(StreamFault),
        }
    }
    Err(StreamFault)
}

// Of any other reader it is always the turn.
impl<R: Reader, W: Writer> Turns<W> for R {
    ghost use Rattle.std.specs.Prelude.{true};

    ghost left = { λ reader. R.remaining reader };

    ghost may_fail = { λ reader. R.can_fail reader };

    ghost is_turn = { λ _ _. true };

    fn read_in_turn(&mut self, _writer: &W, buffer: &mut [u8]) -> Result<usize, StreamFault> {
        read_piece(self, buffer)
    }
}
