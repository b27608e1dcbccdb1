//! Readers and writers that say whether they may fail.
use std::io;
use std::io::{Read, Write};

/// A reader that says whether a read of it may fail. Over bytes in memory none does; of a file, a
/// pipe or a terminal nobody knows.
pub trait Reader: Read {
    ghost use Rattle.std.specs.Prelude.{◌≡◌, ℕ, Bool};
    ghost use Rattle.std.specs.Io.{ReadsAtMost};
    ghost use Rattle.std.specs.Io.KnownBytes.{ReadConsumes};
    ghost use Rattle.td_bytes.specs.Failures.{IsDue, StaysUnlessFailed};

    // Whether a read may fail, except by a signal that interrupts it. It stays so until one fails.
    ghost can_fail: { Self → Bool };

    // How many reads signals may interrupt yet, at most, if none may fail.
    ghost interruptions: { Self → ℕ } = { λ _. 0 };

    /// One read, as std's `read`.
    fn read_once(&mut self, buffer: &mut [u8]) -> io::Result<usize>
        ensures bound { ReadsAtMost result buffer.new }
        ensures bytes { ReadConsumes (Self.remaining self.old) (Self.remaining self.new) result
            buffer.new }
        ensures due { IsDue (can_fail self.old) (interruptions self.old) (interruptions self.new)
            result }
        ensures steady { StaysUnlessFailed (can_fail self.old) (can_fail self.new) result };
}

/// A writer that says whether a write or a flush of it may fail.
pub trait Writer: Write {
    ghost use Rattle.std.specs.Prelude.{◌≡◌, ◌<◌, ℕ, Bool, true, length, Ok};
    ghost use Rattle.std.specs.Io.{WritesAtMost};
    ghost use Rattle.std.specs.Io.KnownBytes.{Keeps, WriteAppends};
    ghost use Rattle.td_bytes.specs.Failures.{IsDue, StaysUnlessFailed, StaysUnlessFull};

    // Whether a call may fail, but by a signal that interrupts it, or a write take nothing of some
    // bytes. It stays so until one does.
    ghost can_fail: { Self → Bool };

    // How many calls signals may interrupt yet, at most, if none may fail.
    ghost interruptions: { Self → ℕ } = { λ _. 0 };

    /// One write, as std's `write`.
    fn write_once(&mut self, bytes: &[u8]) -> io::Result<usize>
        ensures bound { WritesAtMost result bytes.now }
        ensures bytes { WriteAppends (Self.contents self.old) (Self.contents self.new) result
            bytes.now }
        ensures due { IsDue (can_fail self.old) (interruptions self.old) (interruptions self.new)
            result }
        ensures full { result ≡ Ok 0 → 0 < length bytes.now → can_fail self.old ≡ true }
        ensures steady { StaysUnlessFull (can_fail self.old) (can_fail self.new) result };

    /// One flush, as std's `flush`.
    fn flush_once(&mut self) -> io::Result<()>
        ensures bytes { Keeps (Self.contents self.old) (Self.contents self.new) }
        ensures due { IsDue (can_fail self.old) (interruptions self.old) (interruptions self.new)
            result }
        ensures steady { StaysUnlessFailed (can_fail self.old) (can_fail self.new) result };
}
