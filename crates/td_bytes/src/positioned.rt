//! Bytes that are read at a place, and those from a place on as a reader.
ghost use Rattle.td_bytes.specs.Places.{bytes_behind};

use crate::streams::Reader;
use std::io;
use std::io::{ErrorKind, Read};

/// Bytes that are read at any place, as those of an open file.
pub trait Positioned {
    ghost use Rattle.std.specs.Prelude.{◌≡◌, ◌<◌, ◌+◌, ℕ, List, Option, IfOk, length, take};
    ghost use Rattle.std.specs.Io.{ReadsAtMost};
    ghost use Rattle.std.specs.Io.KnownBytes.{Consumes, IsAtEnd};
    ghost use Rattle.td_bytes.specs.Places.{bytes_behind};

    // The bytes, if clauses know them.
    ghost bytes: { Self → Option (List ℕ) };

    /// One read at a place. It gives no byte only at the end, or if there is no room.
    fn read_at(&self, buffer: &mut [u8], place: u64) -> io::Result<usize>
        ensures bound { ReadsAtMost result buffer.new }
        ensures read { IfOk result (λ n. Consumes (bytes_behind (bytes self.now) place)
            (bytes_behind (bytes self.now) (place + n)) (take n buffer.new)) }
        ensures end { IfOk result (λ n. n ≡ 0 → 0 < length buffer.new
            → IsAtEnd (bytes_behind (bytes self.now) (place + n))) };
}

// The bytes from a place on. Several readers share an open file, so that they read one file also
// if its name is given to another meanwhile.
#[derive(Drop)]
pub(crate) struct Behind<'f, F> {
    pub(crate) file: &'f F,
    pub(crate) place: u64,
}

impl<F: Positioned> Read for Behind<'_, F> {
    ghost remaining = { λ b. bytes_behind (F.bytes b.file.now) b.place };

    fn read(&mut self, buffer: &mut [u8]) -> io::Result<usize> {
        let count = self.file.read_at(buffer, self.place)?;
        let Some(place) = self.place.checked_add(count as u64) else {
            return Err(io::Error::from(ErrorKind::InvalidInput));
        };
        self.place = place;
        Ok(count)
    }
}

impl<F: Positioned> Reader for Behind<'_, F> {
    ghost use Rattle.std.specs.Prelude.{true};

    ghost can_fail = { λ _. true };

    fn read_once(&mut self, buffer: &mut [u8]) -> io::Result<usize> {
        self.read(buffer)
    }
}
