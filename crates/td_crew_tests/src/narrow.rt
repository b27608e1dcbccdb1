//! A writer that takes one byte a call.
ghost use Rattle.std.specs.Prelude.{Some, true};

use std::io;
use std::io::Write;
use td_bytes::Writer;

/// Takes one byte a call.
#[derive(Drop)]
pub(crate) struct Narrow {
    pub(crate) taken: Vec<u8>,
}

impl Write for Narrow {
    ghost contents = { λ w. Some w.taken.items };

    fn write(&mut self, bytes: &[u8]) -> io::Result<usize> {
        let Some(first) = bytes.first() else {
            return Ok(0);
        };
        self.taken.push(*first)?;
        Ok(1)
    }

    fn flush(&mut self) -> io::Result<()> {
        Ok(())
    }
}

// A narrow writer fails if memory runs out.
impl Writer for Narrow {
    ghost can_fail = { λ _. true };

    fn write_once(&mut self, bytes: &[u8]) -> io::Result<usize> {
        self.write(bytes)
    }

    fn flush_once(&mut self) -> io::Result<()> {
        self.flush()
    }
}
