//! Which readers and writers of memory may fail.
use crate::streams::{Reader, Writer};
use std::alloc::Allocator;
use std::io;
use std::io::{Read, Sink, Write};

impl Reader for &[u8] {
    ghost use Rattle.std.specs.Prelude.{false};

    ghost can_fail = { λ _. false };

    fn read_once(&mut self, buffer: &mut [u8]) -> io::Result<usize> {
        self.read(buffer)
    }
}

// A write fails if memory runs out.
impl<A: Allocator> Writer for Vec<u8, A> {
    ghost use Rattle.std.specs.Prelude.{true};

    ghost can_fail = { λ _. true };

    fn write_once(&mut self, bytes: &[u8]) -> io::Result<usize> {
        self.write(bytes)
    }

    fn flush_once(&mut self) -> io::Result<()> {
        self.flush()
    }
}

impl Writer for Sink {
    ghost use Rattle.std.specs.Prelude.{false};

    ghost can_fail = { λ _. false };

    fn write_once(&mut self, bytes: &[u8]) -> io::Result<usize> {
        self.write(bytes)
    }

    fn flush_once(&mut self) -> io::Result<()> {
        self.flush()
    }
}
