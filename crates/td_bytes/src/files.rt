//! Files and streams, of whose failures nobody knows.
use crate::positioned::Positioned;
use crate::streams::{Reader, Writer};
use std::fs::File;
use std::io;
use std::io::{Print, Printer, Read, Stderr, Stdin, Take, Write};
use std::os::unix::fs::FileExt;

impl Reader for File {
    ghost use Rattle.std.specs.Prelude.{true};

    ghost can_fail = { λ _. true };

    fn read_once(&mut self, buffer: &mut [u8]) -> io::Result<usize> {
        self.read(buffer)
    }
}

impl Reader for Stdin {
    ghost use Rattle.std.specs.Prelude.{true};

    ghost can_fail = { λ _. true };

    fn read_once(&mut self, buffer: &mut [u8]) -> io::Result<usize> {
        self.read(buffer)
    }
}

impl<R: Read> Reader for Take<R> {
    ghost use Rattle.std.specs.Prelude.{true};

    ghost can_fail = { λ _. true };

    fn read_once(&mut self, buffer: &mut [u8]) -> io::Result<usize> {
        self.read(buffer)
    }
}

impl<P: Print> Writer for Printer<'_, P> {
    ghost use Rattle.std.specs.Prelude.{true};

    ghost can_fail = { λ _. true };

    fn write_once(&mut self, bytes: &[u8]) -> io::Result<usize> {
        self.write(bytes)
    }

    fn flush_once(&mut self) -> io::Result<()> {
        self.flush()
    }
}

impl Writer for Stderr {
    ghost use Rattle.std.specs.Prelude.{true};

    ghost can_fail = { λ _. true };

    fn write_once(&mut self, bytes: &[u8]) -> io::Result<usize> {
        self.write(bytes)
    }

    fn flush_once(&mut self) -> io::Result<()> {
        self.flush()
    }
}

impl Positioned for File {
    ghost use Rattle.std.specs.Prelude.{None};

    ghost bytes = { λ _. None };

    fn read_at(&self, buffer: &mut [u8], place: u64) -> io::Result<usize> {
        FileExt::read_at(self, buffer, place)
    }
}
