//! What no clause can say: that calls succeed where nothing fails, and each fault where it is due.
//! Readers and writers here move one byte a call, are interrupted now and then, and fail after a
//! number of bytes. Expected values follow from the texts and these numbers.
ghost use Rattle.std.specs.Prelude.{Some, true};

use crate::checks::{holds, is_same, is_told, made};
use std::alloc::Global;
use std::io;
use std::io::{ErrorKind, Read, Write};
use td_bytes::{
    ReadFault, Reader, TextFault, WriteFault, Writer, read_text, read_whole, write_whole,
};

// Gives one byte a call, is interrupted before each, and fails where its room is used up.
#[derive(Drop)]
struct Drip<'a> {
    left: &'a [u8],
    room: usize,
    is_rested: bool,
}

impl<'a> Drip<'a> {
    fn new(left: &'a [u8], room: usize) -> Drip<'a> {
        Drip {
            left,
            room,
            is_rested: false,
        }
    }
}

impl Read for Drip<'_> {
    fn read(&mut self, buffer: &mut [u8]) -> io::Result<usize> {
        self.is_rested = !self.is_rested;
        if self.is_rested {
            return Err(io::Error::from(ErrorKind::Interrupted));
        }
        if self.room == 0 {
            return Err(io::Error::from(ErrorKind::Other));
        }
        let (Some((first, rest)), Some(place)) = (self.left.split_first(), buffer.first_mut())
        else {
            return Ok(0);
        };
        *place = *first;
        self.left = rest;
        self.room -= 1;
        Ok(1)
    }
}

impl Reader for Drip<'_> {
    ghost can_fail = { λ _. true };

    fn read_once(&mut self, buffer: &mut [u8]) -> io::Result<usize> {
        self.read(buffer)
    }
}

// Takes one byte a call, is interrupted before each, and fails where its room is used up, or takes
// nothing where it is full.
#[derive(Drop)]
struct Narrow {
    taken: Vec<u8>,
    room: usize,
    is_rested: bool,
    is_full: bool,
}

impl Narrow {
    fn new(alloc: Global, room: usize, is_full: bool) -> Narrow {
        Narrow {
            taken: Vec::new(alloc),
            room,
            is_rested: false,
            is_full,
        }
    }
}

impl Write for Narrow {
    ghost contents = { λ w. Some w.taken.items };

    fn write(&mut self, bytes: &[u8]) -> io::Result<usize> {
        self.is_rested = !self.is_rested;
        if self.is_rested {
            return Err(io::Error::from(ErrorKind::Interrupted));
        }
        let Some(first) = bytes.first() else {
            return Ok(0);
        };
        if self.room == 0 {
            return if self.is_full {
                Ok(0)
            } else {
                Err(io::Error::from(ErrorKind::Other))
            };
        }
        self.taken.push(*first)?;
        self.room -= 1;
        Ok(1)
    }

    // A flush fails only where no room is left.
    fn flush(&mut self) -> io::Result<()> {
        if self.room == 0 {
            return Err(io::Error::from(ErrorKind::Other));
        }
        Ok(())
    }
}

impl Writer for Narrow {
    ghost can_fail = { λ _. true };

    fn write_once(&mut self, bytes: &[u8]) -> io::Result<usize> {
        self.write(bytes)
    }

    fn flush_once(&mut self) -> io::Result<()> {
        self.flush()
    }
}

// Whether what is read, with room for this many bytes from the first, is this.
fn is_read<R: Reader>(
    alloc: Global,
    reader: &mut R,
    limit: usize,
    room: usize,
    expected: &[u8],
) -> Result<bool, ReadFault> {
    match read_whole(alloc, reader, limit, room) {
        Ok(bytes) => Ok(bytes.as_slice() == expected),
        Err(fault) => Err(fault),
    }
}

// Whether what is read of bytes that drip is all of them.
fn drips(alloc: Global, bytes: &[u8], limit: usize) -> Result<bool, ReadFault> {
    let mut drip = Drip::new(bytes, 9);
    is_read(alloc, &mut drip, limit, 0, bytes)
}

const LIMITS: [(usize, Result<bool, ReadFault>); 4] = [
    (0, Err(ReadFault::TooLong)),
    (4, Err(ReadFault::TooLong)),
    (5, Ok(true)),
    (6, Ok(true)),
];

#[test]
fn a_text_is_read_to_its_end_up_to_the_limit(rt: HostRuntime) {
    for (limit, expected) in &LIMITS {
        is_same(&rt, &drips(rt.alloc(), b"steps", *limit), expected, "steps");
    }
    is_same(&rt, &drips(rt.alloc(), b"", 0), &Ok(true), "an empty text");
}

// Bytes, how many of them there is room for, and the fault.
const FAULTS: [(&[u8], usize, TextFault); 5] = [
    (b"gb \xff!", 9, TextFault::NotText),
    (b"gb \xff!!", 9, TextFault::TooLong),
    (b"gb \xff!", 5, TextFault::CannotRead),
    (b"gb foo", 0, TextFault::CannotRead),
    (b"gb foo", 3, TextFault::CannotRead),
];

fn fault_of(alloc: Global, bytes: &[u8], room: usize) -> Option<TextFault> {
    let mut drip = Drip::new(bytes, room);
    read_text(alloc, &mut drip, 5, 0).err()
}

#[test]
fn a_fault_of_reading_has_its_name(rt: HostRuntime) {
    for (bytes, room, fault) in &FAULTS {
        let found = fault_of(rt.alloc(), bytes, *room);
        is_same(&rt, &found, &Some(*fault), "a fault is due");
    }
    let mut drip = Drip::new(b"f\xc3\xbc\n", 9);
    is_told(
        &rt,
        read_text(rt.alloc(), &mut drip, 4, 4),
        "fü\n",
        "a text",
    );
}

// Whether what is read of a slice, which gives as much as there is room for, is all of it.
fn flows(alloc: Global, bytes: &[u8], limit: usize, room: usize) -> Result<bool, ReadFault> {
    let mut reader: &[u8] = bytes;
    is_read(alloc, &mut reader, limit, room, bytes)
}

// Two pieces of 65,536 bytes and a little more, with room for none, for as many, and for more.
#[test]
fn a_long_text_is_read_in_pieces(rt: HostRuntime) {
    let long = made(&rt, vec![in rt.alloc(); b'x'; 140_000]);
    for room in &[0, 140_000, usize::MAX] {
        let whole = flows(rt.alloc(), long.as_slice(), 140_000, *room);
        is_same(&rt, &whole, &Ok(true), "140,000 bytes");
    }
    let fault = flows(rt.alloc(), long.as_slice(), 139_999, 140_000);
    is_same(&rt, &fault, &Err(ReadFault::TooLong), "one too many");
}

// Whether a narrow writer gets this front of a text, and all of it where there is more room.
fn gets(alloc: Global, room: usize, is_full: bool, front: &str) -> bool {
    let mut writer = Narrow::new(alloc, room, is_full);
    let is_written = match write_whole(&mut writer, b"steps") {
        Ok(()) => true,
        Err(WriteFault) => false,
    };
    is_written == (room > 5) && writer.taken.as_slice() == front.as_bytes()
}

const FRONTS: [(usize, bool, &str); 6] = [
    (9, false, "steps"),
    (6, true, "steps"),
    (5, false, "steps"),
    (3, false, "ste"),
    (3, true, "ste"),
    (0, false, ""),
];

#[test]
fn a_narrow_writer_gets_all_and_a_full_one_a_front(rt: HostRuntime) {
    for (room, is_full, front) in &FRONTS {
        let is_gotten = gets(rt.alloc(), *room, *is_full, front);
        holds(&rt, is_gotten, front);
    }
}
