//! The lines of a reader.
ghost use Rattle.std.specs.Prelude.{◌≡◌, ◌<◌, ◌++◌, [], true, false, length, vec_len};
ghost use Rattle.std.specs.Prelude.{IfOk, IfSome, IsErrOf, OnOk};
ghost use Rattle.td_lasting.specs.Framing.{Frames};
ghost use Rattle.td_lasting.specs.inner.Inlets.{IsDropped, TellsLast, TellsNext, TellsWhole, Waits};
ghost use Rattle.td_lasting.specs.inner.Served.{HasNoNewline};

use crate::turns::{StreamFault, Turns};
use memchr::memchr;
use std::alloc::{AllocError, Global};
use std::marker::Model;
use td_bytes::Writer;
use thiserror::Error;

/// The longest line, in bytes without its newline.
pub const LINE_LIMIT: usize = 1_048_576;

// How much is read at once.
const PIECE: usize = 65_536;

/// A line of the input, and what is wrong with it first.
#[derive(Drop)]
pub enum Framed {
    /// A line with its newline, which isn't here.
    Whole(String),
    /// The last line, without its newline: it may have been cut.
    Unended,
    /// A line of more bytes than the limit.
    TooLong,
    /// A line that isn't UTF-8.
    NotText,
}

/// Why no line is read.
#[derive(Clone, Copy, Debug, PartialEq, Eq, Drop, Error)]
pub(crate) enum FrameFault {
    #[error("cannot read")]
    CannotRead,
    #[error("want of memory")]
    NoMemory,
}

impl From<AllocError> for FrameFault {
    ghost use Rattle.std.specs.Prelude.{◌≡◌};
    ghost use Rattle.td_lasting.specs.declared.framing.FrameFault.TheVariants.{NoMemory};

    ghost from_gives = { λ _ fault. fault ≡ NoMemory };

    fn from(_error: AllocError) -> FrameFault {
        FrameFault::NoMemory
    }
}

impl From<StreamFault> for FrameFault {
    ghost use Rattle.std.specs.Prelude.{◌≡◌};
    ghost use Rattle.td_lasting.specs.declared.framing.FrameFault.TheVariants.{CannotRead};

    ghost from_gives = { λ _ fault. fault ≡ CannotRead };

    fn from(_fault: StreamFault) -> FrameFault {
        FrameFault::CannotRead
    }
}

/// What was read and isn't told of yet.
#[derive(Drop)]
pub(crate) struct Inlet {
    alloc: Global,
    bytes: Vec<u8>,
    // How many of them were told of.
    told: usize,
    // How many of the others are known to be no newline.
    sought: usize,
    // Whether a front of the line was dropped, since the line is too long.
    is_long: bool,
}

impl Model for Inlet {
    ghost use Rattle.std.specs.Prelude.{drop};
    ghost use Rattle.td_lasting.specs.inner.Inlets.{InletView, IsInlet};

    ghost Value = { InletView };

    ghost view = { λ i. record { ahead = drop i.told i.bytes.items; long = i.is_long } };

    ghost invariant = { λ i. IsInlet i.bytes.items i.told i.sought };
}

// A line by its bytes.
fn frame(alloc: Global, line: &[u8]) -> Result<Framed, AllocError>
    ensures { IfOk result (Frames line.now) }
{
    if line.len() > LINE_LIMIT {
        return Ok(Framed::TooLong);
    }
    match String::from_utf8(Vec::from_slice(alloc, line)?) {
        Ok(text) => Ok(Framed::Whole(text)),
        Err(_) => Ok(Framed::NotText),
    }
}

impl Inlet {
    /// Before the first read.
    pub(crate) fn new(alloc: Global) -> Inlet
        ensures ahead { result.ahead ≡ [] }
        ensures long { result.long ≡ false }
    {
        Inlet {
            alloc,
            bytes: Vec::new(alloc),
            told: 0,
            sought: 0,
            is_long: false,
        }
    }

    // The next line, if its newline was read.
    fn next_whole(&mut self) -> Result<Option<Framed>, AllocError>
        ensures told { IfOk result (TellsWhole self.old self.new) }
    {
        let (_, rest) = self.bytes.as_slice().split_at(self.told);
        let (_, unsought) = rest.split_at(self.sought);
        let Some(place) = memchr(b'\n', unsought) else {
            self.sought = rest.len();
            return Ok(None);
        };
        let len = self.sought + place;
        let (line, _) = rest.split_at(len);
        let framed = if self.is_long {
            Framed::TooLong
        } else {
            frame(self.alloc, line)?
        };
        self.told += len + 1;
        self.sought = 0;
        self.is_long = false;
        Ok(Some(framed))
    }

    // Drops what was told of, and of a line that is too long what was read of it.
    fn drop_told(&mut self) -> Result<(), AllocError>
        ensures { OnOk result (IsDropped self.old self.new) }
    {
        let (_, rest) = self.bytes.as_slice().split_at(self.told);
        let mut kept = Vec::from_slice(self.alloc, rest)?;
        if kept.len() > LINE_LIMIT {
            kept.clear();
            self.sought = 0;
            self.is_long = true;
        }
        self.bytes = kept;
        self.told = 0;
        Ok(())
    }

    // A piece more was read.
    fn add(&mut self, piece: &[u8]) -> Result<(), AllocError>
        ensures { OnOk result ((self.new.ahead ≡ self.old.ahead ++ piece.now)
            × (self.new.long ≡ self.old.long)) }
    {
        self.bytes.extend_from_slice(piece)
    }

    // What is told of at the end: a line without its newline, if there is one.
    fn last(&mut self) -> Option<Framed>
        ensures { TellsLast self.old self.new result }
    {
        if self.bytes.len() == self.told && !self.is_long {
            return None;
        }
        self.bytes.clear();
        self.told = 0;
        self.sought = 0;
        self.is_long = false;
        Some(Framed::Unended)
    }

    /// The next line. Nothing is read while a whole line is there.
    pub(crate) fn next<W: Writer, R: Turns<W>>(
        &mut self,
        reader: &mut R,
        writer: &W,
        buffer: &mut [u8],
    ) -> Result<Option<Framed>, FrameFault>
        requires room { 0 < length buffer.old }
        requires turn { (r : R) → Waits self.old (R.left reader.old) (R.left r)
            → R.is_turn r writer.now ≡ true }
        ensures tells { IfOk result (TellsNext self.old self.new (R.left reader.old)
            (R.left reader.new)) }
        ensures line { IfOk result (λ told. IfSome told HasNoNewline) }
        ensures due { IsErrOf result FrameFault.CannotRead → R.may_fail reader.old ≡ true }
        ensures steady { OnOk result (R.may_fail reader.new ≡ R.may_fail reader.old) }
    {
        for _ in 0..u64::MAX {
            if let Some(framed) = self.next_whole()? {
                return Ok(Some(framed));
            }
            self.drop_told()?;
            let count = reader.read_in_turn(writer, buffer)?;
            if count == 0 {
                return Ok(self.last());
            }
            let (piece, _) = buffer.split_at(count);
            self.add(piece)?;
        }
        // (after 2^64 - 1 reads, more than memory has)
        Err(FrameFault::NoMemory)
    }

    /// The buffer into which is read.
    pub(crate) fn buffer(alloc: Global) -> Result<Vec<u8>, AllocError>
        ensures { IfOk result (λ buffer. 0 < vec_len buffer) }
    {
        vec![in alloc; 0; PIECE]
    }
}
