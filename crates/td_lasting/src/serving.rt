//! A session at a desk: line by line, each answered before the next is read.
ghost use Rattle.std.specs.Prelude.{◌≡◌, true, false, IsErrOf, OnOk};
ghost use Rattle.td_lasting.specs.inner.Served.{HasNoNewline, IsServedLine};
ghost use Rattle.td_lasting.specs.Sessions.{IsServed, IsTurn};
ghost use Rattle.td_lasting.specs.Terms.{AreTerms, setting_of};

use crate::chronicle::DeskFault;
use crate::desk::FileDesk;
use crate::framing::{FrameFault, Framed, Inlet};
use crate::terms::Terms;
use crate::turns::Turns;
use std::alloc::{AllocError, Global};
use td_bytes::{Writer, write_whole};
use td_ledger::Device;
use thiserror::Error;

/// What is left to say of a session.
#[derive(Clone, Copy, Debug, PartialEq, Eq, Drop)]
pub struct ServeEnd {
    /// How many lines were refused.
    pub refusals: u64,
}

/// Why a session stopped. What was answered stands.
#[derive(Clone, Copy, Debug, PartialEq, Eq, Drop, Error)]
pub enum ServeFault {
    /// The lines can't be read.
    #[error("cannot read")]
    CannotRead,
    /// The desk's file can't be written.
    #[error("cannot write the file")]
    CannotKeep,
    /// An answer can't be written.
    #[error("cannot write")]
    CannotTell,
    #[error("want of memory")]
    NoMemory,
}

impl From<AllocError> for ServeFault {
    ghost use Rattle.std.specs.Prelude.{◌≡◌};
    ghost use Rattle.td_lasting.specs.declared.serving.ServeFault.TheVariants.{NoMemory};

    ghost from_gives = { λ _ fault. fault ≡ NoMemory };

    fn from(_error: AllocError) -> ServeFault {
        ServeFault::NoMemory
    }
}

impl From<FrameFault> for ServeFault {
    ghost use Rattle.std.specs.Prelude.{◌≡◌};
    ghost use Rattle.td_lasting.specs.Faults.{of_frame};

    ghost from_gives = { λ fault made. made ≡ of_frame fault };

    fn from(fault: FrameFault) -> ServeFault {
        match fault {
            FrameFault::CannotRead => ServeFault::CannotRead,
            FrameFault::NoMemory => ServeFault::NoMemory,
        }
    }
}

impl From<DeskFault> for ServeFault {
    ghost use Rattle.std.specs.Prelude.{◌≡◌};
    ghost use Rattle.td_lasting.specs.Faults.{of_desk};

    ghost from_gives = { λ fault made. made ≡ of_desk fault };

    fn from(fault: DeskFault) -> ServeFault {
        match fault {
            DeskFault::NoMemory => ServeFault::NoMemory,
            DeskFault::CannotWrite | DeskFault::Stopped => ServeFault::CannotKeep,
        }
    }
}

// Answers a line of the input, and writes the answer. Answers whether it is refused.
fn serve_line<D: Device, W: Writer>(
    alloc: Global,
    desk: &mut FileDesk<'_, D>,
    terms: &Terms<'_, '_, '_, '_, '_, '_, '_>,
    framed: &Framed,
    writer: &mut W,
) -> Result<bool, ServeFault>
    requires terms { AreTerms terms.now }
    requires line { HasNoNewline framed.now }
    requires running { desk.old.stopped ≡ false }
    ensures served { IsServedLine (setting_of desk.old.stock terms.now) framed.now desk.old desk.new
        (W.contents writer.old) (W.contents writer.new) result }
    ensures untold { IsErrOf result ServeFault.CannotTell → W.can_fail writer.old ≡ true }
    ensures steady { OnOk result (W.can_fail writer.new ≡ W.can_fail writer.old) }
{
    let mut text = String::new(alloc);
    let is_refused = desk.answer_framed(terms, framed, &mut text)?;
    match write_whole(writer, text.as_bytes()) {
        Ok(()) => Ok(is_refused),
        Err(_) => Err(ServeFault::CannotTell),
    }
}

/// Answers the lines that the reader has, each at once: the answer to a line is written when what
/// it tells is on the disk, and before the next line is read.
pub fn serve<D: Device, W: Writer, R: Turns<W>>(
    alloc: Global,
    desk: &mut FileDesk<'_, D>,
    terms: &Terms<'_, '_, '_, '_, '_, '_, '_>,
    reader: &mut R,
    writer: &mut W,
) -> Result<ServeEnd, ServeFault>
    requires terms { AreTerms terms.now }
    requires running { desk.old.stopped ≡ false }
    // More is read only when all whole lines that were read are answered.
    requires turn { (r : R) → (w : W) → IsTurn (setting_of desk.old.stock terms.now)
        desk.old.history (R.left reader.old) (R.left r) (W.contents writer.old) (W.contents w)
        → R.is_turn r w ≡ true }
    ensures served { IsServed (setting_of desk.old.stock terms.now) (R.left reader.old)
        (W.contents writer.old) (W.contents writer.new) desk.old desk.new result }
    ensures unread { IsErrOf result ServeFault.CannotRead → R.may_fail reader.old ≡ true }
    ensures untold { IsErrOf result ServeFault.CannotTell → W.can_fail writer.old ≡ true }
{
    // (`rows` says that the desk's file tells its history)
    let _rows = desk.rows();
    let mut buffer = Inlet::buffer(alloc)?;
    let mut inlet = Inlet::new(alloc);
    let mut refusals = 0;
    for answered in 0..u64::MAX {
        let Some(framed) = inlet.next(reader, writer, buffer.as_mut_slice())? else {
            return Ok(ServeEnd { refusals });
        };
        if serve_line(alloc, desk, terms, &framed, writer)? {
            refusals += 1;
        }
    }
    // (after 2^64 - 1 lines, more than memory can count)
    Err(ServeFault::NoMemory)
}
