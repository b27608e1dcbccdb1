//! What is left of a session.
ghost use Rattle.std.specs.Prelude.{◌≡◌, Err, None};

use crate::fault::SessionFault;
use td_lasting::ServeEnd;
use td_ledger::Device;

/// A session as it ended, and the desk's file as it is, if that was opened.
#[derive(Drop)]
pub struct Held<D: Device> {
    pub end: Result<ServeEnd, SessionFault>,
    pub file: Option<D>,
}

/// A session that ended before the desk's file was opened, for this.
pub(crate) fn unopened<D: Device>(fault: SessionFault) -> Held<D>
    ensures end { result.end ≡ Err fault }
    ensures file { result.file ≡ None }
{
    Held {
        end: Err(fault),
        file: None,
    }
}
