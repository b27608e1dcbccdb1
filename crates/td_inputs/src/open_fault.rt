//! Why the texts of files weren't opened.
ghost use Rattle.std.specs.Prelude.{◌≡◌};
ghost use Rattle.td_inputs.specs.Opened.{of_form};

use crate::form_fault::FormFault;
use td_indices::ArchiveFault;
use td_journal::ReadError;
use td_query::TrackerFault;
use td_relation::ArchsFault;
use td_rows::StateFault;

/// Why texts weren't opened.
#[derive(Clone, Copy, Debug, PartialEq, Eq, Drop)]
pub enum OpenFault {
    /// A text is refused.
    Refused(FormFault),
    NoMemory,
}

/// What a fault of a text is answered as. Missing memory is no fault of the text.
pub fn fault_of(fault: FormFault) -> OpenFault
    ensures { result ≡ of_form fault }
{
    match fault {
        FormFault::Table(ArchsFault::NoMemory)
        | FormFault::Archive(ArchiveFault::NoMemory)
        | FormFault::State(StateFault::NoMemory)
        | FormFault::Tracker(TrackerFault::NoMemory)
        | FormFault::Journal(ReadError::NoMemory) => OpenFault::NoMemory,
        fault => OpenFault::Refused(fault),
    }
}
