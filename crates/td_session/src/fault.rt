//! Why a session ended before its lines did.
use crate::desk_file::OpenRefusal;
use td_inputs::FormFault;
use td_lasting::{FileFault, ServeFault};

/// Why a session ended before its lines did: the texts come first, then the desk's file, then its
/// lines.
#[derive(Clone, Copy, Debug, PartialEq, Eq, Drop)]
pub enum SessionFault {
    /// A text is refused.
    Input(FormFault),
    /// Memory ran out before the desk's file was looked at.
    NoMemory,
    /// The desk's file isn't opened.
    Unopened(OpenRefusal),
    /// The desk's file is refused.
    File(FileFault),
    /// The session stopped. What was answered stands.
    Serve(ServeFault),
}
