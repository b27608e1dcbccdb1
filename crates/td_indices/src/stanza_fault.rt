//! A fault of a file or of one of its stanzas, as that of the archive.
ghost use Rattle.std.specs.Prelude.{◌≡◌, ◌+◌, ◌<◌, ◌^◌, true};
ghost use Rattle.td_indices.specs.Archive.{in_file as in_file_of};
ghost use Rattle.td_indices.specs.Reading.{at_stanza as at_stanza_of, is_entry};

use crate::archive_fault::{ArchiveFault, EntryFault, IndexFile};
use td_stanza::StanzaFault;

/// A fault of one of the files as a control file.
pub fn in_file(file: IndexFile, fault: StanzaFault) -> ArchiveFault
    ensures { result ≡ in_file_of file fault }
{
    match fault {
        StanzaFault::NoMemory => ArchiveFault::NoMemory,
        StanzaFault::BadName(_)
        | StanzaFault::NoColon(_)
        | StanzaFault::ContinuationFirst(_)
        | StanzaFault::Duplicate(_) => ArchiveFault::Stanza(file, fault),
    }
}

/// The fault of the stanza with this number, from 0.
pub fn at_stanza(file: IndexFile, number: usize, fault: EntryFault) -> ArchiveFault
    requires { number + 1 < 2 ^ 64 }
    ensures value { result ≡ at_stanza_of file number fault }
    ensures entry { is_entry result ≡ true }
{
    match fault {
        EntryFault::Missing(field) => ArchiveFault::MissingField(file, number + 1, field),
        EntryFault::BadVersion(field) => ArchiveFault::BadVersion(file, number + 1, field),
        EntryFault::BadRelation(field) => ArchiveFault::BadRelation(file, number + 1, field),
        EntryFault::NoMemory => ArchiveFault::NoMemory,
    }
}
