//! A text of one of the two indices with its stanzas, which can be found while the other text still
//! comes.

use crate::archive_fault::{ArchiveFault, IndexFile};
use crate::piece_reading::{read_halves, read_stanzas};
use crate::stanza_fault::in_file;
use crate::stanza_pieces::StanzaPieces;
use std::alloc::Global;
use std::marker::Model;
use std::thread::Threads;
use td_stanza::StanzaFault;

/// A text of an index, in one part or in two, and its stanzas, or its fault as a control file.
/// Contracts see the whole text.
#[derive(Drop)]
pub struct IndexText<'a> {
    front: &'a str,
    rest: &'a str,
    stanzas: Result<StanzaPieces<'a>, StanzaFault>,
}

impl<'a> Model for IndexText<'a> {
    ghost use Rattle.std.specs.Prelude.{ℕ, ◌++◌, List, MatchResult};
    ghost use Rattle.td_text.specs.Lines.{lines_of};
    ghost use Rattle.td_stanza.specs.StanzaFaults.{IsFaultOf};
    ghost use Rattle.td_stanza.specs.StanzaGrammar.{AreStanzas};

    ghost Value = { List ℕ };

    ghost view = { λ t. t.front.now ++ t.rest.now };

    ghost invariant = { λ t. MatchResult t.stanzas
        (λ list. AreStanzas list (lines_of (t.front.now ++ t.rest.now)))
        (IsFaultOf (lines_of (t.front.now ++ t.rest.now))) };
}

impl<'a> IndexText<'a> {
    ghost use Rattle.std.specs.Prelude.{◌≡◌, ◌++◌, IfSome};
    ghost use Rattle.td_text.specs.Lines.{lines_of};
    ghost use Rattle.td_indices.specs.inner.IndexReading.{AreStanzasRead};

    /// Finds the stanzas of a text, of a long one in pieces. A fault is answered with the archive.
    pub fn read(rt: &(impl Threads + Sync), alloc: Global, text: &'a str) -> IndexText<'a>
        ensures { result ≡ text.now }
    {
        let stanzas = read_stanzas(rt, alloc, text);
        IndexText {
            front: text,
            rest: "",
            stanzas,
        }
    }

    /// Finds the stanzas of a text that came in two parts, the front and the rest, if it is cut
    /// before an empty line and has stanzas.
    pub fn of_halves(
        rt: &(impl Threads + Sync),
        alloc: Global,
        front: &'a str,
        rest: &'a str,
    ) -> Option<IndexText<'a>>
        ensures { IfSome result (λ text. text ≡ front.now ++ rest.now) }
    {
        let stanzas = read_halves(rt, alloc, front, rest)?;
        Some(IndexText {
            front,
            rest,
            stanzas: Ok(stanzas),
        })
    }

    /// The stanzas of the text, or its fault, as that of this file.
    pub(crate) fn into_stanzas(self, file: IndexFile) -> Result<StanzaPieces<'a>, ArchiveFault>
        ensures { AreStanzasRead file (lines_of self.entry) result }
    {
        match self.stanzas {
            Ok(stanzas) => Ok(stanzas),
            Err(fault) => Err(in_file(file, fault)),
        }
    }
}
