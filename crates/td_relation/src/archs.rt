//! The table of architectures.
ghost use Rattle.std.specs.Prelude.{◌≡◌, ◌≤◌, true, length, map, position};
ghost use Rattle.std.specs.List.{list_all};
ghost use Rattle.std.specs.Str.{bytes_eq};
ghost use Rattle.td_relation.specs.Limits.{max_archs};
ghost use Rattle.td_text.specs.Words.{is_arch};
ghost use Rattle.td_relation.specs.Props.{IsApart-prop};
ghost use Rattle.td_relation.specs.Arch.{words_of};
ghost use Rattle.td_relation.specs.FaultNames.{name_of};
ghost use Rattle.td_relation.specs.Table.{IsApart};

use crate::arch::Arch;
use crate::arch_reading;
use std::alloc::{AllocError, Global};
use thiserror::Error;

/// The most architectures that a table has.
pub const MAX_ARCHS: usize = 32;

/// The architectures of a table, in the order of its lines; no two have one name.
#[derive(Drop)]
pub struct Archs<'a> {
    list: Vec<Arch<'a>>,
    ghost few: { length list.items ≤ max_archs },
    ghost named: { list_all (λ a. is_arch a.name.now) list.items ≡ true },
    ghost apart: { IsApart (map words_of list.items) } by { IsApart-prop
        (map words_of list.items) },
}

/// Why a text isn't a table of architectures: the first fault. Lines count from 1.
#[derive(Clone, Copy, Debug, PartialEq, Eq, Drop, Error)]
pub enum ArchsFault {
    /// The line isn't `NAME OS CPU`.
    #[error("line {0} isn't an architecture's")]
    BadLine(usize),
    /// An earlier line has the name.
    #[error("line {0} has the name of an earlier one")]
    Twice(usize),
    /// There are more than `MAX_ARCHS`.
    #[error("there are too many architectures")]
    TooMany,
    #[error("want of memory")]
    NoMemory,
}

impl ArchsFault {
    /// The name that the program prints.
    pub fn name(self) -> &'static str
        ensures { result.now ≡ name_of self }
    {
        match self {
            ArchsFault::BadLine(_) => "BadLine",
            ArchsFault::Twice(_) => "Twice",
            ArchsFault::TooMany => "TooMany",
            ArchsFault::NoMemory => "NoMemory",
        }
    }
}

impl<'a> Archs<'a> {
    ghost use Rattle.std.specs.Prelude.{
      ◌≡◌,
      ◌<◌,
      ◌≤◌,
      ◌^◌,
      List,
      [],
      IfOk,
      IfErr,
      IsErrOf,
      MatchResult,
      length,
      map,
      option_map,
      slice_get,
      Some,
      Ok,
    };
    ghost use Rattle.td_relation.specs.Arch.{matches as matches_of, ArchWords};
    ghost use Rattle.td_relation.specs.Table.{place_of};
    ghost use Rattle.td_relation.specs.TableView.{table};
    ghost use Rattle.td_relation.specs.TableFile.{IsTable, IsFirstFault, IsRefusedFor, FaultOf};
    ghost use Rattle.td_relation.specs.declared.archs.ArchsFault.{ArchsFault};
    ghost use Rattle.td_text.specs.Lines.{lines_of};

    /// A table without architectures. It takes no memory.
    pub fn empty(alloc: Global) -> Archs<'a>
        ensures { table result ≡ [] }
    {
        Archs {
            list: Vec::new(alloc),
        }
    }

    /// Reads lines `NAME OS CPU`; empty lines and lines that begin with `#` are skipped. The first
    /// fault decides, and a name too many comes before the faults of later lines.
    pub fn read(alloc: Global, text: &'a str) -> Result<Archs<'a>, ArchsFault>
        requires { length text.now < 2 ^ 63 }
        // What is read is a table.
        ensures found { IfOk result (λ archs. IsTable (lines_of text.now) (table archs)) }
        // A table is read, unless memory runs out.
        ensures only { (t : List ArchWords) → IsTable (lines_of text.now) t
            → MatchResult result (λ archs. table archs ≡ t) (λ e. e ≡ ArchsFault.NoMemory) }
        ensures fault { IfErr result (FaultOf (lines_of text.now)) }
        // A text with a fault is refused for it, unless memory runs out.
        ensures refused { (fault : ArchsFault) → IsFirstFault (lines_of text.now) fault
            → IsRefusedFor fault result }
        // A fault before which there is no architecture is answered whatever memory there is.
        ensures certain { (fault : ArchsFault) → (f : IsFirstFault (lines_of text.now) fault)
            → f.seen ≡ [] → IsErrOf result fault }
    {
        let list = arch_reading::read_list(alloc, text)?;
        Ok(Archs { list })
    }

    /// A copy, in memory of its own; its names are slices of the same text.
    pub fn copy(&self) -> Result<Archs<'a>, AllocError>
        ensures { IfOk result (λ archs. table archs ≡ table self.now) }
    {
        let list = self.list.as_slice().to_vec(*self.list.allocator())?;
        Ok(Archs { list })
    }

    /// How many there are.
    pub fn len(&self) -> usize
        ensures value { result ≡ length (table self.now) }
        ensures few { result ≤ max_archs }
    {
        self.list.len()
    }

    pub(crate) fn at(&self, i: usize) -> Arch<'a>
        requires { i < length (table self.now) }
        ensures found { slice_get (table self.now) i ≡ Some (words_of result) }
        ensures named { is_arch result.name.now ≡ true }
    {
        self.list[i]
    }

    /// The name of the architecture at a place.
    pub fn name(&self, i: usize) -> &'a str
        requires { i < length (table self.now) }
        ensures name { option_map (λ a. a.name) (slice_get (table self.now) i) ≡ Some result.now }
        ensures legal { is_arch result.now ≡ true }
    {
        self.at(i).name
    }

    /// The place of the architecture with this name.
    pub fn index(&self, name: &str) -> Option<usize>
        ensures { result ≡ place_of (table self.now) name.now }
    {
        place(self.list.as_slice(), name)
    }

    /// Whether the word of an architecture list matches the architecture at a place.
    pub fn matches(&self, i: usize, word: &str) -> bool
        requires { i < length (table self.now) }
        ensures { option_map (λ a. matches_of a word.now) (slice_get (table self.now) i)
            ≡ Some result }
    {
        self.at(i).matches(word.as_bytes())
    }
}

// The place of the first architecture with this name.
fn place(list: &[Arch<'_>], name: &str) -> Option<usize>
    ensures { result ≡ position (λ a. bytes_eq a.name.now name.now) list.now }
{
    list.iter().position(|a| a.name == name)
}
