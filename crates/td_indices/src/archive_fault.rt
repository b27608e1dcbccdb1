//! Why two texts aren't read as an archive.
ghost use Rattle.std.specs.Prelude.{◌≡◌};
ghost use Rattle.td_indices.specs.FaultNames.{name_of};
ghost use Rattle.td_indices.specs.Fields.{relation_field_name};

use td_stanza::StanzaFault;
use thiserror::Error;

/// One of the two files.
#[derive(Clone, Copy, Debug, PartialEq, Eq)]
pub enum IndexFile {
    Packages,
    Sources,
}

/// A field that a stanza needs, or that has to name a package.
#[derive(Clone, Copy, Debug, PartialEq, Eq)]
pub enum IndexField {
    Package,
    Version,
    Architecture,
    Source,
}

/// A field with a version: the stanza's own, or the one in the brackets of its Source field.
#[derive(Clone, Copy, Debug, PartialEq, Eq)]
pub enum VersionField {
    Version,
    Source,
}

/// A field that is a relation.
#[derive(Clone, Copy, Debug, PartialEq, Eq)]
pub enum RelationField {
    Depends,
    PreDepends,
    Provides,
    BuildDepends,
    BuildDependsArch,
}

impl RelationField {
    /// The name of the field, as stanzas have it.
    pub fn name(self) -> &'static str
        ensures { result.now ≡ relation_field_name self }
    {
        match self {
            RelationField::Depends => "Depends",
            RelationField::PreDepends => "Pre-Depends",
            RelationField::Provides => "Provides",
            RelationField::BuildDepends => "Build-Depends",
            RelationField::BuildDependsArch => "Build-Depends-Arch",
        }
    }
}

/// Why two texts aren't read as an archive: the first fault. Stanzas count from 1 in their file.
#[derive(Clone, Copy, Debug, PartialEq, Eq, Error)]
pub enum ArchiveFault {
    /// The file isn't a control file.
    #[error("{0:?}: {1}")]
    Stanza(IndexFile, StanzaFault),
    /// A stanza lacks the field, or the field names no package.
    #[error("{0:?}, stanza {1}: no {2:?}")]
    MissingField(IndexFile, usize, IndexField),
    /// A version can't be read, the stanza's own or its source's.
    #[error("{0:?}, stanza {1}: bad version in {2:?}")]
    BadVersion(IndexFile, usize, VersionField),
    /// A relation can't be read.
    #[error("{0:?}, stanza {1}: bad relation in {2:?}")]
    BadRelation(IndexFile, usize, RelationField),
    /// There are more rows than a desk may have.
    #[error("there are too many rows")]
    TooManyRows,
    #[error("want of memory")]
    NoMemory,
}

impl ArchiveFault {
    /// The name that is printed.
    pub fn name(self) -> &'static str
        ensures { result.now ≡ name_of self }
    {
        match self {
            ArchiveFault::Stanza(_, _) => "Stanza",
            ArchiveFault::MissingField(_, _, _) => "MissingField",
            ArchiveFault::BadVersion(_, _, _) => "BadVersion",
            ArchiveFault::BadRelation(_, _, _) => "BadRelation",
            ArchiveFault::TooManyRows => "TooManyRows",
            ArchiveFault::NoMemory => "NoMemory",
        }
    }
}

/// What is wrong with a stanza.
#[derive(Clone, Copy, Debug)]
pub enum EntryFault {
    Missing(IndexField),
    BadVersion(VersionField),
    BadRelation(RelationField),
    NoMemory,
}
