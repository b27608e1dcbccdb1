//! What is read and kept of a stanza of Sources, and what an archive shows of it.
ghost use Rattle.std.specs.Prelude.{◌≡◌};
ghost use Rattle.td_indices.specs.Seen.{seen_source, shown_source};
ghost use Rattle.td_indices.specs.Sources.{source_of};

use td_version::Version;

/// What is kept of a stanza of Sources in addition to the source's name.
#[derive(Drop)]
pub struct Sourced<'a> {
    /// The version as it is written.
    pub version: &'a str,
    pub parts: Version<'a>,
    /// The Architecture field.
    pub archs: &'a str,
    /// The number of its stanza, from 0.
    pub stanza: usize,
}

/// A source of an archive.
#[derive(Clone, Copy)]
pub struct Source<'a> {
    pub name: &'a str,
    /// The version as it is written.
    pub version: &'a str,
    pub parts: Version<'a>,
    /// The Architecture field.
    pub archs: &'a str,
    /// The number of its stanza in Sources, from 0.
    pub stanza: usize,
}

impl<'a> Source<'a> {
    /// What an archive shows of a source that it holds under its name.
    pub(crate) fn of_entry(name: &'a str, sourced: &Sourced<'a>) -> Source<'a>
        ensures { seen_source result ≡ shown_source (source_of (name.entry, sourced.now)) }
    {
        Source {
            name,
            version: sourced.version,
            parts: sourced.parts,
            archs: sourced.archs,
            stanza: sourced.stanza,
        }
    }
}
