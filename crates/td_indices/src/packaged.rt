//! What is read and kept of a stanza of Packages, and what an archive shows of it.
ghost use Rattle.std.specs.Prelude.{◌≡◌};
ghost use Rattle.td_relation.specs.Meeting.{is_on as is_on_of};

use std::hash::{Hash, Hasher};
use td_relation::Relation;
use td_version::Version;

/// What a binary package is found by: its name, and the place of its architecture in the table;
/// `None` for `all`.
#[derive(Clone, Copy)]
pub struct PackageKey<'a> {
    pub name: &'a str,
    pub arch: Option<usize>,
}

impl PartialEq for PackageKey<'_> {
    ghost use Rattle.std.proofs.Common.{rules};
    ghost use Rattle.std.specs.Cmp.Rules.{comparing};
    ghost use Rattle.td_indices.specs.PackageKeys.{same_key};

    ghost eq = { same_key };

    ghost laws = { Prim.search (comparing, rules) };

    fn eq(&self, other: &Self) -> bool {
        self.name == other.name && self.arch == other.arch
    }
}

impl Eq for PackageKey<'_> {
    ghost use Rattle.std.proofs.Common.{rules};
    ghost use Rattle.std.specs.Cmp.Rules.{comparing};

    ghost laws = { Prim.search (comparing, rules) };
}

impl Hash for PackageKey<'_> {
    ghost use Rattle.std.proofs.Common.{rules};
    ghost use Rattle.std.specs.Prelude.{◌++◌};
    ghost use Rattle.std.specs.Cmp.Rules.{hashing};
    ghost use Rattle.std.specs.Hash as fed;

    ghost hash_input = { λ k. fed.str k.name.now ++ fed.option fed.usize k.arch };

    ghost respects_eq = { Prim.search (hashing, rules) };

    fn hash<H: Hasher>(&self, state: &mut H) {
        self.name.hash(state);
        self.arch.hash(state);
    }
}

/// Whether a package with this home is on the architecture at a place of the table: the home is
/// that place, or `None` for `all`.
pub fn is_on(place: usize, home: Option<usize>) -> bool
    ensures { result ≡ is_on_of place home }
{
    match home {
        None => true,
        Some(arch) => arch == place,
    }
}

/// What a stanza of Packages says of a binary package, except its relations.
#[derive(Clone, Copy)]
pub struct Head<'a> {
    pub key: PackageKey<'a>,
    /// The version as it is written.
    pub version: &'a str,
    pub parts: Version<'a>,
    pub source: &'a str,
    pub source_parts: Version<'a>,
}

/// What is kept of a stanza of Packages in addition to its key.
#[derive(Drop)]
pub struct Packaged<'a> {
    pub version: &'a str,
    pub parts: Version<'a>,
    pub source: &'a str,
    pub source_parts: Version<'a>,
    pub provides: Option<Relation<'a>>,
    /// The number of its stanza, from 0.
    pub stanza: usize,
}

/// A binary package of an archive.
#[derive(Clone, Copy)]
pub struct Binary<'a> {
    pub name: &'a str,
    /// The place of its architecture in the table; `None` for `all`.
    pub arch: Option<usize>,
    /// The version as it is written.
    pub version: &'a str,
    pub parts: Version<'a>,
    pub source: &'a str,
    /// The version of the source that it was built from.
    pub source_parts: Version<'a>,
    /// The number of its stanza in Packages, from 0.
    pub stanza: usize,
}
