//! A version, by its parts.
ghost use Rattle.std.specs.Prelude.{◌≤◌};
ghost use Rattle.td_version.specs.declared.version.TheConstants.{MAX_EPOCH};

use crate::reading;
use thiserror::Error;

/// The largest epoch.
pub const MAX_EPOCH: u32 = 2_147_483_647;

/// A version by its parts, slices of the text that it was read from.
#[derive(Clone, Copy)]
pub struct Version<'a> {
    /// 0 where none is written.
    pub epoch: u32,
    pub upstream: &'a str,
    /// What follows the last hyphen, where there is one. It counts as `0` where there is none.
    pub revision: Option<&'a str>,
    ghost bounded: { epoch ≤ MAX_EPOCH },
}

/// What is wrong with a text that is no version: the first fault from the left.
#[derive(Clone, Copy, Debug, PartialEq, Eq, Error)]
pub enum VersionFault {
    /// The upstream part is empty, or a revision that is written.
    #[error("empty part")]
    Empty,
    /// What stands before the first colon is no number, or one above `MAX_EPOCH`.
    #[error("bad epoch")]
    BadEpoch,
    /// A byte at this place of the text, counted from 0, may not stand there.
    #[error("bad character at {0}")]
    BadCharacter(usize),
}

impl<'a> Version<'a> {
    ghost use Rattle.std.specs.Prelude.{◌≡◌, IfErr, IfOk, IsErrOf, IsOkAnd};
    ghost use Rattle.td_version.specs.Version.{Parts, parts_of};
    ghost use Rattle.td_version.specs.Grammar.{IsVersion};
    ghost use Rattle.td_version.specs.Faults.{IsFirstFault};
    ghost use Rattle.td_version.specs.declared.version.VersionFault.{VersionFault};

    /// Reads `[epoch:]upstream[-revision]`.
    pub fn read(text: &'a str) -> Result<Version<'a>, VersionFault>
        ensures found { IfOk result (λ version. IsVersion text.now (parts_of version)) }
        ensures only { (p : Parts) → IsVersion text.now p
            → IsOkAnd result (λ version. parts_of version ≡ p) }
        ensures fault { IfErr result (λ fault. IsFirstFault text.now fault) }
        ensures refused { (fault : VersionFault) → IsFirstFault text.now fault
            → IsErrOf result fault }
    {
        reading::read(text)
    }
}
