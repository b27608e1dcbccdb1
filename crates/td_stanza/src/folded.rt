//! A field's name as what a set finds it by: the case of ASCII letters doesn't count.
ghost use Rattle.std.specs.Prelude.{◌≡◌, fold, map};
ghost use Rattle.std.specs.Char.{to_ascii_lowercase};
ghost use Rattle.std.specs.Hash as fed;

use crate::name::is_same_name;
use std::hash::{Hash, Hasher};

/// A name that is equal to each that differs only in the case of ASCII letters.
#[derive(Clone, Copy)]
pub struct FoldedName<'a> {
    pub name: &'a str,
}

impl PartialEq for FoldedName<'_> {
    ghost use Rattle.std.proofs.Common.{rules};
    ghost use Rattle.std.specs.Cmp.Rules.{comparing};
    ghost use Rattle.td_stanza.specs.inner.FoldedNames.{same_folded};

    ghost eq = { same_folded };

    ghost laws = { Prim.search (comparing, rules) };

    fn eq(&self, other: &Self) -> bool {
        is_same_name(self.name, other.name)
    }
}

impl Eq for FoldedName<'_> {
    ghost use Rattle.std.proofs.Common.{rules};
    ghost use Rattle.std.specs.Cmp.Rules.{comparing};

    ghost laws = { Prim.search (comparing, rules) };
}

impl Hash for FoldedName<'_> {
    ghost use Rattle.std.proofs.Common.{rules};
    ghost use Rattle.std.specs.Cmp.Rules.{hashing};
    ghost use Rattle.std.specs.Hash as fed;
    ghost use Rattle.td_stanza.specs.inner.FoldedNames.{folded};

    ghost hash_input = { λ name. fed.slice fed.u8 (folded name) };

    ghost respects_eq = { Prim.search (hashing, rules) };

    fn hash<H: Hasher>(&self, state: &mut H) {
        feed(self.name.as_bytes(), state);
    }
}

/// Feeds a hasher with bytes in lower case.
fn feed<H: Hasher>(bytes: &[u8], state: &mut H)
    ensures { state.new
        ≡ fold H.write state.old (fed.slice fed.u8 (map to_ascii_lowercase bytes.now)) }
{
    state.write_usize(bytes.len());
    for byte in bytes {
        state.write_u8(byte.to_ascii_lowercase());
    }
}
