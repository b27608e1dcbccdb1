//! A row found by the two texts of its key, without a key of one's own.
ghost use Rattle.std.specs.Prelude.{◌≡◌, None, IfSome, IfNone};
ghost use Rattle.td_rows.specs.Table.{IsAt, row_of};

use crate::key::Key;
use crate::row::Row;
use indexmap::{Equivalent, IndexMap};

// A key by its two texts, hashed and compared as the key is.
#[derive(Clone, Copy, PartialEq, Eq, Hash)]
struct KeyRef<'a> {
    source: &'a str,
    arch: &'a str,
}

impl<'a> Equivalent<Key> for KeyRef<'a> {
    ghost use Rattle.td_rows.specs.Keys.{same_key};
    ghost use Rattle.td_rows.specs.KeyRefs.{hashed_alike, compared_alike};

    ghost equivalent = { λ q. same_key (record { source = q.source.now; arch = q.arch.now }) };

    ghost respects_hash = { λ q k. hashed_alike q.source.now q.arch.now k };

    ghost respects_eq = { λ q x y. compared_alike
        (record { source = q.source.now; arch = q.arch.now }) x y };

    fn equivalent(&self, key: &Key) -> bool {
        self.source == key.source() && self.arch == key.arch()
    }
}

/// The number of the row of a source on an architecture. It takes no memory.
pub(crate) fn number_in(rows: &IndexMap<Key, Row>, source: &str, arch: &str) -> Option<usize>
    ensures found { IfSome result (IsAt rows.now.entries
        (record { source = source.now; arch = arch.now })) }
    ensures absent { IfNone result (row_of rows.now.entries
        (record { source = source.now; arch = arch.now }) ≡ None) }
{
    match rows.get_full(KeyRef { source, arch }) {
        Some((number, _, _)) => Some(number),
        None => None,
    }
}
