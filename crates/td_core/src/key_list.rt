//! Keys in any order, as a step names them.
ghost use Rattle.std.specs.Prelude.{◌≡◌, ◌<◌, true, Some, length, slice_get};
ghost use Rattle.td_rows.specs.Keys.{ascending};

use std::marker::Model;
use td_journal::Keys;
use td_rows::Key;

/// Any list of keys. Contracts see the list.
#[derive(Drop)]
pub struct KeyList {
    keys: Vec<Key>,
}

impl Model for KeyList {
    ghost use Rattle.std.specs.Prelude.{List};
    ghost use Rattle.td_rows.specs.declared.key.Key.{Key};

    ghost Value = { List Key };

    ghost view = { λ l. l.keys.items };
}

impl KeyList {
    /// The keys of a list, moved in.
    pub fn new(keys: Vec<Key>) -> KeyList
        ensures { result ≡ keys.items }
    {
        KeyList { keys }
    }

    /// The keys in order.
    pub fn as_slice(&self) -> &[Key]
        ensures { result.now ≡ self.now }
    {
        &self.keys
    }

    /// The key at a place, moved out of the list.
    pub fn into_key(self, at: usize) -> Key
        requires within { at < length self }
        ensures { slice_get self at ≡ Some result }
    {
        let mut keys = self.keys;
        keys.swap_remove(at)
    }

    /// The keys as those of an entry. It takes no memory.
    pub fn into_keys(self) -> Keys
        requires rising { ascending self ≡ true }
        requires some { 0 < length self }
        ensures { result ≡ self }
    {
        Keys::new(self.keys)
    }
}
