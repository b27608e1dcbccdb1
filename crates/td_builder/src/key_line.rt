//! The outcome lines, found by their keys.
ghost use Rattle.std.specs.Prelude.{◌≡◌, true, false, OnOk, is_some};
ghost use Rattle.std.specs.Map.{lookup};
ghost use Rattle.td_rows.specs.declared.key.Key.{Key as KeyValue};
ghost use Rattle.td_rows.specs.Keys.{same_key};
ghost use Rattle.td_builder.specs.Unused.{lines_of_key, with_line};

use indexmap::IndexMap;
use std::alloc::{AllocError, Global};
use td_board::OutcomeCode;
use td_rows::Key;

/// A line of a key: how the build ends, and the line's number from 0.
#[derive(Clone, Copy)]
pub struct KeyLine {
    pub code: OutcomeCode,
    pub line: usize,
}

// Adds a line after those of a key that has some.
fn push_behind(
    by_key: &mut IndexMap<Key, Vec<KeyLine>>,
    key: &Key,
    line: KeyLine,
) -> Result<(), AllocError>
    requires { is_some (lookup (same_key key.now) by_key.old.entries) ≡ true }
    ensures { OnOk result ((k : KeyValue) → lines_of_key by_key.new.entries k
        ≡ with_line k key.now line (lines_of_key by_key.old.entries k)) }
{
    match by_key.get_mut(key) {
        Some(lines) => Ok(lines.push(line)?),
        None => Ok(()),
    }
}

// Adds the first line of a key.
fn push_first(
    alloc: Global,
    by_key: &mut IndexMap<Key, Vec<KeyLine>>,
    key: Key,
    line: KeyLine,
) -> Result<(), AllocError>
    requires { is_some (lookup (same_key key) by_key.old.entries) ≡ false }
    ensures { OnOk result ((k : KeyValue) → lines_of_key by_key.new.entries k
        ≡ with_line k key line (lines_of_key by_key.old.entries k)) }
{
    let mut lines = Vec::new(alloc);
    lines.push(line)?;
    by_key.insert(key, lines)?;
    Ok(())
}

/// Adds a line after those of its key.
pub(crate) fn push_line(
    alloc: Global,
    by_key: &mut IndexMap<Key, Vec<KeyLine>>,
    key: Key,
    line: KeyLine,
) -> Result<(), AllocError>
    ensures { OnOk result ((k : KeyValue) → lines_of_key by_key.new.entries k
        ≡ with_line k key line (lines_of_key by_key.old.entries k)) }
{
    if by_key.contains_key(&key) {
        push_behind(by_key, &key, line)
    } else {
        push_first(alloc, by_key, key, line)
    }
}
