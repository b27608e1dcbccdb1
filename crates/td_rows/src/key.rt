//! The key of a row: its source and its architecture.
ghost use Rattle.std.specs.Prelude.{◌≡◌, ◌↔◌, ◌++◌, ◌||◌, true, false, IfOk, IsErrOf};
ghost use Rattle.std.proofs.Common.{rules};
ghost use Rattle.std.specs.Cmp.{partial_order_from_own_ties};
ghost use Rattle.std.specs.Cmp.Rules.{comparing, hashing};
ghost use Rattle.std.specs.Hash as fed;
ghost use Rattle.std.specs.Ordering.{as_partial_cmp};
ghost use Rattle.td_rows.specs.Keys.{key_cmp, same_key, ascending};

use crate::line::{LineError, has_newline};
use std::alloc::{AllocError, Global};
use std::cmp::Ordering;
use std::hash::{Hash, Hasher};
use std::marker::Model;

/// A source on an architecture, written `source/arch`: what a row is found by. Keys are ordered
/// by the bytes of the source, and then of the architecture. Contracts see these two texts.
#[derive(Debug, Drop)]
pub struct Key {
    // The key as it is written.
    text: String,
    // Where the slash between the two stands.
    slash: usize,
}

impl Model for Key {
    ghost use Rattle.td_rows.specs.KeyModel.{KeyModel, IsKeyText, key_in};
    ghost use Rattle.std.specs.String.{string_bytes};

    ghost Value = { KeyModel };

    ghost view = { λ k. key_in (string_bytes k.text) k.slash };

    ghost invariant = { λ k. IsKeyText (string_bytes k.text) k.slash };
}

impl Key {
    ghost use Rattle.td_rows.specs.Text.{has_newline};
    ghost use Rattle.td_rows.specs.KeyText.{key_text};
    ghost use Rattle.td_rows.specs.Keys.{key_cmp};

    /// The key of a source and an architecture, in neither of which a newline stands.
    pub fn new(alloc: Global, source: &str, arch: &str) -> Result<Key, LineError>
        ensures ok { IfOk result (λ key. key ≡ record { source = source.now; arch = arch.now }) }
        ensures newline { IsErrOf result LineError.Newline
            ↔ ((has_newline source.now || has_newline arch.now) ≡ true) }
    {
        if has_newline(source) || has_newline(arch) {
            return Err(LineError::Newline);
        }
        match Key::from_lines(alloc, source, arch) {
            Ok(key) => Ok(key),
            Err(_) => Err(LineError::NoMemory),
        }
    }

    /// The key of two texts in which no newline stands.
    pub fn from_lines(alloc: Global, source: &str, arch: &str) -> Result<Key, AllocError>
        requires source { has_newline source.now ≡ false }
        requires arch { has_newline arch.now ≡ false }
        ensures { IfOk result (λ key. key ≡ record { source = source.now; arch = arch.now }) }
    {
        let mut text = String::with_capacity(alloc, source.len() + 1 + arch.len())?;
        text.push_str(source)?;
        text.push_str("/")?;
        text.push_str(arch)?;
        Ok(Key {
            text,
            slash: source.len(),
        })
    }

    /// The key as it is written, `source/arch`.
    pub fn as_str(&self) -> &str
        ensures text { result.now ≡ key_text self.now }
        ensures one_line { has_newline result.now ≡ false }
    {
        let _slash = self.slash;
        self.text.as_str()
    }

    /// The source.
    pub fn source(&self) -> &str
        ensures text { result.now ≡ self.now.source }
        ensures one_line { has_newline self.now.source ≡ false }
    {
        &self.text.as_str()[..self.slash]
    }

    /// The architecture.
    pub fn arch(&self) -> &str
        ensures text { result.now ≡ self.now.arch }
        ensures one_line { has_newline self.now.arch ≡ false }
    {
        &self.text.as_str()[self.slash + 1..]
    }

    /// A copy, in memory of its own.
    pub fn copy(&self) -> Result<Key, AllocError>
        ensures { IfOk result (λ key. key ≡ self.now) }
    {
        Ok(Key {
            text: self.text.clone()?,
            slash: self.slash,
        })
    }

    /// Which of two keys comes first.
    pub fn compare(&self, other: &Key) -> Ordering
        ensures { result ≡ key_cmp self.now other.now }
    {
        self.cmp(other)
    }
}

impl PartialEq for Key {
    ghost eq = { same_key };

    ghost laws = { Prim.search (comparing, rules) };

    fn eq(&self, other: &Key) -> bool {
        self.source() == other.source() && self.arch() == other.arch()
    }
}

impl Eq for Key {
    ghost laws = { Prim.search (comparing, rules) };
}

impl Ord for Key {
    ghost cmp = { key_cmp };

    ghost total = { Prim.search (comparing, rules) };

    ghost matches_partial_cmp = { Prim.search (comparing, rules) };

    ghost matches_eq = { Prim.search (comparing, rules) };

    fn cmp(&self, other: &Key) -> Ordering {
        match self.source().cmp(&other.source()) {
            Ordering::Equal => self.arch().cmp(&other.arch()),
            order => order,
        }
    }
}

impl PartialOrd for Key {
    ghost partial_cmp = { as_partial_cmp key_cmp };

    ghost laws = { partial_order_from_own_ties (Prim.search (comparing, rules))
        (Prim.search (comparing, rules)) };

    fn partial_cmp(&self, other: &Key) -> Option<Ordering> {
        Some(self.cmp(other))
    }
}

impl Hash for Key {
    ghost hash_input = { λ k. fed.str k.source ++ fed.str k.arch };

    ghost respects_eq = { Prim.search (hashing, rules) };

    fn hash<H: Hasher>(&self, state: &mut H) {
        self.source().hash(state);
        self.arch().hash(state);
    }
}

/// Whether each key is below the next.
pub fn are_ascending(keys: &[Key]) -> bool
    ensures { result ≡ ascending keys.now }
{
    for at in 1..keys.len() {
        if !keys[at - 1].compare(&keys[at]).is_lt() {
            return false;
        }
    }
    true
}
