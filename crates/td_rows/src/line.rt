//! A text without a newline.
ghost use Rattle.std.specs.Prelude.{Some, None, true, false, ◌≡◌, ◌↔◌, ℕ, List, [], length, IfOk};
ghost use Rattle.std.specs.Prelude.{IsOk, IsErrOf, string_bytes};
ghost use Rattle.std.proofs.Common.{rules};
ghost use Rattle.td_rows.specs.Text.{has_newline};
ghost use Rattle.std.specs.Bool.{◌==◌};
ghost use Rattle.std.specs.Cmp.{partial_order_from_own_ties};
ghost use Rattle.std.specs.Cmp.Rules.{comparing, hashing};
ghost use Rattle.std.specs.Hash as fed;
ghost use Rattle.std.specs.Cmp.Lexicographic.{slice_cmp, pointwise};
ghost use Rattle.std.specs.Ordering.{nat_cmp, as_partial_cmp};

use std::alloc::{AllocError, Global};
use std::cmp::Ordering;
use std::hash::{Hash, Hasher};
use std::marker::Model;
use thiserror::Error;

/// A text without a newline. Contracts see its bytes.

pub struct Line {
    // The text, where it isn't empty: most rows have none, and there are many rows.
    text: Option<Box<String>>,
}

impl Model for Line {
    ghost Value = { List ℕ };

    ghost view = { λ l. elim l.text [ Some text ↦ string_bytes text.value | None ↦ [] ] };

    ghost invariant = { λ l. has_newline
        (elim l.text [ Some text ↦ string_bytes text.value | None ↦ [] ]) ≡ false };
}

impl Drop for Line {
    // By hand, so that a proof meets one call where a line is dropped, and not its two cases.
    fn drop(self) {
        let Line { text } = self;
        drop(text);
    }
}

/// Why a text is no `Line`.
#[derive(Clone, Copy, Debug, PartialEq, Eq, Drop, Error)]
pub enum LineError {
    #[error("a newline stands in the text")]
    Newline,
    #[error("want of memory")]
    NoMemory,
}

// Whether a newline stands in the text.
pub(crate) fn has_newline(text: &str) -> bool
    ensures { result ≡ has_newline text.now }
{
    text.as_bytes().contains(&b'\n')
}

impl Line {
    /// The line without a byte. It takes no memory.
    pub fn empty(_alloc: Global) -> Line
        ensures { result ≡ [] }
    {
        Line { text: None }
    }

    /// A copy of a text. It takes memory where the text isn't empty.
    pub fn new(alloc: Global, text: &str) -> Result<Line, LineError>
        ensures ok { IfOk result (λ line. line ≡ text.now) }
        ensures newline { IsErrOf result LineError.Newline ↔ (has_newline text.now ≡ true) }
        ensures empty { text.now ≡ [] → IsOk result }
    {
        if has_newline(text) {
            return Err(LineError::Newline);
        }
        match Line::from_line(alloc, text) {
            Ok(line) => Ok(line),
            Err(_) => Err(LineError::NoMemory),
        }
    }

    /// A copy of a text in which no newline stands. It takes memory where the text isn't empty.
    pub fn from_line(alloc: Global, text: &str) -> Result<Line, AllocError>
        requires { has_newline text.now ≡ false }
        ensures text { IfOk result (λ line. line ≡ text.now) }
        ensures empty { text.now ≡ [] → IsOk result }
    {
        if text.is_empty() {
            return Ok(Line::empty(alloc));
        }
        let text = String::from_str(alloc, text)?;
        Ok(Line {
            text: Some(Box::new(alloc, text)?),
        })
    }

    /// A copy, which takes memory where the line isn't empty.
    pub fn copy(&self) -> Result<Line, AllocError>
        ensures text { IfOk result (λ line. line ≡ self.now) }
        ensures empty { self.now ≡ [] → IsOk result }
    {
        if self.is_empty() {
            return Ok(Line { text: None });
        }
        Ok(Line {
            text: self.text.clone()?,
        })
    }

    /// The text, in which no newline stands.
    pub fn as_str(&self) -> &str
        ensures text { result.now ≡ self.now }
        ensures one_line { has_newline self.now ≡ false }
    {
        match &self.text {
            Some(text) => text.as_str(),
            None => "",
        }
    }

    /// Whether no byte stands in it.
    pub fn is_empty(&self) -> bool
        ensures { result ≡ (length self.now == 0) }
    {
        self.as_str().is_empty()
    }
}

impl PartialEq for Line {
    ghost eq = { pointwise ◌==◌ };

    ghost laws = { Prim.search (comparing, rules) };

    fn eq(&self, other: &Line) -> bool {
        self.as_str() == other.as_str()
    }
}

impl Eq for Line {
    ghost laws = { Prim.search (comparing, rules) };
}

impl Ord for Line {
    ghost cmp = { slice_cmp nat_cmp };

    ghost total = { Prim.search (comparing, rules) };

    ghost matches_partial_cmp = { Prim.search (comparing, rules) };

    ghost matches_eq = { Prim.search (comparing, rules) };

    fn cmp(&self, other: &Line) -> Ordering {
        self.as_str().cmp(&other.as_str())
    }
}

impl PartialOrd for Line {
    ghost partial_cmp = { as_partial_cmp (slice_cmp nat_cmp) };

    ghost laws = { partial_order_from_own_ties (Prim.search (comparing, rules))
        (Prim.search (comparing, rules)) };

    fn partial_cmp(&self, other: &Line) -> Option<Ordering> {
        Some(self.cmp(other))
    }
}

impl Hash for Line {
    ghost hash_input = { fed.str };

    ghost respects_eq = { Prim.search (hashing, rules) };

    fn hash<H: Hasher>(&self, state: &mut H) {
        self.as_str().hash(state);
    }
}
