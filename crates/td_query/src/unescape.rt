//! What a pattern between slashes spells.
ghost use Rattle.std.specs.Prelude.{◌≡◌, IfOk, string_bytes};
ghost use Rattle.td_query.specs.Sources.{unescaped, without_last};

use std::alloc::{AllocError, Global};
use td_text::cut_at;

// The text without a backslash at its end.
#[tactic(auto, using(crate::proofs::Unescaping::without_last_none, crate::proofs::Unescaping::without_last_is, crate::proofs::Unescaping::without_last_not))]
fn without_backslash(text: &str) -> &str
    ensures left { result.now ≡ without_last text.now }
{
    let bytes = text.as_bytes();
    if bytes.is_empty() {
        return text;
    }
    let last = bytes.len() - 1;
    if bytes[last] == b'\\' {
        text.split_at(last).0
    } else {
        text
    }
}

/// What is between a pattern's slashes, with `/` for each `\/`.
pub fn source(alloc: Global, raw: &str) -> Result<String, AllocError>
    ensures unescaped { IfOk result (λ s. string_bytes s ≡ unescaped raw.now) }
{
    let mut out = String::new(alloc);
    let mut left = Some(raw);
    while let Some(text) = left {
        match cut_at(text, '/') {
            None => {
                out.push_str(text)?;
                left = None;
            }
            Some((piece, after)) => {
                out.push_str(without_backslash(piece))?;
                out.push_str("/")?;
                left = Some(after);
            }
        }
    }
    Ok(out)
}
