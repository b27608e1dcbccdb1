//! The number of a rebuild at the end of a version.
ghost use Rattle.std.specs.Prelude.{◌≡◌, ◌≤◌, ℕ, List, IfOk, IfSome, option_map, string_bytes};
ghost use Rattle.td_text.specs.Limits.{max_rebuild};
ghost use Rattle.td_version.specs.Rebuild.{IsRebuild, rebuild_text};
ghost use Rattle.td_version.specs.Splitting.{rebuild_at};

use crate::cutting::cut_at_last;
use std::alloc::{AllocError, Global};
use td_text::{rebuild_number, strip};

/// Splits `1.2-3+b4` into `1.2-3` and 4. A text that ends in no rebuild suffix is its own base,
/// with 0.
pub fn split_rebuild(text: &str) -> (&str, u16)
    ensures found { IsRebuild text.now result.0.now result.1 }
    ensures only { (base : List ℕ) (n : ℕ) → IsRebuild text.now base n →
        (result.0.now ≡ base) × (result.1 ≡ n) }
{
    match rebuild(text) {
        Some(base_and_number) => base_and_number,
        None => (text, 0),
    }
}

#[tactic(auto, unfolding(crate::specs::Splitting::rebuild_at))]
fn rebuild(text: &str) -> Option<(&str, u16)>
    ensures { option_map (λ x. (x.0.now, x.1)) result ≡ rebuild_at text.now }
{
    let (base, suffix) = cut_at_last(text, '+')?;
    let digits = strip(suffix, "b")?;
    let number = rebuild_number(digits)?;
    if base.is_empty() || number == 0 {
        return None;
    }
    Some((base, number))
}

/// The base with `+bN` after it, and only the base for number 0.
pub fn write_rebuild(alloc: Global, base: &str, number: u16) -> Result<String, AllocError>
    requires { number ≤ max_rebuild }
    ensures { IfOk result (λ text. string_bytes text ≡ rebuild_text base.now number) }
{
    if number == 0 {
        return String::from_str(alloc, base);
    }
    format!(in alloc; "{base}+b{number}")
}
