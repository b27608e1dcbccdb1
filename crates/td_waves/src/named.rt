//! Names, each once and by its number.
ghost use Rattle.std.specs.Prelude.{◌≡◌, ◌||◌, List, ℕ, IfOk, OnOk};
ghost use Rattle.std.specs.Str.{bytes_eq};
ghost use Rattle.td_waves.specs.Named.{is_among, is_other as is_other_of};

use indexmap::IndexSet;
use std::alloc::{AllocError, Global};

// Adds a name, unless it is there.
fn put<'a>(set: &mut IndexSet<&'a str>, name: &'a str) -> Result<(), AllocError>
    ensures { OnOk result ((q : List ℕ)
        → is_among set.new.keys q ≡ (is_among set.old.keys q || bytes_eq q name.now)) }
{
    match set.insert(name) {
        Ok(_) => Ok(()),
        Err(_) => Err(AllocError),
    }
}

/// Names, each once.
pub fn each_once<'a>(alloc: Global, names: &[&'a str]) -> Result<IndexSet<&'a str>, AllocError>
    ensures { IfOk result (λ set. (q : List ℕ) → is_among set.keys q ≡ is_among names.now q) }
{
    let mut set = IndexSet::with_capacity(alloc, names.len())?;
    for name in names {
        put(&mut set, name)?;
    }
    Ok(set)
}

/// Whether the name with a number is another than this one.
pub fn is_other(names: &IndexSet<&str>, own: &str, number: usize) -> bool
    ensures { result ≡ is_other_of names.now.keys own.now number }
{
    match names.get_index(number) {
        Some(name) => *name != own,
        None => false,
    }
}
