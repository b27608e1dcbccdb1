//! How many binary packages each architecture has of its own.
ghost use Rattle.std.specs.Prelude.{◌≡◌, ℕ, ◌+◌, ◌<◌, ◌^◌, None, IfOk, get_or, length, slice_get};
ghost use Rattle.std.specs.Prelude.{if◌then◌else◌};
ghost use Rattle.std.specs.Option.{option_map_or};
ghost use Rattle.td_indices.specs.PackageKeys.{same_home};
ghost use Rattle.td_details.specs.Counts.{AreOwnCounts};

use std::alloc::{AllocError, Global};
use td_indices::Archive;

// Where the binary package with a number is; `None` for `all`, and if there is no such package.
fn home_of(archive: &Archive<'_, '_>, number: usize) -> Option<usize>
    ensures { result
        ≡ option_map_or (λ b. b.head.home) (slice_get archive.now.binaries number) None }
{
    match archive.binary(number) {
        Some(binary) => binary.arch,
        None => None,
    }
}

// Counts a package at its place, if it has one.
fn count_at(counts: &mut Vec<usize>, home: Option<usize>)
    requires { (place : ℕ) → place < length counts.old.items
        → get_or counts.old.items place 0 + 1 < 2 ^ 64 }
    ensures counts { (place : ℕ) → place < length counts.old.items
        → get_or counts.new.items place 0 ≡ get_or counts.old.items place 0
        + (if same_home home (Some place) then 1 else 0) }
    ensures len { length counts.new.items ≡ length counts.old.items }
{
    if let Some(place) = home {
        if place < counts.len() {
            counts[place] += 1;
        }
    }
}

/// How many binary packages each architecture of the table has of its own.
pub fn own_counts(alloc: Global, archive: &Archive<'_, '_>) -> Result<Vec<usize>, AllocError>
    ensures { IfOk result (λ counts. AreOwnCounts archive.now counts.items) }
{
    let mut counts = Vec::with_capacity(alloc, archive.arch_count())?;
    for _place in 0..archive.arch_count() {
        counts.push(0)?;
    }
    for number in 0..archive.binary_count() {
        count_at(&mut counts, home_of(archive, number));
    }
    Ok(counts)
}
