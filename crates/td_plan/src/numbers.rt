//! The number under which the rows of a source are rebuilt.
ghost use Rattle.std.specs.Prelude.{◌≡◌, ◌+◌, ◌<◌, ◌≤◌, IfSome, false, length, option_map};
ghost use Rattle.std.specs.Prelude.{slice_get, slice_index_or, if◌then◌else◌};
ghost use Rattle.std.specs.Option.{option_copied, option_map_or};
ghost use Rattle.td_text.specs.Limits.{max_rebuild};
ghost use Rattle.td_version.specs.Version.{parts_of};
ghost use Rattle.td_indices.specs.Kept.{KeptBinary};
ghost use Rattle.td_indices.specs.Opening.{
  current_number,
  greatest as greatest_of,
  greatest_at as greatest_among_of,
  is_current,
  rebuild_number as rebuild_number_of,
  with_number,
};
ghost use Rattle.td_indices.specs.Seen.{seen_binary, shown_binary};
ghost use Rattle.td_plan.specs.Numbers.{number_over as number_over_of, numbers_at};
ghost use Rattle.td_plan.specs.Premises.{Premises};
ghost use Rattle.td_plan.specs.inner.Inputs.{AreFor, kept_source};

use crate::inputs::Inputs;
use td_indices::{Binary, Source};
use td_rows::Row;
use td_version::{is_same_version, split_rebuild};

/// The number of the rebuild that a version ends in; 0 if it ends in none.
pub fn rebuild_number(version: &str) -> u16
    ensures is { result ≡ rebuild_number_of version.now }
    ensures within { result ≤ max_rebuild }
{
    let (_, number) = split_rebuild(version);
    number
}

/// Whether a package is of exactly the architecture at a place, and was built from the source's
/// present version.
pub fn is_present(source: &Source<'_>, place: usize, binary: &Binary<'_>) -> bool
    ensures { (b : KeptBinary) → seen_binary binary.now ≡ shown_binary b
        → result ≡ is_current (parts_of source.now.parts) place b }
{
    binary.arch == Some(place) && is_same_version(&binary.source_parts, &source.parts)
}

// The rebuild number of a package, if it is of the source's present version there.
fn present_number(
    inputs: &Inputs<'_, '_, '_>,
    source: &Source<'_>,
    place: usize,
    binary: usize,
) -> Option<u16>
    ensures is { result ≡ current_number (parts_of source.now.parts) place
        (slice_get inputs.now.archive.now.binaries binary) }
    ensures within { IfSome result (λ n. n ≤ max_rebuild) }
{
    match inputs.archive.binary(binary) {
        Some(binary) if is_present(source, place, &binary) => Some(rebuild_number(binary.version)),
        _ => None,
    }
}

/// The number of a row, if there is one.
pub fn row_number(row: Option<&Row>) -> Option<u16>
    ensures is { result ≡ option_map (λ r. r.number) (option_copied row.entry) }
    ensures within { IfSome result (λ n. n ≤ max_rebuild) }
{
    match row {
        Some(row) => Some(row.number.get()),
        None => None,
    }
}

// The greater of two numbers, if there are any.
fn greater(best: Option<u16>, number: Option<u16>) -> Option<u16>
    ensures is { result ≡ with_number best number }
    ensures within { IfSome best (λ n. n ≤ max_rebuild) → IfSome number (λ n. n ≤ max_rebuild)
        → IfSome result (λ n. n ≤ max_rebuild) }
{
    match (best, number) {
        (None, number) => number,
        (Some(best), None) => Some(best),
        (Some(best), Some(number)) => Some(best.max(number)),
    }
}

// The greatest of a number and of those that packages with these numbers have, if there are any.
fn greatest_among(
    inputs: &Inputs<'_, '_, '_>,
    source: &Source<'_>,
    place: usize,
    best: Option<u16>,
    numbers: &[usize],
) -> Option<u16>
    ensures is { result ≡ greatest_among_of inputs.now.archive.now.binaries
        (parts_of source.now.parts) place best numbers.now }
    ensures within { IfSome best (λ n. n ≤ max_rebuild) → IfSome result (λ n. n ≤ max_rebuild) }
{
    let mut best = best;
    for number in numbers {
        best = greater(best, present_number(inputs, source, place, *number));
    }
    best
}

/// The greatest number that a source has on the architecture at a place, if it has one: that of its
/// row, or that of a package there which was built from its present version.
pub fn greatest_at(inputs: &Inputs<'_, '_, '_>, source: &Source<'_>, place: usize) -> Option<u16>
    requires { place < length inputs.now.archive.now.table }
    ensures is { (p : Premises) → AreFor inputs.now p
        → result ≡ greatest_of (numbers_at p (kept_source source.now) place) }
    ensures within { IfSome result (λ n. n ≤ max_rebuild) }
{
    let own = row_number(inputs.row(source.name, place));
    let numbers = inputs.archive.packages_of(source.name);
    greatest_among(inputs, source, place, own, numbers)
}

// The least number that isn't below any that the source has at a place, and is above each if
// the row there is rebuilt.
fn least_at(inputs: &Inputs<'_, '_, '_>, source: &Source<'_>, place: usize, is_rebuilt: bool) -> u16
    requires { place < length inputs.now.archive.now.table }
    ensures is { (p : Premises) → AreFor inputs.now p
        → result ≡ option_map_or (λ n. if is_rebuilt then n + 1 else n)
        (greatest_of (numbers_at p (kept_source source.now) place)) 0 }
    ensures within { result ≤ max_rebuild + 1 }
{
    match greatest_at(inputs, source, place) {
        Some(number) if is_rebuilt => number + 1,
        Some(number) => number,
        None => 0,
    }
}

/// The number of a rebuild on the architectures whose flag is set: the greatest that the source has
/// anywhere, if it is above each that it has on these; else one more, which may be one too many.
pub fn number_over(inputs: &Inputs<'_, '_, '_>, source: &Source<'_>, flags: &[bool]) -> u16
    requires { length flags.now ≡ length inputs.now.archive.now.table }
    ensures is { (p : Premises) → AreFor inputs.now p
        → result ≡ number_over_of (λ place. slice_index_or flags.now place false) p
        (kept_source source.now) }
    ensures within { result ≤ max_rebuild + 1 }
{
    let mut number: u16 = 0;
    for place in 0..flags.len() {
        number = number.max(least_at(inputs, source, place, flags[place]));
    }
    number
}
