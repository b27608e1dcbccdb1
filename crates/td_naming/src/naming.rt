//! The rows that a command names, and those of them whose version matches.
ghost use Rattle.std.specs.Prelude.{◌≡◌, ◌&&◌, ◌||◌, [], false, true, IfOk, OnOk, filter, is_some};
ghost use Rattle.std.specs.Prelude.{map, option_map, string_bytes, if◌then◌else◌};
ghost use Rattle.std.specs.List.{list_any};
ghost use Rattle.std.specs.List.Sorted.{IsStrictlySortedBy};
ghost use Rattle.std.specs.Ordering.{nat_cmp};
ghost use Rattle.std.specs.Str.{bytes_eq};
ghost use Rattle.td_rows.specs.Keys.{ascending, names};
ghost use Rattle.td_rows.specs.declared.key.Key.{Key as KeyValue};
ghost use Rattle.td_rows.specs.Table.{Table, keys_of as every_key};
ghost use Rattle.td_version.specs.Version.{parts_of as version_of};
ghost use Rattle.td_wbread.specs.Views.{package_of, parts_of};
ghost use Rattle.td_naming.specs.Naming.{Adds, keys_at, is_matched_as, is_matched_at, named_in};
ghost use Rattle.td_naming.specs.Naming.{version_in as version_in_supply};
ghost use Rattle.td_naming.specs.Skips.{doubt};

use crate::skips::{Skip, SkipReason};
use std::alloc::{AllocError, Global};
use td_rows::{Key, RebuildNumber, Rows, State};
use td_supply::Supply;
use td_version::Version;
use td_wbread::{Command, Package};

// Adds the number of the row of a source on an architecture, if it has one.
fn push_number(
    numbers: &mut Vec<usize>,
    rows: &Rows,
    source: &str,
    arch: &str,
) -> Result<(), AllocError>
    ensures { OnOk result (Adds rows.now (keys_at rows.now numbers.old.items)
        (keys_at rows.now numbers.new.items)
        (λ k. bytes_eq source.now k.source && bytes_eq arch.now k.arch)) }
{
    let _rising = rows.len();
    if let Some(number) = rows.number_of(source, arch) {
        numbers.push(number)?;
    }
    Ok(())
}

// Adds the numbers of the rows of a source on each of the architectures.
fn push_on_each(
    numbers: &mut Vec<usize>,
    rows: &Rows,
    source: &str,
    archs: &[&str],
) -> Result<(), AllocError>
    ensures { OnOk result (Adds rows.now (keys_at rows.now numbers.old.items)
        (keys_at rows.now numbers.new.items)
        (λ k. bytes_eq source.now k.source && list_any (λ a. bytes_eq a.now k.arch) archs.now)) }
{
    for arch in archs {
        push_number(numbers, rows, source, arch)?;
    }
    Ok(())
}

// The numbers of the rows of each of the packages on each of the architectures, in the order of
// the command.
fn looked_up(
    alloc: Global,
    rows: &Rows,
    packages: &[Package],
    archs: &[&str],
) -> Result<Vec<usize>, AllocError>
    ensures { IfOk result (λ numbers.
        Adds rows.now [] (keys_at rows.now numbers.items)
        (λ k. list_any (λ p. bytes_eq (string_bytes p.source) k.source) packages.now
        && list_any (λ a. bytes_eq a.now k.arch) archs.now)) }
{
    let mut numbers = Vec::new(alloc);
    for package in packages {
        push_on_each(&mut numbers, rows, package.source.as_str(), archs)?;
    }
    Ok(numbers)
}

// Sorts numbers, and drops doubles.
fn sort_numbers(numbers: &mut Vec<usize>)
    ensures rising { IsStrictlySortedBy nat_cmp numbers.new.items }
    ensures same { (t : Table) (k : KeyValue)
        → names (keys_at t numbers.new.items) k ≡ names (keys_at t numbers.old.items) k }
{
    numbers.sort_unstable();
    numbers.dedup();
}

// Copies of the keys of the rows with these numbers.
fn keys_of(alloc: Global, rows: &Rows, numbers: &[usize]) -> Result<Vec<Key>, AllocError>
    ensures { IfOk result (λ keys. keys.items ≡ keys_at rows.now numbers.now) }
{
    let mut keys = Vec::new(alloc);
    for number in numbers {
        if let Some((key, _)) = rows.at(*number) {
            keys.push(key.copy()?)?;
        }
    }
    Ok(keys)
}

/// The keys of the rows that a command names. Each package is looked up on each chosen
/// architecture, so that a command on one source takes no longer where there are more rows; a key
/// is copied once, however often the command names it.
pub fn named(alloc: Global, rows: &Rows, command: &Command<'_>) -> Result<Vec<Key>, AllocError>
    ensures keys { IfOk result (λ keys. keys.items ≡ named_in (parts_of command.now) rows.now) }
    ensures rising { ascending (every_key rows.now) ≡ true }
{
    let _rising = rows.len();
    let mut numbers = looked_up(alloc, rows, &command.packages, &command.archs)?;
    sort_numbers(&mut numbers);
    keys_of(alloc, rows, &numbers)
}

// Whether the version of a row matches, given its source's version, where the archive has one.
fn matches_as(
    command: &Command<'_>,
    source: &str,
    number: RebuildNumber,
    version: Option<Version<'_>>,
) -> bool
    ensures { result ≡ is_matched_as (parts_of command.now) source.now number
        (option_map version_of version.entry) }
{
    match version {
        Some(version) => command.is_matched(source, &version, number),
        None => command.is_bare(source),
    }
}

// The version of a source by its parts, where the archive has one.
fn version_in<'a>(supply: &Supply<'a>, source: &str) -> Option<Version<'a>>
    ensures { option_map version_of result ≡ version_in_supply supply.now source.now }
{
    supply.version_parts(source)
}

// Whether the version of the key's row matches.
fn matches(command: &Command<'_>, supply: &Supply<'_>, rows: &Rows, key: &Key) -> bool
    ensures { result ≡ is_matched_at (parts_of command.now) supply.now rows.now key.now }
{
    match rows.get(key) {
        Some(row) => matches_as(
            command,
            key.source(),
            row.number,
            version_in(supply, key.source()),
        ),
        None => false,
    }
}

/// Copies of those of the named keys whose version matches.
pub fn matched(
    alloc: Global,
    command: &Command<'_>,
    supply: &Supply<'_>,
    rows: &Rows,
    named: &[Key],
) -> Result<Vec<Key>, AllocError>
    ensures { IfOk result (λ keys.
        keys.items ≡ filter (is_matched_at (parts_of command.now) supply.now rows.now) named.now) }
{
    let mut matched = Vec::new(alloc);
    for key in named {
        if matches(command, supply, rows, key) {
            matched.push(key.copy()?)?;
        }
    }
    Ok(matched)
}

// A doubt about a named key.
fn doubt_of(is_matched: bool, key: &Key) -> Result<Skip, AllocError>
    ensures { IfOk result (λ skip. skip ≡ doubt (λ _. is_matched) key.now) }
{
    let reason = if is_matched {
        SkipReason::State(State::NeedsBuild)
    } else {
        SkipReason::Version
    };
    Ok(Skip {
        key: key.copy()?,
        reason,
    })
}

/// A doubt about each of the named keys.
pub fn doubts(
    alloc: Global,
    command: &Command<'_>,
    supply: &Supply<'_>,
    rows: &Rows,
    named: &[Key],
) -> Result<Vec<Skip>, AllocError>
    ensures { IfOk result (λ skips.
        skips.items
        ≡ map (doubt (is_matched_at (parts_of command.now) supply.now rows.now)) named.now) }
{
    let mut doubts = Vec::new(alloc);
    for key in named {
        doubts.push(doubt_of(matches(command, supply, rows, key), key)?)?;
    }
    Ok(doubts)
}
