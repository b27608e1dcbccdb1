//! The binary packages are put under their sources in four threads, while the rows are counted, and
//! found there by architecture.
ghost use Rattle.std.specs.Prelude.{◌≡◌, ◌⊎◌, ◌≤◌, ◌<◌, ℕ, List, Some, IfOk, IfErr, IsErrOf};
ghost use Rattle.std.specs.Prelude.{filter, slice_get};
ghost use Rattle.std.specs.Option.{option_map_or};
ghost use Rattle.std.specs.Prelude.{false};
ghost use denote.Param.Send.{IsSync};
ghost use Rattle.td_relation.specs.Meeting.{is_on as is_on_of};
ghost use Rattle.td_indices.specs.Archive.{is_of, is_of_on, places_from};
ghost use Rattle.td_indices.specs.Kept.{binaries_of};
ghost use Rattle.td_indices.specs.inner.Groups.{AreOfQuarter, grouped_under};
ghost use Rattle.td_indices.specs.Rows.{row_count};
ghost use Rattle.td_indices.specs.Sources.{sources_of};
ghost use Rattle.td_indices.specs.declared.archive_fault.ArchiveFault.{ArchiveFault};
ghost use Rattle.td_indices.specs.declared.groups.Quarter.{Quarter};
ghost use Rattle.td_relation.specs.TableView.{table};
ghost use Rattle.td_rows.specs.Limits.{max_rows};

use crate::archive_fault::ArchiveFault;
use crate::binaries::Binaries;
use crate::groups::{Groups, Quarter, push_in_quarter};
use crate::packaged::is_on;
use crate::rows::count_rows;
use crate::sourced::Sourced;
use indexmap::IndexMap;
use std::alloc::{AllocError, Global};
use std::thread;
use std::thread::Threads;
use td_relation::Archs;
use td_supply::Numbers;

/// The numbers of the binary packages of those sources whose names are of a quarter.
fn group_quarter<'a>(
    alloc: Global,
    binaries: &Binaries<'a>,
    quarter: Quarter,
) -> Result<Numbers<'a>, AllocError>
    ensures { IfOk result (AreOfQuarter quarter (binaries_of binaries.now)) }
{
    let mut numbers = Numbers::new(alloc);
    for number in 0..binaries.len() {
        if let Some((_, packaged)) = binaries.get_index(number) {
            push_in_quarter(&mut numbers, quarter, packaged.source, number)?;
        }
    }
    Ok(numbers)
}

// The numbers of two quarters, each made in a thread.
fn group_two<'a, R: Threads + Sync>(
    rt: &R,
    alloc: Global,
    binaries: &Binaries<'a>,
    one: Quarter,
    other: Quarter,
) -> Result<(Numbers<'a>, Numbers<'a>), AllocError>
    ensures one { IfOk result (λ p. AreOfQuarter one (binaries_of binaries.now) p.0) }
    ensures other { IfOk result (λ p. AreOfQuarter other (binaries_of binaries.now) p.1) }
{
    let of_one = move || -> Result<Numbers, AllocError>
        ensures { IfOk result (AreOfQuarter one (binaries_of binaries.entry.now)) }
    { group_quarter(alloc, binaries, one) };
    let of_other = move || -> Result<Numbers, AllocError>
        ensures { IfOk result (AreOfQuarter other (binaries_of binaries.entry.now)) }
    { group_quarter(alloc, binaries, other) };
    let (those, others) = thread::join(rt, of_one, of_other);
    Ok((those?, others?))
}

// The numbers of the binary packages by their sources, those of each quarter made in a thread.
fn group_binaries<'a, R: Threads + Sync>(
    rt: &R,
    alloc: Global,
    binaries: &Binaries<'a>,
) -> Result<Groups<'a>, AllocError>
    ensures { IfOk result (λ groups.
        (q : List ℕ)
        → grouped_under groups q ≡ places_from (is_of q) 0 (binaries_of binaries.now)) }
{
    let of_front = move || -> Result<(Numbers, Numbers), AllocError>
        requires { IsSync R.row }
        ensures first { IfOk result
            (λ p. AreOfQuarter Quarter.First (binaries_of binaries.entry.now) p.0) }
        ensures second { IfOk result
            (λ p. AreOfQuarter Quarter.Second (binaries_of binaries.entry.now) p.1) }
    { group_two(rt, alloc, binaries, Quarter::First, Quarter::Second) };
    let of_rest = move || -> Result<(Numbers, Numbers), AllocError>
        requires { IsSync R.row }
        ensures third { IfOk result
            (λ p. AreOfQuarter Quarter.Third (binaries_of binaries.entry.now) p.0) }
        ensures fourth { IfOk result
            (λ p. AreOfQuarter Quarter.Fourth (binaries_of binaries.entry.now) p.1) }
    { group_two(rt, alloc, binaries, Quarter::Third, Quarter::Fourth) };
    let (front, rest) = thread::join(rt, of_front, of_rest);
    let (first, second) = front?;
    let (third, fourth) = rest?;
    Ok(Groups {
        first,
        second,
        third,
        fourth,
    })
}

/// The numbers of the binary packages by their sources, and how many rows the sources have, each
/// in a thread.
pub fn grouped_and_counted<'a, R: Threads + Sync>(
    rt: &R,
    alloc: Global,
    archs: &Archs<'_>,
    binaries: &Binaries<'a>,
    sources: &IndexMap<&str, Sourced<'_>>,
) -> Result<(Groups<'a>, usize), ArchiveFault>
    ensures groups { IfOk result (λ p. (q : List ℕ)
        → grouped_under p.0 q ≡ places_from (is_of q) 0 (binaries_of binaries.now)) }
    ensures rows { IfOk result (λ p.
        p.1 ≡ row_count (table archs.now) (sources_of sources.now.entries)) }
    ensures limited { IfOk result (λ p. p.1 ≤ max_rows) }
    ensures counted { max_rows < row_count (table archs.now) (sources_of sources.now.entries)
        → IsErrOf result ArchiveFault.TooManyRows }
    ensures fault { IfErr result (λ e. (e ≡ ArchiveFault.NoMemory) ⊎ ((e ≡ ArchiveFault.TooManyRows)
        × (max_rows < row_count (table archs.now) (sources_of sources.now.entries)))) }
{
    let of_rows = move || -> Result<usize, ArchiveFault>
        ensures ok { IfOk result (λ rows.
            rows ≡ row_count (table archs.entry.now) (sources_of sources.entry.now.entries)) }
        ensures limited { IfOk result (λ rows. rows ≤ max_rows) }
        ensures too_many { IfErr result (λ e. max_rows
            < row_count (table archs.entry.now) (sources_of sources.entry.now.entries)) }
        ensures fault { IfErr result (λ e. e ≡ ArchiveFault.TooManyRows) }
    { count_rows(archs, sources) };
    let of_groups = move || -> Result<Groups, AllocError>
        requires { IsSync R.row }
        ensures { IfOk result (λ groups. (q : List ℕ)
            → grouped_under groups q ≡ places_from (is_of q) 0 (binaries_of binaries.entry.now)) }
    { group_binaries(rt, alloc, binaries) };
    let (rows, groups) = thread::join(rt, of_rows, of_groups);
    let rows = rows?;
    match groups {
        Ok(groups) => Ok((groups, rows)),
        Err(_) => Err(ArchiveFault::NoMemory),
    }
}

/// Whether the binary package with a number is on the architecture, or on `all`.
fn is_number_on(binaries: &Binaries<'_>, number: usize, arch: usize) -> bool
    ensures { result ≡ option_map_or (λ b. is_on_of arch b.head.home)
        (slice_get (binaries_of binaries.now) number) false }
{
    match binaries.get_index(number) {
        Some((key, _)) => is_on(arch, key.arch),
        None => false,
    }
}

/// Which of these numbers are those of binary packages on the architecture or on `all`.
pub fn those_on(
    alloc: Global,
    binaries: &Binaries<'_>,
    numbers: &[usize],
    arch: usize,
) -> Result<Vec<usize>, AllocError>
    ensures { IfOk result (λ there.
        there.items ≡ filter (λ n.
        option_map_or (λ b. is_on_of arch b.head.home)
        (slice_get (binaries_of binaries.now) n) false) numbers.now) }
{
    let mut there = Vec::new(alloc);
    for number in numbers {
        if is_number_on(binaries, *number, arch) {
            there.push(*number)?;
        }
    }
    Ok(there)
}
