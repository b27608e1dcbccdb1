//! What an arrival makes of the offers.
ghost use Rattle.std.specs.Prelude.{◌≡◌, ◌≤◌, List, IfOk, map, option_map};
ghost use Rattle.td_text.specs.Limits.{max_rebuild};
ghost use Rattle.td_version.specs.Version.{parts_of};
ghost use Rattle.td_supply.specs.Arrivals.{is_exactly as is_exactly_of, made_at, made_of};
ghost use Rattle.td_supply.specs.Arrivals.{put as put_of, put_all, rebuild_there};
ghost use Rattle.td_supply.specs.Supplied.{last_part as last_part_of};
ghost use Rattle.td_supply.specs.SupplyViews.{item, rebuilt_at, rebuilt_parts, supplied};

use crate::stocked::{Rebuilt, Stocked};
use std::alloc::{AllocError, Global};
use td_version::{Version, write_rebuild};

// The last part that is written.
fn last_part<'a>(version: &Version<'a>) -> &'a str
    ensures { result.now ≡ last_part_of (parts_of version.now) }
{
    match version.revision {
        Some(revision) => revision,
        None => version.upstream,
    }
}

fn is_exactly(place: usize, arch: Option<usize>) -> bool
    ensures { result ≡ is_exactly_of place arch }
{
    match arch {
        Some(there) => place == there,
        None => false,
    }
}

// The version that a rebuild on the architecture at a place offers, if the offer is a build there.
fn rebuild<'a>(
    alloc: Global,
    offer: &Stocked<'a>,
    place: usize,
    number: u16,
) -> Result<Option<Rebuilt<'a>>, AllocError>
    requires { number ≤ max_rebuild }
    ensures { IfOk result (λ made.
        option_map rebuilt_parts made ≡ rebuild_there place number (supplied offer.now)) }
{
    if !is_exactly(place, offer.arch) {
        return Ok(None);
    }
    match &offer.build {
        Some(build) => {
            let last = write_rebuild(alloc, last_part(&build.base), number)?;
            Ok(Some(Rebuilt {
                base: build.base,
                last,
            }))
        }
        None => Ok(None),
    }
}

// The version that a rebuild on the architecture at a place offers, if the item with a number is a
// build there.
fn rebuild_at<'a>(
    alloc: Global,
    items: &[Stocked<'a>],
    at: usize,
    place: usize,
    number: u16,
) -> Result<Option<Rebuilt<'a>>, AllocError>
    requires { number ≤ max_rebuild }
    ensures { IfOk result (λ made. option_map rebuilt_parts made
        ≡ made_at (λ s. rebuild_there place number (supplied s)) items.now at) }
{
    match items.get(at) {
        Some(offer) => rebuild(alloc, offer, place, number),
        None => Ok(None),
    }
}

/// The versions that a rebuild on the architecture at a place offers, of the items with these
/// numbers.
pub fn rebuilds<'a>(
    alloc: Global,
    items: &[Stocked<'a>],
    numbers: &[usize],
    place: usize,
    number: u16,
) -> Result<Vec<(usize, Rebuilt<'a>)>, AllocError>
    requires { number ≤ max_rebuild }
    ensures { IfOk result (λ made. map rebuilt_at made.items
        ≡ made_of (λ s. rebuild_there place number (supplied s)) items.now numbers.now) }
{
    let mut made = Vec::new(alloc);
    for at in numbers {
        if let Some(rebuilt) = rebuild_at(alloc, items, *at, place, number)? {
            made.push((*at, rebuilt))?;
        }
    }
    Ok(made)
}

fn put<'a>(items: &mut Vec<Stocked<'a>>, at: usize, rebuilt: Rebuilt<'a>)
    ensures { map item items.new.items
        ≡ put_of at (rebuilt_parts rebuilt.entry) (map item items.old.items) }
{
    if at < items.len() {
        items[at].rebuilt = Some(rebuilt);
    }
}

/// Puts each of these versions in place. It takes no memory.
pub fn put_each<'a>(items: &mut Vec<Stocked<'a>>, mut made: Vec<(usize, Rebuilt<'a>)>)
    ensures { map item items.new.items
        ≡ put_all (map rebuilt_at made.entry.items) (map item items.old.items) }
{
    while let Some((at, rebuilt)) = made.pop() {
        put(items, at, rebuilt);
    }
}
