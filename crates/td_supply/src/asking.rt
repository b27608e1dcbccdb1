//! Whether an offer is such as is asked, as it is now.
ghost use Rattle.std.specs.Prelude.{◌≡◌, option_map};
ghost use Rattle.std.specs.List.{list_any};
ghost use Rattle.td_version.specs.Version.{parts_of};
ghost use Rattle.td_relation.specs.Asked.{restriction_of};
ghost use Rattle.td_relation.specs.Meeting.{suits};
ghost use Rattle.td_relation.specs.Offers.{offered};
ghost use Rattle.td_supply.specs.Asking.{passes_at};
ghost use Rattle.td_supply.specs.Supply.{offered_now};
ghost use Rattle.td_supply.specs.SupplyViews.{item, rebuilt_parts};

use crate::stocked::{Rebuilt, Stocked};
use td_relation::{Offer, Restriction};
use td_version::Version;

// The version of a rebuild that has arrived.
fn rebuilt_version<'b>(rebuilt: &'b Rebuilt<'_>) -> Version<'b>
    ensures { parts_of result ≡ rebuilt_parts rebuilt.now }
{
    let base = rebuilt.base;
    match base.revision {
        Some(_) => Version {
            epoch: base.epoch,
            upstream: base.upstream,
            revision: Some(rebuilt.last.as_str()),
        },
        None => Version {
            epoch: base.epoch,
            upstream: rebuilt.last.as_str(),
            revision: None,
        },
    }
}

// An offer as it is now.
fn offer_now<'b>(stocked: &'b Stocked<'_>) -> Offer<'b>
    ensures { offered result ≡ offered_now (item stocked.now) }
{
    let version = match &stocked.rebuilt {
        Some(rebuilt) => Some(rebuilt_version(rebuilt)),
        None => stocked.version,
    };
    Offer {
        version,
        arch: stocked.arch,
    }
}

// Whether the item with a number is such as is asked.
fn suits_at(
    items: &[Stocked<'_>],
    number: usize,
    place: usize,
    restriction: &Option<Restriction<'_>>,
) -> bool
    ensures { result ≡ passes_at (λ s. suits place (option_map restriction_of restriction.now)
        (offered_now (item s))) items.now number }
{
    match items.get(number) {
        Some(stocked) => offer_now(stocked).suits(place, restriction),
        None => false,
    }
}

/// Whether one of the items with these numbers is such as is asked.
pub fn some_suits(
    items: &[Stocked<'_>],
    numbers: &[usize],
    place: usize,
    restriction: &Option<Restriction<'_>>,
) -> bool
    ensures { result ≡ list_any
        (λ number. passes_at (λ s. suits place (option_map restriction_of restriction.now)
        (offered_now (item s))) items.now number) numbers.now }
{
    numbers
        .iter()
        .any(|number| suits_at(items, *number, place, restriction))
}
