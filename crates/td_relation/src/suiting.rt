//! Whether an offer is such as is asked.
ghost use Rattle.std.specs.Prelude.{◌≡◌, option_map};
ghost use Rattle.td_relation.specs.Asked.{restriction_of};
ghost use Rattle.td_relation.specs.Meeting.{accepts as accepts_of, is_there as is_there_of};
ghost use Rattle.td_relation.specs.Meeting.{satisfies as satisfies_of};
ghost use Rattle.td_relation.specs.Offers.{offered};

use crate::offers::Offer;
use crate::relation::{Operator, Restriction};
use std::cmp::Ordering;
use td_version::{Version, cmp_version};

fn accepts(operator: Operator, order: Ordering) -> bool
    ensures { result ≡ accepts_of operator order }
{
    match operator {
        Operator::Earlier => order.is_lt(),
        Operator::EarlierOrEqual => order.is_le(),
        Operator::Equal => order.is_eq(),
        Operator::LaterOrEqual => order.is_ge(),
        Operator::Later => order.is_gt(),
    }
}

/// Whether a version is such as is asked. No version satisfies only no restriction.
pub fn satisfies(restriction: &Option<Restriction<'_>>, version: &Option<Version<'_>>) -> bool
    ensures { result ≡ satisfies_of (option_map restriction_of restriction.now)
        (offered (record { version = version.now; arch = None })).version }
{
    match restriction {
        None => true,
        Some(asked) => match version {
            None => false,
            Some(version) => accepts(asked.operator, cmp_version(version, &asked.version)),
        },
    }
}

pub fn is_there(place: usize, offer: &Offer<'_>) -> bool
    ensures { result ≡ is_there_of place (offered offer.now) }
{
    match offer.arch {
        None => true,
        Some(arch) => arch == place,
    }
}
