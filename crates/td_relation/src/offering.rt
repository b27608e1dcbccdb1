//! What is on offer, found by names.
ghost use Rattle.std.specs.Prelude.{◌≡◌, ℕ, List, option_map};
ghost use Rattle.std.specs.List.{list_any};
ghost use Rattle.td_relation.specs.Asked.{restriction_of};
ghost use Rattle.td_relation.specs.Meeting.{suits};
ghost use Rattle.td_relation.specs.Offers.{Offered, offered, offers_of};

use crate::offers::{Offer, Offers};
use crate::relation::Restriction;

/// What is on offer, found by names. `Offer::suits` says of one offer whether it is what is asked
/// for; an `impl` asks it of each offer that it has under the name.
pub trait Offering {
    // The offers of a name.
    ghost on_offer: { Self → List ℕ → List Offered };

    /// Whether some offer of the name is on the architecture at this place or on `all`, and is such
    /// as is asked.
    fn has(&self, name: &str, place: usize, restriction: &Option<Restriction<'_>>) -> bool
        ensures { result ≡ list_any (λ o. suits place (option_map restriction_of restriction.now) o)
            (on_offer self.now name.now) };
}

impl<'a> Offering for Offers<'a> {
    ghost on_offer = { offers_of };

    fn has(&self, name: &str, place: usize, restriction: &Option<Restriction<'_>>) -> bool {
        match self.named(name) {
            Some(list) => some_suits(list, place, restriction),
            None => false,
        }
    }
}

fn some_suits(list: &[Offer<'_>], place: usize, restriction: &Option<Restriction<'_>>) -> bool
    ensures { result ≡ list_any
        (λ o. suits place (option_map restriction_of restriction.now) (offered o)) list.now }
{
    list.iter().any(|o| o.suits(place, restriction))
}
