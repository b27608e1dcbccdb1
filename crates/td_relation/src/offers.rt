//! A list of offers.
use crate::relation::Restriction;
use crate::suiting::{is_there, satisfies};
use std::alloc::{AllocError, Global};
use std::collections::HashMap;
use td_version::Version;

/// What is offered under a name.
#[derive(Clone, Copy)]
pub struct Offer<'a> {
    pub version: Option<Version<'a>>,
    /// The place of its architecture in the table; `None` for `all`.
    pub arch: Option<usize>,
}

/// Offers, found by their names.
#[derive(Drop)]
pub struct Offers<'a> {
    by_name: HashMap<&'a str, Vec<Offer<'a>>>,
}

impl<'a> Offer<'a> {
    ghost use Rattle.std.specs.Prelude.{◌≡◌, option_map};
    ghost use Rattle.td_relation.specs.Asked.{restriction_of};
    ghost use Rattle.td_relation.specs.Meeting.{suits as suits_of};
    ghost use Rattle.td_relation.specs.Offers.{offered};

    /// Whether it is on the architecture at this place or on `all`, and is such as is asked.
    pub fn suits(&self, place: usize, restriction: &Option<Restriction<'_>>) -> bool
        ensures { result ≡ suits_of place (option_map restriction_of restriction.now)
            (offered self.now) }
    {
        is_there(place, self) && satisfies(restriction, &self.version)
    }
}

impl<'a> Offers<'a> {
    ghost use Rattle.std.specs.Prelude.{
      ◌≡◌,
      ◌<◌,
      List,
      ℕ,
      [],
      ◌∷◌,
      ◌++◌,
      OnOk,
      OnErr,
      IfSome,
      length,
      map,
      if◌then◌else◌,
    };
    ghost use Rattle.std.specs.Str.{bytes_eq};
    ghost use Rattle.std.specs.Option.{option_map_or};
    ghost use Rattle.td_relation.specs.Offers.{offered, offers_of};

    /// None yet.
    pub fn new(alloc: Global) -> Offers<'a>
        ensures { (q : List ℕ) → offers_of result q ≡ [] }
    {
        Offers {
            by_name: HashMap::new(alloc),
        }
    }

    /// Adds an offer after those of its name. `None` for the architecture is `all`.
    pub fn push(
        &mut self,
        name: &'a str,
        version: Option<Version<'a>>,
        arch: Option<usize>,
    ) -> Result<(), AllocError>
        ensures ok { OnOk result
            ((q : List ℕ)
            → offers_of self.new q
            ≡ (if bytes_eq q name.now then offers_of self.old q ++ offered
            (record { version = version.entry; arch = arch }) ∷ [] else offers_of self.old q)) }
        ensures err { OnErr result ((q : List ℕ) → offers_of self.new q ≡ offers_of self.old q) }
    {
        let list = self.by_name.entry(name)?.or_default();
        list.push(Offer { version, arch })?;
        Ok(())
    }

    /// The offers of a name, in the order in which they came; `None` where there are none.
    pub fn named(&self, name: &str) -> Option<&[Offer<'a>]>
        ensures offers { option_map_or (λ list. map offered list.now) result []
            ≡ offers_of self.now name.now }
        ensures some { IfSome result (λ list. 0 < length list.now) }
    {
        match self.by_name.get(name) {
            // (a list may be empty: memory ran out for its first offer)
            Some(list) if !list.is_empty() => Some(list.as_slice()),
            _ => None,
        }
    }
}
