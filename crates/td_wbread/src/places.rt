//! Where the packages of a command stand, found by their source.
ghost use Rattle.std.specs.Prelude.{◌≡◌, IfOk};
ghost use Rattle.td_wbread.specs.inner.Places.{FindsPackages};

use crate::command::Package;
use std::alloc::{AllocError, Global};
use std::collections::HashMap;

/// Places in a list of packages, found by a source.
#[derive(Drop)]
pub struct Places {
    by_source: HashMap<String, Vec<usize>>,
}

impl Places {
    ghost use Rattle.std.specs.Prelude.{◌≡◌, List, ℕ, [], ◌∷◌, ◌++◌, OnOk, if◌then◌else◌};
    ghost use Rattle.std.specs.Str.{bytes_eq};
    ghost use Rattle.td_wbread.specs.inner.Places.{places_of};

    fn new(alloc: Global) -> Places
        ensures { (source : List ℕ) → places_of result source ≡ [] }
    {
        Places {
            by_source: HashMap::new(alloc),
        }
    }

    /// Adds a place after those of its source.
    fn push(&mut self, alloc: Global, source: &str, place: usize) -> Result<(), AllocError>
        ensures { OnOk result
            ((q : List ℕ)
            → places_of self.new q ≡ (if bytes_eq q source.now then places_of self.old q
            ++ place ∷ [] else places_of self.old q)) }
    {
        let source = String::from_str(alloc, source)?;
        let places = self.by_source.entry(source)?.or_default();
        places.push(place)?;
        Ok(())
    }

    /// The places of a source.
    pub fn of(&self, source: &str) -> &[usize]
        ensures { result.now ≡ places_of self.now source.now }
    {
        match self.by_source.get(source) {
            Some(places) => places.as_slice(),
            None => &[],
        }
    }
}

/// Where packages stand, by their source.
pub fn find_places(alloc: Global, packages: &[Package]) -> Result<Places, AllocError>
    ensures { IfOk result (λ places. FindsPackages packages.now places) }
{
    let mut places = Places::new(alloc);
    for place in 0..packages.len() {
        places.push(alloc, packages[place].source.as_str(), place)?;
    }
    Ok(places)
}
