//! Numbers of items, found by a name.
use std::alloc::{AllocError, Global};
use std::collections::HashMap;

/// Numbers of items, found by a name; each name has its own in the order in which they came.
#[derive(Drop)]
pub struct Numbers<'a> {
    by_name: HashMap<&'a str, Vec<usize>>,
}

impl<'a> Numbers<'a> {
    ghost use Rattle.std.specs.Prelude.{◌≡◌, List, ℕ, [], ◌∷◌, ◌++◌, OnOk, OnErr, if◌then◌else◌};
    ghost use Rattle.std.specs.Str.{bytes_eq};
    ghost use Rattle.td_supply.specs.Numbers.{but_last, numbers_of};

    /// None yet. It takes no memory.
    pub fn new(alloc: Global) -> Numbers<'a>
        ensures { (q : List ℕ) → numbers_of result q ≡ [] }
    {
        Numbers {
            by_name: HashMap::new(alloc),
        }
    }

    /// Adds a number after those of its name.
    pub fn push(&mut self, name: &'a str, number: usize) -> Result<(), AllocError>
        ensures ok { OnOk result
            ((q : List ℕ)
            → numbers_of self.new q ≡ (if bytes_eq q name.now then numbers_of self.old q
            ++ number ∷ [] else numbers_of self.old q)) }
        ensures err { OnErr result ((q : List ℕ) → numbers_of self.new q ≡ numbers_of self.old q) }
    {
        let list = self.by_name.entry(name)?.or_default();
        list.push(number)?;
        Ok(())
    }

    /// Takes the last number of a name away. It takes no memory.
    pub fn pop(&mut self, name: &str)
        ensures { (q : List ℕ) → numbers_of self.new q ≡ (if bytes_eq q name.now then but_last
            (numbers_of self.old q) else numbers_of self.old q) }
    {
        if let Some(list) = self.by_name.get_mut(name) {
            list.pop();
        }
    }

    /// The numbers of a name.
    pub fn of(&self, name: &str) -> &[usize]
        ensures { result.now ≡ numbers_of self.now name.now }
    {
        match self.by_name.get(name) {
            Some(list) => list.as_slice(),
            None => &[],
        }
    }
}
