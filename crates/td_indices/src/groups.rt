//! The numbers of the binary packages by the names of their sources, in four maps: a name's length
//! tells which of them has it, so that each is made in a thread of its own.
ghost use Rattle.std.specs.Prelude.{◌≡◌, ◌∷◌, ◌++◌, List, ℕ, [], OnOk, if◌then◌else◌};
ghost use Rattle.std.specs.Str.{bytes_eq};
ghost use Rattle.td_supply.specs.Numbers.{numbers_of};
ghost use Rattle.td_indices.specs.inner.Groups.{quarter_of as its_quarter};

use std::alloc::AllocError;
use td_supply::Numbers;

/// A quarter of all names.
#[derive(Clone, Copy, PartialEq, Eq)]
pub enum Quarter {
    First,
    Second,
    Third,
    Fourth,
}

/// The quarter that a name is of.
fn quarter_of(name: &str) -> Quarter
    ensures { result ≡ its_quarter name.now }
{
    match name.len() % 4 {
        0 => Quarter::First,
        1 => Quarter::Second,
        2 => Quarter::Third,
        _ => Quarter::Fourth,
    }
}

/// Adds a number after those of its name, if the name is of the quarter.
pub fn push_in_quarter<'a>(
    numbers: &mut Numbers<'a>,
    quarter: Quarter,
    name: &'a str,
    number: usize,
) -> Result<(), AllocError>
    ensures { OnOk result ((q : List ℕ) → its_quarter q ≡ quarter
        → numbers_of numbers.new q ≡ (if bytes_eq q name.now then numbers_of numbers.old q
        ++ number ∷ [] else numbers_of numbers.old q)) }
{
    if quarter_of(name) != quarter {
        return Ok(());
    }
    numbers.push(name, number)
}

/// The numbers of the binary packages by the names of their sources: those of each quarter of the
/// names.
#[derive(Drop)]
pub struct Groups<'a> {
    pub first: Numbers<'a>,
    pub second: Numbers<'a>,
    pub third: Numbers<'a>,
    pub fourth: Numbers<'a>,
}

impl<'a> Groups<'a> {
    ghost use Rattle.std.specs.Prelude.{◌≡◌};
    ghost use Rattle.td_indices.specs.inner.Groups.{grouped_under, of_quarter as those_of};

    fn of_quarter(&self, quarter: Quarter) -> &Numbers<'a>
        ensures { result.now ≡ those_of self.now quarter }
    {
        match quarter {
            Quarter::First => &self.first,
            Quarter::Second => &self.second,
            Quarter::Third => &self.third,
            Quarter::Fourth => &self.fourth,
        }
    }

    /// The numbers under a name.
    pub fn of(&self, name: &str) -> &[usize]
        ensures { result.now ≡ grouped_under self.now name.now }
    {
        self.of_quarter(quarter_of(name)).of(name)
    }
}
