//! Priorities and rebuild numbers, each within its limit.
ghost use Rattle.std.specs.Prelude.{◌≡◌, ◌≤◌, ℕ, ℤ, pos, ◌≤ℤ◌, IsSome, IfSome, ◌↔◌};
ghost use Rattle.td_text.specs.Numbers.{number_at, signed_at};
ghost use Rattle.td_text.specs.Limits.{max_rebuild};
ghost use Rattle.td_rows.specs.Limits.{max_priority};
ghost use lib.IntN.{neg_ℤ};
ghost use Rattle.td_rows.specs.Numbers.{number_after};

use std::marker::Model;
use td_text::{MAX_REBUILD, rebuild_number, signed};

/// The largest priority; the least is its negative.
pub const MAX_PRIORITY: i16 = 9999;

/// How urgent a build is, from -9999 to 9999; a row opens with 0.
#[derive(Clone, Copy, PartialEq, Eq)]
pub struct Priority {
    value: i16,
}

impl Model for Priority {
    ghost Value = { ℤ };

    ghost view = { λ p. p.value };

    ghost invariant = { λ p.
        (neg_ℤ (pos max_priority) ≤ℤ p.value) × (p.value ≤ℤ pos max_priority) };

    ghost inverse = { λ z. record { value = z } };
}

impl Priority {
    /// The priority of a row that nobody gave another.
    pub fn zero() -> Priority
        ensures { result ≡ pos 0 }
    {
        Priority { value: 0 }
    }

    /// The priority of a number within the limits.
    pub fn new(value: i16) -> Option<Priority>
        ensures value { IfSome result (λ priority. priority ≡ value) }
        ensures within { IsSome result
            ↔ ((neg_ℤ (pos max_priority) ≤ℤ value) × (value ≤ℤ pos max_priority)) }
    {
        if -MAX_PRIORITY <= value && value <= MAX_PRIORITY {
            Some(Priority { value })
        } else {
            None
        }
    }

    /// The priority that a text writes: a number from -9999 to 9999, without spare characters.
    pub fn read(text: &str) -> Option<Priority>
        ensures { result ≡ signed_at max_priority text.now }
    {
        let value = signed(text, MAX_PRIORITY as u16)?;
        Priority::new(value)
    }

    /// The number.
    pub fn get(self) -> i16
        ensures value { result ≡ self }
        ensures low { neg_ℤ (pos max_priority) ≤ℤ self }
        ensures high { self ≤ℤ pos max_priority }
    {
        self.value
    }
}

/// The number of a rebuild, the `N` of `+bN`, from 0 (the source's own build) to 9999.
#[derive(Clone, Copy, PartialEq, Eq)]
pub struct RebuildNumber {
    number: u16,
}

impl Model for RebuildNumber {
    ghost Value = { ℕ };

    ghost view = { λ n. n.number };

    ghost invariant = { λ n. n.number ≤ max_rebuild };

    ghost inverse = { λ n. record { number = n } };
}

impl RebuildNumber {
    /// The number of a source's own build.
    pub fn zero() -> RebuildNumber
        ensures { result ≡ 0 }
    {
        RebuildNumber { number: 0 }
    }

    /// The rebuild number of a number within the limit.
    pub fn new(value: u16) -> Option<RebuildNumber>
        ensures value { IfSome result (λ number. number ≡ value) }
        ensures within { IsSome result ↔ (value ≤ max_rebuild) }
    {
        if value <= MAX_REBUILD {
            Some(RebuildNumber { number: value })
        } else {
            None
        }
    }

    /// The rebuild number that a text writes, without spare characters.
    pub fn read(text: &str) -> Option<RebuildNumber>
        ensures { result ≡ number_at max_rebuild text.now }
    {
        let value = rebuild_number(text)?;
        RebuildNumber::new(value)
    }

    /// The number.
    pub fn get(self) -> u16
        ensures value { result ≡ self }
        ensures within { self ≤ max_rebuild }
    {
        self.number
    }

    /// The number of the next rebuild: the one that is asked for, or one more than this.
    pub fn after(self, asked: Option<RebuildNumber>) -> RebuildNumber
        requires { number_after asked self ≤ max_rebuild }
        ensures { result ≡ number_after asked self }
    {
        match asked {
            Some(number) => number,
            None => RebuildNumber {
                number: self.number + 1,
            },
        }
    }
}
