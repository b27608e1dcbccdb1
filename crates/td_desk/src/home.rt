//! What a builder goes home with, and how many did.
ghost use Rattle.std.specs.Prelude.{◌≡◌, ◌+◌, ◌-◌, ◌<◌, ◌^◌, false, true};
ghost use Rattle.td_builder.specs.Floors.{IsIdle};
ghost use Rattle.td_core.specs.History.{rows_of};
ghost use Rattle.td_book.specs.Ready.{is_any_queued};
ghost use Rattle.td_desk.specs.Calls.{IsAtEnd};

use crate::hired::Hired;
use crate::locked::Locked;
use crate::named::Named;
use std::marker::PhantomData;
use std::sync::ledger::Ledger;

/// That a builder may go home. It is made of what lies under the lock, of a desk that is shut and
/// has no row that waits for a builder. It is no `Drop`, so it is counted: only `Homes` takes it,
/// with the builder's seat.
pub struct Home<N: Named> {
    of: PhantomData<N>,
    ghost at_end: { ∥ IsAtEnd N.table N.origin ∥₁ },
}

impl<N: Named> Home<N> {
    /// Made by what lies under the lock.
    pub(crate) fn of<C: Ledger>(locked: &Locked<'_, N, C>) -> Home<N>
        requires shut { locked.now.shut ≡ true }
        requires none { is_any_queued (rows_of locked.now.book.history) ≡ false }
    {
        let _of_desk = locked.book();
        Home { of: PhantomData }
    }
}

/// How many of the desk's builders have gone home. Only `hire` makes one, of all of them.
#[derive(Drop)]
pub struct Homes<N: Named> {
    builders: u64,
    count: u64,
    of: PhantomData<N>,
    ghost all: { builders ≡ N.origin.builders },
    ghost at_end: { 0 < count → ∥ IsAtEnd N.table N.origin ∥₁ },
}

impl<N: Named> Homes<N> {
    /// None of this many builders has gone home.
    pub(crate) fn none(builders: u64) -> Homes<N>
        requires { builders ≡ N.origin.builders }
        ensures { result.count ≡ 0 }
    {
        Homes {
            builders,
            count: 0,
            of: PhantomData,
        }
    }

    /// Another builder goes home. It has no row, and leaves its seat: nobody works with that now.
    pub fn add(&mut self, home: Home<N>, hired: Hired<N>)
        requires { IsIdle hired.seat }
        ensures { self.old.count < 2 ^ 64 - 1 → self.new.count ≡ self.old.count + 1 }
    {
        let Home { of: _ } = home;
        let _left = hired;
        self.count = self.count.saturating_add(1);
    }

    /// How many of the desk's builders are missing: those who haven't gone home.
    pub fn missing(&self) -> u64
        ensures missing { result ≡ N.origin.builders - self.now.count }
        ensures home { result < N.origin.builders → ∥ IsAtEnd N.table N.origin ∥₁ }
    {
        self.builders.saturating_sub(self.count)
    }
}
