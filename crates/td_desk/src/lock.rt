//! The lock of a desk, and who waits at it for work.
ghost use Rattle.std.specs.Prelude.{◌≡◌, ◌||◌, false, length, not, true};
ghost use Rattle.std.specs.Sync.Mutex.{mutex_guard_value};
ghost use Rattle.td_core.specs.History.{rows_of};
ghost use Rattle.td_book.specs.Ready.{is_any_queued};
ghost use Rattle.td_desk.specs.Changes.{changes};

use crate::locked::{Locked, Shut};
use crate::named::Named;
use std::sync::ledger::{Ledger, Share};
use std::sync::{Condvar, Mutex, MutexGuard, Wait};

/// What lies under the lock. It is made open, and only `shut` shuts it: the fields are seen only
/// here.
#[derive(Drop)]
pub(crate) struct Lock<'a, N: Named, C: Ledger> {
    locked: Mutex<Locked<'a, N, C>>,
    changed: Condvar,
}

impl<'a, N: Named, C: Ledger> Lock<'a, N, C> {
    /// The lock of a desk that is open.
    pub(crate) fn new(locked: Locked<'a, N, C>) -> Lock<'a, N, C>
        requires { locked.shut ≡ false }
    {
        Lock {
            locked: Mutex::new(locked),
            changed: Condvar::new(),
        }
    }

    /// Waits for the lock, and takes it.
    pub(crate) fn lock<R: Wait>(&self, rt: &R) -> MutexGuard<'_, Locked<'a, N, C>> {
        self.locked.lock(rt)
    }

    /// Waits for the lock, and takes it for a clerk with this share of the ledger. A share with all
    /// parts counts as much as the book has changes.
    pub(crate) fn lock_as<R: Wait>(
        &self,
        rt: &R,
        mine: &mut Share<C>,
    ) -> MutexGuard<'_, Locked<'a, N, C>>
        ensures parts { mine.new.parts ≡ mine.old.parts }
        ensures amount { mine.new.amount ≡ mine.old.amount }
        ensures whole { mine.old.parts ≡ C.parts
            → mine.old.amount ≡ length (changes N.opened (mutex_guard_value result).book) }
    {
        let mut locked = self.locked.lock(rt);
        locked.audit(mine);
        locked
    }

    /// Wakes those who wait for work.
    pub(crate) fn wake(&self) {
        self.changed.notify_all();
    }

    /// Shuts the desk, and wakes those who wait.
    pub(crate) fn shut<R: Wait>(&self, rt: &R) -> Shut<N>
        requires { N.may_shut ≡ true }
    {
        let shut = self.locked.lock(rt).shut();
        self.wake();
        shut
    }

    /// Waits until a row waits for a builder, or the desk is shut, and takes the lock.
    pub(crate) fn lock_awake<R: Wait>(&self, rt: &R) -> MutexGuard<'_, Locked<'a, N, C>>
        ensures { ((mutex_guard_value result).shut
            || is_any_queued (rows_of (mutex_guard_value result).book.history)) ≡ true }
    {
        self.changed.wait_while(
            rt,
            self.locked.lock(rt),
            |locked| -> bool
                ensures now { locked.new ≡ locked.old }
                ensures idle { result
                    ≡ not (locked.old.shut || is_any_queued (rows_of locked.old.book.history)) }
            { locked.is_idle() },
        )
    }

    /// What lies under the lock.
    pub(crate) fn into_inner(self) -> Locked<'a, N, C> {
        self.locked.into_inner()
    }
}
