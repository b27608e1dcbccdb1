//! What looks at the book of a desk, and what it saw there. A closure can't say what it saw as a
//! type can: `look` learns nothing of one that captures a value of a type parameter.
ghost use Rattle.std.specs.Prelude.{◌≡◌};
ghost use Rattle.td_book.specs.Desk.{BookModel};
ghost use Rattle.td_desk.specs.Calls.{IsMetBy, IsOfDesk};

use crate::clerk::Clerk;
use crate::desk::Desk;
use crate::locked::Locked;
use crate::named::Named;
use std::marker::PhantomData;
use std::snapshot::Snapshot;
use std::sync::Wait;
use std::sync::ledger::Ledger;
use td_book::Book;
use td_builder::Tells;

/// What looks at a book that is lent to it, and answers something.
pub trait Looks<T> {
    ghost use Rattle.td_book.specs.Desk.{BookModel};

    /// What has to hold of it, whichever book it is lent.
    ghost asks: { Self → Type 0 };

    /// What it may answer to a book.
    ghost sees: { Self → BookModel → T → Type 0 };

    fn see(&self, book: &Book<'_>) -> T
        requires { asks self.now }
        ensures { sees self.now book.now result };
}

/// What was seen of the book under the lock, and what looked. It is made there, by looking: no body
/// can make one up.
pub struct Seen<N: Named, L, T> {
    answer: T,
    by: Snapshot<L>,
    of: PhantomData<N>,
}

impl<N: Named, L: Looks<T>, T> Seen<N, L, T> {
    /// What this sees of what lies under the lock.
    pub(crate) fn of<C: Ledger>(locked: &Locked<'_, N, C>, by: &L) -> Seen<N, L, T>
        requires { L.asks by.now }
        ensures by { result.by.value ≡ by.now }
        ensures sees { L.sees by.now locked.now.book result.answer }
        ensures of_desk { IsOfDesk N.table N.origin locked.now.book }
    {
        let answer = by.see(locked.book());
        Seen {
            answer,
            by: Snapshot::of(by),
            of: PhantomData,
        }
    }
}

impl<N: Named, L, T> Tells<T> for Seen<N, L, T> {
    ghost tells = { λ seen. seen.answer };

    fn answer(self) -> T {
        let Seen {
            answer,
            by: _,
            of: _,
        } = self;
        answer
    }
}

impl<'a, N: Named, C: Ledger> Desk<'a, N, C> {
    /// Lends the locked book to what looks at it.
    pub fn show<T, L: Looks<T>, R: Wait>(&self, rt: &R, to: &L) -> T
        requires { L.asks to.now }
        ensures { (book : BookModel) × IsOfDesk N.table N.origin book × L.sees to.now book result }
    {
        let locked = self.locked.lock(rt);
        to.see(locked.book())
    }

    /// Lends the locked book to what looks at it for a clerk. If the clerk has all parts, the book
    /// has as many changes as the clerk has receipts.
    pub fn show_as<T, L: Looks<T>, R: Wait>(
        &self,
        rt: &R,
        clerk: &mut Clerk<C>,
        to: &L,
    ) -> Seen<N, L, T>
        requires { L.asks to.now }
        ensures same { clerk.new ≡ clerk.old }
        ensures by { result.by.value ≡ to.now }
        ensures seen { (book : BookModel)
            × IsMetBy N.table N.origin N.opened clerk.old.parts clerk.old.receipts book
            × L.sees to.now book result.answer }
    {
        let locked = self.locked.lock_as(rt, &mut clerk.share);
        Seen::of(&locked, to)
    }
}
