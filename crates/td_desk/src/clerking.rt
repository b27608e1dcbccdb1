//! The calls of clerks: each under the lock, with its receipt.
ghost use Rattle.std.specs.Prelude.{◌≡◌, ◌∷◌, [], IfOk, OnOk, OnErr, MatchOption};
ghost use Rattle.td_wbread.specs.Views.{parts_of};
ghost use Rattle.td_desk.specs.declared.receipt.Receipt.TheVariants as receipt;
ghost use Rattle.td_desk.specs.Calls.{Commanding, Undoing, Arriving, Sweeping, IsMetBy};
ghost use Rattle.td_desk.specs.Calls.{arrival_receipt};
ghost use Rattle.td_desk.specs.Clerks.{with_receipt};

use crate::answers::{Arrived, Commanded, Swept, Undone};
use crate::clerk::Clerk;
use crate::desk::Desk;
use crate::named::Named;
use std::snapshot::Snapshot;
use std::sync::Wait;
use std::sync::ledger::Ledger;
use td_journal::EntryNo;
use td_rows::Key;
use td_wbread::Command;

impl<'a, N: Named, C: Ledger> Desk<'a, N, C> {
    /// A command by a clerk. The receipt has the rows that the command names, without those that
    /// the answer skips. If the clerk has all parts, the book that answers has as many changes as
    /// the clerk has receipts, here and at its other calls.
    pub fn command<'c, R: Wait>(
        &self,
        rt: &R,
        clerk: &mut Clerk<C>,
        command: &Command<'c>,
    ) -> Commanded<'c, N>
        ensures answer { Commanding (parts_of command.now)
            (IsMetBy N.table N.origin N.opened clerk.old.parts clerk.old.receipts)
            clerk.old clerk.new result.answer }
        ensures err { OnErr result.answer (clerk.new ≡ clerk.old) }
        ensures command { result.command.value ≡ command.now }
    {
        let _ = clerk.receipts.reserve(1);
        let mut locked = self.locked.lock_as(rt, &mut clerk.share);
        let before = Snapshot::of(locked.book());
        let answer = locked.command(
            self.alloc,
            &self.board,
            &mut clerk.share,
            &mut clerk.receipts,
            command,
        );
        let commanded = Commanded::of(before, &locked, command, answer);
        drop(locked);
        self.locked.wake();
        commanded
    }

    /// An undo by a clerk. Room for its receipt is made before the lock is taken. A lack of room is
    /// answered after the marks were asked.
    pub fn undo<R: Wait>(&self, rt: &R, clerk: &mut Clerk<C>, n: EntryNo) -> Undone<N>
        ensures ok { OnOk result.answer (clerk.new ≡ with_receipt (receipt.Undid n) clerk.old) }
        ensures err { OnErr result.answer (clerk.new ≡ clerk.old) }
        ensures answer { Undoing n
            (IsMetBy N.table N.origin N.opened clerk.old.parts clerk.old.receipts) result.answer }
        ensures entry { result.entry ≡ n }
    {
        let _ = clerk.receipts.reserve(1);
        let mut locked = self.locked.lock_as(rt, &mut clerk.share);
        let before = Snapshot::of(locked.book());
        let answer = locked.undo(&self.board, &mut clerk.share, &mut clerk.receipts, n);
        let undone = Undone::of(before, &locked, n, answer);
        drop(locked);
        self.locked.wake();
        undone
    }

    /// An arrival by a clerk. Room for its receipt is made before the lock is taken. A lack of room
    /// is answered after the row was asked for.
    pub fn arrive<R: Wait>(&self, rt: &R, clerk: &mut Clerk<C>, key: &Key) -> Arrived<N>
        ensures ok { IfOk result.answer (λ n.
            clerk.new ≡ with_receipt (arrival_receipt key.now n) clerk.old) }
        ensures err { OnErr result.answer (clerk.new ≡ clerk.old) }
        ensures answer { Arriving key.now
            (IsMetBy N.table N.origin N.opened clerk.old.parts clerk.old.receipts) result.answer }
        ensures key { result.key.value ≡ key.now }
    {
        let _ = clerk.receipts.reserve(1);
        let mut locked = self.locked.lock_as(rt, &mut clerk.share);
        let before = Snapshot::of(locked.book());
        let answer = locked.arrive(&mut clerk.share, &mut clerk.receipts, key, self.alloc);
        let arrived = Arrived::of(before, &locked, key, answer);
        drop(locked);
        self.locked.wake();
        arrived
    }

    /// A sweep by a clerk. One that finds nothing leaves no receipt.
    pub fn sweep<R: Wait>(&self, rt: &R, clerk: &mut Clerk<C>) -> Swept<N>
        ensures ok { IfOk result.answer (λ swept. MatchOption swept
            (clerk.new ≡ clerk.old)
            (λ n. clerk.new ≡ with_receipt (receipt.Swept n) clerk.old)) }
        ensures err { OnErr result.answer (clerk.new ≡ clerk.old) }
        ensures answer { Sweeping
            (IsMetBy N.table N.origin N.opened clerk.old.parts clerk.old.receipts) result.answer }
    {
        let _ = clerk.receipts.reserve(1);
        let mut locked = self.locked.lock_as(rt, &mut clerk.share);
        let before = Snapshot::of(locked.book());
        let answer = locked.sweep(&self.board, &mut clerk.share, &mut clerk.receipts);
        let swept = Swept::of(before, &locked, answer);
        drop(locked);
        self.locked.wake();
        swept
    }
}
