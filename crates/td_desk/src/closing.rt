//! The closing of a desk.
ghost use Rattle.std.specs.Prelude.{◌≡◌, ◌+◌, ◌<◌, ◌≤◌, ◌∷◌, ◌↔◌, length, false, true, IfOk, IfErr};
ghost use Rattle.std.specs.Prelude.{IsPermutation, IsTrue, MatchBool};
ghost use Rattle.td_desk.specs.Changes.{changes, still_undone};
ghost use Rattle.td_desk.specs.Clerks.{all_parts, all_receipts};
ghost use Rattle.td_desk.specs.GoingOn.{Begins};
ghost use Rattle.td_desk.specs.inner.Ticks.{AreBegun, Takes, TooMany, left_from, is_in};
ghost use Rattle.td_desk.specs.inner.Ticks.{are_ticked as are_ticked_in};

use crate::clerk::Clerk;
use crate::desk::Desk;
use crate::locked::Locked;
use crate::named::Named;
use crate::receipt::Receipt;
use crate::tick::{Tick, is_ticked, tick_at};
use std::sync::ledger;
use std::sync::ledger::{Ledger, Share};
use td_book::Book;
use td_journal::Marked;

/// The book and the clerks of a desk, if the receipts aren't the book's changes.
#[derive(Drop)]
pub struct Differ<'a, C: Ledger> {
    pub book: Book<'a>,
    pub clerks: Vec<Clerk<C>>,
}

impl<'a, N: Named, C: Ledger> Desk<'a, N, C> {
    /// The book, if the receipts of these clerks are its changes, each once. It takes no memory.
    pub fn close(self, clerks: Vec<Clerk<C>>) -> Result<Book<'a>, Differ<'a, C>>
        ensures ok { IfOk result (λ book.
            IsPermutation (all_receipts clerks.items) (changes N.opened book)) }
        ensures err { IfErr result (λ differ.
            (IsPermutation (all_receipts clerks.items) (changes N.opened differ.book) → ⊥)
            × (differ.clerks.items ≡ clerks.items)) }
        ensures table_ok { IfOk result (λ book. book.fixed.table ≡ N.table) }
        ensures table_err { IfErr result (λ differ. differ.book.fixed.table ≡ N.table) }
        ensures origin_ok { IfOk result (λ book. book.history.opening ≡ N.origin.rows) }
        ensures origin_err { IfErr result (λ differ. differ.book.history.opening ≡ N.origin.rows) }
        ensures stock_ok { IfOk result (λ book. book.fixed.stock ≡ N.origin.stock) }
        ensures stock_err { IfErr result (λ differ. differ.book.fixed.stock ≡ N.origin.stock) }
        ensures staff_ok { IfOk result (λ book. book.fixed.builders ≡ N.origin.builders) }
        ensures staff_err { IfErr result (λ differ.
            differ.book.fixed.builders ≡ N.origin.builders) }
        ensures began_ok { IfOk result (λ book. Begins N.origin book.history.journal) }
        ensures began_err { IfErr result (λ differ.
            Begins N.origin differ.book.history.journal) }
        ensures still_ok { IfOk result (λ book.
            still_undone book.history.journal N.opened ≡ true) }
        ensures still_err { IfErr result (λ differ.
            still_undone differ.book.history.journal N.opened ≡ true) }
        ensures whole { IfErr result (λ differ.
            all_parts clerks.items ≡ 1024
            → length (all_receipts clerks.items) ≡ length (changes N.opened differ.book)) }
    {
        let Desk { locked, .. } = self;
        let Locked {
            book,
            mut ledger,
            ticks,
            ..
        } = locked.into_inner();
        let mut clerks = clerks;
        audit(&mut ledger, &mut clerks);
        if are_changes::<N, C>(&book, ticks, &clerks) {
            Ok(book)
        } else {
            Err(Differ { book, clerks })
        }
    }
}

// Does nothing. Its clause says that clerks who have all parts have as many receipts as the ledger
// counts.
fn audit<C: Ledger>(ledger: &mut ledger::Book<C>, clerks: &mut Vec<Clerk<C>>)
    ensures clerks { clerks.new.items ≡ clerks.old.items }
    ensures total { ledger.new.total ≡ ledger.old.total }
    ensures whole { all_parts clerks.old.items ≡ 1024
        → length (all_receipts clerks.old.items) ≡ ledger.old.total }
{
    if let Some((first, rest)) = clerks.split_first_mut() {
        let Clerk { share, .. } = first;
        audit_rest(ledger, share, rest);
    }
}

// Audits a share and the clerks after it, as `audit` does. The share has a part.
fn audit_rest<C: Ledger>(ledger: &mut ledger::Book<C>, pot: &mut Share<C>, rest: &mut [Clerk<C>])
    requires { 0 < pot.old.parts }
    ensures parts { pot.new.parts ≡ pot.old.parts }
    ensures amount { pot.new.amount ≡ pot.old.amount }
    ensures rest { rest.new ≡ rest.old }
    ensures total { ledger.new.total ≡ ledger.old.total }
    ensures whole { pot.old.parts + all_parts rest.old ≡ C.parts
        → pot.old.amount + length (all_receipts rest.old) ≡ ledger.old.total }
{
    let Some((clerk, more)) = rest.split_first_mut() else {
        ledger.audit(pot);
        return;
    };
    let Clerk {
        share,
        parts,
        receipts,
    } = clerk;
    let (number, held) = (*parts, receipts.len() as u64);
    share.give(pot, number, held);
    audit_rest(ledger, pot, more);
    pot.give(share, number, held);
}

// Whether the receipts of the clerks are the changes of the book, each once.
fn are_changes<N: Named, C: Ledger>(
    book: &Book<'_>,
    ticks: Vec<Tick>,
    clerks: &Vec<Clerk<C>>,
) -> bool
    requires { AreBegun N.opened (length book.now.history.journal) ticks.items }
    ensures { IsTrue result
        ↔ IsPermutation (all_receipts clerks.now.items) (changes N.opened book.now) }
{
    let mut ticks = ticks;
    let entries = book.journal().as_slice();
    if !tick_clerks(entries, &mut ticks, clerks) {
        return false;
    }
    are_ticked(entries, &ticks)
}

// Ticks a change for each receipt of the clerks, while there is one.
fn tick_clerks<C: Ledger>(entries: &[Marked], ticks: &mut Vec<Tick>, clerks: &Vec<Clerk<C>>) -> bool
    requires { length entries.now ≤ length ticks.old.items }
    ensures len { length ticks.new.items ≡ length ticks.old.items }
    ensures took { MatchBool result
        (Takes (all_receipts clerks.now.items) (left_from 1 entries.now ticks.old.items)
        (left_from 1 entries.now ticks.new.items))
        (TooMany (all_receipts clerks.now.items) (left_from 1 entries.now ticks.old.items)) }
{
    for at in 0..clerks.len() {
        if !tick_receipts(entries, ticks, &clerks[at].receipts) {
            return false;
        }
    }
    true
}

// Ticks a change for each receipt of a list, while there is one.
fn tick_receipts(entries: &[Marked], ticks: &mut Vec<Tick>, receipts: &Vec<Receipt>) -> bool
    requires { length entries.now ≤ length ticks.old.items }
    ensures len { length ticks.new.items ≡ length ticks.old.items }
    ensures took { MatchBool result
        (Takes receipts.now.items (left_from 1 entries.now ticks.old.items)
        (left_from 1 entries.now ticks.new.items))
        (TooMany receipts.now.items (left_from 1 entries.now ticks.old.items)) }
{
    for at in 0..receipts.len() {
        if !tick_receipt(entries, ticks, &receipts[at]) {
            return false;
        }
    }
    true
}

// Ticks the change of a receipt, if there is one: the entry is found by its number.
fn tick_receipt(entries: &[Marked], ticks: &mut Vec<Tick>, receipt: &Receipt) -> bool
    requires { length entries.now ≤ length ticks.old.items }
    ensures len { length ticks.new.items ≡ length ticks.old.items }
    ensures took { MatchBool result
        (IsPermutation (receipt.now ∷ left_from 1 entries.now ticks.new.items)
        (left_from 1 entries.now ticks.old.items))
        (is_in receipt.now (left_from 1 entries.now ticks.old.items) ≡ false) }
{
    let n = receipt.number();
    if n == 0 || n > entries.len() as u64 {
        return false;
    }
    let at = (n - 1) as usize;
    tick_at(&mut ticks[at], n, &entries[at], receipt)
}

// Whether each change of the entries is ticked.
fn are_ticked(entries: &[Marked], ticks: &Vec<Tick>) -> bool
    requires { length entries.now ≤ length ticks.now.items }
    ensures { result ≡ are_ticked_in entries.now ticks.now.items }
{
    for at in 0..entries.len() {
        if !is_ticked(ticks[at], &entries[at]) {
            return false;
        }
    }
    true
}
