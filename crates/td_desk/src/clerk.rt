//! Clerks.
ghost use Rattle.std.specs.Prelude.{◌≡◌, ◌+◌, ◌++◌, [], MatchOption, OnOk, IfErr};

use crate::receipt::Receipt;
use std::marker::Model;
use std::sync::ledger::{Ledger, Share};

/// Some parts of the ledger of a desk's changes, with a receipt of each change that was made with
/// them. Contracts see how many parts, and the receipts.
#[derive(Drop)]
pub struct Clerk<C: Ledger> {
    pub(crate) share: Share<C>,
    pub(crate) parts: u64,
    pub(crate) receipts: Vec<Receipt>,
}

impl<C: Ledger> Model for Clerk<C> {
    ghost use Rattle.td_desk.specs.Clerks.{ClerkModel};

    ghost Value = { ClerkModel };

    ghost use Rattle.std.specs.Prelude.{◌≡◌, ◌<◌, length};

    ghost view = { λ c. record { parts = c.parts; receipts = c.receipts.items } };

    ghost invariant = { λ c.
        (c.share.parts ≡ c.parts) × (0 < c.parts) × (C.parts ≡ 1024)
        × (c.share.amount ≡ length c.receipts.items) };
}

impl<C: Ledger> Clerk<C> {
    /// Gives one part away, without receipts. None if there is only one.
    pub fn part(&mut self) -> Option<Clerk<C>>
        ensures { MatchOption result
            ((self.old.parts ≡ 1) × (self.new ≡ self.old))
            (λ given. (self.new.parts + 1 ≡ self.old.parts)
            × (self.new.receipts ≡ self.old.receipts)
            × (given ≡ record { parts = 1; receipts = [] })) }
    {
        if self.parts == 1 {
            return None;
        }
        let share = self.share.split_off(1, 0);
        self.parts -= 1;
        Some(Clerk {
            share,
            parts: 1,
            receipts: Vec::new(*self.receipts.allocator()),
        })
    }

    /// Takes another clerk's parts and receipts. If memory runs out, the other is handed back.
    pub fn join(&mut self, other: Clerk<C>) -> Result<(), Clerk<C>>
        ensures ok { OnOk result
            (self.new ≡ record {
              parts = self.old.parts + other.parts;
              receipts = self.old.receipts ++ other.receipts;
            }) }
        ensures err { IfErr result (λ back. (back ≡ other) × (self.new ≡ self.old)) }
    {
        let mut other = other;
        if self.receipts.append(&mut other.receipts).is_err() {
            return Err(other);
        }
        let Clerk { share, parts, .. } = other;
        self.share.merge(share);
        self.parts += parts;
        Ok(())
    }

    /// The receipts, in the order in which it was given them.
    pub fn receipts(&self) -> &[Receipt]
        ensures { result.now ≡ self.now.receipts }
    {
        &self.receipts
    }

    /// How many parts it has, from 1 to 1,024.
    pub fn parts(&self) -> u64
        ensures { result ≡ self.now.parts }
    {
        self.parts
    }
}
