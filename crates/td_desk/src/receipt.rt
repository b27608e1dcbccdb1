//! Receipts of changes.
ghost use Rattle.std.specs.Prelude.{◌≡◌, ◌<◌, ◌↔◌, IsTrue, vec_capacity, vec_len};
ghost use Rattle.td_desk.specs.declared.receipt.Receipt.TheVariants as receipt;
ghost use Rattle.td_desk.specs.Receipts.{number_of};
ghost use Rattle.td_desk.specs.inner.Matching.{same_receipt, change_of};

use crate::matching::{same_keys, same_kind};
use td_journal::{Entry, EntryNo, Keys};
use td_rows::Kind;

/// What a clerk learns of a change that it made.
#[derive(Drop)]
pub enum Receipt {
    /// An entry was made, of a command or an arrival, on these keys.
    Made(EntryNo, Kind, Keys),
    /// A sweep was made.
    Swept(EntryNo),
    /// An entry was undone.
    Undid(EntryNo),
}

impl Receipt {
    /// The number of the entry that it is about.
    pub fn number(&self) -> EntryNo
        ensures { result ≡ number_of self.now }
    {
        match self {
            Receipt::Made(number, _, _) => *number,
            Receipt::Swept(number) => *number,
            Receipt::Undid(number) => *number,
        }
    }

    /// Whether it is the receipt of entry n, or of its undo.
    pub(crate) fn is_of(&self, n: EntryNo, entry: &Entry, undo: bool) -> bool
        ensures { result ≡ same_receipt self.now (change_of n entry.now.kind entry.now.keys undo) }
    {
        if undo {
            return matches!(self, Receipt::Undid(number) if *number == n);
        }
        match &entry.kind {
            Kind::Sweep => matches!(self, Receipt::Swept(number) if *number == n),
            _ => self.is_made(n, entry),
        }
    }

    // Whether it is the receipt of entry n, which is no sweep.
    fn is_made(&self, n: EntryNo, entry: &Entry) -> bool
        ensures { result ≡ same_receipt self.now (receipt.Made n entry.now.kind entry.now.keys) }
    {
        match self {
            Receipt::Made(number, kind, keys) => {
                *number == n
                    && same_kind(kind, &entry.kind)
                    && same_keys(keys.as_slice(), entry.keys.as_slice())
            }
            _ => false,
        }
    }
}

/// Whether there is room for a receipt more.
pub(crate) fn has_room(receipts: &Vec<Receipt>) -> bool
    ensures { IsTrue result ↔ (vec_len receipts.now < vec_capacity receipts.now) }
{
    receipts.len() < receipts.capacity()
}
