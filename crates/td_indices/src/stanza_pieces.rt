//! The stanzas of a file that was read as a whole, or in pieces.
use std::alloc::{AllocError, Global};
use std::marker::Model;
use td_stanza::{Stanza, StanzaList};

/// The stanzas of a few lists, one list after the other. Contracts see all of them as one list.
#[derive(Drop)]
pub struct StanzaPieces<'a> {
    pieces: Vec<StanzaList<'a>>,
    // How many there are in all.
    count: usize,
}

impl<'a> Model for StanzaPieces<'a> {
    ghost use Rattle.std.specs.Prelude.{◌≡◌, List, length};
    ghost use Rattle.td_stanza.specs.Field.{Entry};
    ghost use Rattle.td_indices.specs.inner.Pieces.{all_of};

    ghost Value = { List (List Entry) };

    ghost view = { λ p. all_of p.pieces.items };

    ghost invariant = { λ p. p.count ≡ length (all_of p.pieces.items) };
}

impl<'a> StanzaPieces<'a> {
    ghost use Rattle.std.specs.Prelude.{◌≡◌, ◌≤◌, ◌++◌, IfOk, IfSome, length, option_map, slice_get};
    ghost use Rattle.td_stanza.specs.Table.{fields_of};

    /// The stanzas of one list.
    #[tactic(auto, using(crate::proofs::Pieces::all_of_one))]
    pub fn whole(alloc: Global, list: StanzaList<'a>) -> Result<StanzaPieces<'a>, AllocError>
        ensures { IfOk result (λ pieces. pieces ≡ list.entry) }
    {
        let count = list.len();
        let mut pieces = Vec::new(alloc);
        pieces.push(list)?;
        Ok(StanzaPieces { pieces, count })
    }

    /// The stanzas of some pieces and of others after them; `None` if there are more than a `usize`
    /// counts, or memory runs out.
    pub fn joined(front: StanzaPieces<'a>, rest: StanzaPieces<'a>) -> Option<StanzaPieces<'a>>
        ensures { IfSome result (λ list. list ≡ front.entry ++ rest.entry) }
    {
        let count = front.len().checked_add(rest.len())?;
        let mut all = front;
        let mut more = rest;
        match all.pieces.append(&mut more.pieces) {
            Ok(()) => {
                all.count = count;
                Some(all)
            }
            Err(_) => None,
        }
    }

    /// How many stanzas there are.
    pub fn len(&self) -> usize
        ensures { result ≡ length self.now }
    {
        self.count
    }

    /// The stanza with this number, from 0.
    pub fn stanza(&self, number: usize) -> Option<Stanza<'_, 'a>>
        ensures value { option_map fields_of result ≡ slice_get self.now number }
    {
        let mut left = number;
        for piece in &self.pieces {
            let count = piece.len();
            if left < count {
                return piece.stanza(left);
            }
            left -= count;
        }
        None
    }

    // Half of how many pieces begin after one stanza and before another.
    fn half_the_cuts(&self, from: usize, to: usize) -> usize {
        let mut start: usize = 0;
        let mut cuts: usize = 0;
        for piece in &self.pieces {
            if from < start && start < to {
                cuts = cuts.saturating_add(1);
            }
            start = start.saturating_add(piece.len());
        }
        cuts / 2
    }

    /// A number in the middle between those of two stanzas: where there are pieces between them the
    /// first of the piece in their middle, so that each half has about as much text.
    pub fn middle(&self, from: usize, to: usize) -> usize
        requires { from ≤ to }
        ensures { (from ≤ result) × (result ≤ to) }
    {
        let mut left = self.half_the_cuts(from, to);
        let mut start: usize = 0;
        for piece in &self.pieces {
            if from < start && start < to {
                if left == 0 {
                    return start;
                }
                left -= 1;
            }
            start = start.saturating_add(piece.len());
        }
        from + (to - from) / 2
    }
}
