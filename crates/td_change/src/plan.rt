//! A change that waits to be made, with all its memory.
ghost use Rattle.std.specs.Prelude.{◌≡◌, true, IfOk, map};
ghost use Rattle.td_rows.specs.Keys.{ascending};
ghost use Rattle.td_rows.specs.Table.{applied, AppliesOn};
ghost use Rattle.td_change.specs.Saved.{saved, HaveRows};
ghost use Rattle.td_change.specs.Plans.{plan_of, left, left_out};
ghost use Rattle.td_change.specs.Inside.{ready};

use crate::change::Change;
use crate::written::written_by;
use std::alloc::{AllocError, Global};
use std::collections::BTreeMap;
use std::marker::Model;
use td_rows::{Key, Kind, Row, Rows, texts_of};

/// A change that waits to be made: all its memory is taken. It is of rows with certain keys.
#[derive(Drop)]
pub struct Plan {
    kind: Kind,
    rows: BTreeMap<Key, (usize, Row)>,
    kept: Vec<(usize, Row)>,
}

impl Model for Plan {
    ghost use Rattle.std.specs.Prelude.{map, vec_capacity};
    ghost use Rattle.td_change.specs.Plans.{Planned};

    ghost Value = { Planned };

    ghost use Rattle.td_change.specs.Inside.{numbered, IsReady};

    ghost view = { λ p. record { kind = p.kind; rows = map numbered p.rows.entries } };

    ghost invariant = { λ p. IsReady p.kind p.rows.entries p.kept.items (vec_capacity p.kept) };
}

// The keys with the numbers of their rows, and copies of the kind's texts for each.
fn readied(
    alloc: Global,
    rows: &Rows,
    kind: &Kind,
    keys: &[Key],
) -> Result<BTreeMap<Key, (usize, Row)>, AllocError>
    requires rising { ascending keys.now ≡ true }
    requires rows { HaveRows rows.now keys.now }
    ensures { IfOk result (λ made. made.entries ≡ map (ready kind.now rows.now) keys.now) }
{
    // (`len` says that the keys of the rows rise)
    let _rising = rows.len();
    let mut made = BTreeMap::new(alloc);
    for key in keys {
        if let Some(number) = rows.number(key) {
            let texts = texts_of(alloc, kind)?;
            made.insert(key.copy()?, (number, texts))?;
        }
    }
    Ok(made)
}

impl Plan {
    /// Plans a change of the rows that the keys name.
    pub fn new(alloc: Global, rows: &Rows, kind: &Kind, keys: &[Key]) -> Result<Plan, AllocError>
        requires rising { ascending keys.now ≡ true }
        requires rows { HaveRows rows.now keys.now }
        ensures { IfOk result (λ plan. plan ≡ plan_of kind.now keys.now rows.now) }
    {
        Ok(Plan {
            kind: kind.copy()?,
            rows: readied(alloc, rows, kind, keys)?,
            kept: Vec::with_capacity(alloc, keys.len())?,
        })
    }

    /// Leaves a key out, if it is in the plan. It takes no memory.
    pub fn leave_out(&mut self, key: &Key)
        ensures { self.new ≡ left_out key.now self.old }
    {
        self.rows.remove(key);
    }

    /// Makes the change of the keys that are left, on rows that have the keys of those for which
    /// it was planned. It takes no memory.
    pub fn make(self, rows: &mut Rows) -> Change
        requires rows { self ≡ plan_of self.kind (left self) rows.old }
        requires applies { AppliesOn rows.old self.kind (left self) }
        ensures kept { result ≡ saved self.kind (left self) rows.old }
        ensures rows { rows.new ≡ applied self.kind (left self) rows.old }
    {
        // (`len` says that the keys of the rows rise)
        let _rising = rows.len();
        let Plan {
            kind,
            rows: mut planned,
            mut kept,
        } = self;
        while let Some((_, (number, mut row))) = planned.pop_first() {
            rows.change(number, &kind, &mut row);
            kept.push_reserved((number, row));
        }
        Change {
            cells: written_by(&kind),
            kept,
        }
    }
}
