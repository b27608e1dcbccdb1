//! A change that was made, and how it is reverted.
ghost use Rattle.std.specs.Prelude.{◌≡◌, true, List, IfOk, OnOk, OnErr};
ghost use Rattle.td_rows.specs.declared.key.Key.{Key as KeyValue};
ghost use Rattle.td_rows.specs.declared.kind.Kind.{Kind as KindValue};
ghost use Rattle.td_rows.specs.Keys.{ascending};
ghost use Rattle.td_rows.specs.Kinds.{written};
ghost use Rattle.td_rows.specs.Table.{Table, keys_of, applied, AppliesOn};
ghost use Rattle.td_rows.specs.GivenBack.{given_back};
ghost use Rattle.td_change.specs.Saved.{saved, HaveRows};
ghost use Rattle.td_change.specs.Inside.{put_back};

use crate::plan::Plan;
use std::alloc::{AllocError, Global};
use std::marker::Model;
use td_rows::{Cells, Key, Kind, Row, Rows};

/// What an entry of the journal changed: of each row that it named, by the row's number, what
/// the cells were that its kind writes.
#[derive(Drop)]
pub struct Change {
    pub(crate) cells: Cells,
    pub(crate) kept: Vec<(usize, Row)>,
}

impl Model for Change {
    ghost use Rattle.td_change.specs.Saved.{Saved};

    ghost Value = { Saved };

    ghost view = { λ c. record { cells = c.cells; rows = c.kept.items } };
}

// Gives these cells of the rows with these numbers back.
fn put_back(rows: &mut Rows, cells: Cells, mut kept: Vec<(usize, Row)>)
    ensures { rows.new ≡ put_back cells kept.items rows.old }
{
    while let Some((number, row)) = kept.pop() {
        rows.restore(number, cells, row);
    }
}

impl Change {
    /// Makes of each row that the keys name what the kind means.
    pub fn make(
        alloc: Global,
        rows: &mut Rows,
        kind: &Kind,
        keys: &[Key],
    ) -> Result<Change, AllocError>
        requires rising { ascending keys.now ≡ true }
        requires applies { AppliesOn rows.old kind.now keys.now }
        ensures kept { IfOk result (λ change. change ≡ saved kind.now keys.now rows.old) }
        ensures ok { OnOk result (rows.new ≡ applied kind.now keys.now rows.old) }
        ensures err { OnErr result (rows.new ≡ rows.old) }
    {
        let plan = Plan::new(alloc, rows, kind, keys)?;
        Ok(plan.make(rows))
    }

    /// Gives the rows that the change named the kept cells back, as they were when it was made
    /// over rows with the same keys. Every other cell and row stays as it is. It takes no memory.
    pub fn revert(self, rows: &mut Rows)
        ensures { (kind : KindValue) (keys : List KeyValue) (was : Table)
            → self ≡ saved kind keys was →
            keys_of was ≡ keys_of rows.old → HaveRows was keys →
            rows.new ≡ given_back (written kind) keys was rows.old }
    {
        // (`len` says that the keys of the rows rise)
        let _rising = rows.len();
        let Change { cells, kept } = self;
        put_back(rows, cells, kept);
    }
}
