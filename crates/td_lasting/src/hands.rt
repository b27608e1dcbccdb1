//! Which row each builder has.
ghost use Rattle.std.specs.Prelude.{◌≡◌, ◌-◌, Some, None, true, false, IfNone, IfOk, IfSome};
ghost use Rattle.std.specs.Prelude.{length};
ghost use Rattle.std.specs.Prelude.{option_map, replicate, slice_get, slice_set};
ghost use Rattle.td_rows.specs.declared.key.Key.{Key as KeyValue};
ghost use Rattle.td_rows.specs.declared.row.Row.{Row as RowValue};
ghost use Rattle.td_rows.specs.Limits.{max_builders};
ghost use Rattle.td_rows.specs.States.{is_building_by};
ghost use Rattle.td_journal.specs.EntryFits.{IsBuilder};
ghost use Rattle.td_lasting.specs.Hands.{AreInHand, held_by};

use std::alloc::{AllocError, Global};
use std::marker::Model;
use td_rows::{BuilderNo, Key, MAX_BUILDERS, Rows, State};

/// The number of the row that each of the builders has. A number may be that of a row which the
/// builder has no more; a row that it has is there. Contracts see the list.
#[derive(Drop)]
pub(crate) struct Hands {
    rows: Vec<Option<usize>>,
}

impl Model for Hands {
    ghost use Rattle.std.specs.Prelude.{◌≡◌, ℕ, List, Option, length};
    ghost use Rattle.td_rows.specs.Limits.{max_builders};

    ghost Value = { List (Option ℕ) };

    ghost view = { λ hands. hands.rows.items };

    ghost invariant = { λ hands. length hands.rows.items ≡ max_builders };
}

impl Hands {
    /// The hands of builders none of whom has a row.
    pub(crate) fn free(alloc: Global) -> Result<Hands, AllocError>
        ensures { IfOk result (λ hands. hands ≡ replicate max_builders None) }
    {
        let mut rows = Vec::with_capacity(alloc, MAX_BUILDERS as usize)?;
        for _ in 0..MAX_BUILDERS {
            rows.push(None)?;
        }
        Ok(Hands { rows })
    }

    /// The builder has the row with this number. It takes no memory.
    pub(crate) fn take(&mut self, builder: BuilderNo, number: usize)
        requires { IsBuilder builder }
        ensures taken { self.new ≡ slice_set self.old (builder - 1) (Some number) }
        ensures room { length self.old ≡ max_builders }
    {
        self.rows[(builder - 1) as usize] = Some(number);
    }

    /// The builder has no row. It takes no memory.
    pub(crate) fn release(&mut self, builder: BuilderNo)
        requires { IsBuilder builder }
        ensures { self.new ≡ slice_set self.old (builder - 1) None }
    {
        self.rows[(builder - 1) as usize] = None;
    }

    // The number that is kept for the builder.
    fn number_of(&self, builder: BuilderNo) -> Option<usize>
        requires { IsBuilder builder }
        ensures { slice_get self.now (builder - 1) ≡ Some result }
    {
        self.rows[(builder - 1) as usize]
    }

    /// The key of the row that the builder has, if it has one.
    pub(crate) fn held<'r>(&self, rows: &'r Rows, builder: BuilderNo) -> Option<&'r Key>
        requires builder { IsBuilder builder }
        requires hands { AreInHand rows.now self.now }
        ensures { option_map (λ k. k.now) result ≡ held_by rows.now builder }
    {
        match self.number_of(builder) {
            Some(number) => built_at(rows, number, builder),
            None => None,
        }
    }
}

// Whether a row in the state is the builder's.
fn is_built_by(state: State, builder: BuilderNo) -> bool
    ensures { result ≡ is_building_by builder state }
{
    matches!(state, State::Building(by) if by == builder)
}

// The key of the row with a number, where it is the builder's.
fn built_at(rows: &Rows, number: usize, builder: BuilderNo) -> Option<&Key>
    ensures some { IfSome result (λ k. (row : RowValue)
        × (slice_get rows.now number ≡ Some (k.now, row))
        × (is_building_by builder row.state ≡ true)) }
    ensures none { IfNone result ((k : KeyValue) (row : RowValue)
        → slice_get rows.now number ≡ Some (k, row) → is_building_by builder row.state ≡ false) }
{
    match rows.at(number) {
        Some((key, row)) => {
            if is_built_by(row.state, builder) {
                Some(key)
            } else {
                None
            }
        }
        None => None,
    }
}
