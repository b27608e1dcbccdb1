//! The desk and its builders, without threads.
ghost use Rattle.std.specs.Prelude.{◌≡◌, ◌≤◌, IfOk, replicate};
ghost use Rattle.std.specs.Option.{option_copied};
ghost use Rattle.td_core.specs.History.{rows_of};
ghost use Rattle.td_core.specs.Phases.{NoneBuilt};
ghost use Rattle.td_core.specs.Worlds.{phase_of, hand_of, world_of, IsWorld};
ghost use Rattle.td_core.specs.Steps.{supply_of};
ghost use Rattle.td_supply.specs.Supply.{opened, stock_of};

use crate::books::Books;
use crate::step::{Hand, Phase};
use std::alloc::{AllocError, Global};
use std::marker::Model;
use td_journal::Journal;
use td_rows::{BuilderNo, Key, Rows};
use td_supply::Supply;

/// The desk and its builders, without threads: a history, the offers, a phase for each row and a
/// hand for each builder. It goes on step by step.
#[derive(Drop)]
pub struct World<'a> {
    pub(crate) kept: Books<'a>,
    pub(crate) phases: Vec<Phase>,
    pub(crate) hands: Vec<Hand>,
    pub(crate) alloc: Global,
}

impl<'a> Model for World<'a> {
    ghost use Rattle.td_core.specs.Worlds.{WorldView, IsWorld};

    ghost Value = { WorldView };

    ghost view = { λ w. record {
      history = w.kept.history;
      supply = w.kept.stock;
      phases = w.phases.items;
      hands = w.hands.items;
    } };

    ghost invariant = { λ w. IsWorld (record {
      history = w.kept.history;
      supply = w.kept.stock;
      phases = w.phases.items;
      hands = w.hands.items;
    }) };
}

// This many closed phases.
fn closed(alloc: Global, count: usize) -> Result<Vec<Phase>, AllocError>
    ensures { IfOk result (λ phases. phases.items ≡ replicate count Phase.Closed) }
{
    let mut phases = Vec::with_capacity(alloc, count)?;
    for _ in 0..count {
        phases.push(Phase::Closed)?;
    }
    Ok(phases)
}

// This many free hands.
fn free(alloc: Global, count: usize) -> Result<Vec<Hand>, AllocError>
    ensures { IfOk result (λ hands. hands.items ≡ replicate count Hand.Free) }
{
    let mut hands = Vec::with_capacity(alloc, count)?;
    for _ in 0..count {
        hands.push(Hand::Free)?;
    }
    Ok(hands)
}

impl<'a> World<'a> {
    ghost use Rattle.td_rows.specs.Limits.{max_builders};

    /// The world of these rows and offers before its first step: no row is offered, and all hands
    /// are free.
    pub fn open(
        alloc: Global,
        rows: Rows,
        supply: Supply<'a>,
        builders: usize,
    ) -> Result<World<'a>, AllocError>
        requires builders { builders ≤ max_builders }
        requires idle { NoneBuilt rows }
        requires fresh { supply ≡ opened (stock_of supply) }
        ensures { IfOk result (λ world. world ≡ world_of rows (stock_of supply.entry) builders) }
    {
        let phases = closed(alloc, rows.len())?;
        let hands = free(alloc, builders)?;
        let kept = Books::open(alloc, rows, supply)?;
        Ok(World {
            kept,
            phases,
            hands,
            alloc,
        })
    }

    /// The rows as they are.
    pub fn rows(&self) -> &Rows
        ensures rows { result.now ≡ rows_of self.now.history }
        ensures world { IsWorld self.now }
    {
        self.kept.rows()
    }

    /// The entries with their marks.
    pub fn journal(&self) -> &Journal
        ensures { result.now.entries ≡ self.now.history.journal }
    {
        self.kept.journal()
    }

    /// What is on offer now: the index's offers, and instead of those whose build has arrived, the
    /// rebuild with the number that its row had then.
    pub fn supply(&self) -> &Supply<'a>
        ensures { result.now ≡ supply_of self.now }
    {
        self.kept.supply()
    }

    /// The phase of a key's row.
    pub fn phase(&self, key: &Key) -> Option<&Phase>
        ensures { option_copied result ≡ phase_of self.now key.now }
    {
        self.phases.get(self.kept.rows().number(key)?)
    }

    /// What a builder has in hand.
    pub fn hand(&self, builder: BuilderNo) -> Option<&Hand>
        ensures { option_copied result ≡ hand_of self.now builder }
    {
        if builder == 0 {
            return None;
        }
        self.hands.get((builder - 1) as usize)
    }
}
