//! A list of steps, taken one after the other.
ghost use Rattle.std.specs.Prelude.{◌≡◌, ◌≤◌, IfOk, OnOk};
ghost use Rattle.td_rows.specs.Limits.{max_builders};
ghost use Rattle.td_core.specs.Phases.{NoneBuilt};
ghost use Rattle.td_core.specs.Steps.{answers_to, after_all};
ghost use Rattle.td_core.specs.Worlds.{world_of};
ghost use Rattle.td_supply.specs.Supply.{opened, stock_of};

use crate::step::{Answer, Step};
use crate::world::World;
use std::alloc::{AllocError, Global};
use td_rows::Rows;
use td_supply::Supply;

// Takes the steps one after the other, and answers each.
fn answer_all(
    alloc: Global,
    world: &mut World<'_>,
    steps: Vec<Step>,
) -> Result<Vec<Answer>, AllocError>
    ensures world { OnOk result (world.new ≡ after_all world.old steps.items) }
    ensures answers { IfOk result (λ answers. answers.items ≡ answers_to world.old steps.items) }
{
    let mut answers = Vec::with_capacity(alloc, steps.len())?;
    for step in steps {
        answers.push(world.try_step(step)?)?;
    }
    Ok(answers)
}

/// Takes steps one after the other, from rows of which none is built, and answers each.
pub fn run<'a>(
    alloc: Global,
    rows: Rows,
    supply: Supply<'a>,
    builders: usize,
    steps: Vec<Step>,
) -> Result<(World<'a>, Vec<Answer>), AllocError>
    requires builders { builders ≤ max_builders }
    requires idle { NoneBuilt rows }
    requires fresh { supply ≡ opened (stock_of supply) }
    ensures world { IfOk result
        (λ end. end.0 ≡ after_all (world_of rows (stock_of supply.entry) builders) steps.items) }
    ensures answers { IfOk result (λ end.
        end.1.items ≡ answers_to (world_of rows (stock_of supply.entry) builders) steps.items) }
{
    let mut world = World::open(alloc, rows, supply, builders)?;
    let answers = answer_all(alloc, &mut world, steps)?;
    Ok((world, answers))
}
