//! How the steps of a simulation are read.
ghost use Rattle.std.specs.Prelude.{◌≡◌, ◌<◌, ◌+◌, ◌^◌, length, IfOk, IfErr, List};
ghost use Rattle.td_text.specs.Lines.{lines_of, ended};
ghost use Rattle.td_simulate.specs.SimulationText.{AreSteps, StepsFault};

use crate::fault::SimulationFault;
use crate::step_line::read_step;
use std::alloc::Global;
use td_core::Step;
use td_text::{behind, next_line};

/// The steps of a text whose first line has the number `first`.
pub fn read_steps(alloc: Global, text: &str, first: usize) -> Result<Vec<Step>, SimulationFault>
    requires { first + length text.now < 2 ^ 64 }
    ensures found { IfOk result (λ steps. AreSteps (ended (lines_of text.now)) steps.items) }
    ensures fault { IfErr result (StepsFault first (ended (lines_of text.now))) }
{
    let mut steps = Vec::new(alloc);
    let mut rest = text;
    let mut number = first;
    while !rest.is_empty() {
        let (line, after) = next_line(rest);
        let Ok(read) = read_step(alloc, line) else {
            return Err(SimulationFault::NoMemory);
        };
        let Some(step) = read else {
            return Err(SimulationFault::BadStep(number));
        };
        let Ok(()) = steps.push(step) else {
            return Err(SimulationFault::NoMemory);
        };
        rest = behind(after);
        number += 1;
    }
    Ok(steps)
}
