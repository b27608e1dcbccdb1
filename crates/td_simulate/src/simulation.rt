//! A simulation: its text, read, and its answer.
ghost use Rattle.std.specs.Prelude.{◌≡◌, ◌∷◌, ◌++◌, List, map, codes};
ghost use Rattle.std.specs.Prelude.{IfOk, IfErr, OnOk, MatchResult};
ghost use Rattle.std.specs.List.{list_any};
ghost use Rattle.std.specs.String.{string_bytes};
ghost use Rattle.td_rows.specs.Limits.{max_builders};
ghost use Rattle.td_text.specs.Lines.{text_of};
ghost use Rattle.td_rows.specs.RowLine.{row_line};
ghost use Rattle.td_rows.specs.Table.{Table};
ghost use Rattle.td_core.specs.declared.step.Step.{Step as StepValue};
ghost use Rattle.td_core.specs.Phases.{NoneBuilt};
ghost use Rattle.td_core.specs.Steps.{after_all, answers_to};
ghost use Rattle.td_core.specs.Worlds.{world_of};
ghost use Rattle.td_supply.specs.Supply.{nothing};
ghost use Rattle.td_simulate.specs.Answers.{answer_line, is_refused};
ghost use Rattle.td_simulate.specs.Output.{Tells};
ghost use Rattle.td_simulate.specs.SimulationText.{IsSimulation, FaultOf};

use crate::answer_line::put_answer_line;
use crate::fault::{SimulationFault, of_opening};
use crate::parts::parts_of;
use crate::steps_reading::read_steps;
use std::alloc::{AllocError, Global};
use td_core::{Answer, Step, World, run};
use td_rows::{MAX_BUILDERS, Rows, read_state, rows_text};
use td_supply::Supply;

/// The answer to a simulation.
#[derive(Drop)]
pub struct Simulated {
    /// A line for each answer, the word `rows`, and a line for each row.
    pub text: String,
    /// Whether a step was refused.
    pub refused: bool,
}

/// The opening rows and the steps of a text: row lines as those of a state file, the line
/// `steps`, and a line for each step. Without a line `steps` there are no steps.
pub fn read_simulation(alloc: Global, text: &str) -> Result<(Rows, Vec<Step>), SimulationFault>
    // What is read is what the text says.
    ensures found { IfOk result (λ read. IsSimulation text.now read.0 read.1.items) }
    // What is a simulation is read, unless memory runs out.
    ensures only { (t : Table) (ss : List StepValue) → IsSimulation text.now t ss
        → MatchResult result (λ read. (read.0 ≡ t) × (read.1.items ≡ ss))
        (λ e. e ≡ SimulationFault.NoMemory) }
    ensures fault { IfErr result (FaultOf text.now) }
{
    let parts = parts_of(text);
    let rows = match read_state(alloc, parts.opening) {
        Ok(rows) => rows,
        Err(fault) => return Err(of_opening(fault)),
    };
    match read_steps(alloc, parts.steps, parts.first) {
        Ok(steps) => Ok((rows, steps)),
        Err(fault) => Err(fault),
    }
}

// Appends the lines of the answers.
fn put_answers(out: &mut String, answers: &[Answer]) -> Result<(), AllocError>
    ensures { OnOk result
        (string_bytes out.new ≡ string_bytes out.old ++ text_of (map answer_line answers.now)) }
{
    for answer in answers {
        put_answer_line(out, answer)?;
        out.push_str("\n")?;
    }
    Ok(())
}

fn any_refused(answers: &[Answer]) -> bool
    ensures { result ≡ list_any is_refused answers.now }
{
    answers
        .iter()
        .any(|answer| matches!(answer, Answer::Refused(_)))
}

// The steps from these rows, one after the other, where nothing is on offer.
fn run_without_offers<'a>(
    alloc: Global,
    rows: Rows,
    steps: Vec<Step>,
) -> Result<(World<'a>, Vec<Answer>), AllocError>
    requires { NoneBuilt rows }
    ensures world { IfOk result (λ end.
        end.0 ≡ after_all (world_of rows nothing max_builders) steps.items) }
    ensures answers { IfOk result (λ end.
        end.1.items ≡ answers_to (world_of rows nothing max_builders) steps.items) }
{
    let builders = MAX_BUILDERS as usize;
    run(alloc, rows, Supply::empty(alloc), builders, steps)
}

// The text of these answers, and of the rows after them, and whether one is a refusal.
fn told_of(alloc: Global, rows: &Rows, answers: &[Answer]) -> Result<Simulated, AllocError>
    ensures text { IfOk result (λ told. string_bytes told.text
        ≡ text_of (map answer_line answers.now) ++ text_of (codes "rows" ∷ map row_line rows.now)) }
    ensures refused { IfOk result (λ told. told.refused ≡ list_any is_refused answers.now) }
{
    let mut text = String::new(alloc);
    put_answers(&mut text, answers)?;
    text.push_str("rows\n")?;
    text.push_str(rows_text(alloc, rows)?.as_str())?;
    let refused = any_refused(answers);
    Ok(Simulated { text, refused })
}

// The answer to these steps from these rows.
fn tell(alloc: Global, rows: Rows, steps: Vec<Step>) -> Result<Simulated, AllocError>
    requires { NoneBuilt rows }
    ensures { IfOk result (Tells rows steps.items) }
{
    let (world, answers) = run_without_offers(alloc, rows, steps)?;
    told_of(alloc, world.rows(), &answers)
}

/// Takes the steps of a simulation's text one after the other, and tells their answers and the
/// rows after the last of them.
pub fn simulate_text(alloc: Global, text: &str) -> Result<Simulated, SimulationFault>
    // The answer is that of the simulation that the text is.
    ensures found { IfOk result (λ told.
        (t : Table) × (ss : List StepValue) × IsSimulation text.now t ss × Tells t ss told) }
    // A simulation is answered, unless memory runs out.
    ensures only { (t : Table) (ss : List StepValue) → IsSimulation text.now t ss
        → MatchResult result (Tells t ss) (λ e. e ≡ SimulationFault.NoMemory) }
    ensures fault { IfErr result (FaultOf text.now) }
{
    let (rows, steps) = match read_simulation(alloc, text) {
        Ok(read) => read,
        Err(fault) => return Err(fault),
    };
    match tell(alloc, rows, steps) {
        Ok(told) => Ok(told),
        Err(_) => Err(SimulationFault::NoMemory),
    }
}
