//! Simulations: opening rows and steps as a text, their answers and the last rows as a text.
//!
//! Start at `simulate_text`; `read_simulation` is its first half. A line of the text is a row's or
//! empty, the word `steps`, or a step's (`read_step`); a line of the answer is that of a step's
//! answer, the word `rows`, or a row's.
//! Promised, unless memory runs out: the text is read if and only if it is opening rows and steps,
//! and else its first faulty line is named, or that there are too many rows; the answer is then
//! what the core answers to these steps from these rows, in their order, and the rows after the
//! last of them.
#![tactic(auto)]

mod answer_line;
mod fault;
mod parts;
mod simulation;
mod step_line;
mod steps_reading;
mod verb;

pub use answer_line::refusal_name;
pub use fault::SimulationFault;
pub use simulation::{Simulated, read_simulation, simulate_text};
pub use step_line::{read_step, step_lines_are_exact};
