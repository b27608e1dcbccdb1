//! The parts of a simulation's text.
ghost use Rattle.std.specs.Prelude.{◌≡◌, ◌<◌, ◌≤◌, ◌+◌, ◌-◌, ◌^◌, length};
ghost use Rattle.td_text.specs.Lines.{lines_of, ended};
ghost use Rattle.td_simulate.specs.SimulationText.{opening_text, lines_after, number_after};

use td_text::{behind, next_line};

/// The parts of a simulation's text.
#[derive(Clone, Copy)]
pub struct Parts<'a> {
    /// What stands before the line `steps`.
    pub opening: &'a str,
    /// What comes after the line `steps`.
    pub steps: &'a str,
    /// The number of the line after the line `steps`, if there is one.
    pub first: usize,
}

/// Parts a text at its first line `steps`. If there is no such line, nothing comes after it, and
/// the line after it has no number.
pub fn parts_of(text: &str) -> Parts
    ensures opening { result.opening.now ≡ opening_text (lines_of text.now) }
    ensures steps { ended (lines_of result.steps.now) ≡ lines_after (lines_of text.now) }
    ensures first { 0 < length result.steps.now
        → result.first ≡ number_after 1 (lines_of text.now) }
    ensures small { result.first + length result.steps.now < 2 ^ 64 }
{
    let length = text.len();
    let mut rest = text;
    let mut passed = 0;
    loop {
        let (line, after) = next_line(rest);
        if line == "steps" {
            let (opening, _) = text.split_at(length - rest.len());
            let steps = behind(after);
            return Parts {
                opening,
                steps,
                first: passed + 2,
            };
        }
        let Some(after) = after else {
            return Parts {
                opening: text,
                steps: "",
                first: 0,
            };
        };
        passed += 1;
        rest = after;
    }
}
