//! How a build ended, as a word of the board shows it.
ghost use Rattle.std.specs.Prelude.{◌≡◌};

/// How a build ended. A word of the board has it as a number, `code`.
#[derive(Clone, Copy, Debug, PartialEq, Eq)]
pub enum OutcomeCode {
    Built,
    Attempted,
    GivenBack,
    Waits,
}

impl OutcomeCode {
    ghost use Rattle.td_board.specs.OutcomeCode.{code_of};

    /// The number from 0 to 3 by which a word shows this outcome.
    pub fn code(self) -> u64
        ensures { result ≡ code_of self }
    {
        match self {
            OutcomeCode::Built => 0,
            OutcomeCode::Attempted => 1,
            OutcomeCode::GivenBack => 2,
            OutcomeCode::Waits => 3,
        }
    }
}
