//! How a build ended.
ghost use Rattle.std.specs.Prelude.{◌≡◌, IfOk};

use crate::line::Line;
use std::alloc::AllocError;

/// How a build ended.
#[derive(Drop, PartialEq, Eq)]
pub enum Outcome {
    Built,
    Attempted,
    GivenBack,
    /// The build waits for what the relation asks.
    Waits(Line),
}

impl Outcome {
    /// A copy, in memory of its own.
    pub fn copy(&self) -> Result<Outcome, AllocError>
        ensures { IfOk result (λ outcome. outcome ≡ self.now) }
    {
        match self {
            Outcome::Built => Ok(Outcome::Built),
            Outcome::Attempted => Ok(Outcome::Attempted),
            Outcome::GivenBack => Ok(Outcome::GivenBack),
            Outcome::Waits(relation) => Ok(Outcome::Waits(relation.copy()?)),
        }
    }
}
