//! One source on one architecture.
ghost use Rattle.std.specs.Prelude.{◌≡◌, IfOk};
ghost use Rattle.td_rows.specs.Blank.{blank};

use crate::line::Line;
use crate::number::{Priority, RebuildNumber};
use crate::state::State;
use std::alloc::{AllocError, Global};

/// What the desk knows of a key.
#[derive(Drop)]
pub struct Row {
    pub state: State,
    pub priority: Priority,
    pub number: RebuildNumber,
    /// The relation that the build waits for; empty where it waits for none.
    pub dep_wait: Line,
    /// The relation that the rebuild needs in addition to its build dependencies; empty if none.
    pub extra: Line,
}

impl Row {
    /// The row with nothing in it. It takes no memory.
    pub fn blank(alloc: Global) -> Row
        ensures { result ≡ blank }
    {
        Row {
            state: State::NeedsBuild,
            priority: Priority::zero(),
            number: RebuildNumber::zero(),
            dep_wait: Line::empty(alloc),
            extra: Line::empty(alloc),
        }
    }

    /// A copy, in memory of its own.
    pub fn copy(&self) -> Result<Row, AllocError>
        ensures { IfOk result (λ row. row ≡ self.now) }
    {
        Ok(Row {
            state: self.state,
            priority: self.priority,
            number: self.number,
            dep_wait: self.dep_wait.copy()?,
            extra: self.extra.copy()?,
        })
    }
}
