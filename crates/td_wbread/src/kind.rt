//! What a command does to a row.
ghost use Rattle.std.specs.Prelude.{◌≡◌, IfOk};
ghost use Rattle.td_wbread.specs.Kinds.{kind_of as kind_of_parts};
ghost use Rattle.td_wbread.specs.Views.{parts_of};

use crate::command::{Command, Verb};
use std::alloc::AllocError;
use td_rows::Kind;

/// The kind of the entry that a command makes, with copies of its texts.
pub fn kind_of(command: &Command<'_>) -> Result<Kind, AllocError>
    ensures { IfOk result (λ kind. kind ≡ kind_of_parts (parts_of command.now)) }
{
    match &command.verb {
        Verb::Gb => Ok(Kind::Gb),
        Verb::Nmu(number) => Ok(Kind::Nmu {
            number: *number,
            extra: command.extra.copy()?,
            message: command.message.copy()?,
        }),
        Verb::Bp(priority) => Ok(Kind::Bp(*priority)),
        Verb::Dw => Ok(Kind::Dw(command.message.copy()?)),
    }
}
