//! The answer to a command.
ghost use Rattle.std.specs.Prelude.{◌≡◌, IfOk, OnErr};
ghost use Rattle.std.specs.String.{string_bytes};
ghost use Rattle.td_wbread.specs.Views.{parts_of};
ghost use Rattle.td_script.specs.Answering.{Answers, IsLeftBy};
ghost use Rattle.td_script.specs.Replies.{commands};

use crate::replying::put_command;
use std::alloc::AllocError;
use td_board::Board;
use td_book::Book;
use td_wbread::Command;

/// Enters a command, and appends the answer. Answers whether it is refused. If memory runs out,
/// nothing is appended, though the command may be entered.
pub fn command(
    book: &mut Book<'_>,
    board: &Board,
    command: &Command<'_>,
    out: &mut String,
) -> Result<bool, AllocError>
    requires board { board.now.table ≡ book.old.fixed.table }
    requires alone { book.old.fixed.builders ≡ 0 }
    ensures ok { IfOk result (Answers
        (commands book.old.fixed.stock book.old.history (parts_of command.now)) book.old book.new
        (string_bytes out.old) (string_bytes out.new)) }
    ensures err { OnErr result (string_bytes out.new ≡ string_bytes out.old) }
    ensures book { IsLeftBy
        (commands book.old.fixed.stock book.old.history (parts_of command.now)) book.old book.new }
{
    let answer = book.command(board, command);
    put_command(out, book.journal(), answer)
}
