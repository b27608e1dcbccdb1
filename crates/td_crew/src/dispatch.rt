//! The answer to a line at a desk.
ghost use Rattle.std.specs.Prelude.{◌≡◌, IfOk, map, string_bytes};
ghost use Rattle.td_relation.specs.TableView.{table};
ghost use Rattle.td_wbread.specs.Command.{command_at};
ghost use Rattle.td_desk.specs.Calls.{IsMetBy};
ghost use Rattle.td_script.specs.declared.line.Said.TheVariants.{Typed};
ghost use Rattle.td_script.specs.Reading.{said_at};
ghost use Rattle.td_script.specs.Settings.{setting_lent};
ghost use Rattle.td_crew.specs.Lines.{FitAnyBook};
ghost use Rattle.td_crew.specs.Replies.{MayReply, MayType, Says};

use crate::answering::{ask, command};
use crate::line_answers::LineAnswers;
use crate::lines::Lines;
use std::alloc::AllocError;
use std::sync::Wait;
use std::sync::ledger::Ledger;
use td_desk::{Clerk, Desk, Named};
use td_script::{Reports, Said, read_line};
use td_wbread::{CommandFault, read_command};

// The answer to a line that is typed.
fn type_in<N: Named, C: Ledger, T: Reports, R: Wait>(
    rt: &R,
    desk: &Desk<'_, N, C>,
    clerk: &mut Clerk<C>,
    lines: &Lines<'_, '_, T>,
    line: &str,
    out: &mut LineAnswers<'_, N>,
) -> Result<bool, AllocError>
    requires line { out.old.turn.line.now ≡ line.now }
    requires typed { said_at line.now ≡ Typed }
    ensures turn { out.new.turn ≡ out.old.turn }
    ensures parts { clerk.new.parts ≡ clerk.old.parts }
    ensures says { IfOk result (Says (MayType
        (IsMetBy N.table N.origin N.opened clerk.old.parts clerk.old.receipts)
        (command_at (table lines.now.archs.now) (map (λ s. s.now) lines.now.suites.now) line.now))
        (string_bytes out.old.text) (string_bytes out.new.text) clerk.old.receipts clerk.new.receipts) }
{
    match read_command(lines.alloc, line, lines.archs, lines.suites) {
        Ok(typed) => command(rt, desk, clerk, lines, &typed, out),
        Err(CommandFault::Wrong(fault, _)) => {
            out.fault(lines, fault)?;
            Ok(true)
        }
        Err(CommandFault::NoMemory) => Err(AllocError),
    }
}

/// Appends the answer to a line. Answers whether it is refused.
pub fn answer<N: Named, C: Ledger, T: Reports, R: Wait>(
    rt: &R,
    desk: &Desk<'_, N, C>,
    clerk: &mut Clerk<C>,
    lines: &Lines<'_, '_, T>,
    line: &str,
    out: &mut LineAnswers<'_, N>,
) -> Result<bool, AllocError>
    requires fits { FitAnyBook T.fits lines.now.reports }
    requires archs { table lines.now.archs.now ≡ N.origin.stock.table }
    requires line { out.old.turn.line.now ≡ line.now }
    ensures turn { out.new.turn ≡ out.old.turn }
    ensures parts { clerk.new.parts ≡ clerk.old.parts }
    ensures says { IfOk result (Says (MayReply
        (IsMetBy N.table N.origin N.opened clerk.old.parts)
        (setting_lent T.text N.origin.stock lines.now.suites.now lines.now.reports)
        clerk.old.receipts line.now)
        (string_bytes out.old.text) (string_bytes out.new.text) clerk.old.receipts clerk.new.receipts) }
{
    match read_line(lines.alloc, line)? {
        Said::Skipped => Ok(false),
        Said::Asked(request) => ask(rt, desk, clerk, lines, &request, out),
        Said::Bad => {
            out.bad_line()?;
            Ok(true)
        }
        Said::Typed => type_in(rt, desk, clerk, lines, line, out),
    }
}
