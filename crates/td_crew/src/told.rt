//! The answers to the lines of a script at a desk, one after the other.
ghost use Rattle.std.specs.Prelude.{◌≡◌, ◌+◌, ◌≤◌, ◌<◌, ◌^◌, [], IfOk, OnOk, length};
ghost use Rattle.td_relation.specs.TableView.{table};
ghost use Rattle.td_script.specs.Settings.{setting_lent};
ghost use Rattle.td_crew.specs.CrewText.{AreAnswered, IsReplied, told_with};
ghost use Rattle.td_crew.specs.Lines.{FitAnyBook};

use crate::dispatch::answer;
use crate::line_answers::LineAnswers;
use crate::lines::Lines;
use crate::telling::Telling;
use std::alloc::AllocError;
use std::sync::Wait;
use std::sync::ledger::Ledger;
use td_desk::{Clerk, Desk, Named};
use td_script::Reports;

// The answers so far, and how many of them are refusals.
#[derive(Drop)]
struct SoFar<'s, N: Named> {
    answers: LineAnswers<'s, N>,
    refused: u64,
}

// Answers one line more.
fn add_line<N: Named, C: Ledger, T: Reports, R: Wait>(
    rt: &R,
    desk: &Desk<'_, N, C>,
    clerk: &mut Clerk<C>,
    lines: &Lines<'_, '_, T>,
    line: &str,
    told: &mut SoFar<'_, N>,
) -> Result<(), AllocError>
    requires fits { FitAnyBook T.fits lines.now.reports }
    requires archs { table lines.now.archs.now ≡ N.origin.stock.table }
    requires room { told.old.refused < 2 ^ 63 }
    requires line { told.old.answers.turn.line.now ≡ line.now }
    ensures turn { told.new.answers.turn ≡ told.old.answers.turn }
    ensures parts { clerk.new.parts ≡ clerk.old.parts }
    ensures few { OnOk result (told.new.refused ≤ told.old.refused + 1) }
    ensures replied { OnOk result (IsReplied N.table N.origin N.opened clerk.old.parts
        (setting_lent T.text N.origin.stock lines.now.suites.now lines.now.reports) line.now
        (told_with (record { text = told.old.answers.text; refused = told.old.refused })
        clerk.old.receipts)
        (told_with (record { text = told.new.answers.text; refused = told.new.refused })
        clerk.new.receipts)) }
{
    if answer(rt, desk, clerk, lines, line, &mut told.answers)? {
        told.refused += 1;
    }
    Ok(())
}

/// Answers the lines of a script, one after the other. The clerk has all of its parts still, so
/// that each change made with them has a receipt that a line tells of.
pub fn tell_lines<'s, N: Named, C: Ledger, T: Reports, R: Wait>(
    rt: &R,
    desk: &Desk<'_, N, C>,
    clerk: &mut Clerk<C>,
    lines: &Lines<'s, '_, T>,
) -> Result<Telling<'s, N>, AllocError>
    requires fits { FitAnyBook T.fits lines.now.reports }
    requires archs { table lines.now.archs.now ≡ N.origin.stock.table }
    requires new { clerk.old.receipts ≡ [] }
    ensures script { IfOk result (λ telling. telling.script.now ≡ lines.now.script.now) }
    ensures parts { clerk.new.parts ≡ clerk.old.parts }
    ensures few { IfOk result (λ telling.
        telling.told.refused ≤ length lines.now.script.now + 1) }
    ensures told { IfOk result (λ telling. AreAnswered N.table N.origin N.opened clerk.old.parts
        (setting_lent T.text N.origin.stock lines.now.suites.now lines.now.reports)
        lines.now.script.now clerk.new.receipts telling.told) }
{
    let mut told = SoFar {
        answers: LineAnswers::new(lines.alloc, lines.script),
        refused: 0,
    };
    while let Some(line) = told.answers.next() {
        add_line(rt, desk, clerk, lines, line, &mut told)?;
    }
    Ok(Telling::of(told.answers, told.refused))
}
