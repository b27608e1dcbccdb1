//! The answers of a desk, put in the words of scripts. Each function says whether the line is
//! refused.
ghost use Rattle.std.specs.Prelude.{◌≡◌, ◌++◌, ◌∷◌, [], ℕ, List, Ok, IfOk, map, string_bytes};
ghost use Rattle.td_relation.specs.TableView.{table};
ghost use Rattle.td_rows.specs.declared.key.Key.{Key as KeyValue};
ghost use Rattle.td_rows.specs.declared.kind.Kind.{Kind};
ghost use Rattle.td_wbread.specs.Command.{command_at};
ghost use Rattle.td_wbread.specs.Views.{parts_of};
ghost use Rattle.td_desk.specs.declared.receipt.Receipt.{Receipt as ReceiptValue};
ghost use Rattle.td_desk.specs.declared.receipt.Receipt.TheVariants.{Made};
ghost use Rattle.td_desk.specs.Calls.{IsMetBy};
ghost use Rattle.td_script.specs.declared.line.Said.TheVariants.{Asked};
ghost use Rattle.td_script.specs.declared.request.Request.TheVariants as requests;
ghost use Rattle.td_script.specs.Reading.{said_at};
ghost use Rattle.td_script.specs.Settings.{setting_lent};
ghost use Rattle.td_crew.specs.Lines.{FitAnyBook};
ghost use Rattle.td_crew.specs.Replies.{MayAnswer, MayArrive, MayCommand, MaySweep};
ghost use Rattle.td_crew.specs.Replies.{MayUndo, Says};

use crate::line_answers::LineAnswers;
use crate::lines::Lines;
use crate::shown::{SweptLook, View, show};
use std::alloc::{AllocError, Global};
use std::sync::Wait;
use std::sync::ledger::Ledger;
use td_desk::{Clerk, Desk, Named, Receipt};
use td_journal::EntryNo;
use td_rows::Key;
use td_script::{Reports, Request};
use td_wbread::Command;

// The keys of the entry for which the clerk got its last receipt.
fn keys_made<C: Ledger>(clerk: &Clerk<C>) -> &[Key]
    ensures { (before : List ReceiptValue) (n : ℕ) (kind : Kind) (keys : List KeyValue)
        → clerk.now.receipts ≡ before ++ Made n kind keys ∷ [] → result.now ≡ keys }
{
    match clerk.receipts().last() {
        Some(Receipt::Made(_, _, keys)) => keys.as_slice(),
        _ => &[],
    }
}

/// Appends the answer to a command. The receipt has its entry.
#[tactic(auto, using(crate::proofs::Replied::parts_commanded))]
pub fn command<N: Named, C: Ledger, T: Reports, R: Wait>(
    rt: &R,
    desk: &Desk<'_, N, C>,
    clerk: &mut Clerk<C>,
    lines: &Lines<'_, '_, T>,
    command: &Command<'_>,
    out: &mut LineAnswers<'_, N>,
) -> Result<bool, AllocError>
    requires { command_at (table lines.now.archs.now) (map (λ s. s.now) lines.now.suites.now)
        out.old.turn.line.now ≡ Ok (parts_of command.now) }
    ensures turn { out.new.turn ≡ out.old.turn }
    ensures parts { clerk.new.parts ≡ clerk.old.parts }
    ensures says { IfOk result (Says (MayCommand
        (IsMetBy N.table N.origin N.opened clerk.old.parts clerk.old.receipts)
        (parts_of command.now)) (string_bytes out.old.text) (string_bytes out.new.text)
        clerk.old.receipts clerk.new.receipts) }
{
    let commanded = desk.command(rt, clerk, command);
    out.commanded(lines, commanded, keys_made(clerk))
}

// The answer to an undo.
fn undo<N: Named, C: Ledger, R: Wait>(
    rt: &R,
    desk: &Desk<'_, N, C>,
    clerk: &mut Clerk<C>,
    n: EntryNo,
    out: &mut LineAnswers<'_, N>,
) -> Result<bool, AllocError>
    requires { said_at out.old.turn.line.now ≡ Asked (requests.Undo n) }
    ensures turn { out.new.turn ≡ out.old.turn }
    ensures parts { clerk.new.parts ≡ clerk.old.parts }
    ensures says { IfOk result (Says (MayUndo
        (IsMetBy N.table N.origin N.opened clerk.old.parts clerk.old.receipts) n)
        (string_bytes out.old.text) (string_bytes out.new.text) clerk.old.receipts clerk.new.receipts) }
{
    out.undone(n, desk.undo(rt, clerk, n))
}

// The answer to an arrival. The receipt says which entry it made.
#[tactic(auto, using(crate::proofs::Replied::parts_arrived))]
fn arrive<N: Named, C: Ledger, R: Wait>(
    rt: &R,
    desk: &Desk<'_, N, C>,
    clerk: &mut Clerk<C>,
    key: &Key,
    out: &mut LineAnswers<'_, N>,
) -> Result<bool, AllocError>
    requires { said_at out.old.turn.line.now ≡ Asked (requests.Arrive key.now) }
    ensures turn { out.new.turn ≡ out.old.turn }
    ensures parts { clerk.new.parts ≡ clerk.old.parts }
    ensures says { IfOk result (Says (MayArrive
        (IsMetBy N.table N.origin N.opened clerk.old.parts clerk.old.receipts) key.now)
        (string_bytes out.old.text) (string_bytes out.new.text) clerk.old.receipts clerk.new.receipts) }
{
    let arrived = desk.arrive(rt, clerk, key);
    out.arrived(arrived, keys_made(clerk))
}

// The answer to a sweep. A receipt of one has no keys, so they are seen in the journal after it.
#[tactic(auto, using(crate::proofs::Replied::parts_swept))]
fn sweep<N: Named, C: Ledger, R: Wait>(
    rt: &R,
    desk: &Desk<'_, N, C>,
    clerk: &mut Clerk<C>,
    alloc: Global,
    out: &mut LineAnswers<'_, N>,
) -> Result<bool, AllocError>
    requires { said_at out.old.turn.line.now ≡ Asked requests.Sweep }
    ensures turn { out.new.turn ≡ out.old.turn }
    ensures parts { clerk.new.parts ≡ clerk.old.parts }
    ensures says { IfOk result (Says (MaySweep
        (IsMetBy N.table N.origin N.opened clerk.old.parts) clerk.old.receipts)
        (string_bytes out.old.text) (string_bytes out.new.text) clerk.old.receipts clerk.new.receipts) }
{
    let swept = desk.sweep(rt, clerk);
    match swept.entry() {
        Some(number) => {
            let look = SweptLook { alloc, number };
            let seen = desk.show_as::<Result<String, AllocError>, _, _>(rt, clerk, &look);
            out.swept(swept, seen)
        }
        None => out.unswept(swept),
    }
}

/// Appends the answer to a request. The clerk gives none of its parts away: no other call is
/// made.
pub fn ask<N: Named, C: Ledger, T: Reports, R: Wait>(
    rt: &R,
    desk: &Desk<'_, N, C>,
    clerk: &mut Clerk<C>,
    lines: &Lines<'_, '_, T>,
    request: &Request,
    out: &mut LineAnswers<'_, N>,
) -> Result<bool, AllocError>
    requires fits { FitAnyBook T.fits lines.now.reports }
    requires line { said_at out.old.turn.line.now ≡ Asked request.now }
    ensures turn { out.new.turn ≡ out.old.turn }
    ensures parts { clerk.new.parts ≡ clerk.old.parts }
    ensures says { IfOk result (Says (MayAnswer
        (IsMetBy N.table N.origin N.opened clerk.old.parts)
        (setting_lent T.text N.origin.stock lines.now.suites.now lines.now.reports)
        clerk.old.receipts request.now)
        (string_bytes out.old.text) (string_bytes out.new.text) clerk.old.receipts clerk.new.receipts) }
{
    match request {
        Request::Undo(n) => undo(rt, desk, clerk, *n, out),
        Request::Arrive(key) => arrive(rt, desk, clerk, key, out),
        Request::Sweep => sweep(rt, desk, clerk, lines.alloc, out),
        Request::Row(key) => show(rt, desk, clerk, lines, View::Row(key), out),
        Request::Entry(n) => show(rt, desk, clerk, lines, View::Entry(*n), out),
        Request::Report => show(rt, desk, clerk, lines, View::Report, out),
        Request::Journal => show(rt, desk, clerk, lines, View::Journal, out),
    }
}
