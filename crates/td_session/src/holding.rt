//! A session at the desk of a file: the file is opened, and lines are answered.
ghost use Rattle.std.specs.Prelude.{◌≡◌, ◌∷◌, [], Bool, true, false, IfSome, option_map, string_bytes};
ghost use Rattle.td_report.specs.TransitionView.{IsMade};
ghost use Rattle.td_script.specs.Reporting.{report_by};
ghost use Rattle.td_script.specs.Settings.{setting_lent};
ghost use Rattle.td_supply.specs.Supply.{stock_of};
ghost use Rattle.td_lasting.specs.Sessions.{IsTurn};
ghost use Rattle.td_lasting.specs.Terms.{AreTerms, setting_of};
ghost use Rattle.td_session.specs.Sessions.{EndsAt, IsDue, IsTurnAt};
ghost use Rattle.td_session.specs.inner.Holding.{AreServed, end_of_served};

use crate::desk_file::{DeskFile, OpenRefusal};
use crate::fault::SessionFault;
use crate::ground::Ground;
use crate::held::{Held, unopened};
use std::alloc::Global;
use td_bytes::Writer;
use td_lasting::{FileDesk, ServeEnd, ServeFault, Terms, Turns, serve};
use td_ledger::Device;
use td_report::Transition;

// How a session ends, by how its lines did.
fn end_of(served: Result<ServeEnd, ServeFault>) -> Result<ServeEnd, SessionFault>
    ensures { result ≡ end_of_served served }
{
    match served {
        Ok(end) => Ok(end),
        Err(fault) => Err(SessionFault::Serve(fault)),
    }
}

// Answers lines at an open desk, and gives its file back.
fn serve_at<D: Device + Drop, W: Writer, R: Turns<W>>(
    alloc: Global,
    mut desk: FileDesk<'_, D>,
    terms: &Terms<'_, '_, '_, '_, '_, '_, '_>,
    reader: &mut R,
    writer: &mut W,
) -> Held<D>
    requires terms { AreTerms terms.now }
    requires running { desk.stopped ≡ false }
    requires turn { (r : R) → (w : W) → IsTurn (setting_of desk.stock terms.now)
        desk.history (R.left reader.old) (R.left r) (W.contents writer.old) (W.contents w)
        → R.is_turn r w ≡ true }
    ensures served { AreServed (setting_of desk.entry.stock terms.now) desk.entry
        (option_map D.known result.file) (R.left reader.old)
        (W.contents writer.old) (W.contents writer.new) result.end }
    ensures due { (refuses : OpenRefusal → Bool)
        → IsDue refuses (R.may_fail reader.old) (W.can_fail writer.old) result.end }
{
    let served = serve(alloc, &mut desk, terms, reader, writer);
    Held {
        end: end_of(served),
        file: Some(desk.into_device()),
    }
}

// A session at the desk whose file the device has.
fn hold_at<D: Device + Drop, W: Writer, R: Turns<W>>(
    alloc: Global,
    device: D,
    ground: Ground<'_>,
    terms: &Terms<'_, '_, '_, '_, '_, '_, '_>,
    reader: &mut R,
    writer: &mut W,
) -> Held<D>
    requires terms { AreTerms terms.now }
    requires turn { (r : R) → (w : W) → IsTurnAt (string_bytes ground.header)
        ground.rows (setting_of (stock_of ground.supply) terms.now) (D.known device)
        (R.left reader.old) (R.left r) (W.contents writer.old) (W.contents w)
        → R.is_turn r w ≡ true }
    ensures ends { EndsAt (string_bytes ground.entry.header) ground.entry.rows
        (setting_of (stock_of ground.entry.supply) terms.now) (D.known device)
        (option_map D.known result.file) (R.left reader.old) (R.left reader.new)
        (W.contents writer.old) (W.contents writer.new) result.end }
    ensures due { (refuses : OpenRefusal → Bool)
        → IsDue refuses (R.may_fail reader.old) (W.can_fail writer.old) result.end }
{
    let Ground {
        rows,
        supply,
        header,
    } = ground;
    match FileDesk::open(alloc, device, header.as_str(), rows, supply) {
        Ok(desk) => serve_at(alloc, desk, terms, reader, writer),
        Err((fault, device)) => Held {
            end: Err(SessionFault::File(fault)),
            file: Some(device),
        },
    }
}

/// A session at the desk whose file is found in a place, or made there, with one suite, and with
/// these reports, if there are some.
pub(crate) fn hold_found<F: DeskFile, W: Writer, R: Turns<W>>(
    alloc: Global,
    file: &mut F,
    ground: Ground<'_>,
    suite: &str,
    reports: Option<&Transition<'_, '_, '_, '_>>,
    reader: &mut R,
    writer: &mut W,
) -> Held<F::Opened>
    requires reports { IfSome reports (λ r. IsMade r.now) }
    requires turn { (r : R) → (w : W) → IsTurnAt (string_bytes ground.header)
        ground.rows
        (setting_lent report_by (stock_of ground.supply) (suite ∷ []) reports)
        (F.found file.old) (R.left reader.old) (R.left r) (W.contents writer.old) (W.contents w)
        → R.is_turn r w ≡ true }
    ensures ends { EndsAt (string_bytes ground.entry.header) ground.entry.rows
        (setting_lent report_by (stock_of ground.entry.supply) (suite.entry ∷ []) reports.entry)
        (F.found file.old) (option_map F.Opened.known result.file)
        (R.left reader.old) (R.left reader.new)
        (W.contents writer.old) (W.contents writer.new) result.end }
    ensures due { IsDue (F.can_refuse file.old) (R.may_fail reader.old) (W.can_fail writer.old)
        result.end }
{
    let suites = [suite];
    let terms = Terms {
        suites: suites.as_slice(),
        reports,
    };
    match file.open() {
        Ok(device) => hold_at(alloc, device, ground, &terms, reader, writer),
        Err(refusal) => unopened(SessionFault::Unopened(refusal)),
    }
}
