//! What no clause can say: that a report by kept counts is made if there is memory. The counts
//! are made here, row by row; the text is that of `reports`.
ghost use Rattle.std.specs.Prelude.{◌≡◌, IfOk, IfSome, slice_get};
ghost use Rattle.td_report.specs.Groups.{AreCounts, installed_of, is_there as is_there_of};
ghost use Rattle.td_report.specs.TransitionView.{IsMade};

use crate::checks::{is_told, made};
use crate::waves::REPORT;
use std::alloc::{AllocError, Global};
use std::process::Abort;
use std::thread::Threads;
use td_report::Transition;
use td_rows::{Key, Row, Rows, State};

// Whether a row is Installed, and of a group.
fn is_there(transition: &Transition<'_, '_, '_, '_>, key: &Key, row: &Row, group: usize) -> bool
    requires { IsMade transition.now }
    ensures { result ≡ is_there_of transition.now group (key.now, row.now) }
{
    match transition.group(key) {
        Some(found) => found == group && matches!(row.state, State::Installed),
        None => false,
    }
}

// Whether the row with a number is Installed, and of a group.
fn is_there_at(
    transition: &Transition<'_, '_, '_, '_>,
    rows: &Rows,
    number: usize,
    group: usize,
) -> bool
    requires { IsMade transition.now }
    ensures { IfSome (slice_get rows.now number)
        (λ p. result ≡ is_there_of transition.now group p) }
{
    match rows.at(number) {
        Some((key, row)) => is_there(transition, key, row, group),
        None => false,
    }
}

// How many rows of a group are Installed.
fn installed(transition: &Transition<'_, '_, '_, '_>, rows: &Rows, group: usize) -> usize
    requires { IsMade transition.now }
    ensures { result ≡ installed_of transition.now rows.now group }
{
    let mut count = 0;
    for number in 0..rows.len() {
        if is_there_at(transition, rows, number, group) {
            count += 1;
        }
    }
    count
}

// How many rows of each group are Installed.
fn counts(
    alloc: Global,
    transition: &Transition<'_, '_, '_, '_>,
    rows: &Rows,
) -> Result<Vec<usize>, AllocError>
    requires { IsMade transition.now }
    ensures { IfOk result (λ counts. AreCounts transition.now rows.now counts.items) }
{
    let Some(groups) = transition.depth().checked_add(1) else {
        return Err(AllocError);
    };
    let mut counts = Vec::new(alloc);
    for group in 0..groups {
        counts.push(installed(transition, rows, group))?;
    }
    Ok(counts)
}

// The report of these rows by the counts, as each call makes it.
pub(crate) fn are_reported(
    rt: &(impl Threads + Abort + Sync),
    alloc: Global,
    transition: &Transition<'_, '_, '_, '_>,
    rows: &Rows,
)
    requires { IsMade transition.now }
{
    let counts = made(rt, counts(alloc, transition, rows));
    let counted = transition.report_counted(alloc, rows, &counts);
    is_told(rt, counted, REPORT, "report_counted");
    let kept = transition.report_kept(rt, alloc, rows, &counts, 2);
    is_told(rt, kept, REPORT, "report_kept");
    drop(counts);
}
