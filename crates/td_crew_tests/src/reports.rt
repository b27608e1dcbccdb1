//! What no clause can say: that each call that makes a report, or waves, makes it if there is
//! memory. The archive, the tracker and the texts are this project's worked examples. After the
//! archive 3,000 more sources may come that the tracker doesn't affect: no report has them.
ghost use Rattle.td_query.specs.Tracking.{IsTracker, tracking};
ghost use Rattle.td_report.specs.TransitionView.{IsMade};

use crate::checks::{is_told, made};
use crate::kept_reports;
use crate::waves::{ARCHS, LEVELS, PACKAGES, REPORT, SOURCES, TRACKER};
use std::alloc::{AllocError, Global};
use std::process::Abort;
use std::thread::Threads;
use td_indices::Archive;
use td_query::Tracker;
use td_relation::Archs;
use td_report::{Shown, Transition};
use td_rows::Rows;

// The report of these rows, as each call makes it.
fn are_reported(
    rt: &(impl Threads + Abort + Sync),
    alloc: Global,
    transition: &Transition<'_, '_, '_, '_>,
    rows: &Rows,
)
    requires { IsMade transition.now }
{
    is_told(rt, transition.report(alloc, rows), REPORT, "report");
    let by_one = transition.report_split(rt, alloc, rows, Shown::all(), 1);
    is_told(rt, by_one, REPORT, "report_split by 1");
    let by_two = transition.report_split(rt, alloc, rows, Shown::all(), 2);
    is_told(rt, by_two, REPORT, "report_split by 2");
    let by_five = transition.report_split(rt, alloc, rows, Shown::all(), 5);
    is_told(rt, by_five, REPORT, "report_split by 5");
}

// The waves of these rows.
fn are_in_levels(
    rt: &impl Abort,
    alloc: Global,
    transition: &Transition<'_, '_, '_, '_>,
    rows: &Rows,
)
    requires { IsMade transition.now }
{
    is_told(rt, transition.waves(alloc, rows), LEVELS, "waves");
}

// What a transition says of all rows with which a desk opens.
fn over_all_rows(
    rt: &(impl Threads + Abort + Sync),
    alloc: Global,
    archive: &Archive<'_, '_>,
    transition: &Transition<'_, '_, '_, '_>,
)
    requires { IsMade transition.now }
{
    let rows = made(rt, archive.opening_rows());
    are_reported(rt, alloc, transition, &rows);
    kept_reports::are_reported(rt, alloc, transition, &rows);
    are_in_levels(rt, alloc, transition, &rows);
    drop(rows);
}

// The transition of a text's tracker, over all rows with which a desk opens.
fn of_all_rows(
    rt: &(impl Threads + Abort + Sync),
    alloc: Global,
    archive: &Archive<'_, '_>,
    tracker: &Tracker<'_>,
    text: &str,
)
    requires { IsTracker text.now (tracking tracker.now) }
{
    let transition = made(rt, Transition::of(rt, alloc, archive, tracker, text));
    over_all_rows(rt, alloc, archive, &transition);
    drop(transition);
}

// A transition with only the rows of its affected sources.
fn with_opening_rows(
    rt: &(impl Threads + Abort + Sync),
    alloc: Global,
    archive: &Archive<'_, '_>,
    tracker: &Tracker<'_>,
    text: &str,
)
    requires { IsTracker text.now (tracking tracker.now) }
{
    let with_rows = Transition::with_opening_rows(rt, alloc, archive, tracker, text);
    let (transition, rows) = made(rt, with_rows);
    are_reported(rt, alloc, &transition, &rows);
    are_in_levels(rt, alloc, &transition, &rows);
    drop(transition);
    drop(rows);
}

// Each transition of the tracker over an archive.
fn over_archive(rt: &(impl Threads + Abort + Sync), alloc: Global, archive: &Archive<'_, '_>) {
    let tracker = made(rt, Tracker::read(alloc, TRACKER));
    of_all_rows(rt, alloc, archive, &tracker, TRACKER);
    with_opening_rows(rt, alloc, archive, &tracker, TRACKER);
}

// Each transition of the tracker over the archive of these two indices.
fn over_texts(rt: &(impl Threads + Abort + Sync), alloc: Global, packages: &str, sources: &str) {
    let archs = made(rt, Archs::read(alloc, ARCHS));
    let read = Archive::read(rt, alloc, packages, sources, &archs);
    let archive = made(rt, read);
    over_archive(rt, alloc, &archive);
    drop(archive);
}

#[test]
fn a_report_is_one_text_whichever_call_makes_it(rt: HostRuntime) {
    over_texts(&rt, rt.alloc(), PACKAGES, SOURCES);
}

// A text, and after it the stanzas of 3,000 sources that ask for nothing.
fn lengthened(alloc: Global, text: &str) -> Result<String, AllocError> {
    let mut long = String::from_str(alloc, text)?;
    for number in 0..3000 {
        write!(
            long,
            "\nPackage: zz{number}\nVersion: 1\nArchitecture: amd64\n"
        )?;
    }
    Ok(long)
}

#[test]
fn what_is_not_affected_adds_nothing_to_a_report(rt: HostRuntime) {
    let packages = made(&rt, lengthened(rt.alloc(), PACKAGES));
    let sources = made(&rt, lengthened(rt.alloc(), SOURCES));
    over_texts(&rt, rt.alloc(), packages.as_str(), sources.as_str());
}
