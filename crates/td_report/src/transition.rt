//! A tracker over an archive, and what is reported of it.

use crate::lines::{Lines, Whole};
use crate::report_text::report_text;
use crate::shown::Shown;
use crate::splitting::Chunks;
use crate::waves_text::waves_text;
use std::alloc::{AllocError, Global};
use std::thread::Threads;
use td_indices::Archive;
use td_query::{Marks, Status, Tracker};
use td_rows::{Key, Row, Rows};
use td_waves::{Level, Waves};

/// What a tracker makes of an archive: which rows are affected, and in which levels their sources
/// can be rebuilt. The only ways to one are `of` and `with_opening_rows`.
#[derive(Drop)]
pub struct Transition<'b, 't, 'a, 'q> {
    pub(crate) archive: &'b Archive<'t, 'a>,
    pub(crate) tracker: &'b Tracker<'q>,
    pub(crate) marks: Marks,
    pub(crate) waves: Waves<'a>,
}

impl<'b, 't, 'a, 'q> Transition<'b, 't, 'a, 'q> {
    ghost use Rattle.std.specs.Prelude.{◌≡◌, ◌≤◌, IfOk, IfSome, string_bytes};
    ghost use Rattle.td_query.specs.Statuses.{status_of};
    ghost use Rattle.td_query.specs.Tracking.{IsTracker, tracking};
    ghost use Rattle.td_report.specs.Groups.{AreCounts};
    ghost use Rattle.td_report.specs.Transition.{IsReport, IsReportOf, IsWaves};
    ghost use Rattle.td_report.specs.TransitionView as of;

    /// The transition of a text's tracker over an archive. Each query is evaluated once on each
    /// stanza.
    pub fn of(
        rt: &(impl Threads + Sync),
        alloc: Global,
        archive: &'b Archive<'t, 'a>,
        tracker: &'b Tracker<'q>,
        text: &str,
    ) -> Result<Transition<'b, 't, 'a, 'q>, AllocError>
        requires { IsTracker text.now (tracking tracker.now) }
        ensures made { IfOk result of.IsMade }
        ensures archive { IfOk result (λ x. of.contents_of x ≡ archive.now) }
        ensures tracking { IfOk result (λ x. of.tracking_of x ≡ tracking tracker.now) }
    {
        let marks = Marks::make(rt, alloc, archive, tracker, text)?;
        let names = marks.affected_sources(rt, alloc, archive)?;
        let waves = Waves::of(rt, alloc, archive, &names)?;
        Ok(Transition {
            archive,
            tracker,
            marks,
            waves,
        })
    }

    /// The status of a key's row, if the archive has that row and it is affected. It takes no
    /// memory.
    pub fn status(&self, key: &Key) -> Option<Status>
        requires { of.IsMade self.now }
        ensures { result ≡ status_of (of.contents_of self.now) (of.tracking_of self.now) key.now }
    {
        let source = self.archive.source_number(key.source())?;
        let place = self.archive.archs().index(key.arch())?;
        self.marks.status(self.archive, source, place)
    }

    /// The level of a source; none if it isn't affected.
    pub fn level(&self, source: &str) -> Option<Level>
        ensures { result ≡ of.level_of self.now source.now }
    {
        self.waves.level(source)
    }

    /// How many levels there are, without what is cyclic.
    pub fn depth(&self) -> usize
        ensures { result ≡ of.depth_of self.now }
    {
        self.waves.depth()
    }

    // The report of the rows, whose lines `lines` makes, by counts of Installed rows if these are
    // given.
    fn text<L: Lines>(
        &self,
        alloc: Global,
        rows: &Rows,
        counts: Option<&[usize]>,
        lines: &L,
    ) -> Result<String, AllocError>
        requires made { of.IsMade self.now }
        requires counts { IfSome counts (λ cs. AreCounts self.now rows.now cs.now) }
        requires ready { L.ready lines.now }
        ensures { IfOk result (λ text. IsReportOf (L.shown lines.now) (of.contents_of self.now)
            (of.tracking_of self.now) rows.now (string_bytes text)) }
    {
        let items = self.items(alloc, rows)?;
        let depth = self.waves.depth();
        report_text(alloc, self.tracker.title(), depth, &items, counts, lines)
    }

    /// The report of the rows.
    pub fn report(&self, alloc: Global, rows: &Rows) -> Result<String, AllocError>
        requires { of.IsMade self.now }
        ensures { IfOk result (λ text. IsReport (of.contents_of self.now)
            (of.tracking_of self.now) rows.now (string_bytes text)) }
    {
        self.report_showing(alloc, rows, Shown::all())
    }

    /// The report of the rows that shows those of some statuses.
    pub fn report_showing(
        &self,
        alloc: Global,
        rows: &Rows,
        shown: Shown,
    ) -> Result<String, AllocError>
        requires { of.IsMade self.now }
        ensures { IfOk result (λ text. IsReportOf shown (of.contents_of self.now)
            (of.tracking_of self.now) rows.now (string_bytes text)) }
    {
        self.text(alloc, rows, None, &Whole { shown })
    }

    /// The report that shows the rows of some statuses, made of those of each level in chunks of
    /// `chunk` rows, which several threads share.
    pub fn report_split(
        &self,
        rt: &(impl Threads + Sync),
        alloc: Global,
        rows: &Rows,
        shown: Shown,
        chunk: usize,
    ) -> Result<String, AllocError>
        requires made { of.IsMade self.now }
        requires chunk { 1 ≤ chunk }
        ensures { IfOk result (λ text. IsReportOf shown (of.contents_of self.now)
            (of.tracking_of self.now) rows.now (string_bytes text)) }
    {
        let size = chunk;
        self.text(alloc, rows, None, &Chunks { rt, shown, size })
    }

    /// The report of the rows, if the number of Installed rows of each group is given. They aren't
    /// counted anew.
    pub fn report_counted(
        &self,
        alloc: Global,
        rows: &Rows,
        counts: &[usize],
    ) -> Result<String, AllocError>
        requires made { of.IsMade self.now }
        requires counts { AreCounts self.now rows.now counts.now }
        ensures { IfOk result (λ text. IsReport (of.contents_of self.now)
            (of.tracking_of self.now) rows.now (string_bytes text)) }
    {
        let shown = Shown::all();
        self.text(alloc, rows, Some(counts), &Whole { shown })
    }

    /// The report of the rows by given counts, made in chunks as `report_split` makes it.
    pub fn report_kept(
        &self,
        rt: &(impl Threads + Sync),
        alloc: Global,
        rows: &Rows,
        kept: &[usize],
        chunk: usize,
    ) -> Result<String, AllocError>
        requires made { of.IsMade self.now }
        requires kept { AreCounts self.now rows.now kept.now }
        requires chunk { 1 ≤ chunk }
        ensures { IfOk result (λ text. IsReport (of.contents_of self.now)
            (of.tracking_of self.now) rows.now (string_bytes text)) }
    {
        let shown = Shown::all();
        let size = chunk;
        self.text(alloc, rows, Some(kept), &Chunks { rt, shown, size })
    }

    /// The affected sources of the rows, by level.
    pub fn waves(&self, alloc: Global, rows: &Rows) -> Result<String, AllocError>
        requires { of.IsMade self.now }
        ensures { IfOk result (λ text. IsWaves (of.contents_of self.now)
            (of.tracking_of self.now) rows.now (string_bytes text)) }
    {
        let items = self.items(alloc, rows)?;
        waves_text(alloc, self.waves.depth(), &items)
    }
}
