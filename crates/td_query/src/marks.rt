//! The marks of an archive: what a tracker says of each stanza that it keeps, and of rows by it.
ghost use Rattle.std.specs.Prelude.{◌≡◌, get_or};
ghost use Rattle.td_query.specs.Marks.{no_mark};

use crate::mark::Mark;
use crate::marking::mark_stanzas;
use crate::status::Status;
use crate::tracker::Tracker;
use std::alloc::{AllocError, Global};
use std::thread::Threads;
use td_indices::{Archive, is_on};

// The mark with a number; past the last one, the mark by which no query holds.
fn mark_at(marks: &[Mark], number: usize) -> Mark
    ensures { result ≡ get_or marks.now number no_mark }
{
    match marks.get(number) {
        Some(mark) => *mark,
        None => Mark::none(),
    }
}

/// What a tracker says of each stanza that an archive keeps, so that the status of a row takes no
/// memory and looks only at the packages of its own source.
#[derive(Drop)]
pub struct Marks {
    packages: Vec<Mark>,
    sources: Vec<Mark>,
}

impl Marks {
    ghost use Rattle.std.specs.Prelude.{◌≡◌, IfOk, false, slice_get};
    ghost use Rattle.std.specs.Option.{option_map_or};
    ghost use Rattle.td_indices.specs.Archive.{Contents};
    ghost use Rattle.td_indices.specs.Stanzas.{package_fields};
    ghost use Rattle.td_query.specs.Marks.{AreMarks, mark_there as mark_there_of};
    ghost use Rattle.td_query.specs.Marks.{row_mark as row_mark_of};
    ghost use Rattle.td_query.specs.Statuses.{is_affected_at, status_at};
    ghost use Rattle.td_query.specs.Tracking.{IsTracker, Tracking, tracking};
    ghost use Rattle.td_query.specs.Truth.{truth};

    /// The marks of an archive by the tracker of a text: each query is evaluated once on each kept
    /// stanza. Four threads make them, and three read the tracker anew from the text.
    pub fn make(
        rt: &(impl Threads + Sync),
        alloc: Global,
        archive: &Archive<'_, '_>,
        tracker: &Tracker<'_>,
        text: &str,
    ) -> Result<Marks, AllocError>
        requires { IsTracker text.now (tracking tracker.now) }
        ensures marks { IfOk result (AreMarks archive.now (tracking tracker.now)) }
    {
        let (packages, sources) = mark_stanzas(rt, alloc, archive, tracker, text)?;
        Ok(Marks { packages, sources })
    }

    // Whether the source or some package of it, wherever that is, has the mark `affected`.
    fn may_be_affected(&self, archive: &Archive<'_, '_>, source: usize) -> bool
        ensures no { (t : Tracking) → AreMarks archive.now t self.now → result ≡ false
            → is_affected_at archive.now t source ≡ false }
    {
        if mark_at(self.sources.as_slice(), source).affected {
            return true;
        }
        let Some(found) = archive.source_at(source) else {
            return false;
        };
        for number in archive.packages_of(found.name) {
            if mark_at(self.packages.as_slice(), *number).affected {
                return true;
            }
        }
        false
    }

    // What holds on the stanza of the package with a number, if it is there; mostly nothing does.
    fn mark_there(&self, archive: &Archive<'_, '_>, number: usize, place: usize) -> Mark
        ensures mark { (t : Tracking) → AreMarks archive.now t self.now
            → result ≡ mark_there_of archive.now t.patterns t place number }
    {
        let mark = mark_at(self.packages.as_slice(), number);
        if mark.is_none() {
            return Mark::none();
        }
        match archive.binary(number) {
            Some(binary) if is_on(place, binary.arch) => mark,
            _ => Mark::none(),
        }
    }

    // What holds on some stanza of the row.
    fn row_mark(&self, archive: &Archive<'_, '_>, source: usize, place: usize) -> Mark
        ensures mark { (t : Tracking) → AreMarks archive.now t self.now
            → result ≡ row_mark_of archive.now t.patterns t source place }
    {
        let Some(found) = archive.source_at(source) else {
            return Mark::none();
        };
        let Some(own) = self.sources.get(source) else {
            return Mark::none();
        };
        let mut mark = *own;
        for number in archive.packages_of(found.name) {
            mark = mark.or(self.mark_there(archive, *number, place));
        }
        mark
    }

    /// The status of the row of the source with a number on the architecture at a place, if there
    /// is such a row and it is affected. The archive is the one that the marks are of.
    pub fn status(&self, archive: &Archive<'_, '_>, source: usize, place: usize) -> Option<Status>
        ensures status { (t : Tracking) → AreMarks archive.now t self.now
            → result ≡ status_at archive.now t source place }
    {
        if place >= archive.arch_count() || !archive.has_row(source, place) {
            return None;
        }
        self.row_mark(archive, source, place).status()
    }

    /// Whether the query `is_bad` holds on the stanza of the binary package with a number.
    pub fn is_bad(&self, binary: usize) -> bool
        ensures bad { (a : Contents) (t : Tracking) → AreMarks a t self.now → result
            ≡ option_map_or (λ b. truth t.patterns (package_fields a b) t.bad)
            (slice_get a.binaries binary) false }
    {
        mark_at(self.packages.as_slice(), binary).bad
    }

    /// Whether some row of the source with a number is affected.
    pub fn is_affected(&self, archive: &Archive<'_, '_>, source: usize) -> bool
        ensures affected { (t : Tracking) → AreMarks archive.now t self.now
            → result ≡ is_affected_at archive.now t source }
    {
        if !self.may_be_affected(archive, source) {
            return false;
        }
        for place in 0..archive.arch_count() {
            if self.status(archive, source, place).is_some() {
                return true;
            }
        }
        false
    }
}
