//! How the marks of an archive are made, in four threads: each query is evaluated once on each
//! stanza.
ghost use Rattle.std.specs.Prelude.{◌≡◌, ◌<◌, ◌≤◌, IfOk, List, Some, length, map, slice_get};
ghost use denote.Param.Send.{IsSync};
ghost use Rattle.regex.specs.Patterns.{Re};
ghost use Rattle.regex.specs.Strings.{matcher_pattern};
ghost use Rattle.td_stanza.specs.Table.{fields_of};
ghost use Rattle.td_indices.specs.declared.archive_fault.IndexFile.TheVariants.{Packages, Sources};
ghost use Rattle.td_query.specs.Marks.{MarkBetween, kept_fields, mark_by, mark_on};
ghost use Rattle.td_query.specs.Tracking.{IsTracker, tracking};
ghost use Rattle.td_query.specs.inner.Alike.{AreAlike};
ghost use Rattle.td_query.specs.inner.MarkParts.{AreMarksByText, AreRestAndFirst};
ghost use Rattle.td_query.specs.inner.MarkParts.{AreRestAndSources};

use crate::mark::{Mark, mark_of};
use crate::tracker::Tracker;
use crate::truth::matchers_of;
use regex::Matcher;
use std::alloc::{AllocError, Global};
use std::thread;
use std::thread::Threads;
use td_indices::{Archive, IndexFile};
use td_stanza::Stanza;

/// The stanza of the binary package, or of the source, with a number.
pub fn kept_stanza<'x, 'a>(
    archive: &'x Archive<'_, 'a>,
    file: IndexFile,
    number: usize,
) -> Stanza<'x, 'a>
    requires { number < length (kept_fields archive.now file) }
    ensures there { slice_get (kept_fields archive.now file) number ≡ Some (fields_of result) }
{
    match file {
        IndexFile::Packages => archive.stanza_of_binary(number),
        IndexFile::Sources => archive.stanza_of_source(number),
    }
}

// The marks of a file's stanzas that binary packages, or sources, were kept of, from one with a
// number up to another.
fn mark_range(
    alloc: Global,
    archive: &Archive<'_, '_>,
    file: IndexFile,
    tracker: &Tracker<'_>,
    matchers: &mut Vec<Matcher>,
    from: usize,
    to: usize,
) -> Result<Vec<Mark>, AllocError>
    requires order { from ≤ to }
    requires within { to ≤ length (kept_fields archive.now file) }
    ensures marks { IfOk result (λ marks.
        MarkBetween (mark_by (map matcher_pattern matchers.old.items) (tracking tracker.now))
        (kept_fields archive.now file) from to marks.items) }
    // The marks are the same with any patterns that find alike.
    ensures alike { (ps : List Re) → AreAlike ps (map matcher_pattern matchers.old.items)
        → IfOk result (λ marks. MarkBetween (mark_by ps (tracking tracker.now))
        (kept_fields archive.now file) from to marks.items) }
    ensures same { map matcher_pattern matchers.new.items ≡ map matcher_pattern matchers.old.items }
{
    let mut marks = Vec::with_capacity(alloc, to - from)?;
    for number in from..to {
        let stanza = kept_stanza(archive, file, number);
        marks.push(mark_of(tracker, &stanza, matchers))?;
    }
    Ok(marks)
}

// The marks of a file's stanzas from one with a number up to another, by the tracker of a text. The
// text is read anew: a thread may borrow it, but not what `regex` made of it. What `regex` makes of
// it again finds alike.
fn between_by_text(
    alloc: Global,
    archive: &Archive<'_, '_>,
    file: IndexFile,
    text: &str,
    from: usize,
    to: usize,
) -> Result<Vec<Mark>, AllocError>
    requires order { from ≤ to }
    requires within { to ≤ length (kept_fields archive.now file) }
    ensures { AreMarksByText archive.now file text.now from to result }
{
    let Ok(tracker) = Tracker::read(alloc, text) else {
        return Err(AllocError);
    };
    let mut matchers = matchers_of(alloc, tracker.patterns.as_slice())?;
    mark_range(alloc, archive, file, &tracker, &mut matchers, from, to)
}

// The marks of packages from one with a number up to another by the tracker of a text. One thread
// makes those before a number in the middle, and another thread the rest.
fn pair_by_text<R: Threads + Sync>(
    rt: &R,
    alloc: Global,
    archive: &Archive<'_, '_>,
    text: &str,
    from: usize,
    middle: usize,
    to: usize,
) -> Result<Vec<Mark>, AllocError>
    requires order { (from ≤ middle) × (middle ≤ to) }
    requires within { to ≤ length archive.now.binaries }
    ensures { AreMarksByText archive.now Packages text.now from to result }
{
    let packages = IndexFile::Packages;
    let of_front = move || -> Result<Vec<Mark>, AllocError>
        requires { (from ≤ middle) × (middle ≤ length (kept_fields archive.now packages)) }
        ensures { AreMarksByText archive.entry.now packages text.entry.now from middle
            result }
    { between_by_text(alloc, archive, packages, text, from, middle) };
    let of_rest = move || -> Result<Vec<Mark>, AllocError>
        requires { (middle ≤ to) × (to ≤ length (kept_fields archive.now packages)) }
        ensures { AreMarksByText archive.entry.now packages text.entry.now middle to result }
    { between_by_text(alloc, archive, packages, text, middle, to) };
    let (front, rest) = thread::join(rt, of_front, of_rest);
    let mut marks = front?;
    let mut others = rest?;
    marks.append(&mut others)?;
    Ok(marks)
}

// The marks of the packages from one with a number on, and of the sources before another.
fn rest_by_tracker(
    alloc: Global,
    archive: &Archive<'_, '_>,
    tracker: &Tracker<'_>,
    from: usize,
    cut: usize,
) -> Result<(Vec<Mark>, Vec<Mark>), AllocError>
    requires from { from ≤ length archive.now.binaries }
    requires cut { cut ≤ length archive.now.sources }
    ensures { AreRestAndFirst archive.now (tracking tracker.now) from cut result }
{
    let mut matchers = matchers_of(alloc, tracker.patterns.as_slice())?;
    let to = archive.binary_count();
    let file = IndexFile::Packages;
    let packages = mark_range(alloc, archive, file, tracker, &mut matchers, from, to)?;
    let file = IndexFile::Sources;
    let sources = mark_range(alloc, archive, file, tracker, &mut matchers, 0, cut)?;
    Ok((packages, sources))
}

// The marks of the packages from one with a number on, and of all sources: a thread makes those
// from another number on by the text.
fn rest_and_sources<R: Threads + Sync>(
    rt: &R,
    alloc: Global,
    archive: &Archive<'_, '_>,
    tracker: &Tracker<'_>,
    text: &str,
    from: usize,
    cut: usize,
) -> Result<(Vec<Mark>, Vec<Mark>), AllocError>
    requires text { IsTracker text.now (tracking tracker.now) }
    requires from { from ≤ length archive.now.binaries }
    requires cut { cut ≤ length archive.now.sources }
    ensures { AreRestAndSources archive.now (tracking tracker.now) from result }
{
    let to = archive.source_count();
    let of_sources = move || -> Result<Vec<Mark>, AllocError>
        requires { (cut ≤ to) × (to ≡ length archive.now.sources) }
        ensures { AreMarksByText archive.entry.now Sources text.entry.now cut
            (length archive.entry.now.sources) result }
    { between_by_text(alloc, archive, IndexFile::Sources, text, cut, to) };
    let of_rest = move || -> Result<(Vec<Mark>, Vec<Mark>), AllocError>
        requires { (from ≤ length archive.now.binaries) × (cut ≤ length archive.now.sources) }
        ensures { AreRestAndFirst archive.entry.now (tracking tracker.entry.now) from cut result }
    { rest_by_tracker(alloc, archive, tracker, from, cut) };
    let (behind, rest) = thread::join(rt, of_sources, of_rest);
    let mut behind = behind?;
    let (packages, mut sources) = rest?;
    sources.append(&mut behind)?;
    Ok((packages, sources))
}

/// The marks of packages and of sources by a tracker of the text. Each of four threads has about as
/// many stanzas: two of them the first packages, one the last sources, and one all others.
pub fn mark_stanzas<R: Threads + Sync>(
    rt: &R,
    alloc: Global,
    archive: &Archive<'_, '_>,
    tracker: &Tracker<'_>,
    text: &str,
) -> Result<(Vec<Mark>, Vec<Mark>), AllocError>
    requires text { IsTracker text.now (tracking tracker.now) }
    ensures packages { IfOk result (λ p. p.0.items
        ≡ map (mark_on (tracking tracker.now)) (kept_fields archive.now Packages)) }
    ensures sources { IfOk result (λ p. p.1.items
        ≡ map (mark_on (tracking tracker.now)) (kept_fields archive.now Sources)) }
{
    let (packages, sources) = (archive.binary_count(), archive.source_count());
    let share = packages / 4 + sources / 4;
    let first = share.min(packages / 2);
    let second = 2 * first;
    let cut = sources - share.min(sources);
    let of_front = move || -> Result<Vec<Mark>, AllocError>
        requires { IsSync R.row × (first ≤ second) × (second ≤ length archive.now.binaries) }
        ensures { AreMarksByText archive.entry.now Packages text.entry.now 0 second result }
    { pair_by_text(rt, alloc, archive, text, 0, first, second) };
    let of_rest = move || -> Result<(Vec<Mark>, Vec<Mark>), AllocError>
        requires { IsSync R.row × IsTracker text.now (tracking tracker.now)
            × (second ≤ length archive.now.binaries) × (cut ≤ length archive.now.sources) }
        ensures { AreRestAndSources archive.entry.now (tracking tracker.entry.now) second result }
    { rest_and_sources(rt, alloc, archive, tracker, text, second, cut) };
    let (front, rest) = thread::join(rt, of_front, of_rest);
    let mut packages = front?;
    let (mut others, sources) = rest?;
    packages.append(&mut others)?;
    Ok((packages, sources))
}
