//! A session over the texts of files: they are judged, then the desk's file is opened, then lines
//! are answered.
ghost use Rattle.std.specs.Prelude.{◌≡◌, IfErr, None, Some, option_map, true};
ghost use Rattle.td_query.specs.Tracking.{IsTracker, tracking};
ghost use Rattle.td_inputs.specs.Inputs.{AreReadable, IsArchiveOf};
ghost use Rattle.td_session.specs.Grounds.{texts_of};
ghost use Rattle.td_session.specs.Sessions.{ComesFirst, Ends, IsDue, IsTurnOver, MayRefuse};
ghost use Rattle.td_session.specs.inner.Grounding.{IsGroundOf};
ghost use Rattle.td_session.specs.inner.Judging.{IsUngrounded};

use crate::desk_file::DeskFile;
use crate::fault::SessionFault;
use crate::ground::Ground;
use crate::grounding::ground_over;
use crate::held::{Held, unopened};
use crate::holding::hold_found;
use crate::judging::why_no_ground;
use crate::texts::SessionTexts;
use std::alloc::{AllocError, Global};
use std::mem;
use std::thread::Threads;
use td_bytes::Writer;
use td_indices::Archive;
use td_inputs::{GivenTracker, given_text};
use td_lasting::Turns;
use td_ledger::Device;
use td_query::Tracker;
use td_relation::Archs;
use td_report::Transition;

// A session whose texts are refused, or for which memory runs out.
fn refused<D: Device>(rt: &(impl Threads + Sync), alloc: Global, texts: &SessionTexts) -> Held<D>
    ensures file { result.file ≡ None }
    ensures refused { IsUngrounded (texts_of texts.now) result.end }
{
    unopened(why_no_ground(rt, alloc, texts))
}

/// A session over texts.
#[derive(Drop)]
struct Session<'s> {
    alloc: Global,
    texts: &'s SessionTexts,
}

impl Session<'_> {
    // A session over the archive that the texts are, with the reports of their tracker.
    fn hold_tracked<F: DeskFile, W: Writer, R: Turns<W>>(
        &self,
        rt: &(impl Threads + Sync),
        archive: &Archive<'_, '_>,
        ground: Ground<'_>,
        given: &GivenTracker<'_>,
        file: &mut F,
        reader: &mut R,
        writer: &mut W,
    ) -> Held<F::Opened>
        requires archive { IsArchiveOf (texts_of self.now.texts.now) archive.now }
        requires ground { IsGroundOf (texts_of self.now.texts.now) archive.now ground }
        requires given { (texts_of self.now.texts.now).tracker ≡ Some given.now.text.now }
        requires tracker { IsTracker given.now.text.now (tracking given.now.tracker) }
        requires turn { (r : R) → (w : W) → IsTurnOver (texts_of self.now.texts.now)
            (F.found file.old) (R.left reader.old) (R.left r) (W.contents writer.old)
            (W.contents w) → R.is_turn r w ≡ true }
        ensures ends { Ends (texts_of self.now.texts.now) (F.found file.old)
            (option_map F.Opened.known result.file)
            (R.left reader.old) (R.left reader.new)
            (W.contents writer.old) (W.contents writer.new) result.end }
        ensures untouched { IfErr result.end (λ e.
            ComesFirst e → F.is_touched file.new ≡ F.is_touched file.old) }
        ensures only { IfErr result.end (MayRefuse (texts_of self.now.texts.now)) }
        ensures due { IsDue (F.can_refuse file.old) (R.may_fail reader.old)
            (W.can_fail writer.old) result.end }
    {
        match Transition::of(rt, self.alloc, archive, &given.tracker, given.text) {
            Ok(transition) => hold_found(
                self.alloc,
                file,
                ground,
                self.texts.suite.as_str(),
                Some(&transition),
                reader,
                writer,
            ),
            Err(AllocError) => unopened(SessionFault::NoMemory),
        }
    }

    // A session over the archive that the texts are.
    fn hold_over<F: DeskFile, W: Writer, R: Turns<W>>(
        &self,
        rt: &(impl Threads + Sync),
        archive: &Archive<'_, '_>,
        file: &mut F,
        reader: &mut R,
        writer: &mut W,
    ) -> Held<F::Opened>
        requires archive { IsArchiveOf (texts_of self.now.texts.now) archive.now }
        requires turn { (r : R) → (w : W) → IsTurnOver (texts_of self.now.texts.now)
            (F.found file.old) (R.left reader.old) (R.left r) (W.contents writer.old)
            (W.contents w) → R.is_turn r w ≡ true }
        ensures ends { Ends (texts_of self.now.texts.now) (F.found file.old)
            (option_map F.Opened.known result.file)
            (R.left reader.old) (R.left reader.new)
            (W.contents writer.old) (W.contents writer.new) result.end }
        ensures untouched { IfErr result.end (λ e.
            ComesFirst e → F.is_touched file.new ≡ F.is_touched file.old) }
        ensures only { AreReadable (texts_of self.now.texts.now)
            → IfErr result.end (MayRefuse (texts_of self.now.texts.now)) }
        ensures due { IsDue (F.can_refuse file.old) (R.may_fail reader.old)
            (W.can_fail writer.old) result.end }
    {
        let Some(ground) = ground_over(self.alloc, self.texts, archive) else {
            return refused(rt, self.alloc, self.texts);
        };
        let Some(text) = given_text(&self.texts.tracker) else {
            let suite = self.texts.suite.as_str();
            return hold_found(self.alloc, file, ground, suite, None, reader, writer);
        };
        let Ok(tracker) = Tracker::read(self.alloc, text) else {
            return refused(rt, self.alloc, self.texts);
        };
        let given = GivenTracker { tracker, text };
        self.hold_tracked(rt, archive, ground, &given, file, reader, writer)
    }
}

/// Holds a session: judges the texts as before a script, in the order of the table, the indices,
/// the state file and the tracker; then opens the desk's file, or makes it; then answers the lines
/// that the reader has, each before the next is read, and writes an answer only when what it tells
/// is on the disk.
pub fn hold_session<F: DeskFile, W: Writer, R: Turns<W>>(
    rt: &(impl Threads + Sync),
    alloc: Global,
    texts: &SessionTexts,
    file: &mut F,
    reader: &mut R,
    writer: &mut W,
) -> Held<F::Opened>
    // More is read only when all whole lines that were read are answered.
    requires turn { (r : R) → (w : W) → IsTurnOver (texts_of texts.now) (F.found file.old)
        (R.left reader.old) (R.left r) (W.contents writer.old) (W.contents w)
        → R.is_turn r w ≡ true }
    ensures ends { Ends (texts_of texts.now) (F.found file.old)
        (option_map F.Opened.known result.file) (R.left reader.old) (R.left reader.new)
        (W.contents writer.old) (W.contents writer.new) result.end }
    // Where a text is refused, no file is made or opened.
    ensures untouched { IfErr result.end (λ e.
        ComesFirst e → F.is_touched file.new ≡ F.is_touched file.old) }
    // Readable texts are refused only if memory runs out or `regex` refuses a pattern.
    ensures only { AreReadable (texts_of texts.now)
        → IfErr result.end (MayRefuse (texts_of texts.now)) }
    ensures due { IsDue (F.can_refuse file.old) (R.may_fail reader.old) (W.can_fail writer.old)
        result.end }
{
    let Ok(archs) = Archs::read(alloc, texts.archs.as_str()) else {
        return refused(rt, alloc, texts);
    };
    let packages = texts.packages.as_str();
    let Ok(archive) = Archive::read(rt, alloc, packages, texts.sources.as_str(), &archs) else {
        return refused(rt, alloc, texts);
    };
    let session = Session { alloc, texts };
    let held = session.hold_over(rt, &archive, file, reader, writer);
    // (the program ends with the session: to free each list by itself would only take time)
    mem::forget(archive);
    held
}
