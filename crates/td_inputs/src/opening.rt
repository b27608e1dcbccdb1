//! The opening of texts: each is read in its order, and what they say is lent.
ghost use Rattle.std.specs.Prelude.{◌≡◌, ◌<◌, ◌^◌, Ok, Err, Some, IfOk, IfErr, length, option_map};
ghost use Rattle.td_text.specs.Lines.{lines_of};
ghost use Rattle.td_relation.specs.TableView.{table};
ghost use Rattle.td_inputs.specs.Inputs.{AreReadable};
ghost use Rattle.td_inputs.specs.Opened.{AreGivenRows, IsGivenTracker, IsOpened, IsUnopened};
ghost use Rattle.td_inputs.specs.Opened.{MayFail, of_form, texts_of};
ghost use Rattle.td_inputs.specs.inner.Reading.{IsArchiveAt, IsOnlyTable, IsOpenedOver, Stops};
ghost use Rattle.td_inputs.specs.inner.Reading.{StopsAtIndices, StopsAtRows, StopsAtTable};
ghost use Rattle.td_inputs.specs.inner.Reading.{StopsAtTracker, StopsOver};
ghost use Rattle.td_inputs.specs.declared.opened.Opened.{Opened as OpenedValue};

use crate::form_fault::FormFault;
use crate::input_texts::InputTexts;
use crate::open_fault::{OpenFault, fault_of};
use crate::opened::{GivenTracker, Opened};
use crate::state_over::put_state_over;
use std::alloc::{AllocError, Global};
use std::mem;
use std::thread::Threads;
use td_indices::{Archive, ArchiveFault, IndexText};
use td_query::{Tracker, TrackerFault};
use td_relation::{Archs, ArchsFault};
use td_rows::Rows;

// The table that was read, or its fault.
fn table_of(read: Result<Archs<'_>, ArchsFault>) -> Result<Archs<'_>, OpenFault>
    ensures read { IfOk read.entry (λ archs. result ≡ Ok archs) }
    ensures fault { IfErr read.entry (λ fault. result ≡ Err (of_form (FormFault.Table fault))) }
{
    match read {
        Ok(archs) => Ok(archs),
        Err(fault) => Err(fault_of(FormFault::Table(fault))),
    }
}

// The table of architectures.
fn read_table(alloc: Global, text: &str) -> Result<Archs<'_>, OpenFault>
    requires { length text.now < 2 ^ 63 }
    ensures table { IfOk result (λ archs. IsOnlyTable (lines_of text.now) (table archs)) }
    ensures stops { IfErr result (StopsAtTable text.now) }
{
    let read = Archs::read(alloc, text);
    table_of(read)
}

// The archive that was read, or the fault of its indices.
fn archive_of<'t, 'a>(
    read: Result<Archive<'t, 'a>, ArchiveFault>,
) -> Result<Archive<'t, 'a>, OpenFault>
    ensures read { IfOk read.entry (λ archive. result ≡ Ok archive) }
    ensures fault { IfErr read.entry (λ fault. result ≡ Err (of_form (FormFault.Archive fault))) }
{
    match read {
        Ok(archive) => Ok(archive),
        Err(fault) => Err(fault_of(FormFault::Archive(fault))),
    }
}

// The archive of the indices.
fn read_archive<'t, 'a>(
    rt: &(impl Threads + Sync),
    alloc: Global,
    archs: &'t Archs<'a>,
    packages: IndexText<'a>,
    sources: IndexText<'a>,
) -> Result<Archive<'t, 'a>, OpenFault>
    ensures archive { IfOk result (IsArchiveAt (table archs.now) packages.entry sources.entry) }
    ensures stops { IfErr result
        (StopsAtIndices (table archs.now) packages.entry sources.entry) }
{
    let read = Archive::of_texts(rt, alloc, packages, sources, archs);
    archive_of(read)
}

// The rows as those of a state file that was given, or its fault.
fn some_rows(put: Result<Rows, OpenFault>) -> Result<Option<Rows>, OpenFault>
    ensures put { IfOk put (λ rows. result ≡ Ok (Some rows)) }
    ensures fault { IfErr put (λ fault. result ≡ Err fault) }
{
    match put {
        Ok(rows) => Ok(Some(rows)),
        Err(fault) => Err(fault),
    }
}

// If a state file is given, its rows instead of those with which a desk opens.
fn given_rows(
    alloc: Global,
    archive: &Archive<'_, '_>,
    state: Option<&str>,
) -> Result<Option<Rows>, OpenFault>
    ensures rows { IfOk result
        (AreGivenRows archive.now (option_map (λ s. s.now) state.entry)) }
    ensures stops { IfErr result
        (StopsAtRows archive.now (option_map (λ s. s.now) state.entry)) }
{
    let Some(text) = state else {
        return Ok(None);
    };
    let rows = match archive.opening_rows() {
        Ok(rows) => rows,
        Err(AllocError) => return Err(OpenFault::NoMemory),
    };
    // (`len` says that the keys of the rows rise)
    let _rising = rows.len();
    let put = put_state_over(alloc, rows, text);
    some_rows(put)
}

// The tracker that was read of a text, with the text, or its fault.
fn tracker_of<'i>(
    read: Result<Tracker<'i>, TrackerFault>,
    text: &'i str,
) -> Result<Option<GivenTracker<'i>>, OpenFault>
    ensures read { IfOk read.entry (λ tracker.
        result ≡ Ok (Some (record { tracker = tracker; text = text.entry }))) }
    ensures fault { IfErr read.entry (λ fault. result ≡ Err (of_form (FormFault.Tracker fault))) }
{
    match read {
        Ok(tracker) => Ok(Some(GivenTracker { tracker, text })),
        Err(fault) => Err(fault_of(FormFault::Tracker(fault))),
    }
}

// The tracker of a text, if one is given.
fn given_tracker(alloc: Global, text: Option<&str>) -> Result<Option<GivenTracker<'_>>, OpenFault>
    ensures tracker { IfOk result (IsGivenTracker (option_map (λ s. s.now) text.entry)) }
    ensures stops { IfErr result (StopsAtTracker (option_map (λ s. s.now) text.entry)) }
{
    let Some(text) = text else {
        return Ok(None);
    };
    let read = Tracker::read(alloc, text);
    tracker_of(read, text)
}

// What `f` makes of the archive, and of what is given over it.
fn open_over<'i, T, F: FnOnce(Opened<'_, '_, 'i, '_, 'i>) -> T>(
    alloc: Global,
    archive: &Archive<'_, 'i>,
    state: Option<&'i str>,
    tracker: Option<&'i str>,
    f: F,
) -> Result<T, OpenFault>
    requires { (opened : OpenedValue)
        → IsOpenedOver archive.now (option_map (λ s. s.now) state)
        (option_map (λ s. s.now) tracker) opened
        → F.pre f opened }
    ensures made { IfOk result (λ made.
        (opened : OpenedValue)
        × IsOpenedOver archive.now (option_map (λ s. s.now) state.entry)
        (option_map (λ s. s.now) tracker.entry) opened
        × F.post f opened made) }
    ensures stops { IfErr result
        (StopsOver archive.now (option_map (λ s. s.now) state.entry)
        (option_map (λ s. s.now) tracker.entry)) }
{
    let rows = match given_rows(alloc, archive, state) {
        Ok(rows) => rows,
        Err(fault) => return Err(fault),
    };
    let tracker = match given_tracker(alloc, tracker) {
        Ok(tracker) => tracker,
        Err(fault) => return Err(fault),
    };
    Ok(f(Opened {
        archive,
        rows,
        tracker: tracker.as_ref(),
    }))
}

// What `f` makes of texts whose table is this one.
fn open_with<'i, R: Threads + Sync, T, F: FnOnce(Opened<'_, '_, 'i, '_, 'i>) -> T>(
    rt: &R,
    alloc: Global,
    archs: &Archs<'i>,
    texts: InputTexts<'i>,
    f: F,
) -> Result<T, OpenFault>
    requires table { IsOnlyTable (lines_of texts.archs.now) (table archs.now) }
    requires callable { (opened : OpenedValue) → IsOpened (texts_of texts) opened
        → F.pre f opened }
    ensures made { IfOk result (λ made.
        (opened : OpenedValue) × IsOpened (texts_of texts.entry) opened × F.post f opened made) }
    ensures stops { IfErr result (Stops (texts_of texts.entry)) }
{
    let InputTexts {
        archs: _,
        packages,
        sources,
        state,
        tracker,
    } = texts;
    match read_archive(rt, alloc, archs, packages, sources) {
        Ok(archive) => {
            let made = open_over(alloc, &archive, state, tracker, f);
            // (the program ends with what is made: to free each list by itself would only take
            // time)
            mem::forget(archive);
            made
        }
        Err(fault) => Err(fault),
    }
}

/// Opens the texts one after the other, and lends what they say to `f`: the first fault is named,
/// in the order of the table, the indices, the state file and the tracker.
pub fn open_texts<'i, R: Threads + Sync, T, F: FnOnce(Opened<'_, '_, 'i, '_, 'i>) -> T>(
    rt: &R,
    alloc: Global,
    texts: InputTexts<'i>,
    f: F,
) -> Result<T, OpenFault>
    requires { (opened : OpenedValue) → IsOpened (texts_of texts) opened → F.pre f opened }
    // What is answered is what `f` makes of what the texts say.
    ensures made { IfOk result (λ made.
        (opened : OpenedValue) × IsOpened (texts_of texts.entry) opened × F.post f opened made) }
    ensures refused { IfErr result (IsUnopened (texts_of texts.entry)) }
    // Readable texts are opened, unless memory runs out or `regex` refuses a pattern.
    ensures only { IfErr result (λ fault.
        AreReadable (texts_of texts.entry) → MayFail (texts_of texts.entry) fault) }
{
    let archs = match read_table(alloc, texts.archs) {
        Ok(archs) => archs,
        Err(fault) => return Err(fault),
    };
    open_with(rt, alloc, &archs, texts, f)
}
