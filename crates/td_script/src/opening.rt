//! The answers to a script over the texts of files.
ghost use Rattle.std.specs.Prelude.{◌≡◌, ◌<◌, ◌^◌, ◌-◌, ◌∷◌, ℕ, [], List, None, Option, Some, IfOk};
ghost use Rattle.std.specs.Prelude.{IfErr, IfSome, Ok, Err, length};
ghost use Rattle.td_core.specs.Phases.{NoneBuilt};
ghost use Rattle.td_indices.specs.Supplying.{supply_of};
ghost use Rattle.td_inputs.specs.Inputs.{AreReadable, AreRowsOf, IsArchiveOf, IsJournalIfGiven};
ghost use Rattle.td_inputs.specs.Inputs.{IsReadableOver};
ghost use Rattle.td_inputs.specs.Opened.{AreGivenRows, IsOpened, texts_of as texts_opened};
ghost use Rattle.td_query.specs.Tracking.{IsTracker, tracking};
ghost use Rattle.td_report.specs.TransitionView.{IsMade};
ghost use Rattle.td_script.specs.Asking.{CanAnswer};
ghost use Rattle.td_script.specs.Reporting.{report_by};
ghost use Rattle.td_script.specs.Settings.{setting_lent};
ghost use Rattle.td_script.specs.Openings.{texts_lent, texts_of};
ghost use Rattle.td_script.specs.OpeningInside.{IsToldFrom, IsUntold, Stops, TellsOrRefuses};
ghost use Rattle.td_script.specs.OpeningInside.{of_journal, of_opening, opening_texts};

use crate::files::Files;
use crate::inputs::Inputs;
use crate::running::RunFault;
use crate::staff::{Asked, Staff};
use crate::told::Told;
use std::alloc::{AllocError, Global};
use std::thread::Threads;
use td_indices::{Archive, IndexText};
use td_inputs::{FormFault, GivenTracker, InputTexts, OpenFault, Opened, open_texts};
use td_journal::ReadError;
use td_report::Transition;
use td_rows::Rows;

// Why a run stops if its texts aren't opened for this.
fn fault_of(fault: OpenFault) -> RunFault
    ensures { result ≡ of_opening fault }
{
    match fault {
        OpenFault::Refused(fault) => RunFault::Input(fault),
        OpenFault::NoMemory => RunFault::NoMemory,
    }
}

// What was answered, or the fault of the journal.
fn told_or_refused(told: Result<Told, ReadError>) -> Result<Told, RunFault>
    ensures told { IfOk told (λ t. result ≡ Ok t) }
    ensures refused { IfErr told (λ fault. result ≡ Err (of_journal fault)) }
{
    match told {
        Ok(told) => Ok(told),
        Err(ReadError::NoMemory) => Err(RunFault::NoMemory),
        Err(fault) => Err(RunFault::Input(FormFault::Journal(fault))),
    }
}

// The texts that are opened.
fn texts_in<'i>(rt: &(impl Threads + Sync), alloc: Global, files: Files<'i>) -> InputTexts<'i>
    ensures { texts_opened result ≡ opening_texts (texts_lent files.entry) }
{
    let packages = IndexText::read(rt, alloc, files.packages);
    let sources = IndexText::read(rt, alloc, files.sources);
    InputTexts {
        archs: files.archs,
        packages,
        sources,
        state: files.state,
        tracker: files.tracker,
    }
}

// The rows from which a script starts: those that are given, or those with which the archive opens.
fn rows_of(archive: &Archive<'_, '_>, given: Option<Rows>) -> Result<Rows, AllocError>
    ensures rows { (state : Option (List ℕ)) → AreGivenRows archive.now state given
        → IfOk result (AreRowsOf archive.now state) }
    ensures idle { (state : Option (List ℕ)) → AreGivenRows archive.now state given
        → IfOk result NoneBuilt }
{
    match given {
        Some(rows) => Ok(rows),
        None => {
            let rows = archive.opening_rows()?;
            // (`len` says that the keys of the rows rise)
            let _rising = rows.len();
            Ok(rows)
        }
    }
}

/// A script over the texts of files, and who answers it.
#[derive(Drop)]
pub struct Run<'r, S: Staff, F: Fn(Asked) -> Result<Told, ReadError>> {
    pub alloc: Global,
    pub staff: &'r S,
    pub tell: &'r F,
    pub files: Files<'r>,
    pub script: &'r str,
    ghost small: { length script.now < 2 ^ 63 - 1 },
}

impl<S: Staff, F: Fn(Asked) -> Result<Told, ReadError>> Run<'_, S, F> {
    // The answers from these rows, or from the journal over them that is gone on with, over what
    // an archive offers.
    fn tell_from(
        &self,
        archive: &Archive<'_, '_>,
        rows: Rows,
        reports: Option<&Transition<'_, '_, '_, '_>>,
    ) -> Result<Told, RunFault>
        requires answers { CanAnswer (S.tells self.now.staff.now) (F.pre self.now.tell.now)
            (F.post self.now.tell.now) }
        requires idle { NoneBuilt rows }
        requires made { IfSome reports (λ r. IsMade r.now) }
        ensures told { IfOk result
            (IsToldFrom (S.tells self.now.staff.now)
            (setting_lent report_by (supply_of archive.now) (self.now.files.suite ∷ [])
            reports.entry) (texts_lent self.now.files).journal rows self.now.script.now) }
        ensures refused { IfErr result (IsUntold rows (texts_lent self.now.files).journal) }
        ensures only { IfErr result (λ fault.
            IsJournalIfGiven rows (texts_lent self.now.files).journal
            → fault ≡ RunFault.NoMemory) }
    {
        let asked = Asked {
            alloc: self.alloc,
            archive,
            rows,
            suite: self.files.suite,
            journal: self.files.journal,
            reports,
            script: self.script,
        };
        told_or_refused((self.tell)(asked))
    }

    // The answers from these rows with the reports of a tracker.
    fn tell_tracked(
        &self,
        rt: &(impl Threads + Sync),
        archive: &Archive<'_, '_>,
        rows: Rows,
        given: &GivenTracker<'_>,
    ) -> Result<Told, RunFault>
        requires answers { CanAnswer (S.tells self.now.staff.now) (F.pre self.now.tell.now)
            (F.post self.now.tell.now) }
        requires archive { IsArchiveOf (texts_lent self.now.files) archive.now }
        requires rows { AreRowsOf archive.now (texts_lent self.now.files).state rows }
        requires given { (texts_lent self.now.files).tracker ≡ Some given.now.text.now }
        requires tracker { IsTracker given.now.text.now (tracking given.now.tracker) }
        requires idle { NoneBuilt rows }
        ensures tells { TellsOrRefuses (S.tells self.now.staff.now) (texts_lent self.now.files)
            self.now.script.now result }
        ensures only { IfErr result (λ fault.
            IsJournalIfGiven rows (texts_lent self.now.files).journal
            → fault ≡ RunFault.NoMemory) }
    {
        match Transition::of(rt, self.alloc, archive, &given.tracker, given.text) {
            Ok(transition) => {
                let told = self.tell_from(archive, rows, Some(&transition));
                drop(transition);
                told
            }
            Err(AllocError) => Err(RunFault::NoMemory),
        }
    }

    // The answers from these rows without reports.
    fn tell_untracked(&self, archive: &Archive<'_, '_>, rows: Rows) -> Result<Told, RunFault>
        requires answers { CanAnswer (S.tells self.now.staff.now) (F.pre self.now.tell.now)
            (F.post self.now.tell.now) }
        requires archive { IsArchiveOf (texts_lent self.now.files) archive.now }
        requires rows { AreRowsOf archive.now (texts_lent self.now.files).state rows }
        requires tracker { (texts_lent self.now.files).tracker ≡ None }
        requires idle { NoneBuilt rows }
        ensures tells { TellsOrRefuses (S.tells self.now.staff.now) (texts_lent self.now.files)
            self.now.script.now result }
        ensures only { IfErr result (λ fault.
            IsJournalIfGiven rows (texts_lent self.now.files).journal
            → fault ≡ RunFault.NoMemory) }
    {
        self.tell_from(archive, rows, None)
    }

    // The answers over what was opened of the texts.
    fn tell_opened(
        &self,
        rt: &(impl Threads + Sync),
        opened: Opened<'_, '_, '_, '_, '_>,
    ) -> Result<Told, RunFault>
        requires answers { CanAnswer (S.tells self.now.staff.now) (F.pre self.now.tell.now)
            (F.post self.now.tell.now) }
        requires opened { IsOpened (opening_texts (texts_lent self.now.files)) opened }
        ensures tells { TellsOrRefuses (S.tells self.now.staff.now) (texts_lent self.now.files)
            self.now.script.now result }
        ensures only { IfErr result (λ fault.
            AreReadable (texts_lent self.now.files) → Stops (texts_lent self.now.files) fault) }
    {
        let Opened {
            archive,
            rows,
            tracker,
        } = opened;
        let rows = match rows_of(archive, rows) {
            Ok(rows) => rows,
            Err(AllocError) => return Err(RunFault::NoMemory),
        };
        match tracker {
            Some(given) => self.tell_tracked(rt, archive, rows, given),
            None => self.tell_untracked(archive, rows),
        }
    }

    /// The answers to the script. The texts of the files are judged first.
    pub fn tell_all<R: Threads + Sync>(&self, rt: &R) -> Result<Told, RunFault>
        requires answers { CanAnswer (S.tells self.now.staff.now) (F.pre self.now.tell.now)
            (F.post self.now.tell.now) }
        ensures tells { TellsOrRefuses (S.tells self.now.staff.now) (texts_lent self.now.files)
            self.now.script.now result }
        ensures only { IfErr result (λ fault.
            AreReadable (texts_lent self.now.files) → Stops (texts_lent self.now.files) fault) }
    {
        let texts = texts_in(rt, self.alloc, self.files);
        let tell = move |opened: Opened| -> Result<Told, RunFault>
            requires answers { CanAnswer (S.tells self.now.staff.now) (F.pre self.now.tell.now)
                (F.post self.now.tell.now) }
            requires opened { IsOpened (opening_texts (texts_lent self.now.files)) opened }
            ensures tells { TellsOrRefuses (S.tells self.entry.now.staff.now)
                (texts_lent self.entry.now.files) self.entry.now.script.now result }
            ensures only { IfErr result (λ fault.
                AreReadable (texts_lent self.entry.now.files)
                → Stops (texts_lent self.entry.now.files) fault) }
        { self.tell_opened(rt, opened) };
        let told = open_texts(rt, self.alloc, texts, tell);
        match told {
            Ok(told) => told,
            Err(fault) => Err(fault_of(fault)),
        }
    }
}

/// The answers to a script over the texts of inputs.
pub fn tell_over<S: Staff, F: Fn(Asked) -> Result<Told, ReadError>>(
    rt: &(impl Threads + Sync),
    alloc: Global,
    staff: &S,
    tell: &F,
    inputs: &Inputs,
    script: &str,
) -> Result<Told, RunFault>
    requires answers { CanAnswer (S.tells staff.now) (F.pre tell.now) (F.post tell.now) }
    requires small { length script.now < 2 ^ 63 - 1 }
    ensures tells { TellsOrRefuses (S.tells staff.now) (texts_of inputs.now) script.now result }
    ensures only { IfErr result (λ fault.
        AreReadable (texts_of inputs.now) → Stops (texts_of inputs.now) fault) }
{
    let run = Run {
        alloc,
        staff,
        tell,
        files: Files::of(inputs),
        script,
    };
    run.tell_all(rt)
}
