//! The files of a run.
ghost use Rattle.std.specs.Prelude.{IfOk, IfErr};
ghost use Rattle.td_tool.specs.RunInside.{AreRunTexts, HasRunFailed, run_files_at};

use crate::file_texts::{FileFault, FileTexts, read_files};
use crate::texts::Texts;
use crate::track_files::read_given;
use std::alloc::Global;
use std::thread::Threads;
use td_inputs::Role;
use td_words::RunRequest;

/// What the files of a run hold.
#[derive(Drop)]
pub struct RunTexts {
    pub indices: FileTexts,
    pub state: Option<String>,
    pub tracker: Option<String>,
    pub outcomes: Option<String>,
    pub journal: Option<String>,
}

/// Reads all files of a run before anything is looked at.
pub fn read_run_files<T: Texts + Sync>(
    rt: &(impl Threads + Sync),
    alloc: Global,
    texts: &T,
    request: &RunRequest,
) -> Result<RunTexts, FileFault>
    ensures texts { IfOk result (AreRunTexts
        (run_files_at (T.bytes texts.now) (T.can_fail texts.now) request.now)) }
    ensures failed { IfErr result (HasRunFailed
        (run_files_at (T.bytes texts.now) (T.can_fail texts.now) request.now)) }
{
    let indices = read_files(rt, alloc, texts, &request.files)?;
    let state = read_given(alloc, texts, Role::State, &request.state)?;
    let tracker = read_given(alloc, texts, Role::Tracker, &request.tracker)?;
    let outcomes = read_given(alloc, texts, Role::Outcomes, &request.outcomes)?;
    let journal = read_given(alloc, texts, Role::Journal, &request.journal)?;
    Ok(RunTexts {
        indices,
        state,
        tracker,
        outcomes,
        journal,
    })
}
