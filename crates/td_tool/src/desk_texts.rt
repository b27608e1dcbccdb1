//! The files that are read for a desk.
ghost use Rattle.std.specs.Prelude.{IfOk, IfErr};
ghost use Rattle.td_tool.specs.RunInside.{HasRunFailed};
ghost use Rattle.td_tool.specs.DeskInside.{AreDeskTexts, desk_files_at};

use crate::file_texts::{FileFault, FileTexts, read_files};
use crate::texts::Texts;
use crate::track_files::read_given;
use std::alloc::Global;
use std::thread::Threads;
use td_inputs::Role;
use td_words::DeskRequest;

/// What the files of a desk hold, except its own.
#[derive(Drop)]
pub struct DeskTexts {
    pub indices: FileTexts,
    pub state: Option<String>,
    pub tracker: Option<String>,
}

/// Reads all files of a desk, except its own, before anything is looked at.
pub fn read_desk_files<T: Texts + Sync>(
    rt: &(impl Threads + Sync),
    alloc: Global,
    texts: &T,
    request: &DeskRequest,
) -> Result<DeskTexts, FileFault>
    ensures texts { IfOk result (AreDeskTexts
        (desk_files_at (T.bytes texts.now) (T.can_fail texts.now) request.now)) }
    ensures failed { IfErr result (HasRunFailed
        (desk_files_at (T.bytes texts.now) (T.can_fail texts.now) request.now)) }
{
    let indices = read_files(rt, alloc, texts, &request.files)?;
    let state = read_given(alloc, texts, Role::State, &request.state)?;
    let tracker = read_given(alloc, texts, Role::Tracker, &request.tracker)?;
    Ok(DeskTexts {
        indices,
        state,
        tracker,
    })
}
