//! The files of a tracker over an archive.
ghost use Rattle.std.specs.Prelude.{IfOk, IfErr, option_map, string_bytes};
ghost use Rattle.td_tool.specs.CheckInside.{AreFlags};
ghost use Rattle.td_tool.specs.Tracks.{IsTextIfGiven, file_at};
ghost use Rattle.td_tool.specs.TrackInside.{AreTextsRead, HasFailedAt, HasFailedIfGiven, files_at};

use crate::early_texts::{EarlyTexts, read_early};
use crate::file_texts::{FileFault, read_one};
use crate::texts::Texts;
use std::alloc::Global;
use std::thread::Threads;
use td_inputs::Role;
use td_words::ArchivePaths;

/// The paths of the files.
#[derive(Clone, Copy)]
pub struct TrackPaths<'w> {
    pub files: &'w ArchivePaths,
    /// Rows to use instead of those that the indices say.
    pub state: &'w Option<String>,
    pub tracker: &'w String,
}

/// What is looked at over an archive: rows, if there are some, and a tracker.
#[derive(Drop)]
pub struct TrackerTexts {
    pub state: Option<String>,
    pub tracker: String,
}

/// What the files hold.
#[derive(Drop)]
pub struct TrackTexts {
    pub indices: EarlyTexts,
    pub over: TrackerTexts,
}

/// Reads the file of a role, if one is given.
pub fn read_given<T: Texts>(
    alloc: Global,
    texts: &T,
    role: Role,
    path: &Option<String>,
) -> Result<Option<String>, FileFault>
    ensures text { IfOk result (λ text. IsTextIfGiven
        (option_map (file_at (T.bytes texts.now) (T.can_fail texts.now))
        (option_map string_bytes path.now))
        (option_map string_bytes text)) }
    ensures failed { IfErr result (HasFailedIfGiven
        (option_map (file_at (T.bytes texts.now) (T.can_fail texts.now))
        (option_map string_bytes path.now)) role) }
{
    match path {
        Some(path) => match read_one(alloc, texts, role, path) {
            Ok(text) => Ok(Some(text)),
            Err(fault) => Err(fault),
        },
        None => Ok(None),
    }
}

/// Reads all files before any fault of what they say is found.
pub fn read_track_files<T: Texts + Sync>(
    rt: &(impl Threads + Sync),
    alloc: Global,
    texts: &T,
    paths: &TrackPaths<'_>,
) -> Result<TrackTexts, FileFault>
    ensures texts { IfOk result (AreTextsRead
        (files_at (T.bytes texts.now) (T.can_fail texts.now) paths.now)) }
    ensures cut { IfOk result (λ x. AreFlags x.indices) }
    ensures failed { IfErr result (HasFailedAt
        (files_at (T.bytes texts.now) (T.can_fail texts.now) paths.now)) }
{
    let indices = read_early(rt, alloc, texts, paths.files)?;
    let state = read_given(alloc, texts, Role::State, paths.state)?;
    let tracker = read_one(alloc, texts, Role::Tracker, paths.tracker)?;
    Ok(TrackTexts {
        indices,
        over: TrackerTexts { state, tracker },
    })
}
