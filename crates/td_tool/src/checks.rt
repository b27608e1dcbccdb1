//! The check that was asked for, with a tracker or without.
ghost use Rattle.std.specs.Prelude.{◌≡◌, true};
ghost use Rattle.td_words.specs.Asked.{check_words};
ghost use Rattle.td_tool.specs.CheckEnds.{CheckEnds};

use crate::checking::check;
use crate::ending::Ending;
use crate::texts::Texts;
use crate::track_files::TrackPaths;
use crate::tracking::track_details;
use std::alloc::Global;
use std::thread::Threads;
use td_bytes::Writer;
use td_words::CheckRequest;

/// Counts what the indices of a request's paths hold, and tells details if they are asked for, with
/// what a tracker asks if one is given. All is read before anything is written.
pub fn check_asked<R: Threads + Sync, T: Texts + Sync, W: Writer>(
    rt: &R,
    alloc: Global,
    texts: &T,
    request: &CheckRequest,
    output: &mut W,
) -> Ending
    ensures ends { CheckEnds (T.bytes texts.now) (T.can_fail texts.now) (check_words request.now)
        (W.contents output.old) (W.contents output.new) result }
    ensures due { result ≡ Ending.CannotWrite → W.can_fail output.old ≡ true }
{
    let Some(tracker) = &request.tracker else {
        return check(rt, alloc, texts, request, output);
    };
    let paths = TrackPaths {
        files: &request.files,
        state: &None,
        tracker,
    };
    track_details(rt, alloc, texts, &paths, output)
}
