//! The subcommand `plan`: the lines of a transition, over the files that the words name.
ghost use Rattle.std.specs.Prelude.{◌≡◌, true};
ghost use Rattle.td_plan.specs.inner.Writing.{seen_words};
ghost use Rattle.td_words.specs.Asked.{plan_words};
ghost use Rattle.td_tool.specs.Program.{plan_files, words_asked};
ghost use Rattle.td_tool.specs.TrackInside.{words_given};
ghost use Rattle.td_tool.specs.Tracks.{EndsSo, IsPlanWith};

use crate::ending::Ending;
use crate::texts::Texts;
use crate::track_files::TrackPaths;
use crate::tracking::{Asked, track};
use std::alloc::Global;
use std::thread::Threads;
use td_bytes::Writer;
use td_plan::Words;
use td_words::{LineWords, PlanRequest};

// The message and the suite, as lines have them.
fn words_of(words: &LineWords) -> Words<'_>
    ensures { seen_words result ≡ words_given words.now }
{
    match Words::new(words.message.as_str(), words.suite.as_str()) {
        Ok(words) => words,
        Err(_) => unreachable!(),
    }
}

/// Tells the plan that is asked for. All is read before anything is written.
pub fn plan<R: Threads + Sync, T: Texts + Sync, W: Writer>(
    rt: &R,
    alloc: Global,
    texts: &T,
    request: &PlanRequest,
    output: &mut W,
) -> Ending
    ensures ends { EndsSo (IsPlanWith (words_asked (plan_words request.now)))
        (plan_files (T.bytes texts.now) (T.can_fail texts.now) (plan_words request.now))
        (W.contents output.old) (W.contents output.new) result }
    ensures due { result ≡ Ending.CannotWrite → W.can_fail output.old ≡ true }
{
    let paths = TrackPaths {
        files: &request.files,
        state: &request.state,
        tracker: &request.tracker,
    };
    let asked = Asked::Planned(words_of(&request.words));
    track(rt, alloc, texts, &paths, asked, output)
}
