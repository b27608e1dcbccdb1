//! A transition with the rows that a report of all opening rows needs: those of the affected
//! sources.
ghost use Rattle.std.specs.Prelude.{List, ℕ, IfOk};
ghost use denote.Param.Send.{IsSync};
ghost use Rattle.td_indices.specs.Choosing.{AreOpenedOf, flagged};
ghost use Rattle.td_waves.specs.Levels.{IsDepth, StandsAt};
ghost use Rattle.td_waves.specs.Waves.{BuildsOn, IsAffected};
ghost use Rattle.td_waves.specs.WavesView.{depth_of, level_of};

use crate::transition::Transition;
use std::alloc::{AllocError, Global};
use std::thread;
use std::thread::Threads;
use td_indices::Archive;
use td_query::{Marks, Tracker};
use td_rows::Rows;
use td_waves::Waves;

// The rows with which the sources open whose flag is set, and in another thread the levels of the
// sources with these names.
fn rows_and_waves<'a, R: Threads + Sync>(
    rt: &R,
    alloc: Global,
    archive: &Archive<'_, 'a>,
    flags: &[bool],
    names: &[&'a str],
) -> (Result<Rows, AllocError>, Result<Waves<'a>, AllocError>)
    ensures rows { IfOk result.0
        (AreOpenedOf archive.now (flagged flags.now archive.now.sources)) }
    ensures levels { IfOk result.1 (λ waves. (source : List ℕ) → StandsAt
        (IsAffected names.now) (BuildsOn archive.now) source (level_of waves source)) }
    ensures depth { IfOk result.1 (λ waves. IsDepth (level_of waves) (depth_of waves)) }
{
    let of_rows = move || -> Result<Rows, AllocError>
        ensures { IfOk result (AreOpenedOf archive.entry.now
            (flagged flags.entry.now archive.entry.now.sources)) }
    { archive.opening_rows_of(flags) };
    let of_waves = move || -> Result<Waves, AllocError>
        requires { IsSync R.row }
        ensures levels { IfOk result (λ waves. (source : List ℕ) → StandsAt
            (IsAffected names.entry.now) (BuildsOn archive.entry.now) source
            (level_of waves source)) }
        ensures depth { IfOk result (λ waves. IsDepth (level_of waves) (depth_of waves)) }
    { Waves::of(rt, alloc, archive, names) };
    thread::join(rt, of_rows, of_waves)
}

impl<'b, 't, 'a, 'q> Transition<'b, 't, 'a, 'q> {
    ghost use Rattle.std.specs.Prelude.{◌≡◌, IfOk};
    ghost use Rattle.td_query.specs.Tracking.{IsTracker, tracking};
    ghost use Rattle.td_report.specs.OpeningRows.{StandForAll};
    ghost use Rattle.td_report.specs.TransitionView as of;

    /// The transition of a text's tracker over an archive, and the rows with which the affected
    /// sources open. What a report says of these it says of all with which a desk opens over the
    /// archive, since no other is affected.
    pub fn with_opening_rows(
        rt: &(impl Threads + Sync),
        alloc: Global,
        archive: &'b Archive<'t, 'a>,
        tracker: &'b Tracker<'q>,
        text: &str,
    ) -> Result<(Transition<'b, 't, 'a, 'q>, Rows), AllocError>
        requires { IsTracker text.now (tracking tracker.now) }
        ensures made { IfOk result (λ p. of.IsMade p.0) }
        ensures archive { IfOk result (λ p. of.contents_of p.0 ≡ archive.now) }
        ensures tracking { IfOk result (λ p. of.tracking_of p.0 ≡ tracking tracker.now) }
        ensures rows { IfOk result (λ p. StandForAll p.0 p.1) }
    {
        let marks = Marks::make(rt, alloc, archive, tracker, text)?;
        let flags = marks.affected_flags(rt, alloc, archive)?;
        let names = archive.names_of(alloc, &flags)?;
        let (rows, waves) = rows_and_waves(rt, alloc, archive, &flags, &names);
        let transition = Transition {
            archive,
            tracker,
            marks,
            waves: waves?,
        };
        Ok((transition, rows?))
    }
}
