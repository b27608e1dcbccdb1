//! The run of a script by a crew: from the texts of files and the bytes of a reader to those of a
//! writer.
ghost use Rattle.std.specs.Prelude.{◌≡◌, [], true, IsErrOf, option_map, string_bytes, unwrap_or};
ghost use Rattle.td_builder.specs.OutcomeLines.{FaultOf};
ghost use Rattle.td_script.specs.Asking.{IsFit, IsToldOf};
ghost use Rattle.td_script.specs.Ends.{Only, SaysBy};
ghost use Rattle.td_inputs.specs.Inputs.{AreReadable, without_journal};
ghost use Rattle.td_script.specs.Openings.{texts_of};
ghost use Rattle.td_crew.specs.CrewEnds.{AreRead, CrewOnly, CrewSays, IsNoOutcomes, StopsSo};
ghost use Rattle.td_crew.specs.CrewEnds.{UnreadMayStop, crew_end, outcomes_of, unread_fault};
ghost use Rattle.td_crew.specs.CrewText.{crew_tells};

use crate::crew::{Crew, tell_script};
use std::alloc::Global;
use std::sync::Wait;
use std::thread::Threads;
use td_builder::{Builds, Outcomes, OutcomesFault};
use td_bytes::{Reader, Writer};
use td_journal::ReadError;
use td_script::{Asked, Inputs, RunFault, ScriptEnd, Told, judge_files, run_with};

/// Why a run by lines of outcomes stopped.
#[derive(Clone, Copy, Debug, PartialEq, Eq, Drop)]
pub enum CrewFault {
    /// The first line of the outcomes that isn't one. The faults of the other files come before it,
    /// except those of the journal.
    BadOutcome(usize),
    Run(RunFault),
}

/// Answers the script that the reader has, over what the inputs say, with as many builders as
/// they say, each of whom builds in this way. Then the desk is shut, the builders are joined, and
/// the rows are written.
/// All is read and answered before anything is written.
pub fn run_crew_with<
    R: Reader,
    W: Writer,
    B: Builds + Copy + Send + Sync,
    H: Threads + Wait + Sync,
>(
    rt: &H,
    alloc: Global,
    inputs: &Inputs,
    reader: &mut R,
    writer: &mut W,
    builds: B,
) -> Result<ScriptEnd, RunFault>
    ensures says { SaysBy (crew_tells inputs.now.builders) (texts_of inputs.now)
        (R.remaining reader.old) (W.contents writer.old) (W.contents writer.new) result }
    ensures only { Only (texts_of inputs.now) (R.remaining reader.old) result }
    ensures unread { IsErrOf result RunFault.Read → R.can_fail reader.old ≡ true }
    ensures unwritten { IsErrOf result RunFault.Write → W.can_fail writer.old ≡ true }
{
    let crew = Crew {
        builders: inputs.builders,
    };
    run_with(
        rt,
        alloc,
        &crew,
        &|asked: Asked| -> Result<Told, ReadError>
            requires { IsFit asked }
            ensures { IsToldOf (crew_tells crew.builders) asked.entry result }
        { tell_script(rt, crew, builds, asked) },
        inputs,
        reader,
        writer,
    )
}

// The lines that say how builds end.
fn lines_in(inputs: &Inputs) -> &str
    ensures { result.now ≡ unwrap_or (option_map string_bytes inputs.now.outcomes) [] }
{
    match &inputs.outcomes {
        Some(text) => text.as_str(),
        None => "",
    }
}

// Why no outcomes are read, by how the files before them were judged.
fn why_unread(judged: Result<(), RunFault>, fault: OutcomesFault) -> CrewFault
    ensures { result ≡ unread_fault judged fault }
{
    match judged {
        Err(refused) => CrewFault::Run(refused),
        Ok(()) => match fault {
            OutcomesFault::BadLine(line) => CrewFault::BadOutcome(line),
            OutcomesFault::NoMemory => CrewFault::Run(RunFault::NoMemory),
        },
    }
}

// Why no outcomes are read. The other files come before them, and the journal after them.
fn no_outcomes(
    rt: &(impl Threads + Sync),
    alloc: Global,
    inputs: &Inputs,
    fault: OutcomesFault,
) -> CrewFault
    requires { FaultOf (outcomes_of inputs.now) fault }
    ensures says { IsNoOutcomes (texts_of inputs.now) (outcomes_of inputs.now) result }
    ensures only { AreRead (outcomes_of inputs.now) → AreReadable (texts_of inputs.now)
        → StopsSo (texts_of inputs.now) result }
    ensures unread { AreReadable (without_journal (texts_of inputs.now))
        → UnreadMayStop (without_journal (texts_of inputs.now)) result }
{
    why_unread(judge_files(rt, alloc, inputs), fault)
}

// How a run ends whose outcomes are read.
fn ended(end: Result<ScriptEnd, RunFault>) -> Result<ScriptEnd, CrewFault>
    ensures { result ≡ crew_end end }
{
    match end {
        Ok(end) => Ok(end),
        Err(fault) => Err(CrewFault::Run(fault)),
    }
}

/// Answers the reader's script with builders whose builds end as the lines of the outcomes say.
pub fn run_crew<R: Reader, W: Writer, H: Threads + Wait + Sync>(
    rt: &H,
    alloc: Global,
    inputs: &Inputs,
    reader: &mut R,
    writer: &mut W,
) -> Result<ScriptEnd, CrewFault>
    ensures says { CrewSays (crew_tells inputs.now.builders) (texts_of inputs.now)
        (outcomes_of inputs.now) (R.remaining reader.old) (W.contents writer.old)
        (W.contents writer.new) result }
    ensures only { CrewOnly (texts_of inputs.now) (outcomes_of inputs.now) (R.remaining reader.old)
        result }
    ensures unread { IsErrOf result (CrewFault.Run RunFault.Read)
        → R.can_fail reader.old ≡ true }
    ensures unwritten { IsErrOf result (CrewFault.Run RunFault.Write)
        → W.can_fail writer.old ≡ true }
{
    let outcomes = match Outcomes::read(alloc, lines_in(inputs)) {
        Ok(outcomes) => outcomes,
        Err(fault) => return Err(no_outcomes(rt, alloc, inputs, fault)),
    };
    ended(run_crew_with(rt, alloc, inputs, reader, writer, &outcomes))
}
