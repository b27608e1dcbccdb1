//! The subcommand `run`: a script over the rows of an archive.
ghost use Rattle.std.specs.Prelude.{◌≡◌, ◌≢◌, ℕ, false, Err, IfOk, IfErr, string_bytes};
ghost use Rattle.std.specs.Result.{ForOk};
ghost use Rattle.td_tool.specs.Ending.{ending_of_file as ending_of_file_as};
ghost use Rattle.td_tool.specs.Runs.{EndsRun, ending_of_crew as ending_of_crew_as};
ghost use Rattle.td_tool.specs.Runs.{ending_of_script as ending_of_script_as};
ghost use Rattle.td_tool.specs.RunInside.{AreInputsFor, AreInputsOf, HasNoInputs, IsWithinLimit};
ghost use Rattle.td_tool.specs.RunInside.{PlaysInputs, run_files_at, run_texts_of};
ghost use Rattle.td_tool.specs.Streams.{IsDue};
ghost use Rattle.td_tool.specs.UnreadFiles.{tells_of_unread_file};

use crate::ending::{Ending, ending_of_file, ending_of_stop};
use crate::file_texts::FileFault;
use crate::input_fault::InputFault;
use crate::run_files::{RunTexts, read_run_files};
use crate::texts::Texts;
use std::alloc::{AllocError, Global};
use std::sync::Wait;
use std::thread::Threads;
use td_board::MAX_BUILDERS;
use td_bytes::{Reader, Writer};
use td_crew::{CrewFault, run_crew};
use td_inputs::Role;
use td_script::{Inputs, RunFault, ScriptEnd, run_script};
use td_words::RunRequest;

// How a run ends by how its script did.
pub(crate) fn ending_of_script(end: Result<ScriptEnd, RunFault>) -> Ending
    ensures { result ≡ ending_of_script_as end }
{
    match end {
        Ok(end) if end.refusals == 0 => Ending::Done,
        Ok(_) => Ending::Refused,
        Err(fault) => ending_of_stop(fault),
    }
}

// How a run ends by how its crew did.
fn ending_of_crew(end: Result<ScriptEnd, CrewFault>) -> Ending
    ensures { result ≡ ending_of_crew_as end }
{
    match end {
        Ok(end) => ending_of_script(Ok(end)),
        Err(CrewFault::Run(fault)) => ending_of_stop(fault),
        Err(CrewFault::BadOutcome(line)) => {
            Ending::BadInput(Role::Outcomes, InputFault::BadOutcome(line))
        }
    }
}

// What the script runs over.
fn inputs_of(alloc: Global, texts: RunTexts, request: &RunRequest) -> Result<Inputs, AllocError>
    requires { IsWithinLimit texts }
    ensures { IfOk result (AreInputsOf (run_texts_of texts) (string_bytes request.now.suite)
        request.now.builders) }
{
    Ok(Inputs {
        archs: texts.indices.archs,
        packages: texts.indices.packages,
        sources: texts.indices.sources,
        state: texts.state,
        tracker: texts.tracker,
        journal: texts.journal,
        suite: String::from_str(alloc, request.suite.as_str())?,
        outcomes: texts.outcomes,
        builders: request.builders.min(MAX_BUILDERS),
    })
}

// The inputs that were read, or how a run ends without them.
fn inputs_by(
    alloc: Global,
    read: Result<RunTexts, FileFault>,
    request: &RunRequest,
) -> Result<Inputs, Ending>
    requires { ForOk read IsWithinLimit }
    ensures inputs { IfOk read (λ texts.
        IfOk result (AreInputsOf (run_texts_of texts) (string_bytes request.now.suite)
        request.now.builders)) }
    ensures memory { IfOk read (λ _. IfErr result (λ ending. ending ≡ Ending.NoMemory)) }
    ensures unread { IfErr read (λ f. result ≡ Err (ending_of_file_as f.role f.fault)) }
{
    let read = match read {
        Ok(read) => read,
        Err(unread) => return Err(ending_of_file(unread.role, unread.fault)),
    };
    match inputs_of(alloc, read, request) {
        Ok(inputs) => Ok(inputs),
        Err(_) => Err(Ending::NoMemory),
    }
}

// The inputs that the files of a run hold, or how the run ends without them.
pub(crate) fn inputs_for<T: Texts + Sync>(
    rt: &(impl Threads + Sync),
    alloc: Global,
    texts: &T,
    request: &RunRequest,
) -> Result<Inputs, Ending>
    ensures inputs { IfOk result (AreInputsFor
        (run_files_at (T.bytes texts.now) (T.can_fail texts.now) request.now)
        (string_bytes request.now.suite)) }
    ensures none { IfErr result (HasNoInputs
        (run_files_at (T.bytes texts.now) (T.can_fail texts.now) request.now)) }
{
    let read = read_run_files(rt, alloc, texts, request);
    inputs_by(alloc, read, request)
}

// How the reader's script ends, over its inputs. Nobody builds at the same time.
pub(crate) fn play_alone<R: Reader, W: Writer>(
    rt: &(impl Threads + Sync),
    alloc: Global,
    inputs: &Inputs,
    reader: &mut R,
    output: &mut W,
) -> Ending
    ensures plays { PlaysInputs 0 inputs.now
        (R.remaining reader.old) (W.contents output.old) (W.contents output.new) result }
    ensures due { IsDue (R.can_fail reader.old) (W.can_fail output.old) result }
    ensures told { tells_of_unread_file result ≡ false }
{
    ending_of_script(run_script(rt, alloc, inputs, reader, output))
}

// How the reader's script ends, over its inputs, while builders build.
fn play_with_builders<R: Reader, W: Writer>(
    rt: &(impl Threads + Wait + Sync),
    alloc: Global,
    inputs: &Inputs,
    reader: &mut R,
    output: &mut W,
) -> Ending
    ensures plays { (builders : ℕ) → builders ≢ 0 → PlaysInputs builders inputs.now
        (R.remaining reader.old) (W.contents output.old) (W.contents output.new) result }
    ensures due { IsDue (R.can_fail reader.old) (W.can_fail output.old) result }
    ensures told { tells_of_unread_file result ≡ false }
{
    ending_of_crew(run_crew(rt, alloc, inputs, reader, output))
}

/// Answers the script that the reader has, over the files that are asked for, without builders.
/// They are read before the script, and all of it before anything is written. It waits for nobody.
pub fn run_alone<T: Texts + Sync, R: Reader, W: Writer>(
    rt: &(impl Threads + Sync),
    alloc: Global,
    texts: &T,
    request: &RunRequest,
    reader: &mut R,
    output: &mut W,
) -> Ending
    requires { request.now.builders ≡ 0 }
    ensures ends { EndsRun
        (run_files_at (T.bytes texts.now) (T.can_fail texts.now) request.now)
        (string_bytes request.now.suite)
        (R.remaining reader.old) (R.remaining reader.new)
        (W.contents output.old) (W.contents output.new) result }
    ensures due { IsDue (R.can_fail reader.old) (W.can_fail output.old) result }
{
    let inputs = match inputs_for(rt, alloc, texts, request) {
        Ok(inputs) => inputs,
        Err(ending) => return ending,
    };
    let ending = play_alone(rt, alloc, &inputs, reader, output);
    drop(inputs);
    ending
}

/// Answers the reader's script with as many builders as are asked for, and may wait for them.
pub fn run_with_builders<T: Texts + Sync, R: Reader, W: Writer>(
    rt: &(impl Threads + Wait + Sync),
    alloc: Global,
    texts: &T,
    request: &RunRequest,
    reader: &mut R,
    output: &mut W,
) -> Ending
    requires { request.now.builders ≢ 0 }
    ensures ends { EndsRun
        (run_files_at (T.bytes texts.now) (T.can_fail texts.now) request.now)
        (string_bytes request.now.suite)
        (R.remaining reader.old) (R.remaining reader.new)
        (W.contents output.old) (W.contents output.new) result }
    ensures due { IsDue (R.can_fail reader.old) (W.can_fail output.old) result }
{
    let inputs = match inputs_for(rt, alloc, texts, request) {
        Ok(inputs) => inputs,
        Err(unread) => return unread,
    };
    let ending = play_with_builders(rt, alloc, &inputs, reader, output);
    drop(inputs);
    ending
}
