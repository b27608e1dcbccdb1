//! The subcommand `run` without builders, if what there is to say of the script's lines is asked
//! for.
ghost use Rattle.std.specs.Prelude.{◌≡◌, Some, None, IfSome};
ghost use Rattle.std.specs.Prelude.{Bool, IsErrOf, List, MatchResult, Option, false, option_map};
ghost use Rattle.std.specs.Prelude.{string_bytes, true, ℕ};
ghost use Rattle.td_script.specs.Ends.{Plays};
ghost use Rattle.td_script.specs.Openings.{texts_of};
ghost use Rattle.td_lines.specs.Notes.{IsNoted};
ghost use Rattle.td_tool.specs.Runs.{AreNotes, EndsRun};
ghost use Rattle.td_tool.specs.RunInside.{IsNotedOver, IsStopped, PlaysInputs, PlaysUnread};
ghost use Rattle.td_tool.specs.RunInside.{run_files_at, stopped_of};
ghost use Rattle.td_tool.specs.Streams.{IsDue};
ghost use Rattle.td_tool.specs.UnreadFiles.{tells_of_unread_file};

use crate::ending::{Ended, Ending};
use crate::running::{ending_of_script, inputs_for, play_alone, run_alone};
use crate::texts::Texts;
use std::alloc::Global;
use std::io;
use std::thread::Threads;
use td_bytes::{Reader, TextFault, Writer, read_text};
use td_lines::note_script;
use td_script::{Inputs, RunFault, SCRIPT_LIMIT, ScriptEnd, run_script};
use td_words::RunRequest;

// Why a run stops that has no script, by how an empty one is answered: the fault of the files comes
// before that of standard input.
fn stopped(judged: Result<ScriptEnd, RunFault>, why: TextFault) -> Result<ScriptEnd, RunFault>
    ensures { result ≡ stopped_of judged why }
{
    match judged {
        Err(RunFault::Input(fault)) => Err(RunFault::Input(fault)),
        Err(_) => Err(RunFault::NoMemory),
        Ok(_) => match why {
            TextFault::CannotRead => Err(RunFault::Read),
            TextFault::TooLong => Err(RunFault::TooLong),
            TextFault::NotText => Err(RunFault::NotText),
            TextFault::NoMemory => Err(RunFault::NoMemory),
        },
    }
}

// Why a run stops that has no script, for this.
fn stop_unread(
    rt: &(impl Threads + Sync),
    alloc: Global,
    inputs: &Inputs,
    why: TextFault,
) -> Result<ScriptEnd, RunFault>
    ensures stops { IsStopped (texts_of inputs.now) why result }
    ensures read { IsErrOf result RunFault.Read → why ≡ TextFault.CannotRead }
    ensures write { IsErrOf result RunFault.Write → false ≡ true }
{
    let mut nothing: &[u8] = b"";
    let judged = run_script(rt, alloc, inputs, &mut nothing, &mut io::sink());
    stopped(judged, why)
}

// How a run ends whose script isn't read, for this. Nothing is written.
fn play_unread(rt: &(impl Threads + Sync), alloc: Global, inputs: &Inputs, why: TextFault) -> Ending
    ensures plays { (kept : Option (List ℕ)) → PlaysUnread inputs.now why kept kept result }
    ensures due { (input output : Bool) → (why ≡ TextFault.CannotRead → input ≡ true)
        → IsDue input output result }
    ensures told { tells_of_unread_file result ≡ false }
{
    ending_of_script(stop_unread(rt, alloc, inputs, why))
}

// What is said of the lines of a script, if they were answered.
fn notes_if(
    rt: &(impl Threads + Sync),
    alloc: Global,
    inputs: &Inputs,
    script: &str,
    ending: Ending,
) -> Option<String>
    ensures { IfSome result (λ notes. Plays IsNoted (texts_of inputs.now) (Some script.now)
        (λ text refused. string_bytes notes ≡ text)) }
{
    match ending {
        Ending::Done | Ending::Refused => note_script(rt, alloc, inputs, script),
        Ending::BadInput(_, _)
        | Ending::NoMemory
        | Ending::CannotRead(_)
        | Ending::CannotWrite
        | Ending::Locked
        | Ending::CannotKeep => None,
    }
}

// How a script ends, over its inputs, with what is said of its lines.
fn play_text<W: Writer>(
    rt: &(impl Threads + Sync),
    alloc: Global,
    inputs: &Inputs,
    script: &str,
    output: &mut W,
) -> Ended
    ensures plays { PlaysInputs 0 inputs.now (Some script.now)
        (W.contents output.old) (W.contents output.new) result.ending }
    ensures due { IsDue false (W.can_fail output.old) result.ending }
    ensures told { tells_of_unread_file result.ending ≡ false }
    ensures noted { IfSome result.notes (IsNotedOver (texts_of inputs.now) (Some script.now)) }
    ensures none { result.input ≡ None }
{
    let mut reader = script.as_bytes();
    let ending = play_alone(rt, alloc, inputs, &mut reader, output);
    Ended {
        ending,
        input: None,
        notes: notes_if(rt, alloc, inputs, script, ending),
    }
}

// How a run ends by what was read of its script, over its inputs, with what is said of its lines.
fn play_read<W: Writer>(
    rt: &(impl Threads + Sync),
    alloc: Global,
    inputs: &Inputs,
    read: Result<String, TextFault>,
    output: &mut W,
) -> Ended
    ensures plays { MatchResult read
        (λ text. PlaysInputs 0 inputs.now (Some (string_bytes text))
        (W.contents output.old) (W.contents output.new) result.ending)
        (λ why. PlaysUnread inputs.now why
        (W.contents output.old) (W.contents output.new) result.ending) }
    ensures due { MatchResult read
        (λ text. IsDue false (W.can_fail output.old) result.ending)
        (λ why. (input output : Bool) → (why ≡ TextFault.CannotRead → input ≡ true)
        → IsDue input output result.ending) }
    ensures told { tells_of_unread_file result.ending ≡ false }
    ensures noted { MatchResult read
        (λ text. IfSome result.notes
        (IsNotedOver (texts_of inputs.now) (Some (string_bytes text))))
        (λ why. result.notes ≡ None) }
    ensures none { result.input ≡ None }
{
    match read {
        Ok(script) => play_text(rt, alloc, inputs, script.as_str(), output),
        Err(why) => play_unread(rt, alloc, inputs, why).alone(),
    }
}

// How the reader's script ends, over its inputs, with what is said of its lines.
fn play_noted<R: Reader, W: Writer>(
    rt: &(impl Threads + Sync),
    alloc: Global,
    inputs: &Inputs,
    reader: &mut R,
    output: &mut W,
) -> Ended
    ensures plays { PlaysInputs 0 inputs.now
        (R.remaining reader.old) (W.contents output.old) (W.contents output.new) result.ending }
    ensures due { IsDue (R.can_fail reader.old) (W.can_fail output.old) result.ending }
    ensures told { tells_of_unread_file result.ending ≡ false }
    ensures noted { IfSome result.notes
        (IsNotedOver (texts_of inputs.now) (R.remaining reader.old)) }
    ensures none { result.input ≡ None }
{
    let read = read_text(alloc, reader, SCRIPT_LIMIT, 0);
    play_read(rt, alloc, inputs, read, output)
}

// As `run_alone`, with what is said of the lines of the script.
fn run_noted<T: Texts + Sync, R: Reader, W: Writer>(
    rt: &(impl Threads + Sync),
    alloc: Global,
    texts: &T,
    request: &RunRequest,
    reader: &mut R,
    output: &mut W,
) -> Ended
    requires { request.now.builders ≡ 0 }
    ensures ends { EndsRun
        (run_files_at (T.bytes texts.now) (T.can_fail texts.now) request.now)
        (string_bytes request.now.suite)
        (R.remaining reader.old) (R.remaining reader.new)
        (W.contents output.old) (W.contents output.new) result.ending }
    ensures due { IsDue (R.can_fail reader.old) (W.can_fail output.old) result.ending }
    ensures noted { IfSome (option_map string_bytes result.notes) (AreNotes
        (run_files_at (T.bytes texts.now) (T.can_fail texts.now) request.now)
        (string_bytes request.now.suite) (R.remaining reader.old)) }
    ensures none { result.input ≡ None }
{
    let inputs = match inputs_for(rt, alloc, texts, request) {
        Ok(inputs) => inputs,
        Err(ending) => return ending.alone(),
    };
    let ended = play_noted(rt, alloc, &inputs, reader, output);
    drop(inputs);
    ended
}

/// Answers the script that the reader has, over the files that are asked for, without builders.
/// What there is to say of its lines is kept if that is asked for.
pub fn run_explained<T: Texts + Sync, R: Reader, W: Writer>(
    rt: &(impl Threads + Sync),
    alloc: Global,
    explained: bool,
    texts: &T,
    request: &RunRequest,
    reader: &mut R,
    output: &mut W,
) -> Ended
    requires { request.now.builders ≡ 0 }
    ensures ends { EndsRun
        (run_files_at (T.bytes texts.now) (T.can_fail texts.now) request.now)
        (string_bytes request.now.suite)
        (R.remaining reader.old) (R.remaining reader.new)
        (W.contents output.old) (W.contents output.new) result.ending }
    ensures due { IsDue (R.can_fail reader.old) (W.can_fail output.old) result.ending }
    ensures noted { IfSome (option_map string_bytes result.notes) (AreNotes
        (run_files_at (T.bytes texts.now) (T.can_fail texts.now) request.now)
        (string_bytes request.now.suite) (R.remaining reader.old)) }
    ensures none { result.input ≡ None }
{
    if explained {
        run_noted(rt, alloc, texts, request, reader, output)
    } else {
        run_alone(rt, alloc, texts, request, reader, output).alone()
    }
}
