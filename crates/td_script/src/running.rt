//! The run of a script: from the texts of files and the bytes of a reader to those of a writer.
ghost use Rattle.std.specs.Prelude.{◌≡◌, ◌⊎◌, ◌≤◌, Ok, Err, IfOk, IfErr, MatchResult, length};
ghost use Rattle.std.specs.Prelude.{true, IsErrOf, string_bytes};
ghost use Rattle.std.specs.Result.{ForOk};
ghost use Rattle.td_script.specs.Asking.{CanAnswer};
ghost use Rattle.td_script.specs.Limits.{script_limit};
ghost use Rattle.td_script.specs.Ends.{AreFine, Only, Says, SaysBy};
ghost use Rattle.td_script.specs.OpeningInside.{IsRefusedBy, IsUnread, Stops, TellsOrRefuses};
ghost use Rattle.td_script.specs.OpeningInside.{of_reading};
ghost use Rattle.td_inputs.specs.Inputs.{AreReadable, without_journal};
ghost use Rattle.td_script.specs.Openings.{texts_lent, texts_of};

use crate::files::Files;
use crate::inputs::Inputs;
use crate::opening::{Run, tell_over};
use crate::staff::{Alone, Asked, Staff, tell_alone};
use crate::told::Told;
use std::alloc::Global;
use std::thread::Threads;
use td_bytes::{Reader, TextFault, Writer, read_text, write_whole};
use td_inputs::FormFault;
use td_journal::ReadError;

/// The longest script, in bytes.
pub const SCRIPT_LIMIT: usize = 1_048_576;

/// What is left to say of a script that was answered.
#[derive(Clone, Copy, Debug, PartialEq, Eq, Drop)]
pub struct ScriptEnd {
    /// How many lines were refused.
    pub refusals: u64,
}

/// Why a run stopped. The faults of the files come first, then those of the script.
#[derive(Clone, Copy, Debug, PartialEq, Eq, Drop)]
pub enum RunFault {
    /// The text of a file is refused.
    Input(FormFault),
    /// The script can't be read.
    Read,
    /// The script is longer than the limit.
    TooLong,
    /// The script isn't UTF-8.
    NotText,
    /// The answers can't be written. A front of them was.
    Write,
    NoMemory,
}

// Why no script was read.
fn fault_of_text(fault: TextFault) -> RunFault
    ensures { result ≡ of_reading fault }
{
    match fault {
        TextFault::CannotRead => RunFault::Read,
        TextFault::TooLong => RunFault::TooLong,
        TextFault::NotText => RunFault::NotText,
        TextFault::NoMemory => RunFault::NoMemory,
    }
}

// Whether an empty script would be answered.
fn judged(told: Result<Told, RunFault>) -> Result<(), RunFault>
    ensures fine { IfOk told (λ _. result ≡ Ok tt) }
    ensures refused { IfErr told (λ fault. result ≡ Err fault) }
{
    match told {
        Ok(_) => Ok(()),
        Err(refused) => Err(refused),
    }
}

// Judges the texts that files lend.
fn judge_lent(rt: &(impl Threads + Sync), alloc: Global, files: Files<'_>) -> Result<(), RunFault>
    ensures fine { MatchResult result (λ _. AreFine (texts_lent files.entry))
        (IsRefusedBy (texts_lent files.entry)) }
    ensures only { IfErr result (λ fault.
        AreReadable (texts_lent files.entry) → Stops (texts_lent files.entry) fault) }
{
    let run = Run {
        alloc,
        staff: &Alone,
        tell: &tell_alone,
        files,
        script: "",
    };
    judged(run.tell_all(rt))
}

// Judges the texts of the files, as before each script.
fn judge(rt: &(impl Threads + Sync), alloc: Global, inputs: &Inputs) -> Result<(), RunFault>
    ensures fine { MatchResult result (λ _. AreFine (texts_of inputs.now))
        (IsRefusedBy (texts_of inputs.now)) }
    ensures only { IfErr result (λ fault.
        AreReadable (texts_of inputs.now) → Stops (texts_of inputs.now) fault) }
{
    judge_lent(rt, alloc, Files::of(inputs))
}

/// Judges the texts that come before the journal. A faulty line of outcomes comes after these and
/// before the journal.
pub fn judge_files(
    rt: &(impl Threads + Sync),
    alloc: Global,
    inputs: &Inputs,
) -> Result<(), RunFault>
    ensures fine { MatchResult result (λ _. AreFine (without_journal (texts_of inputs.now)))
        (IsRefusedBy (without_journal (texts_of inputs.now))) }
    ensures only { IfErr result (λ fault.
        AreReadable (without_journal (texts_of inputs.now))
        → Stops (without_journal (texts_of inputs.now)) fault) }
{
    judge_lent(rt, alloc, Files::of(inputs).without_journal())
}

// The answer if no script was read, for this: the fault of the files, if they have one.
fn unread(judged: Result<(), RunFault>, why: TextFault) -> Result<Told, RunFault>
    ensures fine { IfOk judged (λ _. result ≡ Err (of_reading why)) }
    ensures refused { IfErr judged (λ fault. result ≡ Err fault) }
{
    match judged {
        Ok(()) => Err(fault_of_text(why)),
        Err(refused) => Err(refused),
    }
}

// The answers to what was read. The files are judged before the script.
fn tell_read<S: Staff, F: Fn(Asked) -> Result<Told, ReadError>>(
    rt: &(impl Threads + Sync),
    alloc: Global,
    staff: &S,
    tell: &F,
    inputs: &Inputs,
    read: Result<String, TextFault>,
) -> Result<Told, RunFault>
    requires answers { CanAnswer (S.tells staff.now) (F.pre tell.now) (F.post tell.now) }
    requires within { ForOk read (λ text. length (string_bytes text) ≤ script_limit) }
    ensures read { IfOk read (λ text.
        TellsOrRefuses (S.tells staff.now) (texts_of inputs.now) (string_bytes text) result) }
    ensures only { IfOk read (λ _.
        IfErr result (λ fault.
        AreReadable (texts_of inputs.now) → Stops (texts_of inputs.now) fault)) }
    ensures unread { IfErr read (λ fault. IsUnread (texts_of inputs.now) fault result) }
    ensures unread_only { IfErr read (λ why.
        IfErr result (λ fault.
        AreReadable (texts_of inputs.now)
        → Stops (texts_of inputs.now) fault ⊎ (fault ≡ of_reading why))) }
{
    match read {
        Ok(text) => tell_over(rt, alloc, staff, tell, inputs, text.as_str()),
        Err(why) => unread(judge(rt, alloc, inputs), why),
    }
}

/// Answers the script that the reader has, over what the inputs say, as the staff tells it.
/// All is read and answered before anything is written.
pub fn run_with<S: Staff, F: Fn(Asked) -> Result<Told, ReadError>, R: Reader, W: Writer>(
    rt: &(impl Threads + Sync),
    alloc: Global,
    staff: &S,
    tell: &F,
    inputs: &Inputs,
    reader: &mut R,
    writer: &mut W,
) -> Result<ScriptEnd, RunFault>
    requires answers { CanAnswer (S.tells staff.now) (F.pre tell.now) (F.post tell.now) }
    ensures says { SaysBy (S.tells staff.now) (texts_of inputs.now) (R.remaining reader.old)
        (W.contents writer.old) (W.contents writer.new) result }
    ensures only { Only (texts_of inputs.now) (R.remaining reader.old) result }
    ensures unread { IsErrOf result RunFault.Read → R.can_fail reader.old ≡ true }
    ensures unwritten { IsErrOf result RunFault.Write → W.can_fail writer.old ≡ true }
{
    let read = read_text(alloc, reader, SCRIPT_LIMIT, 0);
    let told = tell_read(rt, alloc, staff, tell, inputs, read)?;
    match write_whole(writer, told.text.as_bytes()) {
        Ok(()) => Ok(ScriptEnd {
            refusals: told.refused,
        }),
        Err(_) => Err(RunFault::Write),
    }
}

/// Answers the script that the reader has, in a world without builders.
pub fn run_script<R: Reader, W: Writer>(
    rt: &(impl Threads + Sync),
    alloc: Global,
    inputs: &Inputs,
    reader: &mut R,
    writer: &mut W,
) -> Result<ScriptEnd, RunFault>
    ensures says { Says (texts_of inputs.now) (R.remaining reader.old) (W.contents writer.old)
        (W.contents writer.new) result }
    ensures only { Only (texts_of inputs.now) (R.remaining reader.old) result }
    ensures unread { IsErrOf result RunFault.Read → R.can_fail reader.old ≡ true }
    ensures unwritten { IsErrOf result RunFault.Write → W.can_fail writer.old ≡ true }
{
    run_with(rt, alloc, &Alone, &tell_alone, inputs, reader, writer)
}
