//! The subcommand `simulate`: the steps on standard input are played, and their answers written.
ghost use Rattle.std.specs.Prelude.{◌≡◌, ◌≤◌, false, length, string_bytes, IfOk, IfErr, IfSome};
ghost use Rattle.std.specs.Prelude.{OnOk, OnSome};
ghost use Rattle.std.specs.Result.{ForOk};
ghost use Rattle.td_tool.specs.Ends.{Ends};
ghost use Rattle.td_tool.specs.Explained.{IsTextKept, known_input};
ghost use Rattle.td_tool.specs.Limits.{input_limit};
ghost use Rattle.td_tool.specs.Played.{IsUnread, IsUntold, TellsSo, TextEnds, kept_of};
ghost use Rattle.td_tool.specs.Ran.{NoNotes, Ran};
ghost use Rattle.td_tool.specs.Streams.{DueTo, IsDue};

use crate::ending::{Ended, Ending, ending_of_simulation, ending_of_text};
use std::alloc::Global;
use td_bytes::{Reader, TextFault, Writer, read_text, write_whole};
use td_simulate::{Simulated, SimulationFault, simulate_text};

/// The longest standard input, in bytes.
pub const INPUT_LIMIT: usize = 1_048_576;

// How a run ends by what was simulated, or by why nothing was.
fn tell<W: Writer>(told: Result<Simulated, SimulationFault>, output: &mut W) -> Ending
    ensures told { IfOk told (λ t.
        TellsSo t (W.contents output.old) (W.contents output.new) result) }
    ensures untold { IfErr told (λ fault.
        IsUntold fault (W.contents output.old) (W.contents output.new) result) }
    ensures due { IsDue false (W.can_fail output.old) result }
{
    let told = match told {
        Ok(told) => told,
        Err(fault) => return ending_of_simulation(fault),
    };
    match write_whole(output, told.text.as_bytes()) {
        Ok(()) if told.refused => Ending::Refused,
        Ok(()) => Ending::Done,
        Err(_) => Ending::CannotWrite,
    }
}

// How a run ends by what was read of standard input. The text is kept.
fn play<W: Writer>(alloc: Global, read: Result<String, TextFault>, output: &mut W) -> Ended
    requires { ForOk read (λ text. length (string_bytes text) ≤ input_limit) }
    ensures text { IfOk read (λ text.
        TextEnds (string_bytes text) (W.contents output.old)
        (W.contents output.new) result.ending) }
    ensures unread { IfErr read (λ fault.
        IsUnread fault (W.contents output.old) (W.contents output.new) result.ending) }
    ensures due { OnOk read (IsDue false (W.can_fail output.old) result.ending) }
    ensures kept { result.input ≡ kept_of read }
    ensures noted { result.notes ≡ None }
{
    let text = match read {
        Ok(text) => text,
        Err(fault) => return ending_of_text(fault).alone(),
    };
    let ending = tell(simulate_text(alloc, text.as_str()), output);
    Ended {
        ending,
        input: Some(text),
        notes: None,
    }
}

// Plays the simulation that the reader has. All is read before anything is written, and kept.
pub(crate) fn read_and_play<R: Reader, W: Writer>(
    alloc: Global,
    reader: &mut R,
    output: &mut W,
) -> Ended
    ensures ends { Ends (R.remaining reader.old) (W.contents output.old) (W.contents output.new)
        result.ending }
    ensures due { IsDue (R.can_fail reader.old) (W.can_fail output.old) result.ending }
    ensures steady { OnSome result.input (R.can_fail reader.new ≡ R.can_fail reader.old) }
    ensures kept { IfSome result.input (λ kept.
        IfSome (R.remaining reader.old) (λ all. all ≡ string_bytes kept)) }
    ensures short { IfSome result.input (λ kept. length (string_bytes kept) ≤ input_limit) }
    ensures text { IsTextKept result.ending result.input }
    ensures noted { result.notes ≡ None }
{
    let read = read_text(alloc, reader, INPUT_LIMIT, 0);
    play(alloc, read, output)
}

/// The subcommand by itself: it plays the simulation that the reader has, and answers the program's
/// status. It takes no words, waits for nobody, and explains no refusal.
pub fn simulate<R: Reader, W: Writer, E: Writer>(
    alloc: Global,
    reader: &mut R,
    output: &mut W,
    faults: &mut E,
) -> u8
    ensures { Ran (DueTo (R.can_fail reader.old) (W.can_fail output.old)
        (Ends (R.remaining reader.old) (W.contents output.old) (W.contents output.new))) NoNotes
        false (known_input (R.remaining reader.old)) (E.contents faults.old) (E.contents faults.new)
        result }
{
    let ended = read_and_play(alloc, reader, output);
    ended.ending.answer(faults)
}
