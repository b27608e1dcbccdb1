//! The program: it does what its words ask for, and answers its status.
ghost use Rattle.std.specs.Prelude.{◌≡◌, ◌≢◌, ◌≤◌, ℕ, List, length, map, IfSome, IfNone, codes};
ghost use Rattle.std.specs.Prelude.{string_bytes, None, IsOkAnd, IfOk, IfErr, MatchResult};
ghost use Rattle.std.specs.Prelude.{option_map};
ghost use Rattle.std.specs.IoError.{error_kind};
ghost use Rattle.std.specs.Prelude.{OnOk, OnErr, OnSome};
ghost use Rattle.std.specs.Io.KnownBytes.{Appends, Keeps};
ghost use Rattle.td_bytes.specs.Pieces.{AppendsPrefix};
ghost use Rattle.td_report.specs.Transition.{IsReportOf};
ghost use Rattle.td_words.specs.CheckWords.{AskForCheck, CheckWords};
ghost use Rattle.td_words.specs.CommandLine.{AskFor, RunWords, TrackWords};
ghost use Rattle.td_words.specs.CommandLine.{WavesWords, is_explained, options_of};
ghost use Rattle.td_words.specs.DeskWords.{DeskWords};
ghost use Rattle.td_words.specs.PlanWords.{PlanWords};
ghost use Rattle.td_tool.specs.Desks.{EndsDesk, desk_files_asked};
ghost use Rattle.td_tool.specs.FolderFiles.{AsksForDesk, AsksForPlan, AsksForRun, AsksForTrack};
ghost use Rattle.td_tool.specs.FolderFiles.{AsksForWaves};
ghost use Rattle.td_tool.specs.Ends.{Ends};
ghost use Rattle.td_tool.specs.CheckEnds.{CheckEnds};
ghost use Rattle.td_tool.specs.Explained.{IsKept, IsTextKept, check_paths, desk_paths};
ghost use Rattle.td_tool.specs.Explained.{known_at, known_input, known_of_request, plan_paths};
ghost use Rattle.td_tool.specs.Explained.{run_paths, track_paths, waves_paths};
ghost use Rattle.td_tool.specs.Limits.{input_limit};
ghost use Rattle.td_tool.specs.Ran.{NoNotes, Ran};
ghost use Rattle.td_tool.specs.Program.{EndsFor, HasNoBuilders, IsTold, LeavesInput, NotesFor};
ghost use Rattle.td_tool.specs.Program.{OnlyIfAsked};
ghost use Rattle.td_tool.specs.Program.{RanFor};
ghost use Rattle.td_tool.specs.Program.{TellsFault, TellsUnread, are_explained, fault_text};
ghost use Rattle.td_tool.specs.Program.{files_asked, plan_files, unread_text, waves_files};
ghost use Rattle.td_tool.specs.Program.{words_asked};
ghost use Rattle.td_tool.specs.Runs.{AreNotes, EndsRun, run_files_asked};
ghost use Rattle.td_tool.specs.Streams.{DueTo, IsDue};
ghost use Rattle.td_tool.specs.Tracks.{EndsSo, IsPlanWith, waves_says};

use crate::checks::check_asked;
use crate::desks::Desks;
use crate::ending::{Ended, Ending};
use crate::explaining::finish;
use crate::folder_files::read_call;
use crate::keeping::keep;
use crate::noting::run_explained;
use crate::planning::plan;
use crate::running::{run_alone, run_with_builders};
use crate::simulation::read_and_play;
use crate::texts::Texts;
use crate::track_files::TrackPaths;
use crate::tracking::{Asked, Listing, asked_by, track};
use std::alloc::Global;
use std::io;
use std::io::ErrorKind;
use std::sync::Wait;
use std::thread::Threads;
use td_bytes::{Reader, WriteFault, Writer, write_whole};
use td_words::{Call, Request, RunRequest, WordsFault};

/// The status if the words ask for nothing that can be done.
pub const BAD_WORDS: u8 = 3;

// Says why words aren't read: memory ran out, or they aren't UTF-8.
fn say_unread<E: Writer>(lacks_memory: bool, faults: &mut E) -> Result<(), WriteFault>
    ensures whole { OnOk result (Appends (E.contents faults.old) (E.contents faults.new)
        (unread_text lacks_memory)) }
    ensures prefix { OnErr result (AppendsPrefix (E.contents faults.old) (E.contents faults.new)
        (unread_text lacks_memory)) }
{
    if lacks_memory {
        Ending::NoMemory.tell(faults)
    } else {
        write_whole(faults, b"error: a word of the command line is not UTF-8\n")
    }
}

// Says why words aren't read, and answers the status. What can't be written is left.
#[tactic(auto, using(crate::proofs::Explanations::front_said))]
fn tell_unread<E: Writer>(error: &io::Error, faults: &mut E) -> u8
    ensures { TellsUnread (error_kind error.now)
        (E.contents faults.old) (E.contents faults.new) result }
{
    let lacks_memory = error.kind() == ErrorKind::OutOfMemory;
    let _ = say_unread(lacks_memory, faults);
    if lacks_memory {
        Ending::NoMemory.status()
    } else {
        BAD_WORDS
    }
}

// Says why words ask for nothing.
fn say_fault<E: Writer>(fault: &WordsFault, faults: &mut E) -> Result<(), WriteFault>
    ensures whole { OnOk result (Appends (E.contents faults.old) (E.contents faults.new)
        (fault_text fault.now)) }
    ensures prefix { OnErr result (AppendsPrefix (E.contents faults.old) (E.contents faults.new)
        (fault_text fault.now)) }
{
    match fault {
        WordsFault::Usage(text) => write_whole(faults, text.as_bytes()),
        WordsFault::NoMemory => Ending::NoMemory.tell(faults),
    }
}

// Says why words ask for nothing, and answers the status. What can't be written is left.
#[tactic(auto, using(crate::proofs::Explanations::front_said))]
fn tell_fault<E: Writer>(fault: &WordsFault, faults: &mut E) -> u8
    ensures { TellsFault fault.now (E.contents faults.old) (E.contents faults.new) result }
{
    let _ = say_fault(fault, faults);
    match fault {
        WordsFault::Usage(_) => BAD_WORDS,
        WordsFault::NoMemory => Ending::NoMemory.status(),
    }
}

/// The run with builders that is asked for, if one is.
pub fn crew_of(request: &Request) -> Option<&RunRequest>
    ensures crew { IfSome result (λ run.
        (request.now ≡ Request.Run run.now) × (run.now.builders ≢ 0)) }
    ensures alone { IfNone result (HasNoBuilders request.now) }
{
    match request {
        Request::Run(run) => {
            if run.builders == 0 {
                return None;
            }
            Some(run)
        }
        Request::Simulate
        | Request::Check(_)
        | Request::Track(_)
        | Request::Waves(_)
        | Request::Plan(_)
        | Request::Desk(_) => None,
    }
}

// Does what was asked for without builders, and says what there is to say of a script's lines if
// that is to be explained.
fn do_alone<T: Texts + Desks + Sync, R: Reader, W: Writer>(
    rt: &(impl Threads + Sync),
    alloc: Global,
    explained: bool,
    request: &Request,
    texts: &T,
    reader: &mut R,
    output: &mut W,
) -> Ended
    requires { HasNoBuilders request.now }
    ensures ends { EndsFor request.now
        (R.remaining reader.old) (R.remaining reader.new)
        (T.bytes texts.now) (T.can_fail texts.now) (T.desks texts.now)
        (W.contents output.old) (W.contents output.new) result.ending }
    ensures due { IsDue (R.can_fail reader.old) (W.can_fail output.old) result.ending }
    ensures kept { IsKept
        (known_of_request request.now (R.remaining reader.old) (T.bytes texts.now)) result.input }
    ensures short { IfSome result.input (λ kept. length (string_bytes kept) ≤ input_limit) }
    ensures text { request.now ≡ Request.Simulate → IsTextKept result.ending result.input }
    ensures steady { OnSome result.input (R.can_fail reader.new ≡ R.can_fail reader.old) }
    ensures input { LeavesInput request.now (R.remaining reader.old) (R.remaining reader.new) }
    ensures noted { IfSome (option_map string_bytes result.notes)
        (NotesFor request.now (R.remaining reader.old) (T.bytes texts.now)
        (T.can_fail texts.now)) }
{
    match request {
        Request::Simulate => read_and_play(alloc, reader, output),
        Request::Check(request) => check_asked(rt, alloc, texts, request, output).alone(),
        Request::Track(request) => {
            let paths = TrackPaths {
                files: &request.files,
                state: &request.state,
                tracker: &request.tracker,
            };
            let asked = Asked::Listed(Listing::Report(request.shown, request.chunk));
            track(rt, alloc, texts, &paths, asked, output).alone()
        }
        Request::Waves(request) => {
            let paths = TrackPaths {
                files: &request.files,
                state: &None,
                tracker: &request.tracker,
            };
            let asked = asked_by(request.form);
            track(rt, alloc, texts, &paths, asked, output).alone()
        }
        Request::Plan(request) => plan(rt, alloc, texts, request, output).alone(),
        Request::Run(request) => {
            run_explained(rt, alloc, explained, texts, request, reader, output)
        }
        Request::Desk(request) => keep(rt, alloc, texts, request, reader, output).alone(),
    }
}

/// Does what a call asks for, if that is no run with builders (`crew_of`), and answers the
/// program's status. It waits for nobody. What can't be written to `faults` is left.
pub fn answer_alone<T: Texts + Desks + Sync, R: Reader, W: Writer, E: Writer>(
    rt: &(impl Threads + Sync),
    alloc: Global,
    call: &Call,
    texts: &T,
    reader: &mut R,
    output: &mut W,
    faults: &mut E,
) -> u8
    requires { HasNoBuilders call.now.request }
    ensures request { RanFor call.now.request call.now.explained
        (R.remaining reader.old) (R.remaining reader.new)
        (T.bytes texts.now) (T.can_fail texts.now) (T.desks texts.now)
        (R.can_fail reader.old) (W.can_fail output.old)
        (W.contents output.old) (W.contents output.new)
        (E.contents faults.old) (E.contents faults.new) result }
    ensures input { LeavesInput call.now.request
        (R.remaining reader.old) (R.remaining reader.new) }
{
    let ended = do_alone(
        rt,
        alloc,
        call.explained,
        &call.request,
        texts,
        reader,
        output,
    );
    finish(alloc, call.explained, &ended, &call.request, texts, faults)
}

// Does the run with builders that was asked for.
fn do_with_builders<T: Texts + Desks + Sync, R: Reader, W: Writer>(
    rt: &(impl Threads + Wait + Sync),
    alloc: Global,
    request: &Request,
    run: &RunRequest,
    texts: &T,
    reader: &mut R,
    output: &mut W,
) -> Ended
    requires run { request.now ≡ Request.Run run.now }
    requires builders { run.now.builders ≢ 0 }
    ensures ends { EndsFor request.now
        (R.remaining reader.old) (R.remaining reader.new)
        (T.bytes texts.now) (T.can_fail texts.now) (T.desks texts.now)
        (W.contents output.old) (W.contents output.new) result.ending }
    ensures due { IsDue (R.can_fail reader.old) (W.can_fail output.old) result.ending }
    ensures kept { IsKept
        (known_of_request request.now (R.remaining reader.old) (T.bytes texts.now)) result.input }
    ensures short { IfSome result.input (λ kept. length (string_bytes kept) ≤ input_limit) }
    ensures input { LeavesInput request.now (R.remaining reader.old) (R.remaining reader.new) }
    ensures noted { IfSome (option_map string_bytes result.notes)
        (NotesFor request.now (R.remaining reader.old) (T.bytes texts.now)
        (T.can_fail texts.now)) }
{
    run_with_builders(rt, alloc, texts, run, reader, output).alone()
}

// Does the run with builders that was asked for, and answers the program's status.
fn answer_with_builders<T: Texts + Desks + Sync, R: Reader, W: Writer, E: Writer>(
    rt: &(impl Threads + Wait + Sync),
    alloc: Global,
    call: &Call,
    run: &RunRequest,
    texts: &T,
    reader: &mut R,
    output: &mut W,
    faults: &mut E,
) -> u8
    requires run { call.now.request ≡ Request.Run run.now }
    requires builders { run.now.builders ≢ 0 }
    ensures request { RanFor call.now.request call.now.explained
        (R.remaining reader.old) (R.remaining reader.new)
        (T.bytes texts.now) (T.can_fail texts.now) (T.desks texts.now)
        (R.can_fail reader.old) (W.can_fail output.old)
        (W.contents output.old) (W.contents output.new)
        (E.contents faults.old) (E.contents faults.new) result }
    ensures input { LeavesInput call.now.request
        (R.remaining reader.old) (R.remaining reader.new) }
{
    let done = do_with_builders(rt, alloc, &call.request, run, texts, reader, output);
    finish(alloc, call.explained, &done, &call.request, texts, faults)
}

// Does what the words were read as.
fn act<T: Texts + Desks + Sync, R: Reader, W: Writer, E: Writer>(
    rt: &(impl Threads + Wait + Sync),
    alloc: Global,
    asked: Result<Call, WordsFault>,
    texts: &T,
    reader: &mut R,
    output: &mut W,
    faults: &mut E,
) -> u8
    ensures request { IfOk asked (λ call. RanFor call.request call.explained
        (R.remaining reader.old) (R.remaining reader.new)
        (T.bytes texts.now) (T.can_fail texts.now) (T.desks texts.now)
        (R.can_fail reader.old) (W.can_fail output.old)
        (W.contents output.old) (W.contents output.new)
        (E.contents faults.old) (E.contents faults.new) result) }
    ensures fault { IfErr asked (λ fault. IsTold fault
        (W.contents output.old) (W.contents output.new)
        (E.contents faults.old) (E.contents faults.new) result) }
    ensures input { MatchResult asked
        (λ call. LeavesInput call.request (R.remaining reader.old) (R.remaining reader.new))
        (λ _. Keeps (R.remaining reader.old) (R.remaining reader.new)) }
{
    match asked {
        Ok(call) => match crew_of(&call.request) {
            None => answer_alone(rt, alloc, &call, texts, reader, output, faults),
            Some(run) => answer_with_builders(rt, alloc, &call, run, texts, reader, output, faults),
        },
        Err(fault) => tell_fault(&fault, faults),
    }
}

// Does what the words ask for.
fn answer<T: Texts + Desks + Sync, R: Reader, W: Writer, E: Writer>(
    rt: &(impl Threads + Wait + Sync),
    alloc: Global,
    words: &[String],
    texts: &T,
    reader: &mut R,
    output: &mut W,
    faults: &mut E,
) -> u8
    ensures simulate { AskFor (codes "simulate") (map string_bytes words.now)
        → Ran (DueTo (R.can_fail reader.old) (W.can_fail output.old)
        (Ends (R.remaining reader.old) (W.contents output.old) (W.contents output.new)))
        NoNotes (is_explained (options_of (map string_bytes words.now)))
        (known_input (R.remaining reader.old))
        (E.contents faults.old) (E.contents faults.new) result }
    ensures check { (w : CheckWords) → AskForCheck (map string_bytes words.now) w
        → Ran (DueTo (R.can_fail reader.old) (W.can_fail output.old)
        (CheckEnds (T.bytes texts.now) (T.can_fail texts.now) w
        (W.contents output.old) (W.contents output.new)))
        NoNotes (is_explained (options_of (map string_bytes words.now)))
        (known_at (T.bytes texts.now) (check_paths w))
        (E.contents faults.old) (E.contents faults.new) result }
    ensures track { (w : TrackWords)
        → AsksForTrack (T.can_be texts.now) (map string_bytes words.now) w
        → Ran (DueTo (R.can_fail reader.old) (W.can_fail output.old)
        (EndsSo (IsReportOf w.shown) (files_asked (T.bytes texts.now) (T.can_fail texts.now) w)
        (W.contents output.old) (W.contents output.new)))
        NoNotes (is_explained (options_of (map string_bytes words.now)))
        (known_at (T.bytes texts.now) (track_paths w))
        (E.contents faults.old) (E.contents faults.new) result }
    ensures waves { (w : WavesWords)
        → AsksForWaves (T.can_be texts.now) (map string_bytes words.now) w
        → Ran (DueTo (R.can_fail reader.old) (W.can_fail output.old)
        (EndsSo (waves_says w.form) (waves_files (T.bytes texts.now) (T.can_fail texts.now) w)
        (W.contents output.old) (W.contents output.new)))
        NoNotes (is_explained (options_of (map string_bytes words.now)))
        (known_at (T.bytes texts.now) (waves_paths w))
        (E.contents faults.old) (E.contents faults.new) result }
    ensures plan { (w : PlanWords) → AsksForPlan (T.can_be texts.now) (map string_bytes words.now) w
        → Ran (DueTo (R.can_fail reader.old) (W.can_fail output.old)
        (EndsSo (IsPlanWith (words_asked w))
        (plan_files (T.bytes texts.now) (T.can_fail texts.now) w)
        (W.contents output.old) (W.contents output.new)))
        NoNotes (is_explained (options_of (map string_bytes words.now)))
        (known_at (T.bytes texts.now) (plan_paths w))
        (E.contents faults.old) (E.contents faults.new) result }
    ensures run { (w : RunWords) → AsksForRun (T.can_be texts.now) (map string_bytes words.now) w
        → Ran (DueTo (R.can_fail reader.old) (W.can_fail output.old)
        (EndsRun (run_files_asked (T.bytes texts.now) (T.can_fail texts.now) w) w.suite
        (R.remaining reader.old) (R.remaining reader.new)
        (W.contents output.old) (W.contents output.new)))
        (AreNotes (run_files_asked (T.bytes texts.now) (T.can_fail texts.now) w) w.suite
        (R.remaining reader.old))
        (is_explained (options_of (map string_bytes words.now)))
        (known_at (T.bytes texts.now) (run_paths w))
        (E.contents faults.old) (E.contents faults.new) result }
    ensures desk { (w : DeskWords) → AsksForDesk (T.can_be texts.now) (map string_bytes words.now) w
        → Ran (DueTo (R.can_fail reader.old) (W.can_fail output.old)
        (EndsDesk (desk_files_asked (T.bytes texts.now) (T.can_fail texts.now) w)
        (T.desks texts.now) w (R.remaining reader.old) (R.remaining reader.new)
        (W.contents output.old) (W.contents output.new)))
        NoNotes (is_explained (options_of (map string_bytes words.now)))
        (known_at (T.bytes texts.now) (desk_paths w))
        (E.contents faults.old) (E.contents faults.new) result }
    ensures others { OnlyIfAsked (T.can_be texts.now) (map string_bytes words.now)
        (R.remaining reader.old) (R.remaining reader.new)
        (T.bytes texts.now) (T.can_fail texts.now) (T.desks texts.now)
        (R.can_fail reader.old) (W.can_fail output.old)
        (W.contents output.old) (W.contents output.new)
        (E.contents faults.old) (E.contents faults.new) result }
{
    act(
        rt,
        alloc,
        read_call(alloc, words, texts),
        texts,
        reader,
        output,
        faults,
    )
}

/// Does what the words ask for, and answers the program's status. The first word is the program's
/// own name. What can't be written to `faults` is left.
pub fn tool<T: Texts + Desks + Sync, R: Reader, W: Writer, E: Writer>(
    rt: &(impl Threads + Wait + Sync),
    alloc: Global,
    words: io::Result<Vec<String>>,
    texts: &T,
    reader: &mut R,
    output: &mut W,
    faults: &mut E,
) -> u8
    // What asks for the simulation is answered by it, and explained if that is asked for.
    ensures simulate { IsOkAnd words (λ given.
        AskFor (codes "simulate") (map string_bytes given.items))
        → Ran (DueTo (R.can_fail reader.old) (W.can_fail output.old)
        (Ends (R.remaining reader.old) (W.contents output.old) (W.contents output.new)))
        NoNotes (are_explained words) (known_input (R.remaining reader.old))
        (E.contents faults.old) (E.contents faults.new) result }
    // What asks for a check, with a tracker or without, is answered by it.
    ensures check { (w : CheckWords) → IsOkAnd words (λ given.
        AskForCheck (map string_bytes given.items) w)
        → Ran (DueTo (R.can_fail reader.old) (W.can_fail output.old)
        (CheckEnds (T.bytes texts.now) (T.can_fail texts.now) w
        (W.contents output.old) (W.contents output.new)))
        NoNotes (are_explained words) (known_at (T.bytes texts.now) (check_paths w))
        (E.contents faults.old) (E.contents faults.new) result }
    // What asks for a report, or for waves, is answered by them.
    ensures track { (w : TrackWords) → IsOkAnd words (λ given.
        AsksForTrack (T.can_be texts.now) (map string_bytes given.items) w)
        → Ran (DueTo (R.can_fail reader.old) (W.can_fail output.old)
        (EndsSo (IsReportOf w.shown) (files_asked (T.bytes texts.now) (T.can_fail texts.now) w)
        (W.contents output.old) (W.contents output.new)))
        NoNotes (are_explained words) (known_at (T.bytes texts.now) (track_paths w))
        (E.contents faults.old) (E.contents faults.new) result }
    ensures waves { (w : WavesWords) → IsOkAnd words (λ given.
        AsksForWaves (T.can_be texts.now) (map string_bytes given.items) w)
        → Ran (DueTo (R.can_fail reader.old) (W.can_fail output.old)
        (EndsSo (waves_says w.form) (waves_files (T.bytes texts.now) (T.can_fail texts.now) w)
        (W.contents output.old) (W.contents output.new)))
        NoNotes (are_explained words) (known_at (T.bytes texts.now) (waves_paths w))
        (E.contents faults.old) (E.contents faults.new) result }
    // What asks for a plan is answered by it.
    ensures plan { (w : PlanWords) → IsOkAnd words (λ given.
        AsksForPlan (T.can_be texts.now) (map string_bytes given.items) w)
        → Ran (DueTo (R.can_fail reader.old) (W.can_fail output.old)
        (EndsSo (IsPlanWith (words_asked w))
        (plan_files (T.bytes texts.now) (T.can_fail texts.now) w)
        (W.contents output.old) (W.contents output.new)))
        NoNotes (are_explained words) (known_at (T.bytes texts.now) (plan_paths w))
        (E.contents faults.old) (E.contents faults.new) result }
    // What asks for a run is answered by it.
    ensures run { (w : RunWords) → IsOkAnd words (λ given.
        AsksForRun (T.can_be texts.now) (map string_bytes given.items) w)
        → Ran (DueTo (R.can_fail reader.old) (W.can_fail output.old)
        (EndsRun (run_files_asked (T.bytes texts.now) (T.can_fail texts.now) w) w.suite
        (R.remaining reader.old) (R.remaining reader.new)
        (W.contents output.old) (W.contents output.new)))
        (AreNotes (run_files_asked (T.bytes texts.now) (T.can_fail texts.now) w) w.suite
        (R.remaining reader.old)) (are_explained words) (known_at (T.bytes texts.now) (run_paths w))
        (E.contents faults.old) (E.contents faults.new) result }
    // What asks for a desk that lasts is answered by it.
    ensures desk { (w : DeskWords) → IsOkAnd words (λ given.
        AsksForDesk (T.can_be texts.now) (map string_bytes given.items) w)
        → Ran (DueTo (R.can_fail reader.old) (W.can_fail output.old)
        (EndsDesk (desk_files_asked (T.bytes texts.now) (T.can_fail texts.now) w)
        (T.desks texts.now) w (R.remaining reader.old) (R.remaining reader.new)
        (W.contents output.old) (W.contents output.new)))
        NoNotes (are_explained words) (known_at (T.bytes texts.now) (desk_paths w))
        (E.contents faults.old) (E.contents faults.new) result }
    // Other words are bad, unless memory runs out, and nothing is written. Standard input is read
    // only for a simulation, for a run and for a desk.
    ensures others { IfOk words (λ given.
        OnlyIfAsked (T.can_be texts.now) (map string_bytes given.items)
        (R.remaining reader.old) (R.remaining reader.new)
        (T.bytes texts.now) (T.can_fail texts.now) (T.desks texts.now)
        (R.can_fail reader.old) (W.can_fail output.old)
        (W.contents output.old) (W.contents output.new)
        (E.contents faults.old) (E.contents faults.new) result) }
    // Words that aren't UTF-8 are bad, unless memory runs out, and nothing is read or written.
    ensures unread { IfErr words (λ error. TellsUnread (error_kind error)
        (E.contents faults.old) (E.contents faults.new) result
        × Keeps (R.remaining reader.old) (R.remaining reader.new)
        × Keeps (W.contents output.old) (W.contents output.new)) }
{
    match words {
        Ok(words) => answer(rt, alloc, &words, texts, reader, output, faults),
        Err(error) => tell_unread(&error, faults),
    }
}
