//! The subcommand `desk`: a session at a desk that is kept in a file.
ghost use Rattle.std.specs.Prelude.{◌≡◌, true, IfOk, IfErr, string_bytes};
ghost use Rattle.std.specs.Result.{ForOk};
ghost use Rattle.std.specs.Io.KnownBytes.{Keeps};
ghost use Rattle.td_words.specs.Asked.{desk_words};
ghost use Rattle.td_tool.specs.Ending.{ending_of_file as ending_of_file_as};
ghost use Rattle.td_tool.specs.Desks.{EndsDesk, ending_of_desk_file as ending_of_desk_file_as};
ghost use Rattle.td_tool.specs.Desks.{ending_of_refusal as ending_of_refusal_as};
ghost use Rattle.td_tool.specs.Desks.{ending_of_serving as ending_of_serving_as};
ghost use Rattle.td_tool.specs.Desks.{ending_of_session as ending_of_session_as};
ghost use Rattle.td_tool.specs.DeskInside.{AreSessionTexts, AreTextsFor, KeepsSo};
ghost use Rattle.td_tool.specs.DeskInside.{IsWithinLimit, desk_files_at, desk_texts_of};
ghost use Rattle.td_tool.specs.RunInside.{HasNoInputs};
ghost use Rattle.td_tool.specs.Streams.{IsDue};
ghost use Rattle.td_tool.specs.UnreadFiles.{tells_of_unread_file};

use crate::desk_texts::{DeskTexts, read_desk_files};
use crate::desks::Desks;
use crate::ending::{Ending, ending_of_file, ending_of_form};
use crate::file_texts::FileFault;
use crate::input_fault::InputFault;
use crate::texts::Texts;
use std::alloc::{AllocError, Global};
use std::thread::Threads;
use td_bytes::{Reader, Writer};
use td_inputs::Role;
use td_lasting::{FileFault as DeskFault, ServeEnd, ServeFault};
use td_session::{DeskFile, Held, OpenRefusal, SessionFault, SessionTexts, hold_session};
use td_words::DeskRequest;

// The file of the desk that is asked for.
#[derive(Drop)]
struct AskedFile<'d, T: Desks> {
    desks: &'d T,
    path: &'d str,
    waits: bool,
    is_touched: bool,
}

impl<T: Desks> DeskFile for AskedFile<'_, T> {
    type Opened = T::Opened;

    ghost found = { λ file. (T.desks file.desks.now).found file.path.now };

    ghost can_refuse = { λ file. (T.desks file.desks.now).can_refuse file.path.now file.waits };

    ghost is_touched = { λ file. file.is_touched };

    fn open(&mut self) -> Result<T::Opened, OpenRefusal> {
        self.is_touched = true;
        self.desks.open_desk(self.path, self.waits)
    }
}

// How a desk ends whose file isn't opened.
fn ending_of_refusal(refusal: OpenRefusal) -> Ending
    ensures { result ≡ ending_of_refusal_as refusal }
{
    match refusal {
        OpenRefusal::Locked => Ending::Locked,
        OpenRefusal::CannotRead => Ending::CannotRead(Role::Journal),
        OpenRefusal::NoMemory => Ending::NoMemory,
    }
}

// How a desk ends whose file is refused.
fn ending_of_desk_file(fault: DeskFault) -> Ending
    ensures { result ≡ ending_of_desk_file_as fault }
{
    match fault {
        DeskFault::NotText => Ending::BadInput(Role::Journal, InputFault::NotText),
        DeskFault::CannotRead => Ending::CannotRead(Role::Journal),
        DeskFault::CannotWrite => Ending::CannotKeep,
        DeskFault::NoMemory => Ending::NoMemory,
        fault => Ending::BadInput(Role::Journal, InputFault::DeskFile(fault)),
    }
}

// How a desk ends whose lines aren't all answered.
fn ending_of_serving(fault: ServeFault) -> Ending
    ensures { result ≡ ending_of_serving_as fault }
{
    match fault {
        ServeFault::CannotRead => Ending::CannotRead(Role::Input),
        ServeFault::CannotKeep => Ending::CannotKeep,
        ServeFault::CannotTell => Ending::CannotWrite,
        ServeFault::NoMemory => Ending::NoMemory,
    }
}

// How a desk ends by how its session did.
fn ending_of_session(end: Result<ServeEnd, SessionFault>) -> Ending
    ensures { result ≡ ending_of_session_as end }
{
    match end {
        Ok(end) if end.refusals == 0 => Ending::Done,
        Ok(_) => Ending::Refused,
        Err(SessionFault::Input(fault)) => ending_of_form(fault),
        Err(SessionFault::NoMemory) => Ending::NoMemory,
        Err(SessionFault::Unopened(refusal)) => ending_of_refusal(refusal),
        Err(SessionFault::File(fault)) => ending_of_desk_file(fault),
        Err(SessionFault::Serve(fault)) => ending_of_serving(fault),
    }
}

// What a session is held over.
fn session_texts(
    alloc: Global,
    texts: DeskTexts,
    request: &DeskRequest,
) -> Result<SessionTexts, AllocError>
    requires { IsWithinLimit texts }
    ensures { IfOk result (AreSessionTexts (desk_texts_of texts) (string_bytes request.now.suite)) }
{
    Ok(SessionTexts {
        archs: texts.indices.archs,
        packages: texts.indices.packages,
        sources: texts.indices.sources,
        state: texts.state,
        tracker: texts.tracker,
        suite: String::from_str(alloc, request.suite.as_str())?,
    })
}

// The texts that were read, or how a desk ends without them.
fn texts_by(
    alloc: Global,
    read: Result<DeskTexts, FileFault>,
    request: &DeskRequest,
) -> Result<SessionTexts, Ending>
    requires { ForOk read IsWithinLimit }
    ensures texts { IfOk read (λ texts.
        IfOk result (AreSessionTexts (desk_texts_of texts) (string_bytes request.now.suite))) }
    ensures memory { IfOk read (λ _. IfErr result (λ ending. ending ≡ Ending.NoMemory)) }
    ensures unread { IfErr read (λ f. result ≡ Err (ending_of_file_as f.role f.fault)) }
{
    let read = match read {
        Ok(read) => read,
        Err(unread) => return Err(ending_of_file(unread.role, unread.fault)),
    };
    match session_texts(alloc, read, request) {
        Ok(texts) => Ok(texts),
        Err(_) => Err(Ending::NoMemory),
    }
}

// The texts that the files of a desk hold, or how the desk ends without them.
fn texts_for<T: Texts + Sync>(
    rt: &(impl Threads + Sync),
    alloc: Global,
    texts: &T,
    request: &DeskRequest,
) -> Result<SessionTexts, Ending>
    ensures texts { IfOk result (AreTextsFor
        (desk_files_at (T.bytes texts.now) (T.can_fail texts.now) request.now)
        (string_bytes request.now.suite)) }
    ensures none { IfErr result (HasNoInputs
        (desk_files_at (T.bytes texts.now) (T.can_fail texts.now) request.now)) }
{
    let read = read_desk_files(rt, alloc, texts, request);
    texts_by(alloc, read, request)
}

// How a session at the desk that is asked for ends, over its texts.
fn keep_over<T: Desks, R: Reader, W: Writer>(
    rt: &(impl Threads + Sync),
    alloc: Global,
    desks: &T,
    texts: &SessionTexts,
    request: &DeskRequest,
    reader: &mut R,
    output: &mut W,
) -> Ending
    ensures keeps { KeepsSo texts.now
        ((T.desks desks.now).found (string_bytes request.now.journal))
        ((T.desks desks.now).can_refuse (string_bytes request.now.journal) request.now.waits)
        (R.remaining reader.old) (R.remaining reader.new)
        (W.contents output.old) (W.contents output.new) result }
    ensures untouched { tells_of_unread_file result ≡ true
        → Keeps (R.remaining reader.old) (R.remaining reader.new) }
    ensures due { IsDue (R.can_fail reader.old) (W.can_fail output.old) result }
{
    let mut file = AskedFile {
        desks,
        path: request.journal.as_str(),
        waits: request.waits,
        is_touched: false,
    };
    let Held { end, file: _ } = hold_session(rt, alloc, texts, &mut file, reader, output);
    ending_of_session(end)
}

/// Answers the lines that the reader has, each at once, at the desk that is kept in a file, over
/// the files that are asked for. All of these are read and judged before the desk's own is opened.
pub fn keep<T: Texts + Desks + Sync, R: Reader, W: Writer>(
    rt: &(impl Threads + Sync),
    alloc: Global,
    texts: &T,
    request: &DeskRequest,
    reader: &mut R,
    output: &mut W,
) -> Ending
    ensures ends { EndsDesk
        (desk_files_at (T.bytes texts.now) (T.can_fail texts.now) request.now)
        (T.desks texts.now) (desk_words request.now)
        (R.remaining reader.old) (R.remaining reader.new)
        (W.contents output.old) (W.contents output.new) result }
    ensures due { IsDue (R.can_fail reader.old) (W.can_fail output.old) result }
{
    let read = match texts_for(rt, alloc, texts, request) {
        Ok(read) => read,
        Err(ending) => return ending,
    };
    let ending = keep_over(rt, alloc, texts, &read, request, reader, output);
    drop(read);
    ending
}
