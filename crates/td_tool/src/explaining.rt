//! The explanation of a refusal, or of a file that can't be read: a second line on standard error,
//! if one is asked for. That of a script's lines is a line for each.
ghost use Rattle.std.specs.Prelude.{◌≡◌, ◌⊎◌, ◌≤◌, ◌<◌, ◌^◌, ℕ, List, Option, Some, None, Ok, Err};
ghost use Rattle.std.specs.Prelude.{IfOk, IfErr, IfSome, IsSomeAnd, MatchResult, OnOk, length};
ghost use Rattle.std.specs.Prelude.{option_copied, option_map, string_bytes, true};
ghost use Rattle.std.specs.Io.KnownBytes.{Appends, Keeps};
ghost use Rattle.td_bytes.specs.Pieces.{AppendsPrefix};
ghost use Rattle.td_tool.specs.Ending.{status_of};
ghost use Rattle.td_tool.specs.Explained.{Explains, ExplainsFault, ExplainsFile, ExplainsNoText};
ghost use Rattle.td_tool.specs.Explained.{ExplainsPlace, FailsAgain, FailsFor, FailsOf};
ghost use Rattle.td_tool.specs.Explained.{FailsThere, HasNoText, HasNone, IsFaultLine, IsKept};
ghost use Rattle.td_tool.specs.Explained.{IsUnseen};
ghost use Rattle.td_tool.specs.Explained.{SaysAll, SaysOf, TellsCause, TellsOwn, TellsPacking};
ghost use Rattle.td_tool.specs.Explained.{archive_paths, fault_line, known_of_request, line_if};
ghost use Rattle.td_tool.specs.Explained.{no_text_line, paths_of, unread_line};
ghost use Rattle.td_tool.specs.Limits.{file_limit, input_limit};
ghost use Rattle.td_tool.specs.Places.{place_of as place_of_of};
ghost use Rattle.td_tool.specs.Tracks.{file_at};

use crate::cause::Cause;
use crate::ending::{Ended, Ending};
use crate::file_texts::{FILE_LIMIT, read_one};
use crate::input_fault::InputFault;
use crate::places::{place_of, relation_of};
use crate::texts::Texts;
use crate::wanted::{said_of, unpacked, wanted, wanted_of};
use std::alloc::Global;
use td_bytes::{TextFault, Writer, write_whole};
use td_explain::{Packing, Place, explain, explain_path, explain_relation};
use td_inputs::Role;
use td_words::{ArchivePaths, Request};

/// Why a refusal isn't explained.
#[derive(Clone, Copy, Drop)]
pub enum Unexplained {
    /// The file of the refused text isn't read again.
    Unread(TextFault),
    NoMemory,
    CannotWrite,
}

// The path of the table or of an index, of those of an archive.
fn archive_path(role: Role, files: &ArchivePaths) -> Option<&String>
    ensures { option_map string_bytes (option_copied result)
        ≡ archive_paths (string_bytes files.now.archs) (string_bytes files.now.packages)
        (string_bytes files.now.sources) role }
{
    match role {
        Role::Archs => Some(&files.archs),
        Role::Packages => Some(&files.packages),
        Role::Sources => Some(&files.sources),
        Role::Input | Role::State | Role::Tracker | Role::Outcomes | Role::Journal => None,
    }
}

// The path of the file with this role, if the words gave one.
fn path_of(request: &Request, role: Role) -> Option<&String>
    ensures { option_map string_bytes (option_copied result) ≡ paths_of request.now role }
{
    match request {
        Request::Simulate => None,
        Request::Check(request) => match role {
            Role::Tracker => request.tracker.as_ref(),
            _ => archive_path(role, &request.files),
        },
        Request::Track(request) => match role {
            Role::State => request.state.as_ref(),
            Role::Tracker => Some(&request.tracker),
            _ => archive_path(role, &request.files),
        },
        Request::Waves(request) => match role {
            Role::Tracker => Some(&request.tracker),
            _ => archive_path(role, &request.files),
        },
        Request::Plan(request) => match role {
            Role::State => request.state.as_ref(),
            Role::Tracker => Some(&request.tracker),
            _ => archive_path(role, &request.files),
        },
        Request::Run(request) => match role {
            Role::State => request.state.as_ref(),
            Role::Tracker => request.tracker.as_ref(),
            Role::Outcomes => request.outcomes.as_ref(),
            Role::Journal => request.journal.as_ref(),
            _ => archive_path(role, &request.files),
        },
        Request::Desk(request) => match role {
            Role::State => request.state.as_ref(),
            Role::Tracker => request.tracker.as_ref(),
            Role::Journal => Some(&request.journal),
            _ => archive_path(role, &request.files),
        },
    }
}

// The line of a fault in the text, with its place alone.
fn explain_text(
    alloc: Global,
    role: Role,
    fault: InputFault,
    text: &str,
) -> Result<String, Unexplained>
    requires { length text.now < 2 ^ 63 }
    ensures { MatchResult result
        (λ line. string_bytes line ≡ fault_line role fault text.now)
        (λ e. e ≡ Unexplained.NoMemory) }
{
    match explain(
        alloc,
        role.label(),
        place_of(fault),
        wanted(fault, text),
        text,
    ) {
        Ok(line) => Ok(line),
        Err(_) => Err(Unexplained::NoMemory),
    }
}

// The line of a fault in the text, and of the relation that can't be read, if that is the fault.
fn explain_in(
    alloc: Global,
    role: Role,
    fault: InputFault,
    text: &str,
) -> Result<String, Unexplained>
    requires { length text.now < 2 ^ 63 }
    ensures { MatchResult result
        (λ line. IsFaultLine role fault text.now (string_bytes line))
        (λ e. e ≡ Unexplained.NoMemory) }
{
    let Some((number, field)) = relation_of(fault) else {
        return explain_text(alloc, role, fault, text);
    };
    let wanted = wanted(fault, text);
    match explain_relation(alloc, role.label(), number, field.name(), wanted, text) {
        Ok(line) => Ok(line),
        Err(_) => Err(Unexplained::NoMemory),
    }
}

// The line of a fault in a file, which is read again.
fn explain_file<T: Texts>(
    alloc: Global,
    texts: &T,
    path: &String,
    role: Role,
    fault: InputFault,
) -> Result<String, Unexplained>
    ensures line { IfOk result (λ line.
        ExplainsFile (T.bytes texts.now (string_bytes path.now)) role fault (string_bytes line)) }
    ensures failed { IfErr result (FailsAgain
        (file_at (T.bytes texts.now) (T.can_fail texts.now) (string_bytes path.now))) }
{
    match read_one(alloc, texts, role, path) {
        Ok(text) => explain_in(alloc, role, fault, text.as_str()),
        Err(unread) => Err(Unexplained::Unread(unread.fault)),
    }
}

// The line of a fault that has a place; nothing if no text of its role is at hand.
fn explain_place<T: Texts>(
    alloc: Global,
    role: Role,
    fault: InputFault,
    input: &Option<String>,
    request: &Request,
    texts: &T,
) -> Result<Option<String>, Unexplained>
    requires { IfSome input.now (λ text. length (string_bytes text) ≤ input_limit) }
    ensures line { (known : Option (List ℕ))
        → IsKept (known_of_request request.now known (T.bytes texts.now)) input.now
        → IfOk result (λ told. IfSome told (λ line. ExplainsFile
        (known_of_request request.now known (T.bytes texts.now) role).text role fault
        (string_bytes line))) }
    ensures none { IfOk result (λ told. told ≡ None → HasNoText role input.now request.now) }
    ensures failed { IfErr result (FailsFor
        (file_at (T.bytes texts.now) (T.can_fail texts.now)) (paths_of request.now role)) }
{
    match role {
        Role::Input => match input {
            Some(text) => some_line(explain_in(alloc, role, fault, text.as_str())),
            None => Ok(None),
        },
        _ => match path_of(request, role) {
            Some(path) => some_line(explain_file(alloc, texts, path, role, fault)),
            None => Ok(None),
        },
    }
}

// A line that there is.
fn some_line(line: Result<String, Unexplained>) -> Result<Option<String>, Unexplained>
    ensures ok { IfOk line (λ text. result ≡ Ok (Some text)) }
    ensures err { IfErr line (λ e. result ≡ Err e) }
{
    match line {
        Ok(line) => Ok(Some(line)),
        Err(error) => Err(error),
    }
}

// The line of a fault by its place; nothing if it has one and no text of its role is at hand.
fn explain_seen<T: Texts>(
    alloc: Global,
    role: Role,
    fault: InputFault,
    input: &Option<String>,
    request: &Request,
    texts: &T,
) -> Result<Option<String>, Unexplained>
    requires { IfSome input.now (λ text. length (string_bytes text) ≤ input_limit) }
    ensures line { (known : Option (List ℕ))
        → IsKept (known_of_request request.now known (T.bytes texts.now)) input.now
        → IfOk result (λ told. IfSome told (λ line. ExplainsPlace
        (known_of_request request.now known (T.bytes texts.now) role) role fault
        (string_bytes line))) }
    ensures none { IfOk result (λ told. told ≡ None
        → IsUnseen (place_of_of fault) role input.now request.now) }
    ensures failed { IfErr result (FailsThere
        (file_at (T.bytes texts.now) (T.can_fail texts.now)) (place_of_of fault)
        (paths_of request.now role)) }
{
    match place_of(fault) {
        Place::Whole => some_line(explain_in(alloc, role, fault, "")),
        _ => explain_place(alloc, role, fault, input, request, texts),
    }
}

// The line of a file that is no text, and is packed so, or isn't known to be.
fn explain_packed(
    alloc: Global,
    role: Role,
    path: &str,
    packing: Option<Packing>,
) -> Result<String, Unexplained>
    ensures { MatchResult result
        (λ line. string_bytes line ≡ no_text_line role (Some path.now) packing)
        (λ e. e ≡ Unexplained.NoMemory) }
{
    let Some(packing) = packing else {
        return explain_text(alloc, role, InputFault::NotText, "");
    };
    match explain_path(alloc, role.label(), path, packing.said(), unpacked()) {
        Ok(line) => Ok(line),
        Err(_) => Err(Unexplained::NoMemory),
    }
}

// The line of a text that isn't UTF-8.
fn explain_no_text<T: Texts>(
    alloc: Global,
    role: Role,
    request: &Request,
    texts: &T,
) -> Result<String, Unexplained>
    ensures line { (known : Option (List ℕ)) → IfOk result (λ line. ExplainsNoText
        (known_of_request request.now known (T.bytes texts.now) role) role (string_bytes line)) }
    ensures own { IfOk result (λ line. TellsPacking
        (T.can_pack texts.now) (paths_of request.now role) role (string_bytes line)) }
    ensures failed { IfErr result (λ e. e ≡ Unexplained.NoMemory) }
{
    match path_of(request, role) {
        Some(path) => explain_packed(alloc, role, path.as_str(), texts.packing(path.as_str())),
        None => explain_text(alloc, role, InputFault::NotText, ""),
    }
}

// The line of a fault; nothing if it has a place and no text of its role is at hand.
fn explain_fault<T: Texts>(
    alloc: Global,
    role: Role,
    fault: InputFault,
    input: &Option<String>,
    request: &Request,
    texts: &T,
) -> Result<Option<String>, Unexplained>
    requires { IfSome input.now (λ text. length (string_bytes text) ≤ input_limit) }
    ensures line { (known : Option (List ℕ))
        → IsKept (known_of_request request.now known (T.bytes texts.now)) input.now
        → IfOk result (λ told. IfSome told (λ line. ExplainsFault
        (known_of_request request.now known (T.bytes texts.now) role) role fault
        (string_bytes line))) }
    ensures own { IfOk result (λ told. IfSome told (λ line. TellsOwn
        (T.can_be texts.now) (T.can_pack texts.now) request.now (Ending.BadInput role fault)
        (string_bytes line))) }
    ensures none { IfOk result (λ told. told ≡ None
        → IsUnseen (place_of_of fault) role input.now request.now) }
    ensures failed { IfErr result (FailsThere
        (file_at (T.bytes texts.now) (T.can_fail texts.now)) (place_of_of fault)
        (paths_of request.now role)) }
{
    match fault {
        InputFault::NotText => some_line(explain_no_text(alloc, role, request, texts)),
        InputFault::TooLong
        | InputFault::Simulation(_)
        | InputFault::BadOutcome(_)
        | InputFault::Form(_)
        | InputFault::DeskFile(_) => explain_seen(alloc, role, fault, input, request, texts),
    }
}

// The line of a file that can't be read for this cause, if that is known.
fn explain_cause(
    alloc: Global,
    role: Role,
    path: &str,
    cause: Option<Cause>,
) -> Result<Option<String>, Unexplained>
    ensures line { IfOk result (λ told. IfSome told (λ line.
        IsSomeAnd cause (λ c. string_bytes line ≡ unread_line role (Some path.now) (Some c)))) }
    ensures none { IfOk result (λ told. told ≡ None → cause ≡ None) }
    ensures failed { IfErr result (λ e. e ≡ Unexplained.NoMemory) }
{
    let Some(cause) = cause else {
        return Ok(None);
    };
    match explain_path(alloc, role.label(), path, said_of(cause), wanted_of(cause)) {
        Ok(line) => Ok(Some(line)),
        Err(_) => Err(Unexplained::NoMemory),
    }
}

// The line of the file of a role that can't be read; nothing if the file has no path.
fn explain_unread<T: Texts>(
    alloc: Global,
    role: Role,
    request: &Request,
    texts: &T,
) -> Result<Option<String>, Unexplained>
    ensures line { IfOk result (λ told. IfSome told (λ line.
        IsSomeAnd (paths_of request.now role)
        (λ path. TellsCause (T.can_be texts.now) path role (string_bytes line)))) }
    ensures none { IfOk result (λ told. told ≡ None
        → IfSome (paths_of request.now role)
        (λ path. T.can_be texts.now path file_limit None ≡ true)) }
    ensures failed { IfErr result (λ e. e ≡ Unexplained.NoMemory) }
{
    match path_of(request, role) {
        Some(path) => {
            let cause = texts.cause(path.as_str(), FILE_LIMIT);
            explain_cause(alloc, role, path.as_str(), cause)
        }
        None => Ok(None),
    }
}

// A copy of what is said of lines, if something is.
fn copied(notes: &Option<String>) -> Result<Option<String>, Unexplained>
    ensures line { IfOk result (λ told. IfSome told (λ line.
        option_map string_bytes notes.now ≡ Some (string_bytes line))) }
    ensures none { IfOk result (λ told. told ≡ None → notes.now ≡ None) }
    ensures failed { IfErr result (λ e. e ≡ Unexplained.NoMemory) }
{
    let Some(notes) = notes else {
        return Ok(None);
    };
    match notes.clone() {
        Ok(notes) => Ok(Some(notes)),
        Err(_) => Err(Unexplained::NoMemory),
    }
}

// What explains how a run ended: the line of a text that was refused or of a file that wasn't read,
// or what is said of the lines of a script.
fn explanation<T: Texts>(
    alloc: Global,
    ended: &Ended,
    request: &Request,
    texts: &T,
) -> Result<Option<String>, Unexplained>
    requires { IfSome ended.now.input (λ text. length (string_bytes text) ≤ input_limit) }
    ensures line { (known : Option (List ℕ))
        → IsKept (known_of_request request.now known (T.bytes texts.now)) ended.now.input
        → IfOk result (λ told. IfSome told (λ line. Explains
        (known_of_request request.now known (T.bytes texts.now))
        (option_map string_bytes ended.now.notes) ended.now.ending (string_bytes line))) }
    ensures own { IfOk result (λ told. IfSome told (λ line. TellsOwn
        (T.can_be texts.now) (T.can_pack texts.now) request.now ended.now.ending
        (string_bytes line))) }
    ensures none { IfOk result (λ told. told ≡ None
        → HasNone (T.can_be texts.now) ended.now request.now) }
    ensures failed { IfErr result (FailsOf
        (file_at (T.bytes texts.now) (T.can_fail texts.now)) request.now ended.now.ending) }
{
    match ended.ending {
        Ending::BadInput(role, fault) => {
            explain_fault(alloc, role, fault, &ended.input, request, texts)
        }
        Ending::CannotRead(role) => explain_unread(alloc, role, request, texts),
        Ending::Done | Ending::Refused => copied(&ended.notes),
        Ending::NoMemory | Ending::CannotWrite | Ending::Locked | Ending::CannotKeep => Ok(None),
    }
}

// Writes the explanation, if there is one.
fn put_explanation<E: Writer>(
    explanation: Result<Option<String>, Unexplained>,
    faults: &mut E,
) -> Result<(), Unexplained>
    ensures line { IfOk explanation (λ told. MatchResult result
        (λ _. Appends (E.contents faults.old) (E.contents faults.new) (line_if told))
        (λ e. (e ≡ Unexplained.CannotWrite)
        × AppendsPrefix (E.contents faults.old) (E.contents faults.new) (line_if told))) }
    ensures none { IfErr explanation (λ e. (result ≡ Err e)
        × Keeps (E.contents faults.old) (E.contents faults.new)) }
{
    let line = match explanation {
        Ok(Some(line)) => line,
        Ok(None) => return Ok(()),
        Err(error) => return Err(error),
    };
    match write_whole(faults, line.as_bytes()) {
        Ok(()) => Ok(()),
        Err(_) => Err(Unexplained::CannotWrite),
    }
}

// Writes the line of the ending, and after it the explanation if one is asked for, or answers
// why not all is written.
fn say<T: Texts, E: Writer>(
    alloc: Global,
    explained: bool,
    ended: &Ended,
    request: &Request,
    texts: &T,
    faults: &mut E,
) -> Result<(), Unexplained>
    requires { IfSome ended.now.input (λ text. length (string_bytes text) ≤ input_limit) }
    ensures whole { (known : Option (List ℕ))
        → IsKept (known_of_request request.now known (T.bytes texts.now)) ended.now.input
        → OnOk result (SaysAll explained (known_of_request request.now known (T.bytes texts.now))
        (T.can_be texts.now) (T.can_pack texts.now) ended.now request.now
        (E.contents faults.old) (E.contents faults.new)) }
    ensures failed { IfErr result (λ e. (e ≡ Unexplained.CannotWrite)
        ⊎ FailsOf (file_at (T.bytes texts.now) (T.can_fail texts.now)) request.now
        ended.now.ending e) }
    ensures front { (known : Option (List ℕ))
        → IsKept (known_of_request request.now known (T.bytes texts.now)) ended.now.input
        → SaysOf explained (known_of_request request.now known (T.bytes texts.now))
        (option_map string_bytes ended.now.notes) ended.now.ending
        (E.contents faults.old) (E.contents faults.new) }
{
    let Ok(()) = ended.ending.tell(faults) else {
        return Err(Unexplained::CannotWrite);
    };
    if !explained {
        return Ok(());
    }
    put_explanation(explanation(alloc, ended, request, texts), faults)
}

/// Says on `faults` how a run of this request ended, with an explanation or without, and answers
/// the status. What can't be written is left.
pub fn finish<T: Texts, E: Writer>(
    alloc: Global,
    explained: bool,
    ended: &Ended,
    request: &Request,
    texts: &T,
    faults: &mut E,
) -> u8
    requires { IfSome ended.now.input (λ text. length (string_bytes text) ≤ input_limit) }
    ensures status { result ≡ status_of ended.now.ending }
    ensures says { (known : Option (List ℕ))
        → IsKept (known_of_request request.now known (T.bytes texts.now)) ended.now.input
        → SaysOf explained (known_of_request request.now known (T.bytes texts.now))
        (option_map string_bytes ended.now.notes) ended.now.ending
        (E.contents faults.old) (E.contents faults.new) }
{
    let _ = say(alloc, explained, ended, request, texts, faults);
    ended.ending.status()
}
