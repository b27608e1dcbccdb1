//! The subcommand `check`: sources, binary packages and rows of two indices are counted, and told
//! in detail if that is asked for.
ghost use Rattle.std.specs.Prelude.{◌≡◌, ◌≢◌, ◌≤◌, true, length, string_bytes, Ok, Err, IfOk};
ghost use Rattle.std.specs.Prelude.{IfErr};
ghost use Rattle.std.specs.Result.{ForOk};
ghost use Rattle.td_inputs.specs.Opened.{texts_of as texts_opened};
ghost use Rattle.td_tool.specs.Checks.{Checks, archive_files_at};
ghost use Rattle.td_tool.specs.CheckInside.{EndsUnwritten, FileTextsEnd, FileUnread, IsCounted};
ghost use Rattle.td_tool.specs.CheckInside.{IsWithin, Tells, WritesSo, texts_checked};
ghost use Rattle.td_tool.specs.Counted.{check_text, counts_line as counts_line_of};
ghost use Rattle.td_tool.specs.Limits.{file_limit};

use crate::early_texts::{CutOff, EarlyTexts, read_early};
use crate::ending::{Ending, ending_of_file, ending_of_opening};
use crate::file_texts::FileFault;
use crate::texts::Texts;
use std::alloc::{AllocError, Global};
use std::thread::Threads;
use td_bytes::{Writer, write_whole};
use td_details::{put_cut_lines, put_details};
use td_indices::{Archive, IndexText};
use td_inputs::{InputTexts, Opened, open_texts};
use td_text::put_number;
use td_words::CheckRequest;

// The texts that are opened: no state file is among them, and no tracker.
fn lend<'i>(archs: &'i str, packages: IndexText<'i>, sources: IndexText<'i>) -> InputTexts<'i>
    requires { length archs.now ≤ file_limit }
    ensures { texts_opened result ≡ texts_checked archs.now packages.entry sources.entry }
{
    InputTexts {
        archs,
        packages,
        sources,
        state: None,
        tracker: None,
    }
}

// The line that says how many of each an archive has.
fn counts_line(alloc: Global, archive: &Archive<'_, '_>) -> Result<String, AllocError>
    ensures { IfOk result (λ line. string_bytes line ≡ counts_line_of archive.now) }
{
    let mut line = String::new(alloc);
    line.push_str("sources ")?;
    put_number(&mut line, archive.source_count() as u64)?;
    line.push_str(" binaries ")?;
    put_number(&mut line, archive.binary_count() as u64)?;
    line.push_str(" rows ")?;
    put_number(&mut line, archive.row_count() as u64)?;
    line.push_str("\n")?;
    Ok(line)
}

/// What is said of an archive, of whose indices these may be cut off.
pub fn told(
    alloc: Global,
    archive: &Archive<'_, '_>,
    details: bool,
    cut: CutOff,
) -> Result<String, AllocError>
    ensures { IfOk result (Tells (check_text details cut) archive.now) }
{
    let mut text = counts_line(alloc, archive)?;
    if !details {
        return Ok(text);
    }
    put_details(alloc, &mut text, archive)?;
    put_cut_lines(&mut text, cut.packages, cut.sources)?;
    Ok(text)
}

/// What was made, or the ending if memory ran out for it.
pub fn or_no_memory<A: Drop>(made: Result<A, AllocError>) -> Result<A, Ending>
    ensures ok { IfOk made (λ a. result ≡ Ok a) }
    ensures err { IfErr made (λ _. result ≡ Err Ending.NoMemory) }
{
    match made {
        Ok(made) => Ok(made),
        Err(_) => Err(Ending::NoMemory),
    }
}

// What is said of the archive that the texts of three files are.
fn texts_tell<R: Threads + Sync>(
    rt: &R,
    alloc: Global,
    texts: EarlyTexts,
    details: bool,
) -> Result<String, Ending>
    requires { IsWithin texts }
    ensures { IsCounted (check_text details texts.cut)
        (string_bytes texts.archs) texts.packages texts.sources result }
{
    let EarlyTexts {
        archs,
        packages,
        sources,
        cut,
    } = texts;
    let lent = lend(archs.as_str(), packages, sources);
    let tell = move |opened: Opened| -> Result<String, AllocError>
        ensures { IfOk result (Tells (check_text details cut) opened.entry.archive.now) }
    { told(alloc, opened.archive, details, cut) };
    let made = open_texts(rt, alloc, lent, tell);
    match made {
        Ok(made) => or_no_memory(made),
        Err(fault) => Err(ending_of_opening(fault)),
    }
}

/// How a run ends by what is to be written.
pub fn write<W: Writer>(line: Result<String, Ending>, output: &mut W) -> Ending
    ensures line { IfOk line (λ line.
        WritesSo (string_bytes line) (W.contents output.old) (W.contents output.new) result) }
    ensures refused { IfErr line (λ ending.
        EndsUnwritten ending (W.contents output.old) (W.contents output.new) result) }
    ensures due { IfErr line (λ ending. ending ≢ Ending.CannotWrite)
        → result ≡ Ending.CannotWrite → W.can_fail output.old ≡ true }
{
    let line = match line {
        Ok(line) => line,
        Err(ending) => return ending,
    };
    match write_whole(output, line.as_bytes()) {
        Ok(()) => Ending::Done,
        Err(_) => Ending::CannotWrite,
    }
}

// How a check ends by what was read of the files.
fn count<R: Threads + Sync, W: Writer>(
    rt: &R,
    alloc: Global,
    read: Result<EarlyTexts, FileFault>,
    details: bool,
    output: &mut W,
) -> Ending
    requires { ForOk read IsWithin }
    ensures texts { IfOk read (λ texts.
        FileTextsEnd details texts (W.contents output.old) (W.contents output.new) result) }
    ensures unread { IfErr read (λ fault.
        FileUnread fault (W.contents output.old) (W.contents output.new) result) }
    ensures due { result ≡ Ending.CannotWrite → W.can_fail output.old ≡ true }
{
    let read = match read {
        Ok(read) => read,
        Err(unread) => return ending_of_file(unread.role, unread.fault),
    };
    write(texts_tell(rt, alloc, read, details), output)
}

/// Counts what the indices of a request's paths hold, and tells details if they are asked for. All
/// is read before anything is written.
pub fn check<R: Threads + Sync, T: Texts + Sync, W: Writer>(
    rt: &R,
    alloc: Global,
    texts: &T,
    request: &CheckRequest,
    output: &mut W,
) -> Ending
    ensures checks { Checks request.now.details
        (archive_files_at (T.bytes texts.now) (T.can_fail texts.now) request.now.files)
        (W.contents output.old) (W.contents output.new) result }
    ensures due { result ≡ Ending.CannotWrite → W.can_fail output.old ≡ true }
{
    let read = read_early(rt, alloc, texts, &request.files);
    count(rt, alloc, read, request.details, output)
}
