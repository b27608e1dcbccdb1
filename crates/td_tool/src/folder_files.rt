//! Which files the folder has that the words give, and what the words ask for then.
ghost use Rattle.std.specs.Prelude.{◌≡◌, ◌&&◌, not, List, [], ℕ, IfOk, IfErr, MatchResult, map};
ghost use Rattle.std.specs.Prelude.{option_map, codes, string_bytes};
ghost use Rattle.td_words.specs.Asked.{check_of, desk_of, plan_of, report_of, request_words};
ghost use Rattle.td_words.specs.Asked.{run_of};
ghost use Rattle.td_words.specs.Asked.{waves_of};
ghost use Rattle.td_words.specs.CheckWords.{AskForCheck, CheckWords};
ghost use Rattle.td_words.specs.CommandLine.{AskFor, RunWords, TrackWords, WavesWords};
ghost use Rattle.td_words.specs.CommandLine.{faults_of, is_explained, options_of};
ghost use Rattle.td_words.specs.DeskWords.{DeskWords};
ghost use Rattle.td_words.specs.PlanWords.{PlanWords};
ghost use Rattle.td_tool.specs.FolderFiles.{AskFound, AsksForDesk, AsksForPlan, AsksForRun};
ghost use Rattle.td_tool.specs.FolderFiles.{AsksForTrack, AsksForWaves, CanBeFound, CanBePresent};
ghost use Rattle.td_tool.specs.FolderFiles.{CanBeThere, TellsWhich, is_folder as is_folder_of};
ghost use Rattle.td_tool.specs.FolderFiles.{leads_nowhere as leads_nowhere_of};
ghost use Rattle.td_words.specs.Folder.{in_folder as in_folder_of};

use crate::cause::Cause;
use crate::file_texts::FILE_LIMIT;
use crate::texts::Texts;
use std::alloc::{AllocError, Global};
use td_words::{Call, Present, Request, WordsFault, in_folder, read_folder, read_words};

// Whether a path leads to a folder, by why it can't be read.
fn is_folder(found: Option<Cause>) -> bool
    ensures { result ≡ is_folder_of found }
{
    match found {
        Some(Cause::IsFolder) => true,
        Some(Cause::NoSuchFile | Cause::NotPermitted | Cause::TooLong) | None => false,
    }
}

// Whether a path leads nowhere, by why it can't be read.
fn leads_nowhere(found: Option<Cause>) -> bool
    ensures { result ≡ leads_nowhere_of found }
{
    match found {
        Some(Cause::NoSuchFile) => true,
        Some(Cause::IsFolder | Cause::NotPermitted | Cause::TooLong) | None => false,
    }
}

// Whether a file counts as being in a folder, by why neither can be read.
fn counts(folder: Option<Cause>, file: Option<Cause>) -> bool
    ensures { result ≡ not (is_folder_of folder && leads_nowhere_of file) }
{
    !is_folder(folder) || !leads_nowhere(file)
}

// Whether the file of this path and name counts as being in a folder.
fn is_found<T: Texts>(texts: &T, folder: &str, path: &str) -> bool
    ensures { (name : List ℕ) → path.now ≡ in_folder_of name folder.now
        → CanBeThere (T.can_be texts.now) folder.now name result }
{
    counts(
        texts.cause(folder, FILE_LIMIT),
        texts.cause(path, FILE_LIMIT),
    )
}

// Whether the file of this name counts as being in a folder.
fn is_there<T: Texts>(
    alloc: Global,
    texts: &T,
    folder: &str,
    name: &str,
) -> Result<bool, AllocError>
    ensures { IfOk result (CanBeThere (T.can_be texts.now) folder.now name.now) }
{
    let path = in_folder(alloc, name, folder)?;
    Ok(is_found(texts, folder, path.as_str()))
}

// Which files the folder has, if one is given.
fn present_in<T: Texts>(
    alloc: Global,
    texts: &T,
    folder: &Option<String>,
) -> Result<Present, AllocError>
    ensures { IfOk result
        (CanBePresent (T.can_be texts.now) (option_map string_bytes folder.now)) }
{
    let Some(folder) = folder else {
        return Ok(Present {
            state: false,
            tracker: false,
            journal: false,
        });
    };
    let folder = folder.as_str();
    Ok(Present {
        state: is_there(alloc, texts, folder, "state")?,
        tracker: is_there(alloc, texts, folder, "tracker")?,
        journal: is_there(alloc, texts, folder, "journal")?,
    })
}

// Which files the folder has that the words give.
fn read_present<T: Texts>(alloc: Global, words: &[String], texts: &T) -> Result<Present, WordsFault>
    ensures found { IfOk result
        (CanBeFound (T.can_be texts.now) (map string_bytes words.now)) }
    ensures memory { faults_of (map string_bytes words.now) ≡ []
        → IfErr result (λ e. e ≡ WordsFault.NoMemory) }
{
    let folder = read_folder(alloc, words)?;
    let present = present_in(alloc, texts, &folder)?;
    Ok(present)
}

/// What the words ask for, by which files are in the folder that they give.
pub fn read_call<T: Texts>(alloc: Global, words: &[String], texts: &T) -> Result<Call, WordsFault>
    ensures simulate { AskFor (codes "simulate") (map string_bytes words.now)
        → MatchResult result (λ c. c.request ≡ Request.Simulate)
        (λ e. e ≡ WordsFault.NoMemory) }
    ensures check { (w : CheckWords) → AskForCheck (map string_bytes words.now) w
        → MatchResult result (λ c. request_words c.request ≡ check_of w)
        (λ e. e ≡ WordsFault.NoMemory) }
    ensures track { (w : TrackWords)
        → AsksForTrack (T.can_be texts.now) (map string_bytes words.now) w
        → MatchResult result (λ c. request_words c.request ≡ report_of w)
        (λ e. e ≡ WordsFault.NoMemory) }
    ensures waves { (w : WavesWords)
        → AsksForWaves (T.can_be texts.now) (map string_bytes words.now) w
        → MatchResult result (λ c. request_words c.request ≡ waves_of w)
        (λ e. e ≡ WordsFault.NoMemory) }
    ensures plan { (w : PlanWords)
        → AsksForPlan (T.can_be texts.now) (map string_bytes words.now) w
        → MatchResult result (λ c. request_words c.request ≡ plan_of w)
        (λ e. e ≡ WordsFault.NoMemory) }
    ensures run { (w : RunWords)
        → AsksForRun (T.can_be texts.now) (map string_bytes words.now) w
        → MatchResult result (λ c. request_words c.request ≡ run_of w)
        (λ e. e ≡ WordsFault.NoMemory) }
    ensures desk { (w : DeskWords)
        → AsksForDesk (T.can_be texts.now) (map string_bytes words.now) w
        → MatchResult result (λ c. request_words c.request ≡ desk_of w)
        (λ e. e ≡ WordsFault.NoMemory) }
    ensures said { IfErr result (TellsWhich (T.can_be texts.now) (map string_bytes words.now)) }
    ensures only { IfOk result (λ c. AskFound (T.can_be texts.now) (map string_bytes words.now)
        (request_words c.request)) }
    ensures explained { IfOk result (λ c. c.explained
        ≡ is_explained (options_of (map string_bytes words.now))) }
{
    match read_present(alloc, words, texts) {
        Ok(present) => read_words(alloc, words, present),
        Err(fault) => Err(fault),
    }
}
