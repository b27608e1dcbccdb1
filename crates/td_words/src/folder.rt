//! The paths of files: their own options give them, or a folder.
ghost use Rattle.std.specs.Prelude.{◌≡◌, ℕ, List, Some, None, codes, option_map, string_bytes};
ghost use Rattle.std.specs.Prelude.{MatchResult, IfOk, IfErr};
ghost use Rattle.clap.specs.Matches.{found_of};
ghost use Rattle.clap.specs.Walk.{rows_of};
ghost use Rattle.td_words.specs.Asked.{IsUsage};
ghost use Rattle.td_words.specs.Folder.{folder_in, in_folder as in_folder_of, path_if};
ghost use Rattle.td_words.specs.Folder.{path_in as path_in_of, tracker_said};

use crate::bad_words::lacking;
use crate::present::Present;
use crate::request::{WordsFault, value_in};
use clap::ArgMatches;
use std::alloc::{AllocError, Global};

/// What is said if a folder is given, and there is no tracker.
const NO_TRACKER: &str =
    "error: the following required arguments were not provided:\n  --tracker <FILE>\n\nFor more information, try '--help'.\n";

/// The path of the file with this name in a folder.
pub fn in_folder(alloc: Global, name: &str, folder: &str) -> Result<String, AllocError>
    ensures { IfOk result (λ path. string_bytes path ≡ in_folder_of name.now folder.now) }
{
    let mut path = String::from_str(alloc, folder)?;
    path.push_str("/")?;
    path.push_str(name)?;
    Ok(path)
}

/// The path of a file that may be left out: that of its own option, or else the one in the folder,
/// if the file is there.
pub(crate) fn file_in(
    alloc: Global,
    matches: &ArgMatches<'_>,
    name: &str,
    there: bool,
) -> Result<Option<String>, WordsFault>
    ensures path { IfOk result (λ path.
        option_map string_bytes path
        ≡ path_if there name.now (rows_of (found_of matches.now))) }
    ensures memory { IfErr result (λ e. e ≡ WordsFault.NoMemory) }
{
    if let Some(path) = value_in(matches, name) {
        return Ok(Some(String::from_str(alloc, path)?));
    }
    match value_in(matches, "folder") {
        Some(folder) if there => Ok(Some(in_folder(alloc, name, folder)?)),
        Some(_) | None => Ok(None),
    }
}

/// The path of a file of an archive. If neither its own option nor a folder is given, the words
/// lack it.
pub(crate) fn path_in(
    alloc: Global,
    words: &[String],
    matches: &ArgMatches<'_>,
    name: &str,
) -> Result<String, WordsFault>
    ensures path { (path : List ℕ)
        → path_in_of name.now (rows_of (found_of matches.now)) ≡ Some path
        → MatchResult result (λ s. string_bytes s ≡ path) (λ e. e ≡ WordsFault.NoMemory) }
    ensures only { IfOk result (λ s.
        path_in_of name.now (rows_of (found_of matches.now)) ≡ Some (string_bytes s)) }
{
    match file_in(alloc, matches, name, true)? {
        Some(path) => Ok(path),
        None => Err(lacking(alloc, words, matches, "")),
    }
}

/// The path of a tracker that is needed. If neither its own option nor a folder has it, the words
/// lack it.
pub(crate) fn tracker_in(
    alloc: Global,
    words: &[String],
    matches: &ArgMatches<'_>,
    present: Present,
) -> Result<String, WordsFault>
    ensures path { (path : List ℕ)
        → path_if present.tracker (codes "tracker") (rows_of (found_of matches.now)) ≡ Some path
        → MatchResult result (λ s. string_bytes s ≡ path) (λ e. e ≡ WordsFault.NoMemory) }
    ensures only { IfOk result (λ s.
        path_if present.tracker (codes "tracker") (rows_of (found_of matches.now))
        ≡ Some (string_bytes s)) }
    ensures said { (folder : List ℕ)
        → path_if present.tracker (codes "tracker") (rows_of (found_of matches.now)) ≡ None
        → folder_in (rows_of (found_of matches.now)) ≡ Some folder
        → IfErr result (λ e. IsUsage e tracker_said) }
{
    match file_in(alloc, matches, "tracker", present.tracker)? {
        Some(path) => Ok(path),
        None => Err(lacking(alloc, words, matches, NO_TRACKER)),
    }
}
