//! What is said of words that ask for nothing.
ghost use Rattle.std.specs.Prelude.{◌≡◌, ℕ, List, Some};
ghost use Rattle.clap.specs.Values.{kind_of};
ghost use Rattle.clap.specs.Matches.{found_of};
ghost use Rattle.clap.specs.Walk.{rows_of};
ghost use Rattle.td_words.specs.Asked.{IsUsage};
ghost use Rattle.td_words.specs.Folder.{folder_in};

use crate::command::command;
use crate::request::{WordsFault, usage_fault, value_in};
use clap::error::ErrorKind;
use clap::{ArgMatches, Error};
use std::alloc::Global;

// The text of an error, unless it is that memory ran out.
fn text_of(alloc: Global, error: &Error) -> WordsFault
    ensures { kind_of error.now ≡ ErrorKind.OutOfMemory → result ≡ WordsFault.NoMemory }
{
    if error.kind() == ErrorKind::OutOfMemory {
        return WordsFault::NoMemory;
    }
    match error.to_string(alloc) {
        Ok(text) => WordsFault::Usage(text),
        Err(_) => WordsFault::NoMemory,
    }
}

// What `clap` says of the words if all that is needed has to be among them. They are bad then, too,
// unless `clap` broke a promise.
fn said_strictly(alloc: Global, words: &[String]) -> WordsFault {
    let Ok(strict) = command(alloc, true) else {
        return WordsFault::NoMemory;
    };
    match strict.try_get_matches_from(words) {
        Ok(_) => WordsFault::Usage(String::new(alloc)),
        Err(error) => text_of(alloc, &error),
    }
}

/// The fault of words in which `clap` found an error.
pub(crate) fn fault_of(alloc: Global, words: &[String], error: &Error) -> WordsFault
    ensures { kind_of error.now ≡ ErrorKind.OutOfMemory → result ≡ WordsFault.NoMemory }
{
    if error.kind() == ErrorKind::OutOfMemory {
        return WordsFault::NoMemory;
    }
    said_strictly(alloc, words)
}

/// The fault of words that lack something that is needed: with a folder this text, and without one
/// what `clap` says.
pub(crate) fn lacking(
    alloc: Global,
    words: &[String],
    matches: &ArgMatches<'_>,
    text: &str,
) -> WordsFault
    ensures { (folder : List ℕ) → folder_in (rows_of (found_of matches.now)) ≡ Some folder
        → IsUsage result text.now }
{
    match value_in(matches, "folder") {
        Some(_) => usage_fault(alloc, text),
        None => said_strictly(alloc, words),
    }
}
