//! What a line of a desk in a file is.
ghost use Rattle.std.specs.Prelude.{◌≡◌, IfOk};
ghost use Rattle.td_text.specs.Cut.{Without};
ghost use Rattle.td_lasting.specs.OwnReading.{OwnLinesAreHeard, heard_at, is_own_verb as is_own};

use crate::own_request::{OwnRequest, read_own_request, read_own_verb};
use std::alloc::{AllocError, Global};
use td_script::first_word;

/// What a line is.
#[derive(Drop)]
pub enum Heard {
    /// One of the five lines that a script hasn't.
    Own(OwnRequest),
    /// None of them, though its first word is one's.
    Bad,
    /// A line of a script.
    Scripted,
}

fn is_own_verb(word: &str) -> bool
    ensures { result ≡ is_own word.now }
{
    read_own_verb(word).is_some()
}

/// What a line is. No newline stands in it. Memory is taken for one of the five alone.
#[tactic(auto, unfolding(crate::specs::OwnReading::heard_at))]
pub fn hear(alloc: Global, line: &str) -> Result<Heard, AllocError>
    requires { Without 10 line.now }
    ensures { IfOk result (λ heard. heard ≡ heard_at line.now) }
{
    if let Some(request) = read_own_request(alloc, line)? {
        return Ok(Heard::Own(request));
    }
    if is_own_verb(first_word(line)) {
        Ok(Heard::Bad)
    } else {
        Ok(Heard::Scripted)
    }
}

/// A line is heard as one of the five exactly where it is the line of that request.
pub fn own_lines_are_heard()
    ensures { OwnLinesAreHeard }
{}
