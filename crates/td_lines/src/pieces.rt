//! Pieces of a line, by a place in it.
ghost use Rattle.std.specs.Prelude.{◌≡◌, drop, take};
ghost use Rattle.std.specs.List.{list_any, prefix_len};
ghost use Rattle.td_script.specs.Reading.{first_word as first_word_of, is_word_byte};
ghost use Rattle.td_text.specs.Runs.{is_space as is_space_of, run};
ghost use Rattle.td_lines.specs.Pieces.{before as before_of, is_one_word as is_one_word_of};
ghost use Rattle.td_lines.specs.Pieces.{piece, rest_at as rest_at_of, word_at as word_at_of};

use std::str;
use td_text::{is_space, part_at, strip, trimmed};

// The bytes of a line before a place, and from it on.
#[tactic(auto, using(td_explain::proofs::Fronts::taken, td_explain::proofs::Fronts::dropped))]
fn halves(line: &str, place: usize) -> (&[u8], &[u8])
    ensures front { result.0.now ≡ take place line.now }
    ensures rest { result.1.now ≡ drop place line.now }
{
    let bytes = line.as_bytes();
    bytes.split_at(place.min(bytes.len()))
}

// The line from a place on; all of it if the place is within a character.
fn rest_at(line: &str, place: usize) -> &str
    ensures { result.now ≡ rest_at_of place line.now }
{
    match str::from_utf8(halves(line, place).1) {
        Ok(text) => text,
        Err(_) => line,
    }
}

/// The line before a place; all of it if the place is within a character.
pub fn before(line: &str, place: usize) -> &str
    ensures { result.now ≡ before_of place line.now }
{
    match str::from_utf8(halves(line, place).0) {
        Ok(text) => text,
        Err(_) => line,
    }
}

// How many bytes are before the first whitespace.
fn word_len(bytes: &[u8]) -> usize
    ensures { result ≡ prefix_len is_word_byte bytes.now }
{
    bytes.iter().take_while(|b| !is_space(**b)).count()
}

// The text before the first whitespace.
fn bare_word(text: &str) -> &str
    ensures { result.now ≡ run is_word_byte text.now }
{
    text.split_at(word_len(text.as_bytes())).0
}

// The first piece of a text: what its first quotes have, or what is before the first whitespace.
fn first_piece(text: &str) -> &str
    ensures { result.now ≡ piece text.now }
{
    match strip(text, "\"") {
        Some(inside) => part_at(inside, '"').0,
        None => match strip(text, "'") {
            Some(inside) => part_at(inside, '\'').0,
            None => bare_word(text),
        },
    }
}

/// The word of a line at a place.
pub fn word_at(line: &str, place: usize) -> &str
    ensures { result.now ≡ word_at_of place line.now }
{
    first_piece(rest_at(line, place))
}

/// The first word of a line, up to whitespace.
pub fn first_word(line: &str) -> &str
    ensures { result.now ≡ first_word_of line.now }
{
    bare_word(trimmed(line))
}

// Whether a text has whitespace.
fn has_space(text: &str) -> bool
    ensures { result ≡ list_any is_space_of text.now }
{
    text.as_bytes().iter().any(|b| is_space(*b))
}

/// Whether a text is something, and without whitespace.
pub fn is_one_word(text: &str) -> bool
    ensures { result ≡ is_one_word_of text.now }
{
    !text.is_empty() && !has_space(text)
}
