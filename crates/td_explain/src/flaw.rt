//! What is wrong with a line of a table of architectures.
ghost use Rattle.std.specs.Prelude.{◌≡◌, ◌<◌, ◌^◌, length};
ghost use Rattle.std.specs.List.{list_all};
ghost use Rattle.td_text.specs.Words.{is_alphanumeric as is_alphanumeric_of};
ghost use Rattle.td_relation.specs.Arch.{is_machine_word as is_machine_word_of};
ghost use Rattle.td_relation.specs.Arch.{is_reserved as is_reserved_of};
ghost use Rattle.td_relation.specs.Arch.{is_table_name as is_table_name_of};
ghost use Rattle.td_explain.specs.ArchFlaw.{flaw_at, flaw_in as flaw_in_of};
ghost use Rattle.td_explain.specs.ArchFlaw.{flaw_of_words as flaw_of_words_of};

use crate::spot::{Point, find_spot};
use td_text::{cut_at, is_arch};

/// What is wrong with a line, the first of these.
#[derive(Clone, Copy, Debug, PartialEq, Eq, Drop)]
pub enum ArchFlaw {
    /// It hasn't three words.
    Words,
    /// Its name means something else.
    Reserved,
    /// Its name isn't one.
    Name,
    /// Its operating system isn't one.
    Os,
    /// Its processor isn't one.
    Cpu,
    /// Nothing, or there is no such line.
    Nothing,
}

fn is_alphanumeric(byte: u8) -> bool
    ensures { result ≡ is_alphanumeric_of byte }
{
    matches!(byte, b'a'..=b'z' | b'0'..=b'9')
}

fn are_alphanumeric(bytes: &[u8]) -> bool
    ensures { result ≡ list_all is_alphanumeric_of bytes.now }
{
    bytes.iter().all(|b| is_alphanumeric(*b))
}

// Whether the text can be an operating system or a processor.
fn is_machine_word(text: &str) -> bool
    ensures { result ≡ is_machine_word_of text.now }
{
    !text.is_empty() && are_alphanumeric(text.as_bytes()) && text != "any"
}

// Whether an Architecture field uses the word for something else.
fn is_reserved(text: &str) -> bool
    ensures { result ≡ is_reserved_of text.now }
{
    text == "all" || text == "any" || text == "source"
}

// Whether the text is a name that a table may give.
fn is_table_name(text: &str) -> bool
    ensures { result ≡ is_table_name_of text.now }
{
    let bytes = text.as_bytes();
    is_arch(text)
        && !is_reserved(text)
        && !bytes.starts_with(b"-")
        && !bytes.starts_with(b"any-")
        && !bytes.ends_with(b"-any")
}

fn flaw_of_words(name: &str, os: &str, cpu: &str) -> ArchFlaw
    ensures { result ≡ flaw_of_words_of name.now os.now cpu.now }
{
    if is_reserved(name) {
        ArchFlaw::Reserved
    } else if !is_table_name(name) {
        ArchFlaw::Name
    } else if !is_machine_word(os) {
        ArchFlaw::Os
    } else if !is_machine_word(cpu) {
        ArchFlaw::Cpu
    } else {
        ArchFlaw::Nothing
    }
}

fn flaw_in(line: &str) -> ArchFlaw
    ensures { result ≡ flaw_in_of line.now }
{
    let Some((name, rest)) = cut_at(line, ' ') else {
        return ArchFlaw::Words;
    };
    match cut_at(rest, ' ') {
        Some((os, cpu)) => flaw_of_words(name, os, cpu),
        None => ArchFlaw::Words,
    }
}

/// What is wrong with the line of a table that has this number. `arch_flaws_are_exact` says when
/// that is something.
pub fn arch_flaw(text: &str, number: usize) -> ArchFlaw
    requires { length text.now < 2 ^ 63 }
    ensures { result ≡ flaw_at number text.now }
{
    match find_spot(text, Point::Line(number)) {
        Some(spot) => flaw_in(spot.line),
        None => ArchFlaw::Nothing,
    }
}
