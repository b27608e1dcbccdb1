//! An architecture, and the words that match it.
ghost use Rattle.std.specs.Prelude.{◌≡◌, ◌++◌, option_map};
ghost use Rattle.std.specs.List.{list_all};
ghost use Rattle.std.specs.Str.{bytes_eq};
ghost use Rattle.td_text.specs.Words.{is_alphanumeric as is_alphanumeric_of};
ghost use Rattle.td_relation.specs.Arch.{words_of, is_machine_word as is_machine_word_of};
ghost use Rattle.td_relation.specs.Arch.{is_reserved as is_reserved_of};
ghost use Rattle.td_relation.specs.Arch.{is_table_name as is_table_name_of};
ghost use Rattle.td_relation.specs.ArchReading.{arch_at};

use td_text::{cut_at, is_arch};

/// An architecture of the table, by slices of its line.
#[derive(Clone, Copy)]
pub struct Arch<'a> {
    pub name: &'a str,
    pub os: &'a str,
    pub cpu: &'a str,
}

// Whether the word is the two texts, one after the other.
fn is_joined(word: &[u8], front: &[u8], back: &[u8]) -> bool
    ensures { result ≡ bytes_eq word.now (front.now ++ back.now) }
{
    match word.strip_prefix(front) {
        Some(rest) => rest == back,
        None => false,
    }
}

fn is_alphanumeric(byte: u8) -> bool
    ensures { result ≡ is_alphanumeric_of byte }
{
    matches!(byte, b'a'..=b'z' | b'0'..=b'9')
}

fn are_alphanumeric(bytes: &[u8]) -> bool
    ensures { result ≡ list_all is_alphanumeric_of bytes.now }
{
    bytes.iter().all(|b| is_alphanumeric(*b))
}

fn is_machine_word(text: &str) -> bool
    ensures { result ≡ is_machine_word_of text.now }
{
    !text.is_empty() && are_alphanumeric(text.as_bytes()) && text != "any"
}

fn is_reserved(text: &str) -> bool
    ensures { result ≡ is_reserved_of text.now }
{
    text == "all" || text == "any" || text == "source"
}

fn is_table_name(text: &str) -> bool
    ensures { result ≡ is_table_name_of text.now }
{
    let bytes = text.as_bytes();
    is_arch(text)
        && !is_reserved(text)
        && !bytes.starts_with(b"-")
        && !bytes.starts_with(b"any-")
        && !bytes.ends_with(b"-any")
}

impl<'a> Arch<'a> {
    ghost use Rattle.std.specs.Prelude.{◌≡◌, option_map};
    ghost use Rattle.td_relation.specs.Arch.{words_of, matches as matches_of};
    ghost use Rattle.td_relation.specs.ArchReading.{arch_at};

    /// The architecture of a line `NAME OS CPU`.
    #[tactic(auto, unfolding(crate::specs::ArchReading::arch_at))]
    pub fn read(line: &'a str) -> Option<Arch<'a>>
        ensures { option_map words_of result ≡ arch_at line.now }
    {
        let (name, rest) = cut_at(line, ' ')?;
        let (os, cpu) = cut_at(rest, ' ')?;
        if is_table_name(name) && is_machine_word(os) && is_machine_word(cpu) {
            Some(Arch { name, os, cpu })
        } else {
            None
        }
    }

    /// Whether a word of an architecture list matches: the name, `any`, `os-any` or `any-cpu`.
    pub fn matches(&self, word: &[u8]) -> bool
        ensures { result ≡ matches_of (words_of self.now) word.now }
    {
        word == self.name.as_bytes()
            || word == b"any".as_slice()
            || is_joined(word, self.os.as_bytes(), b"-any")
            || is_joined(word, b"any-", self.cpu.as_bytes())
    }
}
