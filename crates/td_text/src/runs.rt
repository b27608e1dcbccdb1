//! Whitespace, and the runs of bytes of a kind at the front of a text.
ghost use Rattle.std.specs.Prelude.{◌≡◌, ◌≤◌, length};
ghost use Rattle.std.specs.List.{prefix_len};
ghost use Rattle.td_text.specs.Runs.{behind, is_blank as is_blank_of, is_space as is_space_of, run};
ghost use Rattle.td_text.specs.Runs.{trimmed as trimmed_of};
ghost use Rattle.td_text.specs.Words.{is_arch_byte as is_arch_byte_of};
ghost use Rattle.td_text.specs.Words.{is_name_byte as is_name_byte_of};

use crate::word::{is_arch_byte, is_name_byte};

/// Whether the byte is a space, a tab or a newline.
pub fn is_space(byte: u8) -> bool
    ensures { result ≡ is_space_of byte }
{
    byte == b' ' || byte == b'\t' || byte == b'\n'
}

/// Whether the text is only whitespace, or empty.
pub fn is_blank(text: &str) -> bool
    ensures { result ≡ is_blank_of text.now }
{
    text.as_bytes().iter().all(|b| is_space(*b))
}

fn space_len(bytes: &[u8]) -> usize
    ensures { result ≡ prefix_len is_space_of bytes.now }
{
    bytes.iter().take_while(|b| is_space(**b)).count()
}

/// The text without the whitespace at its beginning.
pub fn trimmed(text: &str) -> &str
    ensures value { result.now ≡ trimmed_of text.now }
    ensures shorter { length result.now ≤ length text.now }
{
    text.split_at(space_len(text.as_bytes())).1
}

fn name_len(bytes: &[u8]) -> usize
    ensures { result ≡ prefix_len is_name_byte_of bytes.now }
{
    bytes.iter().take_while(|b| is_name_byte(**b)).count()
}

/// The longest run at the front of bytes that a package's name may have, and what follows it.
pub fn name_run(text: &str) -> (&str, &str)
    ensures run { result.0.now ≡ run is_name_byte_of text.now }
    ensures behind { result.1.now ≡ behind is_name_byte_of text.now }
{
    text.split_at(name_len(text.as_bytes()))
}

fn arch_len(bytes: &[u8]) -> usize
    ensures { result ≡ prefix_len is_arch_byte_of bytes.now }
{
    bytes.iter().take_while(|b| is_arch_byte(**b)).count()
}

/// The longest run at the front of bytes that an architecture's name may have, and what follows it.
pub fn arch_run(text: &str) -> (&str, &str)
    ensures run { result.0.now ≡ run is_arch_byte_of text.now }
    ensures behind { result.1.now ≡ behind is_arch_byte_of text.now }
{
    text.split_at(arch_len(text.as_bytes()))
}
