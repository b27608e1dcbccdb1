//! What a line of a control file is: a separator, a field's first line, or its continuation.
ghost use Rattle.std.specs.Prelude.{◌≡◌};
ghost use Rattle.td_text.specs.Lines.{lines_of};
ghost use Rattle.td_stanza.specs.Line.{is_blank_byte as is_blank_byte_of};
ghost use Rattle.td_stanza.specs.Line.{is_separator as is_separator_of};
ghost use Rattle.td_stanza.specs.Line.{begins_blank as begins_blank_of, is_continuation};
ghost use Rattle.td_stanza.specs.Line.{first_line};

use td_text::next_line;

fn is_blank_byte(byte: u8) -> bool
    ensures { result ≡ is_blank_byte_of byte }
{
    byte == b' ' || byte == b'\t'
}

fn are_blank(bytes: &[u8]) -> bool
    ensures { result ≡ is_separator_of bytes.now }
{
    bytes.iter().all(|b| is_blank_byte(*b))
}

/// Whether the line separates stanzas.
pub fn is_separator(line: &str) -> bool
    ensures { result ≡ is_separator_of line.now }
{
    are_blank(line.as_bytes())
}

/// Whether the text begins with a space or a tab.
pub fn begins_blank(text: &str) -> bool
    ensures { result ≡ begins_blank_of text.now }
{
    match text.as_bytes() {
        [] => false,
        [byte, ..] => is_blank_byte(*byte),
    }
}

/// Whether the text's first line continues a field.
pub fn continues(text: &str) -> bool
    ensures { result ≡ is_continuation (first_line (lines_of text.now)) }
{
    if !begins_blank(text) {
        return false;
    }
    let (line, _) = next_line(text);
    !is_separator(line)
}
