//! A text as it is shown within a line.
ghost use Rattle.std.specs.Prelude.{◌≡◌, ◌++◌, ◌<◌, chars, string_bytes, OnOk};
ghost use Rattle.std.specs.Char.{digit_char};
ghost use Rattle.td_explain.specs.Shown.{shown, shown_char};

use std::alloc::AllocError;

/// How many characters of a text are shown.
pub const MAX_SHOWN: usize = 60;

/// How many characters of a path are shown: no path that the system takes has more bytes.
pub const MAX_PATH: usize = 4096;

// The digit of a number below 16.
fn hex_digit(value: u32) -> char
    requires { value < 16 }
    ensures { result ≡ digit_char value }
{
    if value < 10 {
        (b'0' + value as u8) as char
    } else {
        (b'a' + (value as u8 - 10)) as char
    }
}

// Appends the character, or its escape if it is a control character.
fn put_char(out: &mut String, c: char) -> Result<(), AllocError>
    ensures { OnOk result (string_bytes out.new ≡ string_bytes out.old ++ shown_char c) }
{
    if !c.is_control() {
        return out.push(c);
    }
    let code = c as u32;
    out.push_str("\\x")?;
    out.push(hex_digit(code / 16))?;
    out.push(hex_digit(code % 16))
}

/// Appends the text's first characters, this many at most, between quotation marks.
pub fn put_shown(out: &mut String, text: &str, most: usize) -> Result<(), AllocError>
    ensures { OnOk result
        (string_bytes out.new ≡ string_bytes out.old ++ shown most (chars text.now)) }
{
    out.push_str("\"")?;
    let mut left = most;
    let mut rest = text.chars();
    while let Some(c) = rest.next() {
        if left == 0 {
            return out.push_str("\"...");
        }
        put_char(out, c)?;
        left -= 1;
    }
    out.push_str("\"")
}
