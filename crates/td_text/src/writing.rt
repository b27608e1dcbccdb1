//! Numbers appended to a text.
ghost use Rattle.std.specs.Prelude.{◌≡◌, ◌++◌, ◌+◌, ◌<◌, length, OnOk, OnErr, decimal};
ghost use Rattle.std.specs.Fmt.{signed_decimal};
ghost use Rattle.std.specs.String.{string_bytes, string_len, string_capacity};

use itoa::Buffer;
use std::alloc::AllocError;

/// Appends the number in decimal digits.
pub fn put_number(out: &mut String, number: u64) -> Result<(), AllocError>
    ensures ok { OnOk result (string_bytes out.new ≡ string_bytes out.old ++ decimal number) }
    ensures err { OnErr result (string_bytes out.new ≡ string_bytes out.old) }
    ensures full { OnErr result
        (string_capacity out.old < string_len out.old + length (decimal number)) }
{
    let mut digits = Buffer::new();
    out.push_str(digits.format(number))
}

/// Appends the number in decimal digits, with `-` before one below 0.
pub fn put_signed(out: &mut String, number: i16) -> Result<(), AllocError>
    ensures ok { OnOk result
        (string_bytes out.new ≡ string_bytes out.old ++ signed_decimal number) }
    ensures err { OnErr result (string_bytes out.new ≡ string_bytes out.old) }
    ensures full { OnErr result
        (string_capacity out.old < string_len out.old + length (signed_decimal number)) }
{
    let mut buffer = Buffer::new();
    out.push_str(buffer.format(number))
}
