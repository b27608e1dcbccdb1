//! Names of fields, whose letters' case doesn't count.
ghost use Rattle.std.specs.Prelude.{◌≡◌, ◌++◌, ◌&&◌, ◌||◌, ◌==◌, length, nat_lt, not, slice_index};
ghost use Rattle.std.specs.List.{list_all, prefix_len};
ghost use Rattle.td_text.specs.Cut.{part};
ghost use Rattle.td_text.specs.Runs.{behind, run};
ghost use Rattle.td_stanza.specs.Field.{is_name_byte as is_name_byte_of};
ghost use Rattle.td_stanza.specs.Field.{is_field_name as is_field_name_of};
ghost use Rattle.td_stanza.specs.Field.{is_same_name as is_same_name_of};

use td_text::part_at;

/// 1 at each byte that a field's name may have, and else 0: one look instead of up to four
/// comparisons.
const NAME_BYTES: [u8; 256] = [
    0, 0, 0, 0, 0, 0, 0, 0, 0, 0, 0, 0, 0, 0, 0, 0, 0, 0, 0, 0, 0, 0, 0, 0, 0, 0, 0, 0, 0, 0, 0, 0,
    0, 1, 1, 1, 1, 1, 1, 1, 1, 1, 1, 1, 1, 1, 1, 1, 1, 1, 1, 1, 1, 1, 1, 1, 1, 1, 0, 1, 1, 1, 1, 1,
    1, 1, 1, 1, 1, 1, 1, 1, 1, 1, 1, 1, 1, 1, 1, 1, 1, 1, 1, 1, 1, 1, 1, 1, 1, 1, 1, 1, 1, 1, 1, 1,
    1, 1, 1, 1, 1, 1, 1, 1, 1, 1, 1, 1, 1, 1, 1, 1, 1, 1, 1, 1, 1, 1, 1, 1, 1, 1, 1, 1, 1, 1, 1, 0,
    0, 0, 0, 0, 0, 0, 0, 0, 0, 0, 0, 0, 0, 0, 0, 0, 0, 0, 0, 0, 0, 0, 0, 0, 0, 0, 0, 0, 0, 0, 0, 0,
    0, 0, 0, 0, 0, 0, 0, 0, 0, 0, 0, 0, 0, 0, 0, 0, 0, 0, 0, 0, 0, 0, 0, 0, 0, 0, 0, 0, 0, 0, 0, 0,
    0, 0, 0, 0, 0, 0, 0, 0, 0, 0, 0, 0, 0, 0, 0, 0, 0, 0, 0, 0, 0, 0, 0, 0, 0, 0, 0, 0, 0, 0, 0, 0,
    0, 0, 0, 0, 0, 0, 0, 0, 0, 0, 0, 0, 0, 0, 0, 0, 0, 0, 0, 0, 0, 0, 0, 0, 0, 0, 0, 0, 0, 0, 0, 0,
];

fn is_name_byte(byte: u8) -> bool
    ensures { result ≡ is_name_byte_of byte }
{
    NAME_BYTES[byte as usize] != 0
}

fn are_name_bytes(bytes: &[u8]) -> bool
    ensures { result ≡ list_all is_name_byte_of bytes.now }
{
    bytes.iter().all(|b| is_name_byte(*b))
}

// Whether there is a first byte, and it may begin a field's name.
fn begins_name(bytes: &[u8]) -> bool
    ensures { result ≡ (nat_lt 0 (length bytes.now)
        && not ((slice_index bytes.now 0 == 35) || (slice_index bytes.now 0 == 45))) }
{
    !bytes.is_empty() && bytes[0] != b'#' && bytes[0] != b'-'
}

fn is_field_name(text: &str) -> bool
    ensures { result ≡ is_field_name_of text.now }
{
    let bytes = text.as_bytes();
    begins_name(bytes) && are_name_bytes(bytes)
}

fn name_len(bytes: &[u8]) -> usize
    ensures { result ≡ prefix_len is_name_byte_of bytes.now }
{
    bytes.iter().take_while(|b| is_name_byte(**b)).count()
}

// The longest run at the front of bytes that a field's name may have, and what follows it.
fn name_run(text: &str) -> (&str, &str)
    ensures run { result.0.now ≡ run is_name_byte_of text.now }
    ensures behind { result.1.now ≡ behind is_name_byte_of text.now }
{
    text.split_at(name_len(text.as_bytes()))
}

/// The text before the first colon, the text from there on, and whether the former can name a
/// field. Where a name stands there, its bytes are looked at once.
pub fn front_name(line: &str) -> (&str, &str, bool)
    ensures value { (result.0.now, result.1.now) ≡ part 58 line.now }
    ensures joined { line.now ≡ result.0.now ++ result.1.now }
    ensures named { result.2 ≡ is_field_name_of result.0.now }
{
    let (name, rest) = name_run(line);
    let after = rest.as_bytes();
    if !after.is_empty() && after[0] == b':' {
        return (name, rest, begins_name(name.as_bytes()));
    }
    let (front, back) = part_at(line, ':');
    (front, back, is_field_name(front))
}

/// Whether two names are the same; the case of ASCII letters doesn't count.
pub fn is_same_name(a: &str, b: &str) -> bool
    ensures { result ≡ is_same_name_of a.now b.now }
{
    a.eq_ignore_ascii_case(b)
}
