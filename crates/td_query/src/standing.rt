//! Whether a text is in a value as a word of its own.
ghost use Rattle.std.specs.Prelude.{◌≡◌, ◌≤◌, length};
ghost use Rattle.td_text.specs.Words.{is_name_byte as is_name_byte_of};
ghost use Rattle.td_query.specs.Standing.{is_free_before as is_free_before_of};
ghost use Rattle.td_query.specs.Standing.{is_free_from as is_free_from_of};
ghost use Rattle.td_query.specs.Standing.{stands_at as stands_at_of, stands_in as stands_in_of};

fn is_name_byte(byte: u8) -> bool
    ensures name { result ≡ is_name_byte_of byte }
{
    matches!(byte, b'a'..=b'z' | b'0'..=b'9' | b'+' | b'-' | b'.')
}

fn is_free_before(value: &[u8], i: usize) -> bool
    requires within { i ≤ length value.now }
    ensures free { result ≡ is_free_before_of value.now i }
{
    i == 0 || !is_name_byte(value[i - 1])
}

fn is_free_from(value: &[u8], j: usize) -> bool
    ensures free { result ≡ is_free_from_of value.now j }
{
    j >= value.len() || !is_name_byte(value[j])
}

fn stands_at(text: &[u8], value: &[u8], i: usize) -> bool
    requires within { i ≤ length value.now }
    ensures stands { result ≡ stands_at_of text.now value.now i }
{
    if value.len() - i < text.len() {
        return false;
    }
    let end = i + text.len();
    &value[i..end] == text && is_free_before(value, i) && is_free_from(value, end)
}

/// Whether the text, not empty, is in the value, bounded by its ends or by what no package's
/// name has.
fn stands_in(text: &[u8], value: &[u8]) -> bool
    ensures stands { result ≡ stands_in_of text.now value.now }
{
    if text.is_empty() {
        return false;
    }
    for i in 0..value.len() {
        if stands_at(text, value, i) {
            return true;
        }
    }
    false
}

/// Whether the text is in the value, bounded. Most values don't have it at all, and a search finds
/// that out sooner than a look at each place.
pub fn stands_bounded(text: &str, value: &str) -> bool
    ensures stands { result ≡ stands_in_of text.now value.now }
{
    if !value.contains(text) {
        return false;
    }
    stands_in(text.as_bytes(), value.as_bytes())
}
