//! The tokens of a tracker, and what may be between them.
ghost use Rattle.std.specs.Prelude.{◌≡◌, ◌≤◌, ◌<◌, ◌+◌, IfSome, false, length, option_map};
ghost use Rattle.std.specs.Prelude.{slice_index};
ghost use Rattle.std.specs.List.{prefix_len};
ghost use Rattle.td_text.specs.Lines.{left_len};
ghost use Rattle.td_text.specs.Runs.{behind, run};
ghost use Rattle.td_query.specs.Tokens.{common_len as common_of, is_key_byte as is_key_byte_of};
ghost use Rattle.td_query.specs.Tokens.{line_behind, pattern_end, pattern_in, skipped};
ghost use Rattle.td_query.specs.Views.{pair};

use td_text::{cut_at, strip, trimmed};

/// What follows the line's newline, if it has one.
fn after_line(text: &str) -> Option<&str>
    ensures value { option_map (λ x. x.now) result ≡ line_behind text.now }
    ensures shorter { left_len result ≤ length text.now }
{
    match cut_at(text, '\n') {
        Some((_, after)) => Some(after),
        None => None,
    }
}

/// The text without the whitespace and the comments at its front.
pub fn skip(text: &str) -> &str
    ensures value { result.now ≡ skipped text.now }
    ensures shorter { length result.now ≤ length text.now }
{
    let mut left = Some(text);
    while let Some(text) = left {
        let at = trimmed(text);
        match strip(at, "#") {
            None => return at,
            Some(comment) => left = after_line(comment),
        }
    }
    ""
}

fn is_key_byte(byte: u8) -> bool
    ensures key { result ≡ is_key_byte_of byte }
{
    matches!(byte, b'a'..=b'z' | b'A'..=b'Z' | b'0'..=b'9' | b'_' | b'-')
}

fn word_len(bytes: &[u8]) -> usize
    ensures run { result ≡ prefix_len is_key_byte_of bytes.now }
{
    bytes.iter().take_while(|b| is_key_byte(**b)).count()
}

/// The longest run of a key's bytes at the front, and what follows it.
pub fn word_run(text: &str) -> (&str, &str)
    ensures run { result.0.now ≡ run is_key_byte_of text.now }
    ensures behind { result.1.now ≡ behind is_key_byte_of text.now }
    ensures shorter { length result.0.now + length result.1.now ≡ length text.now }
{
    text.split_at(word_len(text.as_bytes()))
}

/// How many bytes at the front the two have in common.
#[tactic(auto, unfolding(crate::specs::Tokens::common_len))]
pub fn common_len(a: &[u8], b: &[u8]) -> usize
    ensures value { result ≡ common_of a.now b.now }
    ensures bounded { result ≤ length a.now }
{
    match (a.split_first(), b.split_first()) {
        (Some((x, a)), Some((y, b))) => { if *x == *y { 1 + common_len(a, b) } else { 0 } }
        _ => 0,
    }
}

/// Where the slash is that closes a pattern: the first one without a backslash before it.
fn pattern_len(bytes: &[u8]) -> Option<usize>
    ensures value { result ≡ pattern_end false bytes.now }
    ensures slash { IfSome result (λ n. (n < length bytes.now) × (slice_index bytes.now n ≡ 47)) }
{
    let mut escaped = false;
    for (i, b) in bytes.iter().enumerate() {
        if *b == b'/' && !escaped {
            return Some(i);
        }
        escaped = *b == b'\\';
    }
    None
}

/// What is before the slash that closes a pattern, and what follows it.
pub fn read_pattern(text: &str) -> Option<(&str, &str)>
    ensures value { option_map pair result ≡ pattern_in text.now }
    ensures shorter { IfSome result (λ x. length x.1.now ≤ length text.now) }
{
    match pattern_len(text.as_bytes()) {
        Some(place) => {
            let (raw, rest) = text.split_at(place);
            Some((raw, rest.split_at(1).1))
        }
        None => None,
    }
}
