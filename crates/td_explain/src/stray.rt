//! What comes at the byte at which a tracker goes wrong.
ghost use Rattle.std.specs.Prelude.{◌≡◌, ◌≤◌, length};
ghost use Rattle.std.specs.List.{ends_with, prefix_len};
ghost use Rattle.td_text.specs.Runs.{run};
ghost use Rattle.td_explain.specs.Stray.{begins_comparison as begins_comparison_of};
ghost use Rattle.td_explain.specs.Stray.{is_letter as is_letter_of, is_logic_word as is_logic_of};
ghost use Rattle.td_explain.specs.Stray.{stray_at as stray_at_of, stray_front as stray_front_of};
ghost use Rattle.td_explain.specs.Stray.{stray_of as stray_of_of, stray_word as stray_word_of};

/// What comes at a byte that nothing of a tracker can take: one of ben's forms that aren't read
/// here, or something else.
#[derive(Clone, Copy, Debug, PartialEq, Eq, Drop)]
pub enum Stray {
    /// Nothing: the text ends.
    End,
    /// Something right after a slash, as a pattern's flag.
    AfterSlash,
    /// Something right after a quote with a backslash before it.
    AfterQuote,
    /// A list.
    List,
    /// A text in other quotes.
    Apostrophe,
    /// A comparison.
    Comparison,
    /// A `&` or a `|`, as the second one of `&&`.
    Joint,
    /// The word `source`.
    Source,
    /// One of the words `and`, `or` and `not`.
    Word,
    Other,
}

fn is_letter(byte: u8) -> bool
    ensures { result ≡ is_letter_of byte }
{
    matches!(byte, b'a'..=b'z')
}

fn letter_count(bytes: &[u8]) -> usize
    ensures count { result ≡ prefix_len is_letter_of bytes.now }
    ensures within { result ≤ length bytes.now }
{
    bytes.iter().take_while(|b| is_letter(**b)).count()
}

// The small letters at the front.
fn front_word(bytes: &[u8]) -> &[u8]
    ensures { result.now ≡ run is_letter_of bytes.now }
{
    bytes.split_at(letter_count(bytes)).0
}

fn is_logic_word(word: &[u8]) -> bool
    ensures { result ≡ is_logic_of word.now }
{
    word == b"and".as_slice() || word == b"or".as_slice() || word == b"not".as_slice()
}

fn stray_word(word: &[u8]) -> Stray
    ensures { result ≡ stray_word_of word.now }
{
    if word == b"source".as_slice() {
        Stray::Source
    } else if is_logic_word(word) {
        Stray::Word
    } else {
        Stray::Other
    }
}

fn begins_comparison(rest: &[u8]) -> bool
    ensures { result ≡ begins_comparison_of rest.now }
{
    rest.starts_with(b"<")
        || rest.starts_with(b">")
        || rest.starts_with(b"=")
        || rest.starts_with(b"!=")
}

// What comes, by its own front.
fn stray_front(rest: &[u8]) -> Stray
    ensures { result ≡ stray_front_of rest.now }
{
    if rest.starts_with(b"[") {
        Stray::List
    } else if rest.starts_with(b"'") {
        Stray::Apostrophe
    } else if begins_comparison(rest) {
        Stray::Comparison
    } else if rest.starts_with(b"&") || rest.starts_with(b"|") {
        Stray::Joint
    } else {
        stray_word(front_word(rest))
    }
}

// What comes, by what is before it too.
fn stray_of(before: &[u8], rest: &[u8]) -> Stray
    ensures { result ≡ stray_of_of before.now rest.now }
{
    if rest.is_empty() {
        Stray::End
    } else if before.ends_with(b"/") {
        Stray::AfterSlash
    } else if before.ends_with(b"\\\"") {
        Stray::AfterQuote
    } else {
        stray_front(rest)
    }
}

/// What comes in a text after this many bytes; nothing if it hasn't more.
#[tactic(auto, using(crate::proofs::Fronts::taken, crate::proofs::Fronts::dropped))]
pub fn stray_at(text: &str, at: usize) -> Stray
    ensures { result ≡ stray_at_of at text.now }
{
    let bytes = text.as_bytes();
    let (before, rest) = bytes.split_at(at.min(bytes.len()));
    stray_of(before, rest)
}
