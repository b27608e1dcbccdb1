//! Pieces of a word: bytes that stand for themselves, and what stands between quotes.
ghost use Rattle.std.specs.Prelude.{◌≡◌, ◌<◌, ◌∷◌, true, option_map, IfNone, IfSome};
ghost use Rattle.std.specs.List.{list_any, prefix_len};
ghost use Rattle.td_text.specs.Runs.{behind, run};
ghost use Rattle.td_rows.specs.Text.{has_newline as has_newline_of};
ghost use Rattle.td_text.specs.Cut.{cut};
ghost use Rattle.td_wbread.specs.Taking.{IsUnquoted, closing};
ghost use Rattle.td_wbread.specs.Words.{is_plain as is_plain_of, is_quote};

use td_text::{cut_at, is_space, strip};

fn is_plain(byte: u8) -> bool
    ensures { result ≡ is_plain_of byte }
{
    !(is_space(byte) || byte == b'"' || byte == b'\'')
}

fn plain_len(bytes: &[u8]) -> usize
    ensures { result ≡ prefix_len is_plain_of bytes.now }
{
    bytes.iter().take_while(|b| is_plain(**b)).count()
}

/// The longest run at the front of bytes that stand for themselves, and what follows it.
pub fn plain_run(text: &str) -> (&str, &str)
    ensures run { result.0.now ≡ run is_plain_of text.now }
    ensures behind { result.1.now ≡ behind is_plain_of text.now }
{
    text.split_at(plain_len(text.as_bytes()))
}

/// The quote that a text begins with, and what follows it.
pub fn opened(text: &str) -> Option<(char, &str)>
    ensures found { IfSome result (λ x. (text.now ≡ x.0 ∷ x.1.now) × (is_quote x.0 ≡ true)) }
    ensures ascii { IfSome result (λ x. x.0 < 128) }
    ensures none { IfNone result (IsUnquoted text.now) }
{
    match strip(text, "'") {
        Some(inside) => Some(('\'', inside)),
        None => match strip(text, "\"") {
            Some(inside) => Some(('"', inside)),
            None => None,
        },
    }
}

fn has_newline(text: &str) -> bool
    ensures { result ≡ has_newline_of text.now }
{
    text.as_bytes().contains(&b'\n')
}

/// What stands before the quote that closes, and what follows that. Quotes don't go over lines.
pub fn closed(text: &str, quote: char) -> Option<(&str, &str)>
    requires { quote < 128 }
    ensures { option_map (λ x. (x.0.now, x.1.now)) result ≡ closing (cut quote text.now) }
{
    let (inside, after) = cut_at(text, quote)?;
    if has_newline(inside) {
        return None;
    }
    Some((inside, after))
}
