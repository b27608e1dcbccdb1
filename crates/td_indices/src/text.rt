//! A text cut at whitespace.
ghost use Rattle.std.specs.Prelude.{◌≡◌, ◌≤◌, ◌<◌, ◌∷◌, IfSome, length, position};
ghost use Rattle.std.specs.List.{slice_split};
ghost use Rattle.td_text.specs.Runs.{is_space as is_space_of};
ghost use Rattle.td_indices.specs.Texts.{left_len, words_left};

use td_text::is_space;

fn first_space(bytes: &[u8]) -> Option<usize>
    ensures place { result ≡ position is_space_of bytes.now }
    ensures within { IfSome result (λ i. i < length bytes.now) }
{
    bytes.iter().position(|b| is_space(*b))
}

/// The first piece before a whitespace character, and what follows that; `None` after the last.
pub fn next_word(text: &str) -> (&str, Option<&str>)
    ensures words { slice_split is_space_of text.now ≡ result.0.now ∷ words_left result.1 }
    ensures shorter { left_len result.1 ≤ length text.now }
{
    match first_space(text.as_bytes()) {
        Some(place) => {
            let (word, rest) = text.split_at(place);
            (word, Some(rest.split_at(1).1))
        }
        None => (text, None),
    }
}
