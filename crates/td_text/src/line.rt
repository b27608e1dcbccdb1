//! The pieces of a text between marks, and its lines, one after the other.
ghost use Rattle.std.specs.Prelude.{◌≡◌, ◌≤◌, ◌<◌, ◌-◌, ℕ, List, [], ◌∷◌, ◌++◌, length};
ghost use Rattle.std.specs.Prelude.{Option, Some, None};
ghost use Rattle.std.specs.Borrow.{Bor};
ghost use Rattle.td_text.specs.Cut.{Without};
ghost use Rattle.td_text.specs.Lines.{ended, left_len, left_text, lines_left, lines_of};
ghost use Rattle.td_text.specs.Lines.{pieces_left, pieces_of, text_left};

use memchr::memchr;

/// The first piece before a mark, an ASCII character, and what follows that mark; `None` after the
/// last piece. For marks that may be far: it looks at many bytes at once, as `cut_at` doesn't.
#[inline]
pub fn next_piece(text: &str, mark: char) -> (&str, Option<&str>)
    requires { mark < 128 }
    ensures pieces { pieces_of mark text.now ≡ result.0.now ∷ pieces_left mark result.1 }
    ensures text { text.now ≡ result.0.now ++ text_left mark result.1 }
    ensures piece { Without mark result.0.now }
    ensures shorter { left_len result.1 ≤ length text.now }
{
    match memchr(mark as u8, text.as_bytes()) {
        Some(place) => (text.split_at(place).0, Some(text.split_at(place + 1).1)),
        None => (text, None),
    }
}

/// The first line, without its newline, and what follows that; `None` after the last line.
pub fn next_line(text: &str) -> (&str, Option<&str>)
    ensures lines { lines_of text.now ≡ result.0.now ∷ lines_left result.1 }
    ensures text { text.now ≡ result.0.now ++ left_text result.1 }
    ensures line { Without 10 result.0.now }
    ensures shorter { left_len result.1 ≤ length text.now }
{
    next_piece(text, '\n')
}

/// What comes after a line, as `next_line` gives it: nothing after the last.
pub fn behind(after: Option<&str>) -> &str
    ensures found { (rest : Bor (List ℕ)) → after.entry ≡ Some rest → result.now ≡ rest.now }
    ensures none { after.entry ≡ None → result.now ≡ [] }
    ensures lines { ended (lines_of result.now) ≡ ended (lines_left after.entry) }
    ensures shorter { length result.now ≤ left_len after.entry - 1 }
{
    match after {
        Some(rest) => rest,
        None => "",
    }
}
