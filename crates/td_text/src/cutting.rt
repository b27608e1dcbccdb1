//! Cuts of a text at a character, and after a prefix.
ghost use Rattle.std.specs.Prelude.{◌≡◌, ◌<◌, ◌∷◌, ◌++◌, ◌==◌, option_map, IfSome, IfNone};
ghost use Rattle.std.specs.List.{position_or_len};
ghost use Rattle.td_text.specs.Cut.{Without, cut, part, strip as strip_of};

// How many bytes stand before the first mark. It is mostly near, where a look at each byte finds it
// sooner than a search does.
fn mark_place(bytes: &[u8], mark: u8) -> usize
    ensures { result ≡ position_or_len (λ b. b == mark) bytes.now }
{
    bytes.iter().take_while(|b| **b != mark).count()
}

/// The text before the first `mark`, an ASCII character, and what follows that.
pub fn cut_at(text: &str, mark: char) -> Option<(&str, &str)>
    requires { mark < 128 }
    ensures value { option_map (λ x. (x.0.now, x.1.now)) result ≡ cut mark text.now }
    ensures found { IfSome result (λ x.
        (text.now ≡ x.0.now ++ mark ∷ x.1.now) × Without mark x.0.now) }
    ensures none { IfNone result (Without mark text.now) }
{
    let place = mark_place(text.as_bytes(), mark as u8);
    if place == text.len() {
        return None;
    }
    Some((text.split_at(place).0, text.split_at(place + 1).1))
}

/// The text before the first `mark`, an ASCII character, and the text from there on.
pub fn part_at(text: &str, mark: char) -> (&str, &str)
    requires { mark < 128 }
    ensures value { (result.0.now, result.1.now) ≡ part mark text.now }
    ensures joined { text.now ≡ result.0.now ++ result.1.now }
    ensures before { Without mark result.0.now }
{
    text.split_at(mark_place(text.as_bytes(), mark as u8))
}

/// What follows the prefix.
pub fn strip<'a>(text: &'a str, prefix: &str) -> Option<&'a str>
    ensures value { option_map (λ x. x.now) result ≡ strip_of prefix.now text.now }
    ensures found { IfSome result (λ x. text.now ≡ prefix.now ++ x.now) }
{
    text.strip_prefix(prefix)
}
