//! A text cut in two at an empty line, so that no stanza crosses the cut.
ghost use Rattle.std.specs.Prelude.{◌++◌, IfSome};
ghost use Rattle.td_indices.specs.inner.Pieces.{IsCutApart};

use td_text::next_line;

/// How often a text, or a list of stanzas, is halved for threads, at most: into eight parts.
pub const HALVINGS: usize = 3;

/// The shortest text that is worth a second thread, in bytes.
const LEAST: usize = 131_072;

/// What comes before and after the newline at a place, if an empty line follows.
fn cut_at(text: &str, place: usize) -> Option<(&str, &str)>
    ensures { IfSome result (λ parts. IsCutApart text.now parts.0.now parts.1.now) }
{
    let (before, tail) = text.split_at_checked(place)?;
    let (own, behind) = next_line(tail);
    if !own.is_empty() {
        return None;
    }
    let behind = behind?;
    let (line, _) = next_line(behind);
    if !line.is_empty() {
        return None;
    }
    Some((before, behind))
}

/// A text cut at the first empty line of its second half, if it is long enough.
pub fn halved(text: &str) -> Option<(&str, &str)>
    ensures { IfSome result (λ parts. IsCutApart text.now parts.0.now parts.1.now) }
{
    if text.len() < LEAST {
        return None;
    }
    let half = text.floor_char_boundary(text.len() / 2);
    let place = text.split_at(half).1.find("\n\n")?;
    cut_at(text, half.checked_add(place)?)
}

/// What comes before the last newline of a text's front, if an empty line follows: the rest is what
/// comes after the newline.
pub fn front_of<'a>(front: &'a str, rest: &str) -> Option<&'a str>
    ensures { IfSome result (λ before. IsCutApart (front.now ++ rest.now) before.now rest.now) }
{
    let (line, _) = next_line(rest);
    if !line.is_empty() {
        return None;
    }
    let (before, end) = front.split_at_checked(front.len().checked_sub(1)?)?;
    if end != "\n" {
        return None;
    }
    Some(before)
}
