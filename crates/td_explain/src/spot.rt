//! Where in a text a place is.
ghost use Rattle.std.specs.Prelude.{◌≡◌, ◌+◌, ◌<◌, ◌^◌, ◌≤◌, length, option_map, IfSome};
ghost use Rattle.td_stanza.specs.Line.{is_separator as is_separator_of};
ghost use Rattle.td_explain.specs.Spot.{beyond as beyond_of, is_at as is_at_of};
ghost use Rattle.td_explain.specs.Spot.{offset_of as offset_of_of, point_of as point_of_of};
ghost use Rattle.td_explain.specs.Spot.{spot_of, spot_words};

use td_text::next_line;

/// A place in a text, as a refusal has it.
#[derive(Clone, Copy, Drop)]
pub enum Place {
    /// None: the text as a whole is meant.
    Whole,
    /// The line with this number, from 1 on.
    Line(usize),
    /// The stanza with this number, from 1 on.
    Stanza(usize),
    /// The byte after this many others.
    Byte(usize),
}

/// A place within a text: any but the text as a whole.
#[derive(Clone, Copy, Drop)]
pub enum Point {
    /// The line with this number, from 1 on.
    Line(usize),
    /// The stanza with this number, from 1 on.
    Stanza(usize),
    /// The byte after this many others.
    Byte(usize),
}

/// The line that is meant, its number, and how many of its bytes come before the place.
#[derive(Clone, Copy)]
pub struct Spot<'a> {
    pub number: usize,
    pub offset: usize,
    pub line: &'a str,
}

/// The place within its text, unless it is the text as a whole.
pub fn point_of(place: Place) -> Option<Point>
    ensures { result ≡ point_of_of place }
{
    match place {
        Place::Whole => None,
        Place::Line(number) => Some(Point::Line(number)),
        Place::Stanza(number) => Some(Point::Stanza(number)),
        Place::Byte(at) => Some(Point::Byte(at)),
    }
}

// Whether the line is only spaces and tabs.
fn is_separator(line: &str) -> bool
    ensures { result ≡ is_separator_of line.now }
{
    line.as_bytes().iter().all(|b| *b == b' ' || *b == b'\t')
}

// Whether the place is in this line; `apart` says that a stanza may begin here.
fn is_at(point: Point, apart: bool, line: &str) -> bool
    ensures { result ≡ is_at_of point apart line.now }
{
    match point {
        Point::Line(number) => number <= 1,
        Point::Stanza(number) => apart && number <= 1 && !is_separator(line),
        Point::Byte(at) => at <= line.len(),
    }
}

// The place as it is counted after the line.
fn beyond(point: Point, apart: bool, line: &str) -> Point
    ensures { result ≡ beyond_of point apart line.now }
{
    match point {
        Point::Line(number) => Point::Line(number.saturating_sub(1)),
        Point::Stanza(number) if apart && !is_separator(line) => {
            Point::Stanza(number.saturating_sub(1))
        }
        Point::Stanza(number) => Point::Stanza(number),
        Point::Byte(at) => Point::Byte(at.saturating_sub(line.len()).saturating_sub(1)),
    }
}

// How many bytes of its line come before the place.
fn offset_of(point: Point) -> usize
    ensures { result ≡ offset_of_of point }
{
    match point {
        Point::Byte(at) => at,
        Point::Line(_) | Point::Stanza(_) => 0,
    }
}

/// Looks for the place, line by line.
pub fn find_spot(text: &str, point: Point) -> Option<Spot<'_>>
    requires { length text.now < 2 ^ 63 }
    ensures value { option_map spot_words result ≡ spot_of point text.now }
    ensures within { IfSome result (λ s. s.offset ≤ length s.line.now) }
{
    let mut point = point;
    let mut apart = true;
    let mut number = 1;
    let mut rest = Some(text);
    while let Some(here) = rest {
        let (line, after) = next_line(here);
        if is_at(point, apart, line) {
            let offset = offset_of(point);
            return Some(Spot {
                number,
                offset,
                line,
            });
        }
        point = beyond(point, apart, line);
        apart = is_separator(line);
        number += 1;
        rest = after;
    }
    None
}
