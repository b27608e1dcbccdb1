//! The line that explains a refusal.
ghost use Rattle.std.specs.Prelude.{◌≡◌, ◌++◌, ◌<◌, ◌≤◌, ◌^◌, length, option_map, string_bytes};
ghost use Rattle.std.specs.Prelude.{OnOk, IfOk, IfSome, IsOk};
ghost use Rattle.td_explain.specs.Explanation.{ExplainsRelation, explanation, found_name};
ghost use Rattle.td_explain.specs.Explanation.{path_explanation, place_said, point_name};
ghost use Rattle.td_explain.specs.Explanation.{relation_said};
ghost use Rattle.td_explain.specs.Explanation.{said_of, text_at as text_at_of};
ghost use Rattle.td_explain.specs.Spot.{spot_words};

use crate::shown::{MAX_PATH, MAX_SHOWN, put_shown};
use crate::spot::{Place, Point, Spot, find_spot, point_of};
use crate::unread::unread_relation;
use std::alloc::{AllocError, Global};
use std::str;
use td_text::{put_number, trimmed};

// Appends the place as it is counted.
fn put_point(out: &mut String, point: Point) -> Result<(), AllocError>
    ensures { OnOk result (string_bytes out.new ≡ string_bytes out.old ++ point_name point) }
{
    match point {
        Point::Line(number) => {
            out.push_str("line ")?;
            put_number(out, number as u64)
        }
        Point::Stanza(number) => {
            out.push_str("stanza ")?;
            put_number(out, number as u64)
        }
        Point::Byte(at) => {
            out.push_str("byte ")?;
            put_number(out, at as u64)
        }
    }
}

// Appends where a place is found.
fn put_found(out: &mut String, point: Point, spot: &Spot<'_>) -> Result<(), AllocError>
    requires { spot.now.offset < 2 ^ 63 }
    ensures { OnOk result (string_bytes out.new
        ≡ string_bytes out.old ++ found_name point (spot_words spot.now)) }
{
    match point {
        Point::Line(_) => Ok(()),
        Point::Stanza(_) => {
            out.push_str(", line ")?;
            put_number(out, spot.number as u64)
        }
        Point::Byte(_) => {
            out.push_str(", line ")?;
            put_number(out, spot.number as u64)?;
            out.push_str(", column ")?;
            put_number(out, spot.offset as u64 + 1)
        }
    }
}

// The line from the place on; all of it if the place is within a character.
fn text_at<'a>(spot: &Spot<'a>) -> &'a str
    requires { spot.now.offset ≤ length spot.now.line.now }
    ensures { result.now ≡ text_at_of (spot_words spot.now) }
{
    let bytes = spot.line.as_bytes();
    match str::from_utf8(bytes.split_at(spot.offset).1) {
        Ok(text) => text,
        Err(_) => spot.line,
    }
}

// Appends what is at the place.
fn put_said(out: &mut String, point: Point, spot: Option<Spot<'_>>) -> Result<(), AllocError>
    requires { IfSome spot (λ s. (s.offset ≤ length s.line.now) × (length s.line.now < 2 ^ 63)) }
    ensures { OnOk result (string_bytes out.new
        ≡ string_bytes out.old ++ said_of point (option_map spot_words spot.entry)) }
{
    put_point(out, point)?;
    let Some(spot) = spot else {
        return Ok(());
    };
    put_found(out, point, &spot)?;
    out.push_str(" has ")?;
    put_shown(out, text_at(&spot), MAX_SHOWN)
}

// Appends what is at a place of the text, and what parts it from what is wanted. Nothing is
// appended for the text as a whole, and that takes no memory.
fn put_where(out: &mut String, place: Place, text: &str) -> Result<(), AllocError>
    requires { length text.now < 2 ^ 63 }
    ensures said { OnOk result (string_bytes out.new
        ≡ string_bytes out.old ++ place_said place text.now) }
    ensures whole { place ≡ Place.Whole → IsOk result }
{
    let Some(point) = point_of(place) else {
        return Ok(());
    };
    put_said(out, point, find_spot(text, point))?;
    out.push_str("; ")
}

/// The line that says what is at a place of the text with this role, and what is wanted there.
/// `places_are_found` says which line, stanza or byte a place is.
pub fn explain(
    alloc: Global,
    role: &str,
    place: Place,
    wanted: &str,
    text: &str,
) -> Result<String, AllocError>
    requires { length text.now < 2 ^ 63 }
    ensures { IfOk result (λ line. string_bytes line
        ≡ explanation role.now place wanted.now text.now) }
{
    let mut line = String::new(alloc);
    line.push_str(role)?;
    put_where(&mut line, place, text)?;
    line.push_str("wanted: ")?;
    line.push_str(wanted)?;
    line.push_str("\n")?;
    Ok(line)
}

// Appends the relation of a field that can't be read, if one was found.
fn put_relation(out: &mut String, name: &str, found: Option<&str>) -> Result<(), AllocError>
    ensures { OnOk result (string_bytes out.new
        ≡ string_bytes out.old ++ relation_said name.now (option_map (λ x. x.now) found.entry)) }
{
    let Some(relation) = found else {
        return Ok(());
    };
    out.push_str(name)?;
    out.push_str(" has ")?;
    put_shown(out, trimmed(relation), MAX_SHOWN)?;
    out.push_str("; ")
}

/// The line that says what is at a stanza of the text with this role, which relation of its field
/// with this name can't be read, and what is wanted there.
pub fn explain_relation(
    alloc: Global,
    role: &str,
    number: usize,
    name: &str,
    wanted: &str,
    text: &str,
) -> Result<String, AllocError>
    requires { length text.now < 2 ^ 63 }
    ensures { IfOk result (λ line. ExplainsRelation role.now number name.now wanted.now text.now
        (string_bytes line)) }
{
    let found = unread_relation(alloc, text, number, name)?;
    let mut line = String::new(alloc);
    line.push_str(role)?;
    put_where(&mut line, Place::Stanza(number), text)?;
    put_relation(&mut line, name, found)?;
    line.push_str("wanted: ")?;
    line.push_str(wanted)?;
    line.push_str("\n")?;
    Ok(line)
}

/// The line that says of the file with this path what is wrong with it, and what is wanted.
pub fn explain_path(
    alloc: Global,
    role: &str,
    path: &str,
    said: &str,
    wanted: &str,
) -> Result<String, AllocError>
    ensures { IfOk result (λ line. string_bytes line
        ≡ path_explanation role.now path.now said.now wanted.now) }
{
    let mut line = String::new(alloc);
    line.push_str(role)?;
    put_shown(&mut line, path, MAX_PATH)?;
    line.push_str(" ")?;
    line.push_str(said)?;
    line.push_str("; wanted: ")?;
    line.push_str(wanted)?;
    line.push_str("\n")?;
    Ok(line)
}
