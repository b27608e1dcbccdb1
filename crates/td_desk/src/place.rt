//! Ticks of the entries of a journal that is read again, by the marks of its lines.
ghost use Rattle.std.specs.Prelude.{◌≡◌, ◌++◌, map, IfOk, OnOk};
ghost use Rattle.td_desk.specs.Marks.{mark_at, mark_of, marks_in, place_behind};
ghost use Rattle.td_desk.specs.inner.Ticks.{AreBegun, begun_at};

use crate::tick::{Tick, add_ticks};
use std::alloc::{AllocError, Global};

/// Where a reading of a journal's lines is: in the number that a line begins with, at its mark, or
/// after that.
#[derive(Clone, Copy)]
pub(crate) enum Place {
    Number,
    Sign,
    Rest,
}

/// Makes ticks of this many entries of a journal that begins with those whose lines the text has:
/// none of these is a change, nor is an undo of then.
pub(crate) fn set_ticks(
    alloc: Global,
    ticks: &mut Vec<Tick>,
    text: &str,
    entries: usize,
) -> Result<(), AllocError>
    ensures { OnOk result (AreBegun (marks_in text.now) entries ticks.new.items) }
{
    let begun = begun_ticks(alloc, text)?;
    *ticks = begun;
    add_ticks(ticks, 0, entries)?;
    Ok(())
}

// Ticks of the entries whose lines the text has.
fn begun_ticks(alloc: Global, text: &str) -> Result<Vec<Tick>, AllocError>
    ensures { IfOk result (λ ticks. ticks.items ≡ map begun_at (marks_in text.now)) }
{
    let mut ticks = Vec::new(alloc);
    let mut place = Place::Rest;
    let mut rest = text.as_bytes();
    while let Some((byte, after)) = rest.split_first() {
        push_mark(&mut ticks, place, *byte)?;
        place = behind(place, *byte);
        rest = after;
    }
    Ok(ticks)
}

// Adds the tick of a mark, if there is one at this place.
fn push_mark(ticks: &mut Vec<Tick>, place: Place, byte: u8) -> Result<(), AllocError>
    ensures { OnOk result (ticks.new.items ≡ ticks.old.items ++ map begun_at (mark_at place byte)) }
{
    match place {
        Place::Number | Place::Rest => Ok(()),
        Place::Sign => Ok(ticks.push(tick_of(byte))?),
    }
}

// The tick of an entry of then, by the byte of its mark.
fn tick_of(byte: u8) -> Tick
    ensures { result ≡ begun_at (mark_of byte) }
{
    Tick {
        made: true,
        undone: byte == b'-',
    }
}

// Where the reading is after a byte.
fn behind(place: Place, byte: u8) -> Place
    ensures { result ≡ place_behind place byte }
{
    match place {
        Place::Number if byte == b' ' => Place::Sign,
        Place::Number => Place::Number,
        Place::Sign => Place::Rest,
        Place::Rest if byte == b'\n' => Place::Number,
        Place::Rest => Place::Rest,
    }
}
