//! A file is read as two texts, side by side.
ghost use Rattle.std.specs.Prelude.{◌≡◌, ◌≤◌, ◌++◌, Some, IfSome, length, take, drop};
ghost use Rattle.std.specs.Prelude.{string_bytes};

use crate::positioned::{Behind, Positioned};
use crate::text::read_text;
use std::alloc::Global;
use std::io::Read;
use std::thread;
use std::thread::Threads;

// How many bytes are looked at for a place where a file may be cut.
const WINDOW: usize = 65_536;

// A place between two newlines after the middle of a file, if there is one near.
fn cut_of<F: Positioned>(alloc: Global, file: &F, size: usize) -> Option<usize> {
    let middle = size / 2;
    let mut window = Vec::new(alloc);
    window.resize(WINDOW, 0).ok()?;
    let count = file.read_at(window.as_mut_slice(), middle as u64).ok()?;
    let text = window.as_slice().get(..count)?;
    let at = text.windows(2).position(|two| two == b"\n\n".as_slice())?;
    middle.checked_add(at)?.checked_add(1)
}

// The bytes of a file before a place, as a text, if it has that many.
fn front_before<F: Positioned>(alloc: Global, file: &F, place: usize) -> Option<String>
    ensures { IfSome result (λ front.
        IfSome (F.bytes file.now) (λ all. string_bytes front ≡ take place all)) }
{
    let behind = Behind { file, place: 0 };
    match read_text(alloc, &mut behind.take(place as u64), place, place) {
        Ok(front) if front.len() == place => Some(front),
        Ok(_) | Err(_) => None,
    }
}

// The bytes of a file from a place to its end, as a text of at most `limit` bytes.
fn rest_behind<F: Positioned>(
    alloc: Global,
    file: &F,
    place: usize,
    limit: usize,
    room: usize,
) -> Option<String>
    ensures { IfSome result (λ rest.
        IfSome (F.bytes file.now) (λ all. string_bytes rest ≡ drop place all)) }
{
    let mut behind = Behind {
        file,
        place: place as u64,
    };
    match read_text(alloc, &mut behind, limit, room) {
        Ok(rest) => Some(rest),
        Err(_) => None,
    }
}

// Both parts, if both were read and have at most `limit` bytes together.
fn both(front: Option<String>, rest: Option<String>, limit: usize) -> Option<(String, String)>
    ensures parts { IfSome result (λ p. (front ≡ Some p.0) × (rest ≡ Some p.1)) }
    ensures within { IfSome result (λ p.
        length (string_bytes p.0 ++ string_bytes p.1) ≤ limit) }
{
    let (Some(front), Some(rest)) = (front, rest) else {
        return None;
    };
    match limit.checked_sub(front.len()) {
        Some(left) if rest.len() <= left => Some((front, rest)),
        _ => None,
    }
}

/// Reads a file of about `size` bytes as two texts, which together have at most `limit` bytes. It
/// is cut between two newlines after its middle; `None` if it isn't read so, for whatever
/// reason.
pub fn halves_of<F: Positioned + Sync, R: Threads>(
    rt: &R,
    alloc: Global,
    file: &F,
    size: usize,
    limit: usize,
) -> Option<(String, String)>
    ensures text { IfSome result (λ p. IfSome (F.bytes file.now)
        (λ all. all ≡ string_bytes p.0 ++ string_bytes p.1)) }
    ensures within { IfSome result (λ p.
        length (string_bytes p.0 ++ string_bytes p.1) ≤ limit) }
{
    let cut = cut_of(alloc, file, size)?;
    let left = limit.checked_sub(cut)?;
    let room = size.saturating_sub(cut);
    let of_front = move || -> Option<String>
        ensures { IfSome result (λ front.
            IfSome (F.bytes file.entry.now) (λ all. string_bytes front ≡ take cut all)) }
    { front_before(alloc, file, cut) };
    let of_rest = move || -> Option<String>
        ensures { IfSome result (λ rest.
            IfSome (F.bytes file.entry.now) (λ all. string_bytes rest ≡ drop cut all)) }
    { rest_behind(alloc, file, cut, left, room) };
    let (front, rest) = thread::join(rt, of_front, of_rest);
    both(front, rest, limit)
}
