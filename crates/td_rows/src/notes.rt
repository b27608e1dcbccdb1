//! The texts at the end of a row's line.
ghost use Rattle.std.specs.Prelude.{◌≡◌, ◌++◌, option_map, OnOk, OnErr};
ghost use Rattle.std.specs.String.{string_bytes};
ghost use Rattle.td_rows.specs.Appending.{Grown};
ghost use Rattle.td_rows.specs.Notes.{extra_part, text_part, notes, counted_at, extra_at, text_at};
ghost use Rattle.td_rows.specs.Notes.{notes_at};

use std::alloc::AllocError;
use td_text::{cut_at, number, put_number, strip};

#[tactic(auto, unfolding(crate::specs::Notes::counted_at))]
fn read_counted(text: &str) -> Option<(&str, &str)>
    ensures { option_map (λ x. (x.0.now, x.1.now)) result ≡ counted_at text.now }
{
    let (count, rest) = cut_at(text, ' ')?;
    let count = number(count, u64::MAX)?;
    if count == 0 {
        return None;
    }
    rest.split_at_checked(count as usize)
}

#[tactic(auto, unfolding(crate::specs::Notes::extra_at))]
fn read_extra(text: &str) -> Option<(&str, &str)>
    ensures { option_map (λ x. (x.0.now, x.1.now)) result ≡ extra_at text.now }
{
    match strip(text, " ;") {
        None => Some(("", text)),
        Some(rest) => read_counted(rest),
    }
}

#[tactic(auto, unfolding(crate::specs::Notes::text_at))]
fn read_text(text: &str) -> Option<&str>
    ensures { option_map (λ x. x.now) result ≡ text_at text.now }
{
    if text.is_empty() {
        return Some("");
    }
    let ending = strip(text, " : ")?;
    if ending.is_empty() {
        return None;
    }
    Some(ending)
}

/// The texts at a line's end: the extra dependencies, and the text that ends the line.
#[tactic(auto, unfolding(crate::specs::Notes::notes_at))]
pub fn read_notes(text: &str) -> Option<(&str, &str)>
    ensures { option_map (λ x. (x.0.now, x.1.now)) result ≡ notes_at text.now }
{
    let (extra, rest) = read_extra(text)?;
    let ending = read_text(rest)?;
    Some((extra, ending))
}

#[tactic(auto, using(crate::proofs::Appends::growing))]
fn put_extra(out: &mut String, extra: &str) -> Result<(), AllocError>
    ensures ok { OnOk result (string_bytes out.new ≡ string_bytes out.old ++ extra_part extra.now) }
    ensures front { Grown (string_bytes out.old) (string_bytes out.new) }
{
    if extra.is_empty() {
        return Ok(());
    }
    out.push_str(" ;")?;
    put_number(out, extra.len() as u64)?;
    out.push_str(" ")?;
    out.push_str(extra)
}

#[tactic(auto, using(crate::proofs::Appends::growing))]
fn put_text(out: &mut String, text: &str) -> Result<(), AllocError>
    ensures ok { OnOk result (string_bytes out.new ≡ string_bytes out.old ++ text_part text.now) }
    ensures front { Grown (string_bytes out.old) (string_bytes out.new) }
{
    if text.is_empty() {
        return Ok(());
    }
    out.push_str(" : ")?;
    out.push_str(text)
}

#[tactic(auto, using(crate::proofs::Appends::growing))]
fn put_both(out: &mut String, extra: &str, text: &str) -> Result<(), AllocError>
    ensures ok { OnOk result (string_bytes out.new
        ≡ string_bytes out.old ++ notes (extra.now, text.now)) }
    ensures front { Grown (string_bytes out.old) (string_bytes out.new) }
{
    put_extra(out, extra)?;
    put_text(out, text)
}

/// Appends the texts at a line's end, each where it isn't empty; where memory runs out nothing.
pub fn put_notes(out: &mut String, extra: &str, text: &str) -> Result<(), AllocError>
    ensures ok { OnOk result (string_bytes out.new
        ≡ string_bytes out.old ++ notes (extra.now, text.now)) }
    ensures err { OnErr result (string_bytes out.new ≡ string_bytes out.old) }
{
    let start = out.len();
    let done = put_both(out, extra, text);
    if done.is_err() {
        out.truncate(start);
    }
    done
}
