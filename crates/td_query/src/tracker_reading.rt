//! How a tracker is read.
ghost use Rattle.std.specs.Prelude.{◌≡◌, ◌≢◌, ◌≤◌, ◌<◌, IfErr, IfOk, IfSome, length, option_map};
ghost use Rattle.std.specs.Prelude.{IsErrOf, codes};
ghost use Rattle.td_query.specs.declared.read_fault.ReadFault.{ReadFault};
ghost use Rattle.td_text.specs.Cut.{strip as strip_of};
ghost use Rattle.td_query.specs.Tokens.{skipped};
ghost use Rattle.td_query.specs.TrackerGrammar.{ended as ended_of, entries, entry_at};
ghost use Rattle.td_query.specs.TrackerGrammar.{front as front_of, nothing_said, other_value};
ghost use Rattle.td_query.specs.TrackerGrammar.{title_value, value_at};
ghost use Rattle.td_query.specs.TrackerViews.{GivesAll, GivesSaid, said};
ghost use Rattle.td_query.specs.WantOfMemory.{IsBegun, IsEntryBegun};

use crate::parse::read_query;
use crate::query::Query;
use crate::read_fault::{RawPattern, ReadFault};
use crate::tokens::{skip, word_run};
use std::alloc::Global;
use td_text::{cut_at, strip};

/// What the keys of a tracker have said so far.
#[derive(Drop)]
pub struct Keys<'a> {
    pub title: &'a str,
    pub affected: Option<Query<'a>>,
    pub good: Option<Query<'a>>,
    pub bad: Option<Query<'a>>,
    pub log: Vec<RawPattern<'a>>,
}

/// What the keys have said before the first of them.
pub fn no_keys<'a>(alloc: Global) -> Keys<'a>
    ensures nothing { said result ≡ nothing_said }
{
    Keys {
        title: "",
        affected: None,
        good: None,
        bad: None,
        log: Vec::new(alloc),
    }
}

// The value of `title`.
fn read_title<'a>(text: &'a str, keys: &mut Keys<'a>) -> Result<&'a str, ReadFault>
    ensures gives { GivesSaid result keys.new (title_value (said keys.old)
        (length (skipped text.now)) (strip_of (codes "\"") (skipped text.now))) }
    ensures shorter { IfOk result (λ x. length x.now ≤ length text.now) }
    ensures certain { IfErr result (λ e. e ≢ ReadFault.NoMemory) }
{
    let at = skip(text);
    match strip(at, "\"") {
        None => Err(ReadFault::Syntax(at.len())),
        Some(quoted) => match cut_at(quoted, '"') {
            None => Err(ReadFault::Syntax(0)),
            Some((title, rest)) => {
                keys.title = title;
                Ok(rest)
            }
        },
    }
}

// The value of a key that says nothing. Its patterns aren't kept.
#[tactic(auto, unfolding(crate::specs::TrackerGrammar::other_value))]
fn read_other<'a>(alloc: Global, text: &'a str, keys: &mut Keys<'a>) -> Result<&'a str, ReadFault>
    ensures gives { GivesSaid result keys.new
        (other_value (said keys.old) text.now (strip_of (codes "\"") (skipped text.now))) }
    ensures shorter { IfOk result (λ x. length x.now ≤ length text.now) }
    ensures memory { IsErrOf result ReadFault.NoMemory → IsBegun 100 text.now }
{
    if let Some(quoted) = strip(skip(text), "\"") {
        return match cut_at(quoted, '"') {
            None => Err(ReadFault::Syntax(0)),
            Some((_, rest)) => Ok(rest),
        };
    }
    let mut aside = Vec::new(alloc);
    match read_query(alloc, text, &mut aside) {
        Ok((_, rest)) => Ok(rest),
        Err(fault) => Err(fault),
    }
}

// The value of a key.
#[tactic(auto, unfolding(crate::specs::TrackerGrammar::value_at))]
fn read_value<'a>(
    alloc: Global,
    key: &str,
    text: &'a str,
    keys: &mut Keys<'a>,
) -> Result<&'a str, ReadFault>
    ensures gives { GivesSaid result keys.new (value_at key.now (said keys.old) text.now) }
    ensures shorter { IfOk result (λ x. length x.now ≤ length text.now) }
    ensures memory { IsErrOf result ReadFault.NoMemory → IsBegun 100 text.now }
{
    match key {
        "title" => read_title(text, keys),
        "is_affected" => match read_query(alloc, text, &mut keys.log) {
            Ok((query, rest)) => {
                keys.affected = Some(query);
                Ok(rest)
            }
            Err(fault) => Err(fault),
        },
        "is_good" => match read_query(alloc, text, &mut keys.log) {
            Ok((query, rest)) => {
                keys.good = Some(query);
                Ok(rest)
            }
            Err(fault) => Err(fault),
        },
        "is_bad" => match read_query(alloc, text, &mut keys.log) {
            Ok((query, rest)) => {
                keys.bad = Some(query);
                Ok(rest)
            }
            Err(fault) => Err(fault),
        },
        _ => read_other(alloc, text, keys),
    }
}

// The `;` after a value.
#[tactic(auto, unfolding(crate::specs::TrackerGrammar::ended))]
fn read_end<'a>(text: &'a str, keys: &Keys<'a>) -> Result<&'a str, ReadFault>
    ensures gives { GivesSaid result keys.now (ended_of (said keys.now, text.now)) }
    ensures shorter { IfOk result (λ x. length x.now ≤ length text.now) }
    ensures certain { IfErr result (λ e. e ≢ ReadFault.NoMemory) }
{
    let at = skip(text);
    match strip(at, ";") {
        None => Err(ReadFault::Syntax(at.len())),
        Some(rest) => Ok(rest),
    }
}

// A key with its value.
#[tactic(auto, unfolding(crate::specs::TrackerGrammar::entry_at))]
fn read_entry<'a>(alloc: Global, at: &'a str, keys: &mut Keys<'a>) -> Result<&'a str, ReadFault>
    ensures gives { GivesSaid result keys.new (entry_at (said keys.old) at.now) }
    ensures shorter { IfOk result (λ x. length x.now < length at.now) }
    ensures memory { IsErrOf result ReadFault.NoMemory → IsEntryBegun at.now }
{
    let (key, rest) = word_run(at);
    if key.is_empty() {
        return Err(ReadFault::Syntax(at.len()));
    }
    let behind = skip(rest);
    match strip(behind, "=") {
        None => Err(ReadFault::Syntax(behind.len())),
        Some(value) => match read_value(alloc, key, value, keys) {
            Ok(rest) => read_end(rest, keys),
            Err(fault) => Err(fault),
        },
    }
}

// What comes after whitespace and comments, if anything does.
#[tactic(auto, unfolding(crate::specs::TrackerGrammar::front))]
fn front(text: &str) -> Option<&str>
    ensures value { option_map (λ x. x.now) result ≡ front_of text.now }
    ensures filled { IfSome result (λ x. 0 < length x.now) }
    ensures shorter { IfSome result (λ x. length x.now ≤ length text.now) }
{
    let at = skip(text);
    if at.is_empty() { None } else { Some(at) }
}

/// Reads keys up to the end.
pub fn read_entries<'a>(alloc: Global, text: &'a str, keys: &mut Keys<'a>) -> Result<(), ReadFault>
    ensures gives { GivesAll result keys.new (entries (length text.now) (said keys.old) text.now) }
{
    let mut rest = text;
    while let Some(at) = front(rest) {
        rest = match read_entry(alloc, at, keys) {
            Ok(left) => left,
            Err(fault) => return Err(fault),
        };
    }
    Ok(())
}
