//! Whether a query holds on a stanza.
ghost use Rattle.std.specs.Prelude.{◌≡◌, IfOk, List, length, map, slice_get};
ghost use Rattle.regex.specs.Patterns.{Re};
ghost use Rattle.regex.specs.Strings.{matcher_pattern, regex_pattern};
ghost use Rattle.td_stanza.specs.Table.{fields_of};
ghost use Rattle.td_query.specs.Query.{joined, shape_of};
ghost use Rattle.td_query.specs.Truth.{is_found as is_found_of, truth};
ghost use Rattle.td_query.specs.inner.Alike.{AreAlike};

use crate::query::{Joint, Query};
use crate::standing::stands_bounded;
use regex::{Matcher, Regex};
use std::alloc::{AllocError, Global};
use td_indices::value_of;
use td_stanza::Stanza;

// Whether the pattern of a number, if there is one, is found in the value.
fn is_found(matchers: &mut Vec<Matcher>, number: usize, value: &str) -> bool
    ensures alike { (ps : List Re) → AreAlike ps (map matcher_pattern matchers.old.items)
        → result ≡ is_found_of (slice_get ps number) value.now }
    ensures same { map matcher_pattern matchers.new.items ≡ map matcher_pattern matchers.old.items }
{
    if number >= matchers.len() {
        return false;
    }
    matchers[number].is_match(value)
}

/// Whether the query holds on the stanza.
#[cycle(holds)]
pub fn holds(query: &Query, stanza: &Stanza, matchers: &mut Vec<Matcher>) -> bool
    ensures truth { result ≡ truth (map matcher_pattern matchers.old.items) (fields_of stanza.now)
        (shape_of query.now) }
    // The answer is the same with any patterns that find alike.
    ensures alike { (ps : List Re) → AreAlike ps (map matcher_pattern matchers.old.items)
        → result ≡ truth ps (fields_of stanza.now) (shape_of query.now) }
    ensures same { map matcher_pattern matchers.new.items ≡ map matcher_pattern matchers.old.items }
{
    match query {
        Query::Always(answer) => *answer,
        Query::Text(field, text) => match value_of(stanza, field) {
            None => false,
            Some(value) => stands_bounded(text, value),
        },
        Query::Pattern(field, number) => match value_of(stanza, field) {
            None => false,
            Some(value) => is_found(matchers, *number, value),
        },
        Query::Not(part) => !holds(part, stanza, matchers),
        Query::All(parts) => parts_hold(Joint::And, parts, stanza, matchers),
        Query::Any(parts) => parts_hold(Joint::Or, parts, stanza, matchers),
    }
}

// Whether parts with the mark between them hold: the first that settles it decides.
#[cycle(holds)]
fn parts_hold(joint: Joint, parts: &[Query], stanza: &Stanza, matchers: &mut Vec<Matcher>) -> bool
    ensures alike { (ps : List Re) → AreAlike ps (map matcher_pattern matchers.old.items)
        → result ≡ truth ps (fields_of stanza.now) (joined joint (map shape_of parts.now)) }
    ensures same { map matcher_pattern matchers.new.items ≡ map matcher_pattern matchers.old.items }
{
    let settles = joint.settles();
    for i in 0..parts.len() {
        if holds(&parts[i], stanza, matchers) == settles {
            return settles;
        }
    }
    !settles
}

/// What searches for each pattern, made once for a pass over many stanzas.
pub fn matchers_of<'r>(alloc: Global, patterns: &'r [Regex]) -> Result<Vec<Matcher<'r>>, AllocError>
    ensures patterns { IfOk result
        (λ matchers. map matcher_pattern matchers.items ≡ map regex_pattern patterns.now) }
{
    let mut matchers = Vec::new(alloc);
    for pattern in patterns {
        matchers.push(pattern.matcher(alloc)?)?;
    }
    Ok(matchers)
}
