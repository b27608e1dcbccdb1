//! How a query is read: `!` binds before `&`, and `&` before `|`.
ghost use Rattle.std.specs.Prelude.{◌<◌, ◌≡◌, ◌≢◌, List, length, IfErr, IfOk, IfSome, IsErrOf, map};
ghost use Rattle.std.specs.Prelude.{option_map};
ghost use Rattle.td_query.specs.declared.read_fault.ReadFault.{ReadFault};
ghost use Rattle.td_query.specs.declared.read_fault.RawPattern.{RawPattern};
ghost use Rattle.td_query.specs.Query.{shape_of};
ghost use Rattle.td_query.specs.QueryGrammar.{behind_mark, closed, not_at, or_at};
ghost use Rattle.td_query.specs.QueryGrammar.{part_at, parts_at};
ghost use Rattle.td_query.specs.Views.{Gives, raw_of};
ghost use Rattle.td_query.specs.WantOfMemory.{IsBegun};

use crate::atom::read_atom;
use crate::query::{Joint, Query};
use crate::read_fault::{RawPattern, ReadFault};
use crate::tokens::skip;
use std::alloc::Global;
use td_text::strip;

/// How many brackets and `!` may be open at a place.
pub const MAX_NESTING: u8 = 100;

// What follows a mark, if the mark comes first.
#[tactic(auto, unfolding(crate::specs::QueryGrammar::behind_mark))]
fn behind<'a>(text: &'a str, mark: &str) -> Option<&'a str>
    requires one { length mark.now ≡ 1 }
    ensures value { option_map (λ x. x.now) result ≡ behind_mark mark.now text.now }
    ensures shorter { IfSome result (λ x. length x.now < length text.now) }
{
    strip(skip(text), mark)
}

// Takes the closing bracket after a query.
#[tactic(auto, unfolding(crate::specs::QueryGrammar::closed))]
fn close<'a>(inner: Query<'a>, text: &'a str) -> Result<(Query<'a>, &'a str), ReadFault>
    ensures gives { (log : List RawPattern)
        → Gives result log (closed (shape_of inner.entry, map raw_of log, text.now)) }
    ensures shorter { IfOk result (λ x. length x.1.now < length text.now) }
    ensures certain { IfErr result (λ e. e ≢ ReadFault.NoMemory) }
{
    let at = skip(text);
    match strip(at, ")") {
        Some(rest) => Ok((inner, rest)),
        None => Err(ReadFault::Syntax(at.len())),
    }
}

#[cycle(parser)]
#[tactic(auto, unfolding(crate::specs::QueryGrammar::not_in, crate::specs::QueryGrammar::or_with))]
fn read_not<'a>(
    alloc: Global,
    text: &'a str,
    depth: u8,
    log: &mut Vec<RawPattern<'a>>,
) -> Result<(Query<'a>, &'a str), ReadFault>
    ensures gives { Gives result log.new.items (not_at depth (map raw_of log.old.items) text.now) }
    ensures shorter { IfOk result (λ x. length x.1.now < length text.now) }
    ensures memory { IsErrOf result ReadFault.NoMemory → IsBegun depth text.now }
{
    let at = skip(text);
    if let Some(rest) = strip(at, "!") {
        if depth == 0 {
            return Err(ReadFault::Syntax(at.len()));
        }
        let (inner, rest) = read_not(alloc, rest, depth - 1, log)?;
        let inner = Box::new(alloc, inner)?;
        return Ok((Query::Not(inner), rest));
    }
    if let Some(rest) = strip(at, "(") {
        if depth == 0 {
            return Err(ReadFault::Syntax(at.len()));
        }
        let (inner, rest) = read_parts(alloc, rest, depth - 1, Joint::Or, log)?;
        return close(inner, rest);
    }
    read_atom(at, log)
}

// What the mark joins.
#[cycle(parser)]
fn read_part<'a>(
    alloc: Global,
    text: &'a str,
    depth: u8,
    joint: Joint,
    log: &mut Vec<RawPattern<'a>>,
) -> Result<(Query<'a>, &'a str), ReadFault>
    ensures gives { Gives result log.new.items
        (part_at joint depth (map raw_of log.old.items) text.now) }
    ensures shorter { IfOk result (λ x. length x.1.now < length text.now) }
    ensures memory { IsErrOf result ReadFault.NoMemory → IsBegun depth text.now }
{
    match joint {
        Joint::And => read_not(alloc, text, depth, log),
        Joint::Or => read_parts(alloc, text, depth, Joint::And, log),
    }
}

// One part, or several with the mark between them.
#[cycle(parser)]
#[tactic(auto, unfolding(crate::specs::QueryGrammar::more))]
fn read_parts<'a>(
    alloc: Global,
    text: &'a str,
    depth: u8,
    joint: Joint,
    log: &mut Vec<RawPattern<'a>>,
) -> Result<(Query<'a>, &'a str), ReadFault>
    ensures gives { Gives result log.new.items
        (parts_at joint depth (map raw_of log.old.items) text.now) }
    ensures shorter { IfOk result (λ x. length x.1.now < length text.now) }
    ensures memory { IsErrOf result ReadFault.NoMemory → IsBegun depth text.now }
{
    let (first, mut rest) = read_part(alloc, text, depth, joint, log)?;
    let mut parts = Vec::new(alloc);
    parts.push(first)?;
    while let Some(after) = behind(rest, joint.mark()) {
        let (next, left) = match read_part(alloc, after, depth, joint, log) {
            Ok(read) => read,
            Err(fault) => return Err(fault),
        };
        parts.push(next)?;
        rest = left;
    }
    Ok((joint.join(parts), rest))
}

/// The query at the front of a text, and what follows it. Its patterns are put after those of
/// the log.
#[tactic(auto, unfolding(crate::specs::QueryGrammar::or_with))]
pub fn read_query<'a>(
    alloc: Global,
    text: &'a str,
    log: &mut Vec<RawPattern<'a>>,
) -> Result<(Query<'a>, &'a str), ReadFault>
    ensures gives { Gives result log.new.items (or_at 100 (map raw_of log.old.items) text.now) }
    ensures shorter { IfOk result (λ x. length x.1.now < length text.now) }
    ensures memory { IsErrOf result ReadFault.NoMemory → IsBegun 100 text.now }
{
    read_parts(alloc, text, MAX_NESTING, Joint::Or, log)
}
