//! How the parts of a query without `&`, `|` and `!` are read.
ghost use Rattle.std.specs.Prelude.{◌<◌, ◌≤◌, ◌≢◌, IfErr, IfOk, IsErrOf, IsSome, IsTrue, List};
ghost use Rattle.std.specs.Prelude.{length, map};
ghost use Rattle.td_query.specs.declared.read_fault.ReadFault.{ReadFault};
ghost use Rattle.td_query.specs.declared.read_fault.RawPattern.{RawPattern};
ghost use Rattle.td_query.specs.QueryGrammar.{atom, field_atom, slash_atom, tilde_atom};
ghost use Rattle.td_query.specs.QueryGrammar.{word_atom};
ghost use Rattle.td_query.specs.Tokens.{pattern_in};
ghost use Rattle.td_query.specs.Views.{Gives, raw_of};
ghost use Rattle.td_query.specs.WantOfMemory.{reads_pattern};

use crate::query::Query;
use crate::read_fault::{RawPattern, ReadFault};
use crate::tokens::{common_len, read_pattern, skip, word_run};
use td_text::{cut_at, strip};

// `true` or `false`.
#[tactic(auto, unfolding(crate::specs::QueryGrammar::word_atom))]
fn read_word(at: &str) -> Result<(Query<'_>, &str), ReadFault>
    ensures gives { (log : List RawPattern) → Gives result log (word_atom (map raw_of log) at.now) }
    ensures shorter { IfOk result (λ x. length x.1.now < length at.now) }
    ensures certain { IfErr result (λ e. e ≢ ReadFault.NoMemory) }
{
    let (word, rest) = word_run(at);
    match word {
        "true" => Ok((Query::Always(true), rest)),
        "false" => Ok((Query::Always(false), rest)),
        _ => {
            let a = common_len(word.as_bytes(), b"true");
            let b = common_len(word.as_bytes(), b"false");
            Err(ReadFault::Syntax(at.len() - a.max(b)))
        }
    }
}

// What comes after a `/`, with `left` bytes of the text left at it.
#[tactic(auto, unfolding(crate::specs::QueryGrammar::slash_atom))]
fn read_slash<'a>(
    field: &'a str,
    left: usize,
    text: &'a str,
    log: &mut Vec<RawPattern<'a>>,
) -> Result<(Query<'a>, &'a str), ReadFault>
    ensures gives { Gives result log.new.items
        (slash_atom (map raw_of log.old.items) field.now left (pattern_in text.now)) }
    ensures shorter { IfOk result (λ x. length x.1.now ≤ length text.now) }
    ensures memory { IsErrOf result ReadFault.NoMemory → IsSome (pattern_in text.now) }
{
    match read_pattern(text) {
        None => Err(ReadFault::Syntax(0)),
        Some((raw, rest)) => {
            let number = log.len();
            log.push(RawPattern { left, raw })?;
            Ok((Query::Pattern(field, number), rest))
        }
    }
}

// What comes after the name of a field: a `~`, and a text or a pattern.
#[tactic(auto, unfolding(crate::specs::QueryGrammar::tilde_atom, crate::specs::QueryGrammar::tested))]
fn read_tilde<'a>(
    field: &'a str,
    text: &'a str,
    log: &mut Vec<RawPattern<'a>>,
) -> Result<(Query<'a>, &'a str), ReadFault>
    ensures gives { Gives result log.new.items
        (tilde_atom (map raw_of log.old.items) field.now text.now) }
    ensures shorter { IfOk result (λ x. length x.1.now ≤ length text.now) }
    ensures memory { IsErrOf result ReadFault.NoMemory
        → IsTrue (reads_pattern (tilde_atom (map raw_of log.old.items) field.now text.now)) }
{
    let at = skip(text);
    let Some(rest) = strip(at, "~") else {
        return Err(ReadFault::Syntax(at.len()));
    };
    let at = skip(rest);
    if let Some(quoted) = strip(at, "\"") {
        return match cut_at(quoted, '"') {
            None => Err(ReadFault::Syntax(0)),
            Some((text, rest)) => Ok((Query::Text(field, text), rest)),
        };
    }
    match strip(at, "/") {
        None => Err(ReadFault::Syntax(at.len())),
        Some(rest) => read_slash(field, at.len(), rest, log),
    }
}

// What comes after a dot.
#[tactic(auto, unfolding(crate::specs::QueryGrammar::field_atom))]
fn read_field<'a>(
    text: &'a str,
    log: &mut Vec<RawPattern<'a>>,
) -> Result<(Query<'a>, &'a str), ReadFault>
    ensures gives { Gives result log.new.items (field_atom (map raw_of log.old.items) text.now) }
    ensures shorter { IfOk result (λ x. length x.1.now ≤ length text.now) }
    ensures memory { IsErrOf result ReadFault.NoMemory
        → IsTrue (reads_pattern (field_atom (map raw_of log.old.items) text.now)) }
{
    let (field, rest) = word_run(text);
    if field.is_empty() {
        return Err(ReadFault::Syntax(text.len()));
    }
    read_tilde(field, rest, log)
}

/// A query without `!`, `&`, `|` and brackets, at the front of a text.
#[tactic(auto, unfolding(crate::specs::QueryGrammar::atom))]
pub fn read_atom<'a>(
    at: &'a str,
    log: &mut Vec<RawPattern<'a>>,
) -> Result<(Query<'a>, &'a str), ReadFault>
    ensures gives { Gives result log.new.items (atom (map raw_of log.old.items) at.now) }
    ensures shorter { IfOk result (λ x. length x.1.now < length at.now) }
    ensures memory { IsErrOf result ReadFault.NoMemory
        → IsTrue (reads_pattern (atom (map raw_of log.old.items) at.now)) }
{
    match strip(at, ".") {
        Some(rest) => read_field(rest, log),
        None => read_word(at),
    }
}
