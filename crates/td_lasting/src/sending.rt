//! The standing commands as lines that the release team can send.
ghost use Rattle.std.specs.Prelude.{◌≡◌, ◌<◌, ◌≤◌, ◌++◌, ◌∷◌, [], ◌==◌, ◌||◌, Some, IfOk, OnOk};
ghost use Rattle.std.specs.Prelude.{codes};
ghost use Rattle.std.specs.Prelude.{decimal, drop, length, map, option_map, slice_get, take};
ghost use Rattle.std.specs.List.{list_any};
ghost use Rattle.std.specs.Str.{bytes_eq};
ghost use Rattle.std.specs.String.{string_bytes};
ghost use Rattle.td_rows.specs.Appending.{Grown};
ghost use Rattle.td_text.specs.Lines.{text_of};
ghost use Rattle.td_supply.specs.Supply.{version_of};
ghost use Rattle.td_core.specs.Offers.{supply_now};
ghost use Rattle.td_rows.specs.declared.key.Key.{Key as KeyValue};
ghost use Rattle.td_script.specs.Replies.{ended, says};
ghost use Rattle.td_lasting.specs.DeskView.{IsShown};
ghost use Rattle.td_lasting.specs.Sending.{arch_words, can_be_sent as can_be_sent_by};
ghost use Rattle.td_lasting.specs.Sending.{has as has_byte, is_read_by_shells as are_read};
ghost use Rattle.td_lasting.specs.Sending.{is_quotable as is_a_quotable_relation, option_words};
ghost use Rattle.td_lasting.specs.Sending.{options, package_word, quote_of as quote_of_text};
ghost use Rattle.td_lasting.specs.Sending.{same_source as keys_of_source, sent_line, sent_lines};
ghost use Rattle.td_lasting.specs.Sending.{standing_lines, suite_words};
ghost use Rattle.td_lasting.specs.Sending.{by_source, verb_words};

use crate::relations::is_relation;
use std::alloc::{AllocError, Global};
use td_core::Books;
use td_journal::{Entry, EntryNo, Marked, is_command};
use td_rows::{Key, Kind};
use td_supply::Supply;
use td_text::{put_number, put_signed};
use td_version::split_rebuild;

fn has(text: &str, byte: u8) -> bool
    ensures { result ≡ has_byte byte text.now }
{
    text.as_bytes().contains(&byte)
}

// Whether a shell would read a text otherwise between double quotes.
fn is_read_by_shells(text: &str) -> bool
    ensures { result ≡ are_read text.now }
{
    has(text, b'"') || has(text, b'$') || has(text, b'`') || has(text, b'\\')
}

// The quote between two of which a text is one word of a line.
fn quote_of(text: &str) -> Option<&'static str>
    ensures { option_map (λ q. q.now) result ≡ option_map (λ q. q ∷ []) (quote_of_text text.now) }
{
    if !is_read_by_shells(text) {
        Some("\"")
    } else if !has(text, b'\'') {
        Some("'")
    } else if !has(text, b'"') {
        Some("\"")
    } else {
        None
    }
}

// Whether a text is a relation with a quote round it.
fn is_quotable(alloc: Global, text: &str) -> Result<bool, AllocError>
    ensures { IfOk result (λ is. is ≡ is_a_quotable_relation text.now) }
{
    Ok(is_relation(alloc, text)? && quote_of(text).is_some())
}

// Whether a line can have such a text for extra dependencies: none, or a relation with a quote
// round it.
fn is_extra(alloc: Global, text: &str) -> Result<bool, AllocError>
    ensures { IfOk result (λ is. is ≡ ((length text.now == 0) || is_a_quotable_relation text.now)) }
{
    if text.is_empty() {
        return Ok(true);
    }
    is_quotable(alloc, text)
}

// Whether a command comes from a line.
fn can_be_sent(alloc: Global, kind: &Kind) -> Result<bool, AllocError>
    ensures { IfOk result (λ is. is ≡ can_be_sent_by kind.now) }
{
    match kind {
        Kind::Gb | Kind::Bp(_) => Ok(true),
        Kind::Nmu {
            number,
            extra,
            message,
        } => {
            let is_numbered = match number {
                Some(number) => number.get() > 0,
                None => true,
            };
            let can_be_quoted = quote_of(message.as_str()).is_some();
            Ok(is_numbered && is_extra(alloc, extra.as_str())? && can_be_quoted)
        }
        Kind::Dw(relation) => is_quotable(alloc, relation.as_str()),
        _ => Ok(false),
    }
}

// Appends the verb, with its number where it has one.
#[tactic(auto, using(td_rows::proofs::Appends::growing))]
fn put_verb(out: &mut String, kind: &Kind) -> Result<(), AllocError>
    ensures ok { OnOk result
        (string_bytes out.new ≡ string_bytes out.old ++ verb_words kind.now) }
    ensures front { Grown (string_bytes out.old) (string_bytes out.new) }
{
    match kind {
        Kind::Gb => out.push_str("gb"),
        Kind::Nmu { number: None, .. } => out.push_str("nmu"),
        Kind::Nmu {
            number: Some(number),
            ..
        } => {
            out.push_str("nmu ")?;
            put_number(out, number.get() as u64)
        }
        Kind::Bp(priority) => {
            out.push_str("bp ")?;
            put_signed(out, priority.get())
        }
        Kind::Dw(_) => out.push_str("dw"),
        _ => Ok(()),
    }
}

// Appends the source with its version; one whose version ends in `+bN` without it.
#[tactic(auto, using(td_rows::proofs::Appends::growing))]
fn put_package(out: &mut String, supply: &Supply<'_>, source: &str) -> Result<(), AllocError>
    ensures ok { OnOk result
        (string_bytes out.new
        ≡ string_bytes out.old ++ package_word source.now (version_of supply.now source.now)) }
    ensures front { Grown (string_bytes out.old) (string_bytes out.new) }
{
    out.push_str(source)?;
    match supply.version(source) {
        Some(version) if split_rebuild(version).1 == 0 => {
            out.push_str("_")?;
            out.push_str(version)
        }
        _ => Ok(()),
    }
}

// Whether one of the keys is of the architecture.
fn has_arch(keys: &[Key], name: &str) -> bool
    ensures { result ≡ list_any (λ k. bytes_eq k.arch name.now) keys.now }
{
    keys.iter().any(|key| key.arch() == name)
}

// Appends the architectures of the keys, in the order of the table, a space before each.
#[tactic(auto, using(td_rows::proofs::Appends::growing))]
fn put_archs(out: &mut String, supply: &Supply<'_>, keys: &[Key]) -> Result<(), AllocError>
    ensures ok { OnOk result
        (string_bytes out.new ≡ string_bytes out.old ++ arch_words supply.now.table keys.now) }
    ensures front { Grown (string_bytes out.old) (string_bytes out.new) }
{
    let archs = supply.archs();
    for place in 0..archs.len() {
        let name = archs.name(place);
        if has_arch(keys, name) {
            out.push_str(" ")?;
            out.push_str(name)?;
        }
    }
    Ok(())
}

// Appends an option with its text between quotes; nothing for an empty text.
#[tactic(auto, using(td_rows::proofs::Appends::growing))]
fn put_option(out: &mut String, name: &str, text: &str) -> Result<(), AllocError>
    ensures ok { OnOk result
        (string_bytes out.new ≡ string_bytes out.old ++ option_words name.now text.now) }
    ensures front { Grown (string_bytes out.old) (string_bytes out.new) }
{
    let Some(quote) = quote_of(text) else {
        return Ok(());
    };
    if text.is_empty() {
        return Ok(());
    }
    out.push_str(" ")?;
    out.push_str(name)?;
    out.push_str(" ")?;
    out.push_str(quote)?;
    out.push_str(text)?;
    out.push_str(quote)
}

// Appends the options of a kind behind their dot, where it has any.
#[tactic(auto, using(td_rows::proofs::Appends::growing))]
fn put_options(out: &mut String, kind: &Kind) -> Result<(), AllocError>
    ensures ok { OnOk result
        (string_bytes out.new ≡ string_bytes out.old ++ options kind.now) }
    ensures front { Grown (string_bytes out.old) (string_bytes out.new) }
{
    match kind {
        Kind::Nmu { extra, message, .. } => {
            if !extra.is_empty() || !message.is_empty() {
                out.push_str(" .")?;
            }
            put_option(out, "-m", message.as_str())?;
            put_option(out, "--extra-depends", extra.as_str())
        }
        Kind::Dw(relation) => {
            out.push_str(" .")?;
            put_option(out, "-m", relation.as_str())
        }
        _ => Ok(()),
    }
}

// Appends the suite, if the desk has one.
#[tactic(auto, using(td_rows::proofs::Appends::growing))]
fn put_suite(out: &mut String, suites: &[&str]) -> Result<(), AllocError>
    ensures ok { OnOk result
        (string_bytes out.new ≡ string_bytes out.old ++ suite_words (map (λ s. s.now) suites.now)) }
    ensures front { Grown (string_bytes out.old) (string_bytes out.new) }
{
    match suites.first() {
        Some(suite) => {
            out.push_str(" . ")?;
            out.push_str(suite)
        }
        None => Ok(()),
    }
}

// Appends the front of a line: the verb, the source, and a dot.
#[tactic(auto, using(td_rows::proofs::Appends::growing))]
fn put_front(
    out: &mut String,
    supply: &Supply<'_>,
    kind: &Kind,
    source: &str,
) -> Result<(), AllocError>
    ensures ok { OnOk result (string_bytes out.new ≡ string_bytes out.old ++ (verb_words kind.now
        ++ 32 ∷ (package_word source.now (version_of supply.now source.now) ++ codes " ."))) }
    ensures front { Grown (string_bytes out.old) (string_bytes out.new) }
{
    put_verb(out, kind)?;
    out.push_str(" ")?;
    put_package(out, supply, source)?;
    out.push_str(" .")
}

// Appends the rest of a line: the architectures, the suite and the options, and a newline.
#[tactic(auto, using(td_rows::proofs::Appends::growing))]
fn put_back(
    out: &mut String,
    supply: &Supply<'_>,
    suites: &[&str],
    kind: &Kind,
    keys: &[Key],
) -> Result<(), AllocError>
    ensures ok { OnOk result (string_bytes out.new
        ≡ string_bytes out.old ++ (arch_words supply.now.table keys.now
        ++ (suite_words (map (λ s. s.now) suites.now) ++ (options kind.now ++ 10 ∷ [])))) }
    ensures front { Grown (string_bytes out.old) (string_bytes out.new) }
{
    put_archs(out, supply, keys)?;
    put_suite(out, suites)?;
    put_options(out, kind)?;
    out.push_str("\n")
}

// Appends the line of a command on keys, which are those of one source; nothing for no keys.
#[tactic(auto, using(td_rows::proofs::Appends::growing))]
fn put_sent_line(
    out: &mut String,
    supply: &Supply<'_>,
    suites: &[&str],
    kind: &Kind,
    keys: &[Key],
) -> Result<(), AllocError>
    ensures ok { (k : KeyValue) → slice_get keys.now 0 ≡ Some k → OnOk result
        (string_bytes out.new ≡ string_bytes out.old ++ ended
        (sent_line supply.now (map (λ s. s.now) suites.now) kind.now k.source keys.now)) }
    ensures front { Grown (string_bytes out.old) (string_bytes out.new) }
{
    let Some(first) = keys.first() else {
        return Ok(());
    };
    put_front(out, supply, kind, first.source())?;
    put_back(out, supply, suites, kind, keys)
}

// How many keys at the front of a list are of the source of the first.
fn same_source(keys: &[Key]) -> usize
    ensures within { result ≤ length keys.now }
    ensures some { 0 < length keys.now → 0 < result }
    ensures front { (k : KeyValue) → slice_get keys.now 0 ≡ Some k
        → take result keys.now ≡ (keys_of_source k.source keys.now).0 }
    ensures rest { (k : KeyValue) → slice_get keys.now 0 ≡ Some k
        → drop result keys.now ≡ (keys_of_source k.source keys.now).1 }
{
    let Some(first) = keys.first() else {
        return 0;
    };
    for number in 1..keys.len() {
        if keys[number].source() != first.source() {
            return number;
        }
    }
    keys.len()
}

// Appends a line for each source of a command.
#[tactic(auto, using(td_rows::proofs::Appends::growing))]
fn put_sources(
    out: &mut String,
    supply: &Supply<'_>,
    suites: &[&str],
    entry: &Entry,
) -> Result<(), AllocError>
    ensures ok { OnOk result
        (string_bytes out.new ≡ string_bytes out.old ++ text_of (map
        (λ g. sent_line supply.now (map (λ s. s.now) suites.now) entry.now.kind g.0 g.1)
        (by_source entry.now.keys))) }
    ensures front { Grown (string_bytes out.old) (string_bytes out.new) }
{
    let mut rest = entry.keys.as_slice();
    while !rest.is_empty() {
        let (keys, others) = rest.split_at(same_source(rest));
        put_sent_line(out, supply, suites, &entry.kind, keys)?;
        rest = others;
    }
    Ok(())
}

// Appends that no line can make the command.
#[tactic(auto, using(td_rows::proofs::Appends::growing))]
fn put_no_line(out: &mut String, n: EntryNo) -> Result<(), AllocError>
    ensures ok { OnOk result (string_bytes out.new ≡ string_bytes out.old
        ++ ended (codes "# entry " ++ (decimal n ++ codes ": no line"))) }
    ensures front { Grown (string_bytes out.old) (string_bytes out.new) }
{
    out.push_str("# entry ")?;
    put_number(out, n)?;
    out.push_str(": no line\n")
}

// Appends what stands for a command: a line a source, or a comment where no line can make it.
#[tactic(auto, using(td_rows::proofs::Appends::growing))]
fn put_sent(
    alloc: Global,
    out: &mut String,
    supply: &Supply<'_>,
    suites: &[&str],
    n: EntryNo,
    marked: &Marked,
) -> Result<(), AllocError>
    ensures ok { OnOk result
        (string_bytes out.new ≡ string_bytes out.old ++ text_of
        (sent_lines supply.now (map (λ s. s.now) suites.now) n marked.now)) }
    ensures front { Grown (string_bytes out.old) (string_bytes out.new) }
{
    if can_be_sent(alloc, &marked.entry.kind)? {
        put_sources(out, supply, suites, &marked.entry)
    } else {
        put_no_line(out, n)
    }
}

/// Tells the standing commands as lines that the release team can send.
#[tactic(auto, using(td_rows::proofs::Appends::growing))]
pub(crate) fn put_standing(
    alloc: Global,
    books: &Books<'_>,
    suites: &[&str],
    out: &mut String,
) -> Result<bool, AllocError>
    ensures ok { IfOk result (IsShown (says books.now.history (text_of (standing_lines
        (supply_now books.now.stock books.now.history) (map (λ s. s.now) suites.now)
        books.now.history.journal))) (string_bytes out.old) (string_bytes out.new)) }
    ensures front { Grown (string_bytes out.old) (string_bytes out.new) }
{
    let start = out.len();
    let entries = books.journal().as_slice();
    for at in 0..entries.len() {
        let marked = &entries[at];
        if marked.stands() && is_command(&marked.entry.kind) {
            put_sent(alloc, out, books.supply(), suites, at as u64 + 1, marked)?;
        }
    }
    if out.len() == start {
        out.push_str("nothing stands\n")?;
    }
    Ok(false)
}
