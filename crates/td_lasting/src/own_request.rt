//! The five lines that a desk in a file has beside those of a script.
ghost use Rattle.std.specs.Prelude.{◌≡◌, IfOk};
ghost use Rattle.std.specs.Prelude.{option_map};
ghost use Rattle.td_text.specs.Cut.{Without};
ghost use Rattle.td_journal.specs.EntryReading.{builder_at};
ghost use Rattle.td_lasting.specs.OwnReading.{OwnRequestsAreExact, arch_behind as arch_behind_at};
ghost use Rattle.td_lasting.specs.OwnReading.{builder_behind as builder_behind_at, own_alone};
ghost use Rattle.td_lasting.specs.OwnReading.{own_at, own_by_verb, own_verb_at, ready_at};
ghost use Rattle.td_lasting.specs.OwnReading.{spoken_ending as spoken_ending_of};

use std::alloc::{AllocError, Global};
use td_journal::read_ending;
use td_rows::{BuilderNo, Key, Line, MAX_BUILDERS, Outcome};
use td_script::read_own_key;
use td_text::{cut_at, is_arch, number, part_at, strip};

/// The first word of such a line.
#[derive(Clone, Copy)]
pub enum OwnVerb {
    Ready,
    Claim,
    Finish,
    Rows,
    Lines,
}

/// What a desk in a file is asked for beside what a script asks.
#[derive(Drop)]
pub enum OwnRequest {
    /// The rows that need a build, of one architecture if it is named.
    Ready(Option<Line>),
    /// The builder takes the key's row.
    Claim(BuilderNo, Key),
    /// The builder's build ends.
    Finish(BuilderNo, Outcome),
    /// All rows.
    Rows,
    /// The standing commands as lines.
    Lines,
}

/// The verb that a word is.
#[tactic(auto, unfolding(crate::specs::OwnReading::own_verb_at))]
pub(crate) fn read_own_verb(word: &str) -> Option<OwnVerb>
    ensures { result ≡ own_verb_at word.now }
{
    match word {
        "ready" => Some(OwnVerb::Ready),
        "claim" => Some(OwnVerb::Claim),
        "finish" => Some(OwnVerb::Finish),
        "rows" => Some(OwnVerb::Rows),
        "lines" => Some(OwnVerb::Lines),
        _ => None,
    }
}

// A request that is one word: nothing may follow.
fn alone(request: OwnRequest, rest: &str) -> Option<OwnRequest>
    ensures { result ≡ own_alone request rest.now }
{
    rest.is_empty().then_some(request)
}

// The architecture behind a space.
fn arch_behind(rest: &str) -> Option<&str>
    ensures { option_map (λ x. x.now) result ≡ arch_behind_at rest.now }
{
    strip(rest, " ").filter(|arch| is_arch(arch))
}

fn read_ready(alloc: Global, rest: &str) -> Result<Option<OwnRequest>, AllocError>
    requires { Without 10 rest.now }
    ensures { IfOk result (λ request. request ≡ ready_at rest.now) }
{
    if rest.is_empty() {
        return Ok(Some(OwnRequest::Ready(None)));
    }
    match arch_behind(rest) {
        Some(arch) => Ok(Some(OwnRequest::Ready(Some(Line::from_line(alloc, arch)?)))),
        None => Ok(None),
    }
}

// The number of a builder.
#[tactic(auto, unfolding(td_journal::specs::EntryReading::builder_at))]
fn read_builder(text: &str) -> Option<BuilderNo>
    ensures { result ≡ builder_at text.now }
{
    let builder = number(text, MAX_BUILDERS)?;
    if builder == 0 { None } else { Some(builder) }
}

// The builder's number behind a space, and what follows the space after it.
fn builder_behind(rest: &str) -> Option<(BuilderNo, &str)>
    ensures { option_map (λ p. (p.0, p.1.now)) result ≡ builder_behind_at rest.now }
{
    let (digits, after) = cut_at(strip(rest, " ")?, ' ')?;
    Some((read_builder(digits)?, after))
}

fn read_claim(alloc: Global, rest: &str) -> Result<Option<OwnRequest>, AllocError>
    requires { Without 10 rest.now }
    ensures { IfOk result (λ request. request ≡ own_by_verb OwnVerb.Claim rest.now) }
{
    let Some((builder, text)) = builder_behind(rest) else {
        return Ok(None);
    };
    match read_own_key(alloc, text)? {
        Some(key) => Ok(Some(OwnRequest::Claim(builder, key))),
        None => Ok(None),
    }
}

// How a build ended, where one that waits says what for.
fn spoken_ending(outcome: Outcome) -> Option<Outcome>
    ensures { result ≡ spoken_ending_of outcome }
{
    match &outcome {
        Outcome::Waits(relation) if relation.is_empty() => None,
        _ => Some(outcome),
    }
}

fn read_finish(alloc: Global, rest: &str) -> Result<Option<OwnRequest>, AllocError>
    requires { Without 10 rest.now }
    ensures { IfOk result (λ request. request ≡ own_by_verb OwnVerb.Finish rest.now) }
{
    let Some((builder, text)) = builder_behind(rest) else {
        return Ok(None);
    };
    let Some(outcome) = read_ending(alloc, text)? else {
        return Ok(None);
    };
    match spoken_ending(outcome) {
        Some(outcome) => Ok(Some(OwnRequest::Finish(builder, outcome))),
        None => Ok(None),
    }
}

// A request by its verb, and what follows that.
fn read_by_own_verb(
    alloc: Global,
    verb: OwnVerb,
    rest: &str,
) -> Result<Option<OwnRequest>, AllocError>
    requires { Without 10 rest.now }
    ensures { IfOk result (λ request. request ≡ own_by_verb verb rest.now) }
{
    match verb {
        OwnVerb::Ready => read_ready(alloc, rest),
        OwnVerb::Claim => read_claim(alloc, rest),
        OwnVerb::Finish => read_finish(alloc, rest),
        OwnVerb::Rows => Ok(alone(OwnRequest::Rows, rest)),
        OwnVerb::Lines => Ok(alone(OwnRequest::Lines, rest)),
    }
}

/// The request whose line it is. No newline stands in a line.
#[tactic(auto, unfolding(crate::specs::OwnReading::own_at))]
pub fn read_own_request(alloc: Global, line: &str) -> Result<Option<OwnRequest>, AllocError>
    requires { Without 10 line.now }
    ensures { IfOk result (λ request. request ≡ own_at line.now) }
{
    let (word, rest) = part_at(line, ' ');
    match read_own_verb(word) {
        Some(verb) => read_by_own_verb(alloc, verb, rest),
        None => Ok(None),
    }
}

/// A line is read as such a request exactly where it is the line of that request.
pub fn own_lines_are_exact()
    ensures { OwnRequestsAreExact }
{}
