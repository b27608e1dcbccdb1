//! The lines of a script that are no commands.
ghost use Rattle.std.specs.Prelude.{◌≡◌, option_map, IsSome, IsSomeAnd, MatchResult};
ghost use Rattle.td_script.specs.Reading.{verb_at, spaced_key_at, by_verb, request_at};
ghost use Rattle.td_script.specs.Reading.{alone as alone_at, key_behind as key_behind_at};
ghost use Rattle.td_script.specs.Reading.{number_behind as number_behind_at};
ghost use Rattle.td_script.specs.Reading.{HasKey, RequestsAreExact};

use std::alloc::{AllocError, Global};
use td_journal::EntryNo;
use td_rows::Key;
use td_text::{cut_at, is_arch, is_name, number, part_at, strip};

/// The first word of a line that is no command.
#[derive(Clone, Copy)]
pub enum Verb {
    Undo,
    Arrive,
    Sweep,
    Row,
    Entry,
    Report,
    Journal,
}

/// What a script asks for other than commands.
#[derive(Drop)]
pub enum Request {
    /// The entry is undone.
    Undo(EntryNo),
    /// The key's build has arrived.
    Arrive(Key),
    /// All rows are freed that wait for what is on offer now.
    Sweep,
    /// The line of the key's row.
    Row(Key),
    /// The line of the entry.
    Entry(EntryNo),
    /// The tracker's report of the rows.
    Report,
    /// The journal's text.
    Journal,
}

/// The verb that a word is.
#[tactic(auto, unfolding(crate::specs::Reading::verb_at))]
pub fn read_verb(word: &str) -> Option<Verb>
    ensures { result ≡ verb_at word.now }
{
    match word {
        "undo" => Some(Verb::Undo),
        "arrive" => Some(Verb::Arrive),
        "sweep" => Some(Verb::Sweep),
        "row" => Some(Verb::Row),
        "entry" => Some(Verb::Entry),
        "report" => Some(Verb::Report),
        "journal" => Some(Verb::Journal),
        _ => None,
    }
}

// A source and an architecture with a space between them.
#[tactic(auto, unfolding(crate::specs::Reading::spaced_key_at))]
fn read_spaced(text: &str) -> Option<(&str, &str)>
    ensures { option_map (λ p. record { source = p.0.now; arch = p.1.now }) result
        ≡ spaced_key_at text.now }
{
    cut_at(text, ' ').filter(|(source, arch)| is_name(source) && is_arch(arch))
}

/// The key of a source and an architecture with a space between them, in memory of its own.
pub fn read_own_key(alloc: Global, text: &str) -> Result<Option<Key>, AllocError>
    ensures { MatchResult result (λ key. key ≡ spaced_key_at text.now)
        (λ _. IsSome (spaced_key_at text.now)) }
{
    let Some((source, arch)) = read_spaced(text) else {
        return Ok(None);
    };
    Ok(Some(Key::from_lines(alloc, source, arch)?))
}

// A request that is one word: nothing may follow.
fn alone(request: Request, rest: &str) -> Option<Request>
    ensures { result ≡ alone_at request rest.now }
{
    rest.is_empty().then_some(request)
}

// The number after a space.
fn number_behind(rest: &str) -> Option<EntryNo>
    ensures { result ≡ number_behind_at rest.now }
{
    number(strip(rest, " ")?, u64::MAX)
}

// The key after a space, in memory of its own.
fn key_behind(alloc: Global, rest: &str) -> Result<Option<Key>, AllocError>
    ensures { MatchResult result (λ key. key ≡ key_behind_at rest.now)
        (λ _. IsSome (key_behind_at rest.now)) }
{
    match strip(rest, " ") {
        Some(text) => read_own_key(alloc, text),
        None => Ok(None),
    }
}

// A request by its verb, and what follows that.
fn read_by_verb(alloc: Global, verb: Verb, rest: &str) -> Result<Option<Request>, AllocError>
    ensures { MatchResult result (λ request. request ≡ by_verb verb rest.now)
        (λ _. IsSomeAnd (by_verb verb rest.now) HasKey) }
{
    match verb {
        Verb::Undo => Ok(number_behind(rest).map(|n| Request::Undo(n))),
        Verb::Entry => Ok(number_behind(rest).map(|n| Request::Entry(n))),
        Verb::Sweep => Ok(alone(Request::Sweep, rest)),
        Verb::Report => Ok(alone(Request::Report, rest)),
        Verb::Journal => Ok(alone(Request::Journal, rest)),
        Verb::Arrive => Ok(key_behind(alloc, rest)?.map(|key| Request::Arrive(key))),
        Verb::Row => Ok(key_behind(alloc, rest)?.map(|key| Request::Row(key))),
    }
}

/// The request whose line this is. Memory is taken only for a key.
#[tactic(auto, unfolding(crate::specs::Reading::request_at))]
pub fn read_request(alloc: Global, line: &str) -> Result<Option<Request>, AllocError>
    ensures { MatchResult result (λ request. request ≡ request_at line.now)
        (λ _. IsSomeAnd (request_at line.now) HasKey) }
{
    let (word, rest) = part_at(line, ' ');
    match read_verb(word) {
        None => Ok(None),
        Some(verb) => read_by_verb(alloc, verb, rest),
    }
}

/// A line is read as a request if and only if it is the line of that request.
pub fn request_lines_are_exact()
    ensures { RequestsAreExact }
{}
