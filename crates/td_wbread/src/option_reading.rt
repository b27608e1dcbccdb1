//! What follows the architectures of a command line: a suite and options.
ghost use Rattle.std.specs.Prelude.{◌≡◌, ◌≢◌, ◌&&◌, ◌||◌, false, Ok, Err, IfErr, IfOk, IfSome, IsOk};
ghost use Rattle.std.specs.Prelude.{map, option_map};
ghost use Rattle.std.specs.List.{list_any};
ghost use Rattle.std.specs.Str.{bytes_eq};
ghost use Rattle.td_wbread.specs.Faults.{IsFaultOf};
ghost use Rattle.td_wbread.specs.Tail.{
  asks_relation,
  dot_end,
  finished,
  flag_at,
  is_option as is_option_of,
  is_suite as is_suite_of,
  missing_value as missing_value_of,
  needs_relation as needs_relation_of,
  no_values,
  options_at,
  relation_checked,
  suite_end,
  tail_at,
  takes_extra as takes_extra_of,
  takes_message as takes_message_of,
  unread_relation,
  value_at,
  valued,
  wants_relation as wants_relation_of,
  with_value as with_value_of,
};
ghost use Rattle.td_wbread.specs.Views.{value_read, values_of};

use crate::command::Verb;
use crate::fault::{CommandFault, LineFault};
use crate::word::{End, Word};
use std::alloc::Global;
use td_relation::{Relation, RelationFault};

/// The words that the options have as their values.
#[derive(Clone, Copy)]
pub struct Options<'w> {
    pub message: Option<&'w Word>,
    pub extra: Option<&'w Word>,
}

#[derive(Clone, Copy)]
enum Flag {
    /// `-m`
    Message,
    /// `--extra-depends`
    ExtraDepends,
}

/// Before any option.
fn no_options<'w>() -> Options<'w>
    ensures { values_of result ≡ no_values }
{
    Options {
        message: None,
        extra: None,
    }
}

fn is_option(word: &Word) -> bool
    ensures { result ≡ is_option_of word.now }
{
    word.is_sign("-m") || word.is_sign("--extra-depends")
}

fn takes_message(verb: &Verb) -> bool
    ensures { result ≡ takes_message_of verb.now }
{
    match verb {
        Verb::Nmu(_) | Verb::Dw => true,
        Verb::Gb | Verb::Bp(_) => false,
    }
}

fn takes_extra(verb: &Verb) -> bool
    ensures { result ≡ takes_extra_of verb.now }
{
    match verb {
        Verb::Nmu(_) => true,
        Verb::Gb | Verb::Bp(_) | Verb::Dw => false,
    }
}

/// Whether the message is a relation, which can't be left out.
fn needs_relation(verb: &Verb) -> bool
    ensures { result ≡ needs_relation_of verb.now }
{
    match verb {
        Verb::Dw => true,
        Verb::Gb | Verb::Nmu(_) | Verb::Bp(_) => false,
    }
}

/// The option that a word is, if the verb takes it and it comes for the first time.
fn read_flag(verb: &Verb, seen: &Options<'_>, word: &Word) -> Result<Flag, CommandFault>
    ensures { result ≡ flag_at verb.now (values_of seen.now) word.now }
{
    let may_be_message = takes_message(verb) && seen.message.is_none();
    let may_be_extra = takes_extra(verb) && seen.extra.is_none();
    if word.is_sign("-m") && may_be_message {
        Ok(Flag::Message)
    } else if word.is_sign("--extra-depends") && may_be_extra {
        Ok(Flag::ExtraDepends)
    } else {
        Err(word.wrong(LineFault::Extra))
    }
}

fn missing_value(flag: Flag) -> LineFault
    ensures { result ≡ missing_value_of flag }
{
    match flag {
        Flag::Message => LineFault::MissingMessage,
        Flag::ExtraDepends => LineFault::MissingValue,
    }
}

/// The fault of a word that wasn't read as a relation for this cause.
fn unread(fault: RelationFault, word: &Word) -> CommandFault
    ensures { result ≡ unread_relation fault word.now }
{
    match fault {
        RelationFault::NoMemory => CommandFault::NoMemory,
        _ => word.wrong(LineFault::BadRelation),
    }
}

/// Refuses a word that is no relation.
fn check_relation(alloc: Global, word: &Word) -> Result<(), CommandFault>
    ensures ok { IfOk result (λ _. relation_checked word.now ≡ Ok tt) }
    ensures err { IfErr result (λ e. IsFaultOf (relation_checked word.now) e) }
{
    match Relation::read(alloc, word.text.as_str()) {
        Ok(_) => Ok(()),
        Err(fault) => Err(unread(fault, word)),
    }
}

fn wants_relation(verb: &Verb, flag: Flag) -> bool
    ensures { result ≡ wants_relation_of verb.now flag }
{
    match flag {
        Flag::Message => needs_relation(verb),
        Flag::ExtraDepends => true,
    }
}

fn with_value<'w>(flag: Flag, seen: &Options<'w>, value: &'w Word) -> Options<'w>
    ensures { values_of result ≡ with_value_of flag (values_of seen.now) value.now }
{
    match flag {
        Flag::Message => Options {
            message: Some(value),
            extra: seen.extra,
        },
        Flag::ExtraDepends => Options {
            message: seen.message,
            extra: Some(value),
        },
    }
}

/// The options seen with the value of one more, which is a relation if it has to be one.
fn read_value<'w>(
    alloc: Global,
    verb: &Verb,
    flag: Flag,
    seen: &Options<'w>,
    value: &'w Word,
) -> Result<Options<'w>, CommandFault>
    ensures ok { IfOk result
        (λ more. valued verb.now flag (values_of seen.now) value.now ≡ Ok (values_of more)) }
    ensures err { IfErr result
        (λ e. IsFaultOf (valued verb.now flag (values_of seen.now) value.now) e) }
    // A value that needn't be a relation is taken, and no memory is wanted.
    ensures any { wants_relation_of verb.now flag ≡ false → IsOk result }
{
    if wants_relation(verb, flag) {
        check_relation(alloc, value)?;
    }
    Ok(with_value(flag, seen, value))
}

/// The value of an option, and the words that follow it.
fn split_value<'w>(
    end: End,
    flag: Flag,
    words: &'w [Word],
) -> Result<(&'w Word, &'w [Word]), CommandFault>
    ensures { value_read result ≡ value_at end flag words.now }
{
    match words.split_first() {
        None => Err(end.missing(missing_value(flag))),
        Some((value, behind)) => Ok((value, behind)),
    }
}

/// Whether the line may end here.
fn finish<'w>(verb: &Verb, end: End, seen: &Options<'w>) -> Result<Options<'w>, CommandFault>
    ensures ok { IfOk result
        (λ more. finished verb.now end (values_of seen.now) ≡ Ok (values_of more)) }
    ensures err { IfErr result (λ e. IsFaultOf (finished verb.now end (values_of seen.now)) e) }
    ensures certain { IfErr result (λ e. e ≢ CommandFault.NoMemory) }
{
    match end {
        End::Open(place) => Err(CommandFault::Wrong(LineFault::UnterminatedQuote, place)),
        End::Closed(place) => {
            if needs_relation(verb) && seen.message.is_none() {
                Err(CommandFault::Wrong(LineFault::MissingMessage, place))
            } else {
                Ok(*seen)
            }
        }
    }
}

/// Options with their values, up to the end.
fn read_options<'w>(
    alloc: Global,
    verb: &Verb,
    end: End,
    words: &'w [Word],
) -> Result<Options<'w>, CommandFault>
    ensures ok { IfOk result
        (λ more. options_at verb.now end no_values words.now ≡ Ok (values_of more)) }
    ensures err { IfErr result (λ e. IsFaultOf (options_at verb.now end no_values words.now) e) }
    // Without an option whose value is a relation no memory is taken.
    ensures certain { list_any (asks_relation verb.now) words.now ≡ false
        → IfErr result (λ e. e ≢ CommandFault.NoMemory) }
{
    let mut seen = no_options();
    let mut rest = words;
    while let Some((word, after)) = rest.split_first() {
        let flag = read_flag(verb, &seen, word)?;
        let (value, behind) = split_value(end, flag, after)?;
        seen = read_value(alloc, verb, flag, &seen, value)?;
        rest = behind;
    }
    finish(verb, end, &seen)
}

/// What follows the suite: nothing, or a dot and options.
fn read_suite_end<'w>(
    alloc: Global,
    verb: &Verb,
    end: End,
    words: &'w [Word],
) -> Result<Options<'w>, CommandFault>
    ensures ok { IfOk result (λ more. suite_end verb.now end words.now ≡ Ok (values_of more)) }
    ensures err { IfErr result (λ e. IsFaultOf (suite_end verb.now end words.now) e) }
    // Without an option whose value is a relation no memory is taken.
    ensures certain { list_any (asks_relation verb.now) words.now ≡ false
        → IfErr result (λ e. e ≢ CommandFault.NoMemory) }
{
    match words.split_first() {
        None => finish(verb, end, &no_options()),
        Some((word, words)) => {
            if word.is_dot() {
                read_options(alloc, verb, end, words)
            } else {
                Err(word.wrong(LineFault::Extra))
            }
        }
    }
}

fn has_suite(suites: &[&str], name: &str) -> bool
    ensures { result ≡ list_any (λ s. bytes_eq s.now name.now) suites.now }
{
    suites.iter().any(|s| *s == name)
}

fn is_suite(suites: &[&str], name: &str) -> bool
    ensures { result ≡ is_suite_of (map (λ s. s.now) suites.now) name.now }
{
    has_suite(suites, name)
}

/// What follows the dot after the architectures: nothing, options, or a suite.
fn read_dot_end<'w>(
    alloc: Global,
    verb: &Verb,
    suites: &[&str],
    end: End,
    words: &'w [Word],
) -> Result<Options<'w>, CommandFault>
    ensures ok { IfOk result (λ more.
        dot_end verb.now (map (λ s. s.now) suites.now) end words.now ≡ Ok (values_of more)) }
    ensures err { IfErr result
        (λ e. IsFaultOf (dot_end verb.now (map (λ s. s.now) suites.now) end words.now) e) }
    // Without an option whose value is a relation no memory is taken.
    ensures certain { list_any (asks_relation verb.now) words.now ≡ false
        → IfErr result (λ e. e ≢ CommandFault.NoMemory) }
{
    match words.split_first() {
        None => finish(verb, end, &no_options()),
        Some((word, after)) => {
            if is_option(word) {
                read_options(alloc, verb, end, words)
            } else if is_suite(suites, word.text.as_str()) {
                read_suite_end(alloc, verb, end, after)
            } else {
                Err(word.wrong(LineFault::UnknownSuite))
            }
        }
    }
}

/// What follows the architectures: nothing, or a dot and more.
pub fn read_tail<'w>(
    alloc: Global,
    verb: &Verb,
    suites: &[&str],
    end: End,
    behind: Option<&'w [Word]>,
) -> Result<Options<'w>, CommandFault>
    ensures ok { IfOk result (λ more. tail_at verb.now (map (λ s. s.now) suites.now) end
        (option_map (λ x. x.now) behind.entry) ≡ Ok (values_of more)) }
    ensures err { IfErr result (λ e. IsFaultOf (tail_at verb.now (map (λ s. s.now) suites.now) end
        (option_map (λ x. x.now) behind.entry)) e) }
    // Without an option whose value is a relation no memory is taken.
    ensures certain { IfSome behind.entry
        (λ words. list_any (asks_relation verb.now) words.now ≡ false)
        → IfErr result (λ e. e ≢ CommandFault.NoMemory) }
{
    match behind {
        None => finish(verb, end, &no_options()),
        Some(words) => read_dot_end(alloc, verb, suites, end, words),
    }
}
