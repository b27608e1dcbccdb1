//! The lines of steps, read.
ghost use Rattle.std.specs.Prelude.{◌≡◌, option_map, IfOk};
ghost use Rattle.td_text.specs.Cut.{Without};
ghost use Rattle.td_simulate.specs.StepReading.{builder_at, claim_at, finish_at, by_verb};
ghost use Rattle.td_simulate.specs.StepReading.{some_keys, commit_at, step_at, StepsAreExact};

use crate::verb::{Verb, read_verb};
use std::alloc::{AllocError, Global};
use td_core::{KeyList, Step};
use td_journal::{is_command, read_ending, read_keys, read_kind, with_texts};
use td_rows::{BuilderNo, Key, read_notes, read_own_key};
use td_text::{cut_at, number, part_at, strip};

#[tactic(auto, unfolding(crate::specs::StepReading::builder_at))]
fn read_builder(text: &str) -> Option<(BuilderNo, &str)>
    ensures { option_map (λ x. (x.0, x.1.now)) result ≡ builder_at text.now }
{
    let (digits, rest) = cut_at(text, ' ')?;
    let builder = number(digits, u64::MAX)?;
    Some((builder, rest))
}

#[tactic(auto, unfolding(crate::specs::StepReading::claim_at))]
fn read_claim(alloc: Global, text: &str) -> Result<Option<Step>, AllocError>
    ensures { IfOk result (λ step. step ≡ claim_at text.now) }
{
    let Some((builder, rest)) = read_builder(text) else {
        return Ok(None);
    };
    let Some(key) = read_own_key(alloc, rest)? else {
        return Ok(None);
    };
    Ok(Some(Step::Claim(builder, key)))
}

#[tactic(auto, unfolding(crate::specs::StepReading::finish_at))]
fn read_finish(alloc: Global, text: &str) -> Result<Option<Step>, AllocError>
    requires { Without 10 text.now }
    ensures { IfOk result (λ step. step ≡ finish_at text.now) }
{
    let Some((builder, rest)) = read_builder(text) else {
        return Ok(None);
    };
    let Some(outcome) = read_ending(alloc, rest)? else {
        return Ok(None);
    };
    Ok(Some(Step::Finish(builder, outcome)))
}

// The step of a verb, by what follows that.
fn read_by_verb(alloc: Global, verb: Verb, text: &str) -> Result<Option<Step>, AllocError>
    requires { Without 10 text.now }
    ensures { IfOk result (λ step. step ≡ by_verb verb text.now) }
{
    match verb {
        Verb::Claim => return read_claim(alloc, text),
        Verb::Finish => return read_finish(alloc, text),
        Verb::Undo => return Ok(number(text, u64::MAX).map(|n| Step::Undo(n))),
        Verb::Release => return Ok(number(text, u64::MAX).map(|b| Step::Release(b))),
        _ => {}
    }
    let Some(key) = read_own_key(alloc, text)? else {
        return Ok(None);
    };
    Ok(Some(match verb {
        Verb::Offer => Step::Offer(key),
        Verb::Withdraw => Step::Withdraw(key),
        Verb::Note => Step::Note(key),
        Verb::Arrive => Step::Arrive(key),
        _ => Step::Settle(key),
    }))
}

// The keys of a command, where there is one.
fn some_keys(keys: Vec<Key>) -> Option<KeyList>
    ensures { result ≡ some_keys keys.items }
{
    if keys.is_empty() {
        None
    } else {
        Some(KeyList::new(keys))
    }
}

#[tactic(auto, unfolding(crate::specs::StepReading::commit_at))]
fn read_commit(alloc: Global, word: &str, rest: &str) -> Result<Option<Step>, AllocError>
    requires { Without 10 rest.now }
    ensures { IfOk result (λ step. step ≡ commit_at word.now rest.now) }
{
    let Some(bare) = read_kind(alloc, word) else {
        return Ok(None);
    };
    let (keys, ending) = read_keys(alloc, rest)?;
    let Some(keys) = some_keys(keys) else {
        return Ok(None);
    };
    let Some((extra, text)) = read_notes(ending) else {
        return Ok(None);
    };
    let Some(kind) = with_texts(alloc, bare, extra, text)? else {
        return Ok(None);
    };
    if is_command(&kind) {
        Ok(Some(Step::Commit(kind, keys)))
    } else {
        Ok(None)
    }
}

/// The step whose line it is; `None` where it is no step's. No newline stands in a line.
#[tactic(auto, unfolding(crate::specs::StepReading::step_at))]
pub fn read_step(alloc: Global, line: &str) -> Result<Option<Step>, AllocError>
    requires { Without 10 line.now }
    ensures { IfOk result (λ step. step ≡ step_at line.now) }
{
    if line == "sweep" {
        return Ok(Some(Step::Sweep));
    }
    let (word, rest) = part_at(line, ' ');
    match read_verb(word) {
        None => read_commit(alloc, word, rest),
        Some(verb) => match strip(rest, " ") {
            None => Ok(None),
            Some(rest) => read_by_verb(alloc, verb, rest),
        },
    }
}

/// A line is read as a step if and only if it is the line of that step.
pub fn step_lines_are_exact()
    ensures { StepsAreExact }
{}
