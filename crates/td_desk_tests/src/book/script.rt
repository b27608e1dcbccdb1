//! The reader of scripts: a line is a call, and after `=>` its answer.
use super::desk::{Desk, open_desk};
use crate::spelling::{key, number, unlike};
use crate::tries::{CHANGED, Tries, lacks_memory};
use std::alloc::Global;
use std::process::Abort;
use std::test::Fail;
use td_journal::text;
use td_rows::Key;

// The row of a word `source/arch=group`, with its group.
fn group(alloc: Global, word: &str) -> Result<(Key, usize), Fail> {
    let Some((name, group)) = word.split_once('=') else {
        return Err(Fail::from("a group"));
    };
    Ok((key(alloc, name)?, number(group) as usize))
}

// The rows of words, with their groups.
fn groups(alloc: Global, words: &str) -> Result<Vec<(Key, usize)>, Fail> {
    let mut rows = Vec::new(alloc);
    for word in words.split(' ') {
        rows.push(group(alloc, word)?)?;
    }
    Ok(rows)
}

// The answer to a watch, whose first word is the number of the groups.
fn watch(desk: &mut Desk, text: &str) -> Result<String, Fail> {
    let (count, words) = text.split_once(' ').unwrap_or((text, ""));
    let rows = groups(desk.alloc, words)?;
    desk.watch(number(count) as usize, &rows)
}

// The answer to a builder's call, whose first word is the builder's number.
fn build(desk: &mut Desk, word: &str, rest: &str) -> Result<String, Fail> {
    let (builder, rest) = rest.split_once(' ').unwrap_or((rest, ""));
    match word {
        "claim" => desk.claim(number(builder), rest),
        "start" => desk.start(number(builder)),
        _ => desk.finish(number(builder), rest),
    }
}

// The answer to a line that asks something, or that is a command.
fn ask(desk: &mut Desk, line: &str) -> Result<String, Fail> {
    let (word, rest) = line.split_once(' ').unwrap_or((line, ""));
    match word {
        "row" => desk.row(rest),
        "entry" => desk.entry(number(rest)),
        "installed" => desk.installed(number(rest) as usize),
        "ready" => desk.ready(),
        _ => desk.command(line),
    }
}

// The answer to a line of a script.
pub(crate) fn answer(desk: &mut Desk, line: &str) -> Result<String, Fail> {
    let (word, rest) = line.split_once(' ').unwrap_or((line, ""));
    match word {
        "claim" | "start" | "finish" => build(desk, word, rest),
        "undo" => desk.undo(number(rest)),
        "arrive" => desk.arrive(rest),
        "sweep" => desk.sweep(),
        "watch" => watch(desk, rest),
        "end" => desk.end(),
        "release" => desk.release(),
        _ => ask(desk, line),
    }
}

// The answer to a line that is asked once more, since its call lacked memory the first time. The
// desk has to be as it was before that call.
fn answer_again(desk: &mut Desk, before: &str, line: &str) -> Result<String, Fail> {
    let now = desk.whole()?;
    if now.as_str() != before {
        return Ok(String::from_str(desk.alloc, CHANGED)?);
    }
    answer(desk, line)
}

// The answer to a line, or if its call lacks memory, the answer the second time.
fn answer_with_memory(desk: &mut Desk, line: &str) -> Result<String, Fail> {
    let before = desk.whole()?;
    let told = answer(desk, line)?;
    if lacks_memory(told.as_str()) {
        return answer_again(desk, before.as_str(), line);
    }
    Ok(told)
}

fn answer_by(desk: &mut Desk, line: &str, tries: Tries) -> Result<String, Fail> {
    match tries {
        Tries::One => answer(desk, line),
        Tries::Two => answer_with_memory(desk, line),
    }
}

// The line of a script that is answered otherwise, with the answer.
fn otherwise(desk: &mut Desk, line: &str, tries: Tries) -> Result<Option<String>, Fail> {
    let Some((call, expected)) = line.split_once(" => ") else {
        return Err(Fail::from("a call"));
    };
    let told = answer_by(desk, call, tries)?;
    unlike(desk.alloc, line, expected, told.as_str())
}

// The first line of a script that is answered otherwise, with the answer; or the journal.
fn journal_of(desk: &mut Desk, script: &str, tries: Tries) -> Result<String, Fail> {
    for line in script.lines() {
        if let Some(other) = otherwise(desk, line, tries)? {
            return Ok(other);
        }
    }
    Ok(text(desk.alloc, desk.book.journal())?)
}

// The journal after a script at a desk that opens with these rows, over a journal if one is
// given; or its first line that is answered otherwise, with the answer.
pub(crate) fn journal_after(
    alloc: Global,
    opening: &str,
    journal: Option<&str>,
    script: &str,
    tries: Tries,
) -> Result<String, Fail> {
    match open_desk(alloc, opening, journal) {
        Ok(mut desk) => {
            let journal = journal_of(&mut desk, script, tries);
            drop(desk);
            journal
        }
        Err(fail) => Err(fail),
    }
}

// The rows with which a desk opens, a script, and the journal after it.
pub(crate) type Played<'t> = (&'t str, &'t str, &'t str);

pub(crate) fn are_played_with(
    rt: &impl Abort,
    alloc: Global,
    played: &[Played<'_>],
    tries: Tries,
) -> Result<(), Fail> {
    for (opening, script, journal) in played {
        let found = journal_after(alloc, opening, None, script, tries)?;
        assert_eq!(rt; found.as_str(), *journal);
    }
    Ok(())
}

pub(crate) fn are_played(
    rt: &impl Abort,
    alloc: Global,
    played: &[Played<'_>],
) -> Result<(), Fail> {
    are_played_with(rt, alloc, played, Tries::One)
}
