//! The reader of scripts: a line is a call at the desk, and after `=>` its answer.
ghost use Rattle.std.specs.Prelude.{◌≡◌, true};

use crate::crew::{Style, crew};
use crate::overlap::work_together;
use crate::people::{People, command};
use crate::sample::TABLE;
use crate::spelling::{
    book_text, entry_line, key, number, on_one_line, outcome, receipts, row_line, shown, spelled,
    unlike,
};
use crate::tries::{CHANGED, Tries, lacks_memory};
use crate::turns::work_in_turn;
use std::alloc::{AllocError, Global};
use std::sync::Wait;
use std::sync::ledger::Ledger;
use std::test::Fail;
use std::thread::Threads;
use td_builder::Tells;
use td_desk::{Clerk, Desk, Named};
use td_journal::{EntryNo, text};
use td_relation::Archs;

// The answer to a command of a clerk.
fn take<N: Named, C: Ledger, R: Wait>(
    rt: &R,
    alloc: Global,
    desk: &Desk<'static, N, C>,
    clerk: &mut Clerk<C>,
    line: &str,
) -> Result<String, Fail> {
    let archs = Archs::read(alloc, TABLE)?;
    let told = command(rt, alloc, desk, clerk, &archs, line)?;
    spelled(alloc, &told)
}

// The answer to an arrival that a clerk reports.
fn arrive<N: Named, C: Ledger, R: Wait>(
    rt: &R,
    alloc: Global,
    desk: &Desk<'static, N, C>,
    clerk: &mut Clerk<C>,
    text: &str,
) -> Result<String, Fail> {
    let key = key(alloc, text)?;
    shown(alloc, &desk.arrive(rt, clerk, &key).answer())
}

// The answer to a clerk's call.
fn call<N: Named, C: Ledger, R: Wait>(
    rt: &R,
    alloc: Global,
    desk: &Desk<'static, N, C>,
    clerk: &mut Clerk<C>,
    line: &str,
) -> Result<String, Fail> {
    let (word, rest) = line.split_once(' ').unwrap_or((line, ""));
    match word {
        "undo" => shown(alloc, &desk.undo(rt, clerk, number(rest)).answer()),
        "arrive" => arrive(rt, alloc, desk, clerk, rest),
        "sweep" => shown(alloc, &desk.sweep(rt, clerk).answer()),
        _ => take(rt, alloc, desk, clerk, line),
    }
}

// The answer to the clerk in this place.
fn call_by<N: Named, C: Ledger, R: Wait>(
    rt: &R,
    desk: &Desk<'static, N, C>,
    people: &mut People<N, C>,
    place: usize,
    line: &str,
) -> Result<String, Fail> {
    let clerk = people.clerks.get_mut(place).ok_or("a clerk")?;
    call(rt, people.alloc, desk, clerk, line)
}

// The row that the desk has for a key, as its line.
fn row<N: Named, C: Ledger, R: Wait>(
    rt: &R,
    alloc: Global,
    desk: &Desk<'static, N, C>,
    text: &str,
) -> Result<String, Fail> {
    let key = key(alloc, text)?;
    Ok(desk.look(rt, |book| row_line(alloc, &key, book.row(&key)))?)
}

// The journal that the desk has.
fn journal<N: Named, C: Ledger, R: Wait>(
    rt: &R,
    alloc: Global,
    desk: &Desk<'static, N, C>,
) -> Result<String, Fail> {
    let told = desk.look(rt, |book| text(alloc, book.journal()))?;
    Ok(on_one_line(alloc, told.as_str())?)
}

// The entry that the desk has with a number, as its line.
fn entry<N: Named, C: Ledger, R: Wait>(
    rt: &R,
    alloc: Global,
    desk: &Desk<'static, N, C>,
    n: EntryNo,
) -> Result<String, Fail> {
    Ok(desk.look(rt, |book| entry_line(alloc, book.entry(n), n))?)
}

fn row_no<N: Named, C: Ledger>(
    alloc: Global,
    desk: &Desk<'static, N, C>,
    text: &str,
) -> Result<String, Fail> {
    let key = key(alloc, text)?;
    shown(alloc, &desk.row_no(&key))
}

fn key_at<N: Named, C: Ledger>(
    alloc: Global,
    desk: &Desk<'static, N, C>,
    row: usize,
) -> Result<String, Fail> {
    let name = match desk.key_at(row) {
        Some(key) => key.as_str(),
        None => "none",
    };
    Ok(String::from_str(alloc, name)?)
}

// How many rows of a group the desk's book watches that are Installed.
fn installed<N: Named, C: Ledger, R: Wait>(
    rt: &R,
    desk: &Desk<'static, N, C>,
    group: usize,
) -> Option<usize> {
    desk.look(rt, |book| book.installed(group))
}

// The numbers of the rows that wait for a builder.
fn ready<N: Named, C: Ledger, R: Wait>(
    rt: &R,
    desk: &Desk<'static, N, C>,
) -> Result<Vec<usize>, AllocError> {
    Ok(desk.ready(rt)?.answer())
}

// The answer to a line that asks something, or that is a call of the first clerk.
fn ask<N: Named, C: Ledger, R: Wait>(
    rt: &R,
    desk: &Desk<'static, N, C>,
    people: &mut People<N, C>,
    line: &str,
) -> Result<String, Fail> {
    let alloc = people.alloc;
    let (word, rest) = line.split_once(' ').unwrap_or((line, ""));
    match word {
        "row_no" => row_no(alloc, desk, rest),
        "key_at" => key_at(alloc, desk, number(rest) as usize),
        "row" => row(rt, alloc, desk, rest),
        "entry" => entry(rt, alloc, desk, number(rest)),
        "journal" => journal(rt, alloc, desk),
        "ready" => shown(alloc, &ready(rt, desk)),
        "installed" => shown(alloc, &installed(rt, desk, number(rest) as usize)),
        _ => call_by(rt, desk, people, 0, line),
    }
}

// Whether the last builder's claim of a key's row wins.
fn hold<N: Named, C: Ledger>(
    desk: &Desk<'static, N, C>,
    people: &mut People<N, C>,
    text: &str,
) -> Result<String, Fail> {
    let key = key(people.alloc, text)?;
    let row = desk.row_no(&key).ok_or("a row")?;
    shown(people.alloc, &people.hold(desk, row))
}

// The answer to the end of the last builder's build.
fn end<N: Named, C: Ledger, R: Wait>(
    rt: &R,
    desk: &Desk<'static, N, C>,
    people: &mut People<N, C>,
    text: &str,
) -> Result<String, Fail> {
    let outcome = outcome(people.alloc, text)?;
    shown(people.alloc, &people.end(rt, desk, outcome))
}

// The answer to a line by which clerks do something among themselves, or else to one that the desk
// answers.
fn meet<N: Named, C: Ledger, R: Wait>(
    rt: &R,
    desk: &Desk<'static, N, C>,
    people: &mut People<N, C>,
    line: &str,
) -> Result<String, Fail> {
    match line {
        "part" => shown(people.alloc, &people.part()),
        "join" => shown(people.alloc, &people.join()),
        "leave" => shown(people.alloc, &people.leave()),
        "give" => shown(people.alloc, &people.give()),
        "receipts" => receipts(people.alloc, &people.clerks),
        _ => ask(rt, desk, people, line),
    }
}

fn shut<N: Named, C: Ledger, R: Wait>(
    rt: &R,
    alloc: Global,
    desk: &Desk<'static, N, C>,
) -> Result<String, Fail>
    requires { N.may_shut ≡ true }
{
    desk.shut(rt);
    shown(alloc, &true)
}

// The answer to a line of a script.
fn answer<N: Named + Send + Sync, C: Ledger + Send + Sync, R: Threads + Wait + Sync>(
    rt: &R,
    desk: &Desk<'static, N, C>,
    people: &mut People<N, C>,
    line: &str,
) -> Result<String, Fail>
    requires { N.may_shut ≡ true }
{
    let (word, rest) = line.split_once(' ').unwrap_or((line, ""));
    match word {
        "shut" => shut(rt, people.alloc, desk),
        "work" => shown(people.alloc, &people.work_alone(rt, desk)),
        "turns" => work_in_turn(rt, desk, people, rest),
        "together" => shown(people.alloc, &work_together(rt, desk, people)),
        "beside" => crew(rt, desk, people, Style::Work, number(rest)),
        "against" => crew(rt, desk, people, Style::Claim, number(rest)),
        "second" => call_by(rt, desk, people, 1, rest),
        "hold" => hold(desk, people, rest),
        "end" => end(rt, desk, people, rest),
        _ => meet(rt, desk, people, line),
    }
}

// The journal, the rows, and what each clerk has.
fn whole<N: Named, C: Ledger, R: Wait>(
    rt: &R,
    desk: &Desk<'static, N, C>,
    people: &People<N, C>,
) -> Result<String, Fail> {
    let alloc = people.alloc;
    let clerks = receipts(alloc, &people.clerks)?;
    let book = desk.look(rt, |book| book_text(alloc, book))?;
    Ok(format!(in alloc; "{clerks}{book}")?)
}

// The answer to a line that is asked once more, since its call lacked memory the first time. All
// has to be as it was before that call.
fn answer_again<N: Named + Send + Sync, C: Ledger + Send + Sync, R: Threads + Wait + Sync>(
    rt: &R,
    desk: &Desk<'static, N, C>,
    people: &mut People<N, C>,
    before: &str,
    line: &str,
) -> Result<String, Fail>
    requires { N.may_shut ≡ true }
{
    let now = whole(rt, desk, people)?;
    if now.as_str() != before {
        return Ok(String::from_str(people.alloc, CHANGED)?);
    }
    answer(rt, desk, people, line)
}

// The answer to a line, or if its call lacks memory, the answer the second time.
fn answer_with_memory<N: Named + Send + Sync, C: Ledger + Send + Sync, R: Threads + Wait + Sync>(
    rt: &R,
    desk: &Desk<'static, N, C>,
    people: &mut People<N, C>,
    line: &str,
) -> Result<String, Fail>
    requires { N.may_shut ≡ true }
{
    let before = whole(rt, desk, people)?;
    let told = answer(rt, desk, people, line)?;
    if lacks_memory(told.as_str()) {
        return answer_again(rt, desk, people, before.as_str(), line);
    }
    Ok(told)
}

fn answer_by<N: Named + Send + Sync, C: Ledger + Send + Sync, R: Threads + Wait + Sync>(
    rt: &R,
    desk: &Desk<'static, N, C>,
    people: &mut People<N, C>,
    line: &str,
    tries: Tries,
) -> Result<String, Fail>
    requires { N.may_shut ≡ true }
{
    match tries {
        Tries::One => answer(rt, desk, people, line),
        Tries::Two => answer_with_memory(rt, desk, people, line),
    }
}

// The line of a script that is answered otherwise, with the answer.
fn otherwise<N: Named + Send + Sync, C: Ledger + Send + Sync, R: Threads + Wait + Sync>(
    rt: &R,
    desk: &Desk<'static, N, C>,
    people: &mut People<N, C>,
    line: &str,
    tries: Tries,
) -> Result<Option<String>, Fail>
    requires { N.may_shut ≡ true }
{
    let Some((call, expected)) = line.split_once(" => ") else {
        return Err(Fail::from("a call"));
    };
    let told = answer_by(rt, desk, people, call, tries)?;
    unlike(people.alloc, line, expected, told.as_str())
}

// The first line of a script that is answered otherwise, with the answer.
pub(crate) fn first_otherwise<
    N: Named + Send + Sync,
    C: Ledger + Send + Sync,
    R: Threads + Wait + Sync,
>(
    rt: &R,
    desk: &Desk<'static, N, C>,
    people: &mut People<N, C>,
    script: &str,
    tries: Tries,
) -> Result<Option<String>, Fail>
    requires { N.may_shut ≡ true }
{
    for line in script.lines() {
        if let Some(other) = otherwise(rt, desk, people, line, tries)? {
            return Ok(Some(other));
        }
    }
    Ok(None)
}
