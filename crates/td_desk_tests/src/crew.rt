//! Builders on threads of their own, and clerks who command and undo by a fixed sequence of
//! numbers.
ghost use Rattle.std.specs.Prelude.{◌≡◌, true};

use crate::people::{People, build, command, work_of};
use crate::sample::{TABLE, next_number};
use crate::tally::{Answer, Tally};
use std::alloc::Global;
use std::sync::ledger::Ledger;
use std::sync::{Mutex, Wait};
use std::test::Fail;
use std::thread::Threads;
use std::{mem, thread};
use td_book::{Book, CommandRefusal, Taken, UndoRefusal};
use td_builder::Tells;
use td_desk::{Clerk, Desk, Hired, Homes, Named, Receipt};
use td_journal::EntryNo;
use td_relation::Archs;
use td_rows::Key;

// How many rows the builders claim.
const ROWS: usize = 4;

const VERBS: [&str; 5] = ["gb", "bp 5", "bp -5", "nmu", "nmu"];

const TAILS: [&str; 4] = ["foo . ANY", "bar . ANY", "foo bar . ANY", "foo bar . amd64"];

// How builders come to rows: by their work, or by a claim of row after row without pause.
#[derive(Clone, Copy, PartialEq, Eq)]
pub(crate) enum Style {
    Work,
    Claim,
}

// Claims each row once, and builds what was won.
fn claim_each<N: Named, C: Ledger, R: Wait>(
    rt: &R,
    desk: &Desk<'static, N, C>,
    hired: &mut Hired<N>,
    tally: &Tally,
) {
    for row in 0..ROWS {
        if !desk.claim(row, &mut hired.seat) {
            continue;
        }
        if build(rt, desk, hired, row, tally.outcome()) {
            tally.finish(1);
        } else {
            tally.note(Answer::Wrong);
        }
    }
}

// Claims row after row, until the clerks are done.
fn claim_on<N: Named, C: Ledger, R: Wait>(
    rt: &R,
    desk: &Desk<'static, N, C>,
    hired: &mut Hired<N>,
    tally: &Tally,
) {
    for _ in rt.forever() {
        claim_each(rt, desk, hired, tally);
        if tally.has_ended() {
            break;
        }
    }
}

// A builder, on a thread.
fn serve<N: Named, C: Ledger, R: Wait>(
    rt: &R,
    desk: &Desk<'static, N, C>,
    hired: Hired<N>,
    style: Style,
    tally: &Tally,
    homes: &Mutex<Homes<N>>,
) {
    let (mut hired, mut builds) = (hired, tally);
    match style {
        Style::Claim => claim_on(rt, desk, &mut hired, tally),
        Style::Work => match work_of(rt, desk, hired, &mut builds, homes).0 {
            Ok(built) => tally.finish(built),
            Err(_) => tally.note(Answer::Wrong),
        },
    }
}

// The keys of an entry; none if there is no such entry.
fn keys_of<'b>(book: &'b Book<'_>, n: EntryNo) -> &'b [Key] {
    match book.entry(n) {
        Some(marked) => marked.entry.keys.as_slice(),
        None => &[],
    }
}

fn is_in(key: &Key, keys: &[Key]) -> bool {
    keys.iter().any(|other| *other == *key)
}

// Whether two entries have a row in common.
fn have_a_row_in_common(book: &Book<'_>, n: EntryNo, m: EntryNo) -> bool {
    let keys = keys_of(book, m);
    keys_of(book, n).iter().any(|key| is_in(key, keys))
}

// Whether one of the receipts says that the entry was undone.
fn has_undone(receipts: &[Receipt], n: EntryNo) -> bool {
    receipts
        .iter()
        .any(|receipt| matches!(receipt, Receipt::Undid(m) if *m == n))
}

// An undo is accepted, blocked by a later entry on one of its rows, or was made before.
fn undo<N: Named, C: Ledger, R: Wait>(
    rt: &R,
    desk: &Desk<'static, N, C>,
    clerk: &mut Clerk<C>,
    n: EntryNo,
) -> Answer {
    let before = has_undone(clerk.receipts(), n);
    let lawful = match desk.undo(rt, clerk, n).answer() {
        Ok(()) if !before => return Answer::Accepted,
        Err(UndoRefusal::Blocked(m)) => {
            !before && m > n && desk.look(rt, |book| have_a_row_in_common(book, n, m))
        }
        Err(UndoRefusal::AlreadyUndone) => before,
        _ => false,
    };
    if lawful {
        Answer::Refused
    } else {
        Answer::Wrong
    }
}

// The number of the clerk's command that is this many back.
fn own(receipts: &[Receipt], back: u64) -> Option<EntryNo> {
    receipts
        .iter()
        .rev()
        .filter(|receipt| matches!(receipt, Receipt::Made(_, _, _)))
        .nth(back as usize)
        .map(|receipt| receipt.number())
}

fn has_entry<N: Named, C: Ledger, R: Wait>(rt: &R, desk: &Desk<'static, N, C>, n: EntryNo) -> bool {
    desk.look(rt, |book| book.entry(n).is_some())
}

// A command makes the entry that it answers, or skips each row that it names.
fn judged<N: Named, C: Ledger, R: Wait>(
    rt: &R,
    desk: &Desk<'static, N, C>,
    told: &Result<Taken, CommandRefusal>,
) -> Answer {
    match told {
        Ok(taken) if has_entry(rt, desk, taken.number) => Answer::Accepted,
        Err(CommandRefusal::NothingApplies(skips)) if skips.as_slice().len() > 1 => Answer::Refused,
        _ => Answer::Wrong,
    }
}

// The command line for a number.
fn line(alloc: Global, number: u64) -> Option<String> {
    let verb = VERBS.get((number % 5) as usize)?;
    let tail = TAILS.get((number / 5 % 4) as usize)?;
    format!(in alloc; "{verb} {tail}").ok()
}

// An undo of the clerk's command that is this many back; a refusal if there is none.
fn undo_own<N: Named, C: Ledger, R: Wait>(
    rt: &R,
    desk: &Desk<'static, N, C>,
    clerk: &mut Clerk<C>,
    back: u64,
) -> Answer {
    match own(clerk.receipts(), back) {
        Some(n) => undo(rt, desk, clerk, n),
        None => Answer::Refused,
    }
}

// The command for a number.
fn take<N: Named, C: Ledger, R: Wait>(
    rt: &R,
    alloc: Global,
    desk: &Desk<'static, N, C>,
    clerk: &mut Clerk<C>,
    archs: &Archs<'_>,
    number: u64,
) -> Answer {
    let Some(line) = line(alloc, number) else {
        return Answer::Wrong;
    };
    match command(rt, alloc, desk, clerk, archs, line.as_str()) {
        Ok(told) => judged(rt, desk, &told),
        Err(_) => Answer::Wrong,
    }
}

// A call for a number: a command on one source or both, or an undo of one of the clerk's own.
fn call<N: Named, C: Ledger, R: Wait>(
    rt: &R,
    alloc: Global,
    desk: &Desk<'static, N, C>,
    clerk: &mut Clerk<C>,
    archs: &Archs<'_>,
    number: u64,
) -> Answer {
    let rest = number / 3;
    if number % 3 == 0 {
        undo_own(rt, desk, clerk, rest % 8)
    } else {
        take(rt, alloc, desk, clerk, archs, rest)
    }
}

// This many calls of a clerk, and some more if the builders haven't built much by then.
fn call_often<N: Named, C: Ledger, R: Wait>(
    rt: &R,
    alloc: Global,
    desk: &Desk<'static, N, C>,
    clerk: &mut Clerk<C>,
    calls: u64,
    tally: &Tally,
) {
    let Ok(archs) = Archs::read(alloc, TABLE) else {
        return tally.note(Answer::Wrong);
    };
    let mut number = clerk.parts();
    for count in 0..1_000_000u64 {
        if count >= calls && tally.is_busy() {
            return;
        }
        number = next_number(number);
        tally.note(call(rt, alloc, desk, clerk, &archs, number >> 20));
    }
}

// The calls of two clerks at the same time.
fn call_both<N: Named + Send + Sync, C: Ledger + Send + Sync, R: Threads + Wait + Sync>(
    rt: &R,
    alloc: Global,
    desk: &Desk<'static, N, C>,
    first: &mut Clerk<C>,
    second: &mut Clerk<C>,
    calls: u64,
    tally: &Tally,
) {
    thread::join(
        rt,
        || call_often(rt, alloc, desk, first, calls, tally),
        || call_often(rt, alloc, desk, second, calls, tally),
    );
}

// The calls of one clerk, or of two.
fn call_all<N: Named + Send + Sync, C: Ledger + Send + Sync, R: Threads + Wait + Sync>(
    rt: &R,
    alloc: Global,
    desk: &Desk<'static, N, C>,
    clerks: &mut Vec<Clerk<C>>,
    calls: u64,
    tally: &Tally,
) {
    let Some((first, rest)) = clerks.split_first_mut() else {
        return;
    };
    match rest.first_mut() {
        Some(second) => call_both(rt, alloc, desk, first, second, calls, tally),
        None => call_often(rt, alloc, desk, first, calls, tally),
    }
}

// The calls of the clerks while each builder is on a thread.
fn call_among_builders<N: Named + Send + Sync, C: Ledger + Send + Sync, R: Threads + Wait + Sync>(
    rt: &R,
    alloc: Global,
    desk: &Desk<'static, N, C>,
    clerks: &mut Vec<Clerk<C>>,
    builders: Vec<Hired<N>>,
    style: Style,
    calls: u64,
    tally: &Tally,
    homes: &Mutex<Homes<N>>,
)
    requires { N.may_shut ≡ true }
{
    thread::scope(
        thread::scope_env(),
        rt,
        |scope|
            requires { N.may_shut ≡ true }
        {
            for one in builders {
                if scope
                    .spawn(move || serve(rt, desk, one, style, tally, homes))
                    .is_err()
                {
                    tally.note(Answer::Wrong);
                }
            }
            call_all(rt, alloc, desk, clerks, calls, tally);
            tally.end();
            desk.shut(rt);
        },
    );
}

// What was counted over this many calls of each clerk while all builders build, who are gone then.
pub(crate) fn crew<N: Named + Send + Sync, C: Ledger + Send + Sync, R: Threads + Wait + Sync>(
    rt: &R,
    desk: &Desk<'static, N, C>,
    people: &mut People<N, C>,
    style: Style,
    calls: u64,
) -> Result<String, Fail>
    requires { N.may_shut ≡ true }
{
    let alloc = people.alloc;
    let builders = mem::replace(&mut people.builders, Vec::new(alloc));
    let tally = Tally::new();
    call_among_builders(
        rt,
        alloc,
        desk,
        &mut people.clerks,
        builders,
        style,
        calls,
        &tally,
        &people.homes,
    );
    tally.told(alloc, calls)
}
