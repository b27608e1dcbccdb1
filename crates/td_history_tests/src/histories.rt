//! What no clause says: that steps succeed with ample memory, and that the definitions are those
//! of the field. The expected answers and rows are the project's own worked examples; those that
//! need no offers are run by the program (`examples/`).
ghost use Rattle.std.specs.Prelude.{◌≡◌, IfOk, OnOk, pos};
ghost use Rattle.td_rows.specs.declared.kind.Kind.{Kind as KindValue};
ghost use Rattle.td_rows.specs.Table.{AppliesOn};
ghost use Rattle.td_core.specs.History.{rows_of};
ghost use Rattle.td_core.specs.Phases.{NoneBuilt};
ghost use Rattle.td_supply.specs.Supply.{opened, stock_of};

use std::alloc::{AllocError, Global};
use std::test::Fail;
use td_core::{Answer, Books, Kept, KeyList, Refusal, Step, World, run};
use td_journal::{Entry, Keys, read, read_kind, text};
use td_relation::Archs;
use td_rows::{Key, Kind, Line, Priority, Rows, are_ascending, read_key, read_state, rows_text};
use td_supply::{Build, Supply};
use td_version::Version;

// The rows of a state file that is short.
pub(crate) fn rows(alloc: Global, text: &str) -> Result<Rows, Fail>
    ensures { IfOk result (λ rows. NoneBuilt rows) }
{
    if text.len() > 1000 {
        return Err(Fail::from("a longer text than the test reads"));
    }
    Ok(read_state(alloc, text)?)
}

// The key of `source/arch`.
fn key(alloc: Global, text: &str) -> Result<Key, Fail> {
    let (source, arch) = read_key(text).ok_or("a key")?;
    Ok(Key::new(alloc, source, arch)?)
}

// Keys with a space between them.
pub(crate) fn keys(alloc: Global, text: &str) -> Result<KeyList, Fail> {
    let mut keys = Vec::new(alloc);
    for word in text.split(' ') {
        keys.push(key(alloc, word)?)?;
    }
    Ok(KeyList::new(keys))
}

/// What a rebuild of the tests needs in addition, 24 bytes.
const REBUILT: &str = "libbar-dev (>= 2.0-1+b1)";

// A command: `dw` waits for libbar-dev, and `nmu` needs it rebuilt in addition.
fn kind(alloc: Global, word: &str) -> Result<Kind, Fail> {
    match word {
        "dw" => Ok(Kind::Dw(Line::new(alloc, "libbar-dev")?)),
        "nmu" => Ok(Kind::Nmu {
            number: None,
            extra: Line::new(alloc, REBUILT)?,
            message: Line::empty(alloc),
        }),
        _ => Ok(read_kind(alloc, word).ok_or("a kind")?),
    }
}

// A step of the desk by its word and what follows it.
fn step(alloc: Global, spelled: &str) -> Result<Step, Fail> {
    if spelled == "sweep" {
        return Ok(Step::Sweep);
    }
    let (word, rest) = spelled.split_once(' ').ok_or("a step")?;
    match word {
        "undo" => Ok(Step::Undo(rest.parse::<u64>()?)),
        "arrive" => Ok(Step::Arrive(key(alloc, rest)?)),
        _ => {
            let keys = keys(alloc, rest)?;
            Ok(Step::Commit(kind(alloc, word)?, keys))
        }
    }
}

// What a step is answered; a key as it is written.
#[derive(Clone, Copy)]
enum Told {
    Entry(u64),
    Undone(u64),
    Nothing,
    Blocked(u64),
    AlreadyUndone,
    NotACommand,
    NoSuchRow(&'static str),
    DoesNotApply(&'static str),
}

// Whether the answer is that.
fn is_told(answer: &Answer, told: Told) -> bool {
    match (told, answer) {
        (Told::Entry(n), Answer::Entry(found)) => n == *found,
        (Told::Undone(n), Answer::Undone(found)) => n == *found,
        (Told::Nothing, Answer::Nothing) => true,
        (Told::Blocked(n), Answer::Refused(Refusal::Blocked(found))) => n == *found,
        (Told::AlreadyUndone, Answer::Refused(Refusal::AlreadyUndone)) => true,
        (Told::NotACommand, Answer::Refused(Refusal::NotACommand)) => true,
        (Told::NoSuchRow(key), Answer::Refused(Refusal::NoSuchRow(Some(found)))) => {
            found.as_str() == key
        }
        (Told::DoesNotApply(key), Answer::Refused(Refusal::DoesNotApply(found))) => {
            found.as_str() == key
        }
        _ => false,
    }
}

// The steps of a table.
fn steps(alloc: Global, table: &[(&'static str, Told)]) -> Result<Vec<Step>, Fail> {
    let mut steps = Vec::new(alloc);
    for (spelled, _) in table {
        steps.push(step(alloc, spelled)?)?;
    }
    Ok(steps)
}

// The first line of a table with another answer, or with none.
fn otherwise(table: &[(&'static str, Told)], answers: &[Answer]) -> Option<&'static str> {
    for (at, (spelled, told)) in table.iter().enumerate() {
        match answers.get(at) {
            Some(answer) if is_told(answer, *told) => {}
            _ => return Some(*spelled),
        }
    }
    None
}

// The rows of a world; the line of the table that is answered otherwise, if one is.
fn rows_told(
    alloc: Global,
    world: &World<'_>,
    answers: &[Answer],
    table: &[(&'static str, Told)],
) -> Result<String, Fail> {
    match otherwise(table, answers) {
        Some(line) => Ok(String::from_str(alloc, line)?),
        None => Ok(rows_text(alloc, world.rows())?),
    }
}

// The rows after the steps of a table, from these rows on; the line that is answered otherwise, if
// one is.
fn rows_run(
    alloc: Global,
    opening: Rows,
    supply: Supply<'_>,
    steps: Vec<Step>,
    table: &[(&'static str, Told)],
) -> Result<String, Fail>
    requires supply { supply ≡ opened (stock_of supply) }
    requires opening { NoneBuilt opening }
{
    match run(alloc, opening, supply, 0, steps) {
        Ok((world, answers)) => {
            let told = rows_told(alloc, &world, answers.as_slice(), table);
            drop(answers);
            drop(world);
            told
        }
        Err(_) => Err(Fail::from("want of memory")),
    }
}

// What `rows_run` tells, from the rows of a state file.
fn rows_stepped(
    alloc: Global,
    supply: Supply<'_>,
    opening: &str,
    steps: Vec<Step>,
    table: &[(&'static str, Told)],
) -> Result<String, Fail>
    requires { supply ≡ opened (stock_of supply) }
{
    match rows(alloc, opening) {
        Ok(opening) => rows_run(alloc, opening, supply, steps, table),
        Err(fail) => {
            drop(steps);
            drop(supply);
            Err(fail)
        }
    }
}

// What `rows_run` tells of the steps of a table, from the rows of a state file.
fn rows_after(
    alloc: Global,
    supply: Supply<'_>,
    opening: &str,
    table: &[(&'static str, Told)],
) -> Result<String, Fail>
    requires { supply ≡ opened (stock_of supply) }
{
    match steps(alloc, table) {
        Ok(steps) => rows_stepped(alloc, supply, opening, steps, table),
        Err(fail) => {
            drop(supply);
            Err(fail)
        }
    }
}

const OPENING: &str = "bar/i386 Failed 0 2\nfoo/amd64 Built 0 1\n";

const BACK: [(&str, Told); 9] = [
    ("gb bar/i386", Told::Entry(1)),
    ("bp=7 bar/i386 foo/amd64", Told::Entry(2)),
    ("bp=9 foo/amd64", Told::Entry(3)),
    ("undo 2", Told::Blocked(3)),
    ("undo 3", Told::Undone(3)),
    ("undo 2", Told::Undone(2)),
    ("undo 2", Told::AlreadyUndone),
    ("undo 1", Told::Undone(1)),
    ("gb foo/i386", Told::NoSuchRow("foo/i386")),
];

#[test]
fn commands_are_undone_from_the_last_one_back(rt: HostRuntime) -> Result<(), Fail> {
    let rows = rows_after(rt.alloc(), Supply::empty(rt.alloc()), OPENING, &BACK)?;
    assert_eq!(rt; rows.as_str(), OPENING);
    Ok(())
}

// Puts the development files of a library on offer, on two architectures.
fn stock<'a>(supply: &mut Supply<'a>, base: Version<'a>) -> Result<(), AllocError>
    requires { supply.old ≡ opened (stock_of supply.old) }
    ensures { OnOk result (supply.new ≡ opened (stock_of supply.new)) }
{
    let build = Some(Build {
        source: "bar",
        base,
    });
    supply.push("libbar-dev", Some(base), Some(0), build)?;
    supply.push("libbar-dev", Some(base), Some(1), build)
}

fn library(alloc: Global) -> Result<Supply<'static>, Fail>
    ensures { IfOk result (λ supply. supply ≡ opened (stock_of supply)) }
{
    let base = Version::read("2.0-1")?;
    let archs = Archs::read(alloc, "amd64 linux amd64\ni386 linux i386")?;
    let mut supply = Supply::new(alloc, archs);
    match stock(&mut supply, base) {
        Ok(()) => Ok(supply),
        Err(_) => Err(Fail::from("want of memory")),
    }
}

const WAITING: &str = "\
bar/amd64 Uploaded 0 1
foo/amd64 Failed 0 0
qux/amd64 Installed 0 0
zot/i386 Dep-Wait 0 1 : libbar-dev (>= 2.0-1+b1)
";

const FREED: &str = "\
bar/amd64 Installed 0 1
foo/amd64 Failed 7 0
qux/amd64 Needs-Build 0 1 ;24 libbar-dev (>= 2.0-1+b1)
zot/i386 Dep-Wait 0 1 : libbar-dev (>= 2.0-1+b1)
";

const EXTRAS: [(&str, Told); 16] = [
    ("nmu qux/amd64", Told::Entry(1)),
    ("dw qux/amd64", Told::Entry(2)),
    ("dw foo/amd64", Told::Entry(3)),
    ("bp=7 foo/amd64", Told::Entry(4)),
    ("undo 3", Told::Undone(3)),
    ("sweep", Told::Nothing),
    ("arrive foo/amd64", Told::DoesNotApply("foo/amd64")),
    ("arrive bar/amd64", Told::Entry(5)),
    ("sweep", Told::Entry(6)),
    ("bp=5 qux/amd64", Told::Entry(7)),
    ("undo 2", Told::Blocked(6)),
    ("undo 1", Told::Blocked(6)),
    ("undo 7", Told::Undone(7)),
    ("undo 6", Told::NotACommand),
    ("undo 5", Told::NotACommand),
    ("sweep", Told::Nothing),
];

// The rows after these steps, with the library on offer.
fn rows_after_extras(alloc: Global) -> Result<String, Fail> {
    let supply = library(alloc)?;
    rows_after(alloc, supply, WAITING, &EXTRAS)
}

#[test]
fn a_rebuild_waits_for_what_it_needs_beside_it(rt: HostRuntime) -> Result<(), Fail> {
    let rows = rows_after_extras(rt.alloc())?;
    assert_eq!(rt; rows.as_str(), FREED);
    Ok(())
}

const GONE_ON: &str = "\
bar/amd64 Installed 0 1
foo/amd64 Failed 0 0
qux/amd64 Needs-Build 0 1 ;24 libbar-dev (>= 2.0-1+b1)
zot/i386 Dep-Wait 0 1 : libbar-dev (>= 2.0-1+b1)
";

// The books of a journal that is read again.
fn reopened(alloc: Global, opening: &str, journal: &str) -> Result<Books<'static>, Fail> {
    let opening = rows(alloc, opening)?;
    let journal = read(alloc, journal, &opening)?;
    Ok(Books::reopen(alloc, opening, library(alloc)?, journal)?)
}

// A rebuild on its way, one that was taken back, and the library's build that arrived.
const ARRIVED: &str = "\
transdesk journal 2
1 - nmu foo/amd64
2 + nmu qux/amd64 ;24 libbar-dev (>= 2.0-1+b1)
3 + dw qux/amd64 : libbar-dev
4 + arrive bar/amd64
";

// The rows once the wait is undone, of books whose journal is the one above.
fn rows_gone_on(alloc: Global, books: &mut Books<'_>) -> Result<String, Fail> {
    let again = text(alloc, books.journal())?;
    if again.as_str() != ARRIVED {
        return Err(Fail::from("the journal as it was"));
    }
    let freed = books.freed(alloc)?;
    if freed.len() != 1 {
        return Err(Fail::from("one row that the offers free"));
    }
    if !books.journal().can_be_undone(3) {
        return Err(Fail::from("a command that stands"));
    }
    if books.journal().blocker(3).is_some() {
        return Err(Fail::from("a command that nothing blocks"));
    }
    books.undo(3);
    Ok(rows_text(alloc, books.rows())?)
}

fn rows_reopened(alloc: Global, opening: &str, journal: &str) -> Result<String, Fail> {
    match reopened(alloc, opening, journal) {
        Ok(mut books) => {
            let rows = rows_gone_on(alloc, &mut books);
            drop(books);
            rows
        }
        Err(fail) => Err(fail),
    }
}

#[test]
fn a_journal_that_is_read_again_goes_on(rt: HostRuntime) -> Result<(), Fail> {
    let rows = rows_reopened(rt.alloc(), WAITING, ARRIVED)?;
    assert_eq!(rt; rows.as_str(), GONE_ON);
    Ok(())
}

// The history of a journal that is read again.
fn history(alloc: Global, opening: &str, journal: &str) -> Result<Kept, Fail> {
    let opening = rows(alloc, opening)?;
    let journal = read(alloc, journal, &opening)?;
    Ok(Kept::reopen(alloc, opening, journal)?)
}

// Whether a change is kept of the two commands that stand, and of no other of the four entries.
fn are_kept(kept: &Kept) -> bool {
    kept.change(1).is_none()
        && kept.change(2).is_some()
        && kept.change(3).is_some()
        && kept.change(4).is_none()
}

#[test]
fn of_a_history_that_is_read_again_standing_commands_are_kept(rt: HostRuntime) -> Result<(), Fail> {
    let kept = history(rt.alloc(), WAITING, ARRIVED)?;
    let are_kept = are_kept(&kept);
    drop(kept);
    assert!(rt; are_kept);
    Ok(())
}

// Keys of an entry, all with rows of the history.
fn keys_there(alloc: Global, kept: &Kept, text: &str) -> Result<Keys, Fail>
    ensures { IfOk result (λ keys.
        AppliesOn (rows_of kept.now.history) (KindValue.Bp (pos 0)) keys) }
{
    let keys = keys(alloc, text)?;
    if keys.as_slice().is_empty() || !are_ascending(keys.as_slice()) {
        return Err(Fail::from("keys that rise"));
    }
    let keys = keys.into_keys();
    if kept
        .rows()
        .applies_on(&Kind::Bp(Priority::zero()), keys.as_slice())
    {
        Ok(keys)
    } else {
        Err(Fail::from("keys with rows"))
    }
}

fn give_back_planned(alloc: Global, kept: &mut Kept, text: &str) -> Result<Option<u64>, Fail> {
    let keys = keys_there(alloc, kept, text)?;
    kept.reserve(1, keys.as_slice())?;
    let planned = kept.plan(Kind::Gb, keys)?;
    Ok(kept.commit(planned))
}

fn claim_reserved(kept: &mut Kept, key: &Key, alloc: Global) -> Result<u64, Fail> {
    let keys = Keys::of_one(alloc, key)?;
    if !kept.rows().applies_on(&Kind::Claim(1), keys.as_slice()) {
        return Err(Fail::from("a row that needs a build"));
    }
    kept.reserve(1, keys.as_slice())?;
    Ok(kept.append_reserved(Entry {
        kind: Kind::Claim(1),
        keys,
    }))
}

fn claim_named(alloc: Global, kept: &mut Kept, text: &str) -> Result<u64, Fail> {
    let key = key(alloc, text)?;
    claim_reserved(kept, &key, alloc)
}

const PLANNED: &str = "bar/amd64 Installed 0 0\nfoo/amd64 Failed 0 0\n";

// What is answered to a planned command that fits nowhere, to one that fits one row, and to a claim
// of that; and the rows then.
fn planned_answers(alloc: Global, kept: &mut Kept) -> Result<String, Fail> {
    let nothing = give_back_planned(alloc, kept, "bar/amd64")?;
    let entry = give_back_planned(alloc, kept, "bar/amd64 foo/amd64")?;
    let claim = claim_named(alloc, kept, "foo/amd64")?;
    if nothing.is_some() || entry != Some(1) || claim != 2 {
        return Err(Fail::from("other answers"));
    }
    Ok(rows_text(alloc, kept.rows())?)
}

fn rows_planned(alloc: Global, opening: &str) -> Result<String, Fail> {
    let rows = rows(alloc, opening)?;
    match Kept::open(alloc, rows) {
        Ok(mut kept) => {
            let answers = planned_answers(alloc, &mut kept);
            drop(kept);
            answers
        }
        Err(_) => Err(Fail::from("want of memory")),
    }
}

#[test]
fn a_planned_command_takes_the_keys_that_fit(rt: HostRuntime) -> Result<(), Fail> {
    let rows = rows_planned(rt.alloc(), PLANNED)?;
    assert_eq!(rt;
        rows.as_str(),
        "bar/amd64 Installed 0 0\nfoo/amd64 Building=1 0 0\n"
    );
    Ok(())
}
