//! The texts of what a book and a desk answer, and what the words of a script say.
use std::alloc::{AllocError, Global};
use std::fmt::Debug;
use std::sync::ledger::Ledger;
use std::test::Fail;
use td_book::{Book, CommandRefusal, Job, StartRefusal, Taken, WatchRefusal};
use td_desk::{Clerk, Receipt};
use td_journal::{Marked, put_entry_line, text};
use td_naming::Skips;
use td_rows::{Key, Line, Outcome, Row, put_row_line, read_key, rows_text};

pub(crate) fn number(digits: &str) -> u64 {
    digits.parse::<u64>().unwrap_or(0)
}

// The key of `source/arch`.
pub(crate) fn key(alloc: Global, text: &str) -> Result<Key, Fail> {
    let (source, arch) = read_key(text).ok_or("a key")?;
    Ok(Key::new(alloc, source, arch)?)
}

// What an answer is called.
pub(crate) fn shown(alloc: Global, answer: &impl Debug) -> Result<String, Fail> {
    Ok(format!(in alloc; "{answer:?}")?)
}

// The line of a script, with the answer, if that isn't the expected one.
pub(crate) fn unlike(
    alloc: Global,
    line: &str,
    expected: &str,
    told: &str,
) -> Result<Option<String>, Fail> {
    if told == expected {
        return Ok(None);
    }
    Ok(Some(format!(in alloc; "{line}, but {told}")?))
}

// The outcome of `waits` and the relation.
fn waiting(alloc: Global, text: &str) -> Result<Outcome, Fail> {
    let relation = text.strip_prefix("waits ").ok_or("an outcome")?;
    Ok(Outcome::Waits(Line::new(alloc, relation)?))
}

// The outcome of a word, or of `waits` and the relation.
pub(crate) fn outcome(alloc: Global, text: &str) -> Result<Outcome, Fail> {
    match text {
        "built" => Ok(Outcome::Built),
        "attempted" => Ok(Outcome::Attempted),
        "givenback" => Ok(Outcome::GivenBack),
        _ => waiting(alloc, text),
    }
}

// The keys and reasons of skips, each after a comma.
fn put_skips(out: &mut String, skips: &Skips) -> Result<(), Fail> {
    for skip in skips.as_slice() {
        write!(out, ", {} {:?}", skip.key.as_str(), skip.reason)?;
    }
    Ok(())
}

pub(crate) fn spelled(alloc: Global, told: &Result<Taken, CommandRefusal>) -> Result<String, Fail> {
    let mut out = String::new(alloc);
    match told {
        Ok(taken) => {
            write!(&mut out, "entry {}", taken.number)?;
            put_skips(&mut out, &taken.skips)?;
        }
        Err(CommandRefusal::NothingApplies(skips)) => {
            out.push_str("NothingApplies")?;
            put_skips(&mut out, skips)?;
        }
        Err(CommandRefusal::NoMemory) => out.push_str("NoMemory")?,
    }
    Ok(out)
}

pub(crate) fn spelled_watch(
    alloc: Global,
    told: &Result<(), WatchRefusal>,
) -> Result<String, Fail> {
    let (word, key) = match told {
        Ok(()) => ("watched", ""),
        Err(WatchRefusal::NoSuchRow(key)) => ("NoSuchRow ", key.as_str()),
        Err(WatchRefusal::Twice(key)) => ("Twice ", key.as_str()),
        Err(WatchRefusal::BadGroup(key)) => ("BadGroup ", key.as_str()),
        Err(WatchRefusal::NoMemory) => ("NoMemory", ""),
    };
    Ok(format!(in alloc; "{word}{key}")?)
}

// What a job says.
pub(crate) fn job_text(alloc: Global, job: &Job) -> Result<String, AllocError> {
    format!(in alloc;
        "{} {} {} ({})",
        job.key.as_str(),
        job.version.as_str(),
        job.number.get(),
        job.extra.as_str()
    )
}

pub(crate) fn spelled_job(alloc: Global, told: &Result<Job, StartRefusal>) -> Result<String, Fail> {
    match told {
        Ok(job) => Ok(job_text(alloc, job)?),
        Err(refusal) => shown(alloc, refusal),
    }
}

// An entry as its line.
pub(crate) fn entry_line(
    alloc: Global,
    entry: Option<&Marked>,
    n: u64,
) -> Result<String, AllocError> {
    let mut out = String::new(alloc);
    match entry {
        Some(marked) => put_entry_line(&mut out, n, marked)?,
        None => out.push_str("none")?,
    }
    Ok(out)
}

// A row as its line.
pub(crate) fn row_line(alloc: Global, key: &Key, row: Option<&Row>) -> Result<String, AllocError> {
    let mut out = String::new(alloc);
    match row {
        Some(row) => put_row_line(&mut out, key, row)?,
        None => out.push_str("none")?,
    }
    Ok(out)
}

// The journal of a book, and its rows.
pub(crate) fn book_text(alloc: Global, book: &Book<'_>) -> Result<String, AllocError> {
    let journal = text(alloc, book.journal())?;
    let rows = rows_text(alloc, book.rows())?;
    format!(in alloc; "{journal}{rows}")
}

// The lines of a text as one, each before a bar.
pub(crate) fn on_one_line(alloc: Global, text: &str) -> Result<String, AllocError> {
    let mut out = String::new(alloc);
    for line in text.lines() {
        out.push_str(line)?;
        out.push('|')?;
    }
    Ok(out)
}

fn put_keys(out: &mut String, keys: &[Key]) -> Result<(), AllocError> {
    for key in keys {
        out.push(' ')?;
        out.push_str(key.as_str())?;
    }
    Ok(())
}

fn put_receipt(out: &mut String, receipt: &Receipt) -> Result<(), Fail> {
    let word = match receipt {
        Receipt::Made(_, _, _) => "made",
        Receipt::Swept(_) => "swept",
        Receipt::Undid(_) => "undid",
    };
    write!(out, " {word} {}", receipt.number())?;
    if let Receipt::Made(_, _, keys) = receipt {
        put_keys(out, keys.as_slice())?;
    }
    Ok(out.push(';')?)
}

fn put_clerk<C: Ledger>(out: &mut String, clerk: &Clerk<C>) -> Result<(), Fail> {
    write!(out, "[{}:", clerk.parts())?;
    for receipt in clerk.receipts() {
        put_receipt(out, receipt)?;
    }
    Ok(out.push(']')?)
}

// The parts of each clerk, and the receipts.
pub(crate) fn receipts<C: Ledger>(alloc: Global, clerks: &[Clerk<C>]) -> Result<String, Fail> {
    let mut out = String::new(alloc);
    for clerk in clerks {
        put_clerk(&mut out, clerk)?;
    }
    Ok(out)
}
