//! Answers that change nothing.
ghost use Rattle.std.specs.Prelude.{◌≡◌, ◌++◌, IfOk, OnOk, length, option_map, slice_get};
ghost use Rattle.std.specs.List.{filter_map};
ghost use Rattle.std.specs.String.{string_bytes};
ghost use Rattle.td_rows.specs.Appending.{Grown};
ghost use Rattle.td_rows.specs.StateWriting.{state_text};
ghost use Rattle.td_core.specs.History.{rows_of};
ghost use Rattle.td_journal.specs.JournalText.{journal_text};
ghost use Rattle.td_script.specs.Replies.{Setting, asks, reports, says};
ghost use Rattle.td_lasting.specs.DeskAnswers.{readies};
ghost use Rattle.td_lasting.specs.DeskView.{IsShown, OnlyAsks};
ghost use Rattle.td_lasting.specs.Ready.{by_priority, is_known as is_known_arch, is_ready_on};
ghost use Rattle.td_lasting.specs.Ready.{queued_on, queued_text};
ghost use Rattle.td_lasting.specs.Terms.{AreTerms, setting_of};

use crate::terms::Terms;
use std::alloc::{AllocError, Global};
use td_book::sort_ready;
use td_core::Books;
use td_journal::put_journal;
use td_rows::{Key, Row, Rows, put_row_line, rows_text};
use td_script::{Request, put_asked_entry, put_asked_row, refuse};
use td_supply::Supply;

// Whether the row needs a build, on the architecture if one is named.
fn is_queued_on(key: &Key, row: &Row, arch: Option<&str>) -> bool
    ensures { result ≡ is_ready_on (option_map (λ a. a.now) arch.entry) (key.now, row.now) }
{
    let is_there = match arch {
        Some(arch) => key.arch() == arch,
        None => true,
    };
    is_there && row.state.needs_build()
}

// The numbers of the rows that need a build, greater priority first, then by key.
fn ready(alloc: Global, rows: &Rows, arch: Option<&str>) -> Result<Vec<usize>, AllocError>
    ensures rows { IfOk result (λ numbers. filter_map (slice_get rows.now) numbers.items
        ≡ by_priority (queued_on (option_map (λ a. a.now) arch.entry) rows.now)) }
    ensures each { IfOk result (λ numbers.
        length (filter_map (slice_get rows.now) numbers.items) ≡ length numbers.items) }
{
    let mut numbers = Vec::new(alloc);
    for number in 0..rows.len() {
        if let Some((key, row)) = rows.at(number) {
            if is_queued_on(key, row, arch) {
                numbers.push(number)?;
            }
        }
    }
    sort_ready(rows, &mut numbers);
    Ok(numbers)
}

fn put_rows_at(out: &mut String, rows: &Rows, numbers: &[usize]) -> Result<(), AllocError>
    ensures ok { OnOk result (string_bytes out.new ≡ string_bytes out.old
        ++ state_text (filter_map (slice_get rows.now) numbers.now)) }
    ensures front { Grown (string_bytes out.old) (string_bytes out.new) }
{
    for number in numbers {
        if let Some((key, row)) = rows.at(*number) {
            put_row_line(out, key, row)?;
            out.push_str("\n")?;
        }
    }
    Ok(())
}

// Tells rows that need a build, by their numbers, of which each is that of a row.
#[tactic(auto, using(td_rows::proofs::Appends::growing))]
fn put_queued(out: &mut String, rows: &Rows, numbers: &[usize]) -> Result<(), AllocError>
    requires { length (filter_map (slice_get rows.now) numbers.now) ≡ length numbers.now }
    ensures ok { OnOk result (string_bytes out.new ≡ string_bytes out.old
        ++ queued_text (filter_map (slice_get rows.now) numbers.now)) }
    ensures front { Grown (string_bytes out.old) (string_bytes out.new) }
{
    if numbers.is_empty() {
        out.push_str("nothing to build\n")
    } else {
        put_rows_at(out, rows, numbers)
    }
}

// Whether the table has the architecture, if one is named.
fn is_known(supply: &Supply<'_>, arch: Option<&str>) -> bool
    ensures { result ≡ is_known_arch supply.now.table (option_map (λ a. a.now) arch.entry) }
{
    match arch {
        Some(name) => supply.archs().index(name).is_some(),
        None => true,
    }
}

/// Tells the rows that need a build, of an architecture if one is named.
pub(crate) fn put_ready(
    alloc: Global,
    books: &Books<'_>,
    arch: Option<&str>,
    out: &mut String,
) -> Result<bool, AllocError>
    ensures ok { (s : Setting) → s.stock ≡ books.now.stock → IfOk result (IsShown
        (readies s books.now.history (option_map (λ a. a.now) arch.entry))
        (string_bytes out.old) (string_bytes out.new)) }
    ensures front { Grown (string_bytes out.old) (string_bytes out.new) }
{
    if !is_known(books.supply(), arch) {
        return refuse(out, "UnknownArch");
    }
    let numbers = ready(alloc, books.rows(), arch)?;
    put_queued(out, books.rows(), numbers.as_slice())?;
    Ok(false)
}

/// Tells all rows.
pub(crate) fn put_rows(
    alloc: Global,
    books: &Books<'_>,
    out: &mut String,
) -> Result<bool, AllocError>
    ensures ok { IfOk result (IsShown
        (says books.now.history (state_text (rows_of books.now.history)))
        (string_bytes out.old) (string_bytes out.new)) }
    ensures front { Grown (string_bytes out.old) (string_bytes out.new) }
{
    let text = rows_text(alloc, books.rows())?;
    out.push_str(text.as_str())?;
    Ok(false)
}

// Tells the report of the rows, where there is a tracker.
fn put_report(
    alloc: Global,
    books: &Books<'_>,
    terms: &Terms<'_, '_, '_, '_, '_, '_, '_>,
    out: &mut String,
) -> Result<bool, AllocError>
    requires { AreTerms terms.now }
    ensures ok { IfOk result (IsShown
        (reports books.now.history (setting_of books.now.stock terms.now).report)
        (string_bytes out.old) (string_bytes out.new)) }
    ensures front { Grown (string_bytes out.old) (string_bytes out.new) }
{
    match terms.reports {
        Some(transition) => {
            let text = transition.report(alloc, books.rows())?;
            out.push_str(text.as_str())?;
            Ok(false)
        }
        None => refuse(out, "NoTracker"),
    }
}

// Tells the journal.
fn put_entries(books: &Books<'_>, out: &mut String) -> Result<bool, AllocError>
    ensures ok { IfOk result (IsShown
        (says books.now.history (journal_text books.now.history.journal))
        (string_bytes out.old) (string_bytes out.new)) }
    ensures front { Grown (string_bytes out.old) (string_bytes out.new) }
{
    put_journal(out, books.journal())?;
    Ok(false)
}

/// Tells what a request of a script asks for; nothing where it asks for a change.
pub(crate) fn put_asked(
    alloc: Global,
    books: &Books<'_>,
    terms: &Terms<'_, '_, '_, '_, '_, '_, '_>,
    request: &Request,
    out: &mut String,
) -> Result<bool, AllocError>
    requires terms { AreTerms terms.now }
    requires asks { OnlyAsks request.now }
    ensures ok { IfOk result (IsShown
        (asks (setting_of books.now.stock terms.now) books.now.history request.now)
        (string_bytes out.old) (string_bytes out.new)) }
    ensures front { Grown (string_bytes out.old) (string_bytes out.new) }
{
    match request {
        Request::Row(key) => put_asked_row(out, key, books.rows().get(key)),
        Request::Entry(n) => put_asked_entry(out, *n, books.journal().entry(*n)),
        Request::Report => put_report(alloc, books, terms, out),
        Request::Journal => put_entries(books, out),
        Request::Undo(_) | Request::Arrive(_) | Request::Sweep => Ok(false),
    }
}
