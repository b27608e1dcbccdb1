//! A crew: a clerk with builders.
ghost use Rattle.std.specs.Prelude.{◌≡◌, ◌+◌, ◌-◌, ◌≤◌, ◌<◌, ◌^◌, ◌∷◌, [], Err, IfErr, IfOk};
ghost use Rattle.std.specs.Prelude.{OnOk, length, option_map, true};
ghost use Rattle.td_desk.specs.Clerks.{all_parts, all_receipts};
ghost use Rattle.td_board.specs.Knowledge.{new_desk};
ghost use Rattle.td_board.specs.Limits.{max_builders};
ghost use Rattle.td_board.specs.Seats.{new_seats};
ghost use Rattle.td_relation.specs.TableView.{table};
ghost use Rattle.td_core.specs.Phases.{NoneBuilt};
ghost use Rattle.td_supply.specs.Supply.{opened, stock_of};
ghost use Rattle.td_script.specs.Asking.{IsFit, IsToldOf};
ghost use Rattle.td_script.specs.OpeningInside.{IsJournalFault};
ghost use Rattle.td_inputs.specs.Inputs.{IsJournalIfGiven};
ghost use Rattle.td_script.specs.Settings.{setting_lent};
ghost use Rattle.td_desk.specs.Calls.{IsOfDesk};
ghost use Rattle.td_desk.specs.Changes.{changes, still_undone};
ghost use Rattle.td_crew.specs.CrewText.{AreAnswered, EndsFrom, HasBegun, IsClosed};
ghost use Rattle.td_crew.specs.CrewText.{IsClosing, IsShift, IsShort, crew_tells, marks_begun};
ghost use Rattle.td_crew.specs.Lines.{FitAnyBook};

use crate::building::serve;
use crate::lines::Lines;
use crate::shift::Shift;
use crate::telling::{Telling, told_of};
use crate::told::tell_lines;
use crate::worker::{Worker, hire_workers};
use std::alloc::{AllocError, Global};
use std::marker::Brand;
use std::sync::Wait;
use std::sync::ledger::{Blank, Ledger};
use std::thread;
use std::thread::Threads;
use td_board::{Board, BuilderSeat, DeskSeat};
use td_book::Book;
use td_builder::Builds;
use td_desk::{Clerk, Desk, Homes, Named, PARTS, Shut};
use td_journal::ReadError;
use td_report::Transition;
use td_rows::Rows;
use td_script::{Asked, Reports, Staff, Told};
use td_supply::Supply;

/// A clerk with this many builders.
#[derive(Clone, Copy)]
pub struct Crew {
    pub builders: usize,
    ghost few: { builders ≤ max_builders },
}

impl Staff for Crew {
    ghost use Rattle.td_crew.specs.CrewText.{crew_tells};

    ghost tells = { λ crew. crew_tells crew.builders };
}

// The answers to the lines, and the clerk with its receipts for them; and that the desk is shut
// then, also if memory ran out.
fn tell_all<'s, N: Named, C: Ledger, T: Reports, R: Wait>(
    rt: &R,
    desk: &Desk<'_, N, C>,
    clerk: Clerk<C>,
    lines: &Lines<'s, '_, T>,
) -> Result<(Telling<'s, N>, Clerk<C>, Shut<N>), Shut<N>>
    requires fits { FitAnyBook T.fits lines.now.reports }
    requires archs { table lines.now.archs.now ≡ N.origin.stock.table }
    requires new { clerk.receipts ≡ [] }
    requires may_shut { N.may_shut ≡ true }
    ensures script { IfOk result (λ made. made.0.script.now ≡ lines.now.script.now) }
    ensures parts { IfOk result (λ made. made.1.parts ≡ clerk.parts) }
    ensures few { IfOk result (λ made. made.0.told.refused ≤ length lines.now.script.now + 1) }
    ensures told { IfOk result (λ made. AreAnswered N.table N.origin N.opened clerk.parts
        (setting_lent T.text N.origin.stock lines.now.suites.now lines.now.reports)
        lines.now.script.now made.1.receipts made.0.told) }
{
    let mut clerk = clerk;
    match tell_lines(rt, desk, &mut clerk, lines) {
        Ok(told) => Ok((told, clerk, desk.shut(rt))),
        Err(AllocError) => Err(desk.shut(rt)),
    }
}

// The answers to the lines while builders work on threads of their own, which are joined then. The
// desk is shut, whatever came of it.
fn tell_with_builders<'s, N: Named + Send + Sync, C: Ledger + Send + Sync, T: Reports>(
    rt: &(impl Threads + Wait + Sync),
    shift: &Shift<'_, '_, N, C>,
    clerk: Clerk<C>,
    workers: Vec<Worker<N>>,
    builds: impl Builds + Copy + Send + Sync,
    lines: &Lines<'s, '_, T>,
) -> Result<(Telling<'s, N>, Clerk<C>, Shut<N>), Shut<N>>
    requires fits { FitAnyBook T.fits lines.now.reports }
    requires archs { table lines.now.archs.now ≡ N.origin.stock.table }
    requires new { clerk.receipts ≡ [] }
    requires may_shut { N.may_shut ≡ true }
    ensures script { IfOk result (λ made. made.0.script.now ≡ lines.now.script.now) }
    ensures parts { IfOk result (λ made. made.1.parts ≡ clerk.parts) }
    ensures few { IfOk result (λ made. made.0.told.refused ≤ length lines.now.script.now + 1) }
    ensures told { IfOk result (λ made. AreAnswered N.table N.origin N.opened clerk.parts
        (setting_lent T.text N.origin.stock lines.now.suites.now lines.now.reports)
        lines.now.script.now made.1.receipts made.0.told) }
{
    thread::scope(
        thread::scope_env(),
        rt,
        |scope| -> Result<(Telling<'_, N>, Clerk<C>, Shut<N>), Shut<N>>
            requires fits { FitAnyBook T.fits lines.now.reports }
            requires archs { table lines.now.archs.now ≡ N.origin.stock.table }
            requires new { clerk.receipts ≡ [] }
            requires may_shut { N.may_shut ≡ true }
            ensures script { IfOk result (λ made.
                made.0.script.now ≡ lines.entry.now.script.now) }
            ensures parts { IfOk result (λ made. made.1.parts ≡ clerk.parts) }
            ensures few { IfOk result (λ made.
                made.0.told.refused ≤ length lines.entry.now.script.now + 1) }
            ensures told { IfOk result (λ made. AreAnswered N.table N.origin N.opened clerk.parts
                (setting_lent T.text N.origin.stock lines.entry.now.suites.now
                lines.entry.now.reports) lines.entry.now.script.now made.1.receipts made.0.told) }
        {
            for one in workers {
                // (a builder without a thread is missing)
                let _ = scope.spawn(move || serve(rt, shift, one, builds));
            }
            tell_all(rt, shift.desk, clerk, lines)
        },
    )
}

// The answers to the lines with builders on these seats, the clerk with its receipts for them, and
// who went home. Each builder who is missing is a refusal.
fn tell_in_shift<'s, N: Named + Send + Sync, C: Ledger + Send + Sync, T: Reports>(
    rt: &(impl Threads + Wait + Sync),
    desk: &Desk<'_, N, C>,
    clerk: Clerk<C>,
    seats: Vec<BuilderSeat>,
    builds: impl Builds + Copy + Send + Sync,
    lines: &Lines<'s, '_, T>,
) -> Result<(Telling<'s, N>, Clerk<C>, Homes<N>), AllocError>
    requires seats { seats.items ≡ new_seats N.table 1 (length seats.items) }
    requires few { length seats.items ≤ max_builders }
    requires staffed { N.origin.builders ≡ length seats.items }
    requires fits { FitAnyBook T.fits lines.now.reports }
    requires archs { table lines.now.archs.now ≡ N.origin.stock.table }
    requires new { clerk.receipts ≡ [] }
    requires may_shut { N.may_shut ≡ true }
    ensures script { IfOk result (λ made. made.0.script.now ≡ lines.now.script.now) }
    ensures parts { IfOk result (λ made. made.1.parts ≡ clerk.parts) }
    ensures few { IfOk result (λ made.
        made.0.told.refused ≤ length lines.now.script.now + length seats.items + 1) }
    ensures told { IfOk result (λ made. IsShift N.table N.origin N.opened clerk.parts
        (setting_lent T.text N.origin.stock lines.now.suites.now lines.now.reports)
        lines.now.script.now (length seats.items) (length seats.items - made.2.count)
        made.1.receipts made.0.told) }
{
    let (workers, homes) = hire_workers::<N>(lines.alloc, seats)?;
    let shift = Shift::new(desk, homes);
    match tell_with_builders(rt, &shift, clerk, workers, builds, lines) {
        Ok((mut told, clerk, _shut)) => {
            let homes = shift.end()?;
            told.miss(&homes);
            Ok((told, clerk, homes))
        }
        Err(_shut) => Err(AllocError),
    }
}

// A list of only this clerk.
fn alone<C: Ledger>(alloc: Global, clerk: Clerk<C>) -> Result<Vec<Clerk<C>>, AllocError>
    ensures { IfOk result (λ clerks. clerks.items ≡ clerk ∷ []) }
{
    let mut clerks = Vec::with_capacity(alloc, 1)?;
    clerks.push(clerk).map_err(AllocError::from)?;
    Ok(clerks)
}

// The book with which a desk is closed, and how many refusals that is: one if the receipts of
// these clerks differ from the book's changes.
fn closed<'a, N: Named, C: Ledger>(desk: Desk<'a, N, C>, clerks: Vec<Clerk<C>>) -> (Book<'a>, u64)
    ensures of_desk { IsOfDesk N.table N.origin result.0 }
    ensures still { still_undone result.0.history.journal N.opened ≡ true }
    ensures closed { IsClosing (all_receipts clerks.items) (changes N.opened result.0) result.1 }
    ensures counted { all_parts clerks.items ≡ 1024
        → length (all_receipts clerks.items) ≡ length (changes N.opened result.0) }
{
    let (book, refusals) = match desk.close(clerks) {
        Ok(book) => (book, 0),
        Err(differ) => (differ.book, 1),
    };
    // (`rows` says that the history is lawful)
    let _lawful = book.rows();
    (book, refusals)
}

// Closes the desk, and appends the rows of its book to the answers.
fn close<'s, N: Named, C: Ledger>(
    alloc: Global,
    desk: Desk<'_, N, C>,
    clerk: Clerk<C>,
    telling: Telling<'s, N>,
) -> Result<Telling<'s, N>, AllocError>
    requires room { telling.told.refused < 2 ^ 64 - 1 }
    requires parts { clerk.parts ≡ 1024 }
    ensures script { IfOk result (λ closed. closed.script ≡ telling.entry.script) }
    ensures closed { IfOk result (λ closed.
        IsClosed N.table N.origin N.opened clerk.receipts telling.entry.told closed.told) }
{
    let clerks = match alone(alloc, clerk) {
        Ok(clerks) => clerks,
        Err(error) => {
            drop(desk);
            return Err(error);
        }
    };
    let (book, refusals) = closed(desk, clerks);
    let closed = telling.close(alloc, &book, refusals);
    drop(book);
    closed
}

// What a crew at this desk answers to a script.
fn tell_at<'s, N: Named + Send + Sync, C: Ledger + Send + Sync, T: Reports>(
    rt: &(impl Threads + Wait + Sync),
    desk: Desk<'_, N, C>,
    clerk: Clerk<C>,
    seats: Vec<BuilderSeat>,
    builds: impl Builds + Copy + Send + Sync,
    lines: &Lines<'s, '_, T>,
) -> Result<Telling<'s, N>, AllocError>
    requires seats { seats.items ≡ new_seats N.table 1 (length seats.items) }
    requires few { length seats.items ≤ max_builders }
    requires staffed { N.origin.builders ≡ length seats.items }
    requires fits { FitAnyBook T.fits lines.now.reports }
    requires archs { table lines.now.archs.now ≡ N.origin.stock.table }
    requires new { clerk ≡ record { parts = 1024; receipts = [] } }
    requires opened { N.opened ≡ marks_begun N.origin.journal }
    requires short { IsShort N.origin.journal }
    requires may_shut { N.may_shut ≡ true }
    ensures script { IfOk result (λ telling. telling.script.now ≡ lines.now.script.now) }
    ensures told { IfOk result (λ telling. EndsFrom (length seats.items)
        (setting_lent T.text N.origin.stock lines.now.suites.now lines.now.reports)
        N.origin.journal N.origin.rows lines.now.script.now telling.told) }
{
    let (telling, clerk, _homes) = tell_in_shift(rt, &desk, clerk, seats, builds, lines)?;
    close(lines.alloc, desk, clerk, telling)
}

// The desk over these rows: before the first entry, or with the journal that is gone on with.
fn begin<'a, N: Named, C: Ledger>(
    alloc: Global,
    board: Board,
    seat: DeskSeat,
    rows: Rows,
    supply: Supply<'a>,
    blank: Blank,
    journal: Option<&str>,
) -> Result<(Desk<'a, N, C>, Clerk<C>), ReadError>
    requires board { board.table ≡ N.table }
    requires seat { seat.table ≡ N.table }
    requires origin { N.origin
        ≡ record {
          rows = rows;
          stock = stock_of supply;
          builders = length seat.desk.noted;
          journal = option_map (λ s. s.now) journal;
        } }
    requires opened { N.opened ≡ marks_begun (option_map (λ s. s.now) journal) }
    requires fresh_seat { seat.desk ≡ new_desk (length rows) (length seat.desk.noted) }
    requires idle { NoneBuilt rows }
    requires fresh_supply { supply ≡ opened (stock_of supply) }
    requires ledger { (blank.name ≡ C.name) × (blank.parts ≡ C.parts) × (blank.parts ≡ 1024) }
    ensures begun { OnOk result (HasBegun (option_map (λ s. s.now) journal.entry) rows) }
    ensures clerk { IfOk result (λ made. made.1 ≡ record { parts = 1024; receipts = [] }) }
    ensures short { OnOk result (IsShort (option_map (λ s. s.now) journal.entry)) }
    ensures fault { IfErr result (IsJournalFault rows (option_map (λ s. s.now) journal.entry)) }
    ensures only { IfErr result (λ fault.
        IsJournalIfGiven rows (option_map (λ s. s.now) journal.entry)
        → fault ≡ ReadError.NoMemory) }
{
    match journal {
        Some(text) => {
            // (a text's length is a `usize`)
            let _len = text.len();
            Desk::<N, C>::reopen(alloc, board, seat, rows, supply, blank, text)
        }
        None => match Desk::<N, C>::open(alloc, board, seat, rows, supply, blank) {
            Ok(made) => Ok(made),
            Err(AllocError) => Err(ReadError::NoMemory),
        },
    }
}

// What a crew answers to a script at a desk, if one was begun.
fn tell_if_begun<'s, N: Named + Send + Sync, C: Ledger + Send + Sync, T: Reports>(
    rt: &(impl Threads + Wait + Sync),
    begun: Result<(Desk<'_, N, C>, Clerk<C>), ReadError>,
    seats: Vec<BuilderSeat>,
    builds: impl Builds + Copy + Send + Sync,
    lines: &Lines<'s, '_, T>,
) -> Result<Telling<'s, N>, ReadError>
    requires seats { seats.items ≡ new_seats N.table 1 (length seats.items) }
    requires few { length seats.items ≤ max_builders }
    requires staffed { N.origin.builders ≡ length seats.items }
    requires fits { FitAnyBook T.fits lines.now.reports }
    requires archs { table lines.now.archs.now ≡ N.origin.stock.table }
    requires new { IfOk begun (λ made. made.1 ≡ record { parts = 1024; receipts = [] }) }
    requires opened { N.opened ≡ marks_begun N.origin.journal }
    requires short { OnOk begun (IsShort N.origin.journal) }
    requires may_shut { N.may_shut ≡ true }
    ensures script { IfOk result (λ telling. telling.script.now ≡ lines.now.script.now) }
    ensures told { IfOk result (λ telling. EndsFrom (length seats.items)
        (setting_lent T.text N.origin.stock lines.now.suites.now lines.now.reports)
        N.origin.journal N.origin.rows lines.now.script.now telling.told) }
    ensures refused { IfErr begun.entry (λ fault. result ≡ Err fault) }
    ensures memory { OnOk begun.entry (IfErr result (λ fault. fault ≡ ReadError.NoMemory)) }
{
    match begun {
        Ok((desk, clerk)) => match tell_at(rt, desk, clerk, seats, builds, lines) {
            Ok(telling) => Ok(telling),
            Err(AllocError) => Err(ReadError::NoMemory),
        },
        Err(fault) => Err(fault),
    }
}

// What a crew at the named board answers to a script.
fn tell_named<'s, N: Named + Send + Sync, C: Ledger + Send + Sync, T: Reports>(
    rt: &(impl Threads + Wait + Sync),
    board: Board,
    seat: DeskSeat,
    seats: Vec<BuilderSeat>,
    rows: Rows,
    supply: Supply<'_>,
    blank: Blank,
    builds: impl Builds + Copy + Send + Sync,
    lines: &Lines<'s, '_, T>,
) -> Result<Telling<'s, N>, ReadError>
    requires board { board.table ≡ N.table }
    requires seat { seat.table ≡ N.table }
    requires seats { seats.items ≡ new_seats N.table 1 (length seats.items) }
    requires few { length seats.items ≤ max_builders }
    requires staffed { length seat.desk.noted ≡ length seats.items }
    requires origin { N.origin
        ≡ record {
          rows = rows;
          stock = stock_of supply;
          builders = length seat.desk.noted;
          journal = option_map (λ s. s.now) lines.now.journal;
        } }
    requires opened { N.opened ≡ marks_begun (option_map (λ s. s.now) lines.now.journal) }
    requires fresh_seat { seat.desk ≡ new_desk (length rows) (length seat.desk.noted) }
    requires idle { NoneBuilt rows }
    requires fresh_supply { supply ≡ opened (stock_of supply) }
    requires ledger { (blank.name ≡ C.name) × (blank.parts ≡ C.parts) × (blank.parts ≡ 1024) }
    requires fits { FitAnyBook T.fits lines.now.reports }
    requires archs { table lines.now.archs.now ≡ (stock_of supply).table }
    requires may_shut { N.may_shut ≡ true }
    ensures begun { OnOk result (HasBegun (option_map (λ s. s.now) lines.now.journal) rows) }
    ensures script { IfOk result (λ telling. telling.script.now ≡ lines.now.script.now) }
    ensures told { IfOk result (λ telling. EndsFrom (length seats.items)
        (setting_lent T.text (stock_of supply.entry) lines.now.suites.now lines.now.reports)
        (option_map (λ s. s.now) lines.now.journal) rows lines.now.script.now telling.told) }
    ensures fault { IfErr result (IsJournalFault rows (option_map (λ s. s.now) lines.now.journal)) }
    ensures only { IfErr result (λ fault.
        IsJournalIfGiven rows (option_map (λ s. s.now) lines.now.journal)
        → fault ≡ ReadError.NoMemory) }
{
    let begun = begin::<N, C>(lines.alloc, board, seat, rows, supply, blank, lines.journal);
    tell_if_begun(rt, begun, seats, builds, lines)
}

/// What a crew answers to a script from these rows, or from the journal over them that is gone on
/// with. Each of its builders builds in this way, which is its own.
pub fn tell_script<B: Builds + Copy + Send + Sync, R: Threads + Wait + Sync>(
    rt: &R,
    crew: Crew,
    builds: B,
    asked: Asked,
) -> Result<Told, ReadError>
    requires { IsFit asked }
    ensures { IsToldOf (crew_tells crew.builders) asked.entry result }
{
    let Ok((board, seat, seats)) = Board::make(asked.alloc, asked.rows.len(), crew.builders) else {
        return Err(ReadError::NoMemory);
    };
    let supply = match asked.archive.supply() {
        Ok(supply) => supply,
        Err(AllocError) => return Err(ReadError::NoMemory),
    };
    let suites = [asked.suite];
    let lines = Lines {
        alloc: asked.alloc,
        archs: asked.archive.archs(),
        suites: suites.as_slice(),
        reports: asked.reports,
        journal: asked.journal,
        script: asked.script,
    };
    let telling = tell_named::<Brand, Brand, Transition<'_, '_, '_, '_>>(
        rt,
        board,
        seat,
        seats,
        asked.rows,
        supply,
        Blank::new(PARTS),
        builds,
        &lines,
    );
    told_of(telling)
}
