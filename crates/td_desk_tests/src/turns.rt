//! A builder and a clerk in turn, on one thread: each time the builder has tried what was ready,
//! the clerk makes the next call. After the last the desk is shut, and the builder goes home.
ghost use Rattle.std.specs.Prelude.{◌≡◌, true, IfErr, IfOk, OnErr, OnOk, OnSome};
ghost use Rattle.td_builder.specs.Floors.{IsHolding, IsFinished, IsRefused};
ghost use Rattle.td_desk.specs.Calls.{IsAtEnd, MayBeReady, MayEnd, MayStart};

use crate::people::{People, command};
use crate::sample::TABLE;
use crate::spelling::{job_text, number, row_line};
use std::alloc::{AllocError, Global};
use std::sync::ledger::Ledger;
use std::sync::{Mutex, Wait};
use std::test::Fail;
use td_board::BuilderSeat;
use td_book::{FinishRefusal, Job};
use td_builder::{Builds, Floor, Outcomes, Tells, WorkStop, work};
use td_desk::{Clerk, Desk, Hired, Home, Homes, Named, Ready, Started};
use td_journal::EntryNo;
use td_relation::Archs;
use td_rows::{Key, Outcome, read_key};

// The entry of a clerk's command.
fn take<N: Named, C: Ledger, R: Wait>(
    rt: &R,
    alloc: Global,
    desk: &Desk<'static, N, C>,
    clerk: &mut Clerk<C>,
    line: &str,
) -> Option<EntryNo> {
    let archs = Archs::read(alloc, TABLE).ok()?;
    match command(rt, alloc, desk, clerk, &archs, line) {
        Ok(Ok(taken)) => Some(taken.number),
        _ => None,
    }
}

// The entry of an arrival that a clerk reports.
fn arrive<N: Named, C: Ledger, R: Wait>(
    rt: &R,
    alloc: Global,
    desk: &Desk<'static, N, C>,
    clerk: &mut Clerk<C>,
    text: &str,
) -> Option<EntryNo> {
    let (source, arch) = read_key(text)?;
    let key = Key::new(alloc, source, arch).ok()?;
    desk.arrive(rt, clerk, &key).answer().ok()
}

// The entry that a clerk undoes.
fn undo<N: Named, C: Ledger, R: Wait>(
    rt: &R,
    desk: &Desk<'static, N, C>,
    clerk: &mut Clerk<C>,
    n: EntryNo,
) -> Option<EntryNo> {
    match desk.undo(rt, clerk, n).answer() {
        Ok(()) => Some(n),
        Err(_) => None,
    }
}

// The entry that a clerk's call makes or undoes; none if it is refused, or finds nothing.
fn call<N: Named, C: Ledger, R: Wait>(
    rt: &R,
    alloc: Global,
    desk: &Desk<'static, N, C>,
    clerk: &mut Clerk<C>,
    line: &str,
) -> Option<EntryNo> {
    let (word, rest) = line.split_once(' ').unwrap_or((line, ""));
    match word {
        "undo" => undo(rt, desk, clerk, number(rest)),
        "arrive" => arrive(rt, alloc, desk, clerk, rest),
        "sweep" => desk.sweep(rt, clerk).answer().ok()?,
        _ => take(rt, alloc, desk, clerk, line),
    }
}

// The clerk's day.
#[derive(Drop)]
struct Day<'t, C: Ledger> {
    clerk: Clerk<C>,
    // The calls that are left.
    left: &'t str,
    // Whether each finish is refused, though the desk takes it.
    refuses: bool,
}

// Appends the entry of a call.
fn tell_entry(told: &mut String, made: Option<EntryNo>) {
    let _ = match made {
        Some(n) => write!(told, "entry {n}|"),
        None => write!(told, "no entry|"),
    };
}

impl<'t, C: Ledger> Day<'t, C> {
    // The next call; none after the last.
    fn next_call(&mut self) -> Option<&'t str> {
        if self.left.is_empty() {
            return None;
        }
        let (line, left) = self.left.split_once("; ").unwrap_or((self.left, ""));
        self.left = left;
        Some(line)
    }

    // Makes the next call, and appends its entry. Whether there was one.
    fn go_on<N: Named, R: Wait>(
        &mut self,
        rt: &R,
        alloc: Global,
        desk: &Desk<'static, N, C>,
        told: &Mutex<String>,
    ) -> bool {
        let Some(line) = self.next_call() else {
            return false;
        };
        if line == "refuse" {
            self.refuses = true;
            return true;
        }
        let made = call(rt, alloc, desk, &mut self.clerk, line);
        tell_entry(&mut told.lock(rt), made);
        true
    }
}

// Builds that end as the outcome lines say. Before each ends, its job is appended, and its row
// as the desk has it.
#[derive(Drop)]
struct Jobs<'d, N: Named, C: Ledger> {
    alloc: Global,
    desk: &'d Desk<'static, N, C>,
    outcomes: &'d Outcomes,
    told: &'d Mutex<String>,
}

impl<'d, N: Named, C: Ledger> Jobs<'d, N, C> {
    fn text<R: Wait>(&self, rt: &R, job: &Job) -> Result<String, AllocError> {
        let alloc = self.alloc;
        let key = &job.key;
        let row = self
            .desk
            .look(rt, |book| row_line(alloc, key, book.row(key)))?;
        let job = job_text(alloc, job)?;
        format!(in alloc; "{job} of {row}|")
    }
}

impl<'d, N: Named, C: Ledger> Builds for Jobs<'d, N, C> {
    ghost goes_on = { λ jobs job outcome after. Unit {0} };

    fn build<R: Wait>(&mut self, rt: &R, job: Job) -> Outcome {
        // (what lacks memory isn't appended, and is missing then)
        if let Ok(text) = self.text(rt, &job) {
            let _ = self.told.lock(rt).push_str(text.as_str());
        }
        Builds::build(&mut self.outcomes, rt, job)
    }
}

// The answer to the end of a build here, as the day has it.
struct TurnsEnd {
    answer: Result<EntryNo, FinishRefusal>,
}

impl Tells<Result<EntryNo, FinishRefusal>> for TurnsEnd {
    ghost tells = { λ end. end.answer };

    fn answer(self) -> Result<EntryNo, FinishRefusal> {
        let TurnsEnd { answer } = self;
        answer
    }
}

// A desk, at which the clerk makes a call whenever the builder asks for work.
#[derive(Drop)]
struct Turns<'d, 't, N: Named, C: Ledger> {
    alloc: Global,
    desk: &'d Desk<'static, N, C>,
    told: &'d Mutex<String>,
    day: Mutex<Day<'t, C>>,
    ghost may_shut: { N.may_shut ≡ true },
}

impl<'d, 't, N: Named, C: Ledger> Turns<'d, 't, N, C> {
    // The clerk, at the end of the day.
    fn into_clerk(self) -> Clerk<C> {
        let Turns { day, .. } = self;
        let Day { clerk, .. } = day.into_inner();
        clerk
    }
}

impl<'d, 't, N: Named, C: Ledger> Floor for Turns<'d, 't, N, C> {
    ghost use Rattle.td_desk.specs.Calls.{IsAtEnd, MayBeReady, MayEnd, MayStart};

    type Home = Home<N>;

    type Offer = Ready<N>;

    type Started = Started<N>;

    type Ended = TurnsEnd;

    type Stopped = WorkStop;

    ghost table = { λ turns. N.table };

    ghost rows = { λ turns. turns.desk.now.board.rows };

    ghost offers = { λ turns seat. MayBeReady N.table N.origin };

    ghost jobs = { λ turns. MayStart N.table N.origin };

    ghost ends = { λ turns. MayEnd N.table N.origin };

    ghost breaks_off = { λ turns seat outcome. Unit {0} };

    ghost ended = { λ turns. IsAtEnd N.table N.origin };

    ghost stopped = { λ turns why. Unit {0} };

    ghost reason = { λ why. why };

    fn ready<R: Wait>(&self, rt: &R, _seat: &BuilderSeat) -> Result<Ready<N>, AllocError>
        ensures offered { IfOk result (λ ready. MayBeReady N.table N.origin ready.numbers.items) }
        ensures err { OnErr result (Unit {0}) }
    {
        self.desk.ready(rt)
    }

    fn claim(&self, row: usize, seat: &mut BuilderSeat) -> bool {
        self.desk.claim(row, seat)
    }

    fn start<R: Wait>(&self, rt: &R, seat: &BuilderSeat) -> Started<N>
        requires { seat.now.table ≡ N.table }
        ensures job { IfOk result.answer (MayStart N.table N.origin seat.now) }
        ensures err { IfErr result.answer (λ e. Unit {0}) }
    {
        Floor::start(self.desk, rt, seat)
    }

    fn finish<R: Wait>(&self, rt: &R, seat: &mut BuilderSeat, outcome: Outcome) -> TurnsEnd
        requires table { seat.old.table ≡ N.table }
        requires hand { IsHolding seat.old }
        ensures ok { OnOk result.answer
            (IsFinished (MayEnd N.table N.origin) outcome seat.old seat.new) }
        ensures seat { OnErr result.answer
            (IsRefused (λ seat outcome. Unit {0}) outcome seat.old seat.new) }
        ensures err { IfErr result.answer (λ e. Unit {0}) }
    {
        let refuses = self.day.lock(rt).refuses;
        match Floor::finish(self.desk, rt, seat, outcome).answer() {
            Ok(_) if refuses => TurnsEnd {
                answer: Err(FinishRefusal::Mismatch),
            },
            answer => TurnsEnd { answer },
        }
    }

    fn wait_for_work<R: Wait>(&self, rt: &R) -> Option<Home<N>>
        ensures ended { OnSome result (IsAtEnd N.table N.origin) }
    {
        if self
            .day
            .lock(rt)
            .go_on(rt, self.alloc, self.desk, self.told)
        {
            return None;
        }
        self.desk.shut(rt);
        Floor::wait_for_work(self.desk, rt)
    }

    fn stop<R: Wait>(&self, _rt: &R, why: WorkStop) -> WorkStop {
        why
    }
}

// The answer to the builder's work, and the builder. One that goes home is counted among those
// who did.
fn work_of<N: Named, C: Ledger, R: Wait>(
    rt: &R,
    turns: &Turns<'_, '_, N, C>,
    hired: Hired<N>,
    jobs: &mut Jobs<'_, N, C>,
    homes: &Mutex<Homes<N>>,
) -> (Result<u64, WorkStop>, Option<Hired<N>>) {
    let mut hired = hired;
    match work(rt, turns, &mut hired.seat, jobs) {
        Ok((built, Some(home))) => {
            homes.lock(rt).add(home, hired);
            (Ok(built), None)
        }
        Ok((built, None)) => (Ok(built), Some(hired)),
        Err(stop) => (Err(stop), Some(hired)),
    }
}

// The answer to the last builder's work while the last clerk makes these calls.
fn work_during_calls<N: Named, C: Ledger, R: Wait>(
    rt: &R,
    desk: &Desk<'static, N, C>,
    people: &mut People<N, C>,
    calls: &str,
    told: &Mutex<String>,
) -> Option<Result<u64, WorkStop>>
    requires { N.may_shut ≡ true }
{
    let People {
        alloc,
        outcomes,
        builders,
        homes,
        clerks,
    } = people;
    let alloc = *alloc;
    let last = builders.pop()?;
    let clerk = clerks.pop()?;
    let mut jobs = Jobs {
        alloc,
        desk,
        outcomes,
        told,
    };
    let day = Day {
        clerk,
        left: calls,
        refuses: false,
    };
    let turns = Turns {
        alloc,
        desk,
        told,
        day: Mutex::new(day),
    };
    let (end, left) = work_of(rt, &turns, last, &mut jobs, homes);
    let _ = clerks.push(turns.into_clerk());
    if let Some(left) = left {
        let _ = builders.push(left);
    }
    Some(end)
}

// What is appended of the last builder's work in turn with these calls of the last clerk: each
// build and each call, in their order, and the answer to the work.
pub(crate) fn work_in_turn<N: Named, C: Ledger, R: Wait>(
    rt: &R,
    desk: &Desk<'static, N, C>,
    people: &mut People<N, C>,
    calls: &str,
) -> Result<String, Fail>
    requires { N.may_shut ≡ true }
{
    let alloc = people.alloc;
    let told = Mutex::new(String::new(alloc));
    let end = work_during_calls(rt, desk, people, calls, &told);
    let told = told.into_inner();
    Ok(format!(in alloc; "{told}{end:?}")?)
}
