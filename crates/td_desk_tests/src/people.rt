//! Clerks and builders at a named board.
ghost use Rattle.std.specs.Prelude.{◌≡◌, All, length};

use std::alloc::{AllocError, Global};
use std::sync::ledger::Ledger;
use std::sync::{Mutex, Wait};
use std::test::Fail;
use td_board::BuilderSeat;
use td_book::{CommandRefusal, FinishRefusal, Taken};
use td_builder::{Builds, Outcomes, Tells, WorkStop, work};
use td_desk::{Clerk, Desk, Hired, Homes, Named, hire};
use td_journal::EntryNo;
use td_relation::Archs;
use td_rows::Outcome;
use td_wbread::{CommandFault, read_command};

// The answer to a clerk's command, by its line.
pub(crate) fn command<N: Named, C: Ledger, R: Wait>(
    rt: &R,
    alloc: Global,
    desk: &Desk<'static, N, C>,
    clerk: &mut Clerk<C>,
    archs: &Archs<'_>,
    line: &str,
) -> Result<Result<Taken, CommandRefusal>, CommandFault> {
    match read_command(alloc, line, archs, &["unstable"]) {
        Ok(command) => {
            let told = desk.command(rt, clerk, &command).answer();
            drop(command);
            Ok(told)
        }
        Err(fault) => Err(fault),
    }
}

// Builds the row in the builder's hand, to this end. Whether the job was that row's, and nothing
// refused.
pub(crate) fn build<N: Named, C: Ledger, R: Wait>(
    rt: &R,
    desk: &Desk<'static, N, C>,
    hired: &mut Hired<N>,
    row: usize,
    outcome: Outcome,
) -> bool {
    let is_its_own = match desk.start(rt, &hired.seat).answer() {
        Ok(job) => desk.row_no(&job.key) == Some(row),
        Err(_) => false,
    };
    is_its_own && desk.finish(rt, &mut hired.seat, outcome).answer().is_ok()
}

// The answer to a builder's work, and the builder. One that goes home is counted among those who
// did.
pub(crate) fn work_of<N: Named, C: Ledger, B: Builds, R: Wait>(
    rt: &R,
    desk: &Desk<'static, N, C>,
    hired: Hired<N>,
    builds: &mut B,
    homes: &Mutex<Homes<N>>,
) -> (Result<u64, WorkStop>, Option<Hired<N>>) {
    let mut hired = hired;
    match work(rt, desk, &mut hired.seat, builds) {
        Ok((built, Some(home))) => {
            homes.lock(rt).add(home, hired);
            (Ok(built), None)
        }
        Ok((built, None)) => (Ok(built), Some(hired)),
        Err(stop) => (Err(stop), Some(hired)),
    }
}

// Who is at a desk, who has gone home, and how builds end.
#[derive(Drop)]
pub(crate) struct People<N: Named, C: Ledger> {
    pub(crate) alloc: Global,
    pub(crate) outcomes: Outcomes,
    pub(crate) builders: Vec<Hired<N>>,
    pub(crate) homes: Mutex<Homes<N>>,
    pub(crate) clerks: Vec<Clerk<C>>,
}

// One clerk.
fn alone<C: Ledger>(alloc: Global, clerk: Clerk<C>) -> Result<Vec<Clerk<C>>, AllocError> {
    let mut clerks = Vec::with_capacity(alloc, 2)?;
    clerks.push(clerk).map_err(AllocError::from)?;
    Ok(clerks)
}

impl<N: Named, C: Ledger> People<N, C> {
    // One clerk, and a builder on each of the seats.
    pub(crate) fn new(
        alloc: Global,
        clerk: Clerk<C>,
        seats: Vec<BuilderSeat>,
        outcomes: &str,
    ) -> Result<People<N, C>, Fail>
        requires seats { All (λ s. s.table ≡ N.table) seats.items }
        requires all { length seats.items ≡ N.origin.builders }
    {
        let outcomes = Outcomes::read(alloc, outcomes)?;
        let clerks = alone(alloc, clerk)?;
        let (builders, homes) = hire(alloc, seats)?;
        Ok(People {
            alloc,
            outcomes,
            builders,
            homes: Mutex::new(homes),
            clerks,
        })
    }

    // The clerks, once the builders are gone.
    pub(crate) fn into_clerks(self) -> Vec<Clerk<C>> {
        let People { clerks, .. } = self;
        clerks
    }

    // The first clerk gives a part to another, who comes last. Whether there was one to give.
    pub(crate) fn part(&mut self) -> bool {
        let Some(first) = self.clerks.first_mut() else {
            return false;
        };
        match first.part() {
            Some(given) => self.clerks.push(given).is_ok(),
            None => false,
        }
    }

    // The last clerk joins the first. Whether there was another.
    pub(crate) fn join(&mut self) -> bool {
        let Some(last) = self.clerks.pop() else {
            return false;
        };
        match self.clerks.first_mut() {
            Some(first) => first.join(last).is_ok(),
            None => false,
        }
    }

    // Puts a builder who hasn't gone home after the others.
    pub(crate) fn keep(&mut self, hired: Option<Hired<N>>) {
        if let Some(hired) = hired {
            let _ = self.builders.push(hired);
        }
    }

    // The answer to the work of the last builder, whose builds end as the outcome lines say.
    pub(crate) fn work_alone<R: Wait>(
        &mut self,
        rt: &R,
        desk: &Desk<'static, N, C>,
    ) -> Option<Result<u64, WorkStop>> {
        let last = self.builders.pop()?;
        let mut outcomes = &self.outcomes;
        let (answer, left) = work_of(rt, desk, last, &mut outcomes, &self.homes);
        self.keep(left);
        Some(answer)
    }

    // Whether the last builder's claim of a row wins.
    pub(crate) fn hold(&mut self, desk: &Desk<'static, N, C>, row: usize) -> bool {
        match self.builders.last_mut() {
            Some(last) => desk.claim(row, &mut last.seat),
            None => false,
        }
    }

    // What the last builder is answered who ends its build so.
    pub(crate) fn end<R: Wait>(
        &mut self,
        rt: &R,
        desk: &Desk<'static, N, C>,
        outcome: Outcome,
    ) -> Option<Result<EntryNo, FinishRefusal>> {
        let last = self.builders.last_mut()?;
        Some(desk.finish(rt, &mut last.seat, outcome).answer())
    }

    // The last clerk goes home, with the receipts.
    pub(crate) fn leave(&mut self) -> bool {
        self.clerks.pop().is_some()
    }

    // How often the first clerk can give a part away.
    pub(crate) fn give(&mut self) -> u64 {
        let Some(first) = self.clerks.first_mut() else {
            return 0;
        };
        let mut given = 0u64;
        for _ in 0..5_000 {
            if first.part().is_none() {
                return given;
            }
            given = given.wrapping_add(1);
        }
        given
    }
}
