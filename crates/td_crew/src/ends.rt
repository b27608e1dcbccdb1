//! How the builders of a crew end: who goes home, and whether one stopped for memory.
ghost use Rattle.std.specs.Prelude.{◌≡◌, ◌+◌, ◌-◌, ◌<◌, ◌^◌, false, true, IfOk, OnErr, OnOk};
ghost use Rattle.td_builder.specs.Floors.{IsIdle};

use crate::worker::Worker;
use std::alloc::AllocError;
use std::marker::PhantomData;
use td_builder::WorkStop;
use td_desk::{Home, Homes, Named};

/// That a builder stops, and why. It is made of what is noted, and if the reason is that memory ran
/// out, that was noted. It is no `Drop`, so it is counted: only `Ends` takes it, with the builder's
/// seat.
pub struct Stopped<N: Named> {
    why: WorkStop,
    of: PhantomData<N>,
}

impl<N: Named> Stopped<N> {
    // The stop of a builder for this reason, by what is noted.
    fn of(ends: &Ends<N>, why: WorkStop) -> Stopped<N>
        requires { why ≡ WorkStop.NoMemory → ends.now.wants_memory ≡ true }
        ensures { result.why ≡ why }
    {
        let _noted = ends;
        Stopped {
            why,
            of: PhantomData,
        }
    }
}

/// How the builders of a crew ended so far.
#[derive(Drop)]
pub struct Ends<N: Named> {
    // Who has gone home.
    homes: Homes<N>,
    // Whether a builder stopped for memory.
    wants_memory: bool,
}

impl<N: Named> Ends<N> {
    /// None has stopped.
    pub fn new(homes: Homes<N>) -> Ends<N>
        ensures homes { result.homes ≡ homes }
        ensures memory { result.wants_memory ≡ false }
    {
        Ends {
            homes,
            wants_memory: false,
        }
    }

    /// Whether a builder stopped for memory.
    pub fn want_memory(&self) -> bool
        ensures { result ≡ self.now.wants_memory }
    {
        self.wants_memory
    }

    /// Notes that a builder stops, and for what.
    pub fn stop(&mut self, why: WorkStop) -> Stopped<N>
        ensures why { result.why ≡ why }
        ensures memory { why ≡ WorkStop.NoMemory → self.new.wants_memory ≡ true }
        ensures mismatch { why ≡ WorkStop.Mismatch
            → self.new.wants_memory ≡ self.old.wants_memory }
        ensures homes { self.new.homes ≡ self.old.homes }
    {
        match why {
            WorkStop::NoMemory => self.wants_memory = true,
            WorkStop::Mismatch => {}
        }
        Stopped::of(self, why)
    }

    /// Counts a builder, who leaves its seat: one that goes home, without a row, as that, and no
    /// one that stopped.
    pub fn count(&mut self, end: Result<Home<N>, Stopped<N>>, worker: Worker<N>)
        requires { OnOk end (IsIdle worker.hired.seat) }
        ensures home { OnOk end (self.old.homes.count < 2 ^ 64 - 1
            → self.new.homes.count ≡ self.old.homes.count + 1) }
        ensures stopped { OnErr end (self.new.homes ≡ self.old.homes) }
        ensures memory { self.new.wants_memory ≡ self.old.wants_memory }
    {
        match end {
            Ok(home) => worker.go(home, &mut self.homes),
            Err(stopped) => {
                let Stopped { why: _, of: _ } = stopped;
                let _left = worker;
            }
        }
    }

    /// Who has gone home, where none stopped for memory.
    pub fn end(self) -> Result<Homes<N>, AllocError>
        ensures ok { IfOk result (λ homes. (homes ≡ self.homes) × (self.wants_memory ≡ false)) }
        ensures err { OnErr result (self.wants_memory ≡ true) }
    {
        if self.wants_memory {
            return Err(AllocError);
        }
        Ok(self.homes)
    }
}
