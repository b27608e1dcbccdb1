//! Why a text is no simulation.
ghost use Rattle.std.specs.Prelude.{◌≡◌};
ghost use Rattle.td_simulate.specs.Faults.{fault_name, of_opening};

use td_rows::StateFault;
use thiserror::Error;

/// Why a text isn't a simulation: its first faulty line, or too many rows. Lines count from 1.
#[derive(Clone, Copy, Debug, PartialEq, Eq, Drop, Error)]
pub enum SimulationFault {
    /// The opening rows aren't a state file.
    #[error("{0}")]
    Opening(StateFault),
    /// The line isn't a step's.
    #[error("line {0} isn't a step's")]
    BadStep(usize),
    #[error("want of memory")]
    NoMemory,
}

/// A fault of the opening rows as one of the whole; `NoMemory` stays what it is.
pub fn of_opening(fault: StateFault) -> SimulationFault
    ensures { result ≡ of_opening fault }
{
    match fault {
        StateFault::NoMemory => SimulationFault::NoMemory,
        fault => SimulationFault::Opening(fault),
    }
}

impl SimulationFault {
    /// The name of the fault. The program prints it, except `NoMemory`.
    pub fn name(self) -> &'static str
        ensures { result.now ≡ fault_name self }
    {
        match self {
            SimulationFault::Opening(fault) => fault.name(),
            SimulationFault::BadStep(_) => "BadLine",
            SimulationFault::NoMemory => "NoMemory",
        }
    }
}
