//! How a run of the program ends, by what went wrong.
ghost use Rattle.std.specs.Prelude.{◌≡◌, None, OnOk, OnErr};
ghost use Rattle.std.specs.Io.KnownBytes.{Appends};
ghost use Rattle.td_bytes.specs.Pieces.{AppendsPrefix};
ghost use Rattle.td_tool.specs.Ending.{ending_of_file, ending_of_form, ending_of_simulation};
ghost use Rattle.td_tool.specs.Ending.{ending_of_opening, ending_of_stop, ending_of_text, line_of};
ghost use Rattle.td_tool.specs.Ending.{line_with, status_of};

use crate::input_fault::InputFault;
use td_bytes::{TextFault, WriteFault, Writer, write_whole};
use td_indices::ArchiveFault;
use td_inputs::{FormFault, OpenFault, Role};
use td_journal::ReadError;
use td_query::TrackerFault;
use td_relation::ArchsFault;
use td_rows::StateFault;
use td_script::RunFault;
use td_simulate::SimulationFault;

/// How a run of the program ends.
#[derive(Clone, Copy, Drop)]
pub enum Ending {
    /// All was done.
    Done,
    /// All was done, and something was refused. The output says what, except for a builder who is
    /// missing and a closing that differs.
    Refused,
    BadInput(Role, InputFault),
    NoMemory,
    CannotRead(Role),
    CannotWrite,
    /// Another desk has the desk's file.
    Locked,
    /// The desk's file can't be written.
    CannotKeep,
}

/// How a run ended, with the text of standard input if it was kept, and what is said of the lines
/// of a script.
#[derive(Drop)]
pub struct Ended {
    pub ending: Ending,
    pub input: Option<String>,
    pub notes: Option<String>,
}

/// How a run ends if no text is read from standard input.
pub fn ending_of_text(fault: TextFault) -> Ending
    ensures { result ≡ ending_of_text fault }
{
    match fault {
        TextFault::CannotRead => Ending::CannotRead(Role::Input),
        TextFault::TooLong => Ending::BadInput(Role::Input, InputFault::TooLong),
        TextFault::NotText => Ending::BadInput(Role::Input, InputFault::NotText),
        TextFault::NoMemory => Ending::NoMemory,
    }
}

/// How a run ends if a text is no simulation.
pub fn ending_of_simulation(fault: SimulationFault) -> Ending
    ensures { result ≡ ending_of_simulation fault }
{
    match fault {
        SimulationFault::NoMemory => Ending::NoMemory,
        fault => Ending::BadInput(Role::Input, InputFault::Simulation(fault)),
    }
}

/// How a run ends if no text is read from a file.
pub fn ending_of_file(role: Role, fault: TextFault) -> Ending
    ensures { result ≡ ending_of_file role fault }
{
    match fault {
        TextFault::CannotRead | TextFault::TooLong => Ending::CannotRead(role),
        TextFault::NotText => Ending::BadInput(role, InputFault::NotText),
        TextFault::NoMemory => Ending::NoMemory,
    }
}

/// How a run ends if a text isn't of its form. Missing memory is no fault of the text.
pub fn ending_of_form(fault: FormFault) -> Ending
    ensures { result ≡ ending_of_form fault }
{
    match fault {
        FormFault::Table(ArchsFault::NoMemory)
        | FormFault::Archive(ArchiveFault::NoMemory)
        | FormFault::State(StateFault::NoMemory)
        | FormFault::Tracker(TrackerFault::NoMemory)
        | FormFault::Journal(ReadError::NoMemory) => Ending::NoMemory,
        fault => Ending::BadInput(fault.role(), InputFault::Form(fault)),
    }
}

/// How a run ends if its texts aren't opened.
pub fn ending_of_opening(fault: OpenFault) -> Ending
    ensures { result ≡ ending_of_opening fault }
{
    match fault {
        OpenFault::Refused(fault) => ending_of_form(fault),
        OpenFault::NoMemory => Ending::NoMemory,
    }
}

/// How a run ends if its script stopped.
pub fn ending_of_stop(fault: RunFault) -> Ending
    ensures { result ≡ ending_of_stop fault }
{
    match fault {
        RunFault::Input(fault) => ending_of_form(fault),
        RunFault::Read => Ending::CannotRead(Role::Input),
        RunFault::TooLong => Ending::BadInput(Role::Input, InputFault::TooLong),
        RunFault::NotText => Ending::BadInput(Role::Input, InputFault::NotText),
        RunFault::Write => Ending::CannotWrite,
        RunFault::NoMemory => Ending::NoMemory,
    }
}

impl Ending {
    /// A run that ended so, with no text kept and nothing said of lines.
    pub fn alone(self) -> Ended
        ensures { result ≡ record { ending = self; input = None; notes = None } }
    {
        Ended {
            ending: self,
            input: None,
            notes: None,
        }
    }

    /// The status that the program ends with.
    pub fn status(self) -> u8
        ensures { result ≡ status_of self }
    {
        match self {
            Ending::Done => 0,
            Ending::Refused => 1,
            Ending::BadInput(_, _) => 2,
            Ending::NoMemory => 4,
            Ending::CannotRead(_) | Ending::CannotWrite | Ending::Locked | Ending::CannotKeep => 5,
        }
    }

    /// Writes the one line that says what went wrong, if something did.
    pub fn tell<E: Writer>(self, faults: &mut E) -> Result<(), WriteFault>
        ensures whole { OnOk result
            (Appends (E.contents faults.old) (E.contents faults.new) (line_of self)) }
        ensures prefix { OnErr result
            (AppendsPrefix (E.contents faults.old) (E.contents faults.new) (line_of self)) }
    {
        match self {
            Ending::Done | Ending::Refused => Ok(()),
            Ending::BadInput(role, fault) => {
                write_line(faults, role.label().as_bytes(), fault.name().as_bytes())
            }
            Ending::NoMemory => write_line(faults, b"", b"want of memory"),
            Ending::CannotRead(role) => {
                write_line(faults, role.label().as_bytes(), b"cannot read")
            }
            Ending::CannotWrite => write_line(faults, b"", b"cannot write"),
            Ending::Locked => write_line(faults, b"journal: ", b"Locked"),
            Ending::CannotKeep => write_line(faults, b"journal: ", b"cannot write"),
        }
    }

    /// Writes the line by `tell`, and answers the status. What can't be written is left.
    pub fn answer<E: Writer>(self, faults: &mut E) -> u8
        ensures status { result ≡ status_of self }
        ensures line { AppendsPrefix (E.contents faults.old) (E.contents faults.new)
            (line_of self) }
    {
        let _ = self.tell(faults);
        self.status()
    }
}

// Writes the program's name, the part of it that is meant, and what went wrong there.
fn write_line<E: Writer>(faults: &mut E, place: &[u8], what: &[u8]) -> Result<(), WriteFault>
    ensures whole { OnOk result (Appends (E.contents faults.old) (E.contents faults.new)
        (line_with place.now what.now)) }
    ensures prefix { OnErr result (AppendsPrefix (E.contents faults.old) (E.contents faults.new)
        (line_with place.now what.now)) }
{
    write_whole(faults, b"transdesk: ")?;
    write_whole(faults, place)?;
    write_whole(faults, what)?;
    write_whole(faults, b"\n")
}
