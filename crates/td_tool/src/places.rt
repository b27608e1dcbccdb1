//! Where in its text a refusal is.
ghost use Rattle.std.specs.Prelude.{◌≡◌};
ghost use Rattle.td_tool.specs.DeskFaults.{place_in_desk_file as place_in_desk_file_of};
ghost use Rattle.td_tool.specs.Places.{place_in_form as place_in_form_of};
ghost use Rattle.td_tool.specs.Places.{place_in_index as place_in_index_of};
ghost use Rattle.td_tool.specs.Places.{place_in_journal as place_in_journal_of};
ghost use Rattle.td_tool.specs.Places.{place_in_simulation as place_in_simulation_of};
ghost use Rattle.td_tool.specs.Places.{place_in_stanzas as place_in_stanzas_of};
ghost use Rattle.td_tool.specs.Places.{place_in_state as place_in_state_of};
ghost use Rattle.td_tool.specs.Places.{place_in_table as place_in_table_of};
ghost use Rattle.td_tool.specs.Places.{place_in_tracker as place_in_tracker_of};
ghost use Rattle.td_tool.specs.Places.{place_of_entry as place_of_entry_of};
ghost use Rattle.td_tool.specs.Places.{place_of as place_of_of};
ghost use Rattle.td_tool.specs.Places.{relation_in_form as relation_in_form_of};
ghost use Rattle.td_tool.specs.Places.{relation_in_index as relation_in_index_of};
ghost use Rattle.td_tool.specs.Places.{relation_of as relation_of_of};

use crate::input_fault::InputFault;
use td_explain::Place;
use td_indices::{ArchiveFault, RelationField};
use td_inputs::FormFault;
use td_journal::ReadError;
use td_lasting::FileFault;
use td_query::TrackerFault;
use td_relation::ArchsFault;
use td_rows::StateFault;
use td_simulate::SimulationFault;
use td_stanza::StanzaFault;

fn place_in_state(fault: StateFault) -> Place
    ensures { result ≡ place_in_state_of fault }
{
    match fault {
        StateFault::BadLine(n) | StateFault::Twice(n) | StateFault::NotOpening(n) => Place::Line(n),
        StateFault::TooManyRows | StateFault::NoMemory => Place::Whole,
    }
}

fn place_in_simulation(fault: SimulationFault) -> Place
    ensures { result ≡ place_in_simulation_of fault }
{
    match fault {
        SimulationFault::Opening(fault) => place_in_state(fault),
        SimulationFault::BadStep(n) => Place::Line(n),
        SimulationFault::NoMemory => Place::Whole,
    }
}

fn place_in_table(fault: ArchsFault) -> Place
    ensures { result ≡ place_in_table_of fault }
{
    match fault {
        ArchsFault::BadLine(n) | ArchsFault::Twice(n) => Place::Line(n),
        ArchsFault::TooMany | ArchsFault::NoMemory => Place::Whole,
    }
}

fn place_in_stanzas(fault: StanzaFault) -> Place
    ensures { result ≡ place_in_stanzas_of fault }
{
    match fault {
        StanzaFault::BadName(n)
        | StanzaFault::NoColon(n)
        | StanzaFault::ContinuationFirst(n)
        | StanzaFault::Duplicate(n) => Place::Line(n),
        StanzaFault::NoMemory => Place::Whole,
    }
}

fn place_in_index(fault: ArchiveFault) -> Place
    ensures { result ≡ place_in_index_of fault }
{
    match fault {
        ArchiveFault::Stanza(_, fault) => place_in_stanzas(fault),
        ArchiveFault::MissingField(_, n, _)
        | ArchiveFault::BadVersion(_, n, _)
        | ArchiveFault::BadRelation(_, n, _) => Place::Stanza(n),
        ArchiveFault::TooManyRows | ArchiveFault::NoMemory => Place::Whole,
    }
}

fn place_in_tracker(fault: TrackerFault) -> Place
    ensures { result ≡ place_in_tracker_of fault }
{
    match fault {
        TrackerFault::Syntax(at) | TrackerFault::BadPattern(at) => Place::Byte(at),
        TrackerFault::MissingKey(_) | TrackerFault::NoMemory => Place::Whole,
    }
}

// Entry n of a journal is on line n + 1.
fn place_of_entry(n: u64) -> Place
    ensures { result ≡ place_of_entry_of n }
{
    if n < u64::MAX {
        Place::Line(n as usize + 1)
    } else {
        Place::Whole
    }
}

fn place_in_journal(fault: ReadError) -> Place
    ensures { result ≡ place_in_journal_of fault }
{
    match fault {
        ReadError::BadHeader => Place::Line(1),
        ReadError::BadLine(n) => Place::Line(n),
        ReadError::Unlawful(n) => place_of_entry(n),
        ReadError::NoMemory => Place::Whole,
    }
}

fn place_in_form(fault: FormFault) -> Place
    ensures { result ≡ place_in_form_of fault }
{
    match fault {
        FormFault::Table(fault) => place_in_table(fault),
        FormFault::Archive(fault) => place_in_index(fault),
        FormFault::State(fault) => place_in_state(fault),
        FormFault::NoSuchRow(n) => Place::Line(n),
        FormFault::Tracker(fault) => place_in_tracker(fault),
        FormFault::Journal(fault) => place_in_journal(fault),
    }
}

fn place_in_desk_file(fault: FileFault) -> Place
    ensures { result ≡ place_in_desk_file_of fault }
{
    match fault {
        FileFault::BadHeader | FileFault::OtherRows => Place::Line(1),
        FileFault::BadLine(n) | FileFault::Unlawful(n) => Place::Line(n),
        FileFault::NotText | FileFault::CannotRead | FileFault::CannotWrite | FileFault::NoMemory =>
            Place::Whole,
    }
}

/// The place of a fault in its text, as the fault has it.
pub fn place_of(fault: InputFault) -> Place
    ensures { result ≡ place_of_of fault }
{
    match fault {
        InputFault::TooLong | InputFault::NotText => Place::Whole,
        InputFault::Simulation(fault) => place_in_simulation(fault),
        InputFault::BadOutcome(n) => Place::Line(n),
        InputFault::Form(fault) => place_in_form(fault),
        InputFault::DeskFile(fault) => place_in_desk_file(fault),
    }
}

// The stanza and the field, if a relation of an index can't be read.
fn relation_in_index(fault: ArchiveFault) -> Option<(usize, RelationField)>
    ensures { result ≡ relation_in_index_of fault }
{
    match fault {
        ArchiveFault::BadRelation(_, number, field) => Some((number, field)),
        ArchiveFault::Stanza(_, _)
        | ArchiveFault::MissingField(_, _, _)
        | ArchiveFault::BadVersion(_, _, _)
        | ArchiveFault::TooManyRows
        | ArchiveFault::NoMemory => None,
    }
}

// The stanza and the field, if a relation of a text that isn't of its form can't be read.
fn relation_in_form(fault: FormFault) -> Option<(usize, RelationField)>
    ensures { result ≡ relation_in_form_of fault }
{
    match fault {
        FormFault::Archive(fault) => relation_in_index(fault),
        FormFault::Table(_)
        | FormFault::State(_)
        | FormFault::NoSuchRow(_)
        | FormFault::Tracker(_)
        | FormFault::Journal(_) => None,
    }
}

/// The stanza and the field with a relation that can't be read, if that is the fault.
pub fn relation_of(fault: InputFault) -> Option<(usize, RelationField)>
    ensures { result ≡ relation_of_of fault }
{
    match fault {
        InputFault::Form(fault) => relation_in_form(fault),
        InputFault::TooLong
        | InputFault::NotText
        | InputFault::Simulation(_)
        | InputFault::BadOutcome(_)
        | InputFault::DeskFile(_) => None,
    }
}
