//! What is wanted instead of what is refused.
ghost use Rattle.std.specs.Prelude.{◌≡◌, ◌<◌, ◌^◌, length};
ghost use Rattle.td_tool.specs.DeskFaults.{wanted_desk_file};
ghost use Rattle.td_tool.specs.Wanted.{file_said, unpacked, wanted_arch, wanted_archive};
ghost use Rattle.td_tool.specs.Wanted.{wanted_field, wanted_file, wanted_form, wanted_input};
ghost use Rattle.td_tool.specs.Wanted.{wanted_journal, wanted_key, wanted_relation};
ghost use Rattle.td_tool.specs.Wanted.{wanted_simulation, wanted_stanza, wanted_state};
ghost use Rattle.td_tool.specs.Wanted.{wanted_syntax, wanted_table, wanted_tracker};
ghost use Rattle.td_tool.specs.Wanted.{wanted_version};

use crate::cause::Cause;
use crate::input_fault::InputFault;
use td_explain::{ArchFlaw, Stray, arch_flaw, stray_at};
use td_indices::{ArchiveFault, IndexField, RelationField, VersionField};
use td_inputs::FormFault;
use td_journal::ReadError;
use td_lasting::FileFault;
use td_query::{TrackerFault, TrackerKey};
use td_relation::ArchsFault;
use td_rows::StateFault;
use td_simulate::SimulationFault;
use td_stanza::StanzaFault;

// What is wanted of the rows of a state file, or of the opening rows.
fn wanted_state(fault: StateFault) -> &'static str
    ensures { result.now ≡ wanted_state fault }
{
    match fault {
        StateFault::BadLine(_) => "a row, as KEY STATE PRIORITY NUMBER",
        StateFault::Twice(_) => "a key that no line above has",
        StateFault::NotOpening(_) => "a state other than Building",
        StateFault::TooManyRows => "at most 1048576 rows",
        StateFault::NoMemory => "",
    }
}

// What is wanted of a simulation.
fn wanted_simulation(fault: SimulationFault) -> &'static str
    ensures { result.now ≡ wanted_simulation fault }
{
    match fault {
        SimulationFault::Opening(fault) => wanted_state(fault),
        SimulationFault::BadStep(_) => "a step, as docs/FORMATS.md lists them",
        SimulationFault::NoMemory => "",
    }
}

// What is wanted of a line of a table of architectures.
fn wanted_arch(flaw: ArchFlaw) -> &'static str
    ensures { result.now ≡ wanted_arch flaw }
{
    match flaw {
        ArchFlaw::Words | ArchFlaw::Nothing => "an architecture, as NAME OS CPU",
        ArchFlaw::Reserved => "a name other than all, any and source",
        ArchFlaw::Name =>
            "a name of small letters, digits and hyphens: no hyphen first, no any at either end",
        ArchFlaw::Os =>
            "an operating system of small letters and digits after one space, and not any",
        ArchFlaw::Cpu => "a processor of small letters and digits after one space, and not any",
    }
}

// What is wanted of a table of architectures.
fn wanted_table(fault: ArchsFault, text: &str) -> &'static str
    requires { length text.now < 2 ^ 63 }
    ensures { result.now ≡ wanted_table fault text.now }
{
    match fault {
        ArchsFault::BadLine(number) => wanted_arch(arch_flaw(text, number)),
        ArchsFault::Twice(_) => "a name that no line above has",
        ArchsFault::TooMany => "at most 32 architectures",
        ArchsFault::NoMemory => "",
    }
}

// What is wanted of the lines of a control file.
fn wanted_stanza(fault: StanzaFault) -> &'static str
    ensures { result.now ≡ wanted_stanza fault }
{
    match fault {
        StanzaFault::BadName(_) => "a field, as NAME: VALUE",
        StanzaFault::NoColon(_) => "a colon behind the name of the field",
        StanzaFault::ContinuationFirst(_) => "a field, since none is above that could go on here",
        StanzaFault::Duplicate(_) => "a field that the stanza has not yet",
        StanzaFault::NoMemory => "",
    }
}

// What is wanted of a stanza that lacks a field, or has one that names nothing.
fn wanted_field(fault: IndexField) -> &'static str
    ensures { result.now ≡ wanted_field fault }
{
    match fault {
        IndexField::Package => "a field Package that names a package",
        IndexField::Version => "a field Version",
        IndexField::Architecture => "a field Architecture",
        IndexField::Source => "a field Source that names a package",
    }
}

// What is wanted of a stanza with a version that can't be read.
fn wanted_version(field: VersionField) -> &'static str
    ensures { result.now ≡ wanted_version field }
{
    match field {
        VersionField::Version => "a version in Version as deb-version(7) has it",
        VersionField::Source => "a version in the brackets of Source as deb-version(7) has it",
    }
}

// What is wanted of a stanza with a relation that can't be read.
fn wanted_relation(field: RelationField) -> &'static str
    ensures { result.now ≡ wanted_relation field }
{
    match field {
        RelationField::Depends => "a relation in Depends as Debian Policy 7.1 has it",
        RelationField::PreDepends => "a relation in Pre-Depends as Debian Policy 7.1 has it",
        RelationField::Provides => "a relation in Provides as Debian Policy 7.1 has it",
        RelationField::BuildDepends => "a relation in Build-Depends as Debian Policy 7.1 has it",
        RelationField::BuildDependsArch =>
            "a relation in Build-Depends-Arch as Debian Policy 7.1 has it",
    }
}

// What is wanted of an index.
fn wanted_archive(fault: ArchiveFault) -> &'static str
    ensures { result.now ≡ wanted_archive fault }
{
    match fault {
        ArchiveFault::Stanza(_, fault) => wanted_stanza(fault),
        ArchiveFault::MissingField(_, _, field) => wanted_field(field),
        ArchiveFault::BadVersion(_, _, field) => wanted_version(field),
        ArchiveFault::BadRelation(_, _, field) => wanted_relation(field),
        ArchiveFault::TooManyRows => "at most 1048576 rows",
        ArchiveFault::NoMemory => "",
    }
}

// What is wanted of a tracker that lacks a key.
fn wanted_key(fault: TrackerKey) -> &'static str
    ensures { result.now ≡ wanted_key fault }
{
    match fault {
        TrackerKey::IsAffected => "a key is_affected",
        TrackerKey::IsGood => "a key is_good",
        TrackerKey::IsBad => "a key is_bad",
    }
}

// What is wanted at the first byte that nothing of a tracker can take.
fn wanted_syntax(stray: Stray) -> &'static str
    ensures { result.now ≡ wanted_syntax stray }
{
    match stray {
        Stray::End =>
            "a ; after each value, also the last, and an end of each text, pattern and bracket",
        Stray::AfterSlash =>
            "nothing right after a pattern: its flag is (?i) at its front, a slash within it \\/",
        Stray::AfterQuote =>
            "other quotes within a text: the first \" ends it, also after a backslash",
        Stray::List => "no list: a test for each name, with | between, or no key architectures",
        Stray::Apostrophe => "a text in \"",
        Stray::Comparison =>
            "no comparison: a pattern on .version, or .depends ~ /liba1 \\(>= 3\\./",
        Stray::Joint => "one & or | between two queries",
        Stray::Source => ".directory ~ /./, a field that only Sources stanzas have",
        Stray::Word => "& for and, | for or, ! for not",
        Stray::Other =>
            "a key and its query, as docs/FORMATS.md has trackers; at most 100 ( and ! are open",
    }
}

// What is wanted of a tracker.
fn wanted_tracker(fault: TrackerFault, text: &str) -> &'static str
    ensures { result.now ≡ wanted_tracker fault text.now }
{
    match fault {
        TrackerFault::Syntax(at) => wanted_syntax(stray_at(text, at)),
        TrackerFault::MissingKey(key) => wanted_key(key),
        TrackerFault::BadPattern(_) =>
            "a pattern that regex takes: no look-around, back reference or open bracket",
        TrackerFault::NoMemory => "",
    }
}

// What is wanted of a journal.
fn wanted_journal(fault: ReadError) -> &'static str
    ensures { result.now ≡ wanted_journal fault }
{
    match fault {
        ReadError::BadHeader => "a journal's header line with its newline, as transdesk journal 2",
        ReadError::BadLine(_) => "the next entry, as docs/FORMATS.md has journals",
        ReadError::Unlawful(_) => "an entry that applies on the rows, or an undone command",
        ReadError::NoMemory => "",
    }
}

// What is wanted of a text that isn't of its form.
fn wanted_form(fault: FormFault, text: &str) -> &'static str
    requires { length text.now < 2 ^ 63 }
    ensures { result.now ≡ wanted_form fault text.now }
{
    match fault {
        FormFault::Table(fault) => wanted_table(fault, text),
        FormFault::Archive(fault) => wanted_archive(fault),
        FormFault::State(fault) => wanted_state(fault),
        FormFault::NoSuchRow(_) => "a row that the indices give",
        FormFault::Tracker(fault) => wanted_tracker(fault, text),
        FormFault::Journal(fault) => wanted_journal(fault),
    }
}

// What is wanted of a desk's file.
fn wanted_desk_file(fault: FileFault) -> &'static str
    ensures { result.now ≡ wanted_desk_file fault }
{
    match fault {
        FileFault::NotText => "a text in UTF-8",
        FileFault::BadHeader => "a desk's header line with its newline, as transdesk desk 1 HASH",
        FileFault::OtherRows =>
            "the indices, the table and the state file that the desk was begun over",
        FileFault::BadLine(_) => "the next entry or an undo, as docs/FORMATS.md has desks",
        FileFault::Unlawful(_) =>
            "an entry that applies on the rows, or an undo that no later entry blocks",
        FileFault::CannotRead | FileFault::CannotWrite | FileFault::NoMemory => "",
    }
}

/// What is wanted instead of what this text is refused for.
pub fn wanted(fault: InputFault, text: &str) -> &'static str
    requires { length text.now < 2 ^ 63 }
    ensures { result.now ≡ wanted_input fault text.now }
{
    match fault {
        InputFault::TooLong => "standard input of at most 1048576 bytes",
        InputFault::NotText => "a text in UTF-8",
        InputFault::Simulation(fault) => wanted_simulation(fault),
        InputFault::BadOutcome(_) => "how a build ends, as KEY OUTCOME",
        InputFault::Form(fault) => wanted_form(fault, text),
        InputFault::DeskFile(fault) => wanted_desk_file(fault),
    }
}

/// What is wanted of a file that is packed.
pub fn unpacked() -> &'static str
    ensures { result.now ≡ unpacked }
{
    "a text in UTF-8; unpack it first"
}

/// What is said of a file that can't be read.
pub fn said_of(cause: Cause) -> &'static str
    ensures { result.now ≡ file_said cause }
{
    match cause {
        Cause::NoSuchFile => "isn't there",
        Cause::NotPermitted => "may not be read",
        Cause::IsFolder => "is a folder",
        Cause::TooLong => "is too long",
    }
}

/// What is wanted if a file can't be read.
pub fn wanted_of(cause: Cause) -> &'static str
    ensures { result.now ≡ wanted_file cause }
{
    match cause {
        Cause::NoSuchFile => "the path of a file that is there",
        Cause::NotPermitted => "a file that may be read",
        Cause::IsFolder => "a file, and no folder",
        Cause::TooLong => "a file of at most 1073741824 bytes",
    }
}
