//! Where the files of desks are: on the disk, or wherever somebody keeps them.
use td_ledger::Device;
use td_session::OpenRefusal;

/// Files that desks are kept in, by their paths. The program keeps them on the disk.
pub trait Desks {
    ghost use Rattle.std.specs.Prelude.{◌≡◌, true, IfOk, IfErr};
    ghost use Rattle.td_tool.specs.Desks.{DeskFiles};

    /// A file that is open to read and write, and locked.
    type Opened: Device + Drop;

    // What clauses know of the files.
    ghost desks: { Self → DeskFiles };

    /// Opens the file with this path to read and write, makes it if it isn't there, and locks it.
    /// Where another desk has it, it is waited for, or refused.
    fn open_desk(&self, path: &str, waits: bool) -> Result<Self::Opened, OpenRefusal>
        ensures found { IfOk result (λ device.
            Self.Opened.known device ≡ (desks self.now).found path.now) }
        ensures refused { IfErr result (λ why.
            (desks self.now).can_refuse path.now waits why ≡ true) };
}
