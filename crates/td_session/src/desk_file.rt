//! Where the file of a desk comes from.
use td_ledger::Device;

/// Why the file of a desk isn't opened.
#[derive(Clone, Copy, Debug, PartialEq, Eq, Drop)]
pub enum OpenRefusal {
    /// Another desk has it.
    Locked,
    /// It can't be opened to read and write.
    CannotRead,
    NoMemory,
}

/// A place where the file of a desk is, or may be made.
pub trait DeskFile {
    ghost use Rattle.std.specs.Prelude.{◌≡◌, Bool, true, IfOk, IfErr};
    ghost use Rattle.td_ledger.specs.Calls.{Known};
    ghost use Rattle.td_session.specs.declared.desk_file.OpenRefusal.{OpenRefusal};

    /// The file, open to read and write, and locked.
    type Opened: Device + Drop;

    // What clauses know of the file that is found here.
    ghost found: { Self → Known };

    // For what the file may be refused.
    ghost can_refuse: { Self → OpenRefusal → Bool };

    // Whether the place was touched: a file was made, opened or locked there.
    ghost is_touched: { Self → Bool };

    /// Opens the file, which is made where it isn't there, and locks it.
    fn open(&mut self) -> Result<Self::Opened, OpenRefusal>
        ensures found { IfOk result (λ device. Self.Opened.known device ≡ found self.old) }
        ensures refused { IfErr result (λ why. can_refuse self.old why ≡ true) }
        ensures touched { is_touched self.new ≡ true };
}
