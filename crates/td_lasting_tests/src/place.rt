//! A place for the file of a desk, in memory.
use td_ledger::Memory;
use td_session::{DeskFile, OpenRefusal};

/// A place whose file is given once; then, or if it has none, another desk has it.
#[derive(Drop)]
pub(crate) struct Place {
    pub(crate) memory: Option<Memory>,
    pub(crate) is_touched: bool,
}

impl DeskFile for Place {
    ghost use Rattle.std.specs.Prelude.{true};
    ghost use Rattle.td_lasting_tests.specs.Places.{known_in};

    type Opened = Memory;

    ghost found = { λ place. known_in place.memory };

    ghost can_refuse = { λ _ _. true };

    ghost is_touched = { λ place. place.is_touched };

    fn open(&mut self) -> Result<Memory, OpenRefusal> {
        self.is_touched = true;
        match self.memory.take() {
            Some(memory) => Ok(memory),
            None => Err(OpenRefusal::Locked),
        }
    }
}
