//! Files in memory that clauses know whole: the text of each is its path.
use std::alloc::Global;
use std::thread::Threads;
use td_bytes::TextFault;
use td_ledger::Memory;
use td_session::OpenRefusal;
use td_tool::{Cause, Desks, Packing, Texts, packing_of};

/// Files that have their paths as texts, so that each path leads to one. One with an empty line is
/// read as its front and its rest.
#[derive(Drop)]
pub(crate) struct PathTexts;

impl Texts for PathTexts {
    ghost use Rattle.std.specs.Prelude.{Some, is_none, true};
    ghost use Rattle.td_crew_tests.specs.PathTexts.{lacks_room};

    ghost bytes = { λ _ path. Some path };

    ghost can_fail = { λ _ _ fault. lacks_room fault };

    ghost can_be = { λ _ _ _ cause. is_none cause };

    ghost can_pack = { λ _ _ _. true };

    fn text(&self, alloc: Global, path: &str, limit: usize) -> Result<String, TextFault> {
        if path.len() > limit {
            return Err(TextFault::TooLong);
        }
        match String::from_str(alloc, path) {
            Ok(text) => Ok(text),
            Err(_) => Err(TextFault::NoMemory),
        }
    }

    fn halves<R: Threads + Sync>(
        &self,
        _rt: &R,
        alloc: Global,
        path: &str,
        limit: usize,
    ) -> Option<(String, String)> {
        if path.len() > limit {
            return None;
        }
        let cut = path.find("\n\n")?.checked_add(1)?;
        let (front, rest) = path.split_at_checked(cut)?;
        let front = String::from_str(alloc, front).ok()?;
        let rest = String::from_str(alloc, rest).ok()?;
        Some((front, rest))
    }

    fn cause(&self, _path: &str, _limit: usize) -> Option<Cause> {
        None
    }

    fn packing(&self, path: &str) -> Option<Packing> {
        packing_of(path.as_bytes())
    }
}

// No desk is kept in them.
impl Desks for PathTexts {
    ghost use Rattle.td_crew_tests.specs.PathTexts.{no_desks};

    type Opened = Memory;

    ghost desks = { λ _. no_desks };

    fn open_desk(&self, _path: &str, _waits: bool) -> Result<Memory, OpenRefusal> {
        Err(OpenRefusal::CannotRead)
    }
}
