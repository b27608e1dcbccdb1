//! The levels of affected sources, by their names.
use crate::edges::edges;
use crate::level::Level;
use crate::named::each_once;
use crate::placing::{Levelling, levels};
use indexmap::IndexSet;
use std::alloc::{AllocError, Global};
use std::thread::Threads;
use td_indices::Archive;

/// The levels of affected sources.
#[derive(Drop)]
pub struct Waves<'n> {
    names: IndexSet<&'n str>,
    levels: Levelling,
}

impl<'n> Waves<'n> {
    ghost use Rattle.std.specs.Prelude.{◌≡◌, List, ℕ, IfOk};
    ghost use Rattle.td_waves.specs.Levels.{IsDepth, StandsAt};
    ghost use Rattle.td_waves.specs.Waves.{BuildsOn, IsAffected};
    ghost use Rattle.td_waves.specs.WavesView.{depth_of, level_of};

    /// The levels of the sources with these names. A name that the archive has no source of builds
    /// on nothing. Which sources build on which is found in several threads, where there are many.
    pub fn of(
        rt: &(impl Threads + Sync),
        alloc: Global,
        archive: &Archive<'_, '_>,
        affected: &[&'n str],
    ) -> Result<Waves<'n>, AllocError>
        ensures levels { IfOk result (λ waves. (source : List ℕ) → StandsAt
            (IsAffected affected.now) (BuildsOn archive.now) source (level_of waves source)) }
        ensures depth { IfOk result (λ waves. IsDepth (level_of waves) (depth_of waves)) }
    {
        let names = each_once(alloc, affected)?;
        let graph = edges(rt, alloc, archive, &names)?;
        let levels = levels(alloc, &graph)?;
        Ok(Waves { names, levels })
    }

    /// The level of a source; none where it isn't affected.
    pub fn level(&self, source: &str) -> Option<Level>
        ensures { result ≡ level_of self.now source.now }
    {
        let number = self.names.get_index_of(source)?;
        self.levels.level(number)
    }

    /// How many levels there are.
    pub fn depth(&self) -> usize
        ensures { result ≡ depth_of self.now }
    {
        self.levels.depth()
    }
}
