//! Which sources of an archive are affected, by the marks of its stanzas.

use crate::marks::Marks;
use rayon::prelude::*;
use std::alloc::{AllocError, Global};
use std::thread::Threads;
use td_indices::Archive;

impl Marks {
    ghost use Rattle.std.specs.Prelude.{◌≡◌, IfOk, map};
    ghost use Rattle.td_query.specs.Marks.{AreMarks};
    ghost use Rattle.td_query.specs.Statuses.{affected_names, is_affected, is_affected_at};
    ghost use Rattle.td_query.specs.Tracking.{Tracking};

    /// Whether some row of a source is affected, for each source in the archive's order. Several
    /// threads look at many sources.
    pub fn affected_flags(
        &self,
        rt: &(impl Threads + Sync),
        alloc: Global,
        archive: &Archive<'_, '_>,
    ) -> Result<Vec<bool>, AllocError>
        ensures flags { (t : Tracking) → AreMarks archive.now t self.now → IfOk result
            (λ flags. flags.items ≡ map (is_affected archive.now t) archive.now.sources) }
    {
        (0..archive.source_count())
            .into_par_iter()
            .map(
                |number: usize| -> bool
                    ensures { (t : Tracking) → AreMarks archive.entry.now t self.entry.now
                        → result ≡ is_affected_at archive.entry.now t number }
                { self.is_affected(archive, number) },
            )
            .collect(rt, alloc)
    }

    /// The names of the affected sources, in the order in which the archive holds them.
    pub fn affected_sources<'a>(
        &self,
        rt: &(impl Threads + Sync),
        alloc: Global,
        archive: &Archive<'_, 'a>,
    ) -> Result<Vec<&'a str>, AllocError>
        ensures names { (t : Tracking) → AreMarks archive.now t self.now → IfOk result
            (λ names. map (λ name. name.now) names.items ≡ affected_names archive.now t) }
    {
        let flags = self.affected_flags(rt, alloc, archive)?;
        archive.names_of(alloc, &flags)
    }
}
