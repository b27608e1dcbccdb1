//! Which affected sources build on which.
ghost use Rattle.std.specs.Prelude.{◌≡◌, ◌<◌, IfOk, IsOk, None, length};
ghost use Rattle.std.specs.List.{All};
ghost use Rattle.td_indices.specs.Archive.{number_named};
ghost use Rattle.td_waves.specs.Edges.{AreBases, AreEdges, name_at};
ghost use Rattle.td_waves.specs.Providers.{AreProviders};

use crate::asking::Asker;
use crate::providers::Providers;
use indexmap::IndexSet;
use rayon::prelude::*;
use std::alloc::{AllocError, Global};
use std::thread::Threads;
use td_indices::Archive;

/// The fewest sources that are worth a second thread.
const LEAST: usize = 128;

// The numbers of the affected sources on which the one with this number builds. A name that no
// source of the archive has builds on none, and that takes no memory.
fn bases_of<'a>(
    alloc: Global,
    archive: &Archive<'_, 'a>,
    names: &IndexSet<&str>,
    providers: &Providers<'a>,
    node: usize,
) -> Result<Vec<usize>, AllocError>
    requires node { node < length names.now.keys }
    requires providers { AreProviders archive.now names.now.keys providers.now }
    ensures bases { IfOk result
        (λ bases. AreBases archive.now names.now.keys node bases.items) }
    ensures sourceless { number_named archive.now (name_at names.now.keys node) ≡ None
        → IsOk result }
{
    let name = names[node];
    let Some(number) = archive.source_number(name) else {
        return Ok(Vec::new(alloc));
    };
    let asker = Asker {
        archive,
        names,
        providers,
        name,
        number,
    };
    asker.bases(alloc)
}

// The numbers of the sources on which each source of `names` builds; `providers` are the packages
// of these sources.
fn edges_by<'a>(
    rt: &(impl Threads + Sync),
    alloc: Global,
    archive: &Archive<'_, 'a>,
    names: &IndexSet<&str>,
    providers: &Providers<'a>,
) -> Result<Vec<Vec<usize>>, AllocError>
    requires { AreProviders archive.now names.now.keys providers.now }
    ensures { IfOk result (λ graph. AreEdges archive.now names.now.keys graph.items) }
{
    (0..names.len())
        .into_par_iter()
        .with_min_len(LEAST)
        .map(
            |node: usize| -> Result<Vec<usize>, AllocError>
                requires { (node < length names.now.keys)
                    × AreProviders archive.now names.now.keys providers.now }
                ensures { IfOk result (λ bases.
                    AreBases archive.entry.now names.entry.now.keys node bases.items) }
            { bases_of(alloc, archive, names, providers, node) },
        )
        .collect::<Result<Vec<Vec<usize>>, AllocError>>(rt, alloc)?
}

/// For each of these sources, the numbers of those among them on which it builds, some of them more
/// than once. If the sources are many, each thread finds the lists of some.
pub fn edges(
    rt: &(impl Threads + Sync),
    alloc: Global,
    archive: &Archive<'_, '_>,
    names: &IndexSet<&str>,
) -> Result<Vec<Vec<usize>>, AllocError>
    ensures edges { IfOk result (λ graph. AreEdges archive.now names.now.keys graph.items) }
    ensures within { IfOk result
        (λ graph. All (λ bases. All (λ b. b < length graph.items) bases.items) graph.items) }
{
    let providers = Providers::of(alloc, archive, names)?;
    edges_by(rt, alloc, archive, names, &providers)
}
