//! The archive of two indices that were read.
ghost use Rattle.std.specs.Prelude.{ℕ, List, IfOk, IfErr};
ghost use Rattle.td_relation.specs.Arch.{ArchWords};
ghost use Rattle.td_indices.specs.Archive.{FaultOf};
ghost use Rattle.td_indices.specs.inner.Assembling.{AreKept, IsFirstOf, IsOfOne};
ghost use Rattle.td_indices.specs.inner.IndexReading.{ArePackages, ArePackagesRead};
ghost use Rattle.td_indices.specs.inner.IndexReading.{AreSources, AreSourcesRead};

use crate::archive::Archive;
use crate::archive_fault::ArchiveFault;
use crate::binaries::Binaries;
use crate::grouping::grouped_and_counted;
use crate::groups::Groups;
use crate::index_reading::{PackagesIndex, SourcesIndex};
use crate::pairing::paired;
use crate::sourced::Sourced;
use crate::stanza_pieces::StanzaPieces;
use indexmap::IndexMap;
use std::alloc::Global;
use std::thread::Threads;
use td_relation::Archs;

/// The stanzas of both files, and what they keep.
#[derive(Drop)]
pub struct KeptIndices<'a> {
    pub packages: StanzaPieces<'a>,
    pub source_stanzas: StanzaPieces<'a>,
    pub binaries: Binaries<'a>,
    pub sources: IndexMap<&'a str, Sourced<'a>>,
}

/// What two indices keep whose stanzas were found, or the first fault.
fn kept_of_indices<'a>(
    packages: PackagesIndex<'a>,
    sources: SourcesIndex<'a>,
) -> Result<KeptIndices<'a>, ArchiveFault>
    ensures found { (table : List ArchWords) (p s : List (List ℕ))
        → ArePackages table p packages.entry
        → AreSources s sources.entry → IfOk result (AreKept table p s) }
    ensures fault { (table : List ArchWords) (p s : List (List ℕ))
        → ArePackages table p packages.entry
        → AreSources s sources.entry → IfErr result (FaultOf table p s) }
    // A fault is passed on as it came.
    ensures told { IfErr result (IsFirstOf packages.entry.kept sources.entry.kept) }
{
    match paired(packages.kept, sources.kept) {
        Ok((binaries, kept)) => Ok(KeptIndices {
            packages: packages.stanzas,
            source_stanzas: sources.stanzas,
            binaries,
            sources: kept,
        }),
        Err(fault) => Err(fault),
    }
}

/// What two indices keep, each as it was read by itself, or the first fault.
fn kept_of_both<'a>(
    packages: Result<PackagesIndex<'a>, ArchiveFault>,
    sources: Result<SourcesIndex<'a>, ArchiveFault>,
) -> Result<KeptIndices<'a>, ArchiveFault>
    ensures found { (table : List ArchWords) (p s : List (List ℕ))
        → ArePackagesRead table p packages.entry
        → AreSourcesRead s sources.entry → IfOk result (AreKept table p s) }
    ensures fault { (table : List ArchWords) (p s : List (List ℕ))
        → ArePackagesRead table p packages.entry
        → AreSourcesRead s sources.entry → IfErr result (FaultOf table p s) }
    // A fault is passed on as it came.
    ensures told { IfErr result (IsOfOne packages.entry sources.entry) }
{
    match paired(packages, sources) {
        Ok((packages, sources)) => kept_of_indices(packages, sources),
        Err(fault) => Err(fault),
    }
}

impl<'t, 'a> Archive<'t, 'a> {
    ghost use Rattle.std.specs.Prelude.{◌≡◌, ◌⊎◌, ◌≤◌, ◌<◌, ℕ, List, Ok, Err, IfOk, IfErr};
    ghost use Rattle.td_rows.specs.Limits.{max_rows};
    ghost use Rattle.td_stanza.specs.StanzaGrammar.{AreStanzas};
    ghost use Rattle.td_relation.specs.TableView.{table};
    ghost use Rattle.td_indices.specs.Archive.{FaultOf, IsArchive, IsRead, is_of, places_from};
    ghost use Rattle.td_indices.specs.Kept.{binaries_of};
    ghost use Rattle.td_indices.specs.Reading.{binaries_at, sources_at};
    ghost use Rattle.td_indices.specs.Rows.{row_count};
    ghost use Rattle.td_indices.specs.Sources.{sources_of};
    ghost use Rattle.td_indices.specs.inner.Groups.{grouped_under};

    // The archive of stanzas that all were kept, with the numbers of the packages and how many rows
    // there are, if they could be counted.
    fn of_kept(
        alloc: Global,
        archs: &'t Archs<'a>,
        kept: KeptIndices<'a>,
        counted: Result<(Groups<'a>, usize), ArchiveFault>,
    ) -> Result<Archive<'t, 'a>, ArchiveFault>
        requires binaries { binaries_at (table archs.now) kept.packages
            ≡ Ok (binaries_of kept.binaries) }
        requires sources { sources_at kept.source_stanzas ≡ Ok (sources_of kept.sources.entries) }
        requires groups { IfOk counted (λ p. (q : List ℕ)
            → grouped_under p.0 q ≡ places_from (is_of q) 0 (binaries_of kept.binaries)) }
        requires rows { IfOk counted (λ p.
            p.1 ≡ row_count (table archs.now) (sources_of kept.sources.entries)) }
        requires limited { IfOk counted (λ p. p.1 ≤ max_rows) }
        requires fault { IfErr counted (λ e. (e ≡ ArchiveFault.NoMemory)
            ⊎ ((e ≡ ArchiveFault.TooManyRows)
            × (max_rows < row_count (table archs.now) (sources_of kept.sources.entries)))) }
        ensures found { (p s : List (List ℕ)) → AreStanzas kept.entry.packages p
            → AreStanzas kept.entry.source_stanzas s
            → IfOk result (IsArchive (table archs.now) p s) }
        ensures fault { (p s : List (List ℕ)) → AreStanzas kept.entry.packages p
            → AreStanzas kept.entry.source_stanzas s
            → IfErr result (FaultOf (table archs.now) p s) }
        // A fault is passed on as it came.
        ensures told { IfErr result (λ e. counted.entry ≡ Err e) }
    {
        match counted {
            Ok((groups, rows)) => Ok(Archive {
                archs,
                packages: kept.packages,
                source_stanzas: kept.source_stanzas,
                binaries: kept.binaries,
                sources: kept.sources,
                groups,
                rows,
                alloc,
            }),
            Err(fault) => {
                // (by a call, so that the proof of this body stays short)
                drop(kept);
                Err(fault)
            }
        }
    }

    // The archive of two indices, each as it was read by itself. What they keep is counted in
    // threads.
    pub(crate) fn of_indices(
        rt: &(impl Threads + Sync),
        alloc: Global,
        archs: &'t Archs<'a>,
        packages: Result<PackagesIndex<'a>, ArchiveFault>,
        sources: Result<SourcesIndex<'a>, ArchiveFault>,
    ) -> Result<Archive<'t, 'a>, ArchiveFault>
        requires packages { (p : List (List ℕ)) × ArePackagesRead (table archs.now) p packages }
        requires sources { (s : List (List ℕ)) × AreSourcesRead s sources }
        ensures { (p s : List (List ℕ)) → ArePackagesRead (table archs.now) p packages.entry
            → AreSourcesRead s sources.entry → IsRead (table archs.now) p s result }
    {
        match kept_of_both(packages, sources) {
            Ok(kept) => {
                let counted = grouped_and_counted(rt, alloc, archs, &kept.binaries, &kept.sources);
                Archive::of_kept(alloc, archs, kept, counted)
            }
            Err(fault) => Err(fault),
        }
    }
}
