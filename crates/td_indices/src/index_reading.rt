//! Each of the two files is read by itself, at the same time as the other: its stanzas, and what
//! they keep.
ghost use Rattle.std.specs.Prelude.{◌≡◌, ℕ, true, List};
ghost use denote.Param.Send.{IsSync};
ghost use Rattle.td_text.specs.Lines.{lines_of};
ghost use Rattle.td_stanza.specs.StanzaGrammar.{AreStanzas};
ghost use Rattle.td_relation.specs.TableView.{table};
ghost use Rattle.td_indices.specs.inner.IndexReading.{ArePackages, ArePackagesRead};
ghost use Rattle.td_indices.specs.inner.IndexReading.{AreSources, AreSourcesRead};
ghost use Rattle.td_indices.specs.inner.Sound.{AreSound};

use crate::archive_fault::{ArchiveFault, IndexFile};
use crate::binaries::Binaries;
use crate::index_text::IndexText;
use crate::part_reading::{HALVINGS, read_parts};
use crate::soundness::are_sound;
use crate::sourced::Sourced;
use crate::stanza_pieces::StanzaPieces;
use crate::stanza_reading::{keep_sources, kept_of};
use indexmap::IndexMap;
use std::alloc::Global;
use std::thread;
use std::thread::Threads;
use td_relation::Archs;

/// The stanzas of Packages, and the binary packages that they keep; or the first that can't be
/// kept.
#[derive(Drop)]
pub struct PackagesIndex<'a> {
    pub stanzas: StanzaPieces<'a>,
    pub kept: Result<Binaries<'a>, ArchiveFault>,
}

/// The stanzas of Sources, and the sources that they keep; or the first that can't be kept.
#[derive(Drop)]
pub struct SourcesIndex<'a> {
    pub stanzas: StanzaPieces<'a>,
    pub kept: Result<IndexMap<&'a str, Sourced<'a>>, ArchiveFault>,
}

// What these stanzas of Packages keep, in parts.
fn kept_packages<'a, R: Threads + Sync>(
    rt: &R,
    alloc: Global,
    archs: &Archs<'_>,
    stanzas: StanzaPieces<'a>,
) -> PackagesIndex<'a>
    ensures { (lines : List (List ℕ)) → AreStanzas stanzas.entry lines
        → ArePackages (table archs.now) lines result }
{
    let count = stanzas.len();
    let read = read_parts(rt, alloc, archs, &stanzas, 0, count, HALVINGS);
    let kept = kept_of(alloc, read, count);
    PackagesIndex { stanzas, kept }
}

// What a text of Packages is read as.
fn read_packages<'a, R: Threads + Sync>(
    rt: &R,
    alloc: Global,
    archs: &Archs<'_>,
    text: IndexText<'a>,
) -> Result<PackagesIndex<'a>, ArchiveFault>
    ensures { ArePackagesRead (table archs.now) (lines_of text.entry) result }
{
    match text.into_stanzas(IndexFile::Packages) {
        Ok(stanzas) => Ok(kept_packages(rt, alloc, archs, stanzas)),
        Err(fault) => Err(fault),
    }
}

// What these stanzas of Sources keep. Where they are `sound`, what their builds ask for isn't read.
fn kept_sources<'a>(alloc: Global, stanzas: StanzaPieces<'a>, sound: bool) -> SourcesIndex<'a>
    requires { sound ≡ true → AreSound stanzas }
    ensures { (lines : List (List ℕ)) → AreStanzas stanzas.entry lines → AreSources lines result }
{
    let kept = keep_sources(alloc, &stanzas, sound);
    SourcesIndex { stanzas, kept }
}

// What a text of Sources is read as. What its builds ask for is looked at in parts.
fn read_sources<'a, R: Threads + Sync>(
    rt: &R,
    alloc: Global,
    text: IndexText<'a>,
) -> Result<SourcesIndex<'a>, ArchiveFault>
    ensures { AreSourcesRead (lines_of text.entry) result }
{
    match text.into_stanzas(IndexFile::Sources) {
        Ok(stanzas) => {
            let sound = are_sound(rt, alloc, &stanzas);
            Ok(kept_sources(alloc, stanzas, sound))
        }
        Err(fault) => Err(fault),
    }
}

/// What both texts are read as, each by itself and in a thread.
pub fn read_indices<'a, R: Threads + Sync>(
    rt: &R,
    alloc: Global,
    archs: &Archs<'_>,
    packages: IndexText<'a>,
    sources: IndexText<'a>,
) -> (
    Result<PackagesIndex<'a>, ArchiveFault>,
    Result<SourcesIndex<'a>, ArchiveFault>,
)
    ensures packages { ArePackagesRead (table archs.now) (lines_of packages.entry) result.0 }
    ensures sources { AreSourcesRead (lines_of sources.entry) result.1 }
{
    let of_packages = move || -> Result<PackagesIndex, ArchiveFault>
        requires { IsSync R.row }
        ensures { ArePackagesRead (table archs.entry.now) (lines_of packages.entry) result }
    { read_packages(rt, alloc, archs, packages) };
    let of_sources = move || -> Result<SourcesIndex, ArchiveFault>
        requires { IsSync R.row }
        ensures { AreSourcesRead (lines_of sources.entry) result }
    { read_sources(rt, alloc, sources) };
    thread::join(rt, of_packages, of_sources)
}
