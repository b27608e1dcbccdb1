//! The files of an archive, whose indices are looked at while they come.
ghost use Rattle.std.specs.Prelude.{◌≡◌, ◌++◌, IfOk, IfErr, IfSome, string_bytes};
ghost use denote.Param.Send.{IsSync};
ghost use Rattle.td_tool.specs.Checks.{IsTextOf, archive_files_at};
ghost use Rattle.td_details.specs.CutOff.{is_cut_off as is_cut_off_of};
ghost use Rattle.td_tool.specs.CheckInside.{AreFlags, HasFailedIn};
ghost use Rattle.td_tool.specs.TrackInside.{AreEarlyTextsIn, HasFailedFor};
ghost use Rattle.td_tool.specs.Tracks.{file_at};
ghost use Rattle.td_inputs.specs.declared.role.Role.TheVariants.{Packages, Sources};

use crate::file_texts::{FILE_LIMIT, FileFault, read_one};
use crate::texts::Texts;
use std::alloc::Global;
use std::thread::Threads;
use std::{str, thread};
use td_details::{are_halves_cut_off, is_cut_off};
use td_indices::IndexText;
use td_inputs::Role;
use td_words::ArchivePaths;

/// Which of two indices may be cut off.
#[derive(Clone, Copy, Drop)]
pub struct CutOff {
    pub packages: bool,
    pub sources: bool,
}

/// The texts of the three files, those of the indices with their stanzas.
#[derive(Drop)]
pub struct EarlyTexts {
    pub archs: String,
    pub packages: IndexText<'static>,
    pub sources: IndexText<'static>,
    pub cut: CutOff,
}

// The text of an index with its stanzas, and whether it may be cut off.
#[derive(Drop)]
struct EarlyIndex {
    text: IndexText<'static>,
    cut: bool,
}

// A text that stays as long as the program: its memory isn't freed. (The program ends with what it
// says of an archive, and to free the archive's texts before would only take time.)
fn lasting(text: String) -> &'static str
    ensures { result.now ≡ string_bytes text }
{
    let bytes = text.into_bytes().leak();
    // SAFETY: what it requires is proved (`proofs/early_texts/lasting`): these are a text's bytes.
    unsafe { str::from_utf8_unchecked(bytes) }
}

// The front and the rest of a file, if it is read so. Both stay as long as the program.
fn lasting_halves<R: Threads + Sync, T: Texts>(
    rt: &R,
    alloc: Global,
    texts: &T,
    path: &String,
) -> Option<(&'static str, &'static str)>
    ensures { IfSome result (λ p.
        IsTextOf (T.bytes texts.now (string_bytes path.now)) (p.0.now ++ p.1.now)) }
{
    let (front, rest) = texts.halves(rt, alloc, path.as_str(), FILE_LIMIT)?;
    Some((lasting(front), lasting(rest)))
}

// Reads the file of an index as its front and its rest, and finds its stanzas, if it has some.
fn read_in_halves<R: Threads + Sync, T: Texts>(
    rt: &R,
    alloc: Global,
    texts: &T,
    path: &String,
) -> Option<EarlyIndex>
    ensures text { IfSome result (λ index.
        IsTextOf (T.bytes texts.now (string_bytes path.now)) index.text) }
    ensures cut { IfSome result (λ index. index.cut ≡ is_cut_off_of index.text) }
{
    let (front, rest) = lasting_halves(rt, alloc, texts, path)?;
    let text = IndexText::of_halves(rt, alloc, front, rest)?;
    Some(EarlyIndex {
        text,
        cut: are_halves_cut_off(front, rest),
    })
}

// The text of an index with its stanzas.
fn early_index<R: Threads + Sync>(rt: &R, alloc: Global, text: &'static str) -> EarlyIndex
    ensures text { result.text ≡ text.now }
    ensures cut { result.cut ≡ is_cut_off_of result.text }
{
    EarlyIndex {
        text: IndexText::read(rt, alloc, text),
        cut: is_cut_off(text),
    }
}

// Reads the file of an index, and finds its stanzas.
fn read_index<R: Threads + Sync, T: Texts>(
    rt: &R,
    alloc: Global,
    texts: &T,
    role: Role,
    path: &String,
) -> Result<EarlyIndex, FileFault>
    ensures text { IfOk result (λ index.
        IsTextOf (T.bytes texts.now (string_bytes path.now)) index.text) }
    ensures cut { IfOk result (λ index. index.cut ≡ is_cut_off_of index.text) }
    ensures failed { IfErr result (HasFailedFor
        (file_at (T.bytes texts.now) (T.can_fail texts.now) (string_bytes path.now)) role) }
{
    if let Some(index) = read_in_halves(rt, alloc, texts, path) {
        return Ok(index);
    }
    let text = read_one(alloc, texts, role, path)?;
    Ok(early_index(rt, alloc, lasting(text)))
}

// Reads the two indices side by side: what is shorter, mostly Sources, is looked at while the other
// still comes.
fn read_indices<R: Threads + Sync, T: Texts + Sync>(
    rt: &R,
    alloc: Global,
    texts: &T,
    paths: &ArchivePaths,
) -> (Result<EarlyIndex, FileFault>, Result<EarlyIndex, FileFault>)
    ensures packages { IfOk result.0 (λ packages.
        IsTextOf (T.bytes texts.now (string_bytes paths.now.packages)) packages.text) }
    ensures cut_packages { IfOk result.0 (λ index. index.cut ≡ is_cut_off_of index.text) }
    ensures no_packages { IfErr result.0 (HasFailedFor
        (file_at (T.bytes texts.now) (T.can_fail texts.now) (string_bytes paths.now.packages))
        Packages) }
    ensures sources { IfOk result.1 (λ sources.
        IsTextOf (T.bytes texts.now (string_bytes paths.now.sources)) sources.text) }
    ensures cut_sources { IfOk result.1 (λ index. index.cut ≡ is_cut_off_of index.text) }
    ensures no_sources { IfErr result.1 (HasFailedFor
        (file_at (T.bytes texts.now) (T.can_fail texts.now) (string_bytes paths.now.sources))
        Sources) }
{
    thread::join(
        rt,
        || read_index(rt, alloc, texts, Role::Packages, &paths.packages),
        || read_index(rt, alloc, texts, Role::Sources, &paths.sources),
    )
}

/// Reads all three files before any fault of what they say is found. A failed read of Packages is
/// answered before one of Sources.
#[tactic(auto, using(crate::proofs::FirstFiles::archs_fail, crate::proofs::FirstFiles::packages_fail, crate::proofs::FirstFiles::sources_fail, crate::proofs::FirstFiles::flags_said))]
pub fn read_early<R: Threads + Sync, T: Texts + Sync>(
    rt: &R,
    alloc: Global,
    texts: &T,
    paths: &ArchivePaths,
) -> Result<EarlyTexts, FileFault>
    ensures texts { IfOk result (AreEarlyTextsIn
        (archive_files_at (T.bytes texts.now) (T.can_fail texts.now) paths.now)) }
    ensures cut { IfOk result AreFlags }
    ensures failed { IfErr result (HasFailedIn
        (archive_files_at (T.bytes texts.now) (T.can_fail texts.now) paths.now)) }
{
    let archs = read_one(alloc, texts, Role::Archs, &paths.archs)?;
    let (packages, sources) = read_indices(rt, alloc, texts, paths);
    let packages = packages?;
    let sources = sources?;
    let cut = CutOff {
        packages: packages.cut,
        sources: sources.cut,
    };
    Ok(EarlyTexts {
        archs,
        packages: packages.text,
        sources: sources.text,
        cut,
    })
}
