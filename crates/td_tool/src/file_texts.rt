//! The files of an archive, as texts.
ghost use Rattle.std.specs.Prelude.{IfOk, IfErr, string_bytes};
ghost use Rattle.td_tool.specs.Checks.{IsTextOf, archive_files_at};
ghost use Rattle.td_tool.specs.CheckInside.{AreTextsIn, HasFailedIn};
ghost use Rattle.td_tool.specs.TrackInside.{HasFailedFor};
ghost use Rattle.td_tool.specs.Tracks.{file_at};
ghost use Rattle.td_inputs.specs.declared.role.Role.TheVariants.{Packages, Sources};

use crate::texts::Texts;
use std::alloc::Global;
use std::thread;
use std::thread::Threads;
use td_bytes::TextFault;
use td_inputs::Role;
use td_words::ArchivePaths;

/// The longest file, in bytes.
pub const FILE_LIMIT: usize = 1_073_741_824;

/// The texts of the three files.
#[derive(Drop)]
pub struct FileTexts {
    pub archs: String,
    pub packages: String,
    pub sources: String,
}

/// A file that wasn't read, and why.
#[derive(Clone, Copy, Drop)]
pub struct FileFault {
    pub role: Role,
    pub fault: TextFault,
}

/// Reads the file of a role.
pub fn read_one<T: Texts>(
    alloc: Global,
    texts: &T,
    role: Role,
    path: &String,
) -> Result<String, FileFault>
    ensures text { IfOk result (λ text.
        IsTextOf (T.bytes texts.now (string_bytes path.now)) (string_bytes text)) }
    ensures failed { IfErr result (HasFailedFor
        (file_at (T.bytes texts.now) (T.can_fail texts.now) (string_bytes path.now)) role) }
{
    match texts.text(alloc, path.as_str(), FILE_LIMIT) {
        Ok(text) => Ok(text),
        Err(fault) => Err(FileFault { role, fault }),
    }
}

// Reads the two indices side by side, Packages in a thread of its own.
fn read_indices<T: Texts + Sync>(
    rt: &(impl Threads + Sync),
    alloc: Global,
    texts: &T,
    paths: &ArchivePaths,
) -> (Result<String, FileFault>, Result<String, FileFault>)
    ensures packages { IfOk result.0 (λ text.
        IsTextOf (T.bytes texts.now (string_bytes paths.now.packages)) (string_bytes text)) }
    ensures no_packages { IfErr result.0 (HasFailedFor
        (file_at (T.bytes texts.now) (T.can_fail texts.now) (string_bytes paths.now.packages))
        Packages) }
    ensures sources { IfOk result.1 (λ text.
        IsTextOf (T.bytes texts.now (string_bytes paths.now.sources)) (string_bytes text)) }
    ensures no_sources { IfErr result.1 (HasFailedFor
        (file_at (T.bytes texts.now) (T.can_fail texts.now) (string_bytes paths.now.sources))
        Sources) }
{
    thread::join(
        rt,
        || read_one(alloc, texts, Role::Packages, &paths.packages),
        || read_one(alloc, texts, Role::Sources, &paths.sources),
    )
}

/// Reads all three files before anything is looked at. A failed read of Packages is answered before
/// one of Sources.
#[tactic(auto, using(crate::proofs::FirstFiles::archs_fail, crate::proofs::FirstFiles::packages_fail, crate::proofs::FirstFiles::sources_fail))]
pub fn read_files<T: Texts + Sync>(
    rt: &(impl Threads + Sync),
    alloc: Global,
    texts: &T,
    paths: &ArchivePaths,
) -> Result<FileTexts, FileFault>
    ensures texts { IfOk result (AreTextsIn
        (archive_files_at (T.bytes texts.now) (T.can_fail texts.now) paths.now)) }
    ensures failed { IfErr result (HasFailedIn
        (archive_files_at (T.bytes texts.now) (T.can_fail texts.now) paths.now)) }
{
    let archs = read_one(alloc, texts, Role::Archs, &paths.archs)?;
    let (packages, sources) = read_indices(rt, alloc, texts, paths);
    let packages = packages?;
    let sources = sources?;
    Ok(FileTexts {
        archs,
        packages,
        sources,
    })
}
