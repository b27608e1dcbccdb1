//! The packages that the stanzas of Packages stand for, each by itself: a part of the stanzas after
//! the other, or parts side by side.
ghost use Rattle.std.specs.Prelude.{◌≡◌, ◌+◌, ◌≤◌, ◌^◌, ◌<◌, ℕ, List, Ok, IfErr, OnOk};
ghost use Rattle.std.specs.Prelude.{true, length};
ghost use denote.Param.Send.{IsSync};
ghost use Rattle.td_stanza.specs.Field.{Entry};
ghost use Rattle.td_stanza.specs.Table.{fields_of};
ghost use Rattle.td_relation.specs.Arch.{ArchWords};
ghost use Rattle.td_relation.specs.TableView.{table};
ghost use Rattle.td_indices.specs.Kept.{KeptBinary, binaries_of};
ghost use Rattle.td_indices.specs.Reading.{IsFaultOf, binary_step, is_entry};
ghost use Rattle.td_indices.specs.inner.Parts.{ArePartsRead, IsPartRead, put_all};

use crate::archive_fault::{ArchiveFault, IndexFile};
use crate::binary_keeping::read_binary;
use crate::packaged::{PackageKey, Packaged};
use crate::stanza_fault::at_stanza;
use crate::stanza_pieces::StanzaPieces;
use std::alloc::Global;
use std::thread;
use std::thread::Threads;
use td_relation::Archs;
use td_stanza::Stanza;

/// The fewest stanzas that are worth a second thread.
const LEAST: usize = 512;

/// How often the stanzas are halved, at most: Rust's libraries, which stand side by side, have
/// relations that are several times as long as those of others, so that of eight parts the one with
/// them took longer than the rest.
pub const HALVINGS: usize = 4;

/// Takes the package of a stanza, if it has one, after others.
fn take_binary<'a>(
    alloc: Global,
    packages: &mut Vec<(PackageKey<'a>, Packaged<'a>)>,
    archs: &Archs<'_>,
    stanza: &Stanza<'_, 'a>,
    number: usize,
) -> Result<(), ArchiveFault>
    requires { number + 1 < 2 ^ 64 }
    ensures ok { OnOk result ((seen : List KeptBinary)
        → binary_step (table archs.now) number (put_all seen (binaries_of packages.old.items))
        (fields_of stanza.now) ≡ Ok (put_all seen (binaries_of packages.new.items))) }
    ensures err { IfErr result (λ e. (seen : List KeptBinary)
        → IsFaultOf (binary_step (table archs.now) number seen (fields_of stanza.now)) e) }
    ensures entry { IfErr result (λ e. is_entry e ≡ true) }
{
    match read_binary(alloc, archs, stanza, number) {
        Ok(None) => Ok(()),
        Ok(Some(package)) => match packages.push(package) {
            Ok(()) => Ok(()),
            Err(_) => Err(ArchiveFault::NoMemory),
        },
        Err(fault) => Err(at_stanza(IndexFile::Packages, number, fault)),
    }
}

// The packages of the stanzas from a number up to another.
fn read_part<'a>(
    alloc: Global,
    archs: &Archs<'_>,
    stanzas: &StanzaPieces<'a>,
    from: usize,
    to: usize,
) -> Result<Vec<(PackageKey<'a>, Packaged<'a>)>, ArchiveFault>
    requires order { from ≤ to }
    requires within { to ≤ length stanzas.now }
    ensures { IsPartRead (table archs.now) stanzas.now from to result }
{
    let Ok(mut packages) = Vec::with_capacity(alloc, to - from) else {
        return Err(ArchiveFault::NoMemory);
    };
    for number in from..to {
        if let Some(stanza) = stanzas.stanza(number) {
            match take_binary(alloc, &mut packages, archs, &stanza, number) {
                Ok(()) => {}
                Err(fault) => return Err(fault),
            }
        }
    }
    Ok(packages)
}

// A part by itself, as a list of parts.
fn alone<'a>(
    alloc: Global,
    read: Result<Vec<(PackageKey<'a>, Packaged<'a>)>, ArchiveFault>,
) -> Result<Vec<Vec<(PackageKey<'a>, Packaged<'a>)>>, ArchiveFault>
    ensures { (table : List ArchWords) (stanzas : List (List Entry)) (from to : ℕ)
        → IsPartRead table stanzas from to read.entry → ArePartsRead table stanzas from to result }
{
    let packages = match read {
        Ok(packages) => packages,
        Err(fault) => return Err(fault),
    };
    let mut parts = Vec::new(alloc);
    match parts.push(packages) {
        Ok(()) => Ok(parts),
        Err(_) => Err(ArchiveFault::NoMemory),
    }
}

/// Some parts, and others after them. No package is moved.
fn joined<'a>(
    front: Result<Vec<Vec<(PackageKey<'a>, Packaged<'a>)>>, ArchiveFault>,
    rest: Result<Vec<Vec<(PackageKey<'a>, Packaged<'a>)>>, ArchiveFault>,
) -> Result<Vec<Vec<(PackageKey<'a>, Packaged<'a>)>>, ArchiveFault>
    ensures { (table : List ArchWords) (stanzas : List (List Entry)) (from middle to : ℕ)
        → ArePartsRead table stanzas from middle front.entry
        → ArePartsRead table stanzas middle to rest.entry
        → ArePartsRead table stanzas from to result }
{
    let mut front = match front {
        Ok(parts) => parts,
        Err(fault) => return Err(fault),
    };
    let mut rest = match rest {
        Ok(parts) => parts,
        Err(fault) => return Err(fault),
    };
    match front.append(&mut rest) {
        Ok(()) => Ok(front),
        Err(_) => Err(ArchiveFault::NoMemory),
    }
}

/// The packages of the stanzas from a number up to another, in parts that are halved so often, each
/// in a thread: a list for each part.
#[cycle(parts)]
pub fn read_parts<'a, R: Threads + Sync>(
    rt: &R,
    alloc: Global,
    archs: &Archs<'_>,
    stanzas: &StanzaPieces<'a>,
    from: usize,
    to: usize,
    halvings: usize,
) -> Result<Vec<Vec<(PackageKey<'a>, Packaged<'a>)>>, ArchiveFault>
    requires order { from ≤ to }
    requires within { to ≤ length stanzas.now }
    ensures { ArePartsRead (table archs.now) stanzas.now from to result }
{
    if halvings == 0 || to - from < LEAST {
        return alone(alloc, read_part(alloc, archs, stanzas, from, to));
    }
    let middle = stanzas.middle(from, to);
    let left = halvings - 1;
    let of_front = move || -> Result<Vec<Vec<(PackageKey, Packaged)>>, ArchiveFault>
        requires { IsSync R.row × (from ≤ middle) × (middle ≤ length stanzas.now) }
        ensures { ArePartsRead (table archs.entry.now) stanzas.entry.now from middle result }
    { read_parts(rt, alloc, archs, stanzas, from, middle, left) };
    let of_rest = move || -> Result<Vec<Vec<(PackageKey, Packaged)>>, ArchiveFault>
        requires { IsSync R.row × (middle ≤ to) × (to ≤ length stanzas.now) }
        ensures { ArePartsRead (table archs.entry.now) stanzas.entry.now middle to result }
    { read_parts(rt, alloc, archs, stanzas, middle, to, left) };
    let (front, rest) = thread::join(rt, of_front, of_rest);
    joined(front, rest)
}
