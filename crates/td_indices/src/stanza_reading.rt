//! What the stanzas of the two indices keep, stanza by stanza up to the first fault.
ghost use Rattle.std.specs.Prelude.{
  ◌≡◌,
  ◌+◌,
  ◌<◌,
  ◌^◌,
  true,
  List,
  Ok,
  IfOk,
  IfErr,
  OnOk,
  MatchResult,
  length,
};
ghost use Rattle.td_stanza.specs.Field.{Entry};
ghost use Rattle.td_stanza.specs.Table.{fields_of};
ghost use Rattle.td_relation.specs.Arch.{ArchWords};
ghost use Rattle.td_indices.specs.Kept.{binaries_of};
ghost use Rattle.td_indices.specs.Sources.{sources_of};
ghost use Rattle.td_indices.specs.Reading.{
  IsFaultOf,
  binaries_at,
  is_entry,
  source_step,
  sources_at,
};
ghost use Rattle.td_indices.specs.inner.IndexReading.{IsOfStanza};
ghost use Rattle.td_indices.specs.inner.Parts.{ArePartsRead};
ghost use Rattle.td_indices.specs.inner.Sound.{AreSound, IsSound};

use crate::archive_fault::{ArchiveFault, IndexFile};
use crate::binaries::Binaries;
use crate::packaged::{PackageKey, Packaged};
use crate::source_keeping::keep_source;
use crate::source_reading::read_source;
use crate::sourced::Sourced;
use crate::stanza_fault::at_stanza;
use crate::stanza_pieces::StanzaPieces;
use indexmap::IndexMap;
use std::alloc::Global;
use td_stanza::Stanza;

/// The packages that count, of those that all stanzas stand for; there are `count` stanzas.
pub fn kept_of<'a>(
    alloc: Global,
    read: Result<Vec<Vec<(PackageKey<'a>, Packaged<'a>)>>, ArchiveFault>,
    count: usize,
) -> Result<Binaries<'a>, ArchiveFault>
    ensures { (table : List ArchWords) (stanzas : List (List Entry))
        → ArePartsRead table stanzas 0 (length stanzas) read.entry
        → MatchResult result (λ kept. binaries_at table stanzas ≡ Ok (binaries_of kept))
        (IsOfStanza (binaries_at table stanzas)) }
{
    let parts = match read {
        Ok(parts) => parts,
        Err(fault) => return Err(fault),
    };
    match Binaries::of_parts(alloc, parts, count) {
        Ok(kept) => Ok(kept),
        Err(_) => Err(ArchiveFault::NoMemory),
    }
}

fn take_source<'a>(
    alloc: Global,
    kept: &mut IndexMap<&'a str, Sourced<'a>>,
    stanza: &Stanza<'_, 'a>,
    number: usize,
    sound: bool,
) -> Result<(), ArchiveFault>
    requires number { number + 1 < 2 ^ 64 }
    requires sound { sound ≡ true → IsSound (fields_of stanza.now) }
    ensures ok { OnOk result
        (source_step number (sources_of kept.old.entries) (fields_of stanza.now)
        ≡ Ok (sources_of kept.new.entries)) }
    ensures err { IfErr result (λ e.
        IsFaultOf (source_step number (sources_of kept.old.entries) (fields_of stanza.now)) e) }
    ensures entry { IfErr result (λ e. is_entry e ≡ true) }
{
    match read_source(alloc, stanza, number, sound) {
        Ok(None) => Ok(()),
        Ok(Some((name, sourced))) => match keep_source(kept, name, sourced) {
            Ok(()) => Ok(()),
            Err(_) => Err(ArchiveFault::NoMemory),
        },
        Err(fault) => Err(at_stanza(IndexFile::Sources, number, fault)),
    }
}

/// The sources that the stanzas of Sources keep. Where they are `sound`, what their builds ask for
/// isn't read.
pub fn keep_sources<'a>(
    alloc: Global,
    stanzas: &StanzaPieces<'a>,
    sound: bool,
) -> Result<IndexMap<&'a str, Sourced<'a>>, ArchiveFault>
    requires { sound ≡ true → AreSound stanzas.now }
    ensures ok { IfOk result (λ kept. sources_at stanzas.now ≡ Ok (sources_of kept.entries)) }
    ensures err { IfErr result (λ e. IsFaultOf (sources_at stanzas.now) e) }
    ensures entry { IfErr result (λ e. is_entry e ≡ true) }
{
    let Ok(mut kept) = IndexMap::with_capacity(alloc, stanzas.len()) else {
        return Err(ArchiveFault::NoMemory);
    };
    for number in 0..stanzas.len() {
        if let Some(stanza) = stanzas.stanza(number) {
            match take_source(alloc, &mut kept, &stanza, number, sound) {
                Ok(()) => {}
                Err(fault) => return Err(fault),
            }
        }
    }
    Ok(kept)
}
