//! A stanza of Sources is read: its name, its version and its Architecture field.
ghost use Rattle.std.specs.Prelude.{◌≡◌, ℕ, true, Ok, IfOk, IfErr, OnOk, option_map};
ghost use Rattle.td_stanza.specs.Table.{fields_of};
ghost use Rattle.td_indices.specs.Fields.{Fails};
ghost use Rattle.td_indices.specs.inner.Sound.{IsSound};
ghost use Rattle.td_indices.specs.Sources.{
  SourcePackage,
  is_extra as is_extra_of,
  kept_source_at,
  source_at,
  source_found,
  source_of,
  whole_source_at,
  with_build_relations,
};

use crate::archive_fault::{EntryFault, IndexField, RelationField, VersionField};
use crate::field::{name_in, needed, value_of, version_in};
use crate::relation_field::relation_of;
use crate::sourced::Sourced;
use std::alloc::Global;
use td_stanza::Stanza;

/// Whether the source stands in the index only since a package was built with it.
fn is_extra(stanza: &Stanza<'_, '_>) -> bool
    ensures { result ≡ is_extra_of (fields_of stanza.now) }
{
    match value_of(stanza, "Extra-Source-Only") {
        Some(value) => value == "yes",
        None => false,
    }
}

/// The source of a stanza with a number.
#[tactic(auto, unfolding(crate::specs::Sources::source_at))]
fn read_head<'a>(
    stanza: &Stanza<'_, 'a>,
    number: usize,
) -> Result<(&'a str, Sourced<'a>), EntryFault>
    ensures head { source_found result ≡ source_at (fields_of stanza.now) }
    ensures numbered { IfOk result (λ p. p.1.stanza ≡ number) }
{
    let name = name_in(IndexField::Package, value_of(stanza, "Package"))?;
    let version = needed(IndexField::Version, value_of(stanza, "Version"))?;
    let archs = needed(IndexField::Architecture, value_of(stanza, "Architecture"))?;
    let parts = version_in(VersionField::Version, version)?;
    let sourced = Sourced {
        version,
        parts,
        archs,
        stanza: number,
    };
    Ok((name, sourced))
}

/// Reads what the builds of a source ask for, only for its faults.
#[tactic(auto, unfolding(crate::specs::Sources::with_build_relations))]
pub fn check_relations(alloc: Global, stanza: &Stanza<'_, '_>) -> Result<(), EntryFault>
    ensures ok { OnOk result ((number : ℕ) (head : SourcePackage)
        → with_build_relations number (fields_of stanza.now) head
        ≡ Ok (record { head = head; stanza = number })) }
    ensures err { IfErr result (λ e. (number : ℕ) (head : SourcePackage)
        → Fails (with_build_relations number (fields_of stanza.now) head) e) }
{
    match relation_of(alloc, stanza, RelationField::BuildDepends) {
        Ok(_) => {}
        Err(fault) => return Err(fault),
    }
    match relation_of(alloc, stanza, RelationField::BuildDependsArch) {
        Ok(_) => Ok(()),
        Err(fault) => Err(fault),
    }
}

// `sound` says that they were read before, and have none.
#[tactic(auto, unfolding(crate::specs::Sources::whole_source_at))]
fn read_whole<'a>(
    alloc: Global,
    stanza: &Stanza<'_, 'a>,
    number: usize,
    sound: bool,
) -> Result<(&'a str, Sourced<'a>), EntryFault>
    requires { sound ≡ true → IsSound (fields_of stanza.now) }
    ensures ok { IfOk result (λ p.
        whole_source_at number (fields_of stanza.now) ≡ Ok (source_of p)) }
    ensures err { IfErr result (λ e. Fails (whole_source_at number (fields_of stanza.now)) e) }
{
    let source = match read_head(stanza, number) {
        Ok(source) => source,
        Err(fault) => return Err(fault),
    };
    if sound {
        return Ok(source);
    }
    match check_relations(alloc, stanza) {
        Ok(()) => Ok(source),
        Err(fault) => Err(fault),
    }
}

/// What a stanza of Sources is kept as; `None` where it is extra. Where it is `sound`, what its
/// builds ask for was read before, without a fault, and isn't read again.
#[tactic(auto, unfolding(crate::specs::Sources::kept_source_at))]
pub fn read_source<'a>(
    alloc: Global,
    stanza: &Stanza<'_, 'a>,
    number: usize,
    sound: bool,
) -> Result<Option<(&'a str, Sourced<'a>)>, EntryFault>
    requires { sound ≡ true → IsSound (fields_of stanza.now) }
    ensures ok { IfOk result (λ o.
        kept_source_at number (fields_of stanza.now) ≡ Ok (option_map source_of o)) }
    ensures err { IfErr result (λ e. Fails (kept_source_at number (fields_of stanza.now)) e) }
{
    if is_extra(stanza) {
        return Ok(None);
    }
    match read_whole(alloc, stanza, number, sound) {
        Ok(source) => Ok(Some(source)),
        Err(fault) => Err(fault),
    }
}
