//! A stanza of Packages is read: its name, where it is, its versions and its source.
ghost use Rattle.std.specs.Prelude.{◌≡◌, option_map};
ghost use Rattle.td_stanza.specs.Table.{fields_of};
ghost use Rattle.td_version.specs.Version.{parts_of};
ghost use Rattle.td_relation.specs.TableView.{table};
ghost use Rattle.td_indices.specs.Binaries.{
  front_name as front_name_of,
  head_found,
  heads_found,
  home_of as home_in,
  local_at,
  origin_found,
  origin_of,
  package_at,
  source_version as source_version_of,
};
ghost use Rattle.td_indices.specs.Fields.{version_found};

use crate::archive_fault::{EntryFault, IndexField, VersionField};
use crate::field::{name_in, needed, value_of, version_in};
use crate::packaged::{Head, PackageKey};
use td_relation::Archs;
use td_stanza::Stanza;
use td_text::{cut_at, is_blank, is_name, name_run};
use td_version::Version;

/// Where packages with this Architecture field are, `Some(None)` for `all`; `None`: not here.
#[tactic(auto, unfolding(crate::specs::Binaries::home_of))]
fn home_of(archs: &Archs<'_>, arch: &str) -> Option<Option<usize>>
    ensures { result ≡ home_in (table archs.now) arch.now }
{
    if arch == "all" {
        return Some(None);
    }
    match archs.index(arch) {
        Some(place) => Some(Some(place)),
        None => None,
    }
}

/// The name before a version in brackets.
#[tactic(auto, unfolding(crate::specs::Binaries::front_name))]
fn front_name(front: &str) -> Option<&str>
    ensures { option_map (λ x. x.now) result ≡ front_name_of front.now }
{
    let (name, rest) = name_run(front);
    if is_name(name) && is_blank(rest) {
        Some(name)
    } else {
        None
    }
}

/// The source's name, and what comes after the bracket, if there is one.
#[tactic(auto, unfolding(crate::specs::Binaries::origin_of))]
fn origin<'a>(
    name: &'a str,
    source: Option<&'a str>,
) -> Result<(&'a str, Option<&'a str>), EntryFault>
    ensures { origin_found result ≡ origin_of name.now (option_map (λ x. x.now) source.entry) }
{
    let Some(text) = source else {
        return Ok((name, None));
    };
    match cut_at(text, '(') {
        None => {
            if is_name(text) {
                Ok((text, None))
            } else {
                Err(EntryFault::Missing(IndexField::Source))
            }
        }
        Some((front, rest)) => match front_name(front) {
            Some(name) => Ok((name, Some(rest))),
            None => Err(EntryFault::Missing(IndexField::Source)),
        },
    }
}

/// The source's version: the one after the bracket, or the package's own.
#[tactic(auto, unfolding(crate::specs::Binaries::source_version))]
fn source_version<'a>(own: Version<'a>, bracket: Option<&'a str>) -> Result<Version<'a>, EntryFault>
    ensures { version_found result
        ≡ source_version_of (parts_of own.entry) (option_map (λ x. x.now) bracket.entry) }
{
    let Some(rest) = bracket else {
        return Ok(own);
    };
    match cut_at(rest, ')') {
        Some((version, after)) => {
            if after.is_empty() {
                version_in(VersionField::Source, version)
            } else {
                Err(EntryFault::BadVersion(VersionField::Source))
            }
        }
        None => Err(EntryFault::BadVersion(VersionField::Source)),
    }
}

/// The versions and the source of a package that is here.
#[tactic(auto, unfolding(crate::specs::Binaries::local_at))]
fn local_head<'a>(
    stanza: &Stanza<'_, 'a>,
    name: &'a str,
    version: &'a str,
    arch: Option<usize>,
) -> Result<Head<'a>, EntryFault>
    ensures { head_found result ≡ local_at (fields_of stanza.now) name.now version.now arch }
{
    let (source, bracket) = origin(name, value_of(stanza, "Source"))?;
    let parts = version_in(VersionField::Version, version)?;
    let source_parts = source_version(parts, bracket)?;
    Ok(Head {
        key: PackageKey { name, arch },
        version,
        parts,
        source,
        source_parts,
    })
}

/// The binary package of a stanza; `None` where it isn't here.
#[tactic(auto, unfolding(crate::specs::Binaries::package_at))]
pub fn read_head<'a>(
    archs: &Archs<'_>,
    stanza: &Stanza<'_, 'a>,
) -> Result<Option<Head<'a>>, EntryFault>
    ensures { heads_found result ≡ package_at (table archs.now) (fields_of stanza.now) }
{
    let name = name_in(IndexField::Package, value_of(stanza, "Package"))?;
    let version = needed(IndexField::Version, value_of(stanza, "Version"))?;
    let arch = needed(IndexField::Architecture, value_of(stanza, "Architecture"))?;
    match home_of(archs, arch) {
        None => Ok(None),
        Some(place) => {
            let head = local_head(stanza, name, version, place)?;
            Ok(Some(head))
        }
    }
}
