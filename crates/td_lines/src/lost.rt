//! What is said of a name that no source has, and of a version that a source hasn't.
ghost use Rattle.std.specs.Prelude.{◌≡◌, ◌++◌, option_map, OnOk, string_bytes};
ghost use Rattle.td_indices.specs.Seen.{seen_binary};
ghost use Rattle.td_indices.specs.Supplying.{supply_of};
ghost use Rattle.td_version.specs.Reading.{reading};
ghost use Rattle.td_wbread.specs.Naming.{split_of};
ghost use Rattle.td_lines.specs.Lost.{built_as, is_version as is_version_of, lost_said, name_said};
ghost use Rattle.td_lines.specs.Lost.{source_built_as, version_said};

use std::alloc::AllocError;
use td_indices::{Archive, Binary};
use td_version::{is_same_version, split_rebuild};
use td_wbread::read_version;

// The source of a binary package, if the package has this name and the source is there.
fn source_if<'a>(
    archive: &Archive<'_, 'a>,
    binary: Option<Binary<'a>>,
    name: &str,
) -> Option<&'a str>
    ensures { option_map (λ s. s.now) result
        ≡ built_as archive.now name.now (option_map seen_binary binary.entry) }
{
    let binary = binary?;
    if binary.name == name && archive.source(binary.source).is_some() {
        Some(binary.source)
    } else {
        None
    }
}

// The source of the first binary package of this name. It looks at each package.
fn source_of<'a>(archive: &Archive<'_, 'a>, name: &str) -> Option<&'a str>
    ensures { option_map (λ s. s.now) result
        ≡ source_built_as (supply_of archive.now).offers name.now }
{
    for number in 0..archive.binary_count() {
        if let Some(source) = source_if(archive, archive.binary(number), name) {
            return Some(source);
        }
    }
    None
}

// Appends what is said of a name that is no source's, by the source whose package it is.
fn put_name(out: &mut String, name: &str, source: Option<&str>) -> Result<(), AllocError>
    ensures { OnOk result (string_bytes out.new
        ≡ string_bytes out.old ++ name_said name.now (option_map (λ s. s.now) source.entry)) }
{
    match source {
        Some(source) => {
            out.push_str(name)?;
            out.push_str(" is a package of ")?;
            out.push_str(source)
        }
        None => {
            out.push_str("no source ")?;
            out.push_str(name)
        }
    }
}

/// Appends what is said of a name that is no source's.
pub fn put_lost(out: &mut String, archive: &Archive<'_, '_>, name: &str) -> Result<(), AllocError>
    ensures { OnOk result (string_bytes out.new
        ≡ string_bytes out.old ++ lost_said (supply_of archive.now) name.now) }
{
    put_name(out, name, source_of(archive, name))
}

// The base of a word's version.
fn base_of(word: &str) -> &str
    ensures { result.now ≡ (split_of word.now).0 }
{
    split_rebuild(word).0
}

/// Whether a word's version, without its rebuild number, is equal in order to a source's.
pub fn is_version(version: &str, word: &str) -> bool
    ensures { result ≡ is_version_of version.now word.now }
{
    match (read_version(base_of(word)), read_version(version)) {
        (Ok(base), Ok(own)) => is_same_version(&base, &own),
        _ => false,
    }
}

/// Appends what is said of a source with this version, of which a word has another one.
pub fn put_version(
    out: &mut String,
    source: &str,
    version: &str,
    word: &str,
) -> Result<(), AllocError>
    ensures { OnOk result (string_bytes out.new
        ≡ string_bytes out.old ++ version_said source.now version.now word.now) }
{
    out.push_str(source)?;
    out.push_str(" is ")?;
    out.push_str(version)?;
    out.push_str(", not ")?;
    out.push_str(word)
}
