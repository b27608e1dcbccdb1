//! The one that counts is kept of several stanzas of one source.
ghost use Rattle.std.specs.Prelude.{◌≡◌, OnOk};
ghost use Rattle.std.specs.Str.{bytes_eq};
ghost use Rattle.indexmap.specs.IndexMap.{get_by};
ghost use Rattle.td_version.specs.Version.{parts_of};
ghost use Rattle.td_indices.specs.Kept.{put};
ghost use Rattle.td_indices.specs.Sources.{lower_source, same_source, source_of, source_stays};
ghost use Rattle.td_indices.specs.Sources.{sources_of};

use crate::sourced::Sourced;
use indexmap::IndexMap;
use std::alloc::AllocError;
use td_version::{Version, cmp_version};

/// Whether the map has a source of the name with a version that isn't lower.
fn has_better(kept: &IndexMap<&str, Sourced<'_>>, name: &str, parts: &Version<'_>) -> bool
    ensures { result
        ≡ source_stays (get_by (λ k. bytes_eq name.now k.now) kept.now) (parts_of parts.now) }
{
    match kept.get(name) {
        Some(earlier) => !cmp_version(&earlier.parts, parts).is_lt(),
        None => false,
    }
}

/// Keeps a source: instead of an earlier one of its name if that has a lower version, and after all
/// if there is none of its name.
pub fn keep_source<'a>(
    kept: &mut IndexMap<&'a str, Sourced<'a>>,
    name: &'a str,
    sourced: Sourced<'a>,
) -> Result<(), AllocError>
    ensures { OnOk result (sources_of kept.new.entries
        ≡ put same_source lower_source (sources_of kept.old.entries)
        (source_of (name.entry, sourced.entry))) }
{
    if has_better(kept, name, &sourced.parts) {
        return Ok(());
    }
    match kept.insert(name, sourced) {
        Ok(_) => Ok(()),
        Err(_) => Err(AllocError),
    }
}
