//! What the steps' tests ask of keys, rows and phases.
ghost use Rattle.std.specs.Prelude.{◌≡◌, position};
ghost use Rattle.td_rows.specs.Table.{fits as fits_in};
ghost use Rattle.td_core.specs.Phases.{is_pinned as is_pinned_in};
ghost use Rattle.td_core.specs.Refusals.{are_keys as are_keys_of, is_missing};
ghost use Rattle.td_core.specs.Refusals.{is_unfit as is_unfit_on};

use crate::step::Phase;
use td_rows::{Key, Kind, Rows, applies, are_ascending};

/// Whether they strictly rise, and there is one at least.
pub(crate) fn are_keys(keys: &[Key]) -> bool
    ensures { result ≡ are_keys_of keys.now }
{
    !keys.is_empty() && are_ascending(keys)
}

/// Whether the row is neither offered nor held.
pub(crate) fn is_pinned(phase: &Phase) -> bool
    ensures { result ≡ is_pinned_in phase.now }
{
    !matches!(phase, Phase::Open | Phase::Held(_))
}

/// The place of the first key that has no row.
pub(crate) fn first_missing(rows: &Rows, keys: &[Key]) -> Option<usize>
    ensures { result ≡ position (is_missing rows.now) keys.now }
{
    keys.iter().position(|key| rows.get(key).is_none())
}

/// Whether the key has a row on which the kind applies.
pub(crate) fn fits(rows: &Rows, kind: &Kind, key: &Key) -> bool
    ensures { result ≡ fits_in rows.now kind.now key.now }
{
    match rows.get(key) {
        Some(row) => applies(kind, row),
        None => false,
    }
}

/// The place of the first key on whose row the kind doesn't apply.
pub(crate) fn first_unfit(rows: &Rows, kind: &Kind, keys: &[Key]) -> Option<usize>
    ensures { result ≡ position (is_unfit_on rows.now kind.now) keys.now }
{
    keys.iter().position(|key| !fits(rows, kind, key))
}
