//! The rows that a command names and doesn't take.
ghost use Rattle.std.specs.Prelude.{◌≡◌, Bool, List, filter, map};
ghost use Rattle.td_rows.specs.declared.key.Key.{Key as KeyValue};
ghost use Rattle.td_rows.specs.Table.{fits as fits_in};
ghost use Rattle.td_naming.specs.Skips.{doubt, is_left as is_left_in, left_of, renewed, skips_of};
ghost use Rattle.td_naming.specs.Skips.{state_at as state_in};

use std::marker::Model;
use td_rows::{Key, Kind, Rows, State, applies};

/// Why a row that a command names isn't taken.
#[derive(Clone, Copy, Debug, PartialEq, Eq)]
pub enum SkipReason {
    /// The command names another version.
    Version,
    /// The command doesn't apply to the row, which is in this state.
    State(State),
}

/// A row that a command names and doesn't take.
#[derive(Debug, Drop)]
pub struct Skip {
    pub key: Key,
    pub reason: SkipReason,
}

/// The rows that a command names and doesn't take, in the order of their keys. Contracts see the
/// list.
#[derive(Debug, Drop)]
pub struct Skips {
    skips: Vec<Skip>,
}

impl Model for Skips {
    ghost use Rattle.std.specs.Prelude.{List};
    ghost use Rattle.td_naming.specs.declared.skips.Skip.{Skip};

    ghost Value = { List Skip };

    ghost view = { λ s. s.skips.items };
}

/// Whether the key has a row and the kind applies on it.
pub fn fits(rows: &Rows, kind: &Kind, key: &Key) -> bool
    ensures { result ≡ fits_in rows.now kind.now key.now }
{
    match rows.get(key) {
        Some(row) => applies(kind, row),
        None => false,
    }
}

// Whether a doubt is a skip.
fn is_left(rows: &Rows, kind: &Kind, skip: &Skip) -> bool
    ensures { result ≡ is_left_in rows.now kind.now skip.now }
{
    match &skip.reason {
        SkipReason::Version => true,
        SkipReason::State(_) => !fits(rows, kind, &skip.key),
    }
}

// The state of the key's row.
fn state_at(rows: &Rows, key: &Key) -> State
    ensures { result ≡ state_in rows.now key.now }
{
    match rows.get(key) {
        Some(row) => row.state,
        None => State::NeedsBuild,
    }
}

// The state of a skipped row is the one that it has now.
fn renew(rows: &Rows, skip: &mut Skip)
    ensures { skip.new ≡ renewed rows.now skip.old }
{
    if let SkipReason::State(_) = &skip.reason {
        skip.reason = SkipReason::State(state_at(rows, &skip.key));
    }
}

fn renew_each(rows: &Rows, skips: &mut Vec<Skip>)
    ensures { skips.new.items ≡ map (renewed rows.now) skips.old.items }
{
    for skip in skips.iter_mut() {
        renew(rows, skip);
    }
}

impl Skips {
    /// The skips just before the entry: the doubts about the named rows that aren't taken, with
    /// the states that these rows have now. It takes no memory.
    pub fn left(rows: &Rows, kind: &Kind, mut doubts: Vec<Skip>) -> Skips
        ensures left { result ≡ left_of kind.now doubts.items rows.now }
        ensures skips { (matches : KeyValue → Bool) (named : List KeyValue)
            → doubts.items ≡ map (doubt matches) named
            → result ≡ skips_of matches kind.now named rows.now }
    {
        doubts.retain(|skip| is_left(rows, kind, skip));
        renew_each(rows, &mut doubts);
        Skips { skips: doubts }
    }

    /// The skips in order.
    pub fn as_slice(&self) -> &[Skip]
        ensures { result.now ≡ self.now }
    {
        &self.skips
    }
}
