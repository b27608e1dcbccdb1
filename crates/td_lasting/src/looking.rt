//! What a command line comes to, before anything is changed.
ghost use Rattle.std.specs.Prelude.{◌≡◌, IfOk, filter};
ghost use Rattle.td_rows.specs.Table.{fits as fits_in};
ghost use Rattle.td_wbread.specs.Views.{parts_of};
ghost use Rattle.td_wbread.specs.Kinds.{kind_of as kind_in};
ghost use Rattle.td_script.specs.Replies.{skipped, taken};

use std::alloc::{AllocError, Global};
use td_core::Books;
use td_naming::{Skips, doubts, fits, matched, named};
use td_rows::{Key, Kind, Rows};
use td_wbread::{Command, kind_of};

/// A command with the keys that it takes, and the rows that it names and doesn't take.
#[derive(Drop)]
pub(crate) struct LookedUp {
    pub(crate) kind: Kind,
    pub(crate) keys: Vec<Key>,
    pub(crate) skips: Skips,
}

// The keys on whose rows the kind applies.
fn fitting(rows: &Rows, kind: &Kind, mut keys: Vec<Key>) -> Vec<Key>
    ensures { result.items ≡ filter (fits_in rows.now kind.now) keys.items }
{
    keys.retain(|key| fits(rows, kind, key));
    keys
}

/// What a command takes and skips of the rows as they are.
pub(crate) fn look_up(
    alloc: Global,
    books: &Books<'_>,
    command: &Command<'_>,
) -> Result<LookedUp, AllocError>
    ensures kind { IfOk result (λ found. found.kind ≡ kind_in (parts_of command.now)) }
    ensures keys { IfOk result (λ found. found.keys.items
        ≡ taken books.now.stock books.now.history (parts_of command.now)) }
    ensures skips { IfOk result (λ found. found.skips
        ≡ skipped books.now.stock books.now.history (parts_of command.now)) }
{
    let rows = books.rows();
    let supply = books.supply();
    let kind = kind_of(command)?;
    let named = named(alloc, rows, command)?;
    let matched = matched(alloc, command, supply, rows, &named)?;
    let doubts = doubts(alloc, command, supply, rows, &named)?;
    Ok(LookedUp {
        keys: fitting(rows, &kind, matched),
        skips: Skips::left(rows, &kind, doubts),
        kind,
    })
}
