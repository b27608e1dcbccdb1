//! What a clerk learns of a command's rows.
ghost use Rattle.std.specs.Prelude.{◌≡◌, ◌≤◌, [], length, vec_capacity, true, IfOk};
ghost use Rattle.td_rows.specs.Keys.{ascending};
ghost use Rattle.td_rows.specs.Table.{keys_of};
ghost use Rattle.td_core.specs.History.{rows_of};
ghost use Rattle.td_wbread.specs.Kinds.{kind_of as kind_in};
ghost use Rattle.td_wbread.specs.Views.{parts_of};
ghost use Rattle.td_book.specs.Commands.{named_by};
ghost use Rattle.td_desk.specs.Calls.{skipped_keys};
ghost use Rattle.td_desk.specs.inner.Matching.{is_next as is_next_of, left_out as left_out_of};

use std::alloc::{AllocError, Global};
use td_book::Book;
use td_naming::Skip;
use td_rows::{Key, Kind};
use td_wbread::{Command, kind_of};

/// What the receipt of a command is made of: its kind, the keys that it names, and room for those
/// that it takes.
#[derive(Drop)]
pub(crate) struct Draft {
    pub(crate) kind: Kind,
    pub(crate) named: Vec<Key>,
    pub(crate) told: Vec<Key>,
}

impl Draft {
    /// The draft of a command to a book.
    pub(crate) fn of(
        alloc: Global,
        book: &Book<'_>,
        command: &Command<'_>,
    ) -> Result<Draft, AllocError>
        ensures kind { IfOk result (λ draft. draft.kind ≡ kind_in (parts_of command.now)) }
        ensures named { IfOk result (λ draft.
            draft.named.items ≡ named_by (parts_of command.now) book.now) }
        ensures told { IfOk result (λ draft.
            (draft.told.items ≡ []) × (length draft.named.items ≤ vec_capacity draft.told)) }
        ensures rising { IfOk result (λ _. ascending (keys_of (rows_of book.now.history)) ≡ true) }
    {
        let kind = kind_of(command)?;
        let named = book.named(command)?;
        let told = Vec::with_capacity(alloc, named.len())?;
        Ok(Draft { kind, named, told })
    }
}

/// Moves the named keys into a list that has room for them, except those of the skips, which
/// come in the same order. It takes no memory.
pub(crate) fn left_out(named: Vec<Key>, skips: &[Skip], mut told: Vec<Key>) -> Vec<Key>
    requires empty { told.items ≡ [] }
    requires room { length named.items ≤ vec_capacity told }
    ensures { result.items ≡ left_out_of named.items (skipped_keys skips.now) }
{
    let mut rest = skips;
    for key in named {
        if is_next(rest, &key) {
            rest = &rest[1..];
        } else {
            told.push_reserved(key);
        }
    }
    told
}

// Whether the first of the skips, if there is one, is of the key.
fn is_next(skips: &[Skip], key: &Key) -> bool
    ensures { result ≡ is_next_of (skipped_keys skips.now) key.now }
{
    match skips.first() {
        Some(skip) => skip.key == *key,
        None => false,
    }
}
