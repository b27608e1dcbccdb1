//! The book at rest.
ghost use Rattle.std.specs.Prelude.{◌≡◌, IfOk};

use crate::inner::Inner;
use std::alloc::{AllocError, Global};
use std::marker::Model;
use td_rows::Key;

/// The rows, their journal, what is on offer, and the desk's seat. At rest every row that needs a
/// build is offered.
#[derive(Drop)]
pub struct Book<'a> {
    pub(crate) inner: Inner<'a>,
    pub(crate) alloc: Global,
}

impl<'a> Model for Book<'a> {
    ghost use Rattle.td_book.specs.Desk.{BookModel};

    ghost Value = { BookModel };

    ghost use Rattle.std.specs.Prelude.{◌≡◌, []};
    ghost use Rattle.td_core.specs.History.{rows_of};
    ghost use Rattle.td_book.specs.Seen.{seen_off};
    ghost use Rattle.td_book.specs.Desk.{book_of};

    ghost view = { λ b. book_of b.inner };

    ghost invariant = { λ b. b.inner.view ≡ seen_off [] (rows_of b.inner.books.history) };
}

/// Copies of keys.
pub(crate) fn copies(alloc: Global, keys: &[Key]) -> Result<Vec<Key>, AllocError>
    ensures { IfOk result (λ copies. copies.items ≡ keys.now) }
{
    let mut copies = Vec::with_capacity(alloc, keys.len())?;
    for key in keys {
        copies.push(key.copy()?)?;
    }
    Ok(copies)
}
