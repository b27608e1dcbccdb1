//! The lines of affected rows.
ghost use Rattle.std.specs.Prelude.{◌≡◌, ◌++◌, ◌∷◌, [], IfOk, OnOk, string_bytes};
ghost use Rattle.td_report.specs.inner.LinesText.{lines_text};

use crate::item::Item;
use crate::item_line::put_item_line;
use crate::shown::Shown;
use std::alloc::{AllocError, Global};

/// What makes the lines of rows.
pub trait Lines {
    ghost use Rattle.std.specs.Prelude.{◌≡◌, IfOk, string_bytes};
    ghost use Rattle.td_report.specs.declared.shown.Shown.{Shown};
    ghost use Rattle.td_report.specs.inner.LinesText.{lines_text};

    /// What has to hold before lines are made.
    ghost ready: { Self → Type 0 };

    /// Which rows have a line.
    ghost shown: { Self → Shown };

    fn of(&self, alloc: Global, items: &[Item<'_>]) -> Result<String, AllocError>
        requires { ready self.now }
        ensures { IfOk result (λ text. string_bytes text ≡ lines_text (shown self.now) items.now) };
}

/// All lines in one go.
#[derive(Drop)]
pub struct Whole {
    pub shown: Shown,
}

impl Lines for Whole {
    ghost ready = { λ whole. Unit {0} };

    ghost shown = { λ whole. whole.shown };

    fn of(&self, alloc: Global, items: &[Item<'_>]) -> Result<String, AllocError> {
        lines_of(alloc, items, self.shown)
    }
}

// Appends the line of a row that is shown.
fn put_shown(out: &mut String, item: &Item<'_>, shown: Shown) -> Result<(), AllocError>
    ensures { OnOk result (string_bytes out.new
        ≡ string_bytes out.old ++ lines_text shown (item.now ∷ [])) }
{
    if shown.has(item.status) {
        return put_item_line(out, item);
    }
    Ok(())
}

/// The lines of rows.
pub fn lines_of(alloc: Global, items: &[Item<'_>], shown: Shown) -> Result<String, AllocError>
    ensures { IfOk result (λ text. string_bytes text ≡ lines_text shown items.now) }
{
    let mut text = String::new(alloc);
    for item in items {
        put_shown(&mut text, item, shown)?;
    }
    Ok(text)
}
