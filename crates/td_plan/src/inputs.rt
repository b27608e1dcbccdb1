//! What a plan is made of.
use td_indices::Archive;
use td_query::{Marks, Status};
use td_rows::{Row, Rows};

/// What a plan is made of: an archive, what a tracker says of its stanzas, and the rows as they
/// are.
#[derive(Clone, Copy)]
pub struct Inputs<'x, 't, 'a> {
    pub archive: &'x Archive<'t, 'a>,
    pub marks: &'x Marks,
    pub rows: &'x Rows,
}

impl<'x, 't, 'a> Inputs<'x, 't, 'a> {
    ghost use Rattle.std.specs.Prelude.{◌≡◌, ◌<◌, length, slice_get};
    ghost use Rattle.std.specs.Option.{option_copied, option_map_or};
    ghost use Rattle.std.specs.Prelude.{false};
    ghost use Rattle.td_rows.specs.Table.{row_of};
    ghost use Rattle.td_query.specs.Statuses.{status_at};
    ghost use Rattle.td_plan.specs.Premises.{Premises, arch_at, is_bad as is_bad_in};
    ghost use Rattle.td_plan.specs.inner.Inputs.{AreFor};

    /// The row of a source on the architecture at a place.
    pub fn row(&self, source: &str, place: usize) -> Option<&'x Row>
        requires { place < length self.now.archive.now.table }
        ensures { option_copied result ≡ row_of self.now.rows.now (record {
          source = source.now;
          arch = arch_at self.now.archive.now.table place;
        }) }
    {
        let number = self
            .rows
            .number_of(source, self.archive.archs().name(place))?;
        let (_, row) = self.rows.at(number)?;
        // (its clause says that the keys rise)
        let _count = self.rows.len();
        Some(row)
    }

    /// The status of the row of the source with a number at a place, where it is affected.
    pub fn status(&self, source: usize, place: usize) -> Option<Status>
        ensures { (p : Premises) → AreFor self.now p
            → result ≡ status_at p.archive p.tracker source place }
    {
        self.marks.status(self.archive, source, place)
    }

    /// Whether the tracker calls the binary package with a number bad.
    pub fn is_bad(&self, binary: usize) -> bool
        ensures { (p : Premises) → AreFor self.now p → result
            ≡ option_map_or (is_bad_in p) (slice_get p.archive.binaries binary) false }
    {
        self.marks.is_bad(binary)
    }
}
