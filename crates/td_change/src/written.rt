//! What a kind writes into a row.
ghost use Rattle.std.specs.Prelude.{◌≡◌};
ghost use Rattle.td_rows.specs.Kinds.{written};

use td_rows::{Cells, Kind, cells_of};

/// The cells that an entry of the kind writes: its own, except a sweep's extra.
pub fn written_by(kind: &Kind) -> Cells
    ensures { result ≡ written kind.now }
{
    let cells = cells_of(kind);
    match kind {
        Kind::Sweep => Cells {
            extra: false,
            ..cells
        },
        _ => cells,
    }
}
