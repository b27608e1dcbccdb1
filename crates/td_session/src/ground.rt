//! What a desk is opened over.
ghost use Rattle.std.specs.Prelude.{◌≡◌, All, string_bytes};
ghost use Rattle.td_rows.specs.KeyText.{KeyFits};
ghost use Rattle.td_rows.specs.Table.{keys_of};
ghost use Rattle.td_core.specs.Phases.{NoneBuilt};
ghost use Rattle.td_ledger.specs.Lines.{IsLine};
ghost use Rattle.td_supply.specs.Supply.{opened, stock_of};

use td_rows::Rows;
use td_supply::Supply;

/// What a desk is opened over: its rows, what is on offer, and the header of its file.
#[derive(Drop)]
pub(crate) struct Ground<'a> {
    pub(crate) rows: Rows,
    pub(crate) supply: Supply<'a>,
    pub(crate) header: String,
    ghost line: { IsLine (string_bytes header) },
    ghost idle: { NoneBuilt rows },
    ghost keys: { All KeyFits (keys_of rows) },
    ghost fresh: { supply ≡ opened (stock_of supply) },
}
