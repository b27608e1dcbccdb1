//! Names of boards.
use std::marker::Brand;

/// Names one board, what its book starts from, the marks of the journal that it opened with, and
/// whether its desk may be shut. A function over a name is called with `Brand`, and the call
/// picks what it names.
pub trait Named {
    ghost use Rattle.std.specs.Prelude.{Bool, List};
    ghost use Rattle.atomic_table.specs.Seated.{TableId};
    ghost use Rattle.td_journal.specs.declared.entry.Mark.{Mark};
    ghost use Rattle.td_desk.specs.Names.{Origin};

    ghost table: { TableId };

    ghost origin: { Origin };

    ghost opened: { List Mark };

    ghost may_shut: { Bool };
}

impl Named for Brand {
    ghost use Rattle.std.specs.Prelude.{[], true};
    ghost use Rattle.td_desk.specs.Names.{no_origin, no_table};

    ghost table = { no_table };

    ghost origin = { no_origin };

    ghost opened = { [] };

    ghost may_shut = { true };
}
