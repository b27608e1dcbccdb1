//! Laws of the meaning, each the contract of a function that does nothing.
ghost use Rattle.td_rows.specs.Laws.{TakenBack, WritesItsOwn, Commutes, AppliesAsBefore};

/// Giving the cells that a kind writes, which are among its own, their values back takes the kind
/// back; giving back cells that a kind hasn't commutes with it, and it applies exactly as before.
pub fn cells_take_kinds_back()
    ensures taken_back { TakenBack }
    ensures its_own { WritesItsOwn }
    ensures commutes { Commutes }
    ensures applies { AppliesAsBefore }
{}
