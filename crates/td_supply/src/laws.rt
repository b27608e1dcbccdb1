//! What is promised of supplies as such.
ghost use Rattle.td_supply.specs.SupplyLaws.{NothingIsMet, OffersOfAllStay, OthersStay};
ghost use Rattle.td_supply.specs.SupplyLaws.{RebuildsAreOffered, TheLastArrivalStands};
ghost use Rattle.td_supply.specs.SupplyLaws.{TheStockStays};

/// In a supply without offers and without architectures nothing is met.
pub fn nothing_is_met()
    ensures { NothingIsMet }
{}

/// An arrival changes the offers of its source on exactly its architecture and no other: these are
/// offered at the rebuilt version, and the last arrival stands.
pub fn arrivals_change_their_own()
    ensures others { OthersStay }
    ensures all { OffersOfAllStay }
    ensures rebuilds { RebuildsAreOffered }
    ensures last { TheLastArrivalStands }
    ensures stock { TheStockStays }
{}
