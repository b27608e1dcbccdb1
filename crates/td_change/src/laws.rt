//! Laws of changes, each the contract of a function that does nothing.
ghost use Rattle.td_change.specs.Laws.{BackAtOnce, BackPastOthers, LawfulWithout};

/// A change that is made and given back leaves the rows as they were; given back after other
/// entries that share no cell with it, it leaves what these make of the rows, and they are lawful
/// without it.
pub fn changes_are_taken_back()
    ensures at_once { BackAtOnce }
    ensures past_others { BackPastOthers }
    ensures lawful { LawfulWithout }
{}
