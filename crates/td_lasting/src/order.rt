//! The order of what is to be built.
ghost use Rattle.td_lasting.specs.Ready.{PrioritiesDecide};

/// Rows that need a build are ordered by priority, and then by key; each is there once.
pub fn priorities_decide()
    ensures { PrioritiesDecide }
{}
