//! What holds at every moment of every schedule of a board: laws, each the contract of a function
//! that does nothing. `Reached` is the rule that each step of the code keeps.
ghost use Rattle.td_board.specs.Promises.{WordsTellPhasesApart, RuleStands, OneHolder, OneRowEach};
ghost use Rattle.td_board.specs.Promises.{HoldLasts, NothingInvented, ListsGrow};

/// A word shows only one phase.
pub fn phases_have_words_of_their_own()
    ensures { WordsTellPhasesApart }
{}

/// Words, the desk's view and the builders' views agree.
pub fn the_board_rule_stands()
    ensures { RuleStands }
{}

/// At most one builder holds a row.
pub fn one_builder_holds_a_row()
    ensures { OneHolder }
{}

/// A builder holds at most one row.
pub fn a_builder_holds_at_most_one_row()
    ensures { OneRowEach }
{}

/// A hold ends only by its holder's finish.
pub fn a_hold_ends_only_by_its_finish()
    ensures { HoldLasts }
{}

/// The desk notes nothing that the builder's own list hasn't.
pub fn nothing_is_invented()
    ensures { NothingInvented }
{}

/// What a builder did, and what is noted of it, is never dropped or changed.
pub fn lists_only_grow()
    ensures { ListsGrow }
{}
