//! Laws of the definitions of rows, numbers and reasons, for one who doubts them.
ghost use Rattle.td_plan.specs.RowLaws.{DueRowsAreExact, DueRowsAreNotPending};
ghost use Rattle.td_plan.specs.RowLaws.{LeftRowsAreExplained, NumbersAreLeast};
ghost use Rattle.td_plan.specs.RowLaws.{NumbersRunOutOverRows};

/// A row is due if and only if the rule says so; and then it isn't on its way.
pub fn due_rows_are_exact()
    ensures exact { DueRowsAreExact }
    ensures apart { DueRowsAreNotPending }
{}

/// The number of a source's due rows is the least that is above each number on their architectures
/// and not below any that the source has.
pub fn numbers_are_least()
    ensures { NumbersAreLeast }
{}

/// A source has no number left only if a row of it is due except for the number.
pub fn numbers_run_out_over_rows()
    ensures { NumbersRunOutOverRows }
{}

/// The reason of a row that is bad or partial and not due holds, and those before it don't.
pub fn left_rows_are_explained()
    ensures { LeftRowsAreExplained }
{}
