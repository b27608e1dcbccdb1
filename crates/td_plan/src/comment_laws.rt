//! Laws of the lines that tell what rows wait for, and of the comments, for one who doubts that
//! they stand.
ghost use Rattle.td_plan.specs.CommentLaws.{CheckLinesAreThere, DwLinesAreThere};
ghost use Rattle.td_plan.specs.CommentLaws.{NoWaitLinesAreThere, PartLinesAreThere};
ghost use Rattle.td_plan.specs.CommentLaws.{StepLinesAreThere};

/// A row that waits is in a `dw` line with its relation. Each of its waits for a package of an
/// older version has a comment `# check`, and each source for which it can't be told to wait has a
/// comment `# no wait`.
pub fn waits_have_lines()
    ensures told { DwLinesAreThere }
    ensures older { CheckLinesAreThere }
    ensures untold { NoWaitLinesAreThere }
{}

/// The step of each source with a due row has its comment, and so has its part if several sources
/// are of it.
pub fn steps_have_comments()
    ensures steps { StepLinesAreThere }
    ensures parts { PartLinesAreThere }
{}
