//! Laws of the definitions, for one who doubts them.
ghost use Rattle.td_plan.specs.Packages.{RebuiltTextsAreRead};
ghost use Rattle.td_plan.specs.PlanReading.{PlansAreRead};
ghost use Rattle.td_plan.specs.ReadingLaws.{CommentsAreSkipped, DwLinesAreRead, NmuLinesAreRead};
ghost use Rattle.td_plan.specs.ReadingLaws.{RebuiltVersionsAreRead, RelationsAreRead};

/// The command lines of a plan are read, by the definition of what `read_command` of td_wbread
/// reads, as the commands that they are said to be.
pub fn plan_lines_are_read()
    ensures nmu { NmuLinesAreRead }
    ensures dw { DwLinesAreRead }
{}

/// The relation of a `dw` line is a relation, and is read as the packages with the versions that it
/// is made of; and each of these versions, if it can be written, is read as the one that the
/// rebuild offers.
pub fn plan_relations_are_read()
    ensures relations { RelationsAreRead }
    ensures versions { RebuiltVersionsAreRead }
    ensures bases { RebuiltTextsAreRead }
{}

/// Each line of a plan that is no command begins with `#`, and so a script skips it.
pub fn plan_comments_are_skipped()
    ensures { CommentsAreSkipped }
{}

/// What the lines of a whole plan say are the plan's commands in their order; a line that begins
/// with `#` says nothing.
pub fn plans_are_read()
    ensures { PlansAreRead }
{}
