//! What holds of every plan, as theorems over its definition.
ghost use Rattle.td_plan.specs.AwaitedLaws.{NoWaitsAreRight, WaitsAreAll, WaitsAreForFirsts};
ghost use Rattle.td_plan.specs.BuildsThere.{SourcesBuildSomewhere};
ghost use Rattle.td_plan.specs.LineLaws.{LeftLinesAreThere, NmuLinesAreInOrder, NmuLinesAreThere};
ghost use Rattle.td_plan.specs.LineLaws.{SourcesAreInOrder};
ghost use Rattle.td_plan.specs.PartLaws.{WaitsLeadDown};
ghost use Rattle.td_plan.specs.PlayLaws.{PlansAreTakenWhole, PlansAreUndone};
ghost use Rattle.td_plan.specs.ToldLaws.{OtherRowsAreInNoLine, RebuildsAreOfDueSources};
ghost use Rattle.td_plan.specs.ToldLaws.{WantedRowsAreInOneLine};
ghost use Rattle.td_plan.specs.WaitLaws.{DueRowsAreWaitedFor, DueVersionsAreNew};
ghost use Rattle.td_plan.specs.WaitLaws.{ReadRowsAreReleased, RowsAreHeld, RowsAreReleased};
ghost use Rattle.td_plan.specs.WaitLaws.{WaitsAreReadAgain};

/// A source builds on another if and only if it does so on some architecture.
pub fn sources_build_somewhere()
    ensures { SourcesBuildSomewhere }
{}

/// The `nmu` lines of a plan are one for each source with a due row.
pub fn rebuilds_are_of_due_sources()
    ensures { RebuildsAreOfDueSources }
{}

/// Each row that is affected, and bad or partial, is in exactly one of an `nmu` line and a line
/// `# not planned`, and no other row is in either.
pub fn rows_are_told_once()
    ensures wanted { WantedRowsAreInOneLine }
    ensures others { OtherRowsAreInNoLine }
{}

/// A row waits only for sources of lower steps, so no waits lead round in a circle.
pub fn waits_lead_down()
    ensures { WaitsLeadDown }
{}

/// Over an archive that was read, the relation of a row that waits is read as what the row waits
/// for: a package each, in the version or a later one.
pub fn waits_are_read_again()
    ensures { WaitsAreReadAgain }
{}

/// Once each source for which a row waits has arrived, what is on offer meets its relation, so that
/// the next sweep frees it: if the relation is read again, as it is over an archive that was read.
pub fn rows_are_released()
    ensures again { RowsAreReleased }
    ensures read { ReadRowsAreReleased }
{}

/// As long as a source for which a row waits hasn't arrived under its number, the row's relation is
/// met only if the index itself offers the name in that version or a later one. If the awaited row
/// is due, it does so only as a package of `all`, or as a name that a package provides.
pub fn rows_are_held()
    ensures held { RowsAreHeld }
    ensures due { DueVersionsAreNew }
{}

/// For a source whose row there is due, a row can always be told to wait.
pub fn due_rows_are_waited_for()
    ensures { DueRowsAreWaitedFor }
{}

/// The commands of a plan, played one after the other over its rows, are taken whole: none is
/// refused and none skips a row. Then each due row is rebuilt and waits as it was told, and every
/// other row is as it was.
pub fn plans_are_taken_whole()
    ensures { PlansAreTakenWhole }
{}

/// After a plan was taken whole, the undo of its commands from the last to the first gives every
/// row back.
pub fn plans_are_undone()
    ensures { PlansAreUndone }
{}

/// A row waits for each source for which it is to wait, once, and for nothing else; its waits are
/// in byte order of the packages.
pub fn waits_are_all()
    ensures { WaitsAreAll }
{}

/// The `nmu` lines stand in the order of the steps, within a step part by part, and within a part
/// in byte order.
pub fn lines_are_in_order()
    ensures sources { SourcesAreInOrder }
    ensures lines { NmuLinesAreInOrder }
{}

/// Each source with a due row has its `nmu` line in the plan, and each row that is bad or partial
/// and isn't due has its line `# not planned`.
pub fn lines_are_there()
    ensures rebuilt { NmuLinesAreThere }
    ensures left { LeftLinesAreThere }
{}

/// A row waits for the first package, in byte order, of those that the rule allows, in the version
/// of its arrival; it has no wait for a source only if there is no such package, or if that version
/// can't be written.
pub fn waits_are_for_first_packages()
    ensures told { WaitsAreForFirsts }
    ensures untold { NoWaitsAreRight }
{}
