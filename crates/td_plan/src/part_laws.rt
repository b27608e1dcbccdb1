//! Laws of parts, steps and rows, for one who doubts the definitions.
ghost use Rattle.td_plan.specs.PartLaws.{DueSourcesAreAll, FirstsAreLeast, PartsAreMutual};
ghost use Rattle.td_plan.specs.PartLaws.{PlacingsAreOne, PlansAreOneText, WantedRowsAreToldOnce};
ghost use Rattle.td_plan.specs.PartLaws.{WaysLeadDown};
ghost use Rattle.td_plan.specs.StepLaws.{BasesHavePackages, StepsAreOneText, WhysAreOneText};

/// Two sources are of one part if and only if they are one, or each builds on the other, directly
/// or round about.
pub fn parts_are_mutual()
    ensures { PartsAreMutual }
{}

/// What a source builds on, directly or round about, is of its part or of a lower step.
pub fn ways_lead_down()
    ensures { WaysLeadDown }
{}

/// There is one placing of sources in parts and steps.
pub fn placings_are_one()
    ensures { PlacingsAreOne }
{}

/// The plans of the same premises, message and suite are one text.
pub fn plans_are_one_text()
    ensures { PlansAreOneText }
{}

/// A source builds on another one if and only if there is a package by which it does.
pub fn bases_have_packages()
    ensures { BasesHavePackages }
{}

/// What a tracker's affected sources are by steps is one text; so is what they are by levels, each
/// with what it builds on.
pub fn steps_are_one_text()
    ensures steps { StepsAreOneText }
    ensures whys { WhysAreOneText }
{}

/// The first of some packages is one of them, and none of them is before it.
pub fn firsts_are_least()
    ensures { FirstsAreLeast }
{}

/// Each wanted row is due or left, and none is both.
pub fn wanted_rows_are_told_once()
    ensures { WantedRowsAreToldOnce }
{}

/// The sources with lines are those with a due row, each as often as the archive has it.
pub fn due_sources_are_all()
    ensures { DueSourcesAreAll }
{}
