//! Laws of the premises of plans, for one who doubts that a plan can be made of those that the
//! program has.
ghost use Rattle.td_plan.specs.SoundLaws.{AffectedOpeningRowsAreEnough, AffectedRowsAreEnough};
ghost use Rattle.td_plan.specs.SoundLaws.{ChosenRowsCanBePlanned, OpeningRowsCanBePlanned};
ghost use Rattle.td_plan.specs.SoundLaws.{ReplacedRowsCanBePlanned, VersionsOfArchivesAreRead};

/// Over an archive that was read, a plan can be made of all rows with which a desk opens, of these
/// rows with those of a state file instead of those of the same keys, and of the rows with which
/// some sources open.
pub fn read_archives_can_be_planned()
    ensures opening { OpeningRowsCanBePlanned }
    ensures replaced { ReplacedRowsCanBePlanned }
    ensures chosen { ChosenRowsCanBePlanned }
{}

/// In an archive that was read, each source's version is that of how it is written, as a plan's
/// lines name it (`plans_are_taken_whole`).
pub fn versions_of_archives_are_read()
    ensures { VersionsOfArchivesAreRead }
{}

/// A plan of the rows of the affected sources is a plan of all rows. So is one of the rows with
/// which these sources open (`Archive::opening_rows_of`, by `Marks::affected_flags`).
pub fn affected_rows_are_enough()
    ensures rows { AffectedRowsAreEnough }
    ensures opening { AffectedOpeningRowsAreEnough }
{}
