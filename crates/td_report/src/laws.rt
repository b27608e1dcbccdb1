//! Laws of reports, each the contract of a function that does nothing.
ghost use Rattle.td_report.specs.Laws.{ReportsAreOneText, WavesAreOneText};

/// A tracker has one report over an archive and rows, however it is made: whole, in chunks, or by
/// counts that are kept; and one text of waves.
pub fn reports_are_one_text()
    ensures reports { ReportsAreOneText }
    ensures waves { WavesAreOneText }
{}
