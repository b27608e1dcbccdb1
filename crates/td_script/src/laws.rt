//! The laws of scripts.
ghost use Rattle.td_script.specs.Cutting.{CutScriptsTellTheSame};

/// A script that is cut in two after a line is answered as the whole one is, if the second part
/// goes on with a text of the journal that the first one leaves, and no row was left with a
/// builder.
pub fn cut_scripts_tell_the_same()
    ensures { CutScriptsTellTheSame }
{}
