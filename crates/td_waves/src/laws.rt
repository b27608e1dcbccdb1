//! What it means that a source builds on another, as a law over its definition.
ghost use Rattle.td_waves.specs.BuildsOnLaws.{SourcesBuildOnWhatTheyAskFor};

/// A source builds on another if and only if, on some architecture on which it has a row, an
/// alternative of its build that is active there names what a package of the other offers there.
pub fn sources_build_on_what_they_ask_for()
    ensures { SourcesBuildOnWhatTheyAskFor }
{}
