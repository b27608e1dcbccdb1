//! Laws of the definitions, for one who doubts them.
ghost use Rattle.td_explain.specs.FlawLaws.{FlawsAreExact};
ghost use Rattle.td_explain.specs.SpotLaws.{BytesAreExact, LinesAreExact, NoMoreAreFound};
ghost use Rattle.td_explain.specs.SpotLaws.{StanzasAreFound};

/// A line and a byte are found by their numbers exactly where they are, in words of the text's
/// lines. If a text is stanzas, each is found by its number at its first line, and no further
/// number finds one.
pub fn places_are_found()
    ensures lines { LinesAreExact }
    ensures bytes { BytesAreExact }
    ensures stanzas { StanzasAreFound }
    ensures no_more { NoMoreAreFound }
{}

/// Something is wrong with a line of a table of architectures if and only if the line isn't an
/// architecture's.
pub fn arch_flaws_are_exact()
    ensures { FlawsAreExact }
{}
