//! Laws of the definitions, for one who doubts them.
ghost use Rattle.td_wbread.specs.ArchLaws.{ArchsAreExact};
ghost use Rattle.td_wbread.specs.ChoiceLaws.{ChoiceIsExact};
ghost use Rattle.td_wbread.specs.HeadFaults.{ArchFaultsAreExact, HeadFaultsAreExact};
ghost use Rattle.td_wbread.specs.HeadFaults.{PackageFaultsAreExact, VerbFaultsAreExact};
ghost use Rattle.td_wbread.specs.Laws.{QuotedWordsAreRead};
ghost use Rattle.td_wbread.specs.PackageLaws.{PackagesAreExact};
ghost use Rattle.td_wbread.specs.PlaceLaws.{PlacesLieWithin};
ghost use Rattle.td_wbread.specs.TailFaults.{CommandFaultsAreExact, TailFaultsAreExact};
ghost use Rattle.td_wbread.specs.TailLaws.{TailsAreExact};
ghost use Rattle.td_wbread.specs.VerbLaws.{VerbsAreExact};
ghost use Rattle.td_wbread.specs.WordLaws.{WordsAreExact};

/// Any texts without a newline and without `'` can be written as the words of a line.
pub fn quoted_words_are_read()
    ensures { QuotedWordsAreRead }
{}

/// A line has these words, each at its place, and this end if and only if it is written so: pieces
/// without quotes or between two of them that touch, and whitespace between words.
pub fn words_are_exact()
    ensures { WordsAreExact }
{}

/// Words are read as packages if and only if each is one, and a dot comes after them.
pub fn packages_are_exact()
    ensures { PackagesAreExact }
{}

/// Words are read as architectures if and only if the first chooses, each further one chooses or
/// takes away, and the end or a dot comes after them.
pub fn archs_are_exact()
    ensures { ArchsAreExact }
{}

/// An architecture is chosen if and only if some word chooses it, and none after that takes it
/// away.
pub fn choice_is_exact()
    ensures { ChoiceIsExact }
{}

/// What follows the architectures is read if and only if it is the end, a last dot, a suite, a
/// suite and options, or options, with no quote left open, and `dw` has its relation; and means
/// these.
pub fn tails_are_exact()
    ensures { TailsAreExact }
{}

/// A verb is read if and only if it stands with its own words, and means these: `gb`; `nmu`, or
/// `nmu` and a number after which another word or an open quote comes; `bp` and a priority; `dw`.
pub fn verbs_are_exact()
    ensures { VerbsAreExact }
{}

/// The head of a line is refused with a fault if and only if that is what is wrong first: with the
/// verb or its number; with the packages or their dot; or with the architectures.
pub fn head_faults_are_exact()
    ensures verbs { VerbFaultsAreExact }
    ensures packages { PackageFaultsAreExact }
    ensures archs { ArchFaultsAreExact }
    ensures heads { HeadFaultsAreExact }
{}

/// A line is refused with a fault if and only if that is what is wrong first, at its place: with
/// the head of its words, or with what follows the architectures.
pub fn command_faults_are_exact()
    ensures tails { TailFaultsAreExact }
    ensures commands { CommandFaultsAreExact }
{}

/// The place of a line's fault is a byte of the line, or its length.
pub fn places_lie_within()
    ensures { PlacesLieWithin }
{}
