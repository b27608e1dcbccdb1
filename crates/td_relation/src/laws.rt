//! What is promised of relations as such.
ghost use Rattle.td_relation.specs.EmptyRelations.{EmptyRelationsAreExact};
ghost use Rattle.td_relation.specs.MeetingLaws.{ListsCount, MoreStillMeets, OthersMakeNoDifference};
ghost use Rattle.td_relation.specs.RelationFaults.{FirstFaultsAreExact, FirstFaultsAreOne};
ghost use Rattle.td_relation.specs.RelationFaults.{RelationOrFault, RelationsHaveNoFault};
ghost use Rattle.td_relation.specs.RelationWriting.{RelationsAreReadAgain};
ghost use Rattle.td_relation.specs.Spacing.{RelationsAreExact, SpacedRelationsAreRead};
ghost use Rattle.td_relation.specs.Spacing.{WhitespaceMakesNoDifference};

/// A relation that is written in the canonical way is read again, as what it asks.
pub fn written_relations_are_read_again()
    ensures { RelationsAreReadAgain }
{}

/// Whether a relation is met depends on what is offered under the names that it names, and more
/// offers never undo it; an architecture list counts as its names say.
pub fn relations_ask_for_what_they_name()
    ensures others { OthersMakeNoDifference }
    ensures more { MoreStillMeets }
    ensures lists { ListsCount }
{}

/// A relation with any whitespace between its parts, and with members of only whitespace, is read
/// as what its parts ask.
pub fn spaced_relations_are_read()
    ensures read { SpacedRelationsAreRead }
    ensures same { WhitespaceMakesNoDifference }
{}

/// A text is read as a relation if and only if it is one, written with some whitespace, and asks
/// what its parts ask.
pub fn relations_are_read_exactly()
    ensures { RelationsAreExact }
{}

/// A text is refused as empty if and only if it has only commas and whitespace, or nothing.
pub fn texts_without_members_are_empty()
    ensures { EmptyRelationsAreExact }
{}

/// A text is refused as a relation with its first fault from the left, and with nothing else. Each
/// text is a relation or has one first fault, and none is both.
pub fn relations_are_refused_exactly()
    ensures exact { FirstFaultsAreExact }
    ensures one { FirstFaultsAreOne }
    ensures each { RelationOrFault }
    ensures apart { RelationsHaveNoFault }
{}
