//! What queries and statuses mean, as laws over their definitions.
ghost use Rattle.td_query.specs.AtomRules.{FalseIsRead, PatternsAreRead, TextsAreRead, TrueIsRead};
ghost use Rattle.td_query.specs.FaultPlaces.{RightBytesAreOfTrackers, RightBytesAreText};
ghost use Rattle.td_query.specs.FaultPlaces.{RightBytesGoOn};
ghost use Rattle.td_query.specs.FaultPlaces.{WrongBytesAreFinal, WrongBytesAreThere};
ghost use Rattle.td_query.specs.KeyRules.{EntriesAreSaid, QueriesAreSaid, TitlesAreSaid};
ghost use Rattle.td_query.specs.QueryLaws.{AbsentFieldsNeverMatch, ConjunctionsAreAnd};
ghost use Rattle.td_query.specs.QueryLaws.{ConstantsAreTheirNames, DisjunctionsAreOr};
ghost use Rattle.td_query.specs.QueryLaws.{NegationsAreNot, PatternsMatchWhereTheyAreFound};
ghost use Rattle.td_query.specs.QueryLaws.{TextsMatchWhereTheyStand};
ghost use Rattle.td_query.specs.QueryRules.{AndBindsBeforeOr, AndBindsBehindOr, BracketsAreRead};
ghost use Rattle.td_query.specs.QueryRules.{ConjunctionsAreRead, DisjunctionsAreRead};
ghost use Rattle.td_query.specs.QueryRules.{LongConjunctionsAreRead, LongDisjunctionsAreRead};
ghost use Rattle.td_query.specs.QueryRules.{NegationsAreRead, NotBindsBeforeAnd, NotBindsBeforeOr};
ghost use Rattle.td_query.specs.QueryRules.{PartsAreRead};
ghost use Rattle.td_query.specs.SpellingLaws.{GapsAreExact, LastGapsAreExact, PartsAreExact};
ghost use Rattle.td_query.specs.SpellingLaws.{QueriesAreExact, TrackersAreExact};
ghost use Rattle.td_query.specs.StatusLaws.{RowsAloneHaveAStatus, RowsAreGradedByTheirStanzas};
ghost use Rattle.td_query.specs.StatusLaws.{RowsSatisfyByAStanza};
ghost use Rattle.td_query.specs.TokenRules.{CommentsAreSkipped, LastCommentsAreSkipped};
ghost use Rattle.td_query.specs.TokenRules.{OthersAreKept, PatternsEndAtTheirSlash};
ghost use Rattle.td_query.specs.TokenRules.{SpacesAreSkipped};
ghost use Rattle.td_query.specs.TrackerLaws.{RowsHaveOneStatus, TrackersAreOne, TrackersAreThere};
ghost use Rattle.td_query.specs.TrackerLaws.{TrackersHoldAlike};

/// `!`, `&` and `|` are those of logic.
pub fn queries_are_as_in_logic()
    ensures constants { ConstantsAreTheirNames }
    ensures negation { NegationsAreNot }
    ensures conjunction { ConjunctionsAreAnd }
    ensures disjunction { DisjunctionsAreOr }
{}

/// A query is read by its rules: `!` before `&`, and `&` before `|`; brackets make a part.
pub fn queries_are_read_by_their_rules()
    ensures negation { NegationsAreRead }
    ensures brackets { BracketsAreRead }
    ensures parts { PartsAreRead }
    ensures conjunction { ConjunctionsAreRead }
    ensures disjunction { DisjunctionsAreRead }
    ensures before { AndBindsBeforeOr }
    ensures behind { AndBindsBehindOr }
    ensures conjunction_of_three { LongConjunctionsAreRead }
    ensures disjunction_of_three { LongDisjunctionsAreRead }
    ensures not_before_and { NotBindsBeforeAnd }
    ensures not_before_or { NotBindsBeforeOr }
{}

/// An atom is read as it is written: `true`, `false`, a field with a text, a field with a pattern.
pub fn atoms_are_read_as_written()
    ensures yes { TrueIsRead }
    ensures no { FalseIsRead }
    ensures texts { TextsAreRead }
    ensures patterns { PatternsAreRead }
{}

/// Between tokens whitespace and comments are skipped, and nothing else.
pub fn comments_are_skipped()
    ensures spaces { SpacesAreSkipped }
    ensures comments { CommentsAreSkipped }
    ensures last { LastCommentsAreSkipped }
    ensures others { OthersAreKept }
{}

/// A pattern goes up to the first slash without a backslash right before it.
pub fn patterns_end_at_their_slash()
    ensures { PatternsEndAtTheirSlash }
{}

/// Each key says what is read under its own name, instead of what it said before, if an `=` comes
/// before the value and a `;` after it.
pub fn keys_say_what_is_read()
    ensures queries { QueriesAreSaid }
    ensures titles { TitlesAreSaid }
    ensures entries { EntriesAreSaid }
{}

/// A text is read exactly as it is spelled: what the rules of spelling say of its keys, and nothing
/// else. So is a part of a query, and a query with no mark after it.
pub fn trackers_are_read_as_spelled()
    ensures gaps { GapsAreExact }
    ensures last_gaps { LastGapsAreExact }
    ensures parts { PartsAreExact }
    ensures queries { QueriesAreExact }
    ensures trackers { TrackersAreExact }
{}

/// A text whose keys say the three queries, with patterns that `regex` reads, is a tracker's. Two
/// trackers of it have the same title, queries and texts of patterns, and their patterns match
/// alike. So a query holds on a stanza by both or by neither, and a row has one status.
pub fn trackers_mean_one_thing()
    ensures there { TrackersAreThere }
    ensures one { TrackersAreOne }
    ensures truth { TrackersHoldAlike }
    ensures status { RowsHaveOneStatus }
{}

/// A text is found if and only if it is in a field's value with bounds on both sides, a pattern if
/// and only if `regex` finds it there. Nothing is found in a field that isn't there.
pub fn fields_match_by_their_values()
    ensures absent { AbsentFieldsNeverMatch }
    ensures texts { TextsMatchWhereTheyStand }
    ensures patterns { PatternsMatchWhereTheyAreFound }
{}

/// A row's status depends on what its stanzas satisfy: those of its source's packages there or of
/// `all`, and the source's own.
pub fn rows_are_graded_by_their_stanzas()
    ensures stanzas { RowsSatisfyByAStanza }
    ensures graded { RowsAreGradedByTheirStanzas }
    ensures alone { RowsAloneHaveAStatus }
{}

/// A wrong byte is wrong whatever comes after it: each text that begins with the bytes up to it and
/// with it is refused at its place.
pub fn wrong_bytes_are_final()
    ensures there { WrongBytesAreThere }
    ensures always { WrongBytesAreFinal }
{}

/// What is before a wrong byte can go on: it begins a text that is read and says all three
/// queries. That text is a tracker's, too, unless the wrong one ends inside a pattern.
pub fn right_bytes_go_on()
    ensures text { RightBytesAreText }
    ensures read { RightBytesGoOn }
    ensures trackers { RightBytesAreOfTrackers }
{}
