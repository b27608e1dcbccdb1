//! What a tracker's three queries say of a stanza, or of a row.
ghost use Rattle.std.specs.Prelude.{◌≡◌, ◌↔◌, true, false, List, map, None, Some};
ghost use Rattle.regex.specs.Patterns.{Re};
ghost use Rattle.regex.specs.Strings.{matcher_pattern};
ghost use Rattle.td_stanza.specs.Table.{fields_of};
ghost use Rattle.td_query.specs.Marks.{either_mark, mark_by, no_mark};
ghost use Rattle.td_query.specs.Statuses.{status_where};
ghost use Rattle.td_query.specs.Tracking.{tracking};
ghost use Rattle.td_query.specs.inner.Alike.{AreAlike};

use crate::status::Status;
use crate::tracker::Tracker;
use crate::truth::holds;
use regex::Matcher;
use td_stanza::Stanza;

/// Which of the queries hold.
#[derive(Clone, Copy)]
pub struct Mark {
    pub affected: bool,
    pub good: bool,
    pub bad: bool,
}

impl Mark {
    /// The mark by which no query holds.
    pub fn none() -> Mark
        ensures none { result ≡ no_mark }
    {
        Mark {
            affected: false,
            good: false,
            bad: false,
        }
    }

    /// Whether none of the queries holds.
    pub fn is_none(self) -> bool
        ensures none { (result ≡ true) ↔ (self ≡ no_mark) }
    {
        !self.affected && !self.good && !self.bad
    }

    /// The queries that hold by this mark or the other.
    pub fn or(self, other: Mark) -> Mark
        ensures either { result ≡ either_mark self other }
    {
        Mark {
            affected: self.affected || other.affected,
            good: self.good || other.good,
            bad: self.bad || other.bad,
        }
    }

    /// The status of a row on which these queries hold.
    pub fn status(self) -> Option<Status>
        ensures value { result ≡ status_where self.affected self.good self.bad }
        ensures unaffected { (result ≡ None) ↔ (self.affected ≡ false) }
        ensures good { (result ≡ Some Status.Good)
            ↔ ((self.affected ≡ true) × (self.good ≡ true) × (self.bad ≡ false)) }
        ensures bad { (result ≡ Some Status.Bad)
            ↔ ((self.affected ≡ true) × (self.good ≡ false) × (self.bad ≡ true)) }
        ensures partial { (result ≡ Some Status.Partial)
            ↔ ((self.affected ≡ true) × (self.good ≡ true) × (self.bad ≡ true)) }
        ensures unknown { (result ≡ Some Status.Unknown)
            ↔ ((self.affected ≡ true) × (self.good ≡ false) × (self.bad ≡ false)) }
    {
        if !self.affected {
            return None;
        }
        Some(match (self.good, self.bad) {
            (true, true) => Status::Partial,
            (true, false) => Status::Good,
            (false, true) => Status::Bad,
            (false, false) => Status::Unknown,
        })
    }
}

/// Which of a tracker's queries hold on a stanza.
pub fn mark_of(tracker: &Tracker<'_>, stanza: &Stanza, matchers: &mut Vec<Matcher>) -> Mark
    ensures mark { result ≡ mark_by (map matcher_pattern matchers.old.items)
        (tracking tracker.now) (fields_of stanza.now) }
    // The mark is the same with any patterns that find alike.
    ensures alike { (ps : List Re) → AreAlike ps (map matcher_pattern matchers.old.items)
        → result ≡ mark_by ps (tracking tracker.now) (fields_of stanza.now) }
    ensures same { map matcher_pattern matchers.new.items ≡ map matcher_pattern matchers.old.items }
{
    let affected = holds(&tracker.affected, stanza, matchers);
    let good = holds(&tracker.good, stanza, matchers);
    let bad = holds(&tracker.bad, stanza, matchers);
    Mark {
        affected,
        good,
        bad,
    }
}
