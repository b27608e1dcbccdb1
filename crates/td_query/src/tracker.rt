//! A tracker: its queries, and what they make of an archive.
ghost use Rattle.std.specs.Prelude.{◌≡◌, IfErr, IfOk, Ok, length, map};
ghost use Rattle.regex.specs.Strings.{regex_source};
ghost use Rattle.td_query.specs.TrackerFaults.{FaultOf, IsPatternFault, log_in};
ghost use Rattle.std.specs.List.{AllZip};
ghost use Rattle.td_query.specs.Sources.{AreDefault, ArePatterns, IsReadAs, source_of};
ghost use Rattle.td_query.specs.TrackerGrammar.{Said, nothing_said, said_in};
ghost use Rattle.td_query.specs.TrackerViews.{said};

use crate::compiling::compile;
use crate::query::Query;
use crate::read_fault::ReadFault;
use crate::row_mark::row_mark;
use crate::status::Status;
use crate::tracker_fault::{TrackerFault, TrackerKey};
use crate::tracker_reading::{Keys, no_keys, read_entries};
use crate::truth::matchers_of;
use regex::Regex;
use std::alloc::{AllocError, Global};
use td_indices::Archive;
use td_rows::Key;

/// Which packages a transition affects, and which of them are good or bad.
#[derive(Drop)]
pub struct Tracker<'a> {
    title: &'a str,
    pub(crate) affected: Query<'a>,
    pub(crate) good: Query<'a>,
    pub(crate) bad: Query<'a>,
    pub(crate) patterns: Vec<Regex>,
}

// Reads a text's keys up to its end, and compiles their patterns.
fn read_patterns<'a>(
    alloc: Global,
    text: &'a str,
    keys: &mut Keys<'a>,
) -> Result<Vec<Regex>, TrackerFault>
    requires fresh { said keys.now ≡ nothing_said }
    ensures said { IfOk result (λ ps. said_in text.now ≡ Ok (said keys.new)) }
    ensures sources { IfOk result
        (λ ps. map regex_source ps.items ≡ map source_of (said keys.new).log) }
    ensures read { IfOk result (λ ps. ArePatterns (said keys.new).log) }
    ensures compiled { IfOk result (λ ps. AreDefault ps.items) }
    ensures only { (s : Said) → said_in text.now ≡ Ok s → ArePatterns s.log
        → IfErr result (IsPatternFault (length text.now) (log_in (said_in text.now))) }
    ensures fault { IfErr result (FaultOf text.now) }
{
    let left = match read_entries(alloc, text, keys) {
        Ok(()) => None,
        Err(ReadFault::Syntax(left)) => Some(left),
        Err(ReadFault::NoMemory) => return Err(TrackerFault::NoMemory),
    };
    let patterns = match compile(alloc, text.len(), keys.log.as_slice()) {
        Ok(patterns) => patterns,
        Err(fault) => return Err(fault),
    };
    match left {
        None => Ok(patterns),
        Some(left) => Err(TrackerFault::Syntax(text.len().saturating_sub(left))),
    }
}

impl<'a> Tracker<'a> {
    ghost use Rattle.td_query.specs.Statuses.{status_of};
    ghost use Rattle.td_query.specs.TrackerFaults.{IsMissing};
    ghost use Rattle.td_query.specs.Tracking.{AreCompiled, IsSaid, IsTracker, Tracking, tracking};

    // The tracker of these keys, if none is missing.
    fn whole(keys: Keys<'a>, patterns: Vec<Regex>) -> Result<Tracker<'a>, TrackerKey>
        requires compiled { AreDefault patterns.items }
        ensures found { IfOk result
            (λ t. IsSaid (said keys.entry) (map regex_source patterns.items) (tracking t)) }
        ensures patterns { IfOk result (λ t. t.patterns.items ≡ patterns.items) }
        ensures compiled { IfOk result
            (λ t. AllZip IsReadAs (tracking t).sources (tracking t).patterns) }
        ensures missing { IfErr result (IsMissing (said keys.entry)) }
    {
        let Keys {
            title,
            affected,
            good,
            bad,
            log: _,
        } = keys;
        let Some(affected) = affected else {
            return Err(TrackerKey::IsAffected);
        };
        let Some(good) = good else {
            return Err(TrackerKey::IsGood);
        };
        let Some(bad) = bad else {
            return Err(TrackerKey::IsBad);
        };
        Ok(Tracker {
            title,
            affected,
            good,
            bad,
            patterns,
        })
    }

    /// Reads a tracker. The first fault from the left decides, and a pattern comes before what
    /// follows it; then the keys that are missing, in the order `is_affected`, `is_good`, `is_bad`.
    pub fn read(alloc: Global, text: &'a str) -> Result<Tracker<'a>, TrackerFault>
        // What is read is the tracker of the text, and its patterns are those that `regex` reads.
        ensures found { IfOk result (λ t. IsTracker text.now (tracking t)) }
        // Each pattern is compiled with the default options, and within the default limit of size.
        ensures compiled { IfOk result AreCompiled }
        // A tracker is read, unless memory runs out, or `regex` refuses a pattern that is one: it
        // may be too large.
        ensures only { (t : Tracking) → IsTracker text.now t →
            IfErr result (IsPatternFault (length text.now) (log_in (said_in text.now))) }
        // A fault is the text's first, unless memory runs out.
        ensures fault { IfErr result (FaultOf text.now) }
    {
        let mut keys = no_keys(alloc);
        let patterns = match read_patterns(alloc, text, &mut keys) {
            Ok(patterns) => patterns,
            Err(fault) => return Err(fault),
        };
        match Tracker::whole(keys, patterns) {
            Ok(tracker) => Ok(tracker),
            Err(key) => Err(TrackerFault::MissingKey(key)),
        }
    }

    /// The title; empty if none was given.
    pub fn title(&self) -> &'a str
        ensures title { result.now ≡ (tracking self.now).title }
    {
        self.title
    }

    /// The status of the row of a key, if the archive has such a row and it is affected. The
    /// queries are evaluated on the row's own stanzas; for many rows make `Marks` first.
    pub fn status(
        &self,
        alloc: Global,
        archive: &Archive<'_, '_>,
        key: &Key,
    ) -> Result<Option<Status>, AllocError>
        ensures status { IfOk result
            (λ status. status ≡ status_of archive.now (tracking self.now) key.now) }
    {
        let Some(source) = archive.source_number(key.source()) else {
            return Ok(None);
        };
        let Some(place) = archive.archs().index(key.arch()) else {
            return Ok(None);
        };
        if place >= archive.arch_count() || !archive.has_row(source, place) {
            return Ok(None);
        }
        let mut matchers = matchers_of(alloc, self.patterns.as_slice())?;
        Ok(row_mark(self, archive, source, place, &mut matchers).status())
    }
}
