//! Which of a tracker's queries hold on some stanza of a row, evaluated on each stanza of it.
ghost use Rattle.std.specs.Prelude.{◌≡◌, map};
ghost use Rattle.regex.specs.Strings.{matcher_pattern};
ghost use Rattle.td_query.specs.Marks.{mark_there as mark_there_of, row_mark as row_mark_of};
ghost use Rattle.td_query.specs.Tracking.{tracking};

use crate::mark::{Mark, mark_of};
use crate::tracker::Tracker;
use regex::Matcher;
use td_indices::{Archive, is_on};

// What holds on the stanza of the package with a number, if it is there.
fn mark_there(
    tracker: &Tracker<'_>,
    archive: &Archive<'_, '_>,
    number: usize,
    place: usize,
    matchers: &mut Vec<Matcher>,
) -> Mark
    ensures mark { result ≡ mark_there_of archive.now (map matcher_pattern matchers.old.items)
        (tracking tracker.now) place number }
    ensures same { map matcher_pattern matchers.new.items ≡ map matcher_pattern matchers.old.items }
{
    match archive.binary(number) {
        Some(binary) if is_on(place, binary.arch) => {
            mark_of(tracker, &archive.stanza_of_binary(number), matchers)
        }
        _ => Mark::none(),
    }
}

/// What holds on some stanza of the row of a source on the architecture at a place; nothing if
/// there is no such source.
pub fn row_mark(
    tracker: &Tracker<'_>,
    archive: &Archive<'_, '_>,
    source: usize,
    place: usize,
    matchers: &mut Vec<Matcher>,
) -> Mark
    ensures mark { result ≡ row_mark_of archive.now (map matcher_pattern matchers.old.items)
        (tracking tracker.now) source place }
{
    let Some(found) = archive.source_at(source) else {
        return Mark::none();
    };
    let mut mark = mark_of(tracker, &archive.stanza_of_source(source), matchers);
    for number in archive.packages_of(found.name) {
        mark = mark.or(mark_there(tracker, archive, *number, place, matchers));
    }
    mark
}
