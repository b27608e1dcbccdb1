//! How a version is read.
ghost use Rattle.std.specs.Prelude.{◌≡◌, ◌<◌, ◌≤◌, ◌+◌, ◌^◌, IfOk, IfSome, length, not, option_map};
ghost use Rattle.std.specs.Prelude.{false, position, true};
ghost use Rattle.std.specs.List.{list_all};
ghost use Rattle.std.specs.Option.{ForSome};
ghost use Rattle.td_version.specs.Grammar.{
  is_revision_byte as revision_byte,
  is_upstream_byte as upstream_byte,
  written_text,
};
ghost use Rattle.td_version.specs.Faults.{upstream_start};
ghost use Rattle.td_version.specs.Reading.{
  checked,
  cut_last,
  digits_at,
  epoch_at,
  is_empty_part,
  judged,
  parts_read,
  pieces,
  reading,
  revision_at,
  with_revision,
  written_of,
};

use crate::cutting::cut_at_last;
use crate::version::{MAX_EPOCH, Version, VersionFault};
use td_text::cut_at;

/// 1 at each byte that may stand in a revision, and else 0: one look instead of up to nine
/// comparisons.
const REVISION_BYTES: [u8; 256] = [
    0, 0, 0, 0, 0, 0, 0, 0, 0, 0, 0, 0, 0, 0, 0, 0, 0, 0, 0, 0, 0, 0, 0, 0, 0, 0, 0, 0, 0, 0, 0, 0,
    0, 0, 0, 0, 0, 0, 0, 0, 0, 0, 0, 1, 0, 0, 1, 0, 1, 1, 1, 1, 1, 1, 1, 1, 1, 1, 0, 0, 0, 0, 0, 0,
    0, 1, 1, 1, 1, 1, 1, 1, 1, 1, 1, 1, 1, 1, 1, 1, 1, 1, 1, 1, 1, 1, 1, 1, 1, 1, 1, 0, 0, 0, 0, 0,
    0, 1, 1, 1, 1, 1, 1, 1, 1, 1, 1, 1, 1, 1, 1, 1, 1, 1, 1, 1, 1, 1, 1, 1, 1, 1, 1, 0, 0, 0, 1, 0,
    0, 0, 0, 0, 0, 0, 0, 0, 0, 0, 0, 0, 0, 0, 0, 0, 0, 0, 0, 0, 0, 0, 0, 0, 0, 0, 0, 0, 0, 0, 0, 0,
    0, 0, 0, 0, 0, 0, 0, 0, 0, 0, 0, 0, 0, 0, 0, 0, 0, 0, 0, 0, 0, 0, 0, 0, 0, 0, 0, 0, 0, 0, 0, 0,
    0, 0, 0, 0, 0, 0, 0, 0, 0, 0, 0, 0, 0, 0, 0, 0, 0, 0, 0, 0, 0, 0, 0, 0, 0, 0, 0, 0, 0, 0, 0, 0,
    0, 0, 0, 0, 0, 0, 0, 0, 0, 0, 0, 0, 0, 0, 0, 0, 0, 0, 0, 0, 0, 0, 0, 0, 0, 0, 0, 0, 0, 0, 0, 0,
];

/// A text cut at its first colon, and at the last hyphen after that.
#[derive(Clone, Copy)]
struct Pieces<'a> {
    epoch: Option<&'a str>,
    /// Where the upstream part begins.
    start: usize,
    upstream: &'a str,
    revision: Option<&'a str>,
}

pub fn read(text: &str) -> Result<Version<'_>, VersionFault>
    ensures { parts_read result ≡ reading text.now }
{
    if is_plain(text) {
        read_plain(text)
    } else {
        judge(cut(text))
    }
}

/// Whether each byte may stand in an upstream part that has no epoch before it, as in most
/// versions.
fn is_plain(text: &str) -> bool
    ensures { result ≡ list_all (upstream_byte false) text.now }
{
    text.as_bytes().iter().all(|b| is_upstream_byte(*b, false))
}

/// A text without an epoch, each of whose bytes may stand where it does. Only a part may be empty.
fn read_plain(text: &str) -> Result<Version<'_>, VersionFault>
    requires { list_all (upstream_byte false) text.now ≡ true }
    ensures { parts_read result ≡ reading text.now }
{
    let pieces = cut_revision(None, 0, text);
    if pieces.upstream.is_empty() || is_empty(pieces.revision) {
        return Err(VersionFault::Empty);
    }
    Ok(Version {
        epoch: 0,
        upstream: pieces.upstream,
        revision: pieces.revision,
    })
}

fn is_empty(part: Option<&str>) -> bool
    ensures { result ≡ is_empty_part (option_map (λ x. x.now) part.entry) }
{
    match part {
        None => false,
        Some(part) => part.is_empty(),
    }
}

/// The version in these pieces, or the first fault.
#[tactic(auto, unfolding(crate::specs::Reading::judged))]
fn judge(pieces: Pieces<'_>) -> Result<Version<'_>, VersionFault>
    requires start { pieces.start ≡ upstream_start (written_of pieces) }
    requires within { length (written_text (written_of pieces)) < 2 ^ 64 }
    ensures { parts_read result ≡ judged (written_of pieces.entry) }
{
    let epoch = read_epoch(pieces.epoch)?;
    let has_epoch = pieces.epoch.is_some();
    let first_bad = first_bad_upstream(pieces.upstream, has_epoch);
    check_part(pieces.upstream, pieces.start, first_bad)?;
    check_revision(pieces.revision, pieces.start + pieces.upstream.len())?;
    Ok(Version {
        epoch,
        upstream: pieces.upstream,
        revision: pieces.revision,
    })
}

#[tactic(auto, unfolding(crate::specs::Reading::pieces))]
fn cut(text: &str) -> Pieces<'_>
    ensures pieces { written_of result ≡ pieces text.now }
    ensures start { result.start ≡ upstream_start (written_of result) }
    ensures within { length (written_text (written_of result)) < 2 ^ 64 }
{
    let len = text.len();
    match cut_at(text, ':') {
        None => cut_revision(None, 0, text),
        Some((digits, rest)) => cut_revision(Some(digits), len - rest.len(), rest),
    }
}

fn cut_revision<'a>(epoch: Option<&'a str>, start: usize, rest: &'a str) -> Pieces<'a>
    ensures pieces { written_of result
        ≡ with_revision (option_map (λ x. x.now) epoch.entry) rest.now (cut_last 45 rest.now) }
    ensures start { result.start ≡ start }
{
    match cut_at_last(rest, '-') {
        None => Pieces {
            epoch,
            start,
            upstream: rest,
            revision: None,
        },
        Some((upstream, revision)) => Pieces {
            epoch,
            start,
            upstream,
            revision: Some(revision),
        },
    }
}

#[tactic(auto, unfolding(crate::specs::Reading::epoch_at))]
fn read_epoch(epoch: Option<&str>) -> Result<u32, VersionFault>
    ensures value { result ≡ epoch_at (option_map (λ x. x.now) epoch.entry) }
    ensures bounded { IfOk result (λ number. number ≤ 2147483647) }
{
    match epoch {
        None => Ok(0),
        Some(digits) => epoch_number(digits),
    }
}

/// The number that stands before the colon. A sign is no digit.
fn epoch_number(digits: &str) -> Result<u32, VersionFault>
    ensures value { result ≡ digits_at digits.now }
    ensures bounded { IfOk result (λ number. number ≤ 2147483647) }
{
    if digits.starts_with('+') {
        return Err(VersionFault::BadEpoch);
    }
    match digits.parse::<u32>() {
        Ok(number) if number <= MAX_EPOCH => Ok(number),
        _ => Err(VersionFault::BadEpoch),
    }
}

/// A revision may be missing. Else it comes after the hyphen at this place.
#[tactic(auto, unfolding(crate::specs::Reading::revision_at))]
fn check_revision(revision: Option<&str>, hyphen: usize) -> Result<(), VersionFault>
    requires { ForSome revision (λ part. hyphen + 1 + length part.now < 2 ^ 64) }
    ensures { result ≡ revision_at (hyphen + 1) (option_map (λ x. x.now) revision.entry) }
{
    match revision {
        None => Ok(()),
        Some(part) => check_part(part, hyphen + 1, first_bad_revision(part)),
    }
}

/// A part that begins at `start`, and the place of its first bad byte.
fn check_part(part: &str, start: usize, first_bad: Option<usize>) -> Result<(), VersionFault>
    requires { ForSome first_bad (λ place. start + place < 2 ^ 64) }
    ensures { result ≡ checked part.now start first_bad }
{
    if part.is_empty() {
        return Err(VersionFault::Empty);
    }
    match first_bad {
        None => Ok(()),
        Some(place) => Err(VersionFault::BadCharacter(start + place)),
    }
}

fn first_bad_upstream(part: &str, has_epoch: bool) -> Option<usize>
    ensures place { result ≡ position (λ b. not (upstream_byte has_epoch b)) part.now }
    ensures within { IfSome result (λ i. i < length part.now) }
{
    part.as_bytes()
        .iter()
        .position(|b| !is_upstream_byte(*b, has_epoch))
}

fn first_bad_revision(part: &str) -> Option<usize>
    ensures place { result ≡ position (λ b. not (revision_byte b)) part.now }
    ensures within { IfSome result (λ i. i < length part.now) }
{
    part.as_bytes().iter().position(|b| !is_revision_byte(*b))
}

fn is_upstream_byte(byte: u8, has_epoch: bool) -> bool
    ensures { result ≡ upstream_byte has_epoch byte }
{
    is_revision_byte(byte) || byte == b'-' || (has_epoch && byte == b':')
}

fn is_revision_byte(byte: u8) -> bool
    ensures { result ≡ revision_byte byte }
{
    REVISION_BYTES[byte as usize] != 0
}
