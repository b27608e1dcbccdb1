//! The rows that sources have, by their Architecture fields.
ghost use Rattle.std.specs.Prelude.{◌≡◌, ◌≤◌, ◌<◌, IfOk, IfErr, length};
ghost use Rattle.td_relation.specs.Limits.{max_archs};
ghost use Rattle.td_rows.specs.Limits.{max_rows};
ghost use Rattle.td_relation.specs.TableView.{table};
ghost use Rattle.td_indices.specs.Rows.{
  has_row as has_row_of,
  matches_at,
  row_count,
  rows_before,
};
ghost use Rattle.td_indices.specs.Sources.{sources_of};

use crate::archive_fault::ArchiveFault;
use crate::sourced::Sourced;
use crate::text::next_word;
use indexmap::IndexMap;
use td_relation::Archs;
use td_rows::MAX_ROWS;

fn matches(archs: &Archs<'_>, place: usize, word: &str) -> bool
    requires { place < length (table archs.now) }
    ensures { result ≡ matches_at (table archs.now) place word.now }
{
    archs.matches(place, word)
}

/// Whether a source with this Architecture field has a row on the architecture at a place.
pub fn has_row(archs: &Archs<'_>, words: &str, place: usize) -> bool
    requires { place < length (table archs.now) }
    ensures { result ≡ has_row_of (table archs.now) words.now place }
{
    let mut rest = Some(words);
    while let Some(text) = rest {
        let (word, after) = next_word(text);
        rest = after;
        if !word.is_empty() && matches(archs, place, word) {
            return true;
        }
    }
    false
}

/// How many rows a source with this Architecture field has.
fn rows_of(archs: &Archs<'_>, words: &str) -> usize
    ensures value { result ≡ rows_before (table archs.now) words.now (length (table archs.now)) }
    ensures few { result ≤ max_archs }
{
    let mut count = 0;
    for place in 0..archs.len() {
        if has_row(archs, words, place) {
            count += 1;
        }
    }
    count
}

/// How many rows the sources have, where they aren't more than a desk may have.
pub fn count_rows(
    archs: &Archs<'_>,
    sources: &IndexMap<&str, Sourced<'_>>,
) -> Result<usize, ArchiveFault>
    ensures ok { IfOk result (λ rows.
        rows ≡ row_count (table archs.now) (sources_of sources.now.entries)) }
    ensures limited { IfOk result (λ rows. rows ≤ max_rows) }
    ensures too_many { IfErr result (λ e.
        max_rows < row_count (table archs.now) (sources_of sources.now.entries)) }
    ensures fault { IfErr result (λ e. e ≡ ArchiveFault.TooManyRows) }
{
    let mut rows = 0;
    for number in 0..sources.len() {
        if let Some((_, sourced)) = sources.get_index(number) {
            rows += rows_of(archs, sourced.archs);
            if rows > MAX_ROWS {
                return Err(ArchiveFault::TooManyRows);
            }
        }
    }
    Ok(rows)
}
