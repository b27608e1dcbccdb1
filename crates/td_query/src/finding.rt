//! How many stanzas of an archive the texts and patterns of a tracker find.
ghost use Rattle.std.specs.Prelude.{◌≡◌, IfOk, length, map};
ghost use Rattle.regex.specs.Strings.{matcher_pattern};
ghost use Rattle.td_query.specs.Atoms.{atom_shape, count_in as count_in_of};
ghost use Rattle.td_query.specs.Atoms.{found_in as found_in_of};
ghost use Rattle.td_query.specs.Marks.{kept_fields};
ghost use Rattle.td_query.specs.Query.{shape_of};
ghost use Rattle.td_query.specs.Tracking.{tracking};

use crate::atoms::Atom;
use crate::marking::kept_stanza;
use crate::query::Query;
use crate::tracker::Tracker;
use crate::truth::{holds, matchers_of};
use regex::Matcher;
use std::alloc::{AllocError, Global};
use td_indices::{Archive, IndexFile};

/// How many stanzas are found.
#[derive(Clone, Copy)]
pub struct Found {
    /// Stanzas of Packages that packages were kept of.
    pub packages: usize,
    /// Stanzas of Sources that sources were kept of.
    pub sources: usize,
}

// How many stanzas of a file packages, or sources, were kept of.
fn kept_count(archive: &Archive<'_, '_>, file: IndexFile) -> usize
    ensures { result ≡ length (kept_fields archive.now file) }
{
    match file {
        IndexFile::Packages => archive.binary_count(),
        IndexFile::Sources => archive.source_count(),
    }
}

// How many of a file's stanzas satisfy a query.
fn count_in(
    archive: &Archive<'_, '_>,
    file: IndexFile,
    query: &Query<'_>,
    matchers: &mut Vec<Matcher>,
) -> usize
    ensures count { result ≡ count_in_of archive.now
        (map matcher_pattern matchers.old.items) file (shape_of query.now) }
    ensures same { map matcher_pattern matchers.new.items ≡ map matcher_pattern matchers.old.items }
{
    let mut count = 0;
    for number in 0..kept_count(archive, file) {
        let stanza = kept_stanza(archive, file, number);
        if holds(query, &stanza, matchers) {
            count += 1;
        }
    }
    count
}

// The query that a text or a pattern is by itself.
fn query_of(atom: Atom<'_>) -> Query<'_>
    ensures { shape_of result ≡ atom_shape atom.entry }
{
    match atom {
        Atom::Text(field, text) => Query::Text(field, text),
        Atom::Pattern(field, number) => Query::Pattern(field, number),
    }
}

// How many stanzas a text or a pattern finds.
fn found_in(archive: &Archive<'_, '_>, atom: Atom<'_>, matchers: &mut Vec<Matcher>) -> Found
    ensures found { result ≡ found_in_of archive.now
        (map matcher_pattern matchers.old.items) (atom_shape atom.entry) }
    ensures same { map matcher_pattern matchers.new.items ≡ map matcher_pattern matchers.old.items }
{
    let query = query_of(atom);
    let packages = count_in(archive, IndexFile::Packages, &query, matchers);
    let sources = count_in(archive, IndexFile::Sources, &query, matchers);
    Found { packages, sources }
}

/// How many stanzas each of these texts and patterns of a tracker finds.
pub fn count_atoms(
    alloc: Global,
    archive: &Archive<'_, '_>,
    tracker: &Tracker<'_>,
    atoms: &[Atom<'_>],
) -> Result<Vec<Found>, AllocError>
    ensures { IfOk result (λ counts. counts.items
        ≡ map (found_in_of archive.now (tracking tracker.now).patterns)
        (map atom_shape atoms.now)) }
{
    let mut matchers = matchers_of(alloc, tracker.patterns.as_slice())?;
    let mut counts = Vec::with_capacity(alloc, atoms.len())?;
    for atom in atoms {
        counts.push(found_in(archive, *atom, &mut matchers))?;
    }
    Ok(counts)
}
