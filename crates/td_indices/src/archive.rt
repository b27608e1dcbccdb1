//! The archive: two indices that were read, and what is found in them.
ghost use Rattle.td_rows.specs.Limits.{max_rows};

use crate::archive_fault::ArchiveFault;
use crate::binaries::Binaries;
use crate::choosing::is_chosen;
use crate::grouping::those_on;
use crate::groups::Groups;
use crate::index_reading::read_indices;
use crate::index_text::IndexText;
use crate::opening::{greatest_number, opening, opening_on};
use crate::packaged::Binary;
use crate::rows::has_row;
use crate::sourced::{Source, Sourced};
use crate::stanza_pieces::StanzaPieces;
use crate::supplying::stocked;
use indexmap::IndexMap;
use std::alloc::{AllocError, Global};
use std::marker::Model;
use std::thread::Threads;
use td_relation::Archs;
use td_rows::{Key, Row, Rows};
use td_supply::Supply;

/// The binary packages and the sources that count, with the stanzas that they stand in. Contracts
/// see them as `Contents`.
#[derive(Drop)]
pub struct Archive<'t, 'a> {
    pub(crate) archs: &'t Archs<'a>,
    pub(crate) packages: StanzaPieces<'a>,
    pub(crate) source_stanzas: StanzaPieces<'a>,
    pub(crate) binaries: Binaries<'a>,
    pub(crate) sources: IndexMap<&'a str, Sourced<'a>>,
    // The numbers of each source's binary packages, by its name.
    pub(crate) groups: Groups<'a>,
    // How many rows the sources have.
    pub(crate) rows: usize,
    pub(crate) alloc: Global,
}

impl<'t, 'a> Model for Archive<'t, 'a> {
    ghost use Rattle.std.specs.Prelude.{◌≡◌, ℕ, ◌≤◌, List, Ok};
    ghost use Rattle.td_relation.specs.TableView.{table};
    ghost use Rattle.td_indices.specs.Archive.{Contents, is_of, places_from};
    ghost use Rattle.td_indices.specs.Kept.{binaries_of};
    ghost use Rattle.td_indices.specs.Reading.{binaries_at, sources_at};
    ghost use Rattle.td_indices.specs.Rows.{row_count};
    ghost use Rattle.td_indices.specs.Sources.{sources_of};
    ghost use Rattle.td_indices.specs.inner.Groups.{grouped_under};
    ghost use Rattle.td_rows.specs.Limits.{max_rows};

    ghost Value = { Contents };

    ghost view = { λ a. record {
      table = table a.archs.now;
      packages = a.packages;
      source_stanzas = a.source_stanzas;
      binaries = binaries_of a.binaries;
      sources = sources_of a.sources.entries;
    } };

    ghost invariant = { λ a.
        ((q : List ℕ)
        → grouped_under a.groups q ≡ places_from (is_of q) 0 (binaries_of a.binaries))
        × (a.rows ≡ row_count (table a.archs.now) (sources_of a.sources.entries))
        × (a.rows ≤ max_rows)
        × (sources_at a.source_stanzas ≡ Ok (sources_of a.sources.entries))
        × (binaries_at (table a.archs.now) a.packages ≡ Ok (binaries_of a.binaries)) };
}

impl<'t, 'a> Archive<'t, 'a> {
    ghost use Rattle.std.specs.Prelude.{
      ◌≡◌,
      ◌+◌,
      ◌≤◌,
      ◌<◌,
      ◌&&◌,
      ℕ,
      List,
      true,
      false,
      IfOk,
      IfSome,
      OnOk,
      None,
      Some,
      length,
      option_map,
      slice_get,
      if◌then◌else◌,
    };
    ghost use Rattle.std.specs.Str.{bytes_eq};
    ghost use Rattle.td_text.specs.Lines.{lines_of};
    ghost use Rattle.td_text.specs.Words.{is_name};
    ghost use Rattle.td_relation.specs.TableView.{table};
    ghost use Rattle.td_relation.specs.Table.{IsApart};
    ghost use Rattle.td_rows.specs.States.{is_building};
    ghost use Rattle.td_rows.specs.Keys.{ascending};
    ghost use Rattle.td_rows.specs.Table.{keys_of, row_of};
    ghost use Rattle.td_rows.specs.Text.{has_newline};
    ghost use Rattle.td_indices.specs.Archive.{IsRead, binaries_on, source_named};
    ghost use Rattle.td_indices.specs.Choosing.{AreOpenedOf, chosen, flagged, is_of_one};
    ghost use Rattle.td_indices.specs.Opening.{opening_row as opening_row_of};
    ghost use Rattle.td_indices.specs.OpeningRows.{
      IsVersionKnown,
      has_row_on,
      is_key_at,
      with_opening,
    };
    ghost use Rattle.td_indices.specs.Rows.{has_row as has_row_of, row_count, rows_before};
    ghost use Rattle.td_indices.specs.Sources.{KeptSource, source_of};
    ghost use Rattle.td_indices.specs.Supplying.{supply_of};
    ghost use Rattle.td_supply.specs.Supply.{opened};
    ghost use Rattle.td_indices.specs.Seen.{
      BinarySeen,
      SourceSeen,
      seen_binary,
      seen_source,
      shown_binary,
      shown_source,
    };

    /// Reads the texts of Packages and of Sources. All faults of the stanzas as such come first,
    /// those of Packages before those of Sources; then each stanza in order, Packages first; then
    /// the rows are counted.
    pub fn read(
        rt: &(impl Threads + Sync),
        alloc: Global,
        packages: &'a str,
        sources: &'a str,
        archs: &'t Archs<'a>,
    ) -> Result<Archive<'t, 'a>, ArchiveFault>
        ensures { IsRead (table archs.now) (lines_of packages.now) (lines_of sources.now) result }
    {
        let packages = IndexText::read(rt, alloc, packages);
        let sources = IndexText::read(rt, alloc, sources);
        Archive::of_texts(rt, alloc, packages, sources, archs)
    }

    /// The archive of texts whose stanzas were found before, while the other text came, or their
    /// first fault.
    pub fn of_texts(
        rt: &(impl Threads + Sync),
        alloc: Global,
        packages: IndexText<'a>,
        sources: IndexText<'a>,
        archs: &'t Archs<'a>,
    ) -> Result<Archive<'t, 'a>, ArchiveFault>
        ensures { IsRead (table archs.now) (lines_of packages.entry) (lines_of sources.entry)
            result }
    {
        let (packages, sources) = read_indices(rt, alloc, archs, packages, sources);
        Archive::of_indices(rt, alloc, archs, packages, sources)
    }

    /// How many sources there are.
    pub fn source_count(&self) -> usize
        ensures { result ≡ length self.now.sources }
    {
        self.sources.len()
    }

    /// How many binary packages there are.
    pub fn binary_count(&self) -> usize
        ensures { result ≡ length self.now.binaries }
    {
        self.binaries.len()
    }

    /// How many rows the sources have.
    pub fn row_count(&self) -> usize
        ensures rows { result ≡ row_count self.now.table self.now.sources }
        ensures limited { result ≤ max_rows }
    {
        self.rows
    }

    /// The source of a name.
    pub fn source(&self, name: &str) -> Option<Source<'a>>
        ensures { option_map seen_source result
            ≡ option_map shown_source (source_named self.now name.now) }
    {
        let (name, sourced) = self.sources.get_key_value(name)?;
        Some(Source::of_entry(name, sourced))
    }

    /// The numbers of a source's binary packages on an architecture of the table: those there, and
    /// those of `all`.
    pub fn binaries(&self, source: &str, arch: usize) -> Result<Vec<usize>, AllocError>
        ensures { IfOk result (λ numbers. numbers.items ≡ binaries_on self.now source.now arch) }
    {
        let numbers = self.groups.of(source);
        match those_on(self.alloc, &self.binaries, numbers, arch) {
            Ok(there) => Ok(there),
            Err(error) => Err(error),
        }
    }

    /// The binary package with a number, from 0.
    pub fn binary(&self, number: usize) -> Option<Binary<'a>>
        ensures { option_map seen_binary result
            ≡ option_map shown_binary (slice_get self.now.binaries number) }
    {
        let (key, packaged) = self.binaries.get_index(number)?;
        Some(Binary {
            name: key.name,
            arch: key.arch,
            version: packaged.version,
            parts: packaged.parts,
            source: packaged.source,
            source_parts: packaged.source_parts,
            stanza: packaged.stanza,
        })
    }

    /// The row with which a key opens: of the source with its name, on the architecture with its
    /// name, where the source has a row there. It takes no memory.
    pub fn opening_row(&self, key: &Key) -> Option<Row>
        ensures { result ≡ opening_row_of self.now key.now }
    {
        let Some((name, sourced)) = self.sources.get_key_value(key.source()) else {
            return None;
        };
        let Some(place) = self.archs.index(key.arch()) else {
            return None;
        };
        let numbers = self.groups.of(name);
        opening_on(
            self.alloc,
            self.archs,
            &self.binaries,
            numbers,
            sourced,
            place,
        )
    }

    /// How many architectures the table has.
    pub fn arch_count(&self) -> usize
        ensures { result ≡ length self.now.table }
    {
        self.archs.len()
    }

    // Whether a source with this Architecture field has a row on the architecture at a place.
    fn has_row_at(&self, archs: &str, place: usize) -> bool
        requires { place < length self.now.table }
        ensures { result ≡ has_row_of self.now.table archs.now place }
    {
        has_row(self.archs, archs, place)
    }

    /// The source with a number, from 0.
    pub fn source_at(&self, number: usize) -> Option<Source<'a>>
        ensures found { option_map seen_source result
            ≡ option_map shown_source (slice_get self.now.sources number) }
        ensures legal { IfSome result (λ s. is_name s.name.now ≡ true) }
    {
        let (name, sourced) = self.entry_at(number)?;
        Some(Source::of_entry(name, sourced))
    }

    // The source with a number, as it is kept under its name.
    pub(crate) fn entry_at(&self, number: usize) -> Option<(&'a str, &Sourced<'a>)>
        ensures found { option_map (λ p. source_of (p.0, p.1.now)) result
            ≡ slice_get self.now.sources number }
        ensures named { IfSome result (λ p.
            source_named self.now p.0.now ≡ Some (source_of (p.0, p.1.now))) }
        ensures legal { IfSome result (λ p. is_name p.0.now ≡ true) }
    {
        let (name, sourced) = self.sources.get_index(number)?;
        Some((*name, sourced))
    }

    // Puts the row with which a source opens on the architecture at a place among others.
    fn open_at(
        &self,
        rows: &mut IndexMap<Key, Row>,
        name: &str,
        sourced: &Sourced<'_>,
        place: usize,
    ) -> Result<(), AllocError>
        requires name { has_newline name.now ≡ false }
        requires named { source_named self.now name.now ≡ Some (source_of (name, sourced.now)) }
        requires apart { IsApart self.now.table }
        requires place { place < length self.now.table }
        requires has { has_row_of self.now.table sourced.now.archs.now place ≡ true }
        ensures rows { OnOk result
            ((k : Key) → row_of rows.new.entries k
            ≡ with_opening (is_key_at self.now.table name.now place k) (opening_row_of self.now k)
            (row_of rows.old.entries k)) }
        ensures few { OnOk result (length rows.new.entries ≤ length rows.old.entries + 1) }
    {
        let key = Key::from_lines(self.alloc, name, self.archs.name(place))?;
        let numbers = self.groups.of(name);
        let best = greatest_number(&self.binaries, numbers, &sourced.parts, place);
        match rows.insert(key, opening(self.alloc, best)) {
            Ok(_) => Ok(()),
            Err(_) => Err(AllocError),
        }
    }

    // Puts the rows with which a source opens, one on each architecture where it has one, among
    // others.
    fn open_source(
        &self,
        rows: &mut IndexMap<Key, Row>,
        name: &str,
        sourced: &Sourced<'_>,
    ) -> Result<(), AllocError>
        requires name { has_newline name.now ≡ false }
        requires named { source_named self.now name.now ≡ Some (source_of (name, sourced.now)) }
        requires apart { IsApart self.now.table }
        ensures rows { OnOk result
            ((k : Key) → row_of rows.new.entries k
            ≡ with_opening (bytes_eq k.source name.now
            && has_row_on self.now.table sourced.now.archs.now k.arch) (opening_row_of self.now k)
            (row_of rows.old.entries k)) }
        ensures few { OnOk result
            (length rows.new.entries
            ≤ length rows.old.entries
            + rows_before self.now.table sourced.now.archs.now (length self.now.table)) }
    {
        for place in 0..self.arch_count() {
            if self.has_row_at(sourced.archs, place) {
                self.open_at(rows, name, sourced, place)?;
            }
        }
        Ok(())
    }

    // Puts the rows with which the source with a number opens among others.
    fn open_numbered(&self, rows: &mut IndexMap<Key, Row>, number: usize) -> Result<(), AllocError>
        requires number { number < length self.now.sources }
        requires apart { IsApart self.now.table }
        ensures rows { OnOk result ((s : KeptSource) → slice_get self.now.sources number ≡ Some s
            → (source_named self.now s.head.name ≡ Some s)
            × ((k : Key) → row_of rows.new.entries k
            ≡ with_opening (bytes_eq k.source s.head.name
            && has_row_on self.now.table s.head.archs k.arch) (opening_row_of self.now k)
            (row_of rows.old.entries k))) }
        ensures few { OnOk result ((s : KeptSource) → slice_get self.now.sources number ≡ Some s
            → length rows.new.entries
            ≤ length rows.old.entries
            + rows_before self.now.table s.head.archs (length self.now.table)) }
    {
        match self.entry_at(number) {
            Some((name, sourced)) => self.open_source(rows, name, sourced),
            None => Ok(()),
        }
    }

    // How many rows there is room for from the first: for all, or, where there are flags, for none.
    fn room_of(&self, flags: Option<&[bool]>) -> usize {
        match flags {
            None => self.row_count(),
            Some(_) => 0,
        }
    }

    // The rows of the sources that are chosen, source by source.
    fn open_chosen(&self, flags: Option<&[bool]>) -> Result<IndexMap<Key, Row>, AllocError>
        ensures rows { IfOk result (λ rows. (k : Key) → row_of rows.entries k
            ≡ (if is_of_one (chosen (option_map (λ x. x.now) flags.entry) self.now.sources) k
            then opening_row_of self.now k else None)) }
        ensures few { IfOk result (λ rows. length rows.entries ≤ max_rows) }
    {
        let mut rows = IndexMap::with_capacity(self.alloc, self.room_of(flags))?;
        for number in 0..self.source_count() {
            if is_chosen(flags, number) {
                self.open_numbered(&mut rows, number)?;
            }
        }
        Ok(rows)
    }

    fn sorted_rows(&self, flags: Option<&[bool]>) -> Result<Rows, AllocError>
        ensures rows { IfOk result (λ rows. (k : Key) → row_of rows k
            ≡ (if is_of_one (chosen (option_map (λ x. x.now) flags.entry) self.now.sources) k
            then opening_row_of self.now k else None)) }
        ensures rising { IfOk result (λ rows. ascending (keys_of rows) ≡ true) }
    {
        let rows = self.open_chosen(flags)?;
        Rows::sorted(self.alloc, rows)
    }

    /// The rows with which a desk opens: for each key the row with which it opens, and none where
    /// it has none.
    pub fn opening_rows(&self) -> Result<Rows, AllocError>
        ensures rows { IfOk result (λ rows. (k : Key) → row_of rows k ≡ opening_row_of self.now k) }
        // The rows are as many as `row_count` says.
        ensures count { IfOk result (λ rows.
            length rows ≡ row_count self.now.table self.now.sources) }
        // No builder has one of them.
        ensures free { IfOk result (λ rows.
            (k : Key) (row : Row) → row_of rows k ≡ Some row → is_building row.state ≡ false) }
        // The supply has a version of the source of each.
        ensures known { IfOk result (λ rows.
            (k : Key) (row : Row) → row_of rows k ≡ Some row
            → IsVersionKnown (opened (supply_of self.now)) k.source) }
    {
        let _ = &self.rows;
        self.sorted_rows(None)
    }

    /// The rows with which a desk opens, only those of the sources whose flag is set; the first
    /// flag is that of the first source.
    pub fn opening_rows_of(&self, flags: &[bool]) -> Result<Rows, AllocError>
        ensures { IfOk result (AreOpenedOf self.now (flagged flags.now self.now.sources)) }
    {
        let _ = &self.rows;
        self.sorted_rows(Some(flags))
    }

    /// What the archive puts on offer: its binary packages, and the names that they provide.
    pub fn supply(&self) -> Result<Supply<'a>, AllocError>
        ensures { IfOk result (λ supply. supply ≡ opened (supply_of self.now)) }
    {
        stocked(self.alloc, self.archs, &self.sources, &self.binaries)
    }
}
