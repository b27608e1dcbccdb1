//! Debian's Packages and Sources indices as an archive: the binary packages and the sources that
//! count, found by their names, the rows with which a desk opens over them, and what they put on
//! offer.
//!
//! Start at `Archive::read`. An `IndexText` is a text with its stanzas; `Archive::of_texts` takes
//! two that were found while the texts came. Threads share the work, and no clause speaks of them.
//! Texts are slices of the files; a look-up goes by hash.
//! Promised: what is read is an archive as `specs/Archive.antt` says, else the first fault is
//! named; a stanza is a package or a source if and only if `specs/PackageStanzas.antt` and
//! `specs/SourceStanzas.antt` say so; of several stanzas of one source, or of one package and
//! architecture, the one counts that has the greatest version, the first if versions are equal in
//! order (`specs/Counting.antt`). A key opens with the row that `specs/Opening.antt` says;
//! `specs/Supplying.antt` says what is on offer.
#![tactic(auto)]

mod archive;
mod archive_fault;
mod assembling;
mod binaries;
mod binary_keeping;
mod binary_reading;
mod choosing;
mod cutting;
mod field;
mod grouping;
mod groups;
mod index_reading;
mod index_text;
mod laws;
mod lookups;
mod offered_names;
mod opening;
mod packaged;
mod pairing;
mod part_reading;
mod piece_reading;
mod placing;
mod relation_field;
mod rows;
mod soundness;
mod source_keeping;
mod source_reading;
mod sourced;
mod stanza_fault;
mod stanza_pieces;
mod stanza_reading;
mod supplying;
mod text;

pub use archive::Archive;
pub use archive_fault::{ArchiveFault, IndexField, IndexFile, RelationField, VersionField};
pub use field::value_of;
pub use index_text::IndexText;
pub use laws::{
    bad_fields_are_told_in_order, faults_of_a_stanza_come_in_order, first_faulty_stanzas_are_named,
    greatest_versions_are_kept, keys_and_versions_decide, missing_fields_are_told_in_order,
    offered_names_are_those_of_offers, offers_come_of_packages, opening_rows_are_by_what_was_built,
    package_stanzas_are_read_exactly, stanzas_are_kept_exactly,
};
pub use offered_names::OfferedNames;
pub use packaged::{Binary, is_on};
pub use sourced::Source;
