//! Architectures, and what a Build-Depends line asks of what is on offer: the table of
//! architectures, relations after Debian Policy 7.1 with build profiles, and offers.
//!
//! Start at `Relation::read` and `met_by`; `Archs::read` reads the table that they ask for. What is
//! on offer is any `Offering`; `Offers` is one. `Relation::members` goes through what a relation
//! asks. All of them hold slices of the texts, and nothing but reading, `Offers::push` and
//! `Archs::copy` takes memory.
//! Promised: a table is read if and only if it is one, a relation if and only if it is one as
//! `specs/Spacing.antt` says, else its first fault is named, as `specs/RelationFaults.antt` says;
//! what is written as `specs/RelationWriting.antt` says is read again; and a relation is met as
//! `specs/Meeting.antt` says.
#![tactic(auto)]

mod alternative_reading;
mod arch;
mod arch_list;
mod arch_reading;
mod archs;
mod laws;
mod meeting;
mod members;
mod offering;
mod offers;
mod profile_reading;
mod relation;
mod relation_fault;
mod relation_reading;
mod runs;
mod suiting;

pub use arch::Arch;
pub use archs::{Archs, ArchsFault, MAX_ARCHS};
pub use laws::{
    relations_are_read_exactly, relations_are_refused_exactly, relations_ask_for_what_they_name,
    spaced_relations_are_read, texts_without_members_are_empty, written_relations_are_read_again,
};
pub use members::Members;
pub use offering::Offering;
pub use offers::{Offer, Offers};
pub use relation::{Alternative, Operator, Relation, Restriction};
pub use relation_fault::RelationFault;
