//! Versions of Debian packages: their reading and their order, after Debian Policy 5.6.12 and
//! deb-version(7).
//!
//! Start at `Version::read` and `cmp_version`. A `Version` holds slices of the text, and no call
//! but `write_rebuild` takes memory; numbers may have any length.
//! Promised: a text is read if and only if it is a version, else the first fault is named; the
//! order is that of lists of symbols and numbers; a rebuild's `+bN` is split off and written
//! exactly.
#![tactic(auto)]

mod base;
mod cutting;
mod laws;
mod order;
mod reading;
mod rebuild;
mod version;

pub use base::base_of;
pub use laws::{rebuilds_rise, versions_are_ordered};
pub use order::{cmp_version, is_same_version};
pub use rebuild::{split_rebuild, write_rebuild};
pub use td_text::MAX_REBUILD;
pub use version::{MAX_EPOCH, Version, VersionFault};
