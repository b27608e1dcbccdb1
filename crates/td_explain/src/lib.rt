//! What a refusal's place holds, for people: its line, its stanza or its byte, and the text there.
//!
//! Start at `explain`: one line from a place in a text, and from what is wanted there. Places count
//! as the readers of the formats count them, and the text is looked for again by its lines.
//! Promised: the line is the stated one (`specs/Explanation.antt`), with the text at the place that
//! is meant (`specs/Spot.antt`; which line, stanza or byte that is, `specs/SpotLaws.antt` says in
//! other words), cut after 60 characters and with no control character (`specs/Shown.antt`). What
//! comes at a tracker's fault, what is wrong with a table's line, which relation can't be read and
//! how a file is packed are as stated (`specs/Stray.antt`, `ArchFlaw.antt`, `Unread.antt`,
//! `Packing.antt`).
#![tactic(auto)]

mod explaining;
mod flaw;
mod laws;
mod packing;
mod shown;
mod spot;
mod stray;
mod unread;

pub use explaining::{explain, explain_path, explain_relation};
pub use flaw::{ArchFlaw, arch_flaw};
pub use laws::{arch_flaws_are_exact, places_are_found};
pub use packing::{Packing, packing_of};
pub use shown::{MAX_SHOWN, put_shown};
pub use spot::Place;
pub use stray::{Stray, stray_at};
