//! What a stanza of Packages is kept as.
ghost use Rattle.std.specs.Prelude.{◌≡◌, Ok, IfOk, IfErr, option_map};
ghost use Rattle.td_stanza.specs.Table.{fields_of};
ghost use Rattle.td_relation.specs.TableView.{table};
ghost use Rattle.td_indices.specs.Fields.{Fails};
ghost use Rattle.td_indices.specs.Kept.{binary_at, binary_of};

use crate::archive_fault::EntryFault;
use crate::binary_reading::read_head;
use crate::packaged::{PackageKey, Packaged};
use crate::relation_field::read_provides;
use std::alloc::Global;
use td_relation::Archs;
use td_stanza::Stanza;

/// What a stanza of Packages is kept as; `None` where the package isn't here.
#[tactic(auto, unfolding(crate::specs::Kept::binary_at))]
pub fn read_binary<'a>(
    alloc: Global,
    archs: &Archs<'_>,
    stanza: &Stanza<'_, 'a>,
    number: usize,
) -> Result<Option<(PackageKey<'a>, Packaged<'a>)>, EntryFault>
    ensures ok { IfOk result (λ o.
        binary_at (table archs.now) number (fields_of stanza.now) ≡ Ok (option_map binary_of o)) }
    ensures err { IfErr result (λ e.
        Fails (binary_at (table archs.now) number (fields_of stanza.now)) e) }
{
    let head = match read_head(archs, stanza) {
        Ok(Some(head)) => head,
        Ok(None) => return Ok(None),
        Err(fault) => return Err(fault),
    };
    let provides = match read_provides(alloc, stanza) {
        Ok(provides) => provides,
        Err(fault) => return Err(fault),
    };
    let packaged = Packaged {
        version: head.version,
        parts: head.parts,
        source: head.source,
        source_parts: head.source_parts,
        provides,
        stanza: number,
    };
    Ok(Some((head.key, packaged)))
}
