//! Whether what the builds of sources ask for can be read: where all of it can, the sources are kept
//! without reading it.
ghost use Rattle.std.specs.Prelude.{◌≡◌, true};
ghost use Rattle.td_stanza.specs.Table.{fields_of};
ghost use Rattle.td_indices.specs.inner.Sound.{AreSound, IsSound, IsSoundAt};

use crate::source_reading::check_relations;
use crate::stanza_pieces::StanzaPieces;
use rayon::prelude::*;
use std::alloc::Global;
use std::thread::Threads;
use td_stanza::Stanza;

/// The fewest stanzas that are worth a second thread.
const LEAST: usize = 512;

// Whether what the builds of a stanza's source ask for can be read; not, if memory runs out.
fn is_sound(alloc: Global, stanza: &Stanza<'_, '_>) -> bool
    ensures { result ≡ true → IsSound (fields_of stanza.now) }
{
    match check_relations(alloc, stanza) {
        Ok(()) => true,
        Err(_) => false,
    }
}

// Whether what the builds of the source of the stanza with a number ask for can be read.
fn is_sound_at(alloc: Global, stanzas: &StanzaPieces<'_>, number: usize) -> bool
    ensures { result ≡ true → IsSoundAt stanzas.now number }
{
    match stanzas.stanza(number) {
        Some(stanza) => is_sound(alloc, &stanza),
        None => false,
    }
}

/// Whether what the builds of the sources of all stanzas ask for can be read. Of many stanzas each
/// thread looks at some.
pub fn are_sound(rt: &(impl Threads + Sync), alloc: Global, stanzas: &StanzaPieces<'_>) -> bool
    ensures { result ≡ true → AreSound stanzas.now }
{
    (0..stanzas.len()).into_par_iter().with_min_len(LEAST).all(
        rt,
        |number: usize| -> bool
            ensures { result ≡ true → IsSoundAt stanzas.entry.now number }
        { is_sound_at(alloc, stanzas, number) },
    )
}
