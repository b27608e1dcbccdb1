//! Whether a text is a relation.
ghost use Rattle.std.specs.Prelude.{◌≡◌, IfOk};
ghost use Rattle.td_lasting.specs.Sending.{is_relation as is_a_relation};

use std::alloc::{AllocError, Global};
use td_relation::{Relation, RelationFault};

/// Whether a text is a relation (Debian Policy 7.1).
pub(crate) fn is_relation(alloc: Global, text: &str) -> Result<bool, AllocError>
    ensures { IfOk result (λ is. is ≡ is_a_relation text.now) }
{
    match Relation::read(alloc, text) {
        Ok(_) => Ok(true),
        Err(RelationFault::NoMemory) => Err(AllocError),
        Err(_) => Ok(false),
    }
}
