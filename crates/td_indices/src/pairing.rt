//! Two results as one.
ghost use Rattle.std.specs.Prelude.{◌≡◌, ◌⊎◌, Ok, Err, IfOk, IfErr};

use crate::archive_fault::ArchiveFault;

/// What both give, or the first fault.
pub fn paired<A: Drop, B: Drop>(
    first: Result<A, ArchiveFault>,
    second: Result<B, ArchiveFault>,
) -> Result<(A, B), ArchiveFault>
    ensures ok { IfOk result (λ p. (first ≡ Ok p.0) × (second ≡ Ok p.1)) }
    ensures err { IfErr result (λ e. (first ≡ Err e)
        ⊎ ((a : A) × (first ≡ Ok a) × (second ≡ Err e))) }
{
    Ok((first?, second?))
}
