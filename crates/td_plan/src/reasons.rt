//! Why a row that is bad or partial isn't planned.
ghost use Rattle.std.specs.Prelude.{◌≡◌, ◌&&◌, false, Some, slice_get};
ghost use Rattle.std.specs.List.{list_any};
ghost use Rattle.std.specs.Option.{option_map_or};
ghost use Rattle.td_indices.specs.Archive.{is_of};
ghost use Rattle.td_indices.specs.PackageKeys.{same_home};
ghost use Rattle.td_plan.specs.Premises.{Premises, is_bad as is_bad_in, row_at};
ghost use Rattle.td_plan.specs.Reasons.{reason_of as reason_in};
ghost use Rattle.td_plan.specs.inner.Inputs.{AreFor, kept_source};
ghost use Rattle.td_plan.specs.inner.Motions.{AreMotions};
ghost use Rattle.td_plan.specs.inner.Reasons.{reason_of as reason_in_spec};

use crate::due::is_installed;
use crate::inputs::Inputs;
use crate::movers::Mover;
use td_rows::Row;

/// Why a row isn't planned.
#[derive(Clone, Copy, PartialEq, Eq)]
pub enum Reason {
    /// The row isn't Installed.
    State,
    /// The row's source has no number left.
    Number,
    /// What is bad on exactly the row's architecture is of another source version.
    Old,
    /// A package of `all` is bad.
    All,
    /// The source's own stanza is bad.
    Source,
}

impl Reason {
    ghost use Rattle.std.specs.Prelude.{◌≡◌};
    ghost use Rattle.td_plan.specs.Reasons.{reason_name};
    ghost use Rattle.td_plan.specs.inner.Reasons.{reason_of};

    /// How the reason is written.
    pub fn name(self) -> &'static str
        ensures { result.now ≡ reason_name (reason_of self) }
    {
        match self {
            Reason::State => "state",
            Reason::Number => "number",
            Reason::Old => "old",
            Reason::All => "all",
            Reason::Source => "source",
        }
    }
}

// Whether the package with a number is bad, and has this home.
fn is_bad_at(inputs: &Inputs<'_, '_, '_>, home: Option<usize>, number: usize) -> bool
    ensures { (p : Premises) → AreFor inputs.now p → result
        ≡ option_map_or (λ b. same_home b.head.home home && is_bad_in p b)
        (slice_get p.archive.binaries number) false }
{
    if !inputs.is_bad(number) {
        return false;
    }
    match inputs.archive.binary(number) {
        Some(binary) => binary.arch == home,
        None => false,
    }
}

// Whether some package of a source with this home is bad.
fn has_bad(inputs: &Inputs<'_, '_, '_>, source: &str, home: Option<usize>) -> bool
    ensures { (p : Premises) → AreFor inputs.now p → result
        ≡ list_any (λ b. is_of source.now b && (same_home b.head.home home && is_bad_in p b))
        p.archive.binaries }
{
    for number in inputs.archive.packages_of(source) {
        if is_bad_at(inputs, home, *number) {
            return true;
        }
    }
    false
}

/// Why the row of a source at a place, which is bad or partial and not due, isn't planned.
pub fn reason_of(inputs: &Inputs<'_, '_, '_>, mover: &Mover<'_>, place: usize, row: &Row) -> Reason
    ensures { (p : Premises) → AreFor inputs.now p
        → AreMotions p (kept_source mover.now.source) mover.now.motions
        → row_at p (kept_source mover.now.source) place ≡ Some row.now
        → reason_in_spec result ≡ reason_in p (kept_source mover.now.source) place }
{
    if !is_installed(Some(row)) {
        return Reason::State;
    }
    if !mover.motions.is_numbered {
        return Reason::Number;
    }
    if has_bad(inputs, mover.source.name, Some(place)) {
        return Reason::Old;
    }
    if has_bad(inputs, mover.source.name, None) {
        return Reason::All;
    }
    Reason::Source
}
