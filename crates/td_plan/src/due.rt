//! Which rows of a source are rebuilt, and which are on their way already.
ghost use Rattle.std.specs.Prelude.{◌≡◌, ◌&&◌, ◌<◌, false, IfOk, Some, length, map, slice_get};
ghost use Rattle.std.specs.Prelude.{if◌then◌else◌};
ghost use Rattle.std.specs.List.{list_any};
ghost use Rattle.std.specs.Option.{option_copied, option_map_or};
ghost use Rattle.td_version.specs.Version.{parts_of};
ghost use Rattle.td_rows.specs.States.{is_installed as is_installed_of};
ghost use Rattle.td_indices.specs.Opening.{is_current};
ghost use Rattle.td_plan.specs.Due.{
  asks_rebuild as asks_rebuild_of,
  is_due,
  is_present as is_present_of,
  is_ready as is_ready_of,
  is_under_way as is_under_way_of,
};
ghost use Rattle.td_plan.specs.Premises.{Premises, is_bad as is_bad_in, places};
ghost use Rattle.td_plan.specs.inner.Inputs.{AreFor, kept_source};
ghost use Rattle.td_plan.specs.inner.Motions.{AreMotions, motion_at as motion_of, row_motion};

use crate::inputs::Inputs;
use crate::numbers::{is_present, number_over};
use std::alloc::{AllocError, Global};
use td_indices::Source;
use td_query::Status;
use td_rows::{MAX_REBUILD, Row, State};

/// What a plan has to do with a row.
#[derive(Clone, Copy, PartialEq, Eq)]
pub enum Motion {
    /// The row stays as it is.
    Still,
    /// The row is rebuilt.
    Due,
    /// The row is on its way already, with this number.
    Pending(u16),
}

/// What a plan has to do with the rows of a source, by their places.
#[derive(Drop)]
pub struct Motions {
    /// The number of the rows that are rebuilt.
    pub number: u16,
    /// Whether a number is left for these rows.
    pub is_numbered: bool,
    pub at: Vec<Motion>,
}

/// Whether a status asks for a rebuild.
pub fn asks_rebuild(status: Option<Status>) -> bool
    ensures { result ≡ asks_rebuild_of status }
{
    matches!(status, Some(Status::Bad | Status::Partial))
}

/// Whether a row is there, and Installed.
pub fn is_installed(row: Option<&Row>) -> bool
    ensures { result ≡ option_map_or (λ r. is_installed_of r.state) (option_copied row.entry)
        false }
{
    match row {
        Some(row) => matches!(row.state, State::Installed),
        None => false,
    }
}

/// Whether the state is that of a build that is asked for, or under way.
pub fn is_under_way(state: State) -> bool
    ensures { result ≡ is_under_way_of state }
{
    matches!(
        state,
        State::NeedsBuild | State::Building(_) | State::Built | State::Uploaded | State::DepWait
    )
}

// Whether the package with a number is bad, of exactly the architecture at a place, and of the
// source's present version.
fn is_bad_there(
    inputs: &Inputs<'_, '_, '_>,
    source: &Source<'_>,
    place: usize,
    number: usize,
) -> bool
    ensures { (p : Premises) → AreFor inputs.now p → result
        ≡ option_map_or (λ b. is_current (parts_of source.now.parts) place b && is_bad_in p b)
        (slice_get p.archive.binaries number) false }
{
    if !inputs.is_bad(number) {
        return false;
    }
    match inputs.archive.binary(number) {
        Some(binary) => is_present(source, place, &binary),
        None => false,
    }
}

// Whether some package of the source there, of the source's present version, is bad.
fn has_bad_package(inputs: &Inputs<'_, '_, '_>, source: &Source<'_>, place: usize) -> bool
    ensures { (p : Premises) → AreFor inputs.now p → result
        ≡ list_any (λ b. is_present_of (kept_source source.now) place b && is_bad_in p b)
        p.archive.binaries }
{
    for number in inputs.archive.packages_of(source.name) {
        if is_bad_there(inputs, source, place, *number) {
            return true;
        }
    }
    false
}

// Whether the row of the source with a number is due except for its rebuild number.
fn is_ready(inputs: &Inputs<'_, '_, '_>, number: usize, source: &Source<'_>, place: usize) -> bool
    requires place { place < length inputs.now.archive.now.table }
    requires source { slice_get inputs.now.archive.now.sources number
        ≡ Some (kept_source source.now) }
    ensures { (p : Premises) → AreFor inputs.now p
        → result ≡ is_ready_of p (kept_source source.now) place }
{
    if !asks_rebuild(inputs.status(number, place)) {
        return false;
    }
    if !is_installed(inputs.row(source.name, place)) {
        return false;
    }
    has_bad_package(inputs, source, place)
}

// For each place whether the row there is due except for its rebuild number.
fn ready_flags(
    alloc: Global,
    inputs: &Inputs<'_, '_, '_>,
    number: usize,
    source: &Source<'_>,
) -> Result<Vec<bool>, AllocError>
    requires { slice_get inputs.now.archive.now.sources number ≡ Some (kept_source source.now) }
    ensures ready { IfOk result (λ flags. (p : Premises) → AreFor inputs.now p
        → flags.items ≡ map (is_ready_of p (kept_source source.now)) (places p)) }
    ensures len { IfOk result (λ flags.
        length flags.items ≡ length inputs.now.archive.now.table) }
{
    let count = inputs.archive.arch_count();
    let mut flags = Vec::with_capacity(alloc, count)?;
    for place in 0..count {
        flags.push(is_ready(inputs, number, source, place))?;
    }
    Ok(flags)
}

// What a plan has to do with a row that asks for a rebuild and isn't due.
fn motion_of_row(row: Option<&Row>) -> Motion
    ensures { result ≡ row_motion (option_copied row.entry) }
{
    match row {
        Some(row) if is_under_way(row.state) => Motion::Pending(row.number.get()),
        _ => Motion::Still,
    }
}

// What a plan has to do with the row of the source with a number; `due` says whether it is due.
fn motion_at(
    inputs: &Inputs<'_, '_, '_>,
    number: usize,
    source: &Source<'_>,
    place: usize,
    due: bool,
) -> Motion
    requires place { place < length inputs.now.archive.now.table }
    requires source { slice_get inputs.now.archive.now.sources number
        ≡ Some (kept_source source.now) }
    ensures { (p : Premises) → AreFor inputs.now p
        → due ≡ is_due p (kept_source source.now) place
        → result ≡ motion_of p (kept_source source.now) place }
{
    if due {
        return Motion::Due;
    }
    if !asks_rebuild(inputs.status(number, place)) {
        return Motion::Still;
    }
    motion_of_row(inputs.row(source.name, place))
}

// Whether a row is due: a number is left, and it is due except for that.
fn is_rebuilt(is_numbered: bool, is_ready: bool) -> bool
    ensures { result ≡ (is_numbered && is_ready) }
{
    is_numbered && is_ready
}

/// What a plan has to do with the rows of the source with a number.
pub fn motions_of(
    alloc: Global,
    inputs: &Inputs<'_, '_, '_>,
    number: usize,
    source: &Source<'_>,
) -> Result<Motions, AllocError>
    requires { slice_get inputs.now.archive.now.sources number ≡ Some (kept_source source.now) }
    ensures motions { IfOk result (λ motions. (p : Premises) → AreFor inputs.now p
        → AreMotions p (kept_source source.now) motions) }
    ensures len { IfOk result (λ motions.
        length motions.at.items ≡ length inputs.now.archive.now.table) }
{
    let flags = ready_flags(alloc, inputs, number, source)?;
    let rebuild = number_over(inputs, source, &flags);
    let is_numbered = rebuild <= MAX_REBUILD;
    let mut at = Vec::with_capacity(alloc, flags.len())?;
    for place in 0..flags.len() {
        let due = is_rebuilt(is_numbered, flags[place]);
        at.push(motion_at(inputs, number, source, place, due))?;
    }
    Ok(Motions {
        number: rebuild,
        is_numbered,
        at,
    })
}
