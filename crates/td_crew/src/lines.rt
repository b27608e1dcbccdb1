//! The lines of a script, and what a clerk answers them with.
ghost use Rattle.std.specs.Prelude.{◌<◌, ◌^◌, ◌-◌, length};

use std::alloc::Global;
use td_relation::Archs;
use td_script::Reports;

/// The lines that a clerk answers, and with what. That the reports fit any book is no field of it:
/// what `fits` says is left to `Reports`, and a ghost field has to be known as a proposition. So
/// each call asks for it, by `FitAnyBook`.
#[derive(Drop)]
pub struct Lines<'s, 'a, T: Reports> {
    pub alloc: Global,
    pub archs: &'s Archs<'a>,
    pub suites: &'s [&'s str],
    pub reports: Option<&'s T>,
    /// The text of the journal that is gone on with.
    pub journal: Option<&'s str>,
    pub script: &'s str,
    ghost small: { length script.now < 2 ^ 63 - 1 },
}
