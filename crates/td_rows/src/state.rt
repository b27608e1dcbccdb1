//! The states of a row.
ghost use Rattle.std.specs.Prelude.{◌≡◌};
ghost use Rattle.td_rows.specs.States.{is_queued, is_building};

/// The number of a builder. Those of a desk are from 1.
pub type BuilderNo = u64;

/// The largest number of a builder that a journal has.
pub const MAX_BUILDERS: BuilderNo = 64;

/// Where the build of a source on an architecture stands.
#[derive(Clone, Copy, Debug, PartialEq, Eq)]
pub enum State {
    NeedsBuild,
    /// Claimed by the builder.
    Building(BuilderNo),
    Built,
    Uploaded,
    Installed,
    DepWait,
    BdUninstallable,
    BuildAttempted,
    Failed,
    NotForUs,
}

impl State {
    /// Whether a build is wanted, and no builder has it.
    pub fn needs_build(self) -> bool
        ensures { result ≡ is_queued self }
    {
        matches!(self, State::NeedsBuild)
    }

    /// Whether a builder has it.
    pub fn is_building(self) -> bool
        ensures { result ≡ is_building self }
    {
        matches!(self, State::Building(_))
    }
}
