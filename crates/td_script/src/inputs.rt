//! What a script runs over.
ghost use Rattle.std.specs.Prelude.{◌≡◌, ◌≤◌, ◌<◌, ◌^◌, None, length, string_bytes};
ghost use Rattle.td_board.specs.Limits.{max_builders};

/// The texts of the files, and the suite that a command may name.
#[derive(Drop)]
pub struct Inputs {
    /// The table of architectures.
    pub archs: String,
    /// The Packages index.
    pub packages: String,
    /// The Sources index.
    pub sources: String,
    /// Rows to use instead of those with which the archive opens.
    pub state: Option<String>,
    pub tracker: Option<String>,
    /// The text of the journal that is gone on with.
    pub journal: Option<String>,
    pub suite: String,
    /// How the builds of a crew end. A script without builders doesn't look at it.
    pub outcomes: Option<String>,
    /// How many builders a crew has. A script has none.
    pub builders: usize,
    ghost within: { length (string_bytes archs) < 2 ^ 63 },
    ghost few: { builders ≤ max_builders },
}
