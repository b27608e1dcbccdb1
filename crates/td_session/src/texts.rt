//! What the files of a desk hold.
ghost use Rattle.std.specs.Prelude.{◌<◌, ◌^◌, length, string_bytes};

/// The texts of the files that a desk is opened over, and the suite that a command may name.
#[derive(Drop)]
pub struct SessionTexts {
    /// The table of architectures.
    pub archs: String,
    /// The Packages index.
    pub packages: String,
    /// The Sources index.
    pub sources: String,
    /// Rows to use instead of those with which the archive opens.
    pub state: Option<String>,
    pub tracker: Option<String>,
    pub suite: String,
    ghost within: { length (string_bytes archs) < 2 ^ 63 },
}
