//! The message and the suite of a plan, as its lines can have them.
ghost use Rattle.std.specs.Prelude.{◌≡◌, true, string_bytes};
ghost use Rattle.td_plan.specs.Message.{can_be_quoted, is_suite};

/// A message that one of the two quotes can hold, and a word for a suite.
#[derive(Drop)]
pub struct LineWords {
    /// The text of each rebuild.
    pub message: String,
    /// The suite that each line names.
    pub suite: String,
    ghost quotable: { can_be_quoted (string_bytes message) ≡ true },
    ghost named: { is_suite (string_bytes suite) ≡ true },
}
