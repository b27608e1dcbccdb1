//! The texts of files that a desk is opened over.
ghost use Rattle.std.specs.Prelude.{◌≡◌, ◌<◌, ◌^◌, length, option_map, string_bytes};

use td_indices::IndexText;

/// The texts that are opened one after the other. Those of the indices come with their stanzas.
#[derive(Drop)]
pub struct InputTexts<'i> {
    /// The table of architectures.
    pub archs: &'i str,
    pub packages: IndexText<'i>,
    pub sources: IndexText<'i>,
    /// Rows to use instead of those with which the archive opens.
    pub state: Option<&'i str>,
    pub tracker: Option<&'i str>,
    ghost within: { length archs.now < 2 ^ 63 },
}

/// The text of a file that may be left out.
pub fn given_text(text: &Option<String>) -> Option<&str>
    ensures { option_map (λ s. s.now) result ≡ option_map string_bytes text.now }
{
    match text {
        Some(text) => Some(text.as_str()),
        None => None,
    }
}
