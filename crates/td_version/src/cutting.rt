//! A cut of a text at the last place of a character.
ghost use Rattle.std.specs.Prelude.{◌≡◌, ◌<◌, option_map};
ghost use Rattle.td_version.specs.Reading.{cut_last};

/// The text before the last `mark`, an ASCII character, and what follows that.
pub fn cut_at_last(text: &str, mark: char) -> Option<(&str, &str)>
    requires { mark < 128 }
    ensures { option_map (λ x. (x.0.now, x.1.now)) result ≡ cut_last mark text.now }
{
    text.rsplit_once(mark)
}
