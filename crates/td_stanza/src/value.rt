//! Texts without the blanks around them.
ghost use Rattle.std.specs.Prelude.{◌≡◌, ◌<◌, length, IfSome, IfNone};
ghost use Rattle.td_stanza.specs.Value.{trimmed_front, trimmed_back, trimmed};

fn after_blank(text: &str) -> Option<&str>
    ensures front { IfSome result (λ x. trimmed_front text.now ≡ trimmed_front x.now) }
    ensures shorter { IfSome result (λ x. length x.now < length text.now) }
    ensures none { IfNone result (trimmed_front text.now ≡ text.now) }
{
    match text.strip_prefix(' ') {
        Some(rest) => Some(rest),
        None => text.strip_prefix('\t'),
    }
}

fn before_blank(text: &str) -> Option<&str>
    ensures back { IfSome result (λ x. trimmed_back text.now ≡ trimmed_back x.now) }
    ensures shorter { IfSome result (λ x. length x.now < length text.now) }
    ensures none { IfNone result (trimmed_back text.now ≡ text.now) }
{
    match text.strip_suffix(' ') {
        Some(rest) => Some(rest),
        None => text.strip_suffix('\t'),
    }
}

fn trim_front(text: &str) -> &str
    ensures { result.now ≡ trimmed_front text.now }
{
    let mut rest = text;
    while let Some(shorter) = after_blank(rest) {
        rest = shorter;
    }
    rest
}

fn trim_back(text: &str) -> &str
    ensures { result.now ≡ trimmed_back text.now }
{
    let mut rest = text;
    while let Some(shorter) = before_blank(rest) {
        rest = shorter;
    }
    rest
}

/// The text without the spaces and tabs at both ends.
pub fn trim(text: &str) -> &str
    ensures { result.now ≡ trimmed text.now }
{
    trim_back(trim_front(text))
}
