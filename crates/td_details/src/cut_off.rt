//! Indices that may be cut off.
ghost use Rattle.std.specs.Prelude.{◌≡◌, ◌++◌, OnOk, string_bytes};
ghost use Rattle.td_text.specs.Lines.{text_of};
ghost use Rattle.td_details.specs.CutOff.{cut_at, cut_lines, is_cut_off as is_cut_off_of};

use std::alloc::AllocError;

/// Whether a text has bytes, and the last one is no newline.
pub fn is_cut_off(text: &str) -> bool
    ensures { result ≡ is_cut_off_of text.now }
{
    let bytes = text.as_bytes();
    if bytes.is_empty() {
        return false;
    }
    bytes[bytes.len() - 1] != b'\n'
}

/// Whether a text in two parts has bytes, and the last one is no newline.
pub fn are_halves_cut_off(front: &str, rest: &str) -> bool
    ensures { result ≡ is_cut_off_of (front.now ++ rest.now) }
{
    if rest.is_empty() {
        is_cut_off(front)
    } else {
        is_cut_off(rest)
    }
}

// Appends the warning of an index, if it may be cut off.
fn put_cut(out: &mut String, index: &str, cut: bool) -> Result<(), AllocError>
    ensures { OnOk result
        (string_bytes out.new ≡ string_bytes out.old ++ text_of (cut_at index.now cut)) }
{
    if !cut {
        return Ok(());
    }
    out.push_str("warning: ")?;
    out.push_str(index)?;
    out.push_str(" doesn't end with a newline: it may be cut off")?;
    out.push_str("\n")
}

/// Appends the warnings of Packages and of Sources, by whether each may be cut off.
pub fn put_cut_lines(out: &mut String, packages: bool, sources: bool) -> Result<(), AllocError>
    ensures { OnOk result
        (string_bytes out.new ≡ string_bytes out.old ++ text_of (cut_lines packages sources)) }
{
    put_cut(out, "Packages", packages)?;
    put_cut(out, "Sources", sources)
}
