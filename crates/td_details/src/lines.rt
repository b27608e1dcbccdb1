//! The lines of the details, and of the warnings.
ghost use Rattle.std.specs.Prelude.{◌≡◌, ◌++◌, ◌∷◌, [], OnOk, codes, decimal, string_bytes};
ghost use Rattle.td_text.specs.Lines.{text_of};
ghost use Rattle.td_details.specs.Details.{arch_line, no_package_line, swapped_at};

use crate::counts::ArchCounts;
use std::alloc::AllocError;
use td_text::put_number;

/// Appends words and a number after them.
pub fn put_counted(out: &mut String, words: &str, count: usize) -> Result<(), AllocError>
    ensures { OnOk result
        (string_bytes out.new ≡ string_bytes out.old ++ (words.now ++ decimal count)) }
{
    out.push_str(words)?;
    put_number(out, count as u64)
}

/// Appends words and a name after them.
pub fn put_named(out: &mut String, words: &str, name: &str) -> Result<(), AllocError>
    ensures { OnOk result
        (string_bytes out.new ≡ string_bytes out.old ++ (words.now ++ name.now)) }
{
    out.push_str(words)?;
    out.push_str(name)
}

/// Ends a line.
pub fn put_end(out: &mut String) -> Result<(), AllocError>
    ensures { OnOk result (string_bytes out.new ≡ string_bytes out.old ++ 10 ∷ []) }
{
    out.push_str("\n")
}

/// Appends the line of an architecture.
pub fn put_arch_line(out: &mut String, name: &str, counts: ArchCounts) -> Result<(), AllocError>
    ensures { OnOk result (string_bytes out.new
        ≡ string_bytes out.old ++ (arch_line name.now counts ++ 10 ∷ [])) }
{
    put_named(out, "arch ", name)?;
    put_counted(out, " binaries ", counts.binaries)?;
    put_counted(out, " rows ", counts.rows)?;
    put_counted(out, " needs-build ", counts.queued)?;
    put_end(out)
}

/// Appends the warning of an architecture without a package.
pub fn put_no_package_line(out: &mut String, name: &str) -> Result<(), AllocError>
    ensures { OnOk result (string_bytes out.new
        ≡ string_bytes out.old ++ (no_package_line name.now ++ 10 ∷ [])) }
{
    put_named(out, "warning: Packages has no package of ", name)?;
    out.push_str("\n")
}

/// Appends the warning of stanzas in the wrong index, by words for that, if there are some.
pub fn put_swapped_line(out: &mut String, words: &str, count: usize) -> Result<(), AllocError>
    ensures { OnOk result (string_bytes out.new
        ≡ string_bytes out.old ++ text_of (swapped_at words.now count)) }
{
    if count == 0 {
        return Ok(());
    }
    out.push_str("warning: ")?;
    out.push_str(words)?;
    put_counted(out, ": ", count)?;
    out.push_str("\n")
}
