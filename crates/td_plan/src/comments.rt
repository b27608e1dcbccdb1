//! The comments of a plan.

ghost use Rattle.std.specs.Prelude.{◌≡◌, ◌++◌, ◌∷◌, [], OnOk, codes, decimal, string_bytes};
ghost use Rattle.td_text.specs.Lines.{text_of};
ghost use Rattle.td_rows.specs.Appending.{Grown};
ghost use Rattle.td_rows.specs.KeyText.{key_text};
ghost use Rattle.td_rows.specs.StateWord.{state_word};
ghost use Rattle.td_query.specs.Statuses.{status_name};
ghost use Rattle.td_plan.specs.Reasons.{reason_name};
ghost use Rattle.td_plan.specs.inner.Reasons.{reason_of};
ghost use Rattle.td_plan.specs.Lines.{check_line, left_line, no_wait_line, step_line, title_of};

use crate::reasons::Reason;
use std::alloc::AllocError;
use td_query::Status;
use td_rows::{Key, Row, put_key, put_state_word};
use td_text::{next_line, put_number};

/// Appends a title: each line of it after `# `, and the first after `# tracker `.
#[tactic(auto, using(td_rows::proofs::Appends::growing, crate::proofs::Titles::titled))]
pub fn put_title(out: &mut String, title: &str) -> Result<(), AllocError>
    ensures ok { OnOk result
        (string_bytes out.new ≡ string_bytes out.old ++ text_of (title_of title.now)) }
    ensures front { Grown (string_bytes out.old) (string_bytes out.new) }
{
    let (line, rest) = next_line(title);
    out.push_str("# tracker ")?;
    out.push_str(line)?;
    out.push_str("\n")?;
    let mut rest = rest;
    while let Some(text) = rest {
        let (line, after) = next_line(text);
        out.push_str("# ")?;
        out.push_str(line)?;
        out.push_str("\n")?;
        rest = after;
    }
    Ok(())
}

/// Appends the comment before the lines of a step.
#[tactic(auto, using(td_rows::proofs::Appends::growing))]
pub fn put_step(out: &mut String, step: usize) -> Result<(), AllocError>
    ensures ok { OnOk result
        (string_bytes out.new ≡ string_bytes out.old ++ (step_line step ++ 10 ∷ [])) }
    ensures front { Grown (string_bytes out.old) (string_bytes out.new) }
{
    out.push_str("# step ")?;
    put_number(out, step as u64)?;
    out.push_str("\n")
}

/// Appends a row as `SOURCE/ARCH`.
#[tactic(auto, using(td_rows::proofs::Appends::growing))]
fn put_row_name(out: &mut String, source: &str, arch: &str) -> Result<(), AllocError>
    ensures ok { OnOk result (string_bytes out.new ≡ string_bytes out.old
        ++ key_text (record { source = source.now; arch = arch.now })) }
    ensures front { Grown (string_bytes out.old) (string_bytes out.new) }
{
    out.push_str(source)?;
    out.push_str("/")?;
    out.push_str(arch)
}

// Appends the front of the comment on a row that waits for a package.
#[tactic(auto, using(td_rows::proofs::Appends::growing))]
fn put_waits_for(out: &mut String, source: &str, arch: &str, name: &str) -> Result<(), AllocError>
    ensures ok { OnOk result (string_bytes out.new ≡ string_bytes out.old ++ (codes "# check: "
        ++ (key_text (record { source = source.now; arch = arch.now })
        ++ (codes " waits for " ++ name.now)))) }
    ensures front { Grown (string_bytes out.old) (string_bytes out.new) }
{
    out.push_str("# check: ")?;
    put_row_name(out, source, arch)?;
    out.push_str(" waits for ")?;
    out.push_str(name)
}

// Appends the source of the package, and the end of the line.
#[tactic(auto, using(td_rows::proofs::Appends::growing))]
fn put_older(out: &mut String, on: &str) -> Result<(), AllocError>
    ensures ok { OnOk result (string_bytes out.new ≡ string_bytes out.old
        ++ (codes " of an older " ++ (on.now ++ 10 ∷ []))) }
    ensures front { Grown (string_bytes out.old) (string_bytes out.new) }
{
    out.push_str(" of an older ")?;
    out.push_str(on)?;
    out.push_str("\n")?;
    Ok(())
}

/// Appends the comment on a row that waits for a package of an older version of a source.
#[tactic(auto, using(td_rows::proofs::Appends::growing))]
pub fn put_check(
    out: &mut String,
    source: &str,
    arch: &str,
    name: &str,
    on: &str,
) -> Result<(), AllocError>
    ensures ok { OnOk result (string_bytes out.new ≡ string_bytes out.old
        ++ (check_line (record { source = source.now; arch = arch.now }) name.now on.now
        ++ 10 ∷ [])) }
    ensures front { Grown (string_bytes out.old) (string_bytes out.new) }
{
    put_waits_for(out, source, arch, name)?;
    put_older(out, on)?;
    Ok(())
}

/// Appends the comment on a row that can't be told to wait for a source.
#[tactic(auto, using(td_rows::proofs::Appends::growing))]
pub fn put_no_wait(out: &mut String, source: &str, arch: &str, on: &str) -> Result<(), AllocError>
    ensures ok { OnOk result (string_bytes out.new ≡ string_bytes out.old
        ++ (no_wait_line (record { source = source.now; arch = arch.now }) on.now ++ 10 ∷ [])) }
    ensures front { Grown (string_bytes out.old) (string_bytes out.new) }
{
    out.push_str("# no wait: ")?;
    put_row_name(out, source, arch)?;
    out.push_str(" for ")?;
    out.push_str(on)?;
    out.push_str("\n")
}

// Appends a row's state and number, a space before each.
#[tactic(auto, using(td_rows::proofs::Appends::growing))]
fn put_state(out: &mut String, row: &Row) -> Result<(), AllocError>
    ensures ok { OnOk result (string_bytes out.new ≡ string_bytes out.old
        ++ 32 ∷ (state_word row.now.state ++ 32 ∷ decimal row.now.number)) }
    ensures front { Grown (string_bytes out.old) (string_bytes out.new) }
{
    out.push_str(" ")?;
    put_state_word(out, row.state)?;
    out.push_str(" ")?;
    put_number(out, row.number.get() as u64)
}

// Appends what a row is: its status, its state and its number, a space before each.
#[tactic(auto, using(td_rows::proofs::Appends::growing))]
fn put_status(out: &mut String, status: Status, row: &Row) -> Result<(), AllocError>
    ensures ok { OnOk result (string_bytes out.new ≡ string_bytes out.old
        ++ 32 ∷ (status_name status
        ++ 32 ∷ (state_word row.now.state ++ 32 ∷ decimal row.now.number))) }
    ensures front { Grown (string_bytes out.old) (string_bytes out.new) }
{
    out.push_str(" ")?;
    out.push_str(status.name())?;
    put_state(out, row)
}

// Appends what the comment on a row that isn't planned says of the row.
#[tactic(auto, using(td_rows::proofs::Appends::growing))]
fn put_left_row(out: &mut String, key: &Key, status: Status, row: &Row) -> Result<(), AllocError>
    ensures ok { OnOk result (string_bytes out.new ≡ string_bytes out.old
        ++ (codes "# not planned: " ++ (key_text key.now ++ 32 ∷ (status_name status
        ++ 32 ∷ (state_word row.now.state ++ 32 ∷ decimal row.now.number))))) }
    ensures front { Grown (string_bytes out.old) (string_bytes out.new) }
{
    out.push_str("# not planned: ")?;
    put_key(out, key)?;
    put_status(out, status, row)
}

// Appends a reason, and the end of the line.
#[tactic(auto, using(td_rows::proofs::Appends::growing))]
fn put_reason(out: &mut String, reason: Reason) -> Result<(), AllocError>
    ensures ok { OnOk result (string_bytes out.new ≡ string_bytes out.old
        ++ 32 ∷ (reason_name (reason_of reason) ++ 10 ∷ [])) }
    ensures front { Grown (string_bytes out.old) (string_bytes out.new) }
{
    out.push_str(" ")?;
    out.push_str(reason.name())?;
    out.push_str("\n")
}

/// Appends the comment on a row that is bad or partial, and isn't planned.
#[tactic(auto, using(td_rows::proofs::Appends::growing))]
pub fn put_left(
    out: &mut String,
    key: &Key,
    status: Status,
    row: &Row,
    reason: Reason,
) -> Result<(), AllocError>
    ensures ok { OnOk result (string_bytes out.new ≡ string_bytes out.old
        ++ (left_line key.now status row.now (reason_of reason) ++ 10 ∷ [])) }
    ensures front { Grown (string_bytes out.old) (string_bytes out.new) }
{
    put_left_row(out, key, status, row)?;
    put_reason(out, reason)?;
    Ok(())
}
