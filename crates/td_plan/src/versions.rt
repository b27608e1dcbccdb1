//! The version under which a rebuild of a package arrives, as it is written.
ghost use Rattle.std.specs.Prelude.{◌≡◌, ◌++◌, ◌==◌, OnOk, string_bytes};
ghost use Rattle.std.specs.List.{list_any};
ghost use Rattle.td_rows.specs.Appending.{Grown};
ghost use Rattle.td_version.specs.Rebuild.{rebuild_suffix};
ghost use Rattle.td_version.specs.Version.{parts_of};
ghost use Rattle.td_supply.specs.Supplied.{last_part as last_part_of};
ghost use Rattle.td_plan.specs.Packages.{epoch_text, revision_text};

use std::alloc::AllocError;
use td_text::put_number;
use td_version::Version;

/// A version, and the number of a rebuild of it.
#[derive(Clone, Copy)]
pub struct Rebuilt<'a> {
    pub base: Version<'a>,
    pub number: u16,
}

// Whether a text has a colon.
fn has_colon(text: &str) -> bool
    ensures { result ≡ list_any (λ c. c == 58) text.now }
{
    text.as_bytes().iter().any(|c| *c == b':')
}

// What follows the last hyphen, or the whole upstream part if there is none.
fn last_part<'a>(version: &Version<'a>) -> &'a str
    ensures { result.now ≡ last_part_of (parts_of version.now) }
{
    match version.revision {
        Some(revision) => revision,
        None => version.upstream,
    }
}

#[tactic(auto, using(td_rows::proofs::Appends::growing))]
fn put_epoch(out: &mut String, version: &Version<'_>) -> Result<(), AllocError>
    ensures ok { OnOk result (string_bytes out.new ≡ string_bytes out.old
        ++ epoch_text (parts_of version.now).epoch (parts_of version.now).upstream) }
    ensures front { Grown (string_bytes out.old) (string_bytes out.new) }
{
    if version.epoch == 0 && !has_colon(version.upstream) {
        return Ok(());
    }
    put_number(out, version.epoch as u64)?;
    out.push_str(":")
}

#[tactic(auto, using(td_rows::proofs::Appends::growing))]
fn put_revision(out: &mut String, version: &Version<'_>) -> Result<(), AllocError>
    ensures ok { OnOk result (string_bytes out.new ≡ string_bytes out.old
        ++ revision_text (parts_of version.now).revision) }
    ensures front { Grown (string_bytes out.old) (string_bytes out.new) }
{
    match version.revision {
        Some(revision) => {
            out.push_str("-")?;
            out.push_str(revision)
        }
        None => Ok(()),
    }
}

#[tactic(auto, using(td_rows::proofs::Appends::growing))]
fn put_suffix(out: &mut String, number: u16) -> Result<(), AllocError>
    ensures ok { OnOk result
        (string_bytes out.new ≡ string_bytes out.old ++ rebuild_suffix number) }
    ensures front { Grown (string_bytes out.old) (string_bytes out.new) }
{
    if number == 0 {
        return Ok(());
    }
    out.push_str("+b")?;
    put_number(out, number as u64)
}

impl Rebuilt<'_> {
    ghost use Rattle.std.specs.Prelude.{◌≡◌, ◌++◌, OnOk, string_bytes};
    ghost use Rattle.td_rows.specs.Appending.{Grown};
    ghost use Rattle.td_plan.specs.inner.Rebuilt.{is_written as is_written_of, text_of};

    /// Whether the rebuild's version can be written: with its number, something is left of its last
    /// part.
    pub fn is_written(&self) -> bool
        ensures { result ≡ is_written_of self.now }
    {
        self.number > 0 || !last_part(&self.base).is_empty()
    }

    /// Appends the rebuild's version.
    #[tactic(auto, using(td_rows::proofs::Appends::growing))]
    pub fn put(&self, out: &mut String) -> Result<(), AllocError>
        ensures ok { OnOk result (string_bytes out.new ≡ string_bytes out.old
            ++ text_of self.now) }
        ensures front { Grown (string_bytes out.old) (string_bytes out.new) }
    {
        put_epoch(out, &self.base)?;
        out.push_str(self.base.upstream)?;
        put_revision(out, &self.base)?;
        put_suffix(out, self.number)
    }
}
