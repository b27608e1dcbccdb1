//! What a version is without the number of a rebuild.
ghost use Rattle.std.specs.Prelude.{◌≡◌, option_map};
ghost use Rattle.td_version.specs.Base.{base_of as base_of_parts, base_part as base_part_of};
ghost use Rattle.td_version.specs.Base.{rebuilt_from as rebuilt_from_of};
ghost use Rattle.td_version.specs.Base.{upstream_base as upstream_base_of};
ghost use Rattle.td_version.specs.Version.{parts_of};

use crate::cutting::cut_at_last;
use crate::version::Version;
use td_text::{rebuild_number, strip};

/// What stands before `+bN` at the end of a part, if it ends so.
#[tactic(auto, unfolding(crate::specs::Base::rebuilt_from))]
fn rebuilt_from(part: &str) -> Option<&str>
    ensures { option_map (λ x. x.now) result ≡ rebuilt_from_of part.now }
{
    let (base, suffix) = cut_at_last(part, '+')?;
    let digits = strip(suffix, "b")?;
    let number = rebuild_number(digits)?;
    if number == 0 {
        return None;
    }
    Some(base)
}

fn base_part(part: &str) -> &str
    ensures { result.now ≡ base_part_of part.now }
{
    match rebuilt_from(part) {
        Some(base) => base,
        None => part,
    }
}

// Where nothing else would be left of the version, the part is its own base.
fn upstream_base(upstream: &str, epoch: u32) -> &str
    ensures { result.now ≡ upstream_base_of epoch upstream.now }
{
    let base = base_part(upstream);
    if base.is_empty() && epoch == 0 {
        return upstream;
    }
    base
}

/// The version without the `+bN` of a rebuild, in which its revision ends, or its upstream part
/// where no revision is written: the version of the base that `split_rebuild` gives, where that is
/// one. Of `1.0-+b1` an empty revision is left, and `+b1` is its own base.
pub fn base_of<'a>(version: &Version<'a>) -> Version<'a>
    ensures { parts_of result ≡ base_of_parts (parts_of version.now) }
{
    match version.revision {
        Some(revision) => Version {
            epoch: version.epoch,
            upstream: version.upstream,
            revision: Some(base_part(revision)),
        },
        None => Version {
            epoch: version.epoch,
            upstream: upstream_base(version.upstream, version.epoch),
            revision: None,
        },
    }
}
