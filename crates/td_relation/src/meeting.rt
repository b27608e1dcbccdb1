//! Whether a relation is met.
ghost use Rattle.std.specs.Prelude.{◌≡◌, ◌≤◌, ◌+◌, ◌&&◌, drop, length, map, take};
ghost use Rattle.std.specs.List.{list_all, list_any};
ghost use Rattle.std.specs.Str.{bytes_eq};
ghost use Rattle.td_relation.specs.Arch.{words_of};
ghost use Rattle.td_relation.specs.Asked.{asked};
ghost use Rattle.td_relation.specs.Meeting.{active as active_of, alternative_met, member_met};
ghost use Rattle.td_relation.specs.Members.{chunked};

use crate::arch::Arch;
use crate::arch_list::counts;
use crate::offering::Offering;
use crate::relation::Alternative;

/// Whether an alternative counts on an architecture, where no build profile is active.
pub fn is_active(alternative: &Alternative<'_>, arch: &Arch<'_>) -> bool
    ensures { result ≡ active_of (words_of arch.now) (asked alternative.now) }
{
    alternative.unprofiled
        && match alternative.archs {
            None => true,
            Some(list) => counts(arch, list),
        }
}

fn is_met<O: Offering>(alternative: &Alternative<'_>, offers: &O, place: usize) -> bool
    ensures { result ≡ alternative_met (O.on_offer offers.now) place (asked alternative.now) }
{
    offers.has(alternative.name, place, &alternative.restriction)
}

/// Whether a member with an active alternative has an active one that is met.
pub fn is_member_met<O: Offering>(
    member: &[Alternative<'_>],
    offers: &O,
    arch: &Arch<'_>,
    place: usize,
) -> bool
    ensures { result ≡ member_met (O.on_offer offers.now) place (words_of arch.now)
        (map asked member.now) }
{
    let active = has_active(member, arch);
    let met = has_met(member, offers, arch, place);
    !active || met
}

fn has_active(member: &[Alternative<'_>], arch: &Arch<'_>) -> bool
    ensures { result ≡ list_any (λ a. active_of (words_of arch.now) (asked a)) member.now }
{
    member.iter().any(|a| is_active(a, arch))
}

fn has_met<O: Offering>(
    member: &[Alternative<'_>],
    offers: &O,
    arch: &Arch<'_>,
    place: usize,
) -> bool
    ensures { result ≡ list_any (λ a. active_of (words_of arch.now) (asked a)
        && alternative_met (O.on_offer offers.now) place (asked a)) member.now }
{
    member
        .iter()
        .any(|a| is_active(a, arch) && is_met(a, offers, place))
}

/// Whether an active alternative of a member has the name.
pub fn is_asked(member: &[Alternative<'_>], arch: &Arch<'_>, name: &str) -> bool
    ensures { result ≡ list_any (λ a.
        active_of (words_of arch.now) (asked a) && bytes_eq a.name.now name.now) member.now }
{
    member.iter().any(|a| is_active(a, arch) && a.name == name)
}

// The alternatives of the member that begins at a place.
fn member_at<'b, 'a>(
    alternatives: &'b [Alternative<'a>],
    from: usize,
    size: usize,
) -> &'b [Alternative<'a>]
    requires { from ≤ length alternatives.now }
    ensures value { result.now ≡ take size (drop from alternatives.now) }
    ensures within { from + length result.now ≤ length alternatives.now }
{
    let rest = &alternatives[from..];
    &rest[..size.min(rest.len())]
}

/// Whether each member is met; the members have these sizes.
pub fn are_met<O: Offering>(
    alternatives: &[Alternative<'_>],
    sizes: &[usize],
    offers: &O,
    arch: &Arch<'_>,
    place: usize,
) -> bool
    ensures { result ≡ list_all (λ m. member_met (O.on_offer offers.now) place (words_of arch.now)
        (map asked m)) (chunked sizes.now alternatives.now) }
{
    let mut from = 0;
    for size in sizes {
        let member = member_at(alternatives, from, *size);
        if !is_member_met(member, offers, arch, place) {
            return false;
        }
        from += member.len();
    }
    true
}

/// Whether an active alternative of some member has the name; the members have these sizes.
pub fn are_asked(
    alternatives: &[Alternative<'_>],
    sizes: &[usize],
    arch: &Arch<'_>,
    name: &str,
) -> bool
    ensures { result ≡ list_any (λ m. list_any (λ a. active_of (words_of arch.now) (asked a)
        && bytes_eq a.name.now name.now) m) (chunked sizes.now alternatives.now) }
{
    let mut from = 0;
    for size in sizes {
        let member = member_at(alternatives, from, *size);
        if is_asked(member, arch, name) {
            return true;
        }
        from += member.len();
    }
    false
}
