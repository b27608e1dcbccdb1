//! The names that a binary package offers, one after the other.

ghost use Rattle.std.specs.Prelude.{◌≡◌, map, option_map};
ghost use Rattle.std.specs.Iterator.{YieldsFirstBy};
ghost use Rattle.std.specs.List.{flat_map};
ghost use Rattle.td_relation.specs.Asked.{asked};
ghost use Rattle.td_relation.specs.MembersLeft.{members_left};
ghost use Rattle.td_indices.specs.OfferedNames.{name_if, provided_names};

use crate::packaged::{PackageKey, Packaged};
use crate::supplying::is_equal;
use td_relation::{Alternative, Members};

/// The names that a binary package offers: its own, and those that it provides.
#[derive(Clone, Copy)]
pub struct OfferedNames<'r, 'a> {
    pub(crate) own: Option<&'a str>,
    pub(crate) provided: Members<'r, 'a>,
}

/// The name that a member of a Provides field offers.
fn provided_name<'a>(member: &[Alternative<'a>]) -> Option<&'a str>
    ensures { provided_names (map asked member.now) ≡ name_if (option_map (λ x. x.now) result) }
{
    if member.len() != 1 {
        return None;
    }
    let provided = &member[0];
    match provided.restriction {
        None => Some(provided.name),
        Some(restriction) => {
            if is_equal(restriction.operator) {
                Some(provided.name)
            } else {
                None
            }
        }
    }
}

/// The next name that the members of a Provides field offer.
fn next_provided<'a>(members: &mut Members<'_, 'a>) -> Option<&'a str>
    ensures { YieldsFirstBy (λ name. name.now) (λ m. flat_map provided_names (members_left m))
        members.old result members.new }
{
    while let Some(member) = members.next() {
        if let Some(name) = provided_name(member) {
            return Some(name);
        }
    }
    None
}

impl<'r, 'a> OfferedNames<'r, 'a> {
    ghost use Rattle.std.specs.Prelude.{◌≡◌, []};
    ghost use Rattle.td_indices.specs.Kept.{binary_of};
    ghost use Rattle.td_indices.specs.OfferedNames.{names_left, offered_names};

    /// None.
    pub(crate) fn none() -> OfferedNames<'r, 'a>
        ensures { names_left result ≡ [] }
    {
        OfferedNames {
            own: None,
            provided: Members::none(),
        }
    }

    /// The names that a package offers.
    pub(crate) fn of_package(
        key: &PackageKey<'a>,
        packaged: &'r Packaged<'a>,
    ) -> OfferedNames<'r, 'a>
        ensures { names_left result ≡ offered_names (binary_of (key.now, packaged.now)) }
    {
        let own = Some(key.name);
        match &packaged.provides {
            Some(provides) => OfferedNames {
                own,
                provided: provides.members(),
            },
            None => OfferedNames {
                own,
                provided: Members::none(),
            },
        }
    }
}

impl<'r, 'a> Iterator for OfferedNames<'r, 'a> {
    ghost use Rattle.std.specs.Iterator.{YieldsFirstBy, item_count};
    ghost use Rattle.td_indices.specs.OfferedNames.{names_left};

    type Item = &'a str;

    ghost next_gives = { YieldsFirstBy (λ name. name.now) names_left };

    ghost remaining = { item_count names_left };

    fn next(&mut self) -> Option<&'a str> {
        match self.own {
            Some(name) => {
                self.own = None;
                Some(name)
            }
            None => next_provided(&mut self.provided),
        }
    }
}
