//! The members of a relation, one after the other.
use crate::relation::Alternative;

/// The members of a relation, one after the other, each as its alternatives. A step costs the same
/// wherever the member stands.
#[derive(Clone, Copy)]
pub struct Members<'r, 'a> {
    pub(crate) alternatives: &'r [Alternative<'a>],
    pub(crate) sizes: &'r [usize],
}

impl<'r, 'a> Members<'r, 'a> {
    ghost use Rattle.std.specs.Prelude.{◌≡◌, []};
    ghost use Rattle.td_relation.specs.MembersLeft.{members_left};

    /// The members of a relation that asks nothing.
    pub fn none() -> Members<'r, 'a>
        ensures { members_left result ≡ [] }
    {
        Members {
            alternatives: &[],
            sizes: &[],
        }
    }
}

impl<'r, 'a> Iterator for Members<'r, 'a> {
    ghost use Rattle.std.specs.Prelude.{map};
    ghost use Rattle.std.specs.Iterator.{YieldsFirstBy, item_count};
    ghost use Rattle.td_relation.specs.Asked.{asked};
    ghost use Rattle.td_relation.specs.MembersLeft.{members_left};

    type Item = &'r [Alternative<'a>];

    ghost next_gives = { YieldsFirstBy (λ m. map asked m.now) members_left };

    ghost remaining = { item_count members_left };

    fn next(&mut self) -> Option<&'r [Alternative<'a>]> {
        let (size, sizes) = self.sizes.split_first()?;
        let all = self.alternatives;
        let cut = (*size).min(all.len());
        self.sizes = sizes;
        self.alternatives = &all[cut..];
        Some(&all[..cut])
    }
}
