//! Some of an archive's sources, by flags.
ghost use Rattle.std.specs.Prelude.{◌≡◌, option_map};
ghost use Rattle.td_indices.specs.Choosing.{is_chosen as is_chosen_of};

use crate::archive::Archive;
use std::alloc::{AllocError, Global};

/// Whether the source with a number is chosen: by its flag, where there are flags. Beyond the flags
/// none is.
pub fn is_chosen(flags: Option<&[bool]>, number: usize) -> bool
    ensures { result ≡ is_chosen_of (option_map (λ x. x.now) flags.entry) number }
{
    match flags {
        None => true,
        Some(flags) => match flags.get(number) {
            Some(flag) => *flag,
            None => false,
        },
    }
}

impl<'t, 'a> Archive<'t, 'a> {
    ghost use Rattle.std.specs.Prelude.{◌≡◌, IfOk, map};
    ghost use Rattle.td_indices.specs.Choosing.{flagged};

    /// The names of the sources whose flag is set, in their order, the first flag being that of the
    /// first source.
    pub fn names_of(&self, alloc: Global, flags: &[bool]) -> Result<Vec<&'a str>, AllocError>
        ensures { IfOk result (λ names. map (λ name. name.now) names.items
            ≡ map (λ s. s.head.name) (flagged flags.now self.now.sources)) }
    {
        let mut names = Vec::new(alloc);
        for number in 0..self.source_count() {
            if is_chosen(Some(flags), number) {
                match self.entry_at(number) {
                    Some((name, _)) => names.push(name)?,
                    None => {}
                }
            }
        }
        Ok(names)
    }
}
