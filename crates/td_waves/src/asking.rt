//! The sources that a source builds on: one look-up for each alternative of its build.

use crate::fitting::fits;
use crate::named::is_other;
use crate::providers::{Found, Provider, Providers};
use indexmap::IndexSet;
use std::alloc::{AllocError, Global};
use td_indices::Archive;
use td_relation::{Alternative, Relation};

/// A source that asks, by its name and its number in the archive, and those whom it asks: the
/// affected sources, by their names and by the names that their packages offer.
#[derive(Clone, Copy)]
pub struct Asker<'b, 't, 'a, 'n> {
    pub archive: &'b Archive<'t, 'a>,
    pub names: &'b IndexSet<&'n str>,
    pub providers: &'b Providers<'a>,
    pub name: &'n str,
    pub number: usize,
}

impl<'b, 't, 'a, 'n> Asker<'b, 't, 'a, 'n> {
    ghost use Rattle.std.specs.Prelude.{◌≡◌, ◌||◌, ◌<◌, ℕ, IfOk, OnOk, length};
    ghost use Rattle.std.specs.List.{list_any};
    ghost use Rattle.td_relation.specs.Asked.{asked};
    ghost use Rattle.td_relation.specs.Members.{members};
    ghost use Rattle.td_indices.specs.Fields.{asked_by};
    ghost use Rattle.td_waves.specs.Asking.{finds, has, is_base, is_found};
    ghost use Rattle.td_waves.specs.BuildsOn.{some_asked};
    ghost use Rattle.td_waves.specs.Providers.{all_found};

    // Adds the source of a package if it fits.
    fn push_fitting(
        &self,
        bases: &mut Vec<usize>,
        alternative: &Alternative<'_>,
        provider: &Provider,
    ) -> Result<(), AllocError>
        ensures { OnOk result ((t : ℕ) → has t bases.new.items ≡ (has t bases.old.items
            || is_base self.now t (asked alternative.now) provider.now)) }
    {
        if is_other(self.names, self.name, provider.owner)
            && fits(self.archive, self.number, alternative, provider.home)
        {
            bases.push(provider.owner)?;
        }
        Ok(())
    }

    // Adds the sources of those packages that fit.
    fn push_found(
        &self,
        bases: &mut Vec<usize>,
        alternative: &Alternative<'_>,
        found: &Found,
    ) -> Result<(), AllocError>
        ensures { OnOk result ((t : ℕ) → has t bases.new.items ≡ (has t bases.old.items
            || list_any (is_base self.now t (asked alternative.now)) (all_found found.now))) }
    {
        self.push_fitting(bases, alternative, &found.first)?;
        for provider in &found.others {
            self.push_fitting(bases, alternative, provider)?;
        }
        Ok(())
    }

    fn push_member(
        &self,
        bases: &mut Vec<usize>,
        member: &[Alternative<'_>],
    ) -> Result<(), AllocError>
        ensures { OnOk result ((t : ℕ) → has t bases.new.items ≡ (has t bases.old.items
            || list_any (λ x. is_found self.now t (asked x)) member.now)) }
    {
        for alternative in member {
            if let Some(found) = self.providers.of_name(alternative.name) {
                self.push_found(bases, alternative, found)?;
            }
        }
        Ok(())
    }

    fn push_relation(
        &self,
        bases: &mut Vec<usize>,
        relation: &Relation<'_>,
    ) -> Result<(), AllocError>
        ensures { OnOk result ((t : ℕ) → has t bases.new.items ≡ (has t bases.old.items
            || some_asked (is_found self.now t) (members relation.now))) }
    {
        for member in relation.members() {
            self.push_member(bases, member)?;
        }
        Ok(())
    }

    // Adds those whom a field of the source asks for.
    fn push_field(
        &self,
        bases: &mut Vec<usize>,
        field: &Option<Relation<'_>>,
    ) -> Result<(), AllocError>
        ensures { OnOk result ((t : ℕ) → has t bases.new.items
            ≡ (has t bases.old.items || some_asked (is_found self.now t) (asked_by field.now))) }
    {
        match field {
            Some(relation) => self.push_relation(bases, relation),
            None => Ok(()),
        }
    }

    /// The numbers of the affected sources that it builds on, some of them more than once.
    pub fn bases(&self, alloc: Global) -> Result<Vec<usize>, AllocError>
        requires { self.now.number < length self.now.archive.now.sources }
        ensures { IfOk result (λ bases. (t : ℕ) → has t bases.items ≡ finds self.now t) }
    {
        let mut bases = Vec::new(alloc);
        let first = self.archive.build_depends(self.number)?;
        self.push_field(&mut bases, &first)?;
        let for_arch = self.archive.build_depends_arch(self.number)?;
        self.push_field(&mut bases, &for_arch)?;
        Ok(bases)
    }
}
