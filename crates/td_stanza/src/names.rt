//! The names of the fields of the stanza that is read, among which a new one is looked for.
ghost use Rattle.std.specs.Prelude.{◌≡◌, ◌++◌, ◌∷◌, [], List, OnOk, length};
ghost use Rattle.std.specs.List.{list_any};
ghost use Rattle.td_stanza.specs.Field.{is_same_name as is_same_name_of};
ghost use Rattle.td_stanza.specs.declared.entry.Field.{Field as FieldOf};
ghost use Rattle.td_stanza.specs.inner.NotedNames.{AreNoted};

use crate::entry::Field;
use crate::folded::FoldedName;
use crate::name::is_same_name;
use std::alloc::{AllocError, Global};
use std::collections::HashSet;

/// How many fields of a stanza are compared with a name one by one; the stanzas of real archives
/// have some twenty. The names of further fields are looked up.
const COMPARED: usize = 32;

fn has_name(fields: &[Field<'_>], name: &str) -> bool
    ensures { result ≡ list_any (λ field. is_same_name_of name.now field.name.now) fields.now }
{
    fields.iter().any(|field| is_same_name(name, field.name))
}

/// The names of a stanza's fields after the first 32. They take no memory before there is one.
#[derive(Drop)]
pub struct Names<'a> {
    further: HashSet<FoldedName<'a>>,
}

impl<'a> Names<'a> {
    /// The names of a stanza without fields.
    pub fn new(alloc: Global) -> Names<'a>
        ensures { AreNoted result [] }
    {
        Names {
            further: HashSet::new(alloc),
        }
    }

    /// Whether one of the stanza's fields has the name, in whatever case.
    pub fn has(&self, fields: &[Field<'_>], name: &str) -> bool
        requires noted { AreNoted self.now fields.now }
        ensures { result ≡ list_any (λ field. is_same_name_of name.now field.name.now) fields.now }
    {
        if fields.len() <= COMPARED {
            return has_name(fields, name);
        }
        has_name(fields.split_at(COMPARED).0, name) || self.further.contains(&FoldedName { name })
    }

    /// Keeps the name of the field that is read after some others, if it is to be looked up.
    pub fn note(&mut self, others: &[Field<'_>], name: &'a str) -> Result<(), AllocError>
        requires noted { AreNoted self.old others.now }
        ensures noted { OnOk result ((field : FieldOf) → field.name.now ≡ name.now →
            AreNoted self.new (others.now ++ field ∷ [])) }
    {
        if others.len() >= COMPARED {
            self.further.insert(FoldedName { name })?;
        }
        Ok(())
    }
}
