//! The stanzas of a text, and one of them with its fields.
ghost use Rattle.std.specs.Prelude.{◌≡◌, length, map, option_map, slice_get, ◌==◌, IfSome, IfNone};
ghost use Rattle.std.specs.Prelude.{false};
ghost use Rattle.td_stanza.specs.Props.{IsDistinct-prop};
ghost use Rattle.td_stanza.specs.Shown.{shown};
ghost use Rattle.td_stanza.specs.StanzaGrammar.{IsDistinct, names_of, has_name};

use crate::entry::Field;
use crate::lookup::{find_field, piece};
use std::marker::Model;

/// The stanzas of a text.
#[derive(Drop)]
pub struct StanzaList<'a> {
    pub(crate) fields: Vec<Field<'a>>,
    pub(crate) starts: Vec<usize>,
}

impl<'a> Model for StanzaList<'a> {
    ghost use Rattle.std.specs.Prelude.{List, map};
    ghost use Rattle.td_stanza.specs.Field.{Entry};

    ghost Value = { List (List Entry) };

    ghost use Rattle.td_stanza.specs.Table.{shown, pieces, IsTable};

    ghost view = { λ list. pieces (map shown list.fields.items) list.starts.items };

    ghost invariant = { λ list. IsTable list.fields.items list.starts.items };
}

/// A stanza, a view of the list that it stands in. No two of its fields have one name.
#[derive(Clone, Copy)]
pub struct Stanza<'s, 'a> {
    fields: &'s [Field<'a>],
    ghost distinct: { IsDistinct (map shown fields.now) } by { IsDistinct-prop
        (map shown fields.now) },
}

impl<'a> StanzaList<'a> {
    ghost use Rattle.td_stanza.specs.Table.{fields_of};

    /// How many stanzas there are.
    pub fn len(&self) -> usize
        ensures { result ≡ length self.now }
    {
        self.starts.len()
    }

    /// Whether there is none.
    pub fn is_empty(&self) -> bool
        ensures { result ≡ (length self.now == 0) }
    {
        self.starts.is_empty()
    }

    /// The stanza with this number, from 0.
    pub fn stanza(&self, number: usize) -> Option<Stanza<'_, 'a>>
        ensures value { option_map fields_of result ≡ slice_get self.now number }
        ensures distinct { IfSome result (λ stanza. IsDistinct (fields_of stanza)) }
    {
        let fields = piece(self.fields.as_slice(), self.starts.as_slice(), number)?;
        Some(Stanza { fields })
    }
}

impl<'a> Stanza<'_, 'a> {
    ghost use Rattle.td_stanza.specs.Table.{fields_of, HasField, AnswersOnly};

    /// How many fields the stanza has.
    pub fn len(&self) -> usize
        ensures { result ≡ length (fields_of self.now) }
    {
        self.fields.len()
    }

    /// Whether it has none. A stanza of a text has one at least.
    pub fn is_empty(&self) -> bool
        ensures { result ≡ (length (fields_of self.now) == 0) }
    {
        self.fields.is_empty()
    }

    /// The name and the value of the field with this number, from 0.
    pub fn field(&self, number: usize) -> Option<(&'a str, &'a str)>
        ensures { option_map (λ x. record { name = x.0.now; value = x.1.now }) result
            ≡ slice_get (fields_of self.now) number }
    {
        let field = self.fields.get(number)?;
        Some((field.name, field.value))
    }

    /// The value of the field that has the name, in whatever case.
    pub fn get(&self, name: &str) -> Option<&'a str>
        ensures found { IfSome result (λ value. HasField (fields_of self.now) name.now value.now) }
        ensures absent { IfNone result (has_name (names_of (fields_of self.now)) name.now ≡ false) }
        // No other field has the name.
        ensures only { AnswersOnly (fields_of self.now) name.now (option_map (λ x. x.now) result) }
    {
        match find_field(self.fields, name) {
            Some(field) => Some(field.value),
            None => None,
        }
    }
}
