//! What trackers and waves ask of an archive, by numbers. Nothing here takes memory but the two
//! relations of a build, which are read again from their texts.

use crate::archive::Archive;
use crate::archive_fault::RelationField;
use crate::offered_names::OfferedNames;
use crate::relation_field::read_again;
use crate::rows::has_row;
use std::alloc::AllocError;
use td_relation::{Archs, Relation};
use td_stanza::Stanza;

impl<'t, 'a> Archive<'t, 'a> {
    ghost use Rattle.std.specs.Prelude.{
      ◌≡◌,
      ◌<◌,
      ◌⊎◌,
      [],
      IfOk,
      IfSome,
      Some,
      Ok,
      length,
      option_map,
      slice_get,
    };
    ghost use Rattle.std.specs.List.{AllByRecursion};
    ghost use Rattle.std.specs.Option.{option_map_or};
    ghost use Rattle.td_stanza.specs.StanzaGrammar.{IsDistinct};
    ghost use Rattle.td_stanza.specs.Table.{fields_of};
    ghost use Rattle.td_relation.specs.Members.{members};
    ghost use Rattle.td_relation.specs.TableView.{table};
    ghost use Rattle.td_indices.specs.Archive.{has_row_at, number_named, numbers_of};
    ghost use Rattle.td_indices.specs.Fields.{asked_by};
    ghost use Rattle.td_indices.specs.OfferedNames.{names_left, offered_names as offered_names_of};
    ghost use Rattle.td_indices.specs.Stanzas.{asked_in, asked_or_none};
    ghost use Rattle.td_indices.specs.Stanzas.{build_depends_of, build_depends_arch_of};

    /// The table of architectures.
    pub fn archs(&self) -> &'t Archs<'a>
        ensures { table result.now ≡ self.now.table }
    {
        self.archs
    }

    /// The number of the source with a name.
    pub fn source_number(&self, name: &str) -> Option<usize>
        ensures number { result ≡ number_named self.now name.now }
        ensures within { IfSome result (λ n. n < length self.now.sources) }
    {
        self.sources.get_index_of(name)
    }

    /// Whether the source with a number has a row on the architecture at a place.
    pub fn has_row(&self, source: usize, place: usize) -> bool
        requires { place < length self.now.table }
        ensures { result ≡ has_row_at self.now source place }
    {
        match self.sources.get_index(source) {
            Some((_, sourced)) => has_row(self.archs, sourced.archs, place),
            None => false,
        }
    }

    /// The numbers of a source's binary packages, wherever they are.
    pub fn packages_of(&self, source: &str) -> &[usize]
        ensures numbers { result.now ≡ numbers_of self.now source.now }
        ensures within { AllByRecursion (λ n. n < length self.now.binaries) result.now }
    {
        self.groups.of(source)
    }

    /// What the binary package with a number provides, where it has the field.
    pub fn provides(&self, binary: usize) -> Option<&Relation<'a>>
        ensures { option_map_or (λ r. members r.now) result []
            ≡ option_map_or (λ b. b.provides) (slice_get self.now.binaries binary) [] }
    {
        let (_, packaged) = self.binaries.get_index(binary)?;
        packaged.provides.as_ref()
    }

    /// The names that the binary package with a number offers.
    pub fn offered_names(&self, binary: usize) -> OfferedNames<'_, 'a>
        ensures { names_left result
            ≡ option_map_or offered_names_of (slice_get self.now.binaries binary) [] }
    {
        let Some((key, packaged)) = self.binaries.get_index(binary) else {
            return OfferedNames::none();
        };
        OfferedNames::of_package(key, packaged)
    }

    /// The stanza of the binary package with a number.
    pub fn stanza_of_binary(&self, binary: usize) -> Stanza<'_, 'a>
        requires { binary < length self.now.binaries }
        ensures there { option_map (λ b. slice_get self.now.packages b.stanza)
            (slice_get self.now.binaries binary) ≡ Some (Some (fields_of result)) }
        ensures distinct { IsDistinct (fields_of result) }
    {
        let (_, packaged) = self.binaries.get_index(binary).unwrap();
        self.packages.stanza(packaged.stanza).unwrap()
    }

    /// The stanza of the source with a number.
    pub fn stanza_of_source(&self, source: usize) -> Stanza<'_, 'a>
        requires { source < length self.now.sources }
        ensures there { option_map (λ s. slice_get self.now.source_stanzas s.stanza)
            (slice_get self.now.sources source) ≡ Some (Some (fields_of result)) }
        ensures distinct { IsDistinct (fields_of result) }
    {
        let (_, sourced) = self.sources.get_index(source).unwrap();
        self.source_stanzas.stanza(sourced.stanza).unwrap()
    }

    // What builds of the source with a number ask for in one of the two fields for that.
    fn build_relation(
        &self,
        source: usize,
        field: RelationField,
    ) -> Result<Option<Relation<'a>>, AllocError>
        requires source { source < length self.now.sources }
        requires field { (field ≡ RelationField.BuildDepends)
            ⊎ (field ≡ RelationField.BuildDependsArch) }
        ensures read { IfOk result (λ r.
            option_map (λ s. asked_in self.now s field) (slice_get self.now.sources source)
            ≡ Some (Ok (asked_by r))) }
        ensures asked { IfOk result (λ r.
            option_map (λ s. asked_or_none (asked_in self.now s field))
            (slice_get self.now.sources source) ≡ Some (asked_by r)) }
    {
        read_again(self.alloc, &self.stanza_of_source(source), field)
    }

    /// What every build of the source with a number asks for, read again from the field's text;
    /// `None` if there is no such field, or only whitespace in it.
    pub fn build_depends(&self, source: usize) -> Result<Option<Relation<'a>>, AllocError>
        requires { source < length self.now.sources }
        ensures read { IfOk result (λ r.
            option_map (λ s. asked_in self.now s RelationField.BuildDepends)
            (slice_get self.now.sources source) ≡ Some (Ok (asked_by r))) }
        ensures asked { IfOk result (λ r.
            option_map (build_depends_of self.now) (slice_get self.now.sources source)
            ≡ Some (asked_by r)) }
    {
        self.build_relation(source, RelationField::BuildDepends)
    }

    /// What the builds of the source's packages that aren't of `all` ask for, read again from the
    /// field's text; `None` if there is no such field, or only whitespace in it.
    pub fn build_depends_arch(&self, source: usize) -> Result<Option<Relation<'a>>, AllocError>
        requires { source < length self.now.sources }
        ensures read { IfOk result (λ r.
            option_map (λ s. asked_in self.now s RelationField.BuildDependsArch)
            (slice_get self.now.sources source) ≡ Some (Ok (asked_by r))) }
        ensures asked { IfOk result (λ r.
            option_map (build_depends_arch_of self.now) (slice_get self.now.sources source)
            ≡ Some (asked_by r)) }
    {
        self.build_relation(source, RelationField::BuildDependsArch)
    }
}
