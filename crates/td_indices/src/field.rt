//! The fields of a stanza that have to be names or versions.
ghost use Rattle.std.specs.Prelude.{◌≡◌, option_map};
ghost use Rattle.std.specs.Prelude.{Ok};
ghost use Rattle.td_stanza.specs.Table.{fields_of};
ghost use Rattle.td_version.specs.Reading.{parts_read, reading};
ghost use Rattle.td_indices.specs.Fields.{
  found_text,
  name_in as name_in_of,
  needed as needed_of,
  value_of as value_in,
  version_found,
  version_in as version_in_of,
};

use crate::archive_fault::{EntryFault, IndexField, VersionField};
use td_stanza::Stanza;
use td_text::is_name;
use td_version::{Version, VersionFault};

/// The value of the field that has the name, in whatever case.
pub fn value_of<'a>(stanza: &Stanza<'_, 'a>, name: &str) -> Option<&'a str>
    ensures { option_map (λ x. x.now) result ≡ value_in (fields_of stanza.now) name.now }
{
    stanza.get(name)
}

/// The value of a field that a stanza needs.
pub fn needed(field: IndexField, value: Option<&str>) -> Result<&str, EntryFault>
    ensures { found_text result ≡ needed_of field (option_map (λ x. x.now) value.entry) }
{
    match value {
        Some(text) => Ok(text),
        None => Err(EntryFault::Missing(field)),
    }
}

/// The name of a package that a field has to have.
pub fn name_in(field: IndexField, value: Option<&str>) -> Result<&str, EntryFault>
    ensures { found_text result ≡ name_in_of field (option_map (λ x. x.now) value.entry) }
{
    match value {
        Some(text) => {
            if is_name(text) {
                Ok(text)
            } else {
                Err(EntryFault::Missing(field))
            }
        }
        None => Err(EntryFault::Missing(field)),
    }
}

fn read_parts(text: &str) -> Result<Version<'_>, VersionFault>
    ensures { parts_read result ≡ reading text.now }
{
    Version::read(text)
}

/// The version that a text is, which stands in this field.
pub fn version_in(field: VersionField, text: &str) -> Result<Version<'_>, EntryFault>
    ensures { version_found result ≡ version_in_of field text.now }
{
    match read_parts(text) {
        Ok(version) => Ok(version),
        Err(_) => Err(EntryFault::BadVersion(field)),
    }
}
