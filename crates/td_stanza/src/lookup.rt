//! A stanza's fields among those of the text, and a field by its name.
ghost use Rattle.std.specs.Prelude.{◌≡◌, map, option_map, slice_get};
ghost use Rattle.std.specs.List.{find};
ghost use Rattle.td_stanza.specs.Field.{is_same_name as is_same_name_of};
ghost use Rattle.td_stanza.specs.Table.{shown, pieces, IsTable};

use crate::entry::Field;
use crate::name::is_same_name;

/// The fields of the stanza with this number.
pub fn piece<'s, 'a>(
    fields: &'s [Field<'a>],
    starts: &[usize],
    number: usize,
) -> Option<&'s [Field<'a>]>
    requires { IsTable fields.now starts.now }
    ensures { option_map (λ x. map shown x.now) result
        ≡ slice_get (pieces (map shown fields.now) starts.now) number }
{
    let Some(start) = starts.get(number) else {
        return None;
    };
    let rest = fields.split_at(*start).1;
    match starts.get(number + 1) {
        None => Some(rest),
        Some(end) => Some(rest.split_at(*end - *start).0),
    }
}

/// The first field that has the name.
pub fn find_field<'s, 'a>(fields: &'s [Field<'a>], name: &str) -> Option<&'s Field<'a>>
    ensures { option_map (λ x. x.now) result
        ≡ find (λ field. is_same_name_of name.now field.name.now) fields.now }
{
    fields.iter().find(|field| is_same_name(name, field.name))
}
