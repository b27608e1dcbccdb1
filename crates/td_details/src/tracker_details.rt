//! What a tracker asks of an archive: its texts and patterns, and what is odd about them.
ghost use Rattle.std.specs.Prelude.{◌≡◌, ◌++◌, ◌∷◌, [], OnOk, map, string_bytes};
ghost use Rattle.std.specs.List.{flat_map};
ghost use Rattle.td_text.specs.Lines.{text_of};
ghost use Rattle.td_query.specs.Atoms.{atom_shape, found_in};
ghost use Rattle.td_query.specs.Tracking.{tracking};
ghost use Rattle.td_details.specs.Asked.{asked as asked_of};
ghost use Rattle.td_details.specs.TrackerDetails.{asked_warnings, asked_words, found_line};
ghost use Rattle.td_details.specs.TrackerDetails.{found_line_in, no_field_at, no_field_line};
ghost use Rattle.td_details.specs.TrackerDetails.{no_name_at, no_name_line, quoted, tracker_lines};

use crate::anywhere::is_anywhere;
use crate::asked::{asked, field, fields_in, has_mark, kind_word, said};
use crate::lines::{put_counted, put_end, put_named};
use std::alloc::{AllocError, Global};
use td_explain::put_shown;
use td_indices::Archive;
use td_query::{Atom, Found, Tracker, count_atoms};

// Appends a text between quotation marks.
fn put_quoted(out: &mut String, text: &str) -> Result<(), AllocError>
    ensures { OnOk result (string_bytes out.new ≡ string_bytes out.old ++ quoted text.now) }
{
    put_shown(out, text, text.len())
}

// Appends the field of a text or a pattern, and what it says.
fn put_asked(out: &mut String, tracker: &Tracker<'_>, atom: Atom<'_>) -> Result<(), AllocError>
    ensures { OnOk result (string_bytes out.new
        ≡ string_bytes out.old ++ asked_words (tracking tracker.now) (atom_shape atom.entry)) }
{
    out.push_str(field(atom))?;
    out.push_str(" ")?;
    put_quoted(out, said(tracker, atom))
}

// Appends the line of a text or a pattern.
fn put_found(
    out: &mut String,
    tracker: &Tracker<'_>,
    atom: Atom<'_>,
    found: Found,
) -> Result<(), AllocError>
    ensures { OnOk result (string_bytes out.new ≡ string_bytes out.old
        ++ (found_line (tracking tracker.now) (atom_shape atom.entry) found ++ 10 ∷ [])) }
{
    put_named(out, "tracker ", kind_word(atom))?;
    out.push_str(" .")?;
    put_asked(out, tracker, atom)?;
    put_counted(out, " packages ", found.packages)?;
    put_counted(out, " sources ", found.sources)?;
    out.push_str("\n")
}

// Appends the lines of texts and patterns, of which each is found so often.
fn put_all_found(
    out: &mut String,
    archive: &Archive<'_, '_>,
    tracker: &Tracker<'_>,
    atoms: &[Atom<'_>],
    counts: &[Found],
) -> Result<(), AllocError>
    requires { counts.now ≡ map (found_in archive.now (tracking tracker.now).patterns)
        (map atom_shape atoms.now) }
    ensures { OnOk result (string_bytes out.new ≡ string_bytes out.old ++ text_of
        (map (found_line_in archive.now (tracking tracker.now)) (map atom_shape atoms.now))) }
{
    for i in 0..atoms.len() {
        put_found(out, tracker, atoms[i], counts[i])?;
    }
    Ok(())
}

// Appends the warning of a field that no stanza has.
fn put_no_field_line(out: &mut String, field: &str) -> Result<(), AllocError>
    ensures { OnOk result (string_bytes out.new
        ≡ string_bytes out.old ++ (no_field_line field.now ++ 10 ∷ [])) }
{
    put_named(out, "warning: no stanza has the field .", field)?;
    put_end(out)
}

// Appends the warning of a field, if no stanza has it.
fn put_no_field(out: &mut String, archive: &Archive<'_, '_>, field: &str) -> Result<(), AllocError>
    ensures { OnOk result (string_bytes out.new
        ≡ string_bytes out.old ++ text_of (no_field_at archive.now field.now)) }
{
    if is_anywhere(archive, field) {
        return Ok(());
    }
    put_no_field_line(out, field)
}

// Appends the warnings of fields that no stanza has.
fn put_no_fields(
    out: &mut String,
    archive: &Archive<'_, '_>,
    fields: &[&str],
) -> Result<(), AllocError>
    ensures { OnOk result (string_bytes out.new ≡ string_bytes out.old ++ text_of
        (flat_map (no_field_at archive.now) (map (λ f. f.now) fields.now))) }
{
    for i in 0..fields.len() {
        put_no_field(out, archive, fields[i])?;
    }
    Ok(())
}

// Appends the warning of a text that no package can have as its name.
fn put_no_name_line(
    out: &mut String,
    tracker: &Tracker<'_>,
    atom: Atom<'_>,
) -> Result<(), AllocError>
    ensures { OnOk result (string_bytes out.new ≡ string_bytes out.old
        ++ (no_name_line (tracking tracker.now) (atom_shape atom.entry) ++ 10 ∷ [])) }
{
    out.push_str("warning: a text is no pattern, and no name has one of | ^ $ *: .")?;
    put_asked(out, tracker, atom)?;
    out.push_str("\n")
}

// Appends the warning of a text, if no package can have it as its name.
fn put_no_name(out: &mut String, tracker: &Tracker<'_>, atom: Atom<'_>) -> Result<(), AllocError>
    ensures { OnOk result (string_bytes out.new ≡ string_bytes out.old
        ++ text_of (no_name_at (tracking tracker.now) (atom_shape atom.entry))) }
{
    if !has_mark(atom) {
        return Ok(());
    }
    put_no_name_line(out, tracker, atom)
}

// Appends the warnings of texts that no package can have as its name.
fn put_no_names(
    out: &mut String,
    tracker: &Tracker<'_>,
    atoms: &[Atom<'_>],
) -> Result<(), AllocError>
    ensures { OnOk result (string_bytes out.new ≡ string_bytes out.old ++ text_of
        (flat_map (no_name_at (tracking tracker.now)) (map atom_shape atoms.now))) }
{
    for i in 0..atoms.len() {
        put_no_name(out, tracker, atoms[i])?;
    }
    Ok(())
}

// Appends the warnings of what a tracker asks for.
fn put_asked_warnings(
    alloc: Global,
    out: &mut String,
    archive: &Archive<'_, '_>,
    tracker: &Tracker<'_>,
    atoms: &[Atom<'_>],
) -> Result<(), AllocError>
    requires { map atom_shape atoms.now ≡ asked_of (tracking tracker.now) }
    ensures { OnOk result (string_bytes out.new ≡ string_bytes out.old
        ++ text_of (asked_warnings archive.now (tracking tracker.now))) }
{
    let fields = fields_in(alloc, atoms)?;
    put_no_fields(out, archive, fields.as_slice())?;
    put_no_names(out, tracker, atoms)
}

/// Appends what a tracker asks of an archive: a line for each of its texts and patterns, and
/// warnings.
pub fn put_tracker_details(
    alloc: Global,
    out: &mut String,
    archive: &Archive<'_, '_>,
    tracker: &Tracker<'_>,
) -> Result<(), AllocError>
    ensures { OnOk result (string_bytes out.new ≡ string_bytes out.old
        ++ text_of (tracker_lines archive.now (tracking tracker.now))) }
{
    let atoms = asked(alloc, tracker)?;
    let counts = count_atoms(alloc, archive, tracker, atoms.as_slice())?;
    put_all_found(out, archive, tracker, atoms.as_slice(), counts.as_slice())?;
    put_asked_warnings(alloc, out, archive, tracker, atoms.as_slice())
}
