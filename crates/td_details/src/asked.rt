//! What a tracker asks for: its texts and patterns, each once.
ghost use Rattle.std.specs.Prelude.{◌≡◌, IfOk, OnOk, map};
ghost use Rattle.std.specs.List.{list_any};
ghost use Rattle.std.specs.Str.{bytes_eq};
ghost use Rattle.td_query.specs.Atoms.{atom_shape};
ghost use Rattle.td_query.specs.Query.{Shape};
ghost use Rattle.td_query.specs.Tracking.{tracking};
ghost use Rattle.td_details.specs.Asked.{are_alike as are_alike_of, asked as asked_of, field_of};
ghost use Rattle.td_details.specs.Asked.{fields_in as fields_in_of, has_mark as has_mark_of};
ghost use Rattle.td_details.specs.Asked.{is_mark as is_mark_of, said_by, with_new};
ghost use Rattle.td_details.specs.Asked.{word_of};

use std::alloc::{AllocError, Global};
use td_query::{Atom, Tracker, pattern_text, tracker_atoms};

/// What a text or a pattern is called.
pub fn kind_word(atom: Atom<'_>) -> &'static str
    ensures { result.now ≡ word_of (atom_shape atom.entry) }
{
    match atom {
        Atom::Text(_, _) => "text",
        Atom::Pattern(_, _) => "pattern",
    }
}

/// The field in which a text or a pattern is searched.
pub fn field<'q>(atom: Atom<'q>) -> &'q str
    ensures { result.now ≡ field_of (atom_shape atom.entry) }
{
    match atom {
        Atom::Text(field, _) => field,
        Atom::Pattern(field, _) => field,
    }
}

/// What a text or a pattern of a tracker says.
pub fn said<'q>(tracker: &'q Tracker<'_>, atom: Atom<'q>) -> &'q str
    ensures { result.now ≡ said_by (tracking tracker.now) (atom_shape atom.entry) }
{
    match atom {
        Atom::Text(_, text) => text,
        Atom::Pattern(_, number) => match pattern_text(tracker, number) {
            Some(text) => text,
            None => "",
        },
    }
}

// Whether two of a tracker's texts or patterns say the same of one field.
fn are_alike(tracker: &Tracker<'_>, atom: Atom<'_>, other: Atom<'_>) -> bool
    ensures { result ≡ are_alike_of (tracking tracker.now)
        (atom_shape atom.entry) (atom_shape other.entry) }
{
    kind_word(atom) == kind_word(other)
        && field(atom) == field(other)
        && said(tracker, atom) == said(tracker, other)
}

// Whether one of these is like the text or pattern.
fn has_alike(tracker: &Tracker<'_>, atom: Atom<'_>, atoms: &[Atom<'_>]) -> bool
    ensures { result ≡ list_any
        (are_alike_of (tracking tracker.now) (atom_shape atom.entry)) (map atom_shape atoms.now) }
{
    for other in atoms {
        if are_alike(tracker, atom, *other) {
            return true;
        }
    }
    false
}

// Appends the text or pattern, if none is like it.
fn push_new<'q>(
    tracker: &Tracker<'_>,
    atom: Atom<'q>,
    atoms: &mut Vec<Atom<'q>>,
) -> Result<(), AllocError>
    ensures { OnOk result (map atom_shape atoms.new.items
        ≡ with_new (are_alike_of (tracking tracker.now)) (map atom_shape atoms.old.items)
        (atom_shape atom.entry)) }
{
    if has_alike(tracker, atom, atoms.as_slice()) {
        return Ok(());
    }
    Ok(atoms.push(atom)?)
}

/// The texts and patterns of a tracker, each once.
pub fn asked<'q>(alloc: Global, tracker: &'q Tracker<'_>) -> Result<Vec<Atom<'q>>, AllocError>
    ensures { IfOk result
        (λ atoms. map atom_shape atoms.items ≡ asked_of (tracking tracker.now)) }
{
    let all = tracker_atoms(alloc, tracker)?;
    let mut atoms = Vec::new(alloc);
    for atom in all.as_slice() {
        push_new(tracker, *atom, &mut atoms)?;
    }
    Ok(atoms)
}

// Whether one of these fields has this name.
fn has_field(name: &str, fields: &[&str]) -> bool
    ensures { result ≡ list_any (bytes_eq name.now) (map (λ f. f.now) fields.now) }
{
    for other in fields {
        if name == *other {
            return true;
        }
    }
    false
}

// Appends a field, if none has its name.
fn push_field<'q>(name: &'q str, fields: &mut Vec<&'q str>) -> Result<(), AllocError>
    ensures { OnOk result (map (λ f. f.now) fields.new.items
        ≡ with_new bytes_eq (map (λ f. f.now) fields.old.items) name.now) }
{
    if has_field(name, fields.as_slice()) {
        return Ok(());
    }
    Ok(fields.push(name)?)
}

/// The fields of texts and patterns, each once.
pub fn fields_in<'q>(alloc: Global, atoms: &[Atom<'q>]) -> Result<Vec<&'q str>, AllocError>
    ensures { IfOk result
        (λ fields. map (λ f. f.now) fields.items ≡ fields_in_of (map atom_shape atoms.now)) }
{
    let mut fields = Vec::new(alloc);
    for atom in atoms {
        push_field(field(*atom), &mut fields)?;
    }
    Ok(fields)
}

// Whether a byte is one of `|`, `^`, `$` and `*`.
fn is_mark(byte: u8) -> bool
    ensures { result ≡ is_mark_of byte }
{
    byte == b'|' || byte == b'^' || byte == b'$' || byte == b'*'
}

// Whether a text has such a byte.
fn text_has_mark(text: &str) -> bool
    ensures { result ≡ list_any is_mark_of text.now }
{
    for byte in text.as_bytes() {
        if is_mark(*byte) {
            return true;
        }
    }
    false
}

/// Whether this is a text that has such a byte.
pub fn has_mark(atom: Atom<'_>) -> bool
    ensures { result ≡ has_mark_of (atom_shape atom.entry) }
{
    match atom {
        Atom::Text(_, text) => text_has_mark(text),
        Atom::Pattern(_, _) => false,
    }
}
