//! A control file is read, field by field.
ghost use Rattle.std.specs.Prelude.{◌≡◌, ◌<◌, ◌≤◌, ◌+◌, ◌-◌, ℕ, List, true, false, ◌∷◌, ◌++◌, []};
ghost use Rattle.std.specs.Prelude.{IfOk, IfErr, OnOk, map, length, take, ◌==◌, if◌then◌else◌};
ghost use Rattle.td_text.specs.Lines.{lines_of, left_text};
ghost use Rattle.td_stanza.specs.Line.{is_separator as is_separator_of, is_continuation};
ghost use Rattle.td_stanza.specs.Field.{Entry};
ghost use Rattle.td_stanza.specs.StanzaGrammar.{AreStanzas, names_of};
ghost use Rattle.td_stanza.specs.StanzaFaults.{IsFaultAt, HasFault, IsFaultOf, GivesStanzas};
ghost use Rattle.td_stanza.specs.StanzaFaults.{GivesFault, IsNewName};
ghost use Rattle.td_stanza.specs.declared.fault.StanzaFault.{StanzaFault};
ghost use Rattle.td_stanza.specs.Table.{shown, newlines};
ghost use Rattle.td_stanza.specs.Continuing.{Skips, IsEnded, IsTaken};
ghost use Rattle.td_stanza.specs.inner.NotedNames.{AreNoted};

use crate::entry::Field;
use crate::fault::StanzaFault;
use crate::kind::{begins_blank, continues, is_separator};
use crate::name::front_name;
use crate::names::Names;
use crate::table::StanzaList;
use crate::value::trim;
use std::alloc::{AllocError, Global};
use td_text::next_line;

/// What is left after the lines that continue a field.
fn skip_continuations(after: Option<&str>) -> Option<&str>
    ensures skips { Skips after.entry result }
    ensures ended { IsEnded result }
{
    let mut rest = after;
    while let Some(here) = rest {
        if !continues(here) {
            return rest;
        }
        rest = next_line(here).1;
    }
    None
}

/// The text up to what is left, less the newline between them.
fn text_before<'a>(text: &'a str, rest: Option<&str>) -> &'a str
    requires { (front : List ℕ) × (text.now ≡ front ++ left_text rest) }
    ensures { text.now ≡ result.now ++ left_text rest.entry }
{
    match rest {
        None => text,
        Some(rest) => text.split_at(text.len() - rest.len() - 1).0,
    }
}

/// The field whose first line begins the text, and what is left after it.
fn take_field<'a>(
    here: &'a str,
    name: &'a str,
    after: Option<&'a str>,
) -> (Field<'a>, Option<&'a str>)
    requires { (first : List ℕ) × (here.now ≡ (name.now ++ 58 ∷ first) ++ left_text after) }
    ensures taken { (first : List ℕ) → here.now ≡ (name.now ++ 58 ∷ first) ++ left_text after.entry
        →
        IsTaken name.now first after.entry result.0 result.1 }
    ensures ended { IsEnded result.1 }
{
    let rest = skip_continuations(after);
    let tail = here.split_at(name.len() + 1).1;
    let value = trim(text_before(tail, rest));
    (Field { name, value }, rest)
}

/// The number of the line that begins where `here`, the text's end, does.
fn line_number(text: &str, here: &str) -> usize
    requires some { 0 < length here.now }
    requires within { length here.now ≤ length text.now }
    ensures { result ≡ newlines (take (length text.now - length here.now) text.now) + 1 }
{
    let before = text.as_bytes().split_at(text.len() - here.len()).0;
    before.iter().filter(|b| **b == b'\n').count() + 1
}

/// The name on a field's first line, after the stanza's other fields.
fn name_at<'a>(
    text: &str,
    here: &str,
    line: &'a str,
    fields: &[Field<'_>],
    names: &Names<'_>,
) -> Result<&'a str, StanzaFault>
    requires some { 0 < length here.now }
    requires within { length here.now ≤ length text.now }
    requires filled { is_separator_of line.now ≡ false }
    requires alone { is_continuation line.now ≡ true → map shown fields.now ≡ [] }
    requires noted { AreNoted names.now fields.now }
    ensures ok { IfOk result (λ name.
        IsNewName (names_of (map shown fields.now)) line.now name.now) }
    ensures err { IfErr result (λ fault.
        IsFaultAt fault (newlines (take (length text.now - length here.now) text.now) + 1)
        (map shown fields.now) line.now) }
{
    if begins_blank(line) {
        return Err(StanzaFault::ContinuationFirst(line_number(text, here)));
    }
    let (name, rest, is_name) = front_name(line);
    if !is_name {
        return Err(StanzaFault::BadName(line_number(text, here)));
    }
    if rest.is_empty() {
        return Err(StanzaFault::NoColon(line_number(text, here)));
    }
    if names.has(fields, name) {
        return Err(StanzaFault::Duplicate(line_number(text, here)));
    }
    Ok(name)
}

/// Adds a field to the stanza whose first field has a place.
fn add<'a>(
    fields: &mut Vec<Field<'a>>,
    starts: &mut Vec<usize>,
    first: usize,
    field: Field<'a>,
) -> Result<(), AllocError>
    ensures fields { OnOk result (fields.new.items ≡ fields.old.items ++ field.entry ∷ []) }
    ensures starts { OnOk result (starts.new.items ≡
        (if first == length fields.old.items then starts.old.items ++ first ∷ []
        else starts.old.items)) }
{
    if first == fields.len() {
        starts.push(first)?;
    }
    fields.push(field)?;
    Ok(())
}

/// How many bytes of a text there are for each field, and for each stanza, that there is room for
/// from the first. The indices of real archives have more, so that their lists don't grow.
const FIELD_BYTES: usize = 40;

const STANZA_BYTES: usize = 512;

/// The lists of a text's fields and of its stanzas' starts, with nothing in them yet.
fn empty_lists<'a>(alloc: Global, text: &str) -> Result<(Vec<Field<'a>>, Vec<usize>), AllocError>
    ensures fields { IfOk result (λ lists. lists.0.items ≡ []) }
    ensures starts { IfOk result (λ lists. lists.1.items ≡ []) }
{
    let fields = Vec::with_capacity(alloc, text.len() / FIELD_BYTES)?;
    let starts = Vec::with_capacity(alloc, text.len() / STANZA_BYTES)?;
    Ok((fields, starts))
}

fn read<'a>(alloc: Global, text: &'a str) -> Result<StanzaList<'a>, StanzaFault>
    ensures found { IfOk result (λ found. AreStanzas found (lines_of text.now)) }
    ensures fault { IfErr result (IsFaultOf (lines_of text.now)) }
{
    let Ok((mut fields, mut starts)) = empty_lists(alloc, text) else {
        return Err(StanzaFault::NoMemory);
    };
    let mut first = 0;
    let mut names = Names::new(alloc);
    let mut rest = Some(text);
    while let Some(here) = rest {
        let (line, after) = next_line(here);
        if is_separator(line) {
            first = fields.len();
            names = Names::new(alloc);
            rest = after;
        } else {
            let current = fields.as_slice().split_at(first).1;
            let name = name_at(text, here, line, current, &names)?;
            names
                .note(current, name)
                .map_err(|_| StanzaFault::NoMemory)?;
            let (field, after) = take_field(here, name, after);
            add(&mut fields, &mut starts, first, field).map_err(|_| StanzaFault::NoMemory)?;
            rest = after;
        }
    }
    Ok(StanzaList { fields, starts })
}

/// The stanzas of a control file. Memory is taken for the list of fields and the list of starts,
/// and, while a stanza of more than 32 fields is read, for the names of its further fields.
pub fn stanzas<'a>(alloc: Global, text: &'a str) -> Result<StanzaList<'a>, StanzaFault>
    // What is read are stanzas of the grammar, and what isn't has the fault.
    ensures found { IfOk result (λ found. AreStanzas found (lines_of text.now)) }
    ensures fault { IfErr result (IsFaultOf (lines_of text.now)) }
    // What are stanzas of the grammar is read, and what has a fault is refused, for that one.
    ensures only { (stanzas : List (List Entry)) →
        AreStanzas stanzas (lines_of text.now) → GivesStanzas result stanzas }
    ensures first { (fault : StanzaFault) →
        HasFault fault (lines_of text.now) → GivesFault result fault }
{
    read(alloc, text)
}
