//! The command lines of a plan.
ghost use Rattle.std.specs.Prelude.{◌≡◌, ◌++◌, ◌∷◌, ◌<◌, [], OnOk, codes, decimal, length, map};
ghost use Rattle.std.specs.Prelude.{string_bytes};
ghost use Rattle.std.specs.List.{All};
ghost use Rattle.td_rows.specs.Appending.{Grown};
ghost use Rattle.td_relation.specs.TableView.{table};
ghost use Rattle.td_plan.specs.Lines.{command_line, named_with, spaced};
ghost use Rattle.td_plan.specs.Message.{between, quoted};
ghost use Rattle.td_plan.specs.Premises.{arch_at};

use crate::numbers::rebuild_number;
use crate::words::Words;
use std::alloc::AllocError;
use td_indices::Source;
use td_relation::Archs;
use td_text::put_number;

// Appends a source as a command names it: with its version, unless that ends in `+bN`, by which a
// command would mean the number of the row.
#[tactic(auto, using(td_rows::proofs::Appends::growing))]
fn put_source_word(out: &mut String, name: &str, version: &str) -> Result<(), AllocError>
    ensures ok { OnOk result
        (string_bytes out.new ≡ string_bytes out.old ++ named_with name.now version.now) }
    ensures front { Grown (string_bytes out.old) (string_bytes out.new) }
{
    out.push_str(name)?;
    if rebuild_number(version) != 0 {
        return Ok(());
    }
    out.push_str("_")?;
    out.push_str(version)
}

// Appends the names of the architectures at some places, with a space between two.
#[tactic(auto, using(td_rows::proofs::Appends::growing))]
fn put_archs(out: &mut String, archs: &Archs<'_>, places: &[usize]) -> Result<(), AllocError>
    requires { All (λ place. place < length (table archs.now)) places.now }
    ensures ok { OnOk result (string_bytes out.new ≡ string_bytes out.old
        ++ spaced (map (arch_at (table archs.now)) places.now)) }
    ensures front { Grown (string_bytes out.old) (string_bytes out.new) }
{
    for number in 0..places.len() {
        if number > 0 {
            out.push_str(" ")?;
        }
        out.push_str(archs.name(places[number]))?;
    }
    Ok(())
}

// Appends a source after a command's verb.
#[tactic(auto, using(td_rows::proofs::Appends::growing))]
fn put_source(out: &mut String, source: &Source<'_>) -> Result<(), AllocError>
    ensures ok { OnOk result (string_bytes out.new ≡ string_bytes out.old ++ 32 ∷ (
        named_with source.now.name.now source.now.version.now ++ codes " . ")) }
    ensures front { Grown (string_bytes out.old) (string_bytes out.new) }
{
    out.push_str(" ")?;
    put_source_word(out, source.name, source.version)?;
    out.push_str(" . ")
}

// Appends what comes after a command's verb, up to the text of its `-m`.
#[tactic(auto, using(td_rows::proofs::Appends::growing))]
fn put_front(
    out: &mut String,
    words: &Words<'_>,
    source: &Source<'_>,
    archs: &Archs<'_>,
    places: &[usize],
) -> Result<(), AllocError>
    requires { All (λ place. place < length (table archs.now)) places.now }
    ensures ok { OnOk result (string_bytes out.new ≡ string_bytes out.old ++ 32 ∷ (
        named_with source.now.name.now source.now.version.now ++ (codes " . "
        ++ (spaced (map (arch_at (table archs.now)) places.now)
        ++ (codes " . " ++ (words.now.suite.now ++ codes " . -m ")))))) }
    ensures front { Grown (string_bytes out.old) (string_bytes out.new) }
{
    put_source(out, source)?;
    put_archs(out, archs, places)?;
    out.push_str(" . ")?;
    out.push_str(words.suite())?;
    out.push_str(" . -m ")?;
    Ok(())
}

// Appends the verb of a rebuild.
#[tactic(auto, using(td_rows::proofs::Appends::growing))]
fn put_number_verb(out: &mut String, number: u16) -> Result<(), AllocError>
    ensures ok { OnOk result (string_bytes out.new ≡ string_bytes out.old
        ++ (codes "nmu " ++ decimal number)) }
    ensures front { Grown (string_bytes out.old) (string_bytes out.new) }
{
    out.push_str("nmu ")?;
    put_number(out, number as u64)
}

// Appends the message between its quotes, and the end of the line.
#[tactic(auto, using(td_rows::proofs::Appends::growing))]
fn put_message(out: &mut String, words: &Words<'_>) -> Result<(), AllocError>
    ensures ok { OnOk result (string_bytes out.new ≡ string_bytes out.old
        ++ (quoted words.now.message.now ++ 10 ∷ [])) }
    ensures front { Grown (string_bytes out.old) (string_bytes out.new) }
{
    words.put_message(out)?;
    out.push_str("\n")
}

/// Appends the line that rebuilds a source under a number.
#[tactic(auto, using(td_rows::proofs::Appends::growing))]
pub fn put_nmu(
    out: &mut String,
    words: &Words<'_>,
    source: &Source<'_>,
    archs: &Archs<'_>,
    places: &[usize],
    number: u16,
) -> Result<(), AllocError>
    requires { All (λ place. place < length (table archs.now)) places.now }
    ensures ok { OnOk result (string_bytes out.new ≡ string_bytes out.old ++ (
        command_line (codes "nmu " ++ decimal number)
        (named_with source.now.name.now source.now.version.now)
        (map (arch_at (table archs.now)) places.now) words.now.suite.now
        (quoted words.now.message.now) ++ 10 ∷ [])) }
    ensures front { Grown (string_bytes out.old) (string_bytes out.new) }
{
    put_number_verb(out, number)?;
    put_front(out, words, source, archs, places)?;
    put_message(out, words)?;
    Ok(())
}

// Appends a relation between its quotes, and the end of the line.
#[tactic(auto, using(td_rows::proofs::Appends::growing))]
fn put_relation(out: &mut String, relation: &str) -> Result<(), AllocError>
    ensures ok { OnOk result (string_bytes out.new ≡ string_bytes out.old
        ++ (between 34 relation.now ++ 10 ∷ [])) }
    ensures front { Grown (string_bytes out.old) (string_bytes out.new) }
{
    out.push_str("\"")?;
    out.push_str(relation)?;
    out.push_str("\"\n")
}

/// Appends the line that tells a source to wait for a relation.
#[tactic(auto, using(td_rows::proofs::Appends::growing))]
pub fn put_dw(
    out: &mut String,
    words: &Words<'_>,
    source: &Source<'_>,
    archs: &Archs<'_>,
    places: &[usize],
    relation: &str,
) -> Result<(), AllocError>
    requires { All (λ place. place < length (table archs.now)) places.now }
    ensures ok { OnOk result (string_bytes out.new ≡ string_bytes out.old ++ (
        command_line (codes "dw") (named_with source.now.name.now source.now.version.now)
        (map (arch_at (table archs.now)) places.now) words.now.suite.now
        (between 34 relation.now) ++ 10 ∷ [])) }
    ensures front { Grown (string_bytes out.old) (string_bytes out.new) }
{
    out.push_str("dw")?;
    put_front(out, words, source, archs, places)?;
    put_relation(out, relation)?;
    Ok(())
}
