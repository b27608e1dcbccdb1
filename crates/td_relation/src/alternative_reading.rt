//! How an alternative is read: its name, its version and its lists.
ghost use Rattle.std.specs.Prelude.{◌≡◌, Bool, List, ℕ, option_map, true};
ghost use Rattle.std.specs.List.{list_all};
ghost use Rattle.td_text.specs.Words.{is_name as is_name_of, is_name_byte};
ghost use Rattle.td_version.specs.Reading.{parts_read, reading};
ghost use Rattle.td_relation.specs.RelationGrammar.{
  alternative_at,
  archs_at,
  bracketed,
  ends_a_name as ends_a_name_of,
  ends_a_restriction as ends_a_restriction_of,
  name_at,
  operator_at,
  restriction_at,
  unqualified as unqualified_of,
  version_at,
};
ghost use Rattle.td_relation.specs.RelationViews.{alternative_read, archs_read, restriction_read};
ghost use Rattle.td_relation.specs.RelationViews.{texts};
ghost use Rattle.std.specs.Prelude.{Some};

use crate::arch_list::is_arch_list;
use crate::profile_reading::read_unprofiled;
use crate::relation::{Alternative, Operator, Restriction};
use crate::relation_fault::RelationFault;
use crate::runs::{operator_run, version_run};
use td_text::{arch_run, cut_at, name_run, strip, trimmed};
use td_version::{Version, VersionFault};

fn ends_a_name(text: &str) -> bool
    ensures { result ≡ ends_a_name_of text.now }
{
    let bytes = text.as_bytes();
    bytes.is_empty() || bytes[0] == b'(' || bytes[0] == b'[' || bytes[0] == b'<'
}

fn ends_a_restriction(text: &str) -> bool
    ensures { result ≡ ends_a_restriction_of text.now }
{
    let bytes = text.as_bytes();
    bytes.is_empty() || bytes[0] == b'[' || bytes[0] == b'<'
}

/// What follows a qualifier as `:any`.
#[tactic(auto, unfolding(crate::specs::RelationGrammar::unqualified))]
fn unqualified(text: &str) -> Option<&str>
    ensures { option_map (λ x. x.now) result ≡ unqualified_of text.now }
{
    match strip(text, ":") {
        None => Some(text),
        Some(word) => {
            let (run, rest) = arch_run(word);
            if run.is_empty() { None } else { Some(rest) }
        }
    }
}

// Whether bytes that a name may have are a name.
fn are_name(run: &str) -> bool
    requires { list_all is_name_byte run.now ≡ true }
    ensures { result ≡ is_name_of run.now }
{
    let bytes = run.as_bytes();
    bytes.len() > 1 && matches!(bytes[0], b'a'..=b'z' | b'0'..=b'9')
}

/// The name, and what follows it and its qualifier.
#[tactic(auto, unfolding(crate::specs::RelationGrammar::name_at))]
fn read_name(text: &str) -> Option<(&str, &str)>
    ensures { option_map texts result ≡ name_at text.now }
{
    let (name, rest) = name_run(trimmed(text));
    let rest = trimmed(unqualified(rest)?);
    if are_name(name) && ends_a_name(rest) {
        Some((name, rest))
    } else {
        None
    }
}

#[tactic(auto, unfolding(crate::specs::RelationGrammar::operator_at))]
fn read_operator(text: &str) -> Option<Operator>
    ensures { result ≡ operator_at text.now }
{
    match text {
        "<<" => Some(Operator::Earlier),
        "<=" => Some(Operator::EarlierOrEqual),
        "=" => Some(Operator::Equal),
        ">=" => Some(Operator::LaterOrEqual),
        ">>" => Some(Operator::Later),
        _ => None,
    }
}

fn read_parts(text: &str) -> Result<Version<'_>, VersionFault>
    ensures { parts_read result ≡ reading text.now }
{
    Version::read(text)
}

/// The version after an operator, its `)`, and what follows.
fn read_version(
    operator: Operator,
    text: &str,
) -> Result<(Option<Restriction<'_>>, &str), RelationFault>
    ensures { restriction_read result ≡ version_at (Some operator) text.now }
{
    let (version, rest) = version_run(trimmed(text));
    let Ok(version) = read_parts(version) else {
        return Err(RelationFault::BadVersion);
    };
    let Some(rest) = strip(trimmed(rest), ")") else {
        return Err(RelationFault::BadVersion);
    };
    let rest = trimmed(rest);
    if ends_a_restriction(rest) {
        Ok((Some(Restriction { operator, version }), rest))
    } else {
        Err(RelationFault::BadArchList)
    }
}

/// The restriction, if there is one, and what follows it.
#[tactic(auto, unfolding(crate::specs::RelationGrammar::restriction_at))]
fn read_restriction(text: &str) -> Result<(Option<Restriction<'_>>, &str), RelationFault>
    ensures { restriction_read result ≡ restriction_at text.now }
{
    match strip(text, "(") {
        None => Ok((None, text)),
        Some(inside) => {
            let (operator, rest) = operator_run(trimmed(inside));
            match read_operator(operator) {
                None => Err(RelationFault::BadOperator),
                Some(operator) => read_version(operator, rest),
            }
        }
    }
}

/// The architecture list after a `[`, and what follows it.
fn read_list(inside: &str) -> Option<(Option<&str>, &str)>
    ensures { option_map archs_read result ≡ bracketed inside.now (Some inside.now) }
{
    let (list, rest) = cut_at(inside, ']')?;
    if is_arch_list(list) {
        Some((Some(list), trimmed(rest)))
    } else {
        None
    }
}

/// The architecture list, if there is one, and what follows it.
#[tactic(auto, unfolding(crate::specs::RelationGrammar::archs_at))]
fn read_archs(text: &str) -> Option<(Option<&str>, &str)>
    ensures { option_map archs_read result ≡ archs_at text.now }
{
    match strip(text, "[") {
        None => Some((None, text)),
        Some(inside) => read_list(inside),
    }
}

/// The alternative that a text is.
#[tactic(auto, unfolding(crate::specs::RelationGrammar::alternative_at))]
pub fn read_alternative(text: &str) -> Result<Alternative<'_>, RelationFault>
    ensures { alternative_read result ≡ alternative_at text.now }
{
    let Some((name, rest)) = read_name(text) else {
        return Err(RelationFault::BadName);
    };
    let (restriction, rest) = match read_restriction(rest) {
        Ok(read) => read,
        Err(fault) => return Err(fault),
    };
    let Some((archs, rest)) = read_archs(rest) else {
        return Err(RelationFault::BadArchList);
    };
    let unprofiled = match read_unprofiled(rest) {
        Ok(unprofiled) => unprofiled,
        Err(fault) => return Err(fault),
    };
    Ok(Alternative {
        name,
        restriction,
        archs,
        unprofiled,
    })
}
