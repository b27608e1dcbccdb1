//! A command from the words that are read.
ghost use Rattle.std.specs.Prelude.{◌≡◌, IfOk, map, option_map, string_bytes};
ghost use Rattle.td_relation.specs.TableView.{table};
ghost use Rattle.td_wbread.specs.Archs.{chosen_names};
ghost use Rattle.td_wbread.specs.Command.{command_of, text_or_empty};
ghost use Rattle.td_wbread.specs.Packages.{packages_of};
ghost use Rattle.td_wbread.specs.Views.{package_of, package_text, parts_of, spoken_of};

use crate::arch_reading::is_chosen;
use crate::command::{Command, Package, Verb};
use crate::option_reading::Options;
use crate::package_reading::read_package;
use crate::places::find_places;
use crate::word::Word;
use std::alloc::{AllocError, Global};
use td_relation::Archs;
use td_rows::Line;

/// The words of a command by what they are.
#[derive(Clone, Copy)]
pub struct SpokenWords<'w> {
    pub verb: Verb,
    pub packages: &'w [Word],
    pub chosen: &'w [Word],
    pub options: Options<'w>,
}

fn copy_version(alloc: Global, version: Option<&str>) -> Result<Option<String>, AllocError>
    ensures { IfOk result (λ v. option_map string_bytes v ≡ option_map (λ x. x.now) version.entry) }
{
    match version {
        None => Ok(None),
        Some(version) => Ok(Some(String::from_str(alloc, version)?)),
    }
}

fn make_package(alloc: Global, parts: (&str, Option<&str>)) -> Result<Package, AllocError>
    ensures { IfOk result (λ p. package_of p ≡ package_text parts.entry) }
{
    let source = String::from_str(alloc, parts.0)?;
    let version = copy_version(alloc, parts.1)?;
    Ok(Package { source, version })
}

/// The packages that words name.
fn make_packages(alloc: Global, words: &[Word]) -> Result<Vec<Package>, AllocError>
    ensures { IfOk result (λ v. map package_of v.items ≡ packages_of words.now) }
{
    let mut packages = Vec::new(alloc);
    for word in words {
        if let Some(parts) = read_package(word.text.as_str()) {
            packages.push(make_package(alloc, parts)?)?;
        }
    }
    Ok(packages)
}

/// The names that words choose, in the order of the table.
fn make_names<'a>(
    alloc: Global,
    archs: &Archs<'a>,
    words: &[Word],
) -> Result<Vec<&'a str>, AllocError>
    ensures { IfOk result
        (λ v. map (λ a. a.now) v.items ≡ chosen_names (table archs.now) words.now) }
{
    let mut names = Vec::new(alloc);
    for arch in 0..archs.len() {
        let name = archs.name(arch);
        if is_chosen(words, name) {
            names.push(name)?;
        }
    }
    Ok(names)
}

/// A copy of the text of a word, or an empty one.
fn copy_text(alloc: Global, word: Option<&Word>) -> Result<Line, AllocError>
    ensures { IfOk result (λ line. line ≡ text_or_empty (option_map (λ x. x.now) word.entry)) }
{
    match word {
        None => Ok(Line::empty(alloc)),
        Some(word) => word.text.copy(),
    }
}

/// The command by the words that are its parts.
pub fn make_command<'a>(
    alloc: Global,
    archs: &Archs<'a>,
    words: SpokenWords<'_>,
) -> Result<Command<'a>, AllocError>
    ensures { IfOk result (λ c. parts_of c ≡ command_of (table archs.now) (spoken_of words.entry)) }
{
    let packages = make_packages(alloc, words.packages)?;
    let places = find_places(alloc, packages.as_slice())?;
    Ok(Command {
        verb: words.verb,
        packages,
        places,
        archs: make_names(alloc, archs, words.chosen)?,
        message: copy_text(alloc, words.options.message)?,
        extra: copy_text(alloc, words.options.extra)?,
    })
}
