//! The packages of a command line, and the dot after them.
ghost use Rattle.std.specs.Prelude.{◌≡◌, ◌<◌, IfSome, length, not, option_map, position};
ghost use Rattle.std.specs.List.{find};
ghost use Rattle.td_version.specs.Reading.{parts_read, reading};
ghost use Rattle.td_wbread.specs.Faults.{all_pass, before_dot, behind_dot, filled, is_dot};
ghost use Rattle.td_wbread.specs.Packages.{is_package as is_package_of};
ghost use Rattle.td_wbread.specs.Packages.{is_version as is_version_of, package_at, packages_at};
ghost use Rattle.td_wbread.specs.Views.{package_text, packages_read};

use crate::fault::{CommandFault, LineFault};
use crate::word::{End, Word};
use td_text::{cut_at, is_name};
use td_version::{Version, VersionFault};

fn dot_place(words: &[Word]) -> Option<usize>
    ensures place { result ≡ position is_dot words.now }
    ensures within { IfSome result (λ i. i < length words.now) }
{
    words.iter().position(|w| w.is_dot())
}

/// The words before the first dot, and those after it, if there is one.
pub fn split_at_dot(words: &[Word]) -> (&[Word], Option<&[Word]>)
    ensures before { result.0.now ≡ before_dot words.now }
    ensures behind { option_map (λ x. x.now) result.1 ≡ behind_dot words.now }
{
    match dot_place(words) {
        Some(dot) => (&words[..dot], Some(&words[dot + 1..])),
        None => (words, None),
    }
}

/// Refuses words of which none stands before a dot.
pub fn check_filled(end: End, words: &[Word], what: LineFault) -> Result<(), CommandFault>
    ensures { result ≡ filled end what words.now }
{
    match words.split_first() {
        None => Err(end.missing(what)),
        Some((word, _)) if word.is_dot() => Err(word.wrong(what)),
        Some(_) => Ok(()),
    }
}

/// The version of a package word, as `Version::read` has it: what was read of a word is one.
pub fn read_version(text: &str) -> Result<Version<'_>, VersionFault>
    ensures { parts_read result ≡ reading text.now }
{
    Version::read(text)
}

fn is_version(text: &str) -> bool
    ensures { result ≡ is_version_of text.now }
{
    match read_version(text) {
        Ok(_) => true,
        Err(_) => false,
    }
}

/// The source and the version of `name` or `name_version`.
#[tactic(auto, unfolding(crate::specs::Packages::package_at))]
pub fn read_package(text: &str) -> Option<(&str, Option<&str>)>
    ensures { option_map package_text result ≡ package_at text.now }
{
    match cut_at(text, '_') {
        None => {
            if is_name(text) {
                Some((text, None))
            } else {
                None
            }
        }
        Some((source, version)) => {
            if is_name(source) && is_version(version) {
                Some((source, Some(version)))
            } else {
                None
            }
        }
    }
}

fn is_package(text: &str) -> bool
    ensures { result ≡ is_package_of text.now }
{
    read_package(text).is_some()
}

fn first_other(words: &[Word]) -> Option<&Word>
    ensures { option_map (λ x. x.now) result ≡ find (λ w. not (is_package_of w.text)) words.now }
{
    words.iter().find(|w| !is_package(w.text.as_str()))
}

fn check_packages(words: &[Word]) -> Result<(), CommandFault>
    ensures { result ≡ all_pass is_package_of LineFault.BadPackage words.now }
{
    match first_other(words) {
        None => Ok(()),
        Some(word) => Err(word.wrong(LineFault::BadPackage)),
    }
}

/// The words that name packages, up to the dot, and those after it.
pub fn read_packages(end: End, words: &[Word]) -> Result<(&[Word], &[Word]), CommandFault>
    ensures { packages_read result ≡ packages_at end words.now }
{
    check_filled(end, words, LineFault::NoPackage)?;
    let (packages, behind) = split_at_dot(words);
    check_packages(packages)?;
    match behind {
        None => Err(end.missing(LineFault::NoDot)),
        Some(behind) => Ok((packages, behind)),
    }
}
