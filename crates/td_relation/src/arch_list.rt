//! Whether a list of words is an architecture list or a profile list, and whether it counts.
ghost use Rattle.std.specs.Prelude.{◌≡◌, ◌==◌, not, length, ◌&&◌, ◌||◌};
ghost use Rattle.std.specs.List.{list_any, list_all, slice_split};
ghost use Rattle.td_relation.specs.Arch.{words_of, matches as matches_of};
ghost use Rattle.td_text.specs.Runs.{is_space as is_space_of};
ghost use Rattle.td_relation.specs.ArchList.{bare as bare_of, counts as counts_of};
ghost use Rattle.td_relation.specs.ArchList.{is_negated as is_negated_of, words};
ghost use Rattle.td_text.specs.Words.{is_arch as is_arch_of, is_arch_byte as is_arch_byte_of};
ghost use Rattle.td_relation.specs.RelationGrammar.{is_arch_list as is_arch_list_of};
ghost use Rattle.td_relation.specs.RelationGrammar.{is_negated_word, is_profile as is_profile_of};
ghost use Rattle.td_relation.specs.RelationGrammar.{is_profile_list as is_profile_list_of};

use crate::arch::Arch;
use td_text::{are_arch_bytes, is_space};

/// A word without the `!` at its beginning.
fn bare(word: &[u8]) -> &[u8]
    ensures { result.now ≡ bare_of word.now }
{
    match word {
        [b'!', rest @ ..] => rest,
        _ => word,
    }
}

fn is_negated(word: &[u8]) -> bool
    ensures { result ≡ is_negated_of word.now }
{
    !word.is_empty() && word[0] == b'!'
}

fn has_negated(list: &str) -> bool
    ensures { result ≡ list_any (λ w. not (length w == 0) && is_negated_of w)
        (slice_split is_space_of list.now) }
{
    list.as_bytes()
        .split(|b| is_space(*b))
        .any(|w| !w.is_empty() && is_negated(w))
}

fn has_match(arch: &Arch<'_>, list: &str) -> bool
    ensures { result ≡ list_any (λ w. not (length w == 0)
        && matches_of (words_of arch.now) (bare_of w)) (slice_split is_space_of list.now) }
{
    list.as_bytes()
        .split(|b| is_space(*b))
        .any(|w| !w.is_empty() && arch.matches(bare(w)))
}

fn is_arch(word: &[u8]) -> bool
    ensures { result ≡ is_arch_of word.now }
{
    !word.is_empty() && are_arch_bytes(word)
}

fn is_profile_byte(byte: u8) -> bool
    ensures { result ≡ not ((byte == 60) || (byte == 33)) }
{
    !(byte == b'<' || byte == b'!')
}

fn are_profile_bytes(word: &[u8]) -> bool
    ensures { result ≡ list_all (λ b. not ((b == 60) || (b == 33))) word.now }
{
    word.iter().all(|b| is_profile_byte(*b))
}

fn is_profile(word: &[u8]) -> bool
    ensures { result ≡ is_profile_of word.now }
{
    !word.is_empty() && are_profile_bytes(word)
}

fn has_words(list: &str) -> bool
    ensures { result ≡ list_any (λ w. not (length w == 0)) (slice_split is_space_of list.now) }
{
    list.as_bytes()
        .split(|b| is_space(*b))
        .any(|w| !w.is_empty())
}

fn are_plain(list: &str) -> bool
    ensures { result ≡ list_all (λ w. (length w == 0) || is_arch_of w)
        (slice_split is_space_of list.now) }
{
    list.as_bytes()
        .split(|b| is_space(*b))
        .all(|w| w.is_empty() || is_arch(w))
}

fn are_negated(list: &str) -> bool
    ensures { result ≡ list_all (λ w. (length w == 0) || is_negated_word is_arch_of w)
        (slice_split is_space_of list.now) }
{
    list.as_bytes()
        .split(|b| is_space(*b))
        .all(|w| w.is_empty() || (is_negated(w) && is_arch(bare(w))))
}

fn are_profiles(list: &str) -> bool
    ensures { result ≡ list_all (λ w. (length w == 0) || is_profile_of (bare_of w))
        (slice_split is_space_of list.now) }
{
    list.as_bytes()
        .split(|b| is_space(*b))
        .all(|w| w.is_empty() || is_profile(bare(w)))
}

/// Whether the words are those of an architecture list: one or more, all with a `!` or none.
pub fn is_arch_list(list: &str) -> bool
    ensures { result ≡ is_arch_list_of (words list.now) }
{
    let filled = has_words(list);
    let plain = are_plain(list);
    let negated = are_negated(list);
    filled && (plain || negated)
}

/// Whether the words are those of a build profile list: one or more, each with a `!` or without.
pub fn is_profile_list(list: &str) -> bool
    ensures { result ≡ is_profile_list_of (words list.now) }
{
    let filled = has_words(list);
    let profiles = are_profiles(list);
    filled && profiles
}

/// Whether each word has a `!`.
pub fn is_unprofiled(list: &str) -> bool
    ensures { result ≡ list_all is_negated_of (words list.now) }
{
    all_negated(list)
}

fn all_negated(list: &str) -> bool
    ensures { result ≡ list_all (λ w. (length w == 0) || is_negated_of w)
        (slice_split is_space_of list.now) }
{
    list.as_bytes()
        .split(|b| is_space(*b))
        .all(|w| w.is_empty() || is_negated(w))
}

/// Whether an architecture list counts on an architecture: some word matches, or, where the words
/// have a `!`, none does.
pub fn counts(arch: &Arch<'_>, list: &str) -> bool
    ensures { result ≡ counts_of (words_of arch.now) (words list.now) }
{
    let negated = has_negated(list);
    let matched = has_match(arch, list);
    if negated { !matched } else { matched }
}
