//! The architectures of a command line.
ghost use Rattle.std.specs.Prelude.{◌≡◌, ◌||◌, not, option_map};
ghost use Rattle.std.specs.List.{find};
ghost use Rattle.td_relation.specs.TableView.{table};
ghost use Rattle.td_wbread.specs.Archs.{
  archs_at,
  archs_checked,
  chosen_with as chosen_with_of,
  is_all as is_all_of,
  is_arch_word as is_arch_word_of,
  is_choice as is_choice_of,
  is_chosen as is_chosen_of,
  is_known as is_known_of,
  is_removal as is_removal_of,
};
ghost use Rattle.td_wbread.specs.Faults.{all_pass};
ghost use Rattle.td_wbread.specs.Views.{archs_read};

use crate::fault::{CommandFault, LineFault};
use crate::package_reading::{check_filled, split_at_dot};
use crate::word::{End, Word};
use td_relation::Archs;
use td_text::strip;

fn is_all(text: &str) -> bool
    ensures { result ≡ is_all_of text.now }
{
    text == "ANY" || text == "ALL"
}

fn is_known(archs: &Archs<'_>, name: &str) -> bool
    ensures { result ≡ is_known_of (table archs.now) name.now }
{
    archs.index(name).is_some()
}

fn is_choice(archs: &Archs<'_>, text: &str) -> bool
    ensures { result ≡ is_choice_of (table archs.now) text.now }
{
    is_all(text) || is_known(archs, text)
}

fn is_removal(archs: &Archs<'_>, text: &str) -> bool
    ensures { result ≡ is_removal_of (table archs.now) text.now }
{
    match strip(text, "-") {
        None => false,
        Some(name) => is_known(archs, name),
    }
}

fn is_arch_word(archs: &Archs<'_>, text: &str) -> bool
    ensures { result ≡ is_arch_word_of (table archs.now) text.now }
{
    is_choice(archs, text) || is_removal(archs, text)
}

fn first_other<'w>(archs: &Archs<'_>, words: &'w [Word]) -> Option<&'w Word>
    ensures { option_map (λ x. x.now) result
        ≡ find (λ w. not (is_arch_word_of (table archs.now) w.text)) words.now }
{
    words.iter().find(|w| !is_arch_word(archs, w.text.as_str()))
}

fn check_others(archs: &Archs<'_>, words: &[Word]) -> Result<(), CommandFault>
    ensures { result ≡ all_pass
        (is_arch_word_of (table archs.now)) LineFault.UnknownArch words.now }
{
    match first_other(archs, words) {
        None => Ok(()),
        Some(word) => Err(word.wrong(LineFault::UnknownArch)),
    }
}

/// The first word chooses, each further one chooses or takes away.
fn check_archs(archs: &Archs<'_>, words: &[Word]) -> Result<(), CommandFault>
    ensures { result ≡ archs_checked (table archs.now) words.now }
{
    match words.split_first() {
        None => Ok(()),
        Some((word, others)) => {
            if is_choice(archs, word.text.as_str()) {
                check_others(archs, others)
            } else {
                Err(word.wrong(LineFault::UnknownArch))
            }
        }
    }
}

/// The words that name architectures, up to a dot or the end, and those after the dot, if it is
/// there.
pub fn read_archs<'w>(
    archs: &Archs<'_>,
    end: End,
    words: &'w [Word],
) -> Result<(&'w [Word], Option<&'w [Word]>), CommandFault>
    ensures { archs_read result ≡ archs_at (table archs.now) end words.now }
{
    check_filled(end, words, LineFault::NoArch)?;
    let (chosen, behind) = split_at_dot(words);
    check_archs(archs, chosen)?;
    Ok((chosen, behind))
}

/// Whether a name is chosen with this word more.
fn chosen_with(name: &str, chosen: bool, text: &str) -> bool
    ensures { result ≡ chosen_with_of name.now chosen text.now }
{
    if is_all(text) || text == name {
        return true;
    }
    match strip(text, "-") {
        Some(removed) if removed == name => false,
        _ => chosen,
    }
}

/// Whether words choose a name: from left to right, the last that speaks of it decides.
pub fn is_chosen(words: &[Word], name: &str) -> bool
    ensures { result ≡ is_chosen_of words.now name.now }
{
    words.iter().fold(
        false,
        |chosen, w| chosen_with(name, chosen, w.text.as_str()),
    )
}
