//! What is said of a line that is no command.
ghost use Rattle.std.specs.Prelude.{◌≡◌, ◌++◌, ◌∷◌, [], IfOk, OnOk, Ok, Err, codes, string_bytes};
ghost use Rattle.td_relation.specs.TableView.{table};
ghost use Rattle.td_wbread.specs.Command.{command_at};
ghost use Rattle.td_wbread.specs.Views.{parts_of};
ghost use Rattle.td_lines.specs.Faults.{extra_said, fault_said, is_choice as is_choice_of};
ghost use Rattle.td_lines.specs.Faults.{is_option as is_option_of, number_wanted as number_of};
ghost use Rattle.td_lines.specs.Faults.{of_word, package_wanted as package_of, unquoted};
ghost use Rattle.td_lines.specs.Pieces.{is_one_word as is_one_word_of};

use crate::pieces::{before, first_word, is_one_word, word_at};
use std::alloc::{AllocError, Global};
use td_explain::{MAX_SHOWN, put_shown};
use td_relation::Archs;
use td_wbread::{Command, CommandFault, LineFault, read_command};

/// Appends a word, and what is said of it.
pub fn put_word(out: &mut String, word: &str, said: &str) -> Result<(), AllocError>
    ensures { OnOk result (string_bytes out.new
        ≡ string_bytes out.old ++ of_word word.now said.now) }
{
    put_shown(out, word, MAX_SHOWN)?;
    out.push_str(": ")?;
    out.push_str(said)
}

// The number that a verb takes.
fn number_wanted(verb: &str) -> &'static str
    ensures { result.now ≡ number_of verb.now }
{
    if verb == "bp" {
        "bp takes a priority from -9999 to 9999"
    } else {
        "nmu takes a number from 1 to 9999"
    }
}

// Whether a word is one that chooses architectures.
fn is_choice(word: &str) -> bool
    ensures { result ≡ is_choice_of word.now }
{
    word == "ANY" || word == "ALL" || word.as_bytes().starts_with(b"-")
}

// What a word among the packages should be.
fn package_wanted(word: &str) -> &'static str
    ensures { result.now ≡ package_of word.now }
{
    if is_choice(word) {
        "is the dot before it missing?"
    } else {
        "no package, as NAME or NAME_VERSION"
    }
}

// Whether a word is an option's name.
fn is_option(word: &str) -> bool
    ensures { result ≡ is_option_of word.now }
{
    word == "-m" || word == "--extra-depends"
}

// Appends what is said of a word after a message or a relation of one word.
fn put_unquoted(out: &mut String, message: bool, extra: bool, word: &str) -> Result<(), AllocError>
    ensures { OnOk result (string_bytes out.new
        ≡ string_bytes out.old ++ unquoted message extra word.now) }
{
    if message && extra {
        out.push_str("an option takes one word: quote its text")
    } else if message {
        out.push_str("-m takes one word: quote the message")
    } else if extra {
        out.push_str("--extra-depends takes one word: quote the relation")
    } else {
        put_word(out, word, "no word is wanted here")
    }
}

// Appends what is said of a word too many after a command.
fn put_behind(out: &mut String, command: &Command<'_>, word: &str) -> Result<(), AllocError>
    ensures { OnOk result (string_bytes out.new
        ≡ string_bytes out.old ++ extra_said (Ok (parts_of command.now)) word.now) }
{
    if is_option(word) {
        return put_word(out, word, "no word is wanted here");
    }
    let message = is_one_word(command.message.as_str());
    let extra = is_one_word(command.extra.as_str());
    put_unquoted(out, message, extra, word)
}

// Appends what is said of a word too many.
fn put_extra(
    alloc: Global,
    out: &mut String,
    archs: &Archs<'_>,
    suite: &str,
    front: &str,
    word: &str,
) -> Result<(), AllocError>
    ensures { OnOk result (string_bytes out.new ≡ string_bytes out.old
        ++ extra_said (command_at (table archs.now) (suite.now ∷ []) front.now) word.now) }
{
    let suites = [suite];
    match read_command(alloc, front, archs, suites.as_slice()) {
        Ok(command) => put_behind(out, &command, word),
        Err(CommandFault::Wrong(_, _)) => put_word(out, word, "no word is wanted here"),
        Err(CommandFault::NoMemory) => Err(AllocError),
    }
}

// Appends what is said of a word that is no suite.
fn put_suite(out: &mut String, suite: &str, word: &str) -> Result<(), AllocError>
    ensures { OnOk result (string_bytes out.new ≡ string_bytes out.old
        ++ of_word word.now (codes "no suite of this run; wanted: " ++ suite.now)) }
{
    put_word(out, word, "no suite of this run; wanted: ")?;
    out.push_str(suite)
}

/// Appends what is said of a fault at a place of a line.
pub fn put_fault(
    alloc: Global,
    out: &mut String,
    archs: &Archs<'_>,
    suite: &str,
    line: &str,
    fault: LineFault,
    place: usize,
) -> Result<(), AllocError>
    ensures { OnOk result (string_bytes out.new ≡ string_bytes out.old
        ++ fault_said (table archs.now) suite.now line.now fault place) }
{
    let word = word_at(line, place);
    match fault {
        LineFault::UnterminatedQuote => put_word(out, word, "this quote isn't closed"),
        LineFault::UnknownCommand => put_word(out, word, "no command and no request"),
        LineFault::BadNumber => put_word(out, word, number_wanted(first_word(line))),
        LineFault::NoPackage => out.push_str("a package is missing before the dot"),
        LineFault::BadPackage => put_word(out, word, package_wanted(word)),
        LineFault::NoDot => out.push_str("the dot after the packages is missing"),
        LineFault::NoArch => out.push_str("an architecture is missing after the dot"),
        LineFault::UnknownArch => put_word(out, word, "no architecture of the table"),
        LineFault::UnknownSuite => put_suite(out, suite, word),
        LineFault::BadRelation => put_word(out, word, "no relation"),
        LineFault::MissingMessage => {
            out.push_str("a message is missing: -m, and a text in quotes")
        }
        LineFault::Extra => put_extra(alloc, out, archs, suite, before(line, place), word),
        LineFault::MissingValue => out.push_str("a relation is missing after --extra-depends"),
    }
}
