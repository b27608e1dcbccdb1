//! A command line, read.
ghost use Rattle.std.specs.Prelude.{◌≡◌, Ok, Err, IfErr, IfOk, IsErrAnd, IsErrOf, MatchResult, map};
ghost use Rattle.td_relation.specs.TableView.{table};
ghost use Rattle.td_wbread.specs.Command.{CommandParts, command_at, command_from, head_at};
ghost use Rattle.td_wbread.specs.Command.{spoken_at};
ghost use Rattle.td_wbread.specs.Faults.{IsFaultOf, IsOrNoMemory};
ghost use Rattle.td_wbread.specs.Views.{head_read, parts_of, spoken_of};
ghost use Rattle.td_wbread.specs.declared.fault.CommandFault.{CommandFault};

use crate::arch_reading::read_archs;
use crate::building::{SpokenWords, make_command};
use crate::command::{Command, Verb};
use crate::fault::CommandFault;
use crate::option_reading::read_tail;
use crate::package_reading::read_packages;
use crate::scanning::read_words;
use crate::verb_reading::read_verb;
use crate::word::{End, Word};
use std::alloc::Global;
use td_relation::Archs;

/// The words at the head of a command line by what they are, and those after them.
#[derive(Clone, Copy)]
struct HeadWords<'w> {
    verb: Verb,
    packages: &'w [Word],
    chosen: &'w [Word],
    behind: Option<&'w [Word]>,
}

/// The head of a command line. It takes no memory.
fn read_head<'w>(
    archs: &Archs<'_>,
    end: End,
    words: &'w [Word],
) -> Result<HeadWords<'w>, CommandFault>
    ensures { head_read result ≡ head_at (table archs.now) end words.now }
{
    let (verb, words) = match read_verb(end, words) {
        Ok(read) => read,
        Err(fault) => return Err(fault),
    };
    let (packages, words) = read_packages(end, words)?;
    let (chosen, behind) = read_archs(archs, end, words)?;
    Ok(HeadWords {
        verb,
        packages,
        chosen,
        behind,
    })
}

/// The parts of a command line.
#[tactic(auto, unfolding(crate::specs::Command::spoken_at))]
fn read_spoken<'w>(
    alloc: Global,
    archs: &Archs<'_>,
    suites: &[&str],
    end: End,
    words: &'w [Word],
) -> Result<SpokenWords<'w>, CommandFault>
    ensures ok { IfOk result (λ s. spoken_at (table archs.now)
        (map (λ s. s.now) suites.now) end words.now ≡ Ok (spoken_of s)) }
    ensures err { IfErr result (λ e.
        IsFaultOf (spoken_at (table archs.now) (map (λ s. s.now) suites.now) end words.now) e) }
    // What is wrong with the head is said whatever memory there is.
    ensures head { (fault : CommandFault) → head_at (table archs.now) end words.now ≡ Err fault
        → IsErrOf result fault }
{
    let head = match read_head(archs, end, words) {
        Ok(head) => head,
        Err(fault) => return Err(fault),
    };
    let options = read_tail(alloc, &head.verb, suites, end, head.behind)?;
    Ok(SpokenWords {
        verb: head.verb,
        packages: head.packages,
        chosen: head.chosen,
        options,
    })
}

/// The command that words are.
fn read_from<'a>(
    alloc: Global,
    archs: &Archs<'a>,
    suites: &[&str],
    end: End,
    words: &[Word],
) -> Result<Command<'a>, CommandFault>
    ensures ok { IfOk result (λ c. command_from (table archs.now)
        (map (λ s. s.now) suites.now) end words.now ≡ Ok (parts_of c)) }
    ensures err { IfErr result (λ e. IsFaultOf
        (command_from (table archs.now) (map (λ s. s.now) suites.now) end words.now) e) }
    // What is wrong with the head is said whatever memory there is.
    ensures head { (fault : CommandFault) → head_at (table archs.now) end words.now ≡ Err fault
        → IsErrOf result fault }
{
    let spoken = match read_spoken(alloc, archs, suites, end, words) {
        Ok(spoken) => spoken,
        Err(fault) => return Err(fault),
    };
    match make_command(alloc, archs, spoken) {
        Ok(command) => Ok(command),
        Err(_) => Err(CommandFault::NoMemory),
    }
}

/// Reads a command line; `suites` are the names that may follow the architectures.
/// `command_faults_are_exact` says which fault is the first, and `places_lie_within` where it lies.
pub fn read_command<'a>(
    alloc: Global,
    line: &str,
    archs: &Archs<'a>,
    suites: &[&str],
) -> Result<Command<'a>, CommandFault>
    // What is read is the command that the line is.
    ensures found { IfOk result (λ c.
        command_at (table archs.now) (map (λ s. s.now) suites.now) line.now ≡ Ok (parts_of c)) }
    // A line that is a command is read, unless memory runs out.
    ensures only { (p : CommandParts) →
        command_at (table archs.now) (map (λ s. s.now) suites.now) line.now ≡ Ok p →
        MatchResult result (λ c. parts_of c ≡ p) (λ e. e ≡ CommandFault.NoMemory) }
    // A fault is the line's first, or memory ran out.
    ensures fault { IfErr result
        (λ e. IsFaultOf (command_at (table archs.now) (map (λ s. s.now) suites.now) line.now) e) }
    // A line with a fault is refused by the first, unless memory runs out.
    ensures refused { (fault : CommandFault) →
        command_at (table archs.now) (map (λ s. s.now) suites.now) line.now ≡ Err fault →
        IsErrAnd result (λ e. IsOrNoMemory fault e) }
{
    match read_words(alloc, line) {
        Ok((words, end)) => read_from(alloc, archs, suites, end, words.as_slice()),
        Err(_) => Err(CommandFault::NoMemory),
    }
}
