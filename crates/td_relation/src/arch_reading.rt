//! How a table of architectures is read.
ghost use Rattle.std.specs.Prelude.{◌≡◌, ◌<◌, ◌≤◌, ◌^◌, ◌+◌, Ok, IfOk, IfErr, OnOk, ◌≢◌, ◌++◌, ◌∷◌};
ghost use Rattle.std.specs.Prelude.{[], List, ℕ, None, Some, length, map};
ghost use Rattle.std.specs.List.{list_any};
ghost use Rattle.std.specs.Str.{bytes_eq};
ghost use Rattle.td_relation.specs.Limits.{max_archs};
ghost use Rattle.td_relation.specs.Arch.{words_of};
ghost use Rattle.td_relation.specs.ArchReading.{add_arch, arch_at, archs_at, first_kept};
ghost use Rattle.td_relation.specs.Fails.{Fails};
ghost use Rattle.td_relation.specs.Table.{is_skipped as is_skipped_of};
ghost use Rattle.td_text.specs.Lines.{lines_of};

use crate::arch::Arch;
use crate::archs::{ArchsFault, MAX_ARCHS};
use std::alloc::Global;
use td_text::next_line;

fn is_skipped(line: &str) -> bool
    ensures { result ≡ is_skipped_of line.now }
{
    let bytes = line.as_bytes();
    bytes.is_empty() || bytes[0] == b'#'
}

fn is_named(list: &[Arch<'_>], name: &str) -> bool
    ensures { result ≡ list_any (λ a. bytes_eq a.name.now name.now) list.now }
{
    list.iter().any(|a| a.name == name)
}

// The architecture of a line that isn't skipped, after those that were read. It takes no memory.
fn next_arch<'a>(list: &[Arch<'a>], number: usize, line: &'a str) -> Result<Arch<'a>, ArchsFault>
    ensures ok { IfOk result (λ a. add_arch number (map words_of list.now) (arch_at line.now)
        ≡ Ok (map words_of list.now ++ words_of a ∷ [])) }
    ensures room { OnOk result (length list.now ≢ max_archs) }
    ensures err { IfErr result
        (λ e. Fails e (add_arch number (map words_of list.now) (arch_at line.now))) }
    ensures certain { IfErr result (λ e. e ≢ ArchsFault.NoMemory) }
{
    let Some(arch) = Arch::read(line) else {
        return Err(ArchsFault::BadLine(number));
    };
    if is_named(list, arch.name) {
        return Err(ArchsFault::Twice(number));
    }
    if list.len() == MAX_ARCHS {
        return Err(ArchsFault::TooMany);
    }
    Ok(arch)
}

// Adds an architecture after the others.
fn push_arch<'a>(list: &mut Vec<Arch<'a>>, arch: Arch<'a>) -> Result<(), ArchsFault>
    ensures ok { OnOk result
        (map words_of list.new.items ≡ map words_of list.old.items ++ words_of arch.entry ∷ []) }
    ensures longer { OnOk result (length list.new.items ≡ length list.old.items + 1) }
    ensures err { IfErr result (λ e. e ≡ ArchsFault.NoMemory) }
{
    match list.push(arch) {
        Ok(()) => Ok(()),
        Err(_) => Err(ArchsFault::NoMemory),
    }
}

/// The architectures of the lines, in their order.
pub fn read_list(alloc: Global, text: &str) -> Result<Vec<Arch<'_>>, ArchsFault>
    requires { length text.now < 2 ^ 63 }
    ensures ok { IfOk result (λ list. archs_at text.now ≡ Ok (map words_of list.items)) }
    ensures few { IfOk result (λ list. length list.items ≤ max_archs) }
    ensures err { IfErr result (λ e. Fails e (archs_at text.now)) }
    // If the first line that isn't skipped is no architecture's, that is answered whatever memory
    // there is.
    ensures certain { (line : List ℕ) → first_kept (lines_of text.now) ≡ Some line
        → arch_at line ≡ None → IfErr result (λ e. e ≢ ArchsFault.NoMemory) }
{
    let mut list = Vec::new(alloc);
    let mut rest = Some(text);
    let mut number = 0;
    while let Some(text) = rest {
        let (line, after) = next_line(text);
        rest = after;
        number += 1;
        if !is_skipped(line) {
            let arch = next_arch(list.as_slice(), number, line)?;
            push_arch(&mut list, arch)?;
        }
    }
    Ok(list)
}
