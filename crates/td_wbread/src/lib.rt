//! Command lines as Debian's release team writes them to wanna-build: `gb`, `nmu`, `bp` and `dw`.
//!
//! Start at `read_command`; `Command::is_named`, `is_matched` and `is_bare` say which rows a
//! command names, and with which versions, `kind_of` what it does to them. A caller matches on
//! `&command.verb`. `specs/WordLaws.antt` says what the words of a line are, quoted as in a shell,
//! `specs/Command.antt` which words are a command, and what is wrong first with others, and
//! `specs/Naming.antt` which rows are named. Quotes have no escapes, and don't go over lines.
//! Promised: a line is read if and only if it is a command, as that command, else the first fault
//! from the left is named, with its place.
#![tactic(auto)]

mod arch_reading;
mod building;
mod command;
mod fault;
mod kind;
mod laws;
mod naming;
mod option_reading;
mod package_reading;
mod places;
mod quoting;
mod reading;
mod scanning;
mod verb_reading;
mod word;

pub use command::{Command, Package, Verb};
pub use fault::{CommandFault, LineFault};
pub use kind::kind_of;
pub use laws::{
    archs_are_exact, choice_is_exact, command_faults_are_exact, head_faults_are_exact,
    packages_are_exact, places_lie_within, quoted_words_are_read, tails_are_exact, verbs_are_exact,
    words_are_exact,
};
pub use package_reading::read_version;
pub use reading::read_command;
