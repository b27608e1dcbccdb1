//! The program: a desk for the rebuilds of a Debian transition, whose undo is proved.
//!
//! Start at `main`: it hands the words, the disk and the three streams to `td_tool::tool`, which
//! does all the rest and promises it. `disk` reads files, and `disk_file` keeps those of desks: of
//! their bytes no clause knows.
#![tactic(auto)]

mod disk;
mod disk_file;

use crate::disk::Disk;
use std::process::ExitCode;
use std::{env, io};
use td_tool::tool;

fn main(rt: HostRuntime) -> ExitCode {
    let words = env::args(&rt).and_then(|words| Ok(words.collect(rt.alloc())?));
    let status = tool(
        &rt,
        rt.alloc(),
        words,
        &Disk(&rt),
        &mut rt.stdin(),
        &mut io::writer(&rt),
        &mut rt.stderr(),
    );
    ExitCode::from(status)
}
