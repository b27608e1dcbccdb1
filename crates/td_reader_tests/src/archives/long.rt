//! Indices that are read side by side, each in two pieces: what no clause says is that they are
//! read where memory suffices.
use super::answers::{counts, shown};
use crate::checks::{is_told, made};
use std::alloc::{AllocError, Global};
use std::process::Abort;
use std::thread::Threads;
use td_indices::Archive;
use td_relation::Archs;

// 4,000 stanzas, more bytes than are read as a whole; each has three lines and an empty one.
fn long_text(alloc: Global) -> Result<String, AllocError> {
    let mut text = String::new(alloc);
    for number in 0..4000 {
        write!(
            text,
            "Package: s{number}\nVersion: 1\nArchitecture: amd64\n\n"
        )?;
    }
    Ok(text)
}

// How many sources, packages and rows the archive of these two texts has, or its fault.
fn found(
    rt: &(impl Threads + Abort + Sync),
    alloc: Global,
    packages: &str,
    sources: &str,
) -> Result<String, AllocError> {
    let archs = made(rt, Archs::read(alloc, "amd64 linux amd64\n"));
    match Archive::read(rt, alloc, packages, sources, &archs) {
        Ok(archive) => {
            let counts = counts(alloc, &archive);
            drop(archive);
            counts
        }
        Err(fault) => shown(alloc, &fault),
    }
}

#[test]
fn long_indices_are_read_side_by_side(rt: HostRuntime) {
    let long = made(&rt, long_text(rt.alloc()));
    let both = found(&rt, rt.alloc(), long.as_str(), long.as_str());
    is_told(&rt, both, "4000 4000 4000", "both");
    let sources = found(&rt, rt.alloc(), "", long.as_str());
    is_told(&rt, sources, "4000 0 4000", "Sources");
}

// The line is counted from the first of the text, and Packages comes before Sources.
#[test]
fn the_last_line_of_a_long_index_is_named(rt: HostRuntime) {
    let mut long = made(&rt, long_text(rt.alloc()));
    made(&rt, long.push_str("x\n"));
    let both = found(&rt, rt.alloc(), long.as_str(), long.as_str());
    is_told(&rt, both, "Stanza(Packages, NoColon(16001))", "both");
    let sources = found(&rt, rt.alloc(), "", long.as_str());
    is_told(&rt, sources, "Stanza(Sources, NoColon(16001))", "Sources");
}
