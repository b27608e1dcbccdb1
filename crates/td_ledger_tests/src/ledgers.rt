//! What no clause can say: that calls succeed where nothing fails, and what a file is like after
//! one that fails. All files are worked by hand, from the rule of which file is new, and from where
//! the last newline stands.
use std::alloc::{AllocError, Global};
use td_ledger::{AppendFault, Ledger, Lines, Memory, OpenFault, Opening, is_line};

const HEADER: &str = "desk 1";

// A file in memory that is read, and that takes this many bytes and this many syncs.
fn read(
    alloc: Global,
    file: &[u8],
    bytes: usize,
    syncs: usize,
) -> Result<Opening<Memory>, OpenFault> {
    let mut memory = Memory::new(alloc, file)?;
    memory.fail_after(bytes, syncs);
    if !is_line(HEADER) {
        return Err(OpenFault::BadHeader);
    }
    match Opening::read(alloc, memory, HEADER) {
        Ok(opening) => Ok(opening),
        Err((fault, _memory)) => Err(fault),
    }
}

// Whether an opening succeeds, and whether this is in the file after it.
fn leaves(opening: Opening<Memory>, file: &[u8]) -> (bool, bool) {
    match opening.begin() {
        Ok(ledger) => {
            let memory = ledger.into_device();
            (true, memory.bytes() == file)
        }
        Err((_fault, memory)) => (false, memory.bytes() == file),
    }
}

// A file, the text of its lines, and the file after its opening.
const FILES: [(&[u8], &str, &[u8]); 17] = [
    (b"", "", b"desk 1\n"),
    (b"d", "", b"desk 1\n"),
    (b"desk 1", "", b"desk 1\n"),
    (b"de\0\0\0\0\0", "", b"desk 1\n"),
    (b"\0\0\0\0\0\0\0", "", b"desk 1\n"),
    (b"desk 1\n", "desk 1\n", b"desk 1\n"),
    (b"desk 1\nu", "desk 1\n", b"desk 1\n"),
    (b"desk 1\nun", "desk 1\n", b"desk 1\n"),
    (b"desk 1\nund", "desk 1\n", b"desk 1\n"),
    (b"desk 1\nundo", "desk 1\n", b"desk 1\n"),
    (b"desk 1\nundo ", "desk 1\n", b"desk 1\n"),
    (b"desk 1\nundo 1", "desk 1\n", b"desk 1\n"),
    (b"desk 1\nundo 1\n", "desk 1\nundo 1\n", b"desk 1\nundo 1\n"),
    (b"desk 1\nundo\0\0\0", "desk 1\n", b"desk 1\n"),
    (b"desk 1\n\xff\xfe", "desk 1\n", b"desk 1\n"),
    (b"desk 1\n\n\n", "desk 1\n\n\n", b"desk 1\n\n\n"),
    // (whose the lines are the caller judges)
    (b"a\nb\nc", "a\nb\n", b"a\nb\n"),
];

fn opens(alloc: Global, file: &[u8], text: &str, left: &[u8]) -> Result<bool, OpenFault> {
    let opening = read(alloc, file, usize::MAX, usize::MAX)?;
    let is_text = opening.text() == text;
    Ok(is_text && leaves(opening, left) == (true, true))
}

#[test]
fn an_opening_leaves_the_whole_lines_and_writes_a_missing_header(rt: HostRuntime) {
    for (file, text, left) in &FILES {
        assert_eq!(rt; opens(rt.alloc(), file, text, left), Ok(true), "{file:?}");
    }
}

const REFUSED: [(&[u8], OpenFault); 7] = [
    (b"desk 2", OpenFault::BadHeader),
    (b"desk 1x", OpenFault::BadHeader),
    (b"de\0k", OpenFault::BadHeader),
    (b"\0\0\0\0\0\0\0\0", OpenFault::BadHeader),
    (b"\xff\xfe", OpenFault::BadHeader),
    (b"desk 1\n\xff\n", OpenFault::NotText),
    (b"\xff\nu", OpenFault::NotText),
];

#[test]
fn a_file_of_something_else_is_refused(rt: HostRuntime) {
    for (file, fault) in &REFUSED {
        let found = read(rt.alloc(), file, usize::MAX, usize::MAX);
        assert_eq!(rt; found.err(), Some(*fault), "{file:?}");
    }
}

// An opening's file, how many bytes and syncs it takes before it fails, and the file after it.
const FAILING: [(&[u8], usize, usize, &[u8]); 6] = [
    (b"", 0, 9, b""),
    (b"", 3, 9, b"des"),
    (b"", 9, 0, b""),
    (b"", 9, 1, b"desk 1\n"),
    (b"desk 1\nun", 9, 0, b"desk 1\nun"),
    (b"desk 1\nun", 9, 1, b"desk 1\n"),
];

fn fails(
    alloc: Global,
    file: &[u8],
    bytes: usize,
    syncs: usize,
    left: &[u8],
) -> Result<bool, OpenFault> {
    let opening = read(alloc, file, bytes, syncs)?;
    Ok(leaves(opening, left) == (false, true))
}

#[test]
fn an_opening_fails_where_its_file_does(rt: HostRuntime) {
    for (file, bytes, syncs, left) in &FAILING {
        let found = fails(rt.alloc(), file, *bytes, *syncs, left);
        assert_eq!(rt; found, Ok(true), "{left:?}");
    }
}

// The lines among these texts.
fn lines_of(alloc: Global, texts: &[&str]) -> Result<Lines, AllocError> {
    let mut lines = Lines::new(alloc);
    for text in texts {
        if is_line(text) {
            lines.push(text)?;
        }
    }
    Ok(lines)
}

// What two appends are answered.
type Answers = (Result<(), AppendFault>, Result<(), AppendFault>);

fn twice(ledger: &mut Ledger<Memory>, first: &Lines, second: &Lines) -> Answers {
    (ledger.append(first), ledger.append(second))
}

// Two appends to a file that has its header: the answers, and whether this is in the file then.
fn appended(
    alloc: Global,
    bytes: usize,
    syncs: usize,
    left: &[u8],
) -> Result<(Answers, bool), OpenFault> {
    let opening = read(alloc, b"desk 1\n", bytes, syncs)?;
    let first = lines_of(alloc, &["nmu foo", "undo 1"])?;
    let second = lines_of(alloc, &["gb foo"])?;
    match opening.begin() {
        Ok(mut ledger) => {
            let answers = twice(&mut ledger, &first, &second);
            let memory = ledger.into_device();
            Ok((answers, memory.bytes() == left))
        }
        Err(_) => Err(OpenFault::CannotRead),
    }
}

const FAILED: Answers = (Err(AppendFault::CannotWrite), Err(AppendFault::Stopped));

// How many bytes and syncs a file takes, the answers, and the file after them.
const APPENDS: [(usize, usize, Answers, &[u8]); 6] = [
    (
        99,
        99,
        (Ok(()), Ok(())),
        b"desk 1\nnmu foo\nundo 1\ngb foo\n",
    ),
    (0, 99, FAILED, b"desk 1\n"),
    (3, 99, FAILED, b"desk 1\nnmu"),
    (10, 99, FAILED, b"desk 1\nnmu foo\nun"),
    (99, 1, FAILED, b"desk 1\nnmu foo\nundo 1\n"),
    (
        99,
        2,
        (Ok(()), Err(AppendFault::CannotWrite)),
        b"desk 1\nnmu foo\nundo 1\ngb foo\n",
    ),
];

#[test]
fn lines_are_appended_until_a_write_or_a_sync_fails(rt: HostRuntime) {
    for (bytes, syncs, answers, left) in &APPENDS {
        let found = appended(rt.alloc(), *bytes, *syncs, left);
        assert_eq!(rt; found, Ok((*answers, true)), "{left:?}");
    }
}
