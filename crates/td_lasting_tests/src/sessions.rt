//! Sessions over the texts of files: what is judged before the desk's file is opened, and what is
//! left of it.
use crate::archive::{ARCHS, PACKAGES, PACKAGES_CHANGED, SOURCES};
use crate::place::Place;
use std::alloc::{AllocError, Global};
use std::test::Fail;
use std::thread::Threads;
use td_ledger::Memory;
use td_session::{Held, SessionTexts, hold_session};

// What a session is held over.
#[derive(Clone, Copy)]
struct Over {
    packages: &'static str,
    state: &'static str,
    tracker: &'static str,
}

const ARCHIVE: Over = Over {
    packages: PACKAGES,
    state: "",
    tracker: "",
};

fn given(alloc: Global, text: &str) -> Result<Option<String>, AllocError> {
    if text.is_empty() {
        return Ok(None);
    }
    Ok(Some(String::from_str(alloc, text)?))
}

fn texts(alloc: Global, over: Over) -> Result<SessionTexts, AllocError> {
    Ok(SessionTexts {
        archs: String::from_str(alloc, ARCHS)?,
        packages: String::from_str(alloc, over.packages)?,
        sources: String::from_str(alloc, SOURCES)?,
        state: given(alloc, over.state)?,
        tracker: given(alloc, over.tracker)?,
        suite: String::from_str(alloc, "unstable")?,
    })
}

// What is left in a file, if there is one.
fn left_in(alloc: Global, file: Option<Memory>) -> Result<String, AllocError> {
    match file {
        Some(memory) => String::from_utf8_lossy(alloc, memory.bytes()),
        None => String::from_str(alloc, "none"),
    }
}

// How a session ends at a place, what it answers, and what is left in the file.
fn held_at<R: Threads + Sync>(
    rt: &R,
    alloc: Global,
    over: Over,
    place: &mut Place,
    mut input: &[u8],
) -> Result<String, AllocError> {
    let texts = texts(alloc, over)?;
    let mut answers = Vec::new(alloc);
    let Held { end, file } = hold_session(rt, alloc, &texts, place, &mut input, &mut answers);
    let answers = String::from_utf8_lossy(alloc, answers.as_slice())?;
    let left = left_in(alloc, file)?;
    format!(in alloc; "{end:?} {} | {answers}| {left}", place.is_touched)
}

fn held<R: Threads + Sync>(
    rt: &R,
    alloc: Global,
    over: Over,
    file: &[u8],
    input: &[u8],
) -> Result<String, AllocError> {
    let mut place = Place {
        memory: Some(Memory::new(alloc, file)?),
        is_touched: false,
    };
    held_at(rt, alloc, over, &mut place, input)
}

// The header that the program wrote for the archive of the tests.
const FILE: &str =
    "transdesk desk 1 6472498f647e8052931e984d769d3bfe0c6c49577c2e3074a705877b9192dd4c\n";

#[test]
fn a_session_over_a_new_file_begins_it(rt: HostRuntime) -> Result<(), Fail> {
    let found = held(&rt, rt.alloc(), ARCHIVE, b"", b"nmu foo . i386\nundo 1\n")?;
    let expected = format!(in rt.alloc();
        "Ok(ServeEnd {{ refusals: 0 }}) true | entry 1 takes foo/i386\nundone 1\n| \
        {FILE}1 nmu foo/i386\nundo 1\n"
    )?;
    assert_eq!(rt; found.as_str(), expected.as_str());
    Ok(())
}

#[test]
fn a_refused_text_leaves_the_place_untouched(rt: HostRuntime) -> Result<(), Fail> {
    let bad_state = Over {
        state: "foo/i386 Nonsense 0 0\n",
        ..ARCHIVE
    };
    let bad_tracker = Over {
        tracker: "is_affected = ;",
        ..ARCHIVE
    };
    let state = held(&rt, rt.alloc(), bad_state, b"", b"row foo i386\n")?;
    let tracker = held(&rt, rt.alloc(), bad_tracker, b"", b"row foo i386\n")?;
    assert_eq!(rt;
        state.as_str(),
        "Err(Input(State(BadLine(1)))) false | | none"
    );
    assert!(rt;
        tracker.as_str().starts_with("Err(Input(Tracker("),
        "{tracker}"
    );
    assert!(rt; tracker.as_str().ends_with(" false | | none"), "{tracker}");
    Ok(())
}

#[test]
fn a_file_of_other_rows_is_refused_and_stays(rt: HostRuntime) -> Result<(), Fail> {
    let changed = Over {
        packages: PACKAGES_CHANGED,
        ..ARCHIVE
    };
    let found = held(&rt, rt.alloc(), changed, FILE.as_bytes(), b"row foo i386\n")?;
    let expected = format!(in rt.alloc(); "Err(File(OtherRows)) true | | {FILE}")?;
    assert_eq!(rt; found.as_str(), expected.as_str());
    Ok(())
}

#[test]
fn a_place_that_another_desk_has_is_told_after_the_texts(rt: HostRuntime) -> Result<(), Fail> {
    let mut place = Place {
        memory: None,
        is_touched: false,
    };
    let found = held_at(&rt, rt.alloc(), ARCHIVE, &mut place, b"row foo i386\n")?;
    assert_eq!(rt; found.as_str(), "Err(Unopened(Locked)) true | | none");
    Ok(())
}

#[test]
fn a_session_whose_file_can_t_be_written_stops_there(rt: HostRuntime) -> Result<(), Fail> {
    let mut memory = Memory::new(rt.alloc(), FILE.as_bytes())?;
    memory.fail_after(10, usize::MAX);
    let mut place = Place {
        memory: Some(memory),
        is_touched: false,
    };
    let input = b"row foo i386\nnmu foo . i386\nrow foo i386\n";
    let found = held_at(&rt, rt.alloc(), ARCHIVE, &mut place, input)?;
    let expected = format!(in rt.alloc();
        "Err(Serve(CannotKeep)) true | foo/i386 Installed 0 1\n| {FILE}1 nmu foo/"
    )?;
    assert_eq!(rt; found.as_str(), expected.as_str());
    Ok(())
}
