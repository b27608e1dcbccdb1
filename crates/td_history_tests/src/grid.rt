//! Each kind on a row of each state, as the table of docs/FORMATS.md has it.
use crate::rows::after;
use std::alloc::Global;
use std::test::Fail;

/// The states that a row may open with, and Building.
const STATES: &str = "Needs-Build Building=7 Built Build-Attempted Failed Dep-Wait \
BD-Uninstallable Uploaded Installed Not-For-Us";

/// Each kind, the states on which it applies, and the state that it leaves (`-` the same).
const KINDS: &str = "\
gb => Built Build-Attempted Failed Dep-Wait => Needs-Build
nmu => Installed => Needs-Build
bp=-7 => Needs-Build Building=7 Built Build-Attempted Failed Dep-Wait BD-Uninstallable Uploaded \
Installed Not-For-Us => -
dw lib => Needs-Build Build-Attempted Failed Dep-Wait BD-Uninstallable => Dep-Wait
claim=7 => Needs-Build => Building=7
built=7 => Building=7 => Built
attempted=7 => Building=7 => Build-Attempted
givenback=7 => Building=7 => Needs-Build
waits=7 lib => Building=7 => Dep-Wait
built=1 => =>
arrive => Built Uploaded => Installed
sweep => Dep-Wait => Needs-Build
";

// The state of a row of this state after the kind; "-" where the kind doesn't apply. No row opens
// as Building: such a one is claimed first.
fn state_after(alloc: Global, kind: &str, state: &str) -> Result<String, Fail> {
    let (claim, opening) = match state {
        "Building=7" => ("claim=7, ", "Needs-Build"),
        _ => ("", state),
    };
    let kinds = format!(in alloc; "{claim}{kind}")?;
    let before = format!(in alloc; "foo/amd64 {opening} 0 0\n")?;
    let row = after(alloc, kinds.as_str(), before.as_str())?;
    let word = row.as_str().split(' ').nth(1).unwrap_or("-");
    Ok(String::from_str(alloc, word)?)
}

// These states, one for each state that a row may have.
fn states_after(alloc: Global, kind: &str) -> Result<String, Fail> {
    let mut after = String::new(alloc);
    for state in STATES.split(' ') {
        after.push_str(state_after(alloc, kind, state)?.as_str())?;
        after.push_str(" ")?;
    }
    Ok(after)
}

// The state that the table says.
fn expected<'a>(states: &str, left: &'a str, state: &'a str) -> &'a str {
    if !states.split(' ').any(|one| one == state) {
        return "-";
    }
    if left == "-" { state } else { left }
}

// These states, one for each state that a row may have.
fn states_expected(alloc: Global, states: &str, left: &str) -> Result<String, Fail> {
    let mut wanted = String::new(alloc);
    for state in STATES.split(' ') {
        wanted.push_str(expected(states, left, state))?;
        wanted.push_str(" ")?;
    }
    Ok(wanted)
}

// Whether a line of the table is so.
fn is_so(alloc: Global, line: &str) -> Result<bool, Fail> {
    let (kind, rest) = line.split_once(" => ").ok_or("a kind")?;
    let (states, left) = rest.split_once("=> ").unwrap_or(("", ""));
    let found = states_after(alloc, kind)?;
    let wanted = states_expected(alloc, states.trim_end(), left)?;
    Ok(found.as_str() == wanted.as_str())
}

#[test]
fn each_kind_applies_on_just_the_states_of_the_table(rt: HostRuntime) -> Result<(), Fail> {
    for line in KINDS.lines() {
        assert!(rt; is_so(rt.alloc(), line)?, "{line}");
    }
    Ok(())
}
