//! What a test asks of what it finds. Each is one call, so that the body of a test stays short: the
//! proof's time goes by that.
use std::fmt::Debug;
use std::process::Abort;

/// What was made; a fault ends the test.
pub(crate) fn made<T, E: Debug + Drop>(rt: &impl Abort, made: Result<T, E>) -> T {
    match made {
        Ok(made) => made,
        Err(fault) => panic!(rt; "{fault:?}"),
    }
}

/// Whether this is so of a case.
pub(crate) fn holds(rt: &impl Abort, is_so: bool, case: &str) {
    assert!(rt; is_so, "{case}");
}

/// Whether what is found of a case is as expected.
pub(crate) fn is_same<T: Debug + PartialEq>(rt: &impl Abort, found: &T, expected: &T, case: &str) {
    assert_eq!(rt; *found, *expected, "{case}");
}

/// Whether the text that is found of a case is as expected.
pub(crate) fn is_text(rt: &impl Abort, found: &str, expected: &str, case: &str) {
    assert_eq!(rt; found, expected, "{case}");
}

/// Whether a case has this text as its answer.
pub(crate) fn is_told<E: Debug + Drop>(
    rt: &impl Abort,
    told: Result<String, E>,
    expected: &str,
    case: &str,
) {
    let text = made(rt, told);
    is_text(rt, text.as_str(), expected, case);
}
