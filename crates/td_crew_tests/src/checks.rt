//! What a test asks of what it finds. Each is one call, so that the body of a test stays short: the
//! proof's time goes by that.
ghost use Rattle.std.specs.Prelude.{◌≡◌, Ok};

use std::fmt::Debug;
use std::process::Abort;

/// What was made; a fault ends the test.
pub(crate) fn made<T, E: Debug + Drop>(rt: &impl Abort, made: Result<T, E>) -> T
    ensures { made ≡ Ok result }
{
    match made {
        Ok(made) => made,
        Err(fault) => panic!(rt; "{fault:?}"),
    }
}

/// Whether the text of a case is the expected one.
pub(crate) fn is_told<E: Debug + Drop>(
    rt: &impl Abort,
    told: Result<String, E>,
    expected: &str,
    case: &str,
) {
    let text = made(rt, told);
    assert_eq!(rt; text.as_str(), expected, "{case}");
}
