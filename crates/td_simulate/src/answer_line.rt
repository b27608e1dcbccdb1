//! The lines of answers.
ghost use Rattle.std.specs.Prelude.{◌≡◌, ◌++◌, ◌∷◌, OnOk, decimal};
ghost use Rattle.std.specs.String.{string_bytes};
ghost use Rattle.td_rows.specs.KeyText.{key_text};
ghost use Rattle.td_simulate.specs.Answers.{answer_line, refusal_name, refusal_place};

use std::alloc::AllocError;
use td_core::{Answer, Refusal};
use td_rows::{Key, put_key};
use td_text::put_number;

/// The name of a refusal, as it is printed.
pub fn refusal_name(refusal: &Refusal) -> &'static str
    ensures { result.now ≡ refusal_name refusal.now }
{
    match refusal {
        Refusal::NoSuchRow(_) => "NoSuchRow",
        Refusal::NotClosed => "NotClosed",
        Refusal::NotQueued => "NotQueued",
        Refusal::NotOpen => "NotOpen",
        Refusal::NoSuchBuilder => "NoSuchBuilder",
        Refusal::NotFree => "NotFree",
        Refusal::NotHeld => "NotHeld",
        Refusal::NotACommand => "NotACommand",
        Refusal::NoKeys => "NoKeys",
        Refusal::DoesNotApply(_) => "DoesNotApply",
        Refusal::NotPinned(_) => "NotPinned",
        Refusal::NoSuchEntry => "NoSuchEntry",
        Refusal::AlreadyUndone => "AlreadyUndone",
        Refusal::Blocked(_) => "Blocked",
        Refusal::NothingHeld => "NothingHeld",
        Refusal::NotNoted => "NotNoted",
        Refusal::NotDone => "NotDone",
        Refusal::NotFinished => "NotFinished",
        Refusal::NotSettled => "NotSettled",
        Refusal::NoMemory => "NoMemory",
    }
}

fn put_spaced_key(out: &mut String, key: &Key) -> Result<(), AllocError>
    ensures { OnOk result (string_bytes out.new ≡ string_bytes out.old ++ 32 ∷ key_text key.now) }
{
    out.push_str(" ")?;
    put_key(out, key)
}

fn put_spaced_number(out: &mut String, number: u64) -> Result<(), AllocError>
    ensures { OnOk result (string_bytes out.new ≡ string_bytes out.old ++ 32 ∷ decimal number) }
{
    out.push_str(" ")?;
    put_number(out, number)
}

fn put_place(out: &mut String, refusal: &Refusal) -> Result<(), AllocError>
    ensures { OnOk result
        (string_bytes out.new ≡ string_bytes out.old ++ refusal_place refusal.now) }
{
    match refusal {
        Refusal::NoSuchRow(Some(key))
        | Refusal::DoesNotApply(key)
        | Refusal::NotPinned(Some(key)) => put_spaced_key(out, key),
        Refusal::Blocked(number) => put_spaced_number(out, *number),
        _ => Ok(()),
    }
}

fn put_refusal(out: &mut String, refusal: &Refusal) -> Result<(), AllocError>
    ensures { OnOk result (string_bytes out.new
        ≡ string_bytes out.old ++ (refusal_name refusal.now ++ refusal_place refusal.now)) }
{
    out.push_str(refusal_name(refusal))?;
    put_place(out, refusal)
}

/// Appends the line of an answer, without a newline.
pub fn put_answer_line(out: &mut String, answer: &Answer) -> Result<(), AllocError>
    ensures { OnOk result (string_bytes out.new ≡ string_bytes out.old ++ answer_line answer.now) }
{
    match answer {
        Answer::Done => out.push_str("done"),
        Answer::Entry(number) => {
            out.push_str("entry ")?;
            put_number(out, *number)
        }
        Answer::Undone(number) => {
            out.push_str("undone ")?;
            put_number(out, *number)
        }
        Answer::Nothing => out.push_str("nothing to sweep"),
        Answer::Refused(refusal) => {
            out.push_str("refused: ")?;
            put_refusal(out, refusal)
        }
    }
}
