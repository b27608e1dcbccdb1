//! What else a plan's lines say: the message of each rebuild, and the suite.
ghost use Rattle.std.specs.Prelude.{◌≡◌, ◌==◌};
ghost use Rattle.std.specs.List.{list_all, list_any};
ghost use Rattle.td_plan.specs.Message.{can_be_quoted as can_be_quoted_of};
ghost use Rattle.td_plan.specs.Message.{is_read_by_shells as is_read_by_shells_of};
ghost use Rattle.td_plan.specs.Message.{is_single_quoted, is_small_letter as is_small_letter_of};
ghost use Rattle.td_plan.specs.Message.{is_suite as is_suite_of, is_suite_byte as is_suite_byte_of};

use std::alloc::AllocError;
use thiserror::Error;

/// Why no line can have a word.
#[derive(Clone, Copy, Debug, PartialEq, Eq, Error)]
pub enum WordFault {
    /// The message has a newline, or no quote can hold it.
    #[error("bad message")]
    BadMessage,
    /// The suite is no word of small letters, digits and hyphens that begins with a letter.
    #[error("bad suite")]
    BadSuite,
}

/// The message of each rebuild, and the suite.
#[derive(Clone, Copy)]
pub struct Words<'m> {
    message: &'m str,
    suite: &'m str,
}

// A byte that a shell reads between `"`.
fn is_read_by_shells(byte: u8) -> bool
    ensures { result ≡ is_read_by_shells_of byte }
{
    byte == b'"' || byte == b'$' || byte == b'`' || byte == b'\\'
}

fn has_shell_byte(text: &str) -> bool
    ensures { result ≡ is_single_quoted text.now }
{
    text.as_bytes().iter().any(|byte| is_read_by_shells(*byte))
}

/// Whether one of the two quotes can hold a message.
pub fn can_be_quoted(message: &str) -> bool
    ensures { result ≡ can_be_quoted_of message.now }
{
    !has_byte(message, b'\n') && !(has_shell_byte(message) && has_byte(message, b'\''))
}

fn is_small_letter(byte: u8) -> bool
    ensures { result ≡ is_small_letter_of byte }
{
    97 <= byte && byte <= 122
}

fn is_suite_byte(byte: u8) -> bool
    ensures { result ≡ is_suite_byte_of byte }
{
    is_small_letter(byte) || (48 <= byte && byte <= 57) || byte == 45
}

fn are_suite_bytes(bytes: &[u8]) -> bool
    ensures { result ≡ list_all is_suite_byte_of bytes.now }
{
    bytes.iter().all(|byte| is_suite_byte(*byte))
}

fn has_byte(text: &str, byte: u8) -> bool
    ensures { result ≡ list_any (λ c. c == byte) text.now }
{
    text.as_bytes().iter().any(|c| *c == byte)
}

/// Whether a text is the name of a suite.
pub fn is_suite(text: &str) -> bool
    ensures { result ≡ is_suite_of text.now }
{
    let bytes = text.as_bytes();
    !bytes.is_empty() && is_small_letter(bytes[0]) && are_suite_bytes(bytes)
}

impl<'m> Words<'m> {
    ghost use Rattle.std.specs.Prelude.{◌≡◌, ◌++◌, ◌↔◌, IfOk, IsErrOf, IsTrue, OnErr, OnOk, true};
    ghost use Rattle.std.specs.Prelude.{false, string_bytes};
    ghost use Rattle.td_rows.specs.Appending.{Grown};
    ghost use Rattle.td_plan.specs.Message.{can_be_quoted as can_be_quoted_of};
    ghost use Rattle.td_plan.specs.Message.{is_suite as is_suite_of, quoted};

    /// A message and a suite that lines can have.
    pub fn new(message: &'m str, suite: &'m str) -> Result<Words<'m>, WordFault>
        ensures message { IfOk result (λ words. words.message.now ≡ message.now) }
        ensures suite { IfOk result (λ words. words.suite.now ≡ suite.now) }
        ensures quotable { IfOk result (λ words. IsTrue (can_be_quoted_of message.now)) }
        ensures named { IfOk result (λ words. IsTrue (is_suite_of suite.now)) }
        ensures bad_message { IsErrOf result WordFault.BadMessage
            ↔ (can_be_quoted_of message.now ≡ false) }
        ensures bad_suite { IsErrOf result WordFault.BadSuite
            ↔ ((can_be_quoted_of message.now ≡ true) × (is_suite_of suite.now ≡ false)) }
    {
        if !can_be_quoted(message) {
            return Err(WordFault::BadMessage);
        }
        if !is_suite(suite) {
            return Err(WordFault::BadSuite);
        }
        Ok(Words { message, suite })
    }

    /// The suite.
    pub fn suite(&self) -> &'m str
        ensures { result.now ≡ self.now.suite.now }
    {
        self.suite
    }

    // Appends the message between its quotes; if memory runs out, a front of it.
    #[tactic(auto, using(td_rows::proofs::Appends::growing))]
    fn write_message(&self, out: &mut String) -> Result<(), AllocError>
        ensures ok { OnOk result
            (string_bytes out.new ≡ string_bytes out.old ++ quoted self.now.message.now) }
        ensures front { Grown (string_bytes out.old) (string_bytes out.new) }
    {
        let quote = if has_shell_byte(self.message) {
            "'"
        } else {
            "\""
        };
        out.push_str(quote)?;
        out.push_str(self.message)?;
        out.push_str(quote)
    }

    /// Appends the message between its quotes; if memory runs out, nothing.
    pub fn put_message(&self, out: &mut String) -> Result<(), AllocError>
        ensures ok { OnOk result
            (string_bytes out.new ≡ string_bytes out.old ++ quoted self.now.message.now) }
        ensures err { OnErr result (string_bytes out.new ≡ string_bytes out.old) }
    {
        let start = out.len();
        let done = self.write_message(out);
        if done.is_err() {
            out.truncate(start);
        }
        done
    }
}
