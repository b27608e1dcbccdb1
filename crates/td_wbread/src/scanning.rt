//! The words of a line.
ghost use Rattle.std.specs.Prelude.{◌≡◌, IfOk};
ghost use Rattle.td_wbread.specs.Taking.{IsFront};
ghost use Rattle.td_wbread.specs.Words.{end_of, words_of};

use crate::quoting::{closed, opened, plain_run};
use crate::word::{End, Word};
use std::alloc::{AllocError, Global};
use td_rows::Line;
use td_text::trimmed;

/// What stands at the front of a text.
#[derive(Drop)]
enum Front<'a> {
    /// A word, whether it is written without quotes, and what follows it.
    Whole(Line, bool, &'a str),
    /// A word with a quote, at this place of the text, that isn't closed.
    Open(usize),
}

/// Takes the word off the front of a text.
fn take_word(alloc: Global, text: &str) -> Result<Front<'_>, AllocError>
    ensures { IfOk result (λ front. IsFront text.now front) }
{
    let mut word = String::new(alloc);
    let mut is_bare = true;
    let mut rest = text;
    'pieces: loop {
        let (run, after) = plain_run(rest);
        word.push_str(run)?;
        let Some((quote, inside)) = opened(after) else {
            let word = Line::from_line(alloc, word.as_str())?;
            return Ok(Front::Whole(word, is_bare, after));
        };
        let Some((inside, behind)) = closed(inside, quote) else {
            return Ok(Front::Open(text.len() - after.len()));
        };
        word.push_str(inside)?;
        is_bare = false;
        rest = behind;
    }
}

/// The words of a line, and what comes after the last of them.
pub fn read_words(alloc: Global, line: &str) -> Result<(Vec<Word>, End), AllocError>
    ensures words { IfOk result (λ r. r.0.items ≡ words_of line.now) }
    ensures end { IfOk result (λ r. r.1 ≡ end_of line.now) }
{
    let mut words = Vec::new(alloc);
    let mut rest = trimmed(line);
    while !rest.is_empty() {
        let place = line.len() - rest.len();
        match take_word(alloc, rest)? {
            Front::Open(quote) => return Ok((words, End::Open(place + quote))),
            Front::Whole(text, is_bare, after) => {
                words.push(Word {
                    text,
                    is_bare,
                    place,
                })?;
                rest = trimmed(after);
            }
        }
    }
    Ok((words, End::Closed(line.len())))
}
