//! What is told of a script at a desk: the answers to its lines, and then the rows.
ghost use Rattle.std.specs.Prelude.{◌≡◌, ◌+◌, ◌-◌, ◌<◌, ◌^◌, IfOk, MatchResult, None, Ok, Err};
ghost use Rattle.td_desk.specs.Calls.{IsAtEnd};
ghost use Rattle.td_crew.specs.CrewText.{HasRows};

use crate::line_answers::LineAnswers;
use std::alloc::{AllocError, Global};
use std::marker::PhantomData;
use td_book::Book;
use td_desk::{Homes, Named};
use td_journal::ReadError;
use td_rows::rows_text;
use td_script::Told;

/// What is told of this script at this desk. It is made of the words of its answers.
#[derive(Drop)]
pub struct Telling<'s, N: Named> {
    script: &'s str,
    told: Told,
    of: PhantomData<N>,
}

impl<'s, N: Named> Telling<'s, N> {
    /// The answers to all lines, so many of which are refused.
    pub fn of(answers: LineAnswers<'s, N>, refused: u64) -> Telling<'s, N>
        requires { answers.turn.rest ≡ None }
        ensures script { result.script ≡ answers.entry.turn.script }
        ensures text { result.told.text ≡ answers.entry.text }
        ensures refused { result.told.refused ≡ refused }
    {
        let (script, text) = answers.into_told();
        let told = Told { text, refused };
        Telling {
            script,
            told,
            of: PhantomData,
        }
    }

    /// Counts each builder who is missing as a refusal.
    pub fn miss(&mut self, homes: &Homes<N>)
        requires { self.old.told.refused + N.origin.builders < 2 ^ 64 }
        ensures script { self.new.script ≡ self.old.script }
        ensures text { self.new.told.text ≡ self.old.told.text }
        ensures refused { self.new.told.refused
            ≡ self.old.told.refused + (N.origin.builders - homes.now.count) }
        ensures home { N.origin.builders - homes.now.count < N.origin.builders
            → ∥ IsAtEnd N.table N.origin ∥₁ }
    {
        self.told.refused += homes.missing();
    }

    /// The answers with so many refusals more, and then the rows of a book.
    pub fn close(
        self,
        alloc: Global,
        book: &Book<'_>,
        refusals: u64,
    ) -> Result<Telling<'s, N>, AllocError>
        requires { self.told.refused + refusals < 2 ^ 64 }
        ensures script { IfOk result (λ closed. closed.script ≡ self.entry.script) }
        ensures rows { IfOk result (λ closed. HasRows
            (record {
              text = self.entry.told.text;
              refused = self.entry.told.refused + refusals;
            })
            book.now.history closed.told) }
    {
        let Telling { script, told, of } = self;
        let mut told = told;
        told.refused += refusals;
        let told = tell_rows(alloc, told, book)?;
        Ok(Telling { script, told, of })
    }
}

// Appends the rows of a book to the answers.
fn tell_rows(alloc: Global, told: Told, book: &Book<'_>) -> Result<Told, AllocError>
    ensures { IfOk result (HasRows told book.now.history) }
{
    let mut told = told;
    told.text.push_str("rows\n")?;
    let rows = rows_text(alloc, book.rows())?;
    told.text.push_str(rows.as_str())?;
    Ok(told)
}

/// What is told of a script, if anything.
pub fn told_of<N: Named>(telling: Result<Telling<'_, N>, ReadError>) -> Result<Told, ReadError>
    ensures { MatchResult telling.entry (λ t. result ≡ Ok t.told) (λ e. result ≡ Err e) }
{
    match telling {
        Ok(
            Telling {
                script: _,
                told,
                of: _,
            },
        ) => Ok(told),
        Err(fault) => Err(fault),
    }
}
