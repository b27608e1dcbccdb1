//! A word of a line, and what comes after the last one.
use crate::fault::{CommandFault, LineFault};
use td_rows::Line;

/// A word of a line, without its quotes.
#[derive(Drop)]
pub struct Word {
    pub text: Line,
    /// Whether it is written without quotes.
    pub is_bare: bool,
    /// Where it begins in the line, in bytes.
    pub place: usize,
}

/// What comes after the last word of a line.
#[derive(Clone, Copy)]
pub enum End {
    /// Nothing: the line ends at this place.
    Closed(usize),
    /// A word with a quote, at this place, that isn't closed.
    Open(usize),
}

impl End {
    ghost use Rattle.std.specs.Prelude.{◌≡◌};
    ghost use Rattle.td_wbread.specs.Faults.{missing as missing_of};

    /// What is wrong where a word is missing: a quote that isn't closed comes first.
    pub fn missing(self, what: LineFault) -> CommandFault
        ensures { result ≡ missing_of self what }
    {
        match self {
            End::Closed(place) => CommandFault::Wrong(what, place),
            End::Open(place) => CommandFault::Wrong(LineFault::UnterminatedQuote, place),
        }
    }
}

impl Word {
    ghost use Rattle.std.specs.Prelude.{◌≡◌, Err, codes};
    ghost use Rattle.td_wbread.specs.Faults.{is_dot as is_dot_of, is_sign as is_sign_of};

    /// Whether it is this text, without quotes.
    pub fn is_sign(&self, text: &str) -> bool
        ensures { result ≡ is_sign_of text.now self.now }
    {
        self.is_bare && self.text.as_str() == text
    }

    pub fn is_dot(&self) -> bool
        ensures { result ≡ is_dot_of self.now }
    {
        self.is_sign(".")
    }

    /// This word is wrong.
    pub fn wrong(&self, what: LineFault) -> CommandFault
        ensures { result ≡ CommandFault.Wrong what self.now.place }
    {
        CommandFault::Wrong(what, self.place)
    }
}
