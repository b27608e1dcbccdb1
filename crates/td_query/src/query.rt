//! A query, and the marks between its parts.

/// A query over the fields of a stanza. A pattern is kept by its number.
#[derive(Drop)]
pub enum Query<'a> {
    Always(bool),
    /// The text is in the value of the field, bounded.
    Text(&'a str, &'a str),
    /// The pattern with this number is found in the value of the field.
    Pattern(&'a str, usize),
    Not(Box<Query<'a>>),
    /// Each of these parts has to hold: one list, so that a long chain is no deep tree.
    All(Vec<Query<'a>>),
    Any(Vec<Query<'a>>),
}

/// The mark between the parts of a query.
#[derive(Clone, Copy)]
pub enum Joint {
    /// `&`: each part has to hold.
    And,
    /// `|`: one part has to hold.
    Or,
}

impl Joint {
    ghost use Rattle.std.specs.Prelude.{◌≡◌, length, map};
    ghost use Rattle.td_query.specs.Query.{joined, shape_of};
    ghost use Rattle.td_query.specs.QueryGrammar.{mark_of};
    ghost use Rattle.td_query.specs.inner.Settling.{settling};

    /// How the mark is written.
    pub fn mark(self) -> &'static str
        ensures mark { result.now ≡ mark_of self }
        ensures one { length result.now ≡ 1 }
    {
        match self {
            Joint::And => "&",
            Joint::Or => "|",
        }
    }

    /// The answer of a part that settles what all parts come to.
    pub fn settles(self) -> bool
        ensures answer { result ≡ settling self }
    {
        match self {
            Joint::And => false,
            Joint::Or => true,
        }
    }

    // The query of several parts.
    fn over(self, parts: Vec<Query<'_>>) -> Query<'_>
        ensures shape { shape_of result ≡ joined self (map shape_of parts.entry.items) }
    {
        match self {
            Joint::And => Query::All(parts),
            Joint::Or => Query::Any(parts),
        }
    }

    /// What the mark makes of the parts; a part by itself stays as it is.
    pub fn join(self, mut parts: Vec<Query<'_>>) -> Query<'_>
        ensures shape { shape_of result ≡ joined self (map shape_of parts.entry.items) }
    {
        match parts.len() {
            1 => match parts.pop() {
                Some(only) => only,
                None => self.over(parts),
            },
            _ => self.over(parts),
        }
    }
}
