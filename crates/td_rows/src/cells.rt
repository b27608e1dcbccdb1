//! The cells of a row that a kind reads or writes.
ghost use Rattle.std.specs.Prelude.{◌≡◌};
ghost use Rattle.td_rows.specs.Cells.{overlap};

/// Which cells of a row a kind reads or writes.
#[derive(Clone, Copy)]
pub struct Cells {
    pub state: bool,
    pub priority: bool,
    pub number: bool,
    pub dep_wait: bool,
    pub extra: bool,
}

impl Cells {
    ghost use Rattle.td_rows.specs.Cells.{overlap};

    /// Every cell.
    pub const ALL: Cells = Cells {
        state: true,
        priority: true,
        number: true,
        dep_wait: true,
        extra: true,
    };

    /// Whether some cell is in both.
    pub fn overlap(self, other: Cells) -> bool
        ensures { result ≡ overlap self other }
    {
        (self.state && other.state)
            || (self.priority && other.priority)
            || (self.number && other.number)
            || (self.dep_wait && other.dep_wait)
            || (self.extra && other.extra)
    }
}
