//! The words of the board: 0 is Closed, 1 is Open, and the others have a builder's number from
//! bit 8 on.
ghost use Rattle.std.specs.Prelude.{◌≡◌, ◌+◌, ◌*◌, ◌≤◌};
ghost use Rattle.td_board.specs.Limits.{max_builders};
ghost use Rattle.td_board.specs.Phase.{word_of, held, noted, done};

use crate::outcome::OutcomeCode;

/// The row isn't offered.
pub(crate) const CLOSED: u64 = 0;

/// The row is offered.
pub(crate) const OPEN: u64 = 1;

/// A builder's number is in a word times this.
pub(crate) const PER_BUILDER: u64 = 256;

/// The word of a row that this builder claimed.
pub(crate) fn held_word(builder: u64) -> u64
    requires { builder ≤ max_builders }
    ensures { result ≡ word_of (held builder) }
{
    2 + PER_BUILDER * builder
}

/// The word of a row whose claim by this builder is noted.
pub(crate) fn noted_word(builder: u64) -> u64
    requires { builder ≤ max_builders }
    ensures { result ≡ word_of (noted builder) }
{
    4 + PER_BUILDER * builder
}

/// The word of a row whose build by this builder ended so, and isn't settled.
pub(crate) fn done_word(builder: u64, outcome: OutcomeCode) -> u64
    requires { builder ≤ max_builders }
    ensures { result ≡ word_of (done builder outcome) }
{
    3 + 8 * outcome.code() + PER_BUILDER * builder
}
