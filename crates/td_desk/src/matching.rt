//! Whether what a receipt says is what an entry has.
ghost use Rattle.std.specs.Prelude.{◌≡◌};
ghost use Rattle.td_desk.specs.inner.Matching.{same_keys as same_keys_in};
ghost use Rattle.td_desk.specs.inner.Matching.{same_kind as same_kind_in};
ghost use Rattle.td_desk.specs.inner.Matching.{same_number as same_number_in};
ghost use Rattle.td_desk.specs.inner.Matching.{same_outcome as same_outcome_in};

use td_rows::{Key, Kind, Outcome, RebuildNumber};

fn same_number(this: Option<RebuildNumber>, that: Option<RebuildNumber>) -> bool
    ensures { result ≡ same_number_in this that }
{
    match (this, that) {
        (None, None) => true,
        (Some(this), Some(that)) => this.get() == that.get(),
        _ => false,
    }
}

fn same_outcome(this: &Outcome, that: &Outcome) -> bool
    ensures { result ≡ same_outcome_in this.now that.now }
{
    match (this, that) {
        (Outcome::Built, Outcome::Built) => true,
        (Outcome::Attempted, Outcome::Attempted) => true,
        (Outcome::GivenBack, Outcome::GivenBack) => true,
        (Outcome::Waits(this), Outcome::Waits(that)) => this == that,
        _ => false,
    }
}

/// Whether two kinds are equal, with their texts.
pub(crate) fn same_kind(this: &Kind, that: &Kind) -> bool
    ensures { result ≡ same_kind_in this.now that.now }
{
    match (this, that) {
        (Kind::Gb, Kind::Gb) => true,
        (
            Kind::Nmu {
                number,
                extra,
                message,
            },
            Kind::Nmu {
                number: its_number,
                extra: its_extra,
                message: its_message,
            },
        ) => same_number(*number, *its_number) && extra == its_extra && message == its_message,
        (Kind::Bp(this), Kind::Bp(that)) => this.get() == that.get(),
        (Kind::Dw(this), Kind::Dw(that)) => this == that,
        (Kind::Claim(this), Kind::Claim(that)) => this == that,
        (Kind::Outcome(this, ended), Kind::Outcome(that, its_end)) => {
            this == that && same_outcome(ended, its_end)
        }
        (Kind::Arrive, Kind::Arrive) => true,
        (Kind::Sweep, Kind::Sweep) => true,
        _ => false,
    }
}

/// Whether two lists have the same keys in the same order.
pub(crate) fn same_keys(these: &[Key], those: &[Key]) -> bool
    ensures { result ≡ same_keys_in these.now those.now }
{
    if these.len() != those.len() {
        return false;
    }
    for at in 0..these.len() {
        if these[at] != those[at] {
            return false;
        }
    }
    true
}
