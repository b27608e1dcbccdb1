//! Steps and their answers, and the phases and hands that they change.
use crate::key_list::KeyList;
use td_journal::EntryNo;
use td_rows::{BuilderNo, Key, Kind, Outcome};

/// Where the build of a row stands between the desk and the builders.
#[derive(Drop)]
pub enum Phase {
    /// Not offered.
    Closed,
    /// Offered to the builders.
    Open,
    /// Claimed by the builder, which the journal doesn't know yet.
    Held(BuilderNo),
    /// Claimed by the builder, as the journal says.
    Noted(BuilderNo),
    /// Ended by the builder, which the journal doesn't know yet.
    Done(BuilderNo, Outcome),
}

/// What a builder has in hand.
#[derive(Drop)]
pub enum Hand {
    Free,
    Holding(Key),
    Finished(Key, Outcome),
}

/// One thing that happens: of the desk, or of a builder.
#[derive(Drop)]
pub enum Step {
    /// The desk offers a row that needs a build.
    Offer(Key),
    /// The desk takes an offer back.
    Withdraw(Key),
    /// The builder claims an offered row.
    Claim(BuilderNo, Key),
    /// The desk journals a claim.
    Note(Key),
    /// The desk journals a command on these keys.
    Commit(Kind, KeyList),
    /// The desk undoes an entry.
    Undo(EntryNo),
    /// The builder ends the build that it holds.
    Finish(BuilderNo, Outcome),
    /// The desk journals how a build ended.
    Settle(Key),
    /// The builder lets go of a build that it ended and the desk settled.
    Release(BuilderNo),
    /// The archive has a row's build: it is installed, and offered from now on.
    Arrive(Key),
    /// The desk frees each waiting row whose relation the offers meet.
    Sweep,
}

/// Why a step is refused.
#[derive(Debug, PartialEq, Eq, Drop)]
pub enum Refusal {
    /// The key has no row. A commit names the first of its keys that has none.
    NoSuchRow(Option<Key>),
    /// The row is offered already, or a builder has it.
    NotClosed,
    /// The row's state isn't Needs-Build.
    NotQueued,
    /// The row isn't offered.
    NotOpen,
    /// No builder has the number.
    NoSuchBuilder,
    /// The builder has a build in hand.
    NotFree,
    /// No claim of the row waits for its note.
    NotHeld,
    /// The kind, or the entry, is no command.
    NotACommand,
    /// The keys don't strictly rise, or there are none.
    NoKeys,
    /// The kind doesn't apply on the row of this key, the first for which that is so.
    DoesNotApply(Key),
    /// The row of this key is offered or claimed, the first for which that is so; of an undo, some
    /// row is.
    NotPinned(Option<Key>),
    /// No entry has the number.
    NoSuchEntry,
    /// The entry is undone already.
    AlreadyUndone,
    /// The latest standing entry that touches the one to be undone.
    Blocked(EntryNo),
    /// The builder holds no row.
    NothingHeld,
    /// The builder's claim isn't journalled yet.
    NotNoted,
    /// The row's build didn't end.
    NotDone,
    /// The builder ended no build.
    NotFinished,
    /// How the build ended isn't journalled yet.
    NotSettled,
    /// Memory ran out.
    NoMemory,
}

/// What a step answers.
#[derive(PartialEq, Eq, Drop)]
pub enum Answer {
    Done,
    /// The entry was journalled under the number.
    Entry(EntryNo),
    /// The entry with the number was undone.
    Undone(EntryNo),
    /// A sweep freed no row.
    Nothing,
    Refused(Refusal),
}
