//! What the desk and the builders know. Except for `Hand`, no value of these types is ever made:
//! contracts and the rule speak of them, and they cost nothing when the program runs.
use crate::outcome::OutcomeCode;
use std::collections::LinkedList;

/// What the desk knows of a row.
pub enum RowView {
    /// Not offered.
    In,
    /// Offered. A builder may have claimed it since.
    Out,
    /// The builder of this number claimed it, and the desk hasn't noted that yet.
    Seen(u64),
    /// The builder of this number has it, and the desk noted its claim.
    Known(u64),
}

/// What a builder did on a row.
pub enum Deed {
    Claim(usize),
    Finish(usize, OutcomeCode),
}

/// What a builder has in hand: a row by its number, and after the finish how its build ended.
#[derive(Clone, Copy, Debug, PartialEq, Eq)]
pub enum Hand {
    Free,
    Holding(usize),
    Finished(usize, OutcomeCode),
}

/// A step of the desk's at a row, and what became of it. An offer and a note never fail.
pub enum DeskTry {
    /// The row was offered.
    Offered(usize),
    /// The offer of the row was taken back.
    WithdrawalWon(usize),
    /// The offer of the row wasn't taken back: the builder of this number was faster.
    WithdrawalLost(usize, u64),
    /// The claim of this builder on the row was noted.
    ClaimNoted(usize, u64),
    /// The build of the row had ended with this outcome, and was settled.
    SettleDone(usize, OutcomeCode),
    /// The build of the row hadn't ended with this outcome.
    SettleEarly(usize, OutcomeCode),
}

/// A try of a builder's at a row, and what became of it.
pub enum BuilderTry {
    /// The row was open, and the builder took it.
    ClaimWon(usize),
    /// The row wasn't open.
    ClaimLost(usize),
    /// The claim was noted, and the build of the row ended with this outcome.
    FinishDone(usize, OutcomeCode),
    /// The claim wasn't noted yet.
    FinishEarly(usize, OutcomeCode),
    /// The finish of the row was settled, and the hand freed.
    ReleaseDone(usize),
    /// The finish wasn't settled yet.
    ReleaseEarly(usize),
}

/// What the desk knows.
pub struct DeskView {
    /// What it knows of each row, by the row's number.
    pub rows: LinkedList<RowView>,
    /// What it noted of each builder, in order. Builder 1 comes first.
    pub noted: LinkedList<LinkedList<Deed>>,
    /// Its steps at the rows, in order, also where nothing came of one.
    pub tried: LinkedList<DeskTry>,
}

/// What a builder knows.
pub struct BuilderView {
    /// Its number, from 1 on.
    pub number: u64,
    pub hand: Hand,
    /// What it did, in order.
    pub mine: LinkedList<Deed>,
    /// What it tried, in order, also where nothing came of it.
    pub tried: LinkedList<BuilderTry>,
}

/// What a seat knows.
pub enum View {
    Desk(DeskView),
    Builder(BuilderView),
}
