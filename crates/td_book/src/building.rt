//! What the desk does for a builder.
ghost use Rattle.std.specs.Prelude.{◌≡◌, ◌+◌, ◌<◌, ◌≤◌, ◌∷◌, ◌++◌, [], true, Some, IfSome, IfNone};
ghost use Rattle.std.specs.Prelude.{IfOk};
ghost use Rattle.std.specs.Prelude.{length, slice_get, slice_set};
ghost use mathlib.Core.Option.{some};
ghost use lib.ListN.{get_elem?};
ghost use Rattle.td_board.specs.declared.views.RowView.TheVariants.{In, Out, Known};
ghost use Rattle.td_board.specs.declared.views.DeskTry.TheVariants.{Offered, WithdrawalWon};
ghost use Rattle.td_board.specs.declared.views.DeskTry.TheVariants.{SettleDone, SettleEarly};
ghost use Rattle.td_board.specs.declared.views.Hand.TheVariants.{Holding};
ghost use Rattle.td_rows.specs.Table.{keys_of};
ghost use Rattle.td_rows.specs.declared.key.Key.{Key as KeyValue};
ghost use Rattle.td_rows.specs.declared.row.Row.{Row as RowValue};
ghost use Rattle.td_rows.specs.States.{is_building_by};
ghost use Rattle.td_change.specs.Plans.{plan_of};
ghost use Rattle.td_core.specs.History.{rows_of, with_entry};
ghost use Rattle.td_book.specs.Seen.{seen_off};
ghost use Rattle.td_book.specs.Deeds.{code_of};
ghost use Rattle.td_book.specs.Desk.{HasOne, HasRoom, Stays};
ghost use Rattle.td_book.specs.Calls.{Claimable, LostTo};
ghost use Rattle.td_book.specs.Tries.{offers_for};
ghost use Rattle.td_book.specs.Building.{Knows, Settling, IsClosing, IsEndingAt, IsEnded};
ghost use Rattle.td_book.specs.Building.{IsUnended, ended_in, is_built_at};

use crate::inner::{Inner, is_out};
use std::alloc::{AllocError, Global};
use td_board::{Board, BuilderSeat, OutcomeCode};
use td_core::PlannedCommand;
use td_journal::{Entry, EntryNo, Keys};
use td_rows::{BuilderNo, Key, Kind, Outcome, Rows, applies};

/// Whether the row with a number is Building by the builder.
pub(crate) fn is_built(rows: &Rows, number: usize, builder: BuilderNo) -> bool
    ensures { (k : KeyValue) (row : RowValue) → slice_get rows.now number ≡ Some (k, row)
        → result ≡ is_building_by builder row.state }
{
    match rows.at(number) {
        Some((_, row)) => applies(&Kind::Outcome(builder, Outcome::Built), row),
        None => false,
    }
}

impl<'a> Inner<'a> {
    /// Takes a row back, and offers it again at once; or notes the claim of a builder that was
    /// faster.
    fn take_note(&mut self, board: &Board, row: usize, claim: Keys) -> Option<BuilderNo>
        requires board { board.now.table ≡ self.old.table }
        requires out { get_elem? self.old.view row ≡ some Out }
        requires key { Claimable self.old row claim }
        requires room { HasOne claim self.old.books }
        ensures none { IfNone result (self.new
            ≡ record self.old { tries = self.old.tries ++ WithdrawalWon row ∷ Offered row ∷ [] }) }
        ensures noted { IfSome result (λ by. LostTo by self.old self.new row claim) }
    {
        match self.take_back(board, row, claim) {
            Some((builder, _)) => Some(builder),
            None => {
                self.offer(board, row);
                None
            }
        }
    }

    /// Whether the builder has the row, as the journal knows: its claim is noted where that isn't
    /// done.
    pub fn know(&mut self, board: &Board, row: usize, builder: BuilderNo, claim: Keys) -> bool
        ghost key: { KeyValue }
        requires board { board.now.table ≡ self.old.table }
        requires at { (was : RowValue)
            × (slice_get (rows_of self.old.books.history) row ≡ Some (key, was)) }
        requires claim { claim ≡ key ∷ [] }
        requires room { HasOne claim self.old.books }
        requires rest { self.old.view ≡ seen_off [] (rows_of self.old.books.history) }
        ensures { Knows builder key result self.old self.new }
    {
        if !is_out(self.books.rows(), row) {
            return is_built(self.books.rows(), row, builder);
        }
        match self.take_note(board, row, claim) {
            Some(by) => by == builder,
            None => false,
        }
    }

    /// Settles the build of a row that a builder has, where it ended so, and journals how it
    /// ended.
    pub fn settle(
        &mut self,
        board: &Board,
        row: usize,
        code: OutcomeCode,
        planned: PlannedCommand,
    ) -> Option<EntryNo>
        ghost told: { Settling }
        requires board { board.now.table ≡ self.old.table }
        requires known { get_elem? self.old.view row ≡ some (Known told.by) }
        requires planned { planned
            ≡ plan_of (Kind.Outcome told.by told.ended) (told.key ∷ [])
            (rows_of self.old.books.history) }
        requires one { 1 ≤ told.by }
        requires code { code ≡ code_of told.ended }
        requires room { HasOne (told.key ∷ []) self.old.books }
        requires at { (was : RowValue)
            × (slice_get (rows_of self.old.books.history) row ≡ Some (told.key, was))
            × (is_building_by told.by was.state ≡ true) }
        ensures none { IfNone result (self.new
            ≡ record self.old { tries = self.old.tries ++ SettleEarly row code ∷ [] }) }
        ensures number { IfSome result (λ n. n ≡ length self.old.books.history.journal + 1) }
        ensures history { IfSome result (λ n.
            self.new.books.history
            ≡ with_entry self.old.books.history
            (record { kind = Kind.Outcome told.by told.ended; keys = told.key ∷ [] })) }
        ensures view { IfSome result (λ n. self.new.view ≡ slice_set self.old.view row In) }
        ensures tries { IfSome result (λ n.
            self.new.tries ≡ self.old.tries ++ SettleDone row code ∷ []) }
        ensures stays { Stays self.old self.new }
    {
        let _rows = self.books.rows();
        if !self.desk.settle(board, row, code) {
            return None;
        }
        self.books.commit(planned)
    }

    /// Settles the build of a row that a builder has, where it ended so, journals how it ended, and
    /// offers the row again where it needs a build.
    pub fn close(
        &mut self,
        board: &Board,
        row: usize,
        builder: BuilderNo,
        code: OutcomeCode,
        offered: &[Key],
        plan: PlannedCommand,
    ) -> Option<EntryNo>
        requires board { board.now.table ≡ self.old.table }
        requires closing { IsClosing row builder self.old.books.history offered.now plan }
        requires built { (k : KeyValue)
            → slice_get (keys_of (rows_of self.old.books.history)) row ≡ Some k
            → is_built_at (rows_of self.old.books.history) k builder ≡ true }
        requires one { 1 ≤ builder }
        requires code { code ≡ code_of (ended_in plan.kind) }
        requires room { HasOne offered.now self.old.books }
        requires rest { self.old.view ≡ seen_off [] (rows_of self.old.books.history) }
        ensures none { IfNone result (self.new
            ≡ record self.old { tries = self.old.tries ++ SettleEarly row code ∷ [] }) }
        ensures number { IfSome result (λ n. n ≡ length self.old.books.history.journal + 1) }
        ensures history { IfSome result (λ n.
            self.new.books.history
            ≡ with_entry self.old.books.history (record { kind = plan.kind; keys = offered.now })) }
        ensures rest { self.new.view ≡ seen_off [] (rows_of self.new.books.history) }
        ensures tries { IfSome result (λ n. self.new.tries ≡ self.old.tries
            ++ SettleDone row code ∷ offers_for (rows_of self.new.books.history) offered.now) }
        ensures stays { Stays self.old self.new }
    {
        let _rows = self.books.rows();
        let n = self.settle(board, row, code, plan)?;
        self.offer_each(board, offered);
        Some(n)
    }

    /// What the end of the build of a row needs in memory, with room for its entries.
    pub fn prepare(
        &mut self,
        alloc: Global,
        row: usize,
        builder: BuilderNo,
        outcome: Outcome,
    ) -> Result<Ending, AllocError>
        requires { row < length (rows_of self.old.books.history) }
        ensures history { self.new.books.history ≡ self.old.books.history }
        ensures view { self.new.view ≡ self.old.view }
        ensures tries { self.new.tries ≡ self.old.tries }
        ensures stays { Stays self.old self.new }
        ensures ending { IfOk result (IsEndingAt row builder self.new.books.history) }
        ensures kind { IfOk result (λ ending. ending.plan.kind ≡ Kind.Outcome builder outcome) }
        ensures room { IfOk result (λ ending. HasRoom ending.offered self.new.books) }
    {
        let ending = self.ending(alloc, row, builder, outcome)?;
        let room = self.reserve(ending.offered.as_slice());
        room.and(Ok(ending))
    }

    // What ends a build: the plan of its entry, and the keys that it takes, before room is made.
    fn ending(
        &self,
        alloc: Global,
        row: usize,
        builder: BuilderNo,
        outcome: Outcome,
    ) -> Result<Ending, AllocError>
        requires { row < length (rows_of self.now.books.history) }
        ensures ending { IfOk result (IsEndingAt row builder self.now.books.history) }
        ensures kind { IfOk result (λ ending. ending.plan.kind ≡ Kind.Outcome builder outcome) }
    {
        let Some((key, _)) = self.books.rows().at(row) else {
            unreachable!()
        };
        let claim = Keys::of_one(alloc, key)?;
        let offered = Keys::of_one(alloc, key)?;
        let ended = Keys::of_one(alloc, key)?;
        let kind = Kind::Outcome(builder, outcome);
        let plan = self.books.kept().plan(kind, ended)?;
        Ok(Ending {
            claim,
            offered,
            plan,
        })
    }

    /// Ends the build of the row that a builder holds: notes its claim where that isn't done,
    /// finishes, settles, and offers the row again where it needs a build. None where a word of
    /// the board wasn't the one that the hand calls for.
    pub fn finish(
        &mut self,
        board: &Board,
        seat: &mut BuilderSeat,
        row: usize,
        code: OutcomeCode,
        ending: Ending,
    ) -> Option<EntryNo>
        requires board { board.now.table ≡ self.old.table }
        requires seat { seat.old.table ≡ self.old.table }
        requires hand { seat.old.builder.hand ≡ Holding row }
        requires ending { IsEndingAt row seat.old.builder.number self.old.books.history ending }
        requires code { code ≡ code_of (ended_in ending.plan.kind) }
        requires room { HasRoom ending.offered self.old.books }
        requires rest { self.old.view ≡ seen_off [] (rows_of self.old.books.history) }
        ensures rest { self.new.view ≡ seen_off [] (rows_of self.new.books.history) }
        ensures stays { Stays self.old self.new }
        ensures table { seat.new.table ≡ seat.old.table }
        ensures some { IfSome result
            (IsEnded row (ended_in ending.plan.kind) seat.old.builder seat.new.builder self.old
            self.new) }
        ensures none { IfNone result
            (IsUnended row (ended_in ending.plan.kind) seat.old.builder seat.new.builder self.old
            self.new) }
    {
        let Ending {
            claim,
            offered,
            plan,
        } = ending;
        let _rows = self.books.rows();
        let number = seat.number();
        if !self.know(board, row, number, claim) {
            return None;
        }
        if !board.finish(seat, code) {
            return None;
        }
        self.close(board, row, number, code, offered.as_slice(), plan)
    }
}

/// What the end of a build needs in memory.
#[derive(Drop)]
pub struct Ending {
    pub claim: Keys,
    pub offered: Keys,
    pub plan: PlannedCommand,
}
