//! What no clause can say: that calls succeed, and that of two threads exactly one wins. Expected
//! values are this project's own worked examples.
ghost use Rattle.std.specs.Prelude.{◌≡◌, ◌∷◌, [], ℕ, IfOk};
ghost use mathlib.Core.Option.{some};
ghost use lib.ListN.{get_elem?};
ghost use Rattle.td_board.specs.Knowledge.{new_desk};
ghost use Rattle.td_board.specs.declared.views.Hand.TheVariants.{Holding};
ghost use Rattle.td_board.specs.declared.views.RowView.TheVariants.{Out, Seen};

use std::alloc::Global;
use std::test::Fail;
use std::thread;
use std::thread::Threads;
use td_board::{Board, BuilderSeat, DeskSeat, Hand, MakeRefusal, OutcomeCode, Withdrawal};

#[test]
fn a_claim_beats_a_withdrawal_and_a_withdrawal_beats_a_claim(rt: HostRuntime) -> Result<(), Fail> {
    let (board, mut desk, mut seats) = Board::make(rt.alloc(), 2, 2)?;
    let (Some(mut second), Some(mut first)) = (seats.pop(), seats.pop()) else {
        return Err(Fail::from("two seats"));
    };
    board.offer(&mut desk, 0);
    let claimed = board.claim(0, &mut first);
    assert!(rt; claimed);
    assert_eq!(rt; board.withdraw(&mut desk, 0), Withdrawal::Held(1));
    board.offer(&mut desk, 1);
    assert_eq!(rt; board.withdraw(&mut desk, 1), Withdrawal::Withdrawn);
    let claimed = board.claim(1, &mut second);
    assert!(rt; !claimed);
    Ok(())
}

#[test]
fn a_builder_with_a_row_claims_no_other(rt: HostRuntime) -> Result<(), Fail> {
    let (board, mut desk, mut seats) = Board::make(rt.alloc(), 2, 1)?;
    let Some(mut seat) = seats.pop() else {
        return Err(Fail::from("a seat"));
    };
    board.offer(&mut desk, 0);
    board.offer(&mut desk, 1);
    let claimed = board.claim(0, &mut seat);
    assert!(rt; claimed);
    let claimed = board.claim(1, &mut seat);
    assert!(rt; !claimed);
    assert_eq!(rt; seat.hand(), Hand::Holding(0));
    Ok(())
}

// Whether the seats are numbered from 1 on, and have nothing in hand.
fn are_free(seats: &[BuilderSeat]) -> bool {
    for (index, seat) in seats.iter().enumerate() {
        let number = (index as u64).saturating_add(1);
        if seat.number() != number || seat.hand() != Hand::Free {
            return false;
        }
    }
    true
}

// Whether a board is made with exactly this many rows and builders, as it and its seats say.
fn is_made(alloc: Global, rows: usize, builders: usize) -> Result<bool, Fail> {
    let (board, desk, seats) = Board::make(alloc, rows, builders)?;
    let has_rows = board.rows() == rows && desk.rows() == rows;
    let has_builders = desk.builders() == builders as u64 && seats.len() == builders;
    let are_free = are_free(&seats);
    drop(seats);
    drop(desk);
    drop(board);
    Ok(has_rows && has_builders && are_free)
}

#[test]
fn a_board_keeps_to_its_limits(rt: HostRuntime) -> Result<(), Fail> {
    for &(rows, builders, refusal) in &[
        (2, 65, MakeRefusal::TooManyBuilders),
        (1_048_577, 1, MakeRefusal::TooManyRows),
        (1_048_577, 65, MakeRefusal::TooManyRows),
    ] {
        let found = Board::make(rt.alloc(), rows, builders).err();
        assert_eq!(rt; found, Some(refusal));
    }
    for &(rows, builders) in &[(0, 0), (1_048_576, 64)] {
        assert!(rt; is_made(rt.alloc(), rows, builders)?, "{rows} rows");
    }
    Ok(())
}

#[test]
fn a_refusal_says_the_limit(rt: HostRuntime) -> Result<(), Fail> {
    for &(refusal, text) in &[
        (MakeRefusal::TooManyRows, "a board has at most 1048576 rows"),
        (
            MakeRefusal::TooManyBuilders,
            "a board is made for at most 64 builders",
        ),
        (MakeRefusal::NoMemory, "out of memory"),
    ] {
        let found = format!(in rt.alloc(); "{refusal}")?;
        assert_eq!(rt; found.as_str(), text);
    }
    Ok(())
}

#[test]
fn outcomes_have_the_codes_0_to_3(rt: HostRuntime) {
    let codes = [
        OutcomeCode::Built.code(),
        OutcomeCode::Attempted.code(),
        OutcomeCode::GivenBack.code(),
        OutcomeCode::Waits.code(),
    ];
    assert_eq!(rt; codes, [0, 1, 2, 3]);
}

// A board of one row, which its one builder has claimed and the desk could not take back; and the
// two seats.
fn claimed_row(alloc: Global) -> Result<(Board, DeskSeat, BuilderSeat), Fail>
    ensures desk { IfOk result (λ made. made.1.table ≡ made.0.table) }
    ensures seat { IfOk result (λ made. made.2.table ≡ made.0.table) }
    ensures seen { IfOk result (λ made. (b : ℕ) × (made.1.desk.rows ≡ Seen b ∷ [])) }
    ensures held { IfOk result (λ made. made.2.builder.hand ≡ Holding 0) }
{
    let (board, mut desk, mut seats) = Board::make(alloc, 1, 1)?;
    let Some(mut seat) = seats.pop() else {
        return Err(Fail::from("a seat"));
    };
    board.offer(&mut desk, 0);
    if !board.claim(0, &mut seat) {
        return Err(Fail::from("it is claimed"));
    }
    let Withdrawal::Held(_) = board.withdraw(&mut desk, 0) else {
        return Err(Fail::from("it was claimed"));
    };
    Ok((board, desk, seat))
}

// Lets a board and its two seats go.
fn close(board: Board, desk: DeskSeat, seat: BuilderSeat) {
    drop(seat);
    drop(desk);
    drop(board);
}

#[test]
fn a_finish_waits_for_the_note_and_a_settling_for_the_finish(rt: HostRuntime) -> Result<(), Fail> {
    let (board, mut desk, mut seat) = claimed_row(rt.alloc())?;
    let finished = board.finish(&mut seat, OutcomeCode::Attempted);
    assert!(rt; !finished, "before the note");
    let noted = board.note(&mut desk, 0);
    assert_eq!(rt; noted, 1);
    let settled = board.settle(&mut desk, 0, OutcomeCode::Attempted);
    assert!(rt; !settled, "before the finish");
    let finished = board.finish(&mut seat, OutcomeCode::Attempted);
    assert!(rt; finished);
    let settled = board.settle(&mut desk, 0, OutcomeCode::Built);
    assert!(rt; !settled, "with another outcome");
    let settled = board.settle(&mut desk, 0, OutcomeCode::Attempted);
    assert!(rt; settled);
    close(board, desk, seat);
    Ok(())
}

#[test]
fn a_release_waits_for_the_settling(rt: HostRuntime) -> Result<(), Fail> {
    let (board, mut desk, mut seat) = claimed_row(rt.alloc())?;
    board.note(&mut desk, 0);
    let finished = board.finish(&mut seat, OutcomeCode::Waits);
    assert!(rt; finished);
    let is_finished = matches!(seat.hand(), Hand::Finished(0, OutcomeCode::Waits));
    assert!(rt; is_finished);
    let released = board.release(&mut seat);
    assert!(rt; !released, "before the settling");
    let settled = board.settle(&mut desk, 0, OutcomeCode::Waits);
    assert!(rt; settled);
    let is_finished = matches!(seat.hand(), Hand::Finished(0, OutcomeCode::Waits));
    assert!(rt; is_finished, "still");
    let released = board.release(&mut seat);
    assert!(rt; released);
    assert_eq!(rt; seat.hand(), Hand::Free);
    close(board, desk, seat);
    Ok(())
}

#[test]
fn a_claim_releases_a_settled_finish_first(rt: HostRuntime) -> Result<(), Fail> {
    let (board, mut desk, mut seat) = claimed_row(rt.alloc())?;
    board.note(&mut desk, 0);
    let finished = board.finish(&mut seat, OutcomeCode::GivenBack);
    assert!(rt; finished);
    let claimed = board.claim(0, &mut seat);
    assert!(rt; !claimed, "before the settling");
    let settled = board.settle(&mut desk, 0, OutcomeCode::GivenBack);
    assert!(rt; settled);
    let claimed = board.claim(0, &mut seat);
    assert!(rt; !claimed, "before the next offer");
    assert_eq!(rt; seat.hand(), Hand::Free);
    board.offer(&mut desk, 0);
    let claimed = board.claim(0, &mut seat);
    assert!(rt; claimed);
    assert_eq!(rt; seat.hand(), Hand::Holding(0));
    close(board, desk, seat);
    Ok(())
}

#[test]
fn a_claim_of_a_row_that_is_not_there_releases_a_settled_finish(
    rt: HostRuntime,
) -> Result<(), Fail> {
    let (board, mut desk, mut seat) = claimed_row(rt.alloc())?;
    board.note(&mut desk, 0);
    let finished = board.finish(&mut seat, OutcomeCode::Built);
    assert!(rt; finished);
    let settled = board.settle(&mut desk, 0, OutcomeCode::Built);
    assert!(rt; settled);
    let claimed = board.claim(1, &mut seat);
    assert!(rt; !claimed, "no such row");
    assert_eq!(rt; seat.hand(), Hand::Free);
    close(board, desk, seat);
    Ok(())
}

// Both seats claim the one row at once.
fn two_claims<R: Threads + Sync>(
    rt: &R,
    board: &Board,
    mut first: BuilderSeat,
    mut second: BuilderSeat,
) -> (bool, bool)
    requires one { first.table ≡ board.now.table }
    requires two { second.table ≡ board.now.table }
{
    thread::join(
        rt,
        move || board.claim(0, &mut first),
        move || board.claim(0, &mut second),
    )
}

#[test]
fn of_two_threads_that_claim_a_row_one_wins(rt: HostRuntime) -> Result<(), Fail> {
    for _ in 0..1000 {
        let (board, mut desk, mut seats) = Board::make(rt.alloc(), 1, 2)?;
        let (Some(second), Some(first)) = (seats.pop(), seats.pop()) else {
            return Err(Fail::from("two seats"));
        };
        board.offer(&mut desk, 0);
        let (one, other) = two_claims(&rt, &board, first, second);
        assert!(rt; one != other);
    }
    Ok(())
}

// The builder claims the one row while the desk takes it back: whether each did.
fn claim_and_withdrawal<R: Threads + Sync>(
    rt: &R,
    board: &Board,
    mut desk: DeskSeat,
    mut seat: BuilderSeat,
) -> (bool, bool)
    requires desk { desk.table ≡ board.now.table }
    requires seat { seat.table ≡ board.now.table }
    requires row { get_elem? desk.desk.rows 0 ≡ some Out }
{
    thread::join(
        rt,
        move || board.claim(0, &mut seat),
        move || board.withdraw(&mut desk, 0) == Withdrawal::Withdrawn,
    )
}

// Offers the one row of a new desk.
fn offer_first(board: &Board, desk: &mut DeskSeat)
    requires { desk.old ≡ record { table = board.now.table; desk = new_desk 1 1 } }
    ensures table { desk.new.table ≡ board.now.table }
    ensures row { get_elem? desk.new.desk.rows 0 ≡ some Out }
{
    board.offer(desk, 0);
}

// Whether the claim of the one row of a new board was won, and whether its withdrawal was.
fn claimed_or_withdrawn<R: Threads + Sync>(rt: &R, alloc: Global) -> Result<(bool, bool), Fail> {
    let (board, mut desk, mut seats) = Board::make(alloc, 1, 1)?;
    let Some(seat) = seats.pop() else {
        return Err(Fail::from("a seat"));
    };
    offer_first(&board, &mut desk);
    Ok(claim_and_withdrawal(rt, &board, desk, seat))
}

#[test]
fn of_a_claim_and_a_withdrawal_one_wins(rt: HostRuntime) -> Result<(), Fail> {
    for _ in 0..1000 {
        let (claimed, withdrawn) = claimed_or_withdrawn(&rt, rt.alloc())?;
        assert!(rt; claimed != withdrawn);
    }
    Ok(())
}
