//! The rule of the board's table, and what each kind of step tells the seat that makes it.
use crate::views::View;
use atomic_table::{Play, Split, TableRule};

/// The rule: words and views are what a schedule of the board's steps leaves.
pub struct BoardRule;

impl TableRule<(), View, usize> for BoardRule {
    ghost use Rattle.td_board.specs.Ruled.{Ruled, first_view};

    ghost holds = { Ruled };

    ghost first = { first_view };
}

/// A new builder's seat is split off the desk's.
pub(crate) struct Seats;

impl Split<View> for Seats {
    ghost use Rattle.td_board.specs.Tells.{desk_half, builder_half};

    ghost left = { desk_half };

    ghost right = { builder_half };
}

pub(crate) struct Offer;

impl Play<(), View> for Offer {
    ghost use Rattle.td_board.specs.Tells.{OfferTells};

    ghost then = { OfferTells };
}

pub(crate) struct Withdraw;

impl Play<(), View> for Withdraw {
    ghost use Rattle.td_board.specs.Tells.{WithdrawTells};

    ghost then = { WithdrawTells };
}

pub(crate) struct Claim;

impl Play<(), View> for Claim {
    ghost use Rattle.td_board.specs.Tells.{ClaimTells};

    ghost then = { ClaimTells };
}

pub(crate) struct Note;

impl Play<(), View> for Note {
    ghost use Rattle.td_board.specs.Tells.{NoteTells};

    ghost then = { NoteTells };
}

pub(crate) struct Finish;

impl Play<(), View> for Finish {
    ghost use Rattle.td_board.specs.Tells.{FinishTells};

    ghost then = { FinishTells };
}

pub(crate) struct Settle;

impl Play<(), View> for Settle {
    ghost use Rattle.td_board.specs.Tells.{SettleTells};

    ghost then = { SettleTells };
}

pub(crate) struct Release;

impl Play<(), View> for Release {
    ghost use Rattle.td_board.specs.Tells.{ReleaseTells};

    ghost then = { ReleaseTells };
}
