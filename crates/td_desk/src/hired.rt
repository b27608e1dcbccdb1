//! Builders' seats at a named board.
ghost use Rattle.std.specs.Prelude.{◌≡◌, All, IfOk, length, map};

use crate::home::Homes;
use crate::named::Named;
use std::alloc::{AllocError, Global};
use std::marker::PhantomData;
use td_board::BuilderSeat;

/// A builder's seat at the named board.
#[derive(Drop)]
pub struct Hired<N: Named> {
    pub seat: BuilderSeat,
    of: PhantomData<N>,
    ghost at: { seat.table ≡ N.table },
}

impl<N: Named> Hired<N> {
    fn new(seat: BuilderSeat) -> Hired<N>
        requires { seat.table ≡ N.table }
        ensures { result.seat ≡ seat }
    {
        Hired {
            seat,
            of: PhantomData,
        }
    }
}

/// The seats of the desk's builders in their order, each as one at the named board, and that no
/// builder has gone home.
pub fn hire<N: Named>(
    alloc: Global,
    seats: Vec<BuilderSeat>,
) -> Result<(Vec<Hired<N>>, Homes<N>), AllocError>
    requires seats { All (λ s. s.table ≡ N.table) seats.items }
    requires all { length seats.items ≡ N.origin.builders }
    ensures hired { IfOk result (λ made. map (λ h. h.seat) made.0.items ≡ seats.items) }
    ensures none { IfOk result (λ made. made.1.count ≡ 0) }
{
    let builders = seats.len();
    let mut hired = Vec::with_capacity(alloc, builders)?;
    for seat in seats {
        hired.push(Hired::new(seat)).map_err(AllocError::from)?;
    }
    Ok((hired, Homes::none(builders as u64)))
}
