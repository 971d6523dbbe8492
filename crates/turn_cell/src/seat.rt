//! Seats, with which threads take turns.
ghost use Rattle.std.specs.Prelude.{◌≡◌, ◌≤◌, ◌+◌, ◌^◌};
ghost use Rattle.turn_cell.specs.Steps.{unrest};

use crate::storied::Storied;
use crate::view::SeatView;

/// The seat at the table beneath. It takes no bytes.
pub(crate) type Pass<T> = atomic_table::Seat<
    Option<T>,
    SeatView<<T as Storied>::Entry, <T as Storied>::Start>,
>;

/// A seat of one cell, with the turns that are left to it and those that it spent, both together at most
/// 2^63. It is at rest between two calls.
#[derive(Drop)]
pub struct Seat<T: Storied> {
    pub(crate) pass: atomic_table::Seat<Option<T>, SeatView<T::Entry, T::Start>>,
    pub(crate) allowance: u64,
    pub(crate) spent: u64,
    ghost rests: { unrest pass.me ≡ 0 },
    ghost left: { pass.me.0.allowance ≡ allowance },
    ghost used: { pass.me.0.spent ≡ spent },
    ghost within: { allowance + spent ≤ 2 ^ 63 },
}

impl<T: Storied> Seat<T> {
    ghost use Rattle.turn_cell.specs.Calls.{view};

    /// How many turns are left.
    pub fn allowance(&self) -> u64
        ensures { result ≡ (view self.now).allowance }
    {
        self.allowance
    }

    /// How many turns were spent.
    pub fn spent(&self) -> u64
        ensures { result ≡ (view self.now).spent }
    {
        self.spent
    }
}
