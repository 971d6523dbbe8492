//! Threads that add to one tally, a turn for each addition.
ghost use Rattle.std.specs.Prelude.{◌≡◌, ◌≤◌, ◌+◌, ◌*◌, length, All, MatchResult, IfOk, IfSome};
ghost use Rattle.turn_cell.specs.Calls.{view, IsSeatOf};
ghost use Rattle.turn_tests.specs.Added.{IsAdded};

use crate::tally::Tally;
use hh_base::value::NoMemory;
use std::alloc::Global;
use std::sync::Wait;
use std::thread::{Threads, join};
use turn_cell::cell::TurnCell;
use turn_cell::seat::Seat;
use turn_cell::storied::{Storied, TurnJob};

impl Storied for Tally {
    type Entry = u64;

    type Start = ();

    ghost story = { λ t. t.added.items };

    ghost begins = { λ _. tt };
}

/// Adds a number, unless there is no room for it.
#[derive(Drop)]
pub struct Add {
    pub number: u64,
}

impl TurnJob<Tally> for Add {
    type Out = Result<u64, NoMemory>;

    ghost asks = { λ job b. Unit {0} };

    ghost does = { λ job b xs ys out. MatchResult out (λ n. IsAdded job.number xs ys n) (λ _. ys ≡ xs) };

    fn run(self, value: &mut Tally) -> Result<u64, NoMemory> {
        let Some(total) = value.total.checked_add(self.number) else {
            return Err(NoMemory);
        };
        value.added.push(self.number)?;
        value.total = total;
        Ok(total)
    }
}

/// Seats that were split off, at most this many.
pub fn split_off(
    alloc: Global,
    cell: &TurnCell<Tally>,
    seat: &mut Seat<Tally>,
    most: u32,
) -> Result<Vec<Seat<Tally>>, NoMemory>
    requires { IsSeatOf cell.now seat.old }
    ensures own { IsSeatOf cell.now seat.new }
    ensures others { IfOk result (λ others. All (λ s. IsSeatOf cell.now s) others.items) }
{
    let mut others = Vec::new(alloc);
    for _ in 0..most {
        match cell.split(seat) {
            Some(other) => others.push(other)?,
            None => return Ok(others),
        }
    }
    Ok(others)
}

/// Joins other seats.
pub fn join_all(cell: &TurnCell<Tally>, seat: &mut Seat<Tally>, others: &mut Vec<Seat<Tally>>)
    requires own { IsSeatOf cell.now seat.old }
    requires others { All (λ s. IsSeatOf cell.now s) others.old.items }
    ensures own { IsSeatOf cell.now seat.new }
{
    while let Some(other) = others.pop() {
        cell.join(seat, other);
    }
}

fn add_often<R: Wait>(
    rt: &R,
    cell: &TurnCell<Tally>,
    mut seat: Seat<Tally>,
    number: u64,
    times: u32,
) -> Seat<Tally>
    requires { IsSeatOf cell.now seat }
    ensures own { IsSeatOf cell.now result }
    ensures turns { (view result).spent ≤ (view seat).spent + times }
{
    for _ in 0..times {
        let _ = cell.with_turn(rt, &mut seat, Add { number });
    }
    seat
}

/// The tally, after two threads have each added a number so often, as far as there was room. None where
/// there was no memory for the cell.
pub fn add_by_two<R: Threads + Wait + Sync>(
    rt: &R,
    alloc: Global,
    numbers: (u64, u64),
    times: u32,
) -> Option<Tally>
    ensures { IfSome result (λ t. length t.added.items ≤ 2 * times) }
{
    let (cell, mut first) = TurnCell::new(alloc, Tally::new(alloc)).ok()?;
    let second = cell.split(&mut first)?;
    let (one, two) = numbers;
    let (mut first, second) = join(
        rt,
        || add_often(rt, &cell, first, one, times),
        || add_often(rt, &cell, second, two, times),
    );
    cell.join(&mut first, second);
    cell.close(first).ok()
}
