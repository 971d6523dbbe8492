//! What is done with a cell.
ghost use Rattle.std.specs.Prelude.{◌≡◌, ◌↔◌, ◌⊎◌, ℕ, [], length, ◌<◌, ◌≤◌, ◌+◌, ◌^◌, Some, IfOk, IfErr};
ghost use Rattle.std.specs.Prelude.{IfSome, IfNone};
ghost use Rattle.turn_cell.specs.Lists.{Begins, RisesTo, Among};
ghost use Rattle.turn_cell.specs.Views.{first_view, kept_half, given_half, joined};
ghost use Rattle.turn_cell.specs.Calls.{view, IsSeatOf, StartIs, TookTurn, EndsWith};

use crate::cell::TurnCell;
use crate::seat::Seat;
use crate::steps::{ClearNote, Halve, Unite};
use crate::storied::{Storied, TurnJob};
use crate::turn::SERVING;
use atomic_table::Table;
use hh_base::value::NoMemory;
use std::alloc::Global;
use std::snapshot::Snapshot;
use std::sync::Wait;

/// The turns of one cell.
const ALL_TURNS: u64 = 1 << 63;

/// The seat has no turn left. The job comes back.
#[derive(Drop)]
pub struct Spent<J>(pub J);

/// Another seat was not joined. The cell and the seat come back.
#[derive(Drop)]
pub struct Apart<T: Storied> {
    pub cell: TurnCell<T>,
    pub seat: Seat<T>,
}

impl<T: Storied + Drop> TurnCell<T> {
    /// A cell with a value whose history is empty, and its first seat, which has 2^63 turns.
    pub fn new(alloc: Global, value: T) -> Result<(TurnCell<T>, Seat<T>), NoMemory>
        requires { T.story value ≡ [] }
        ensures own { IfOk result (λ r. IsSeatOf r.0 r.1) }
        ensures view { IfOk result (λ r. view r.1 ≡ first_view (T.begins value)) }
    {
        let about = Snapshot::of(&value);
        let mut slots = Vec::new(alloc);
        if slots.push(Some(value)).is_err() {
            return Err(NoMemory);
        }
        match Table::new(alloc, &[0, 0], slots, &about) {
            Ok((table, pass)) => {
                let seat = Seat {
                    pass,
                    allowance: ALL_TURNS,
                    spent: 0,
                };
                Ok((TurnCell { table }, seat))
            }
            Err(_) => Err(NoMemory),
        }
    }

    /// Waits for a turn of the seat, and does the job in it. Spent where the seat has no turn left, and
    /// nothing was done then.
    pub fn with_turn<J: TurnJob<T>, R: Wait>(
        &self,
        rt: &R,
        seat: &mut Seat<T>,
        job: J,
    ) -> Result<J::Out, Spent<J>>
        requires own { IsSeatOf self.now seat.old }
        requires asks { StartIs (J.asks job) (view seat.old) }
        ensures own { IsSeatOf self.now seat.new }
        ensures turn { IfOk result (λ out.
            TookTurn (λ b xs ys. J.does job b xs ys out) (view seat.old) (view seat.new)) }
        ensures job { IfErr result (λ s. s.0 ≡ job) }
        ensures spent { IfErr result (λ _. (view seat.old).allowance ≡ 0) }
        ensures same { IfErr result (λ _. seat.new ≡ seat.old) }
    {
        if seat.allowance == 0 {
            return Err(Spent(job));
        }
        let out = self.take_turn(rt, &mut seat.pass, job);
        seat.allowance -= 1;
        seat.spent += 1;
        Ok(out)
    }

    /// A seat with half of the turns that are left, rounded down. It has seen what this one has seen.
    /// None where fewer than two are left.
    pub fn split(&self, seat: &mut Seat<T>) -> Option<Seat<T>>
        requires { IsSeatOf self.now seat.old }
        ensures own { IsSeatOf self.now seat.new }
        ensures other { IfSome result (λ other. IsSeatOf self.now other) }
        ensures two { IfSome result (λ _. 2 ≤ (view seat.old).allowance) }
        ensures kept { IfSome result (λ _. view seat.new ≡ kept_half (view seat.old)) }
        ensures given { IfSome result (λ other. view other ≡ given_half (view seat.old)) }
        ensures few { IfNone result ((view seat.old).allowance < 2) }
        ensures same { IfNone result (seat.new ≡ seat.old) }
    {
        if seat.allowance < 2 {
            return None;
        }
        let half = seat.allowance / 2;
        let pass = self.table.shared.split_seat::<Halve>(&mut seat.pass);
        seat.allowance -= half;
        Some(Seat {
            pass,
            allowance: half,
            spent: 0,
        })
    }

    /// Takes in another seat of this cell, with its turns and places. What both had seen begins what the
    /// seat has seen now, and it has the places of both, each once.
    pub fn join(&self, seat: &mut Seat<T>, other: Seat<T>)
        requires own { IsSeatOf self.now seat.old }
        requires other { IsSeatOf self.now other }
        ensures own { IsSeatOf self.now seat.new }
        ensures joined { view seat.new ≡ joined (view seat.old) (view other) }
        ensures seen { Begins (view seat.old).seen (view seat.new).seen }
        ensures other_seen { Begins (view other).seen (view seat.new).seen }
        ensures places { (p : ℕ) → Among p (view seat.new).mine
            ↔ (Among p (view seat.old).mine ⊎ Among p (view other).mine) }
        ensures once { RisesTo 0 (view seat.new).mine (length (view seat.new).seen) }
    {
        let Seat {
            pass,
            allowance,
            spent,
        } = other;
        self.table.shared.join_seat::<Unite>(&mut seat.pass, pass);
        self.table.shared.load::<ClearNote>(&mut seat.pass, SERVING);
        seat.allowance += allowance;
        seat.spent += spent;
    }

    /// The value, where the seat has the turns of all seats. Else another seat was not joined.
    pub fn close(self, seat: Seat<T>) -> Result<T, Apart<T>>
        requires { IsSeatOf self seat }
        ensures end { IfOk result (λ value. EndsWith (view seat) (T.begins value) (T.story value)) }
        ensures cell { IfErr result (λ apart. apart.cell ≡ self) }
        ensures seat { IfErr result (λ apart. apart.seat ≡ seat) }
        ensures fewer { IfErr result (λ _. (view seat).allowance + (view seat).spent < 2 ^ 63) }
    {
        if seat.allowance + seat.spent < ALL_TURNS {
            return Err(Apart { cell: self, seat });
        }
        let TurnCell { table } = self;
        let Seat {
            pass,
            allowance: _,
            spent: _,
        } = seat;
        let mut closed = table.close_with(pass);
        let slot = closed.take(0);
        closed.free();
        match slot {
            Some(value) => Ok(value),
            None => unreachable!(),
        }
    }
}
