//! Turns at a shared machine, and posts to it.
ghost use Rattle.std.specs.Prelude.{◌≡◌, ◌↔◌, ◌⊎◌, ◌<◌, ◌≤◌, ℕ, IsTrue, IfOk, IfErr, OnErr, IfSome, IfNone};
ghost use Rattle.std.specs.Prelude.{MatchResult, length};
ghost use Rattle.turn_cell.specs.Lists.{Begins, RisesTo, Among};
ghost use Rattle.turn_cell.specs.Views.{kept_half, given_half, joined};
ghost use Rattle.turn_cell.specs.Calls.{view};
ghost use Rattle.notify_inbox.specs.Views.{posted};
ghost use Rattle.notify_inbox.specs.Calls.{post_view, IsPostPassOf, WasFull};
ghost use Rattle.reaction_run.specs.declared.event.Event.TheVariants.{React, Pump, Reset};
ghost use Rattle.reaction_run.specs.Reacting.{InputsFit, is_settled};
ghost use Rattle.reaction_desk.specs.Unsettled.{unsettled_ids};
ghost use Rattle.reaction_history.specs.Calls.{IsSeatOf, EndsAs, HasAdded, HasLooked};

use crate::ends::TurnEnd;
use crate::jobs::{PumpJob, ReactJob, ResetJob, SettledJob, UnsettledJob};
use crate::shared::Shared;
use exec_instance::answer::Answer;
use hh_base::value::NoMemory;
use notify_inbox::passes::{Full, PostPass};
use reaction_desk::desk::Desk;
use reaction_run::event::Input;
use reaction_run::interface::inputs_fit;
use reaction_run::reactor::Reactor;
use reaction_run::reply::Reply;
use std::alloc::Global;
use std::sync::Wait;
use turn_cell::calls::Spent;
use turn_cell::seat::Seat;

impl<M: Reactor + Drop> Shared<M> {
    /// Reacts to the inputs in a turn of the seat, with the answers that wait and those that the inbox holds.
    /// The reply is the one at its place in one legal history, which begins with all that the seat had seen.
    pub fn react<R: Wait>(
        &self,
        rt: &R,
        alloc: Global,
        seat: &mut Seat<Desk<M>>,
        inputs: &[Input],
    ) -> Result<Reply, TurnEnd>
        requires own { IsSeatOf self.now seat.old }
        requires fits { InputsFit self.now.interface.items inputs.now }
        ensures own { IsSeatOf self.now seat.new }
        ensures added { IfOk result
            (HasAdded M.state M.machine (view seat.old) (view seat.new) (React inputs.now)) }
        ensures ended { IfErr result (λ e. EndsAs e ((seat.new ≡ seat.old) × ((view seat.old).allowance ≡ 0))
            (HasLooked M.state M.machine (view seat.old) (view seat.new) (λ _. Unit {0}))) }
    {
        let inbox = &self.inbox;
        let job = ReactJob {
            rt,
            alloc,
            inbox,
            inputs,
        };
        match self.cell.with_turn(rt, seat, job) {
            Ok(Ok(reply)) => Ok(reply),
            Ok(Err(NoMemory)) => Err(TurnEnd::NoMemory),
            Err(Spent(_)) => Err(TurnEnd::Spent),
        }
    }

    /// Reacts without inputs in a turn of the seat, where answers wait or the inbox holds some. Else the
    /// machine is idle.
    pub fn pump<R: Wait>(
        &self,
        rt: &R,
        alloc: Global,
        seat: &mut Seat<Desk<M>>,
    ) -> Result<Reply, TurnEnd>
        requires own { IsSeatOf self.now seat.old }
        ensures own { IsSeatOf self.now seat.new }
        ensures added { IfOk result (HasAdded M.state M.machine (view seat.old) (view seat.new) Pump) }
        ensures ended { IfErr result (λ e. EndsAs e ((seat.new ≡ seat.old) × ((view seat.old).allowance ≡ 0))
            (HasLooked M.state M.machine (view seat.old) (view seat.new) (λ _. Unit {0}))) }
    {
        let inbox = &self.inbox;
        match self.cell.with_turn(rt, seat, PumpJob { rt, alloc, inbox }) {
            Ok(Ok(reply)) => Ok(reply),
            Ok(Err(NoMemory)) => Err(TurnEnd::NoMemory),
            Err(Spent(_)) => Err(TurnEnd::Spent),
        }
    }

    /// Puts the program back to its start in a turn of the seat.
    pub fn reset<R: Wait>(
        &self,
        rt: &R,
        alloc: Global,
        seat: &mut Seat<Desk<M>>,
    ) -> Result<Reply, TurnEnd>
        requires own { IsSeatOf self.now seat.old }
        ensures own { IsSeatOf self.now seat.new }
        ensures added { IfOk result
            (HasAdded M.state M.machine (view seat.old) (view seat.new) (λ _. Reset)) }
        ensures ended { IfErr result (λ e. EndsAs e ((seat.new ≡ seat.old) × ((view seat.old).allowance ≡ 0))
            (HasLooked M.state M.machine (view seat.old) (view seat.new) (λ _. Unit {0}))) }
    {
        match self.cell.with_turn(rt, seat, ResetJob { alloc }) {
            Ok(Ok(reply)) => Ok(reply),
            Ok(Err(NoMemory)) => Err(TurnEnd::NoMemory),
            Err(Spent(_)) => Err(TurnEnd::Spent),
        }
    }

    /// Whether the id is settled in the state to which the history leads, in a turn of the seat. Makes no
    /// entry.
    pub fn settled<R: Wait>(
        &self,
        rt: &R,
        seat: &mut Seat<Desk<M>>,
        id: u64,
    ) -> Result<bool, Spent<u64>>
        requires own { IsSeatOf self.now seat.old }
        ensures own { IsSeatOf self.now seat.new }
        ensures told { IfOk result (λ b. HasLooked M.state M.machine (view seat.old) (view seat.new)
            (λ s. b ≡ is_settled s id)) }
        ensures returned { IfErr result (λ e. e.0 ≡ id) }
        ensures same { OnErr result (seat.new ≡ seat.old) }
        ensures spent { OnErr result ((view seat.old).allowance ≡ 0) }
    {
        match self.cell.with_turn(rt, seat, SettledJob { id }) {
            Ok(settled) => Ok(settled),
            Err(Spent(_)) => Err(Spent(id)),
        }
    }

    /// The ids of the instances that run in the state to which the history leads and are not settled there, in
    /// the order of the instances, in a turn of the seat. Makes no entry.
    pub fn unsettled<R: Wait>(
        &self,
        rt: &R,
        alloc: Global,
        seat: &mut Seat<Desk<M>>,
    ) -> Result<Vec<u64>, TurnEnd>
        requires own { IsSeatOf self.now seat.old }
        ensures own { IsSeatOf self.now seat.new }
        ensures told { IfOk result (λ ids. HasLooked M.state M.machine (view seat.old) (view seat.new)
            (λ s. ids.items ≡ unsettled_ids s)) }
        ensures ended { IfErr result (λ e. EndsAs e ((seat.new ≡ seat.old) × ((view seat.old).allowance ≡ 0))
            (HasLooked M.state M.machine (view seat.old) (view seat.new) (λ _. Unit {0}))) }
    {
        match self.cell.with_turn(rt, seat, UnsettledJob { alloc }) {
            Ok(Ok(ids)) => Ok(ids),
            Ok(Err(NoMemory)) => Err(TurnEnd::NoMemory),
            Err(Spent(_)) => Err(TurnEnd::Spent),
        }
    }

    /// Posts an answer. It takes no turn, so that it waits for no reaction. Full only where the inbox held
    /// 4,096 at a moment of this call. Takes no memory.
    pub fn post<R: Wait>(&self, rt: &R, pass: &mut PostPass, answer: Answer) -> Result<(), Full>
        requires { IsPostPassOf self.now.inbox pass.old }
        ensures own { IsPostPassOf self.now.inbox pass.new }
        ensures posted { IfOk result (λ _.
            (p : ℕ) × (post_view pass.new ≡ posted (post_view pass.old) p answer)) }
        ensures returned { IfErr result (λ full. full.0 ≡ answer) }
        ensures same { OnErr result (post_view pass.new ≡ post_view pass.old) }
        ensures full { OnErr result (WasFull pass.old) }
    {
        self.inbox.post(rt, pass, answer)
    }

    /// Whether inputs fit the interface of the machine. It takes no turn, and no memory.
    pub fn fits(&self, inputs: &[Input]) -> bool
        ensures { IsTrue result ↔ InputsFit self.now.interface.items inputs.now }
    {
        inputs_fit(self.interface.as_slice(), inputs)
    }

    /// A seat with half of the turns that are left, rounded down. It has seen what this one has seen, and no
    /// place is its own. None where fewer than two are left.
    pub fn split(&self, seat: &mut Seat<Desk<M>>) -> Option<Seat<Desk<M>>>
        requires own { IsSeatOf self.now seat.old }
        ensures own { IsSeatOf self.now seat.new }
        ensures other { IfSome result (λ other. IsSeatOf self.now other) }
        ensures two { IfSome result (λ _. 2 ≤ (view seat.old).allowance) }
        ensures kept { IfSome result (λ _. view seat.new ≡ kept_half (view seat.old)) }
        ensures given { IfSome result (λ other. view other ≡ given_half (view seat.old)) }
        ensures few { IfNone result ((view seat.old).allowance < 2) }
        ensures same { IfNone result (seat.new ≡ seat.old) }
    {
        match self.cell.split(seat) {
            Some(other) => Some(other),
            None => None,
        }
    }

    /// Takes in another seat, with its turns and places. What both had seen begins what the seat has seen now,
    /// and it has the places of both, each once.
    pub fn join(&self, seat: &mut Seat<Desk<M>>, other: Seat<Desk<M>>)
        requires own { IsSeatOf self.now seat.old }
        requires other { IsSeatOf self.now other }
        ensures own { IsSeatOf self.now seat.new }
        ensures joined { view seat.new ≡ joined (view seat.old) (view other) }
        ensures seen { Begins (view seat.old).seen (view seat.new).seen }
        ensures other_seen { Begins (view other).seen (view seat.new).seen }
        ensures places { (p : ℕ) → Among p (view seat.new).mine
            ↔ (Among p (view seat.old).mine ⊎ Among p (view other).mine) }
        ensures once { RisesTo 0 (view seat.new).mine (length (view seat.new).seen) }
    {
        self.cell.join(seat, other)
    }
}
