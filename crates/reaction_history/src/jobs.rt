//! What is done at the desk in a turn.
ghost use Rattle.std.specs.Prelude.{◌≡◌, IfOk};
ghost use Rattle.reaction_run.specs.declared.event.Event.TheVariants.{React, Pump, Reset};
ghost use Rattle.reaction_run.specs.Reacting.{InputsFit, is_settled};
ghost use Rattle.reaction_desk.specs.Unsettled.{unsettled_ids};
ghost use Rattle.reaction_desk.specs.Desks.{TakesFrom};
ghost use Rattle.reaction_history.specs.Jobs.{AddedOne, LookedAt};

use hh_base::value::NoMemory;
use notify_inbox::passes::Inbox;
use reaction_desk::desk::Desk;
use reaction_run::event::Input;
use reaction_run::reactor::Reactor;
use reaction_run::reply::Reply;
use std::alloc::Global;
use std::sync::Wait;
use turn_cell::storied::TurnJob;

#[derive(Drop)]
pub(crate) struct ReactJob<'a, R: Wait> {
    pub(crate) rt: &'a R,
    pub(crate) alloc: Global,
    pub(crate) inbox: &'a Inbox,
    pub(crate) inputs: &'a [Input],
}

impl<'a, M: Reactor, R: Wait> TurnJob<Desk<M>> for ReactJob<'a, R> {
    type Out = Result<Reply, NoMemory>;

    ghost asks = { λ job b. TakesFrom job.inbox.now b.pass × InputsFit (M.signals b.machine) job.inputs.now };

    ghost does = { λ job b xs ys out. AddedOne M.machine (M.state b.machine) (React job.inputs.now) xs ys out };

    fn run(self, value: &mut Desk<M>) -> Result<Reply, NoMemory> {
        value.react(self.rt, self.alloc, self.inbox, self.inputs)
    }
}

#[derive(Drop)]
pub(crate) struct PumpJob<'a, R: Wait> {
    pub(crate) rt: &'a R,
    pub(crate) alloc: Global,
    pub(crate) inbox: &'a Inbox,
}

impl<'a, M: Reactor, R: Wait> TurnJob<Desk<M>> for PumpJob<'a, R> {
    type Out = Result<Reply, NoMemory>;

    ghost asks = { λ job b. TakesFrom job.inbox.now b.pass };

    ghost does = { λ job b xs ys out. AddedOne M.machine (M.state b.machine) Pump xs ys out };

    fn run(self, value: &mut Desk<M>) -> Result<Reply, NoMemory> {
        value.pump(self.rt, self.alloc, self.inbox)
    }
}

#[derive(Drop)]
pub(crate) struct ResetJob {
    pub(crate) alloc: Global,
}

impl<M: Reactor> TurnJob<Desk<M>> for ResetJob {
    type Out = Result<Reply, NoMemory>;

    ghost asks = { λ job b. Unit {0} };

    ghost does = { λ job b xs ys out. AddedOne M.machine (M.state b.machine) (λ _. Reset) xs ys out };

    fn run(self, value: &mut Desk<M>) -> Result<Reply, NoMemory> {
        value.reset(self.alloc)
    }
}

#[derive(Drop)]
pub(crate) struct SettledJob {
    pub(crate) id: u64,
}

impl<M: Reactor> TurnJob<Desk<M>> for SettledJob {
    type Out = bool;

    ghost asks = { λ job b. Unit {0} };

    ghost does = { λ job b xs ys out. LookedAt M.machine (M.state b.machine) xs ys
        (λ s. out ≡ is_settled s job.id) };

    fn run(self, value: &mut Desk<M>) -> bool {
        value.settled(self.id)
    }
}

#[derive(Drop)]
pub(crate) struct UnsettledJob {
    pub(crate) alloc: Global,
}

impl<M: Reactor> TurnJob<Desk<M>> for UnsettledJob {
    type Out = Result<Vec<u64>, NoMemory>;

    ghost asks = { λ job b. Unit {0} };

    ghost does = { λ job b xs ys out. LookedAt M.machine (M.state b.machine) xs ys
        (λ s. IfOk out (λ ids. ids.items ≡ unsettled_ids s)) };

    fn run(self, value: &mut Desk<M>) -> Result<Vec<u64>, NoMemory> {
        value.unsettled(self.alloc)
    }
}
