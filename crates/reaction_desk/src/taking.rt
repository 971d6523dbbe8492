//! Events at a desk.
ghost use Rattle.std.specs.Prelude.{◌≡◌, ◌<◌, ◌≤◌, [], length, IfOk, OnOk, OnErr};
ghost use Rattle.reaction_run.specs.declared.event.Event.TheVariants.{React, Pump, Reset};
ghost use Rattle.reaction_run.specs.Reacting.{InputsFit};
ghost use Rattle.notify_inbox.specs.Calls.{RanDry, IsTakePassOf};
ghost use Rattle.reaction_desk.specs.Adding.{IsAdded};
ghost use Rattle.reaction_desk.specs.Taking.{TookMore, AddsEntry};
ghost use Rattle.reaction_desk.specs.Desks.{TakesFrom, opening_of, log_of, waiting_of, pass_of};
ghost use Rattle.notify_inbox.specs.declared.limits.TheConstants.{INBOX_PLACES};

use crate::desk::Desk;
use exec_instance::answer::Answers;
use hh_base::value::NoMemory;
use notify_inbox::passes::{Inbox, TakePass};
use reaction_run::event::Input;
use reaction_run::reactor::Reactor;
use reaction_run::reply::Reply;
use std::alloc::Global;
use std::mem::replace;
use std::sync::Wait;

/// Takes answers to those that wait, until these are 4,096 or the queue was found empty. After want of memory
/// nothing was taken.
fn take_more<R: Wait>(
    rt: &R,
    alloc: Global,
    inbox: &Inbox,
    pass: &mut TakePass,
    waiting: &mut Answers,
) -> Result<(), NoMemory>
    requires own { IsTakePassOf inbox.now pass.old }
    requires few { length waiting.old ≤ INBOX_PLACES }
    ensures own { IsTakePassOf inbox.now pass.new }
    ensures took { TookMore pass.old pass.new waiting.old waiting.new }
    ensures end { OnOk result (length waiting.new < INBOX_PLACES → RanDry pass.old pass.new) }
{
    let mut all = replace(waiting, Answers::new(alloc)).into_vec();
    let taken = inbox.take_all(rt, pass, &mut all);
    *waiting = Answers::from_vec(all);
    match taken {
        Ok(_) => Ok(()),
        Err(NoMemory) => Err(NoMemory),
    }
}

impl<M: Reactor> Desk<M> {
    /// Takes from the inbox, which is that of its pass, and reacts to the inputs with what waited and what was
    /// taken. Where memory runs out, what was taken waits for the next event.
    pub fn react<R: Wait>(
        &mut self,
        rt: &R,
        alloc: Global,
        inbox: &Inbox,
        inputs: &[Input],
    ) -> Result<Reply, NoMemory>
        requires inbox { TakesFrom inbox.now (opening_of self.old).pass }
        requires fits { InputsFit (M.signals (opening_of self.old).machine) inputs.now }
        ensures opening { opening_of self.new ≡ opening_of self.old }
        ensures adds { AddsEntry (React inputs.now) (log_of self.old) (log_of self.new) (waiting_of self.old)
            (waiting_of self.new) (pass_of self.old) (pass_of self.new) result }
    {
        take_more(rt, alloc, inbox, &mut self.pass, &mut self.waiting)?;
        self.logged.react(alloc, inputs, &mut self.waiting)
    }

    /// Takes from the inbox, and reacts without inputs, where answers wait or were taken. Else the machine is
    /// idle. Where memory runs out, what was taken waits for the next event.
    pub fn pump<R: Wait>(&mut self, rt: &R, alloc: Global, inbox: &Inbox) -> Result<Reply, NoMemory>
        requires inbox { TakesFrom inbox.now (opening_of self.old).pass }
        ensures opening { opening_of self.new ≡ opening_of self.old }
        ensures adds { AddsEntry Pump (log_of self.old) (log_of self.new) (waiting_of self.old)
            (waiting_of self.new) (pass_of self.old) (pass_of self.new) result }
    {
        take_more(rt, alloc, inbox, &mut self.pass, &mut self.waiting)?;
        self.logged.pump(alloc, &mut self.waiting)
    }

    /// Puts the program back to its start, and takes nothing.
    pub fn reset(&mut self, alloc: Global) -> Result<Reply, NoMemory>
        ensures opening { opening_of self.new ≡ opening_of self.old }
        ensures added { IfOk result (IsAdded (log_of self.old) (log_of self.new) Reset) }
        ensures none { OnErr result (log_of self.new ≡ log_of self.old) }
        ensures waits { waiting_of self.new ≡ waiting_of self.old }
        ensures pass { pass_of self.new ≡ pass_of self.old }
    {
        self.logged.reset(alloc)
    }
}
