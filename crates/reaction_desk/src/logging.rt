//! Events of a machine whose log is kept.
ghost use Rattle.std.specs.Prelude.{◌≡◌, ◌⊎◌, ◌+◌, ◌<◌, ◌≤◌, ◌^◌, ◌++◌, [], length, IfOk, OnOk, OnErr};
ghost use Rattle.std.specs.Prelude.{vec_len, vec_capacity};
ghost use Rattle.reaction_run.specs.declared.event.Event.TheVariants.{React, Pump, Reset};
ghost use Rattle.reaction_run.specs.Reacting.{InputsFit};
ghost use Rattle.reaction_desk.specs.Adding.{IsAdded};
ghost use Rattle.notify_inbox.specs.declared.limits.TheConstants.{INBOX_PLACES};

use crate::logged::Logged;
use exec_instance::answer::{Answer, Answers};
use hh_base::value::NoMemory;
use reaction_run::event::{Input, copy_answers};
use reaction_run::log::Log;
use reaction_run::reactor::Reactor;
use reaction_run::reply::Reply;
use std::alloc::Global;

/// The most answers that are left at the end beside those that wait in the machine: 4,096 that were taken, and
/// 4,096 that the inbox holds.
const ROOM: usize = 8192;

/// Copies of the answers that are to be taken, and room for them behind those that wait.
fn copies_of(
    alloc: Global,
    pending: &mut Vec<Answer>,
    took: &Answers,
) -> Result<Vec<Answer>, NoMemory>
    requires { length took.now ≤ INBOX_PLACES }
    ensures same { pending.new.items ≡ pending.old.items }
    ensures more { vec_capacity pending.old ≤ vec_capacity pending.new }
    ensures copies { IfOk result (λ copies. copies.items ≡ took.now) }
    ensures room { IfOk result (λ copies.
        vec_len pending.new + length took.now + 8192 ≤ vec_capacity pending.new) }
{
    let copies = copy_answers(alloc, took)?;
    pending.reserve(took.len() + ROOM)?;
    Ok(copies.into_vec())
}

/// The answers that wait in the machine, after it tried all of them or took more.
fn keep_pending<M: Reactor>(machine: &M, pending: &mut Vec<Answer>, copies: &mut Vec<Answer>)
    requires waits { ((M.state machine.now).pending ≡ [])
        ⊎ ((M.state machine.now).pending ≡ pending.old.items ++ copies.old.items) }
    requires room { vec_len pending.old + length copies.old.items + 8192 ≤ vec_capacity pending.old }
    ensures copied { pending.new.items ≡ (M.state machine.now).pending }
    ensures room { vec_len pending.new + 8192 ≤ vec_capacity pending.new }
{
    if machine.left().is_empty() {
        pending.clear();
    } else if pending.append(copies).is_err() {
        unreachable!()
    }
}

/// A log of 2^60 entries is more than memory holds.
fn check_room(log: &Log) -> Result<(), NoMemory>
    ensures { OnOk result (length log.now < 2 ^ 60) }
{
    if log.entries().len() < 1 << 60 {
        Ok(())
    } else {
        Err(NoMemory)
    }
}

impl<M: Reactor> Logged<M> {
    /// Reacts to the inputs with these answers. After want of memory the log and the answers are as before.
    pub fn react(
        &mut self,
        alloc: Global,
        inputs: &[Input],
        took: &mut Answers,
    ) -> Result<Reply, NoMemory>
        requires fits { InputsFit (M.signals self.old.first.value) inputs.now }
        requires few { length took.old ≤ INBOX_PLACES }
        ensures first { self.new.first ≡ self.old.first }
        ensures added { IfOk result (IsAdded self.old.log self.new.log (React inputs.now took.old)) }
        ensures took { OnOk result (took.new ≡ []) }
        ensures same { OnErr result ((self.new.log ≡ self.old.log) × (took.new ≡ took.old)) }
    {
        check_room(&self.log)?;
        let mut copies = copies_of(alloc, &mut self.pending, took)?;
        let reply = self.machine.react(alloc, inputs, took, &mut self.log)?;
        keep_pending(&self.machine, &mut self.pending, &mut copies);
        Ok(reply)
    }

    /// Reacts without inputs, where answers wait or these are taken. Else the machine is idle. After want of
    /// memory the log and the answers are as before.
    pub fn pump(&mut self, alloc: Global, took: &mut Answers) -> Result<Reply, NoMemory>
        requires few { length took.old ≤ INBOX_PLACES }
        ensures first { self.new.first ≡ self.old.first }
        ensures added { IfOk result (IsAdded self.old.log self.new.log (Pump took.old)) }
        ensures took { OnOk result (took.new ≡ []) }
        ensures same { OnErr result ((self.new.log ≡ self.old.log) × (took.new ≡ took.old)) }
    {
        check_room(&self.log)?;
        let mut copies = copies_of(alloc, &mut self.pending, took)?;
        let reply = self.machine.pump(alloc, took, &mut self.log)?;
        keep_pending(&self.machine, &mut self.pending, &mut copies);
        Ok(reply)
    }

    /// Puts the program back to its start. After want of memory the log is as before.
    pub fn reset(&mut self, alloc: Global) -> Result<Reply, NoMemory>
        ensures first { self.new.first ≡ self.old.first }
        ensures added { IfOk result (IsAdded self.old.log self.new.log Reset) }
        ensures same { OnErr result (self.new.log ≡ self.old.log) }
    {
        check_room(&self.log)?;
        self.machine.reset(alloc, &mut self.log)
    }
}
