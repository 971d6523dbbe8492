//! The events of the machine.

ghost use Rattle.std.specs.Prelude.{◌≡◌, ◌≢◌, [], ◌↔◌, IsTrue, List, IfOk, OnOk, OnErr, slice_get};
ghost use Rattle.std.specs.Option.{option_copied};
ghost use Rattle.hh_term.specs.Pairs.{EachPair};
ghost use Rattle.hh_term.specs.IsProgram.{interface_of};
ghost use Rattle.hh_term.specs.ProgramView.{kernel_of};
ghost use Rattle.hh_term.specs.declared.program.SignalDecl.{SignalDecl as Declared};
ghost use Rattle.reaction_run.specs.declared.event.Event.TheVariants.{React, Pump, Reset};
ghost use Rattle.reaction_run.specs.declared.event.Input.{Input as AnInput};
ghost use Rattle.reaction_run.specs.Machine.{Machine, State};
ghost use Rattle.reaction_run.specs.Run.{reply_of, next_state, reply_of_reaction, after_reaction};
ghost use Rattle.reaction_run.specs.Reacting.{Reacts, InputsFit, is_settled};
ghost use Rattle.term_machine.specs.ConstructiveMachine.{constructive};
ghost use Rattle.term_machine.specs.Place.{Place as APlace};
ghost use Rattle.term_reactor.specs.Standing.{IsTurn};
ghost use Rattle.term_reactor.specs.Seen.{state_of};

use super::TermMachine;
use crate::kills::reset_at;
use crate::reaction::react_at;
use crate::stand::{Turn, interface_of};
use exec_instance::answer::Answers;
use exec_instance::instance::Instance;
use hh_base::value::NoMemory;
use hh_term::program::SignalDecl;
use reaction_run::event::{Event, Input, copy_answers, copy_inputs};
use reaction_run::interface::inputs_fit;
use reaction_run::log::{Entry, Log};
use reaction_run::lookup::{instance_with, needs_no_answer};
use reaction_run::reactor::Reactor;
use reaction_run::reply::Reply;
use std::alloc::Global;

impl TermMachine {
    /// The reaction to these inputs.
    fn turn_to(&self, alloc: Global, inputs: &[Input], took: &Answers) -> Result<Turn, NoMemory>
        requires { EachPair (λ (i : AnInput) (j : AnInput). i.signal ≢ j.signal) inputs.now }
        ensures { IfOk result (IsTurn (kernel_of self.now.program)
            (reply_of_reaction constructive (state_of self.now) inputs.now took.now)
            (after_reaction constructive (state_of self.now) inputs.now took.now)) }
    {
        react_at(alloc, &self.program, &self.kinds, &self.stand, inputs, took)
    }

    /// Adds the entry of an event and goes where it leads.
    fn take(
        &mut self,
        alloc: Global,
        event: Event,
        turn: Turn,
        log: &mut Log,
    ) -> Result<Reply, NoMemory>
        requires { IsTurn (kernel_of self.old.program) (reply_of constructive (state_of self.old) event)
            (next_state constructive (state_of self.old) event) turn }
        ensures reacts { IfOk result
            (Reacts constructive (state_of self.old) (state_of self.new) event log.old log.new) }
        ensures err { OnErr result ((state_of self.new ≡ state_of self.old) × (log.new ≡ log.old)) }
        ensures kernel { kernel_of self.new.program ≡ kernel_of self.old.program }
    {
        let Turn { reply, next } = turn;
        let told = reply.copy(alloc)?;
        log.push(Entry { event, reply })?;
        self.stand = next;
        Ok(told)
    }
}

impl Reactor for TermMachine {
    ghost Place = { APlace };

    ghost machine = { constructive };

    ghost state = { state_of };

    ghost signals = { λ m. interface_of (kernel_of m.program) };

    fn interface(&self) -> &[SignalDecl] {
        interface_of(&self.program)
    }

    fn fits(&self, inputs: &[Input]) -> bool {
        inputs_fit(interface_of(&self.program), inputs)
    }

    fn react(
        &mut self,
        alloc: Global,
        inputs: &[Input],
        took: &mut Answers,
        log: &mut Log,
    ) -> Result<Reply, NoMemory> {
        let event = Event::React(copy_inputs(alloc, inputs)?, copy_answers(alloc, took)?);
        let turn = self.turn_to(alloc, inputs, took)?;
        let reply = self.take(alloc, event, turn, log)?;
        *took = Answers::new(alloc);
        Ok(reply)
    }

    fn pump(
        &mut self,
        alloc: Global,
        took: &mut Answers,
        log: &mut Log,
    ) -> Result<Reply, NoMemory> {
        let event = Event::Pump(copy_answers(alloc, took)?);
        if took.is_empty() && self.stand.pending.is_empty() {
            log.push(Entry {
                event,
                reply: Reply::Idle,
            })?;
            return Ok(Reply::Idle);
        }
        let turn = self.turn_to(alloc, &[], took)?;
        let reply = self.take(alloc, event, turn, log)?;
        *took = Answers::new(alloc);
        Ok(reply)
    }

    fn reset(&mut self, alloc: Global, log: &mut Log) -> Result<Reply, NoMemory> {
        let turn = reset_at(alloc, &self.program, &self.stand)?;
        self.take(alloc, Event::Reset, turn, log)
    }

    fn running(&self, index: usize) -> Option<&Instance> {
        self.stand.instances.at(index)
    }

    fn running_with(&self, id: u64) -> Option<&Instance> {
        instance_with(&self.stand.instances, id)
    }

    fn settled(&self, id: u64) -> bool {
        needs_no_answer(&self.stand.instances, &self.stand.pending, id)
    }

    fn left(&self) -> &Answers {
        &self.stand.pending
    }

    fn takes_parts(&self) -> bool {
        true
    }
}
