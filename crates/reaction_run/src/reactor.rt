//! What reacts: a machine of the code, whatever its step is.

ghost use Rattle.std.specs.Prelude.{◌≡◌, ℕ, [], List, ◌↔◌, IsTrue, IfOk, OnOk, OnErr, slice_get, take};
ghost use Rattle.std.specs.List.{AllByRecursion};
ghost use Rattle.std.specs.Option.{option_copied};
ghost use Rattle.hh_term.specs.declared.program.SignalDecl.{SignalDecl as Declared};
ghost use Rattle.exec_instance.specs.Running.{holder};
ghost use Rattle.reaction_run.specs.declared.event.Event.TheVariants.{React, Pump, Reset};
ghost use Rattle.reaction_run.specs.Machine.{Machine, State};
ghost use Rattle.reaction_run.specs.Run.{replies, final_state};
ghost use Rattle.reaction_run.specs.Reacting.{Reacts, InputsFit, EventFits, is_settled};

use crate::event::{Event, Input, copy_answers};
use crate::log::Log;
use crate::reply::Reply;
use exec_instance::answer::Answers;
use exec_instance::instance::Instance;
use hh_base::value::NoMemory;
use hh_term::program::SignalDecl;
use std::alloc::Global;

/// A machine that takes events. What it stands for is a state of a machine of the definitions, by whose step
/// it replies. After want of memory it stands where it stood, and the log and the answers that were to be
/// taken are as they were.
pub trait Reactor {
    /// Where it stands, beside its instances and the answers that wait.
    ghost Place: { Type 0 };

    /// Its step, and what it says of its program.
    ghost machine: { Machine Place };

    ghost state: { Self → State Place };

    /// The interface signals of its program.
    ghost signals: { Self → List Declared };

    /// The interface signals of its program, in order of declaration. No call changes them.
    fn interface(&self) -> &[SignalDecl]
        ensures { result.now ≡ signals self.now };

    /// Whether each input names an `in` or `inout` signal and has its kind, and no signal stands twice. Takes
    /// no memory.
    fn fits(&self, inputs: &[Input]) -> bool
        ensures { IsTrue result ↔ InputsFit (signals self.now) inputs.now };

    /// Reacts to the inputs, with the answers that wait and those that it takes.
    fn react(
        &mut self,
        alloc: Global,
        inputs: &[Input],
        took: &mut Answers,
        log: &mut Log,
    ) -> Result<Reply, NoMemory>
        requires { InputsFit (signals self.old) inputs.now }
        ensures reacts { IfOk result (Reacts machine (state self.old) (state self.new)
            (React inputs.now took.old) log.old log.new) }
        ensures took { OnOk result (took.new ≡ []) }
        ensures err { OnErr result ((state self.new ≡ state self.old) × (took.new ≡ took.old)
            × (log.new ≡ log.old)) }
        ensures signals { signals self.new ≡ signals self.old };

    /// Reacts without inputs, where answers wait or are taken. Else it is idle.
    fn pump(&mut self, alloc: Global, took: &mut Answers, log: &mut Log) -> Result<Reply, NoMemory>
        ensures reacts { IfOk result (Reacts machine (state self.old) (state self.new)
            (Pump took.old) log.old log.new) }
        ensures took { OnOk result (took.new ≡ []) }
        ensures err { OnErr result ((state self.new ≡ state self.old) × (took.new ≡ took.old)
            × (log.new ≡ log.old)) }
        ensures signals { signals self.new ≡ signals self.old };

    /// Puts the program back to its start and kills the instances. The answers that wait and the last id
    /// stay.
    fn reset(&mut self, alloc: Global, log: &mut Log) -> Result<Reply, NoMemory>
        ensures reacts { IfOk result (Reacts machine (state self.old) (state self.new) Reset
            log.old log.new) }
        ensures err { OnErr result ((state self.new ≡ state self.old) × (log.new ≡ log.old)) }
        ensures signals { signals self.new ≡ signals self.old };

    /// The running instance at this place in the order of ids, or None past the last one. Takes no memory.
    fn running(&self, index: usize) -> Option<&Instance>
        ensures { option_copied result ≡ slice_get (state self.now).running index };

    /// The running instance with this id, or None where none runs with it. Takes no memory.
    fn running_with(&self, id: u64) -> Option<&Instance>
        ensures { option_copied result ≡ holder (state self.now).running id };

    /// Whether no instance with the id runs, its last answer has entered, or a last answer to it waits. Takes
    /// no memory.
    fn settled(&self, id: u64) -> bool
        ensures { result ≡ is_settled (state self.now) id };

    /// The answers that wait. Takes no memory.
    fn left(&self) -> &Answers
        ensures { result.now ≡ (state self.now).pending };

    /// Whether answers enter that are not the last one of their instance. Takes no memory.
    fn takes_parts(&self) -> bool
        ensures { result ≡ machine.parts (state self.now).place };
}

/// One event, whose inputs fit.
pub fn take_event<R: Reactor>(
    alloc: Global,
    machine: &mut R,
    event: &Event,
    log: &mut Log,
) -> Result<Reply, NoMemory>
    requires { EventFits (R.signals machine.old) event.now }
    ensures reacts { IfOk result (Reacts R.machine (R.state machine.old) (R.state machine.new) event.now
        log.old log.new) }
    ensures err { OnErr result ((R.state machine.new ≡ R.state machine.old) × (log.new ≡ log.old)) }
    ensures signals { R.signals machine.new ≡ R.signals machine.old }
{
    match event {
        Event::React(inputs, took) => {
            let mut took = copy_answers(alloc, took)?;
            machine.react(alloc, inputs.as_slice(), &mut took, log)
        }
        Event::Pump(took) => {
            let mut took = copy_answers(alloc, took)?;
            machine.pump(alloc, &mut took, log)
        }
        Event::Reset => machine.reset(alloc, log),
    }
}

/// Takes the events in order, whose inputs fit. After want of memory the machine has taken the first ones.
pub fn run<R: Reactor>(
    alloc: Global,
    machine: &mut R,
    events: &[Event],
) -> Result<Vec<Reply>, NoMemory>
    requires { AllByRecursion (EventFits (R.signals machine.old)) events.now }
    ensures replies { IfOk result (λ r. r.items ≡ replies R.machine (R.state machine.old) events.now) }
    ensures state { OnOk result (R.state machine.new
        ≡ final_state R.machine (R.state machine.old) events.now) }
    ensures err { OnErr result ((k : ℕ) × (R.state machine.new
        ≡ final_state R.machine (R.state machine.old) (take k events.now))) }
    ensures signals { R.signals machine.new ≡ R.signals machine.old }
{
    let mut log = Log::new(alloc);
    let mut replies = Vec::new(alloc);
    for event in events {
        let reply = take_event(alloc, machine, event, &mut log)?;
        replies.push(reply)?;
        log.clear();
    }
    Ok(replies)
}
