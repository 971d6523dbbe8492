//! Where the machine stands, beside its program.

ghost use Rattle.std.specs.Prelude.{◌≡◌, ◌++◌, IfOk};
ghost use Rattle.hh_term.specs.IsProgram.{interface_of};
ghost use Rattle.hh_term.specs.Kernel.{Kernel};
ghost use Rattle.hh_term.specs.ProgramView.{kernel_of};
ghost use Rattle.hh_term.specs.Reaction.{first_lasts};
ghost use Rattle.reaction_run.specs.Machine.{begin};
ghost use Rattle.status_rounds.specs.Before.{lasts_of};
ghost use Rattle.term_machine.specs.ConstructiveMachine.{constructive};
ghost use Rattle.term_machine.specs.Place.{start_of};
ghost use Rattle.term_reactor.specs.Standing.{state_at};

use exec_instance::answer::Answers;
use exec_instance::instances::Instances;
use hh_base::value::{NoMemory, Value};
use hh_term::mark::Control;
use hh_term::program::{Program, SignalDecl};
use reaction_run::event::copy_answers;
use reaction_run::reply::Reply;
use status_rounds::settle::Before;
use std::alloc::Global;

/// Where control rests, the last statuses and values of the interface, the instances that run, and the answers
/// that wait.
#[derive(Drop)]
pub struct Stand {
    pub control: Control,
    pub before: Before,
    pub instances: Instances,
    pub pending: Answers,
}

/// The reply to an event, and where the machine stands then.
#[derive(Drop)]
pub struct Turn {
    pub reply: Reply,
    pub next: Stand,
}

fn copy_before(alloc: Global, before: &Before) -> Result<Before, NoMemory>
    ensures { IfOk result (λ b. b.cells.items ≡ before.now.cells.items) }
{
    let mut cells = Vec::with_capacity(alloc, before.cells.len())?;
    for cell in &before.cells {
        cells.push((cell.0, cell.1.copy(alloc)?))?;
    }
    Ok(Before { cells })
}

/// The first statuses and values of the interface.
pub fn first_before(alloc: Global, program: &Program) -> Result<Before, NoMemory>
    ensures { IfOk result (λ b. lasts_of b.cells.items ≡ first_lasts (kernel_of program.now)) }
{
    let signals = interface_of(program);
    let mut cells = Vec::with_capacity(alloc, signals.len())?;
    for signal in signals {
        cells.push((false, signal.first.copy(alloc)?))?;
    }
    Ok(Before { cells })
}

/// The declarations of the interface.
pub fn interface_of(program: &Program) -> &[SignalDecl]
    ensures { result.now ≡ interface_of (kernel_of program.now) }
{
    &program.signals()[..program.interface_len() as usize]
}

impl Stand {
    /// A program before its first reaction, where no instance runs and nothing waits.
    pub fn at_start(alloc: Global, program: &Program, last: u64) -> Result<Stand, NoMemory>
        ensures { IfOk result (λ s. state_at (kernel_of program.now) s
            ≡ begin constructive (start_of (kernel_of program.now)) last) }
    {
        Ok(Stand {
            control: Control::Fresh,
            before: first_before(alloc, program)?,
            instances: Instances::new(alloc, last),
            pending: Answers::new(alloc),
        })
    }

    /// The same, but that these answers wait.
    pub fn with_waiting(&self, alloc: Global, waiting: Answers) -> Result<Stand, NoMemory>
        ensures { (K : Kernel) → IfOk result (λ s. state_at K s
            ≡ record (state_at K self.now) { pending = waiting }) }
    {
        Ok(Stand {
            control: self.control.copy(alloc)?,
            before: copy_before(alloc, &self.before)?,
            instances: self.instances.copy(alloc)?,
            pending: waiting,
        })
    }

    /// The answers that wait, and then these.
    pub fn waiting_with(&self, alloc: Global, took: &Answers) -> Result<Answers, NoMemory>
        ensures { IfOk result (λ a. a ≡ self.now.pending ++ took.now) }
    {
        let mut waiting = copy_answers(alloc, &self.pending)?;
        for answer in took.as_slice() {
            waiting.push(answer.copy(alloc)?)?;
        }
        Ok(waiting)
    }
}
