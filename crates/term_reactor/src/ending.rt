//! What the answer to a reaction comes to: a refusal, or what the program did.

ghost use Rattle.std.specs.Prelude.{◌≡◌, ◌<◌, IfOk, Option, List, map};
ghost use Rattle.std.specs.List.{AllByRecursion};
ghost use Rattle.hh_term.specs.ProgramView.{kernel_of};
ghost use Rattle.hh_term.specs.Reaction.{Outcome as TermOutcome, last_of};
ghost use Rattle.hh_term.specs.Views.{control_of};
ghost use Rattle.last_walk.specs.LastWalk.{touch_of};
ghost use Rattle.status_rounds.specs.Before.{lasts_of};
ghost use Rattle.sync_step.specs.Told.{Tells, now_in};
ghost use Rattle.sync_step.specs.declared.answer.StepEnd.TheVariants as step;
ghost use Rattle.term_machine.specs.Place.{name_at, is_told, is_told_at, outputs_of, has_ended};
ghost use Rattle.term_machine.specs.Place.{body_at, kill_at, suspend_at, resume_at};
ghost use Rattle.term_machine.specs.ConstructiveMachine.{change_by, completed_by, outcome_by};
ghost use Rattle.term_reactor.specs.Ending.{Means, AreOfInterface, completed_of};

use exec_instance::change::Change;
use hh_base::name::Name;
use hh_base::text::Text;
use hh_base::value::{Dir, NoMemory, Value, Values, copy_values};
use hh_term::mark::Control;
use hh_term::program::Program;
use last_walk::touch::Touch;
use reaction_run::reply::{Names, Outputs, Reply, copy_action};
use sqlite_items::Items;
use status_rounds::settle::Before;
use std::alloc::Global;
use sync_step::answer::{SignalNow, StepEnd, Stepped};

/// A reaction that completes: the present outputs, whether the program ended with 0, what happened to each
/// instance, where control rests, and the statuses and values of the interface.
#[derive(Drop)]
pub struct Finish {
    pub outs: Outputs,
    pub ended: bool,
    pub changes: Vec<Change>,
    pub next: Control,
    pub lasts: Before,
}

/// How a reaction ends: with the reply that refuses it, or with what the program did.
#[derive(Drop)]
pub enum Ending {
    Refused(Reply),
    Finished(Finish),
}

fn name_of(alloc: Global, program: &Program, signal: u32) -> Result<Name, NoMemory>
    requires { signal < (kernel_of program.now).interface }
    ensures { IfOk result (λ n. n ≡ name_at (kernel_of program.now) signal) }
{
    match &program.signals()[signal as usize].name {
        Some(name) => Ok(name.copy(alloc)?),
        None => unreachable!(),
    }
}

fn names_of(alloc: Global, program: &Program, signals: &[u32]) -> Result<Names, NoMemory>
    requires { AllByRecursion (λ s. s < (kernel_of program.now).interface) signals.now }
    ensures { IfOk result (λ n. n ≡ map (name_at (kernel_of program.now)) signals.now) }
{
    let mut names = Vec::with_capacity(alloc, signals.len())?;
    for signal in signals {
        names.push(name_of(alloc, program, *signal)?)?;
    }
    Ok(Items::from_vec(names))
}

fn is_told(dir: Dir) -> bool
    ensures { result ≡ is_told dir }
{
    match dir {
        Dir::Output | Dir::Both => true,
        Dir::Input | Dir::Local => false,
    }
}

fn is_told_at(program: &Program, signal: u32) -> bool
    ensures { result ≡ is_told_at (kernel_of program.now) signal }
{
    match program.signals().get(signal as usize) {
        Some(signal) => is_told(signal.dir),
        None => false,
    }
}

/// The present outputs, in order of declaration.
fn outputs(alloc: Global, program: &Program, signals: &[SignalNow]) -> Result<Outputs, NoMemory>
    ensures { IfOk result (λ o. o ≡ outputs_of (kernel_of program.now) (map now_in signals.now)) }
{
    let mut outs = Vec::new(alloc);
    for signal in signals {
        if signal.status && is_told_at(program, signal.signal) {
            outs.push((signal.signal, signal.value.copy(alloc)?))?;
        }
    }
    Ok(Items::from_vec(outs))
}

/// The statuses and values of the interface, for the next reaction.
fn lasts(alloc: Global, signals: &[SignalNow]) -> Result<Before, NoMemory>
    ensures { IfOk result (λ b. lasts_of b.cells.items ≡ map last_of (map now_in signals.now)) }
{
    let mut cells = Vec::with_capacity(alloc, signals.len())?;
    for signal in signals {
        cells.push((signal.status, signal.value.copy(alloc)?))?;
    }
    Ok(Before { cells })
}

/// Whether the program completed with 0.
fn has_ended(code: Option<u16>) -> bool
    ensures { result ≡ has_ended code }
{
    match code {
        Some(0) => true,
        _ => false,
    }
}

/// What an async says of its instances: the place of its body, and its actions.
#[derive(Drop)]
struct Handlers {
    body: u32,
    kill: Option<Text>,
    suspend: Option<Text>,
    resume: Option<Text>,
}

/// What the program says of the async site at this place.
fn handlers_at(alloc: Global, program: &Program, site: u32) -> Result<Handlers, NoMemory>
    ensures { IfOk result (λ h. (h.body ≡ body_at (kernel_of program.now) site)
        × (h.kill ≡ kill_at (kernel_of program.now) site)
        × (h.suspend ≡ suspend_at (kernel_of program.now) site)
        × (h.resume ≡ resume_at (kernel_of program.now) site)) }
{
    match program.sites().get(site as usize) {
        Some(site) => Ok(Handlers {
            body: site.body,
            kill: copy_action(alloc, &site.kill)?,
            suspend: copy_action(alloc, &site.suspend)?,
            resume: copy_action(alloc, &site.resume)?,
        }),
        None => Ok(Handlers {
            body: 0,
            kill: None,
            suspend: None,
            resume: None,
        }),
    }
}

fn copy_arguments(alloc: Global, args: &Option<Values>) -> Result<Option<Values>, NoMemory>
    ensures { IfOk result (λ a. a ≡ args.now) }
{
    Ok(match args {
        Some(values) => Some(copy_values(alloc, values.as_slice())?),
        None => None,
    })
}

/// What a touch tells of its instance.
fn change_by(alloc: Global, program: &Program, touch: &Touch) -> Result<Change, NoMemory>
    ensures { IfOk result (λ c. c ≡ change_by (kernel_of program.now) (touch_of touch.now)) }
{
    let started = copy_arguments(alloc, &touch.started)?;
    let handlers = handlers_at(alloc, program, touch.site)?;
    Ok(Change {
        id: touch.id,
        body: handlers.body,
        started,
        used: touch.used,
        ended: touch.ended,
        held: touch.held,
        resumed: touch.resumed,
        runs_after: touch.runs_after,
        kill: handlers.kill,
        suspend: handlers.suspend,
        resume: handlers.resume,
    })
}

/// What the touches tell, in their order.
pub fn changes(alloc: Global, program: &Program, touches: &[Touch]) -> Result<Vec<Change>, NoMemory>
    ensures { IfOk result (λ v. v.items ≡ map (change_by (kernel_of program.now))
        (map touch_of touches.now)) }
{
    let mut changes = Vec::with_capacity(alloc, touches.len())?;
    for touch in touches {
        changes.push(change_by(alloc, program, touch)?)?;
    }
    Ok(changes)
}

/// A reaction that completes, from what the program did.
fn finished(
    alloc: Global,
    program: &Program,
    signals: &[SignalNow],
    code: Option<u16>,
    next: Control,
    touches: &[Touch],
) -> Result<Finish, NoMemory>
    ensures { IfOk result (λ f. completed_of (kernel_of program.now) f
        ≡ completed_by (kernel_of program.now) (record {
          signals = map now_in signals.now;
          code = code;
          next = control_of next;
          touches = map touch_of touches.now;
        })) }
{
    Ok(Finish {
        outs: outputs(alloc, program, signals)?,
        ended: has_ended(code),
        changes: changes(alloc, program, touches)?,
        next,
        lasts: lasts(alloc, signals)?,
    })
}

/// A step is refused by the first of a doubled signal and a fault that it tells.
fn stepped_ending(alloc: Global, program: &Program, stepped: Stepped) -> Result<Ending, NoMemory>
    ensures { IfOk result (λ e. (o : TermOutcome) → Tells (kernel_of program.now) o (step.Stepped stepped)
        → Means (kernel_of program.now) (outcome_by (kernel_of program.now) o) e) }
{
    let Stepped {
        signals,
        code,
        next,
        touches,
        multiple,
        fault,
    } = stepped;
    if let Some(name) = multiple {
        return Ok(Ending::Refused(Reply::Multiple(name)));
    }
    if let Some((at, kind)) = fault {
        return Ok(Ending::Refused(Reply::Fault(at, kind)));
    }
    let finish = finished(alloc, program, &signals, code, next, &touches)?;
    Ok(Ending::Finished(finish))
}

/// How the reaction ends that has this answer, of which what is undecided is of the interface.
pub fn ending_of(alloc: Global, program: &Program, end: StepEnd) -> Result<Ending, NoMemory>
    requires { AreOfInterface (kernel_of program.now) end }
    ensures { IfOk result (λ e. (o : TermOutcome) → Tells (kernel_of program.now) o end
        → Means (kernel_of program.now) (outcome_by (kernel_of program.now) o) e) }
{
    match end {
        StepEnd::Undecided(signals) => {
            let names = names_of(alloc, program, &signals)?;
            Ok(Ending::Refused(Reply::Causality(names)))
        }
        StepEnd::Stepped(stepped) => stepped_ending(alloc, program, stepped),
    }
}
