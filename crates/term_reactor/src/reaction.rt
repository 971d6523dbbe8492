//! One reaction from where the machine stands.

ghost use Rattle.std.specs.Prelude.{◌≡◌, ◌≢◌, ◌++◌, ◌<◌, ◌^◌, ◌&&◌, nat_lt, false, [], IfOk, List, map};
ghost use Rattle.hh_term.specs.Kernel.{Kernel};
ghost use Rattle.hh_term.specs.Pairs.{EachPair};
ghost use Rattle.hh_term.specs.ProgramView.{kernel_of};
ghost use Rattle.hh_term.specs.Reaction.{reaction};
ghost use Rattle.hh_term.specs.Views.{control_of};
ghost use Rattle.exec_instance.specs.declared.answer.Answer.{Answer as AnAnswer};
ghost use Rattle.exec_instance.specs.Effects.{effects, advanced, last_after};
ghost use Rattle.reaction_run.specs.declared.event.Input.{Input as AnInput};
ghost use Rattle.reaction_run.specs.declared.reply.Reply.TheVariants.{Done as IsDone};
ghost use Rattle.reaction_run.specs.Run.{is_worn, reply_to, state_after, outcome, reply_of_reaction};
ghost use Rattle.reaction_run.specs.Run.{after_reaction, last_limit};
ghost use Rattle.status_rounds.specs.Before.{lasts_of};
ghost use Rattle.sync_step.specs.Told.{Tells};
ghost use Rattle.term_machine.specs.ConstructiveMachine.{constructive, input_pair, body_answers, has_sites};
ghost use Rattle.term_machine.specs.Place.{control_with_queues};
ghost use Rattle.term_reactor.specs.Standing.{state_at, Keeps, IsTurn};

use crate::ending::{Ending, Finish, ending_of};
use crate::stand::{Stand, Turn};
use exec_instance::answer::Answers;
use exec_instance::effect::Effect;
use exec_instance::instances::Instances;
use hh_base::value::{Kind, NoMemory, Value};
use hh_term::mark::Marked;
use hh_term::program::Program;
use reaction_run::event::Input;
use reaction_run::reply::{Done, Reply};
use sqlite_items::Items;
use std::alloc::Global;
use sync_step::answer::StepEnd;
use sync_step::step::step;
use term_machine::queues::control_with_queues;

/// The last id that still lets a reaction run.
const LAST_LIMIT: u64 = 18_446_744_073_709_550_591;

/// Whether the program has asyncs for which too few ids are left.
fn is_worn(program: &Program, last: u64) -> bool
    ensures { result ≡ (has_sites (kernel_of program.now).sites && nat_lt last_limit last) }
{
    !program.sites().is_empty() && last > LAST_LIMIT
}

/// The inputs as pairs.
fn pairs(alloc: Global, inputs: &[Input]) -> Result<Vec<(u32, Value)>, NoMemory>
    ensures { IfOk result (λ v. v.items ≡ map input_pair inputs.now) }
{
    let mut pairs = Vec::with_capacity(alloc, inputs.len())?;
    for input in inputs {
        pairs.push((input.signal, input.value.copy(alloc)?))?;
    }
    Ok(pairs)
}

/// The step of the program where these instances run.
fn step_at(
    alloc: Global,
    program: &Program,
    stand: &Stand,
    instances: &Instances,
    inputs: &[Input],
    last: u64,
) -> Result<StepEnd, NoMemory>
    requires keeps { Keeps (state_at (kernel_of program.now) stand.now) }
    requires inputs { EachPair (λ (i : AnInput) (j : AnInput). i.signal ≢ j.signal) inputs.now }
    ensures { IfOk result (Tells (kernel_of program.now) (reaction (kernel_of program.now)
        (control_with_queues instances.now.instances (control_of stand.now.control))
        (lasts_of stand.now.before.cells.items) (map input_pair inputs.now) last)) }
{
    let control = control_with_queues(alloc, &stand.control, instances)?;
    let marked = Marked::new(program, control);
    let pairs = pairs(alloc, inputs)?;
    step(alloc, program, &marked, &stand.before, &pairs, last)
}

/// A refusal leaves everything as it was, but that these answers wait.
fn refused(alloc: Global, stand: &Stand, reply: Reply, waiting: Answers) -> Result<Turn, NoMemory>
    ensures { (K : Kernel) → IfOk result (IsTurn K reply
        (record (state_at K stand.now) { pending = waiting })) }
{
    let next = stand.with_waiting(alloc, waiting)?;
    Ok(Turn { reply, next })
}

/// A reaction that completes, where these instances run and these drops were told.
fn completed(
    alloc: Global,
    finish: Finish,
    mut instances: Instances,
    mut told: Vec<Effect>,
) -> Result<Turn, NoMemory>
    requires { last_after instances.last finish.changes.items < 2 ^ 64 }
    ensures { (K : Kernel) → IfOk result (IsTurn K
        (IsDone (record {
          outs = finish.outs;
          ended = finish.ended;
          effects = told.items ++ effects instances.last finish.changes.items instances.instances;
        }))
        (record {
          place = record {
            kernel = K;
            control = control_of finish.next;
            lasts = lasts_of finish.lasts.cells.items;
          };
          running = advanced instances.last finish.changes.items instances.instances;
          pending = [];
          last = last_after instances.last finish.changes.items;
        })) }
{
    instances.advance(alloc, &finish.changes, &mut told)?;
    let reply = Reply::Done(Done {
        outs: finish.outs,
        ended: finish.ended,
        effects: Items::from_vec(told),
    });
    let next = Stand {
        control: finish.next,
        before: finish.lasts,
        instances,
        pending: Answers::new(alloc),
    };
    Ok(Turn { reply, next })
}

/// The reaction to these inputs where the answers `waiting` are tried, of which the last ones are `took`.
fn react_with(
    alloc: Global,
    program: &Program,
    kinds: &[Kind],
    stand: &Stand,
    inputs: &[Input],
    waiting: Answers,
    last: u64,
) -> Result<Turn, NoMemory>
    requires keeps { Keeps (state_at (kernel_of program.now) stand.now) }
    requires kinds { kinds.now ≡ map body_answers (kernel_of program.now).bodies }
    requires inputs { EachPair (λ (i : AnInput) (j : AnInput). i.signal ≢ j.signal) inputs.now }
    requires last { last ≡ stand.now.instances.last }
    requires fresh { is_worn constructive (state_at (kernel_of program.now) stand.now) ≡ false }
    ensures { (took : List AnAnswer) → waiting ≡ stand.now.pending ++ took
        → IfOk result (IsTurn (kernel_of program.now)
        (reply_to constructive (state_at (kernel_of program.now) stand.now) took
        (outcome constructive (state_at (kernel_of program.now) stand.now) inputs.now took))
        (state_after constructive (state_at (kernel_of program.now) stand.now) took
        (outcome constructive (state_at (kernel_of program.now) stand.now) inputs.now took))) }
{
    let mut instances = stand.instances.copy(alloc)?;
    let mut told = Vec::new(alloc);
    instances.enter(alloc, kinds, true, &waiting, &mut told)?;
    let end = step_at(alloc, program, stand, &instances, inputs, last)?;
    match ending_of(alloc, program, end)? {
        Ending::Refused(reply) => refused(alloc, stand, reply, waiting),
        Ending::Finished(finish) => completed(alloc, finish, instances, told),
    }
}

/// The reaction to these inputs, with the answers that wait and those that are taken.
pub fn react_at(
    alloc: Global,
    program: &Program,
    kinds: &[Kind],
    stand: &Stand,
    inputs: &[Input],
    took: &Answers,
) -> Result<Turn, NoMemory>
    requires keeps { Keeps (state_at (kernel_of program.now) stand.now) }
    requires kinds { kinds.now ≡ map body_answers (kernel_of program.now).bodies }
    requires inputs { EachPair (λ (i : AnInput) (j : AnInput). i.signal ≢ j.signal) inputs.now }
    ensures { IfOk result (IsTurn (kernel_of program.now)
        (reply_of_reaction constructive (state_at (kernel_of program.now) stand.now) inputs.now took.now)
        (after_reaction constructive (state_at (kernel_of program.now) stand.now) inputs.now took.now)) }
{
    let waiting = stand.waiting_with(alloc, took)?;
    let last = stand.instances.last();
    if is_worn(program, last) {
        return refused(alloc, stand, Reply::Worn(last), waiting);
    }
    react_with(alloc, program, kinds, stand, inputs, waiting, last)
}
