//! One line of a scenario.

ghost use Rattle.std.specs.Prelude.{◌≡◌, ◌+◌, ◌++◌, ◌∷◌, [], ◌<◌, ◌≤◌, ◌^◌, All, IfOk, OnOk, length};
ghost use Rattle.host_hooks.specs.Allowed.{IsCovered};
ghost use Rattle.host_hooks.specs.Stored.{promises_of};
ghost use Rattle.exec_instance.specs.Running.{holder};
ghost use Rattle.scenario_print.specs.Print.{printed_from};
ghost use Rattle.scenario_play.specs.Plays.{LineFits, Works};
ghost use Rattle.scenario_play.specs.Playing.{LineDone, number_behind, told_in};

use exec_instance::answer::{Answer, Answers};
use hh_base::value::NoMemory;
use hh_term::program::{BodyDecl, SignalDecl};
use host_hooks::call::call;
use host_hooks::table::HookTable;
use reaction_run::log::Log;
use reaction_run::reactor::Reactor;
use scenario_lines::line::Line;
use scenario_print::print::print_entry;
use std::alloc::Global;

/// Posts an answer of the instance's body, where the instance runs.
fn work<R: Reactor>(
    alloc: Global,
    machine: &R,
    hooks: &HookTable,
    bodies: &[BodyDecl],
    id: u64,
    posts: &mut Answers,
) -> Result<(), NoMemory>
    requires { All (IsCovered (promises_of hooks.now)) bodies.now }
    ensures { OnOk result (Works (promises_of hooks.now) bodies.now
        (holder (R.state machine.now).running id) posts.old posts.new) }
{
    match machine.running_with(id) {
        Some(instance) => posts.push(call(alloc, hooks, bodies, instance)?),
        None => Ok(()),
    }
}

/// Posts an answer.
fn notify(alloc: Global, answer: &Answer, posts: &mut Answers) -> Result<(), NoMemory>
    ensures { OnOk result (posts.new ≡ posts.old ++ answer.now ∷ []) }
{
    posts.push(answer.copy(alloc)?)
}

/// Does what a line says. Its event and the reply to it are the log's one entry then, if it gives one.
pub fn do_line<R: Reactor>(
    alloc: Global,
    machine: &mut R,
    hooks: &HookTable,
    bodies: &[BodyDecl],
    line: &Line,
    posts: &mut Answers,
    log: &mut Log,
) -> Result<(), NoMemory>
    requires covered { All (IsCovered (promises_of hooks.now)) bodies.now }
    requires fits { LineFits (R.signals machine.old) line.now }
    requires log { log.old ≡ [] }
    ensures done { OnOk result (LineDone R.machine (promises_of hooks.now) bodies.now (R.state machine.old)
        (R.state machine.new) posts.old posts.new line.now log.new) }
    ensures signals { R.signals machine.new ≡ R.signals machine.old }
{
    match line {
        Line::React(inputs) => {
            machine.react(alloc, inputs.as_slice(), posts, log)?;
            Ok(())
        }
        Line::Work(id) => work(alloc, machine, hooks, bodies, *id, posts),
        Line::Notify(answer) => notify(alloc, answer, posts),
        Line::Reset => {
            machine.reset(alloc, log)?;
            Ok(())
        }
        Line::Settle => Ok(()),
    }
}

/// Adds the lines of all entries, where `number` is that of the next accepted reaction, and answers the
/// number of the one after them.
pub fn print_log(
    log: &Log,
    number: u64,
    signals: &[SignalDecl],
    bodies: &[BodyDecl],
    out: &mut Vec<u8>,
) -> Result<u64, NoMemory>
    requires { number + length log.now < 2 ^ 63 }
    ensures lines { OnOk result (out.new.items ≡ out.old.items ++ printed_from signals.now bodies.now number
        (told_in log.now)) }
    ensures next { IfOk result (λ n. n ≡ number_behind number (told_in log.now)) }
{
    let mut next = number;
    for entry in log.entries() {
        next = print_entry(entry, next, signals, bodies, out)?;
    }
    Ok(next)
}
