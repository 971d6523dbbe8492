//! The lines of a scenario, one after the other.

ghost use Rattle.std.specs.Prelude.{◌≡◌, ◌+◌, ◌<◌, ◌≤◌, ◌^◌, [], All, IfOk, IfErr, OnOk, length};
ghost use Rattle.host_hooks.specs.Allowed.{IsCovered};
ghost use Rattle.host_hooks.specs.Stored.{promises_of};
ghost use Rattle.scenario_play.specs.Plays.{CutsPlay, LineFits, WritesPlay};
ghost use Rattle.scenario_play.specs.Playing.{CutsLine, LineAdds, LinePlayed};

use crate::line::{do_line, print_log};
use exec_instance::answer::Answers;
use hh_base::value::NoMemory;
use hh_io::fault::SinkFault;
use hh_io::sink::{Sink, put_all, put_waiting};
use hh_term::program::BodyDecl;
use host_hooks::table::HookTable;
use reaction_run::log::Log;
use reaction_run::reactor::Reactor;
use scenario_lines::line::Line;
use std::alloc::Global;

/// What a play carries from line to line: the answers that are posted, the number of the next accepted
/// reaction, and the text that waits to be written.
#[derive(Drop)]
struct Turn {
    posts: Answers,
    number: u64,
    out: Vec<u8>,
}

/// Does what a line says, and adds the text of the reply to its event, if it gives one.
fn add_line<R: Reactor>(
    alloc: Global,
    machine: &mut R,
    hooks: &HookTable,
    bodies: &[BodyDecl],
    line: &Line,
    turn: &mut Turn,
) -> Result<(), NoMemory>
    requires covered { All (IsCovered (promises_of hooks.now)) bodies.now }
    requires fits { LineFits (R.signals machine.old) line.now }
    requires number { turn.old.number < 2 ^ 62 }
    ensures adds { OnOk result (LineAdds R.machine (promises_of hooks.now) bodies.now (R.signals machine.old)
        (R.state machine.old) (R.state machine.new) line.now turn.old turn.new) }
    ensures counts { OnOk result (turn.new.number ≤ turn.old.number + 1) }
    ensures signals { R.signals machine.new ≡ R.signals machine.old }
{
    let mut log = Log::new(alloc);
    do_line(
        alloc,
        machine,
        hooks,
        bodies,
        line,
        &mut turn.posts,
        &mut log,
    )?;
    turn.number = print_log(
        &log,
        turn.number,
        machine.interface(),
        bodies,
        &mut turn.out,
    )?;
    Ok(())
}

/// Does what a line says, and writes the text that waits once there is much of it.
fn go_on<R: Reactor, K: Sink>(
    alloc: Global,
    machine: &mut R,
    hooks: &HookTable,
    bodies: &[BodyDecl],
    line: &Line,
    turn: &mut Turn,
    sink: &mut K,
) -> Result<(), SinkFault>
    requires covered { All (IsCovered (promises_of hooks.now)) bodies.now }
    requires fits { LineFits (R.signals machine.old) line.now }
    requires number { turn.old.number < 2 ^ 62 }
    ensures plays { OnOk result (LinePlayed R.machine (promises_of hooks.now) bodies.now
        (R.signals machine.old) (R.state machine.old) (R.state machine.new) line.now turn.old turn.new
        (K.state sink.old) (K.state sink.new)) }
    ensures cut_off { IfErr result (CutsLine R.machine (promises_of hooks.now) bodies.now
        (R.signals machine.old) (R.state machine.old) line.now turn.old (K.state sink.old) (K.state sink.new)) }
    ensures counts { OnOk result (turn.new.number ≤ turn.old.number + 1) }
    ensures signals { R.signals machine.new ≡ R.signals machine.old }
{
    let Ok(()) = add_line(alloc, machine, hooks, bodies, line, turn) else {
        return Err(SinkFault::NoMemory);
    };
    put_waiting(sink, &mut turn.out)
}

/// Plays the lines of a scenario on a machine, and writes the print of its replies as they come: between two
/// lines less than `WAITING_LIMIT` bytes of it wait. The bodies are those of the machine's program.
pub fn play_lines<R: Reactor, K: Sink>(
    alloc: Global,
    machine: &mut R,
    hooks: &HookTable,
    bodies: &[BodyDecl],
    lines: &[Line],
    sink: &mut K,
) -> Result<(), SinkFault>
    requires covered { All (IsCovered (promises_of hooks.now)) bodies.now }
    requires fit { All (LineFits (R.signals machine.old)) lines.now }
    requires few { length lines.now < 2 ^ 61 }
    ensures written { OnOk result (WritesPlay R.machine (promises_of hooks.now) bodies.now
        (R.signals machine.old) (R.state machine.old) lines.now (K.state sink.old) (K.state sink.new)) }
    ensures cut_off { IfErr result (CutsPlay R.machine (promises_of hooks.now) bodies.now
        (R.signals machine.old) (R.state machine.old) lines.now (K.state sink.old) (K.state sink.new)) }
{
    let mut turn = Turn {
        posts: Answers::new(alloc),
        number: 1,
        out: Vec::new(alloc),
    };
    for line in lines {
        go_on(alloc, machine, hooks, bodies, line, &mut turn, sink)?;
    }
    put_all(sink, &turn.out)
}
