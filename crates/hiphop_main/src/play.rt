//! `hiphop play`: a module and its scenario, played.

ghost use Rattle.std.specs.Prelude.{◌≡◌, ◌⊎◌, ◌<◌, ◌≤◌, ◌^◌, ℕ, List, All, length};
ghost use Rattle.hh_term.specs.IsProgram.{interface_of};
ghost use Rattle.hh_term.specs.ProgramView.{kernel_of};
ghost use Rattle.hh_term.specs.declared.program.Program.{Program as AProgram};
ghost use Rattle.scenario_lines.specs.declared.line.Line.{Line as ALine};
ghost use Rattle.host_hooks.specs.Allowed.{IsCovered};
ghost use Rattle.host_hooks.specs.Promise.{Promise};
ghost use Rattle.host_hooks.specs.Stored.{promises_of};
ghost use Rattle.scenario_play.specs.Plays.{LineFits};
ghost use Rattle.hiphop_main.specs.Exchange.{exchange};
ghost use Rattle.hiphop_main.specs.Play.{InputPlayed, IsRefusedInput, Plays, bodies_of, cause_of, signals_of};
ghost use Rattle.hiphop_main.specs.Readiness.{IsReady};
ghost use Rattle.hiphop_main.specs.Scripts.{PlaysScript};

use crate::ending::Cause;
use crate::limits::INPUT_LIMIT;
use crate::ready::{Ready, make_ready};
use crate::refusal::refuse;
use crate::script::{Script, read_script};
use hh_base::memory::NoMemory;
use hh_io::fault::{ReadEnd, SinkFault};
use hh_io::sink::Sink;
use hh_io::source::{Source, read_all};
use host_hooks::table::HookTable;
use scenario_play::play::play_lines;
use std::alloc::Global;

fn cause_of(fault: SinkFault) -> Cause
    ensures { result ≡ cause_of fault }
{
    match fault {
        SinkFault::Failed => Cause::WriteFault,
        SinkFault::NoMemory => Cause::NoMemory,
    }
}

/// Plays what is ready, and writes its log.
fn play_ready<K: Sink>(alloc: Global, ready: &mut Ready, hooks: &HookTable, sink: &mut K) -> Cause
    requires covered { All (IsCovered (promises_of hooks.now)) ready.old.bodies.items }
    requires fit { All (LineFits (interface_of (kernel_of ready.old.machine.program))) ready.old.lines.items }
    requires few { length ready.old.lines.items < 2 ^ 61 }
    ensures { (p : AProgram) (ls : List ALine) → IsReady p ls ready.old
        → PlaysScript (promises_of hooks.now) p ls (K.state sink.old) (K.state sink.new) result }
{
    match play_lines(
        alloc,
        &mut ready.machine,
        hooks,
        &ready.bodies,
        &ready.lines,
        sink,
    ) {
        Ok(()) => Cause::Fine,
        Err(fault) => cause_of(fault),
    }
}

/// Plays a script, and writes its log.
#[tactic(auto, using(crate::proofs::Scripts::nothing_played))]
fn play_script<K: Sink>(alloc: Global, script: Script, hooks: &HookTable, sink: &mut K) -> Cause
    requires covered { All (IsCovered (promises_of hooks.now)) (bodies_of script.program) }
    requires fit { All (LineFits (signals_of script.program)) script.lines.items }
    requires few { length script.lines.items < 2 ^ 61 }
    ensures { PlaysScript (promises_of hooks.now) script.program script.lines.items (K.state sink.old)
        (K.state sink.new) result }
{
    match make_ready(alloc, script) {
        Ok(mut ready) => play_ready(alloc, &mut ready, hooks, sink),
        Err(NoMemory) => Cause::NoMemory,
    }
}

/// Writes the line of a refused input; nothing where memory ran out.
fn refuse_input<K: Sink>(alloc: Global, sink: &mut K, cause: Cause) -> Cause
    ensures { (hooks : List Promise) (input : List ℕ) →
        (cause ≡ Cause.NoMemory) ⊎ IsRefusedInput hooks input cause
        → InputPlayed hooks input (K.state sink.old) (K.state sink.new) result }
{
    match cause {
        Cause::NoMemory => Cause::NoMemory,
        _ => refuse(alloc, sink, cause),
    }
}

/// Plays an input that was read whole.
pub fn play_input<K: Sink>(alloc: Global, input: &[u8], hooks: &HookTable, sink: &mut K) -> Cause
    requires { length input.now ≤ INPUT_LIMIT }
    ensures { InputPlayed (promises_of hooks.now) input.now (K.state sink.old) (K.state sink.new) result }
{
    match read_script(alloc, input, hooks) {
        Ok(script) => play_script(alloc, script, hooks, sink),
        Err(cause) => refuse_input(alloc, sink, cause),
    }
}

/// Reads the source to its end, and plays the module and the scenario that it holds, where these hooks are
/// stored. Writes the log of the scenario, or the line of the first refusal.
pub fn play<S: Source, K: Sink>(
    alloc: Global,
    hooks: &HookTable,
    source: &mut S,
    sink: &mut K,
) -> Cause
    ensures { Plays (promises_of hooks.now)
        (exchange (S.state source.old) (S.state source.new) (K.state sink.old) (K.state sink.new)) result }
{
    match read_all(alloc, source, INPUT_LIMIT) {
        Ok(input) => play_input(alloc, &input, hooks, sink),
        Err(ReadEnd::Fault) => Cause::ReadFault,
        Err(ReadEnd::TooLong) => refuse(alloc, sink, Cause::TooLong),
        Err(ReadEnd::NoMemory) => Cause::NoMemory,
    }
}
