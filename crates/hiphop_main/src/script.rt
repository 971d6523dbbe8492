//! What an input is: a program and the lines of its scenario.

ghost use Rattle.std.specs.Prelude.{◌≡◌, ◌⊎◌, ◌<◌, ◌≤◌, ◌^◌, All, length, IfErr, IfOk, Err, Ok, MatchResult};
ghost use Rattle.hh_term.specs.ProgramView.{kernel_of};
ghost use Rattle.host_hooks.specs.Stored.{promises_of};
ghost use Rattle.scenario_lines.specs.Interface.{HasNames};
ghost use Rattle.scenario_play.specs.Plays.{LineFits};
ghost use Rattle.hiphop_main.specs.Play.{IsOnlyInput, IsRefusedInput, bodies_of, signals_of};
ghost use Rattle.hiphop_main.specs.Scripts.{Compiled, Covered, Lined};

use crate::ending::Cause;
use crate::limits::INPUT_LIMIT;
use crate::split::split;
use hh_term::program::{Program, SignalDecl};
use host_hooks::table::HookTable;
use module_compile::compile::compile;
use module_compile::fault::CompileError;
use scenario_lines::line::{Line, Mode, ScenarioFault};
use scenario_lines::read::read_scenario;
use std::alloc::Global;

/// A program and the lines of its scenario.
#[derive(Drop)]
pub struct Script {
    pub program: Program,
    pub lines: Vec<Line>,
}

fn compile_module(alloc: Global, text: &[u8]) -> Result<Program, Cause>
    requires { length text.now < 2 ^ 32 }
    ensures { Compiled text.now result }
{
    match compile(alloc, text) {
        Ok(program) => Ok(program),
        Err(CompileError::Fault(fault)) => Err(Cause::Module(fault)),
        Err(CompileError::NoMemory) => Err(Cause::NoMemory),
    }
}

/// Whether each body of the host has a hook.
fn check_hooks(program: &Program, hooks: &HookTable) -> Result<(), Cause>
    ensures { Covered (promises_of hooks.now) (bodies_of program.now) result }
{
    let bodies = program.bodies();
    match hooks.covers(bodies) {
        Ok(()) => Ok(()),
        Err(place) => Err(Cause::NoHook(bodies[place].pos)),
    }
}

/// The signals of a program, by whose names a scenario gives inputs.
fn named_signals(program: &Program) -> &[SignalDecl]
    ensures signals { result.now ≡ (kernel_of program.now).signals }
    ensures names { HasNames result.now }
{
    let _count = program.interface_len();
    program.signals()
}

fn read_lines(alloc: Global, program: &Program, text: &[u8]) -> Result<Vec<Line>, Cause>
    ensures lines { MatchResult result (λ v. Lined (kernel_of program.now).signals text.now (Ok v.items))
        (λ e. Lined (kernel_of program.now).signals text.now (Err e)) }
    ensures few { IfOk result (λ v. length v.items ≤ length text.now) }
{
    match read_scenario(alloc, text, named_signals(program), Mode::Play) {
        Ok(lines) => Ok(lines),
        Err(ScenarioFault::Refused(line)) => Err(Cause::Scenario(line)),
        Err(ScenarioFault::NoMemory) => Err(Cause::NoMemory),
    }
}

/// The program and the lines of an input.
///
/// # Errors
/// The cause of the first refusal: that of the module text, a body of the host without a hook, a line of the
/// scenario; or want of memory.
pub fn read_script(alloc: Global, input: &[u8], hooks: &HookTable) -> Result<Script, Cause>
    requires { length input.now ≤ INPUT_LIMIT }
    ensures found { IfOk result (λ s. IsOnlyInput (promises_of hooks.now) input.now s.program s.lines.items) }
    ensures refused { IfErr result (λ cause. (cause ≡ Cause.NoMemory)
        ⊎ IsRefusedInput (promises_of hooks.now) input.now cause) }
    ensures few { IfOk result (λ s. length s.lines.items < 2 ^ 61) }
{
    let (modules, scenario) = split(input);
    let program = compile_module(alloc, modules)?;
    check_hooks(&program, hooks)?;
    let lines = read_lines(alloc, &program, scenario)?;
    Ok(Script { program, lines })
}
