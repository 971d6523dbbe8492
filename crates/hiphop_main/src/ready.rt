//! A script whose machine stands at its start.

ghost use Rattle.std.specs.Prelude.{IfOk};
ghost use Rattle.hiphop_main.specs.Readiness.{IsReady};

use crate::bodies::copy_bodies;
use crate::script::Script;
use hh_base::memory::NoMemory;
use hh_term::program::BodyDecl;
use scenario_lines::line::Line;
use std::alloc::Global;
use term_reactor::machine::TermMachine;

/// A machine at its start, the bodies of its program, and the lines to be played.
#[derive(Drop)]
pub struct Ready {
    pub machine: TermMachine,
    pub bodies: Vec<BodyDecl>,
    pub lines: Vec<Line>,
}

/// The machine of a script, before its first reaction.
pub fn make_ready(alloc: Global, script: Script) -> Result<Ready, NoMemory>
    ensures { IfOk result (IsReady script.program script.lines.items) }
{
    let Script { program, lines } = script;
    let bodies = copy_bodies(alloc, program.bodies())?;
    let machine = TermMachine::boot(alloc, program, 0)?;
    Ok(Ready {
        machine,
        bodies,
        lines,
    })
}
