//! What a program did, as it is told.

ghost use Rattle.std.specs.Prelude.{◌≡◌, ◌≤◌, length, map, slice_get, IfOk, Some, ℕ};
ghost use Rattle.std.specs.List.{range_with_len};
ghost use Rattle.host_expr.specs.Environment.{env_of};
ghost use Rattle.hh_term.specs.MustCan.{table_of};
ghost use Rattle.hh_term.specs.ProgramView.{kernel_of};
ghost use Rattle.hh_term.specs.Step.{value_in};
ghost use Rattle.hh_term.specs.Views.{control_of};
ghost use Rattle.hh_term.specs.declared.program.SignalDecl.{SignalDecl as ASignalDecl};
ghost use Rattle.last_walk.specs.LastWalk.{selection_at, signal_place};
ghost use Rattle.sync_step.specs.Reacting.{control_by, now_at, now_by, Concluded, Names};
ghost use Rattle.sync_step.specs.Told.{now_in};

use crate::answer::{SignalNow, Stepped};
use crate::judging::emissions_of;
use hh_base::name::Name;
use hh_base::value::{NoMemory, Tri, Value};
use hh_term::mark::{Control, Mark};
use hh_term::program::Program;
use host_expr::cell::{Cell, SigCell};
use last_walk::last_pass::{Emitted, LastPass};
use last_walk::whole::Ran;
use std::alloc::Global;
use touch_order::ids::{number_marks, number_touches};
use touch_order::order::put_in_order;

fn value_now(alloc: Global, cell: &SigCell) -> Result<Value, NoMemory>
    ensures { IfOk result (λ v. v ≡ value_in cell.now.preval cell.now.value) }
{
    match &cell.value {
        Cell::Known(value) => Ok(value.copy(alloc)?),
        Cell::Unknown | Cell::Faulted(_, _) => Ok(cell.preval.copy(alloc)?),
    }
}

fn signal_now(
    alloc: Global,
    signal: u32,
    cell: &SigCell,
    emitted: &Emitted,
) -> Result<SignalNow, NoMemory>
    ensures { IfOk result (λ n. now_in n ≡ now_by signal cell.now emitted.now.count) }
{
    Ok(SignalNow {
        signal,
        emissions: emitted.count,
        status: cell.status == Tri::One,
        value: value_now(alloc, cell)?,
    })
}

/// The first so many signals in a reaction in which they have these cells and these emissions.
fn signals_now(
    alloc: Global,
    count: u32,
    cells: &[SigCell],
    emitted: &[Emitted],
) -> Result<Vec<SignalNow>, NoMemory>
    requires cells { count ≤ length cells.now }
    requires emitted { count ≤ length emitted.now }
    ensures { IfOk result (λ v. map now_in v.items ≡ map (now_at (env_of cells.now) emitted.now)
        (range_with_len 0 count)) }
{
    let mut signals = Vec::with_capacity(alloc, count as usize)?;
    for signal in 0..count {
        let cell = &cells[signal as usize];
        let met = emissions_of(emitted, signal);
        signals.push(signal_now(alloc, signal, cell, met)?)?;
    }
    Ok(signals)
}

fn position_of(program: &Program, signal: u32) -> u32
    ensures { result ≡ signal_place (table_of (kernel_of program.now)) signal }
{
    match program.signals().get(signal as usize) {
        Some(declared) => declared.pos.0,
        None => 0,
    }
}

/// The name of the signals that are declared at a position.
fn name_at(alloc: Global, program: &Program, pos: u32) -> Result<Option<Name>, NoMemory>
    ensures { IfOk result (λ n. (s : ℕ) (d : ASignalDecl) →
        slice_get (kernel_of program.now).signals s ≡ Some d →
        d.pos.0 ≡ pos → n ≡ d.name) }
{
    for declared in program.signals() {
        if declared.pos.0 == pos {
            let name = copy_name(alloc, &declared.name)?;
            return Ok(name);
        }
    }
    Ok(None)
}

fn copy_name(alloc: Global, name: &Option<Name>) -> Result<Option<Name>, NoMemory>
    ensures { IfOk result (λ n. n ≡ name.now) }
{
    match name {
        Some(name) => Ok(Some(name.copy(alloc)?)),
        None => Ok(None),
    }
}

fn name_of(alloc: Global, program: &Program, doubled: Option<u32>) -> Result<Option<Name>, NoMemory>
    ensures { IfOk result (Names (kernel_of program.now) doubled) }
{
    match doubled {
        Some(signal) => {
            let name = name_at(alloc, program, position_of(program, signal))?;
            Ok(name)
        }
        None => Ok(None),
    }
}

fn control_after(last: u64, next: Option<Mark>) -> Result<Control, NoMemory>
    ensures { IfOk result (λ c. control_of c ≡ control_by last (selection_at next)) }
{
    let Some(mut mark) = next else {
        return Ok(Control::Ended);
    };
    number_marks(last, &mut mark)?;
    Ok(Control::At(mark))
}

/// What the program did that completed so, whose interface had these emissions, and of which the walk noted
/// this. `last` is the last id before.
pub fn told(
    alloc: Global,
    program: &Program,
    last: u64,
    ran: Ran,
    emitted: &[Emitted],
    pass: LastPass,
) -> Result<Stepped, NoMemory>
    requires cells { (kernel_of program.now).interface ≤ length pass.cells.signals.items }
    requires emitted { (kernel_of program.now).interface ≤ length emitted.now }
    ensures { IfOk result (Concluded (kernel_of program.now) last ran emitted.now pass) }
{
    let LastPass {
        cells,
        mut touches,
        doubled,
        fault,
        ..
    } = pass;
    put_in_order(&mut touches)?;
    number_touches(last, &mut touches)?;
    Ok(Stepped {
        signals: signals_now(alloc, program.interface_len(), &cells.signals, emitted)?,
        code: ran.code,
        next: control_after(last, ran.next)?,
        touches,
        multiple: name_of(alloc, program, doubled)?,
        fault,
    })
}
