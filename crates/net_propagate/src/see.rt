//! What is known of signals is brought to what the valuation says of them.
ghost use Rattle.std.specs.Prelude.{◌≡◌, OnOk, OnErr, set};
ghost use Rattle.host_expr.specs.Environment.{env_of};
ghost use Rattle.net_solution.specs.Places.{question_of, valuation_of, statuses_in, IsExact};
ghost use Rattle.net_solution.specs.Rounds.{known_given};
ghost use Rattle.net_propagate.specs.Settling.{IsUnderWay, nets_in, question_in, SeesOneMore, cell_as};

use crate::task::Task;
use hh_base::memory::NoMemory;
use hh_base::value::{Tri, Value};
use host_expr::cell::SigCell;
use net_list::record::NetSignal;
use net_solution::question::Asked;
use net_solution::rounds::{base_value, known_given};
use net_solution::valuation::{Before, Valuation, is_present, status_of};
use std::alloc::Global;

fn show(cell: &mut SigCell, status: Tri, pre: bool, preval: Value)
    ensures { cell.new ≡ record cell.old { status = status; pre = pre; preval = preval } }
{
    cell.status = status;
    cell.pre = pre;
    cell.preval = preval;
}

fn put_cell(cells: &mut Vec<SigCell>, signal: usize, status: Tri, pre: bool, preval: Value)
    ensures { cells.new.items ≡ set cells.old.items signal
        (record (env_of cells.old.items signal) { status = status; pre = pre; preval = preval }) }
{
    if signal < cells.len() {
        show(&mut cells[signal], status, pre, preval);
    }
}

fn put_known(before: &mut Vec<Before>, signal: usize, known: Before)
    ensures { before.new.items ≡ set before.old.items signal known }
{
    if signal < before.len() {
        before[signal] = known;
    }
}

fn see(
    alloc: Global,
    asked: &Asked<'_>,
    place: &mut Valuation,
    number: usize,
    signal: &NetSignal,
) -> Result<(), NoMemory>
    ensures cells { OnOk result (place.new.cells.signals.items ≡ set place.old.cells.signals.items number
        (cell_as (question_of asked.now) place.old number signal.now)) }
    ensures before { OnOk result (place.new.before.items
        ≡ set place.old.before.items number (known_given (statuses_in place.old) signal.now)) }
    ensures gates { place.new.gates ≡ place.old.gates }
    ensures args { place.new.cells.args ≡ place.old.cells.args }
    ensures err { OnErr result (place.new ≡ place.old) }
{
    let preval = base_value(
        alloc,
        asked,
        status_of(&place.gates, signal.sel),
        number,
        signal,
    )?;
    let known = known_given(&place.gates, signal);
    let status = status_of(&place.gates, signal.status);
    let pre = is_present(status_of(&place.gates, signal.pre));
    put_cell(&mut place.cells.signals, number, status, pre, preval);
    put_known(&mut place.before, number, known);
    Ok(())
}

/// Of this signal all gets known that the valuation says.
pub fn see_signal(
    alloc: Global,
    task: &Task<'_>,
    place: &mut Valuation,
    signal: usize,
) -> Result<(), NoMemory>
    requires { IsUnderWay task.now place.old }
    ensures way { IsUnderWay task.now place.new }
    ensures same { valuation_of place.new ≡ valuation_of place.old }
    ensures seen { OnOk result
        (SeesOneMore (nets_in task.now) (question_in task.now) place.old place.new signal) }
{
    match task.nets.signals.get(signal) {
        Some(net_signal) => {
            see(alloc, &task.asked, place, signal, net_signal)?;
            Ok(())
        }
        None => Ok(()),
    }
}

/// Of each signal all gets known that the valuation says.
pub fn see_all(alloc: Global, task: &Task<'_>, place: &mut Valuation) -> Result<(), NoMemory>
    requires { IsUnderWay task.now place.old }
    ensures way { IsUnderWay task.now place.new }
    ensures same { valuation_of place.new ≡ valuation_of place.old }
    ensures exact { OnOk result (IsExact (nets_in task.now) (question_in task.now) place.new) }
{
    'signals: for signal in 0..task.nets.signals.len() {
        see_signal(alloc, task, place, signal)?;
    }
    Ok(())
}
