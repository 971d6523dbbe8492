//! What the equation of a signal's value gives, by the list of its emissions.
ghost use Rattle.std.specs.Prelude.{◌≡◌, ◌++◌, [], IfOk, slice_get};
ghost use Rattle.std.specs.List.{flat_map};
ghost use Rattle.net_solution.specs.Equations.{input_of, signal_value};
ghost use Rattle.net_solution.specs.Places.{seen_in, statuses_in};
ghost use Rattle.net_solution.specs.Solution.{value_at};
ghost use Rattle.net_solution.specs.Tallied.{tallied, Meets};
ghost use Rattle.net_propagate.specs.Settling.{nets_in, question_in, IsListed, emission_at, given_seen};

use crate::task::Task;
use hh_base::memory::NoMemory;
use hh_base::value::{CombineWord, Kind};
use host_expr::cell::Cell;
use net_list::record::NetSignal;
use net_solution::signal::{meet_emission, meet_inputs, tallied_value};
use net_solution::valuation::Valuation;
use status_table::tally::Tally;
use std::alloc::Global;

/// The emission of this number more, where it is the signal's.
fn meet_at(
    alloc: Global,
    task: &Task<'_>,
    place: &Valuation,
    kind: Kind,
    word: Option<CombineWord>,
    signal: usize,
    number: usize,
    tally: Tally,
) -> Result<Tally, NoMemory>
    requires { place.now.cells.args.items ≡ [] }
    ensures { IfOk result (λ t. Meets kind word tally t
        (emission_at (nets_in task.now) (question_in task.now) place.now kind signal number)) }
{
    match task.nets.emits.get(number) {
        Some(emit) => meet_emission(alloc, &task.asked, place, kind, word, signal, emit, tally),
        None => Ok(tally),
    }
}

fn meet_listed(
    alloc: Global,
    task: &Task<'_>,
    place: &Valuation,
    signal: usize,
    net_signal: &NetSignal,
    emissions: &[u32],
) -> Result<Tally, NoMemory>
    requires { place.now.cells.args.items ≡ [] }
    ensures { IfOk result (λ t. t ≡ tallied net_signal.now.decl.kind net_signal.now.decl.combine
        (flat_map (input_of signal) (question_in task.now).given
        ++ flat_map (emission_at (nets_in task.now) (question_in task.now) place.now
        net_signal.now.decl.kind signal)
        emissions.now)) }
{
    let kind = net_signal.decl.kind;
    let word = net_signal.decl.combine;
    let mut tally = meet_inputs(alloc, &task.asked, kind, word, signal)?;
    'emissions: for number in emissions {
        tally = meet_at(
            alloc,
            task,
            place,
            kind,
            word,
            signal,
            *number as usize,
            tally,
        )?;
    }
    Ok(tally)
}

fn value_of(
    alloc: Global,
    task: &Task<'_>,
    place: &Valuation,
    signal: usize,
    net_signal: &NetSignal,
) -> Result<Cell, NoMemory>
    requires args { place.now.cells.args.items ≡ [] }
    requires there { slice_get (nets_in task.now).signals signal ≡ Some net_signal.now }
    requires listed { IsListed (nets_in task.now) task.now.watchers.now }
    ensures { IfOk result (λ c. c ≡ signal_value (nets_in task.now) (question_in task.now)
        (statuses_in place.now) (seen_in place.now) signal net_signal.now) }
{
    let emissions = task.watchers.emissions_of(signal);
    let tally = meet_listed(alloc, task, place, signal, net_signal, emissions)?;
    let value = tallied_value(alloc, place, signal, net_signal, tally)?;
    Ok(value)
}

/// What the equation of a signal's value gives by what is known. The time is that of one walk over the given
/// inputs and the signal's emissions.
pub fn value_now(
    alloc: Global,
    task: &Task<'_>,
    place: &Valuation,
    signal: usize,
) -> Result<Cell, NoMemory>
    requires args { place.now.cells.args.items ≡ [] }
    requires listed { IsListed (nets_in task.now) task.now.watchers.now }
    ensures { IfOk result (λ c. c
        ≡ value_at (given_seen (nets_in task.now) (question_in task.now) place.now) signal) }
{
    match task.nets.signals.get(signal) {
        Some(net_signal) => {
            let value = value_of(alloc, task, place, signal, net_signal)?;
            Ok(value)
        }
        None => Ok(Cell::Unknown),
    }
}
