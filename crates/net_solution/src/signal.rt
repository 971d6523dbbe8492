//! The equation of a signal's value.
ghost use Rattle.std.specs.Prelude.{◌≡◌, ◌||◌, ◌∷◌, List, [], IfOk, cond, not, get_or};
ghost use Rattle.std.specs.List.{flat_map};
ghost use Rattle.hh_base.specs.declared.value.Tri.TheVariants as tri;
ghost use Rattle.host_expr.specs.declared.cell.Cell.TheVariants as cell;
ghost use Rattle.host_expr.specs.Environment.{env_of};
ghost use Rattle.net_solution.specs.Equations.{carried, emission_of, input_of, emissions_of, signal_value};
ghost use Rattle.net_solution.specs.Equations.{is_absent, Emission, value_by_emissions};
ghost use Rattle.net_solution.specs.Places.{question_of, known_by, seen_in};
ghost use Rattle.net_solution.specs.Seen.{base_seen};
ghost use Rattle.net_solution.specs.Tallied.{tallied, Meets};

use crate::expression::expression_value;
use crate::question::{Asked, answer_of};
use crate::valuation::{Before, Valuation, status_of};
use hh_base::memory::NoMemory;
use hh_base::value::{CombineWord, Kind, Tri, Value};
use host_expr::cell::{Cell, SigCell};
use net_list::record::{NetEmit, NetRecords, NetSignal, Sent};
use status_table::tally::{Known, Tally};
use std::alloc::Global;

fn carried(
    alloc: Global,
    asked: &Asked<'_>,
    place: &Valuation,
    kind: Kind,
    sent: &Sent,
) -> Result<Cell, NoMemory>
    requires { place.now.cells.args.items ≡ [] }
    ensures { IfOk result (λ c. c ≡ carried (question_of asked.now) (seen_in place.now) kind sent.now) }
{
    match sent {
        Sent::Nothing => Ok(Cell::Known(Value::Unit)),
        Sent::Computed(expr) => expression_value(alloc, expr, &place.cells, &place.before),
        Sent::Answer(exec) => Ok(Cell::Known(answer_of(alloc, asked, kind, *exec)?)),
    }
}

/// One given input more, where it is the signal's.
fn meet_input(
    alloc: Global,
    kind: Kind,
    word: Option<CombineWord>,
    signal: usize,
    given: &(u32, Value),
    tally: Tally,
) -> Result<Tally, NoMemory>
    ensures { IfOk result (λ t. Meets kind word tally t (input_of signal given.now)) }
{
    if given.0 as usize == signal {
        let cell = Cell::Known(given.1.copy(alloc)?);
        Ok(tally.add_executed(alloc, kind, word, cell)?)
    } else {
        Ok(tally)
    }
}

/// One emission more, where it is the signal's. What it carries counts only where it is made.
pub fn meet_emission(
    alloc: Global,
    asked: &Asked<'_>,
    place: &Valuation,
    kind: Kind,
    word: Option<CombineWord>,
    signal: usize,
    emit: &NetEmit,
    tally: Tally,
) -> Result<Tally, NoMemory>
    requires { place.now.cells.args.items ≡ [] }
    ensures { IfOk result (λ t. Meets kind word tally t (emission_of (question_of asked.now)
        (λ g. get_or place.now.gates.items g tri.Unknown) (seen_in place.now) kind signal emit.now)) }
{
    if emit.signal as usize == signal {
        match status_of(&place.gates, emit.control) {
            Tri::Zero => Ok(tally),
            Tri::Unknown => Ok(tally.add_possible()?),
            Tri::One => {
                let cell = carried(alloc, asked, place, kind, &emit.sent)?;
                Ok(tally.add_executed(alloc, kind, word, cell)?)
            }
        }
    } else {
        Ok(tally)
    }
}

/// The given inputs of a signal.
pub fn meet_inputs(
    alloc: Global,
    asked: &Asked<'_>,
    kind: Kind,
    word: Option<CombineWord>,
    signal: usize,
) -> Result<Tally, NoMemory>
    ensures { IfOk result (λ t. t
        ≡ tallied kind word (flat_map (input_of signal) (question_of asked.now).given)) }
{
    let mut tally = Tally::new();
    for given in asked.given {
        tally = meet_input(alloc, kind, word, signal, given, tally)?;
    }
    Ok(tally)
}

fn meet_all(
    alloc: Global,
    nets: &NetRecords,
    asked: &Asked<'_>,
    place: &Valuation,
    signal: usize,
    net_signal: &NetSignal,
) -> Result<Tally, NoMemory>
    requires { place.now.cells.args.items ≡ [] }
    ensures { IfOk result (λ t. t ≡ tallied net_signal.now.decl.kind net_signal.now.decl.combine
        (emissions_of nets.now (question_of asked.now) (λ g. get_or place.now.gates.items g tri.Unknown)
        (seen_in place.now) net_signal.now.decl.kind signal)) }
{
    let kind = net_signal.decl.kind;
    let word = net_signal.decl.combine;
    let mut tally = meet_inputs(alloc, asked, kind, word, signal)?;
    for emit in nets.emits.as_slice() {
        tally = meet_emission(alloc, asked, place, kind, word, signal, emit, tally)?;
    }
    Ok(tally)
}

/// The previous value of a signal's cell.
pub(crate) fn preval_of(alloc: Global, cells: &[SigCell], signal: usize) -> Result<Value, NoMemory>
    ensures { IfOk result (λ v. v ≡ (env_of cells.now signal).preval) }
{
    match cells.get(signal) {
        Some(cell) => Ok(cell.preval.copy(alloc)?),
        None => Ok(Value::Unit),
    }
}

fn is_base_known(before: &[Before], signal: usize) -> bool
    ensures { result ≡ (known_by before.now signal).base }
{
    match before.get(signal) {
        Some(before) => before.base,
        None => false,
    }
}

/// Where nothing is emitted, the value is known only as the base value is.
fn over_base(base_known: bool, solved: Known) -> Cell
    ensures { result
        ≡ cond (base_known || not (is_absent solved.status)) solved.value cell.Unknown }
{
    if base_known || solved.status != Tri::Zero {
        solved.value
    } else {
        Cell::Unknown
    }
}

/// The value of a signal whose emissions came to this tally.
pub fn tallied_value(
    alloc: Global,
    place: &Valuation,
    signal: usize,
    net_signal: &NetSignal,
    tally: Tally,
) -> Result<Cell, NoMemory>
    ensures { IfOk result (λ c. (es : List Emission)
        → tally ≡ tallied net_signal.now.decl.kind net_signal.now.decl.combine es
        → c ≡ value_by_emissions net_signal.now.decl.kind net_signal.now.decl.combine
        (base_seen (seen_in place.now signal)) es) }
{
    let preval = preval_of(alloc, &place.cells.signals, signal)?;
    let base_known = is_base_known(&place.before, signal);
    let solved = tally.solved(alloc, net_signal.decl.kind, preval);
    Ok(over_base(base_known, solved))
}

/// What the equation of a signal's value gives. The time is that of one walk over all emissions.
pub fn signal_value(
    alloc: Global,
    nets: &NetRecords,
    asked: &Asked<'_>,
    place: &Valuation,
    signal: usize,
    net_signal: &NetSignal,
) -> Result<Cell, NoMemory>
    requires { place.now.cells.args.items ≡ [] }
    ensures { IfOk result (λ c. c ≡ signal_value nets.now (question_of asked.now)
        (λ g. get_or place.now.gates.items g tri.Unknown) (seen_in place.now) signal net_signal.now) }
{
    let tally = meet_all(alloc, nets, asked, place, signal, net_signal)?;
    let value = tallied_value(alloc, place, signal, net_signal, tally)?;
    Ok(value)
}
