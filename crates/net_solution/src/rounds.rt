//! The least solution by rounds, the plain way: in each round all equations are computed from the round
//! before.
ghost use Rattle.std.specs.Prelude.{◌≡◌, ◌||◌, ◌∷◌, [], IfOk, OnOk, map, get_or, nat_lt, not, length};
ghost use Rattle.std.specs.Prelude.{filter};
ghost use Rattle.hh_base.specs.declared.value.Tri.TheVariants as tri;
ghost use Rattle.host_expr.specs.Environment.{is_known, is_present, env_of};
ghost use Rattle.net_solution.specs.Equations.{gate_value, base_value, last_value};
ghost use Rattle.net_solution.specs.Places.{question_of, seen_in, valuation_of, IsExact};
ghost use Rattle.net_solution.specs.Solution.{numbered, given_by, IsLeast};
ghost use Rattle.net_solution.specs.Rounds.{cell_given, known_given, open_gates, open_cells, open_values};
ghost use Rattle.net_solution.specs.Rounds.{has_more};

use crate::gate::gate_value;
use crate::question::Asked;
use crate::signal::{preval_of, signal_value};
use crate::valuation::{Before, Valuation, is_decided, is_present, status_of};
use hh_base::item::Item;
use hh_base::memory::NoMemory;
use hh_base::value::{Tri, Value};
use host_expr::cell::{Cell, Cells, SigCell};
use net_list::nets::Nets;
use net_list::record::{NetRecords, NetSignal};
use std::alloc::Global;

fn gates_given(
    alloc: Global,
    nets: &NetRecords,
    asked: &Asked<'_>,
    place: &Valuation,
) -> Result<Vec<Tri>, NoMemory>
    requires { place.now.cells.args.items ≡ [] }
    ensures { IfOk result (λ v. v.items ≡ map (gate_value nets.now (question_of asked.now)
        (λ g. get_or place.now.gates.items g tri.Unknown) (seen_in place.now)) nets.now.gates) }
{
    let mut gates = Vec::with_capacity(alloc, nets.gates.len())?;
    for gate in nets.gates.as_slice() {
        gates.push(gate_value(alloc, nets, asked, place, gate)?)?;
    }
    Ok(gates)
}

/// What of a signal's past is known where the gates have these statuses.
pub fn known_given(gates: &[Tri], signal: &NetSignal) -> Before
    ensures { result ≡ known_given (λ g. get_or gates.now g tri.Unknown) signal.now }
{
    Before {
        pre: is_decided(status_of(gates, signal.pre)),
        base: is_decided(status_of(gates, signal.sel)),
    }
}

fn all_known_given(alloc: Global, nets: &NetRecords, gates: &[Tri]) -> Result<Vec<Before>, NoMemory>
    ensures { IfOk result (λ v. v.items
        ≡ map (known_given (λ g. get_or gates.now g tri.Unknown)) nets.now.signals) }
{
    let mut known = Vec::with_capacity(alloc, nets.signals.len())?;
    for signal in nets.signals.as_slice() {
        known.push(known_given(gates, signal))?;
    }
    Ok(known)
}

/// The base value of a signal where its sel gate has this status.
pub fn base_value(
    alloc: Global,
    asked: &Asked<'_>,
    sel: Tri,
    number: usize,
    signal: &NetSignal,
) -> Result<Value, NoMemory>
    ensures { IfOk result (λ v. v
        ≡ base_value sel signal.now.decl.first (last_value (question_of asked.now) number)) }
{
    match sel {
        Tri::One => preval_of(alloc, &asked.cells.signals, number),
        Tri::Zero => Ok(signal.decl.first.copy(alloc)?),
        Tri::Unknown => Ok(Value::Unit),
    }
}

fn cell_given(
    alloc: Global,
    nets: &NetRecords,
    asked: &Asked<'_>,
    place: &Valuation,
    gates: &[Tri],
    number: usize,
    signal: &NetSignal,
) -> Result<SigCell, NoMemory>
    requires { place.now.cells.args.items ≡ [] }
    ensures { IfOk result (λ c. c ≡ cell_given nets.now (question_of asked.now)
        (λ g. get_or place.now.gates.items g tri.Unknown) (seen_in place.now)
        (λ g. get_or gates.now g tri.Unknown) number signal.now) }
{
    let value = signal_value(alloc, nets, asked, place, number, signal)?;
    let preval = base_value(alloc, asked, status_of(gates, signal.sel), number, signal)?;
    Ok(SigCell {
        status: status_of(gates, signal.status),
        value,
        pre: is_present(status_of(gates, signal.pre)),
        preval,
    })
}

fn cells_given(
    alloc: Global,
    nets: &NetRecords,
    asked: &Asked<'_>,
    place: &Valuation,
    gates: &[Tri],
) -> Result<Vec<SigCell>, NoMemory>
    requires { place.now.cells.args.items ≡ [] }
    ensures { IfOk result (λ v. v.items ≡ numbered (cell_given nets.now (question_of asked.now)
        (λ g. get_or place.now.gates.items g tri.Unknown) (seen_in place.now)
        (λ g. get_or gates.now g tri.Unknown)) 0 nets.now.signals) }
{
    let signals = nets.signals.as_slice();
    let mut cells = Vec::with_capacity(alloc, signals.len())?;
    for (number, signal) in signals.iter().enumerate() {
        cells.push(cell_given(alloc, nets, asked, place, gates, number, signal)?)?;
    }
    Ok(cells)
}

/// What the equations give under a valuation.
fn given(
    alloc: Global,
    nets: &NetRecords,
    asked: &Asked<'_>,
    place: &Valuation,
) -> Result<Valuation, NoMemory>
    requires { IsExact nets.now (question_of asked.now) place.now }
    ensures given { IfOk result (λ v. valuation_of v
        ≡ given_by nets.now (question_of asked.now) (valuation_of place.now)) }
    ensures exact { IfOk result (IsExact nets.now (question_of asked.now)) }
{
    let gates = gates_given(alloc, nets, asked, place)?;
    let statuses = gates.as_slice();
    let signals = cells_given(alloc, nets, asked, place, statuses)?;
    let before = all_known_given(alloc, nets, statuses)?;
    let cells = Cells {
        signals,
        args: Vec::new(alloc),
    };
    Ok(Valuation {
        gates,
        cells,
        before,
    })
}

fn open_gates(gates: &[Tri]) -> usize
    ensures { result ≡ open_gates gates.now }
{
    gates.iter().filter(|status| !is_decided(**status)).count()
}

fn is_open(cell: &SigCell) -> bool
    ensures { result ≡ not (is_known cell.now.value) }
{
    matches!(cell.value, Cell::Unknown)
}

fn open_cells(cells: &[SigCell]) -> usize
    ensures { result ≡ open_cells cells.now }
{
    cells.iter().filter(|cell| is_open(cell)).count()
}

fn open_values(cells: &[SigCell]) -> usize
    ensures { result ≡ open_values (map (λ c. c.value) cells.now) }
{
    open_cells(cells)
}

/// Whether fewer gates, or fewer values, are unknown in the first.
fn has_more(next: &Valuation, place: &Valuation) -> bool
    ensures { result ≡ has_more (valuation_of next.now) (valuation_of place.now) }
{
    open_gates(&next.gates) < open_gates(&place.gates)
        || open_values(&next.cells.signals) < open_values(&place.cells.signals)
}

/// One round. Tells whether more is known than before.
fn round(
    alloc: Global,
    nets: &NetRecords,
    asked: &Asked<'_>,
    place: &mut Valuation,
) -> Result<bool, NoMemory>
    requires { IsExact nets.now (question_of asked.now) place.old }
    ensures given { OnOk result (valuation_of place.new
        ≡ given_by nets.now (question_of asked.now) (valuation_of place.old)) }
    ensures exact { OnOk result (IsExact nets.now (question_of asked.now) place.new) }
    ensures more { IfOk result (λ more. more
        ≡ has_more (valuation_of place.new) (valuation_of place.old)) }
{
    let next = given(alloc, nets, asked, place)?;
    let more = has_more(&next, place);
    *place = next;
    Ok(more)
}

/// Nothing is known.
fn nothing(alloc: Global) -> Valuation
    ensures gates { result.gates.items ≡ [] }
    ensures cells { result.cells.signals.items ≡ [] }
    ensures args { result.cells.args.items ≡ [] }
    ensures before { result.before.items ≡ [] }
{
    Valuation {
        gates: Vec::new(alloc),
        cells: Cells {
            signals: Vec::new(alloc),
            args: Vec::new(alloc),
        },
        before: Vec::new(alloc),
    }
}

fn first_round(alloc: Global, nets: &NetRecords, asked: &Asked<'_>) -> Result<Valuation, NoMemory>
    ensures given { IfOk result (λ v. valuation_of v
        ≡ given_by nets.now (question_of asked.now) (record { gates = []; values = [] })) }
    ensures exact { IfOk result (IsExact nets.now (question_of asked.now)) }
{
    let nothing = nothing(alloc);
    given(alloc, nets, asked, &nothing)
}

/// The least solution of the equations of these records. As many rounds as there are gates and signals may be
/// needed, and each round walks all emissions once for each signal: for tests.
pub fn settle_records(
    alloc: Global,
    nets: &NetRecords,
    asked: &Asked<'_>,
) -> Result<Valuation, NoMemory>
    ensures { IfOk result (λ v. IsLeast nets.now (question_of asked.now) (valuation_of v)) }
{
    let mut place = first_round(alloc, nets, asked)?;
    'rounds: while round(alloc, nets, asked, &mut place)? {}
    Ok(place)
}

/// The least solution of nets for these states of the registers, these cells, of which the previous values
/// count
/// as the last values, these first items of the queues of execs, and these given inputs; as `settle_records`.
pub fn settle_by_rounds(
    alloc: Global,
    nets: &Nets,
    registers: &[bool],
    cells: &Cells,
    answered: &[Option<Item>],
    given: &[(u32, Value)],
) -> Result<Valuation, NoMemory>
    ensures { IfOk result (λ v. IsLeast nets.now (record {
      registers = registers.now;
      cells = cells.now.signals.items;
      answered = answered.now;
      given = given.now;
    }) (valuation_of v)) }
{
    let asked = Asked {
        registers,
        cells,
        answered,
        given,
    };
    settle_records(alloc, nets.records(), &asked)
}
