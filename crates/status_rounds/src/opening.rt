//! What stands before the first round.

ghost use Rattle.std.specs.Prelude.{◌≡◌, ◌≤◌, IfOk, length, map, replicate};
ghost use Rattle.hh_term.specs.ProgramView.{kernel_of};
ghost use Rattle.hh_term.specs.Sizes.{height_of};
ghost use Rattle.hh_term.specs.declared.limits.TheConstants.{HEIGHT_LIMIT};
ghost use Rattle.hh_term.specs.Views.{statement_of};
ghost use Rattle.host_expr.specs.Environment.{env_of, unsolved};
ghost use Rattle.status_rounds.specs.Before.{cell_after};
ghost use Rattle.status_rounds.specs.Loops.{loops_round};
ghost use Rattle.status_rounds.specs.NothingKnown.{AllNone, nothing};

use hh_base::value::{NoMemory, Tri, Value};
use hh_term::program::Program;
use hh_term::term::{Term, TermNode};
use host_expr::cell::{Cell, SigCell};
use status_table::state::Statuses;
use status_table::tally::{Known, Tally};
use std::alloc::Global;

/// The greatest number of loops round one node.
pub fn loops_round(term: &Term) -> usize
    requires { height_of (statement_of term.now) ≤ HEIGHT_LIMIT }
    ensures { result ≡ loops_round (statement_of term.now) }
{
    match &term.node {
        TermNode::If(_, p, q) => loops_round(p).max(loops_round(q)),
        TermNode::Seq(p, q) => loops_round(p).max(loops_round(q)),
        TermNode::Par(p, q) => loops_round(p).max(loops_round(q)),
        TermNode::Suspend(_, p) => loops_round(p),
        TermNode::Trap(p) => loops_round(p),
        TermNode::Local(_, p) => loops_round(p),
        TermNode::Loop(p) => loops_round(p) + 1,
        TermNode::Nothing => 0,
        TermNode::Pause => 0,
        TermNode::Emit(_, _) => 0,
        TermNode::Exit(_) => 0,
        TermNode::Async(_) => 0,
    }
}

fn unsolved(pre: bool, preval: Value) -> SigCell
    ensures { result ≡ unsolved pre preval }
{
    SigCell {
        status: Tri::Unknown,
        value: Cell::Unknown,
        pre,
        preval,
    }
}

fn last_cells(alloc: Global, before: &[(bool, Value)]) -> Result<Vec<SigCell>, NoMemory>
    ensures { IfOk result (λ v. v.items ≡ map cell_after before.now) }
{
    let mut cells = Vec::with_capacity(alloc, before.len())?;
    for last in before {
        cells.push(unsolved(last.0, last.1.copy(alloc)?))?;
    }
    Ok(cells)
}

/// A cell for each signal of the program, of which those of the interface had these statuses and values.
pub fn opened(
    alloc: Global,
    program: &Program,
    before: &[(bool, Value)],
) -> Result<Vec<SigCell>, NoMemory>
    requires { length before.now ≤ length (kernel_of program.now).signals }
    ensures env { IfOk result (λ v. env_of v.items ≡ env_of (map cell_after before.now)) }
    ensures len { IfOk result (λ v. length v.items ≡ length (kernel_of program.now).signals) }
{
    let mut cells = last_cells(alloc, before)?;
    for signal in before.len()..program.signals().len() {
        cells.push(unsolved(false, Value::Unit))?;
    }
    Ok(cells)
}

fn row(alloc: Global, places: usize) -> Result<Vec<Known>, NoMemory>
    ensures { IfOk result (λ v. v.items ≡ replicate places nothing) }
{
    let mut places_so_far = Vec::with_capacity(alloc, places)?;
    for place in 0..places {
        places_so_far.push(Known::nothing())?;
    }
    Ok(places_so_far)
}

/// A table of this many levels, with this many places at each, in which nothing is known.
pub fn table(alloc: Global, levels: usize, places: usize) -> Result<Statuses, NoMemory>
    ensures { IfOk result (λ t. map (λ r. r.items) t.rows.items ≡ replicate levels
        (replicate places nothing)) }
{
    let mut rows = Vec::with_capacity(alloc, levels)?;
    for level in 0..levels {
        rows.push(row(alloc, places)?)?;
    }
    Ok(Statuses { rows })
}

/// Tallies without an emission.
pub fn tallies(alloc: Global, count: usize) -> Result<Vec<Tally>, NoMemory>
    ensures { IfOk result (λ v. AllNone count v.items) }
{
    let mut none = Vec::with_capacity(alloc, count)?;
    for signal in 0..count {
        none.push(Tally::new())?;
    }
    Ok(none)
}
