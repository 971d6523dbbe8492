//! The first run of a text that lies on a cycle.

ghost use Rattle.std.specs.Prelude.{◌≡◌, map, IfOk};
ghost use Rattle.module_tree.specs.Callables.{modules_of};
ghost use Rattle.run_graph.specs.Reach.{InRange};
ghost use Rattle.link_faults.specs.Earliest.{first_by};
ghost use Rattle.link_faults.specs.Rows.{Program};
ghost use Rattle.link_verdict.specs.Declarations.{placed_runs};
ghost use Rattle.link_verdict.specs.Cycles.{callees, first_of_run, first_from, IsFirstCycle};
ghost use Rattle.link_verdict.specs.Cycles.{is_on_cycle};

use hh_base::memory::NoMemory;
use link_faults::fault::{LinkFault, LinkKind, earlier};
use link_faults::parts::fault_if;
use link_faults::walk::RunAt;
use run_graph::components::{Components, components_of};
use sqlite_items::Items;
use std::alloc::Global;

/// More modules than this are too many for memory.
const MODULE_LIMIT: usize = 4_294_967_295;

fn place_of(at: usize) -> Result<u32, NoMemory>
    ensures { IfOk result (λ place. place ≡ at) }
{
    if at > MODULE_LIMIT {
        return Err(NoMemory);
    }
    Ok(at as u32)
}

fn callees_of(alloc: Global, runs: &[RunAt]) -> Result<Items<u32>, NoMemory>
    ensures { IfOk result (λ places. places ≡ callees runs.now) }
{
    let mut places = Items::new(alloc);
    'runs: for run in runs {
        places.push(place_of(run.callee)?)?;
    }
    Ok(places)
}

/// For each module those that it runs.
fn graph_of(alloc: Global, runs: &[Items<RunAt>]) -> Result<Vec<Items<u32>>, NoMemory>
    ensures { IfOk result (λ graph. graph.items ≡ map callees runs.now) }
{
    let mut graph = Vec::new(alloc);
    'modules: for module in runs {
        graph.push(callees_of(alloc, module.as_slice())?)?;
    }
    Ok(graph)
}

fn first_of_run(
    components: &Components,
    caller: u32,
    run: &RunAt,
) -> Result<Option<LinkFault>, NoMemory>
    ensures { IfOk result (λ v. v ≡ first_of_run components.now.roots caller run.now) }
{
    let on_cycle = components.is_on_cycle(caller, place_of(run.callee)?);
    Ok(fault_if(on_cycle, run.pos, LinkKind::RunCycle))
}

fn first_in_module(
    components: &Components,
    caller: u32,
    runs: &[RunAt],
) -> Result<Option<LinkFault>, NoMemory>
    ensures { IfOk result (λ v. v ≡ first_by (first_of_run components.now.roots caller) runs.now) }
{
    let mut first = None;
    'runs: for run in runs {
        first = earlier(first, first_of_run(components, caller, run)?);
    }
    Ok(first)
}

#[tactic(auto, using(crate::proofs::CycleLaws::first_from_more))]
fn first_in_all(
    components: &Components,
    runs: &[Items<RunAt>],
) -> Result<Option<LinkFault>, NoMemory>
    ensures { IfOk result (λ v. v ≡ first_from components.now.roots 0 runs.now) }
{
    let mut first = None;
    'modules: for caller in 0..runs.len() {
        let found = first_in_module(components, place_of(caller)?, runs[caller].as_slice())?;
        first = earlier(first, found);
    }
    Ok(first)
}

/// The first run of a text that lies on a cycle, given the runs of each of its modules. Time and memory grow
/// with the number of modules and runs.
pub fn first_cycle(alloc: Global, runs: &[Items<RunAt>]) -> Result<Option<LinkFault>, NoMemory>
    requires { InRange (map callees runs.now) }
    ensures { (parts : Program) → runs.now ≡ map (placed_runs parts) (modules_of parts)
        → IfOk result (IsFirstCycle parts) }
{
    if runs.len() > MODULE_LIMIT {
        return Err(NoMemory);
    }
    let graph = graph_of(alloc, runs)?;
    let components = components_of(alloc, graph.as_slice())?;
    first_in_all(&components, runs)
}
