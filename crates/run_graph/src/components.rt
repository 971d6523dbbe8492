//! Which runs lie on a cycle.

ghost use Rattle.std.specs.Prelude.{◌≡◌, ℕ, ◌<◌, ◌≤◌, ◌^◌, ◌↔◌, IsTrue, length, reverse, true, IfOk, OnOk};
ghost use Rattle.module_tree.specs.Runs.{is_callees_first};
ghost use Rattle.run_graph.specs.Reach.{InRange};
ghost use Rattle.run_graph.specs.Search.{IsFinishOrder, HasAll, AreThere};
ghost use Rattle.run_graph.specs.Flood.{AreClosed, Floods, root_of};
ghost use Rattle.run_graph.specs.Components.{ShowCycles, HasNoCycle};

use crate::callers::callers_of;
use crate::flood::flood;
use crate::search::finish_order;
use hh_base::memory::NoMemory;
use sqlite_items::Items;
use std::alloc::Global;

/// What is known of the runs of a text.
#[derive(Drop)]
pub struct Components {
    /// For each module, by its place, the one that stands for its component.
    pub roots: Items<Option<u32>>,
    /// The places of all modules. Where no run lies on a cycle, each stands behind those of the modules
    /// that it runs.
    pub callees_first: Items<u32>,
}

/// The root of a module.
fn root_of(roots: &[Option<u32>], at: u32) -> Option<u32>
    ensures { result ≡ root_of roots.now at }
{
    match roots.get(at as usize) {
        Some(root) => *root,
        None => None,
    }
}

/// Gives the root to itself and to all modules without one that it reaches, unless it has one.
fn visit(
    alloc: Global,
    graph: &[Items<u32>],
    root: u32,
    roots: &mut Vec<Option<u32>>,
) -> Result<(), NoMemory>
    requires in_range { InRange graph.now }
    requires size { length roots.old.items ≡ length graph.now }
    requires within { root < length graph.now }
    requires closed { AreClosed graph.now roots.old.items }
    ensures { OnOk result (Floods graph.now root roots.old.items roots.new.items) }
{
    match root_of(roots.as_slice(), root) {
        Some(_) => Ok(()),
        None => flood(alloc, graph, root, roots),
    }
}

/// The roots of all modules, given the order in which a search is done with them.
fn give_roots(
    alloc: Global,
    runs: &[Items<u32>],
    finished: &[u32],
) -> Result<Vec<Option<u32>>, NoMemory>
    requires short { length runs.now ≤ 2 ^ 32 }
    requires in_range { InRange runs.now }
    requires order { IsFinishOrder runs.now (reverse finished.now) }
    requires all { HasAll runs.now (reverse finished.now) }
    requires there { AreThere runs.now (reverse finished.now) }
    ensures { IfOk result (λ roots. ShowCycles runs.now roots.items) }
{
    let callers = callers_of(alloc, runs)?;
    let mut roots = vec![in alloc; None; runs.len()]?;
    'finished: for behind in 0..finished.len() {
        let root = finished[finished.len() - 1 - behind];
        visit(alloc, callers.as_slice(), root, &mut roots)?;
    }
    Ok(roots)
}

/// The components of the modules whose runs these are, by their places. Time and memory grow with the
/// number of
/// modules and runs.
pub fn components_of(alloc: Global, runs: &[Items<u32>]) -> Result<Components, NoMemory>
    requires short { length runs.now ≤ 2 ^ 32 }
    requires in_range { InRange runs.now }
    ensures cycles { IfOk result (λ c. ShowCycles runs.now c.roots) }
    ensures order { IfOk result (λ c. HasNoCycle runs.now
        → is_callees_first runs.now c.callees_first ≡ true) }
{
    let callees_first = finish_order(alloc, runs)?;
    let roots = Items::from_vec(give_roots(alloc, runs, callees_first.as_slice())?);
    Ok(Components {
        roots,
        callees_first,
    })
}

impl Components {
    /// Whether a run of `callee` by `caller` lies on a cycle.
    pub fn is_on_cycle(&self, caller: u32, callee: u32) -> bool
        ensures { IsTrue result ↔ (root_of self.now.roots caller ≡ root_of self.now.roots callee) }
    {
        root_of(self.roots.as_slice(), caller) == root_of(self.roots.as_slice(), callee)
    }
}
