//! Gives a root to all modules that it reaches in a graph and that have none.

ghost use Rattle.std.specs.Prelude.{◌≡◌, ℕ, ◌+◌, ◌∷◌, [], ◌<◌, true, None, length, IfOk, OnOk};
ghost use Rattle.module_tree.specs.Runs.{is_among};
ghost use Rattle.run_graph.specs.Reach.{InRange, callees};
ghost use Rattle.run_graph.specs.Flood.{AreClosed, Spreads, Floods, root_of};

use hh_base::memory::NoMemory;
use sqlite_items::Items;
use std::alloc::Global;

/// Where a module leads to. One that is not there leads nowhere.
fn callees_of(graph: &[Items<u32>], at: u32) -> &[u32]
    ensures { result.now ≡ callees graph.now at }
{
    match graph.get(at as usize) {
        Some(callees) => callees.as_slice(),
        None => &[],
    }
}

/// Gives the root to each of these modules that has none, and puts it on the fringe.
fn spread(
    modules: &[u32],
    root: u32,
    roots: &mut Vec<Option<u32>>,
    fringe: &mut Items<u32>,
) -> Result<(), NoMemory>
    requires { (m : ℕ) → is_among modules.now m ≡ true → m < length roots.old.items }
    ensures { OnOk result (Spreads modules.now root roots.old.items roots.new.items fringe.old fringe.new) }
{
    'modules: for at in modules {
        if roots[*at as usize].is_none() {
            roots[*at as usize] = Some(root);
            fringe.push(*at)?;
        }
    }
    Ok(())
}

/// Gives the root to itself and to all modules without one that it reaches.
pub fn flood(
    alloc: Global,
    graph: &[Items<u32>],
    root: u32,
    roots: &mut Vec<Option<u32>>,
) -> Result<(), NoMemory>
    requires in_range { InRange graph.now }
    requires size { length roots.old.items ≡ length graph.now }
    requires within { root < length graph.now }
    requires fresh { root_of roots.old.items root ≡ None }
    requires closed { AreClosed graph.now roots.old.items }
    ensures { OnOk result (Floods graph.now root roots.old.items roots.new.items) }
{
    let mut fringe = Items::new(alloc);
    fringe.push(root)?;
    roots[root as usize] = Some(root);
    'fringe: while let Some(next) = fringe.pop() {
        spread(callees_of(graph, next), root, roots, &mut fringe)?;
    }
    Ok(())
}
