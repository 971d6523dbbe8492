//! The runs of modules, turned round.

ghost use Rattle.std.specs.Prelude.{◌≡◌, ℕ, ◌++◌, ◌∷◌, [], ◌<◌, ◌≤◌, ◌^◌, true, length, replicate, slice_set};
ghost use Rattle.std.specs.Prelude.{IfOk, OnOk};
ghost use Rattle.module_tree.specs.Runs.{is_among};
ghost use Rattle.run_graph.specs.Reach.{InRange, callees};
ghost use Rattle.run_graph.specs.Callers.{AreCallers, AddsCaller};

use hh_base::memory::NoMemory;
use sqlite_items::Items;
use std::alloc::Global;

fn add(callers: &mut Vec<Items<u32>>, callee: u32, caller: u32) -> Result<(), NoMemory>
    requires { callee < length callers.old.items }
    ensures { OnOk result (callers.new.items ≡ slice_set callers.old.items callee
        (callees callers.old.items callee ++ caller ∷ [])) }
{
    callers[callee as usize].push(caller)?;
    Ok(())
}

/// Adds the caller of some modules to each of them.
fn add_to_all(callers: &mut Vec<Items<u32>>, called: &[u32], caller: u32) -> Result<(), NoMemory>
    requires { (n : ℕ) → is_among called.now n ≡ true → n < length callers.old.items }
    ensures added { OnOk result (AddsCaller callers.old.items callers.new.items called.now caller) }
    ensures size { OnOk result (length callers.new.items ≡ length callers.old.items) }
{
    'called: for callee in called {
        add(callers, *callee, caller)?;
    }
    Ok(())
}

fn no_callers(alloc: Global, count: usize) -> Result<Vec<Items<u32>>, NoMemory>
    ensures { IfOk result (λ callers. callers.items ≡ replicate count []) }
{
    let mut callers = Vec::new(alloc);
    'modules: for at in 0..count {
        callers.push(Items::new(alloc))?;
    }
    Ok(callers)
}

/// For each module those that run it.
pub fn callers_of(alloc: Global, runs: &[Items<u32>]) -> Result<Vec<Items<u32>>, NoMemory>
    requires short { length runs.now ≤ 2 ^ 32 }
    requires in_range { InRange runs.now }
    ensures callers { IfOk result (λ callers. AreCallers runs.now callers.items) }
    ensures size { IfOk result (λ callers. length callers.items ≡ length runs.now) }
{
    let mut callers = no_callers(alloc, runs.len())?;
    'modules: for caller in 0..runs.len() {
        add_to_all(&mut callers, runs[caller].as_slice(), caller as u32)?;
    }
    Ok(callers)
}
