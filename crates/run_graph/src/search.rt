//! A depth-first search over the runs of modules.

ghost use Rattle.std.specs.Prelude.{◌≡◌, ℕ, ◌+◌, ◌<◌, ◌≤◌, ◌^◌, [], ◌∷◌, ◌++◌, true, false, length, reverse};
ghost use Rattle.std.specs.Prelude.{IfOk, OnOk, OnSome, slice_get, slice_set};
ghost use Rattle.run_graph.specs.Reach.{InRange, callees};
ghost use Rattle.run_graph.specs.Search.{IsSearch, StaySeen, IsFinishOrder, HasAll, AreThere, opening};
ghost use Rattle.run_graph.specs.Work.{work_left};

use hh_base::memory::NoMemory;
use sqlite_items::Items;
use std::alloc::Global;

/// A module that the search is in. `next` is the first of its runs that is not followed yet.
#[derive(Clone, Copy, Drop)]
pub struct Frame {
    pub at: u32,
    pub next: usize,
}

/// What the search came to, the modules that it is in, and those that it is done with.
#[derive(Drop)]
struct Search {
    seen: Vec<bool>,
    path: Items<Frame>,
    finished: Items<u32>,
}

/// The run that is followed next.
fn next_run(runs: &[Items<u32>], frame: Frame) -> Option<u32>
    ensures run { result ≡ slice_get (callees runs.now frame.at) frame.next }
    ensures within { OnSome result (frame.next + 1 < 2 ^ 64) }
{
    let callees = runs.get(frame.at as usize)?.as_slice();
    let _count = callees.len();
    callees.get(frame.next).copied()
}

impl Search {
    /// Enters a module that the search did not come to before.
    fn open(&mut self, at: u32) -> Result<(), NoMemory>
        requires { slice_get self.old.seen.items at ≡ Some false }
        ensures path { OnOk result (self.new.path ≡ self.old.path ++ opening at ∷ []) }
        ensures seen { OnOk result (self.new.seen.items ≡ slice_set self.old.seen.items at true) }
        ensures finished { self.new.finished ≡ self.old.finished }
    {
        self.path.push(Frame { at, next: 0 })?;
        self.seen[at as usize] = true;
        Ok(())
    }

    /// Follows one run of the innermost module, or is done with that module. False where the search is in
    /// no module.
    fn step(&mut self, runs: &[Items<u32>]) -> Result<bool, NoMemory>
        requires in_range { InRange runs.now }
        requires search { IsSearch runs.now self.old.seen.items (reverse self.old.path)
            (reverse self.old.finished) }
        ensures search { OnOk result (IsSearch runs.now self.new.seen.items (reverse self.new.path)
            (reverse self.new.finished)) }
        ensures kept { OnOk result (StaySeen self.old.seen.items self.new.seen.items) }
        ensures ended { result ≡ Ok false → self.new.path ≡ [] }
        ensures less { result ≡ Ok true → work_left runs.now self.new.seen.items self.new.path < work_left
            runs.now self.old.seen.items self.old.path }
    {
        let Some(frame) = self.path.pop() else {
            return Ok(false);
        };
        let Some(callee) = next_run(runs, frame) else {
            self.finished.push(frame.at)?;
            return Ok(true);
        };
        self.path.push(Frame {
            at: frame.at,
            next: frame.next + 1,
        })?;
        if !self.seen[callee as usize] {
            self.open(callee)?;
        }
        Ok(true)
    }

    /// Goes on until it is in no module.
    fn run(&mut self, runs: &[Items<u32>]) -> Result<(), NoMemory>
        requires in_range { InRange runs.now }
        requires search { IsSearch runs.now self.old.seen.items (reverse self.old.path)
            (reverse self.old.finished) }
        ensures search { OnOk result (IsSearch runs.now self.new.seen.items [] (reverse self.new.finished)) }
        ensures ended { OnOk result (self.new.path ≡ []) }
        ensures kept { OnOk result (StaySeen self.old.seen.items self.new.seen.items) }
    {
        'steps: loop {
            if !self.step(runs)? {
                return Ok(());
            }
        }
    }
}

/// All modules, in the order in which a search is done with them.
pub fn finish_order(alloc: Global, runs: &[Items<u32>]) -> Result<Items<u32>, NoMemory>
    requires short { length runs.now ≤ 2 ^ 32 }
    requires in_range { InRange runs.now }
    ensures order { IfOk result (λ finished. IsFinishOrder runs.now (reverse finished)) }
    ensures all { IfOk result (λ finished. HasAll runs.now (reverse finished)) }
    ensures within { IfOk result (λ finished. AreThere runs.now (reverse finished)) }
{
    let mut search = Search {
        seen: vec![in alloc; false; runs.len()]?,
        path: Items::new(alloc),
        finished: Items::new(alloc),
    };
    'modules: for at in 0..runs.len() {
        if !search.seen[at] {
            search.open(at as u32)?;
            search.run(runs)?;
        }
    }
    Ok(search.finished)
}
