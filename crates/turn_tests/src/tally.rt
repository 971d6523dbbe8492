//! A value behind the turn: a total, beside the additions that made it.
ghost use Rattle.std.specs.Prelude.{◌≡◌, []};
ghost use Rattle.std.specs.List.{sum};

use std::alloc::Global;

/// A total, and the history of what was added.
#[derive(Drop)]
pub struct Tally {
    pub total: u64,
    pub added: Vec<u64>,
    ghost summed: { total ≡ sum added.items },
}

impl Tally {
    pub fn new(alloc: Global) -> Tally
        ensures { result.added.items ≡ [] }
    {
        Tally {
            total: 0,
            added: Vec::new(alloc),
        }
    }
}
