//! A running instance.

ghost use Rattle.std.specs.Prelude.{◌≡◌, IfOk};

use hh_base::item::Queue;
use hh_base::value::{NoMemory, Values, copy_values};
use std::alloc::Global;

/// A running instance of an async: its id, the place of its body among the program's bodies, the values of its
/// arguments, the answers that entered and were not used yet, and whether it was suspended in its last
/// reaction.
#[derive(Drop)]
pub struct Instance {
    pub id: u64,
    pub body: u32,
    pub args: Values,
    pub queue: Queue,
    pub suspended: bool,
}

impl Instance {
    pub fn copy(&self, alloc: Global) -> Result<Instance, NoMemory>
        ensures { IfOk result (λ i. i ≡ self.now) }
    {
        Ok(Instance {
            id: self.id,
            body: self.body,
            args: copy_values(alloc, self.args.as_slice())?,
            queue: self.queue.copy(alloc)?,
            suspended: self.suspended,
        })
    }
}
