//! The running instances of a machine.

ghost use Rattle.std.specs.Prelude.{◌≡◌, ◌<◌, ◌≤◌, ◌++◌, ◌^◌, [], IfOk, OnOk, OnErr, MatchOption};
ghost use Rattle.std.specs.Prelude.{MatchResult, slice_get, length};
ghost use Rattle.std.specs.Option.{option_copied};

use crate::instance::Instance;
use hh_base::value::NoMemory;
use std::alloc::Global;
use std::marker::Model;

mod advancing;
mod entering;

/// The running instances in rising id, and the last id that was given. Contracts see both.
#[derive(Drop)]
pub struct Instances {
    last: u64,
    running: Vec<Instance>,
}

impl Model for Instances {
    ghost use Rattle.exec_instance.specs.Running.{Running, IsRising};

    ghost Value = { Running };

    ghost view = { λ r. record { last = r.last; instances = r.running.items } };

    ghost invariant = { λ r. IsRising r.running.items r.last };
}

impl Instances {
    ghost use Rattle.exec_instance.specs.Running.{IsRising};

    /// No instance runs, and this was the last id.
    pub fn new(alloc: Global, last: u64) -> Instances
        ensures { result ≡ record { last = last; instances = [] } }
    {
        Instances {
            last,
            running: Vec::new(alloc),
        }
    }

    /// The last id that was given.
    pub fn last(&self) -> u64
        ensures last { result ≡ self.now.last }
        ensures rising { IsRising self.now.instances self.now.last }
    {
        self.last
    }

    /// The running instance at this place, or None past the last one.
    pub fn at(&self, index: usize) -> Option<&Instance>
        ensures { option_copied result ≡ slice_get self.now.instances index }
    {
        self.running.get(index)
    }

    pub fn copy(&self, alloc: Global) -> Result<Instances, NoMemory>
        ensures { IfOk result (λ i. i ≡ self.now) }
    {
        let mut running = Vec::with_capacity(alloc, self.running.len())?;
        for instance in &self.running {
            running.push(instance.copy(alloc)?)?;
        }
        Ok(Instances {
            last: self.last,
            running,
        })
    }
}
