//! At which calls an object in memory fails.
ghost use Rattle.std.specs.Prelude.{◌≡◌, ◌<◌, ◌≤◌, ◌↔◌, ◌^◌, Contains, IsTrue};
ghost use Rattle.hh_io.specs.Memory.{after_call, first_call};

use std::marker::Model;

/// The numbers of the calls that fail, counted from 0, and how often a call has failed.
#[derive(Drop)]
pub struct FailingCalls {
    fails: Vec<u64>,
    next: u64,
    faults: u64,
}

impl Model for FailingCalls {
    ghost use Rattle.hh_io.specs.Memory.{Calls};

    ghost Value = { Calls };

    ghost view = { λ c. record { fails = c.fails.items; next = c.next; faults = c.faults } };
}

impl FailingCalls {
    /// Before the first call, with the numbers of the calls that are to fail.
    pub fn new(fails: Vec<u64>) -> FailingCalls
        ensures { result ≡ first_call fails.items }
    {
        FailingCalls {
            fails,
            next: 0,
            faults: 0,
        }
    }

    /// Counts a call, and answers whether it fails.
    pub fn fails_now(&mut self) -> bool
        ensures listed { IsTrue result ↔ Contains self.old.fails self.old.next }
        ensures counted { self.new ≡ after_call result self.old }
    {
        let failed = self.fails.contains(&self.next);
        self.next = self.next.saturating_add(1);
        if failed {
            self.faults = self.faults.saturating_add(1);
        }
        failed
    }

    /// How often a call has failed.
    pub fn faults(&self) -> u64
        ensures { result ≡ self.now.faults }
    {
        self.faults
    }
}
