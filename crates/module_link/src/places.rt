//! The places of what names mean, at a place of a text.

use hh_base::name::Name;
use indexmap::IndexMap;
use link_faults::scope::Scope;
use std::alloc::Global;

/// The names in scope, and how many signals and traps of the module are declared before.
#[derive(Drop)]
pub struct Places {
    pub signals: Scope,
    pub traps: Scope,
    pub parameters: IndexMap<String, u32>,
    pub next_signal: u32,
    pub next_trap: u32,
}

impl Places {
    ghost use Rattle.std.specs.Prelude.{◌≡◌};
    ghost use Rattle.module_link.specs.Places.{ArePlaces, signal_place_of, trap_place_of, parameter_place_of};

    /// The place of a signal, and 0 where the name means none.
    pub fn signal(&self, name: &Name) -> u32
        requires { ArePlaces self.now }
        ensures { result ≡ signal_place_of self.now name.now }
    {
        self.signals.find(name.as_str()).unwrap_or(0)
    }

    pub fn trap(&self, name: &Name) -> u32
        requires { ArePlaces self.now }
        ensures { result ≡ trap_place_of self.now name.now }
    {
        self.traps.find(name.as_str()).unwrap_or(0)
    }

    pub fn parameter(&self, name: &Name) -> u32
        ensures { result ≡ parameter_place_of self.now name.now }
    {
        self.parameters.get(name.as_str()).copied().unwrap_or(0)
    }
}
