//! The emissions of one signal in one reaction.
ghost use Rattle.std.specs.Prelude.{◌≡◌, ◌∷◌, ◌++◌, [], ◌↔◌, length, IsTrue, OnOk, OnErr};

use hh_base::value::{NoMemory, Value, Values};
use std::alloc::Global;
use std::marker::Model;

/// The values of the emissions of one signal in one reaction, in the order in which they were met.
/// Contracts see the list.
#[derive(Drop)]
pub struct Bag {
    values: Values,
}

impl Model for Bag {
    ghost use Rattle.std.specs.Prelude.{List};
    ghost use Rattle.hh_base.specs.declared.value.Value.{Value as AValue};

    ghost Value = { List AValue };

    ghost view = { λ b. b.values };
}

impl Bag {
    /// No emission.
    pub fn new(alloc: Global) -> Bag
        ensures { result ≡ [] }
    {
        Bag {
            values: Values::new(alloc),
        }
    }

    /// Adds the value of one more emission.
    pub fn add(&mut self, value: Value) -> Result<(), NoMemory>
        ensures ok { OnOk result (self.new ≡ self.old ++ value ∷ []) }
        ensures err { OnErr result (self.new ≡ self.old) }
    {
        self.values.push(value)?;
        Ok(())
    }

    /// How many emissions there are.
    pub fn len(&self) -> usize
        ensures { result ≡ length self.now }
    {
        self.values.len()
    }

    /// Whether the signal was not emitted.
    pub fn is_empty(&self) -> bool
        ensures { IsTrue result ↔ (self.now ≡ []) }
    {
        self.values.is_empty()
    }

    /// The values in the order in which they were met.
    pub fn as_slice(&self) -> &[Value]
        ensures { result.now ≡ self.now }
    {
        self.values.as_slice()
    }
}
