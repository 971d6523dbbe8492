//! Gates.
ghost use Rattle.std.specs.Prelude.{◌≡◌, [], ◌∷◌, ◌++◌, OnOk, OnErr};

use hh_base::memory::NoMemory;
use smallvec::SmallVec;
use std::alloc::Global;
use std::marker::Model;

/// The inputs of an `and` or `or`, in order: most have few, and lie in the gate itself. Contracts see the
/// list of their numbers.
#[derive(Drop)]
pub struct Wires {
    gates: SmallVec<u32, 4>,
}

impl Model for Wires {
    ghost use Rattle.std.specs.Prelude.{List, ℕ};

    ghost Value = { List ℕ };

    ghost view = { λ w. w.gates.items };
}

impl Wires {
    /// No inputs.
    pub fn new(alloc: Global) -> Wires
        ensures { result ≡ [] }
    {
        Wires {
            gates: SmallVec::new(alloc),
        }
    }

    /// Adds a gate as the last input. After an Err the inputs are as before.
    pub fn push(&mut self, gate: u32) -> Result<(), NoMemory>
        ensures ok { OnOk result (self.new ≡ self.old ++ gate ∷ []) }
        ensures err { OnErr result (self.new ≡ self.old) }
    {
        self.gates.push(gate)?;
        Ok(())
    }

    /// The inputs in their order.
    pub fn as_slice(&self) -> &[u32]
        ensures { result.now ≡ self.now }
    {
        self.gates.as_slice()
    }
}

/// A gate: a constant; `Not`, `And` and `Or` over other gates; the state of a register; the value of a test;
/// whether an input was given; and whether an exec holds an instance whose first answer is its last one
/// (`Answer`), or is not (`Part`). An `And` without inputs is 1, an `Or` without inputs 0.
#[derive(Drop)]
pub enum NetGate {
    Zero,
    One,
    Not(u32),
    And(Wires),
    Or(Wires),
    Reg(u32),
    Test(u32),
    Input(u32),
    Answer(u32),
    Part(u32),
}
