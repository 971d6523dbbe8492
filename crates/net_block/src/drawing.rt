//! Gates and records, drawn one behind the other.

ghost use Rattle.std.specs.Prelude.{◌≡◌, ◌+◌, [], ◌∷◌, IfOk};
ghost use Rattle.net_list.specs.declared.gate.NetGate.TheVariants as gate;
ghost use Rattle.net_block.specs.Drawn.{drawn, next_of, AddsGate};

use crate::number::number;
use hh_base::memory::NoMemory;
use net_list::gate::{NetGate, Wires};
use net_list::record::{NetEmit, NetExec, NetSignal, NetTest};
use std::alloc::Global;

/// What is drawn of nets so far: gates from number `first_gate` on, registers from number `first_register`
/// on, and records. `emitters` has for each signal the gates that are 1 where it is emitted.
#[derive(Drop)]
pub struct Drawing {
    pub first_gate: u32,
    pub first_register: u32,
    pub gates: Vec<NetGate>,
    pub registers: Vec<(bool, u32)>,
    pub tests: Vec<NetTest>,
    pub emits: Vec<NetEmit>,
    pub execs: Vec<NetExec>,
    pub signals: Vec<NetSignal>,
    pub emitters: Vec<Wires>,
}

/// The number that is `count` behind this one.
fn number_behind(first: u32, count: usize) -> Result<u32, NoMemory>
    ensures { IfOk result (λ n. n ≡ count + first) }
{
    match count.checked_add(first as usize) {
        Some(place) => {
            let number = number(place)?;
            Ok(number)
        }
        None => Err(NoMemory),
    }
}

impl Drawing {
    /// The number of the next gate.
    pub fn next_gate(&self) -> Result<u32, NoMemory>
        ensures { IfOk result (λ n. n ≡ (next_of (drawn self.now)).gate) }
    {
        let number = number_behind(self.first_gate, self.gates.len())?;
        Ok(number)
    }

    /// The number of the next register.
    pub fn next_register(&self) -> Result<u32, NoMemory>
        ensures { IfOk result (λ n. n ≡ (next_of (drawn self.now)).register) }
    {
        let number = number_behind(self.first_register, self.registers.len())?;
        Ok(number)
    }

    /// Draws a gate, and answers its number.
    pub fn gate(&mut self, gate: NetGate) -> Result<u32, NoMemory>
        ensures { IfOk result (λ n. AddsGate (drawn self.old) (drawn self.new) gate n) }
    {
        let number = self.next_gate()?;
        self.gates.push(gate)?;
        Ok(number)
    }

    /// Draws a gate that is 1 where both of these are.
    pub fn and(&mut self, alloc: Global, a: u32, b: u32) -> Result<u32, NoMemory>
        ensures { IfOk result (λ n. AddsGate (drawn self.old) (drawn self.new) (gate.And (a ∷ b ∷ [])) n) }
    {
        let mut wires = Wires::new(alloc);
        wires.push(a)?;
        wires.push(b)?;
        self.gate(NetGate::And(wires))
    }

    /// Draws a gate that is 1 where one of these is.
    pub fn or(&mut self, alloc: Global, a: u32, b: u32) -> Result<u32, NoMemory>
        ensures { IfOk result (λ n. AddsGate (drawn self.old) (drawn self.new) (gate.Or (a ∷ b ∷ [])) n) }
    {
        let mut wires = Wires::new(alloc);
        wires.push(a)?;
        wires.push(b)?;
        self.gate(NetGate::Or(wires))
    }

    /// Draws a gate that is 1 where all three are.
    pub fn and_three(&mut self, alloc: Global, a: u32, b: u32, c: u32) -> Result<u32, NoMemory>
        ensures { IfOk result
            (λ n. AddsGate (drawn self.old) (drawn self.new) (gate.And (a ∷ b ∷ c ∷ [])) n) }
    {
        let mut wires = Wires::new(alloc);
        wires.push(a)?;
        wires.push(b)?;
        wires.push(c)?;
        self.gate(NetGate::And(wires))
    }
}
