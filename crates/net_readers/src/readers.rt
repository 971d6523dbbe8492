//! The readers of each gate, and the emissions of each signal.
ghost use Rattle.std.specs.Prelude.{◌≡◌, ◌≤◌, ◌∷◌, [], IfOk, OnOk, length, map, replicate};
ghost use Rattle.net_readers.specs.Readers.{inputs_of, each_time, readers_from, emissions_from, Lists, Grows};

use hh_base::memory::NoMemory;
use net_list::gate::{NetGate, Wires};
use net_list::record::NetRecords;
use std::alloc::Global;

/// The readers of each gate, and the emissions of each signal, by their numbers in order. A gate that reads
/// another one twice is its reader twice.
#[derive(Drop)]
pub struct Readers {
    pub gates: Vec<Wires>,
    pub signals: Vec<Wires>,
}

fn no_lists(alloc: Global, count: usize) -> Result<Vec<Wires>, NoMemory>
    ensures { IfOk result (λ v. v.items ≡ replicate count []) }
{
    let mut lists = Vec::with_capacity(alloc, count)?;
    for place in 0..count {
        lists.push(Wires::new(alloc))?;
    }
    Ok(lists)
}

/// Adds a number to the list at this place, if there is one.
fn add(lists: &mut Vec<Wires>, place: u32, number: u32) -> Result<(), NoMemory>
    ensures { OnOk result (Grows lists.old.items lists.new.items
        (λ n. each_time n number (place ∷ []))) }
{
    if (place as usize) < lists.len() {
        let list = &mut lists[place as usize];
        list.push(number)?;
    }
    Ok(())
}

/// Adds a number to the list at each of these places.
fn add_all(lists: &mut Vec<Wires>, places: &[u32], number: u32) -> Result<(), NoMemory>
    ensures { OnOk result (Grows lists.old.items lists.new.items (λ n. each_time n number places.now)) }
{
    for place in places {
        add(lists, *place, number)?;
    }
    Ok(())
}

fn add_gate(lists: &mut Vec<Wires>, gate: &NetGate, number: u32) -> Result<(), NoMemory>
    ensures { OnOk result (Grows lists.old.items lists.new.items
        (λ n. each_time n number (inputs_of gate.now))) }
{
    match gate {
        NetGate::Not(input) => add(lists, *input, number),
        NetGate::And(inputs) => add_all(lists, inputs.as_slice(), number),
        NetGate::Or(inputs) => add_all(lists, inputs.as_slice(), number),
        _ => add_all(lists, &[], number),
    }
}

/// A number of 32 bits. More, which the rules of nets do not allow, is want of memory.
fn number_of(place: usize) -> Result<u32, NoMemory>
    ensures { IfOk result (λ n. n ≡ place) }
{
    match u32::try_from(place) {
        Ok(number) => Ok(number),
        Err(_) => Err(NoMemory),
    }
}

/// The readers of each gate.
pub fn gate_readers(alloc: Global, nets: &NetRecords) -> Result<Vec<Wires>, NoMemory>
    ensures { IfOk result (λ v. Lists v.items (length nets.now.gates)
        (λ g. readers_from 0 g nets.now.gates)) }
{
    let gates = nets.gates.as_slice();
    let mut lists = no_lists(alloc, gates.len())?;
    for (place, gate) in gates.iter().enumerate() {
        add_gate(&mut lists, gate, number_of(place)?)?;
    }
    Ok(lists)
}

/// The emissions of each signal.
pub fn signal_emissions(alloc: Global, nets: &NetRecords) -> Result<Vec<Wires>, NoMemory>
    ensures { IfOk result (λ v. Lists v.items (length nets.now.signals)
        (λ s. emissions_from 0 s nets.now.emits)) }
{
    let emits = nets.emits.as_slice();
    let mut lists = no_lists(alloc, nets.signals.len())?;
    for (place, emit) in emits.iter().enumerate() {
        add(&mut lists, emit.signal, number_of(place)?)?;
    }
    Ok(lists)
}

/// What reads what in these nets. The time is that of one walk over all inputs and emissions, and the memory is
/// in proportion to them.
pub fn prepare(alloc: Global, nets: &NetRecords) -> Result<Readers, NoMemory>
    ensures gates { IfOk result (λ r. Lists r.gates.items (length nets.now.gates)
        (λ g. readers_from 0 g nets.now.gates)) }
    ensures signals { IfOk result (λ r. Lists r.signals.items (length nets.now.signals)
        (λ s. emissions_from 0 s nets.now.emits)) }
{
    let gates = gate_readers(alloc, nets)?;
    let signals = signal_emissions(alloc, nets)?;
    Ok(Readers { gates, signals })
}
