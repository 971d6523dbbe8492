//! What got known and is still to be told to those that read it, and how much each one still waits for.
//! Nothing but the order of work depends on it.

use crate::watchers::Counts;
use hh_base::memory::NoMemory;
use hh_base::value::Tri;
use net_list::gate::NetGate;
use net_list::record::NetRecords;
use std::alloc::Global;

/// A gate, or the value of a signal.
#[derive(Clone, Copy)]
pub enum Node {
    Gate(usize),
    Value(usize),
}

/// What got known in a reaction, in order, of which the first `told` were told to those that read it; and how
/// often each one reads what is not told.
#[derive(Drop)]
pub struct News {
    nodes: Vec<Node>,
    told: usize,
    left: Counts,
}

/// One less. Tells whether it was the last one.
fn count_down(counts: &mut Vec<usize>, place: usize) -> bool {
    if place >= counts.len() || counts[place] == 0 {
        return false;
    }
    counts[place] -= 1;
    counts[place] == 0
}

fn clear_count(counts: &mut Vec<usize>, place: usize) -> bool {
    if place >= counts.len() || counts[place] == 0 {
        return false;
    }
    counts[place] = 0;
    true
}

fn copy_counts(counts: &mut Vec<usize>, from: &[usize]) {
    for place in 0..from.len() {
        if place < counts.len() {
            counts[place] = from[place];
        }
    }
}

/// One input with this status decides the gate.
fn decides(gate: Option<&NetGate>, status: Tri) -> bool {
    match gate {
        Some(NetGate::And(_)) => matches!(status, Tri::Zero),
        Some(NetGate::Or(_)) => matches!(status, Tri::One),
        _ => false,
    }
}

impl News {
    /// None, with room for all that can get known of these nets.
    pub fn with_room(alloc: Global, nets: &NetRecords) -> Result<News, NoMemory> {
        let count = nets.gates.len().saturating_add(nets.signals.len());
        let nodes = Vec::with_capacity(alloc, count)?;
        let left = Counts::none(alloc, nets)?;
        Ok(News {
            nodes,
            told: 0,
            left,
        })
    }

    /// Nothing is known, and each one waits for all that it reads.
    pub fn begin(&mut self, counts: &Counts) {
        self.nodes.clear();
        self.told = 0;
        copy_counts(&mut self.left.gates, &counts.gates);
        copy_counts(&mut self.left.emissions, &counts.emissions);
        copy_counts(&mut self.left.values, &counts.values);
    }

    /// Adds one where it is new.
    pub fn note_if(&mut self, new: bool, node: Node) -> Result<(), NoMemory> {
        if new {
            self.nodes.push(node)?;
        }
        Ok(())
    }

    /// The next one that is to be told.
    pub fn next(&mut self) -> Option<Node> {
        if self.told >= self.nodes.len() {
            return None;
        }
        let node = self.nodes[self.told];
        self.told += 1;
        Some(node)
    }

    /// A gate is told that an input has this status. Tells whether its equation may give something then.
    pub fn is_gate_due(&mut self, nets: &NetRecords, gate: usize, status: Tri) -> bool {
        let last = count_down(&mut self.left.gates, gate);
        last || decides(nets.gates.get(gate), status)
    }

    /// An emission is told of something that it reads, which decides it, or is one of more. Tells whether
    /// it is the last one that its signal's value waits for.
    pub fn is_emission_due(&mut self, emission: usize, signal: usize, decides: bool) -> bool {
        let settled = if decides {
            clear_count(&mut self.left.emissions, emission)
        } else {
            count_down(&mut self.left.emissions, emission)
        };
        settled && count_down(&mut self.left.values, signal)
    }

    /// No emission of the signal is waited for.
    pub fn is_value_due(&self, signal: usize) -> bool {
        match self.left.values.get(signal) {
            Some(count) => *count == 0,
            None => false,
        }
    }
}
