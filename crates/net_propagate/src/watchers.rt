//! Who reads what of nets, made once. But for the lists of emissions, what is here says which equation is
//! taken next, and so how long a reaction takes; what it comes to does not depend on it.

ghost use Rattle.std.specs.Prelude.{◌≡◌, [], IfOk, get_or};
ghost use Rattle.net_propagate.specs.Settling.{IsListed};

use hh_base::memory::NoMemory;
use host_expr::expr::{Expr, ExprNode};
use net_list::gate::NetGate;
use net_list::record::{NetEmit, NetRecords, NetSignal, Sent};
use net_readers::readers::{Readers, prepare};
use sqlite_items::Boxed;
use std::alloc::Global;

/// One that reads a gate or a signal's value: what is known of a signal, the gate of a test, an emission by
/// its control or by what it carries, and a value by its base.
#[derive(Clone, Copy)]
pub enum Watcher {
    Signal(usize),
    Test(usize),
    Control(usize),
    Sent(usize),
    Base(usize),
}

/// How often each gate, emission and value reads others.
#[derive(Drop)]
pub struct Counts {
    pub gates: Vec<usize>,
    pub emissions: Vec<usize>,
    pub values: Vec<usize>,
}

/// Who reads each gate, other than gates, and each signal's value. Those that are signals come first.
#[derive(Drop)]
pub struct Watched {
    gates: Vec<Vec<Watcher>>,
    values: Vec<Vec<Watcher>>,
    counts: Counts,
}

/// Who reads what of nets, and the emissions of each signal.
#[derive(Drop)]
pub struct Watchers {
    pub readers: Readers,
    pub watched: Watched,
}

fn no_watchers(alloc: Global, count: usize) -> Result<Vec<Vec<Watcher>>, NoMemory> {
    let mut lists = Vec::with_capacity(alloc, count)?;
    for place in 0..count {
        lists.push(Vec::new(alloc))?;
    }
    Ok(lists)
}

/// As many noughts.
pub fn noughts(alloc: Global, count: usize) -> Result<Vec<usize>, NoMemory> {
    let mut counts = Vec::with_capacity(alloc, count)?;
    for place in 0..count {
        counts.push(0)?;
    }
    Ok(counts)
}

fn watch(lists: &mut Vec<Vec<Watcher>>, place: usize, watcher: Watcher) -> Result<(), NoMemory> {
    if place < lists.len() {
        let list = &mut lists[place];
        list.push(watcher)?;
    }
    Ok(())
}

fn count(counts: &mut Vec<usize>, place: usize, more: usize) {
    if place < counts.len() {
        counts[place] = counts[place].saturating_add(more);
    }
}

impl Counts {
    /// All are nought.
    pub fn none(alloc: Global, nets: &NetRecords) -> Result<Counts, NoMemory> {
        let gates = noughts(alloc, nets.gates.len())?;
        let emissions = noughts(alloc, nets.emits.len())?;
        let values = noughts(alloc, nets.signals.len())?;
        Ok(Counts {
            gates,
            emissions,
            values,
        })
    }

    fn count_watcher(&mut self, watcher: Watcher) {
        match watcher {
            Watcher::Test(gate) => count(&mut self.gates, gate, 1),
            Watcher::Control(emission) | Watcher::Sent(emission) => count(
                &mut self.emissions,
                emission,
                1,
            ),
            Watcher::Signal(_) | Watcher::Base(_) => {}
        }
    }
}

fn inputs_of(gate: &NetGate) -> usize {
    match gate {
        NetGate::Not(_) => 1,
        NetGate::And(inputs) => inputs.as_slice().len(),
        NetGate::Or(inputs) => inputs.as_slice().len(),
        _ => 0,
    }
}

impl Watched {
    fn none(alloc: Global, nets: &NetRecords) -> Result<Watched, NoMemory> {
        let gates = no_watchers(alloc, nets.gates.len())?;
        let values = no_watchers(alloc, nets.signals.len())?;
        let counts = Counts::none(alloc, nets)?;
        Ok(Watched {
            gates,
            values,
            counts,
        })
    }

    fn watch_gate(&mut self, gate: u32, watcher: Watcher) -> Result<(), NoMemory> {
        self.counts.count_watcher(watcher);
        watch(&mut self.gates, gate as usize, watcher)
    }

    fn watch_value(&mut self, signal: u32, watcher: Watcher) -> Result<(), NoMemory> {
        self.counts.count_watcher(watcher);
        watch(&mut self.values, signal as usize, watcher)
    }

    fn watch_status(
        &mut self,
        nets: &NetRecords,
        signal: u32,
        watcher: Watcher,
    ) -> Result<(), NoMemory> {
        match nets.signals.get(signal as usize) {
            Some(signal) => self.watch_gate(signal.status, watcher),
            None => Ok(()),
        }
    }

    fn watch_pre(
        &mut self,
        nets: &NetRecords,
        signal: u32,
        watcher: Watcher,
    ) -> Result<(), NoMemory> {
        match nets.signals.get(signal as usize) {
            Some(signal) => self.watch_gate(signal.pre, watcher),
            None => Ok(()),
        }
    }

    fn watch_base(
        &mut self,
        nets: &NetRecords,
        signal: u32,
        watcher: Watcher,
    ) -> Result<(), NoMemory> {
        match nets.signals.get(signal as usize) {
            Some(signal) => self.watch_gate(signal.sel, watcher),
            None => Ok(()),
        }
    }

    #[cycle(reads)]
    fn watch_expression(
        &mut self,
        nets: &NetRecords,
        expr: &Expr<u32>,
        watcher: Watcher,
    ) -> Result<(), NoMemory> {
        match &expr.node {
            ExprNode::Now(signal) => self.watch_status(nets, *signal, watcher),
            ExprNode::Pre(signal) => self.watch_pre(nets, *signal, watcher),
            ExprNode::NowVal(signal) => self.watch_value(*signal, watcher),
            ExprNode::PreVal(signal) => self.watch_base(nets, *signal, watcher),
            ExprNode::Not(a) | ExprNode::Neg(a) => self.watch_part(nets, a, watcher),
            ExprNode::Arith(_, a, b) | ExprNode::Compare(_, a, b) => {
                self.watch_part(nets, a, watcher)?;
                self.watch_part(nets, b, watcher)
            }
            ExprNode::And(a, b) | ExprNode::Or(a, b) => {
                self.watch_part(nets, a, watcher)?;
                self.watch_part(nets, b, watcher)
            }
            ExprNode::Choose(a, b, c) => {
                self.watch_part(nets, a, watcher)?;
                self.watch_part(nets, b, watcher)?;
                self.watch_part(nets, c, watcher)
            }
            _ => Ok(()),
        }
    }

    #[cycle(reads)]
    fn watch_part(
        &mut self,
        nets: &NetRecords,
        part: &Boxed<Expr<u32>>,
        watcher: Watcher,
    ) -> Result<(), NoMemory> {
        self.watch_expression(nets, part.get(), watcher)
    }

    fn watch_signal(&mut self, number: usize, signal: &NetSignal) -> Result<(), NoMemory> {
        let seen = Watcher::Signal(number);
        self.watch_gate(signal.status, seen)?;
        self.watch_gate(signal.pre, seen)?;
        self.watch_gate(signal.sel, seen)
    }

    fn watch_signals(&mut self, nets: &NetRecords) -> Result<(), NoMemory> {
        let signals = nets.signals.as_slice();
        for (number, signal) in signals.iter().enumerate() {
            self.watch_signal(number, signal)?;
        }
        Ok(())
    }

    fn watch_bases(&mut self, nets: &NetRecords) -> Result<(), NoMemory> {
        let signals = nets.signals.as_slice();
        for (number, signal) in signals.iter().enumerate() {
            self.watch_gate(signal.sel, Watcher::Base(number))?;
        }
        Ok(())
    }

    fn watch_test(
        &mut self,
        nets: &NetRecords,
        number: usize,
        gate: &NetGate,
    ) -> Result<(), NoMemory> {
        count(&mut self.counts.gates, number, inputs_of(gate));
        match gate {
            NetGate::Test(test) => match nets.tests.get(*test as usize) {
                Some(test) => self.watch_expression(nets, &test.expr, Watcher::Test(number)),
                None => Ok(()),
            },
            _ => Ok(()),
        }
    }

    fn watch_tests(&mut self, nets: &NetRecords) -> Result<(), NoMemory> {
        let gates = nets.gates.as_slice();
        for (number, gate) in gates.iter().enumerate() {
            self.watch_test(nets, number, gate)?;
        }
        Ok(())
    }

    fn watch_emission(
        &mut self,
        nets: &NetRecords,
        number: usize,
        emit: &NetEmit,
    ) -> Result<(), NoMemory> {
        count(&mut self.counts.values, emit.signal as usize, 1);
        self.watch_gate(emit.control, Watcher::Control(number))?;
        match &emit.sent {
            Sent::Computed(expr) => self.watch_expression(nets, expr, Watcher::Sent(number)),
            _ => Ok(()),
        }
    }

    fn watch_emissions(&mut self, nets: &NetRecords) -> Result<(), NoMemory> {
        let emits = nets.emits.as_slice();
        for (number, emit) in emits.iter().enumerate() {
            self.watch_emission(nets, number, emit)?;
        }
        Ok(())
    }

    fn of(alloc: Global, nets: &NetRecords) -> Result<Watched, NoMemory> {
        let mut watched = Watched::none(alloc, nets)?;
        watched.watch_signals(nets)?;
        watched.watch_tests(nets)?;
        watched.watch_emissions(nets)?;
        watched.watch_bases(nets)?;
        Ok(watched)
    }
}

impl Watchers {
    /// Who reads what in these nets. The time and the memory are in proportion to what is read.
    pub fn of(alloc: Global, nets: &NetRecords) -> Result<Watchers, NoMemory>
        ensures { IfOk result (IsListed nets.now) }
    {
        let readers = prepare(alloc, nets)?;
        let watched = Watched::of(alloc, nets)?;
        Ok(Watchers { readers, watched })
    }

    /// Those other than gates that read a gate.
    pub fn of_gate(&self, gate: usize) -> &[Watcher] {
        match self.watched.gates.get(gate) {
            Some(list) => list.as_slice(),
            None => &[],
        }
    }

    /// The gates that read a gate.
    pub fn readers_of(&self, gate: usize) -> &[u32] {
        match self.readers.gates.get(gate) {
            Some(readers) => readers.as_slice(),
            None => &[],
        }
    }

    /// The emissions of a signal, by their numbers.
    pub fn emissions_of(&self, signal: usize) -> &[u32]
        ensures { result.now ≡ get_or self.now.readers.signals.items signal [] }
    {
        match self.readers.signals.get(signal) {
            Some(emissions) => emissions.as_slice(),
            None => &[],
        }
    }

    /// Those that read a signal's value.
    pub fn of_value(&self, signal: usize) -> &[Watcher] {
        match self.watched.values.get(signal) {
            Some(list) => list.as_slice(),
            None => &[],
        }
    }

    /// How often each one reads others.
    pub fn counts(&self) -> &Counts {
        &self.watched.counts
    }
}
