//! What is new is told to those that read it, who take their equations where these may give something.
ghost use Rattle.std.specs.Prelude.{◌≤◌};
ghost use Rattle.net_propagate.specs.Settling.{IsUnderWay, nets_in, question_in, left_in};

use crate::news::{News, Node};
use crate::see::see_signal;
use crate::step::status_at;
use crate::sweep::{note_gate, note_value};
use crate::task::Task;
use crate::watchers::Watcher;
use hh_base::memory::NoMemory;
use hh_base::value::Tri;
use net_list::record::NetRecords;
use net_solution::valuation::Valuation;
use std::alloc::Global;

fn tell_gate(
    alloc: Global,
    task: &Task<'_>,
    place: &mut Valuation,
    news: &mut News,
    gate: usize,
    status: Tri,
) -> Result<(), NoMemory>
    requires { IsUnderWay task.now place.old }
    ensures way { IsUnderWay task.now place.new }
    ensures up { left_in place.new ≤ left_in place.old }
{
    if !news.is_gate_due(task.nets, gate, status) {
        return Ok(());
    }
    note_gate(alloc, task, place, news, gate)?;
    Ok(())
}

fn tell_value(
    alloc: Global,
    task: &Task<'_>,
    place: &mut Valuation,
    news: &mut News,
    signal: usize,
) -> Result<(), NoMemory>
    requires { IsUnderWay task.now place.old }
    ensures way { IsUnderWay task.now place.new }
    ensures up { left_in place.new ≤ left_in place.old }
{
    if !news.is_value_due(signal) {
        return Ok(());
    }
    note_value(alloc, task, place, news, signal)?;
    Ok(())
}

fn signal_of(nets: &NetRecords, emission: usize) -> usize {
    match nets.emits.get(emission) {
        Some(emit) => emit.signal as usize,
        None => 0,
    }
}

fn tell_emission(
    alloc: Global,
    task: &Task<'_>,
    place: &mut Valuation,
    news: &mut News,
    emission: usize,
    decides: bool,
) -> Result<(), NoMemory>
    requires { IsUnderWay task.now place.old }
    ensures way { IsUnderWay task.now place.new }
    ensures up { left_in place.new ≤ left_in place.old }
{
    let signal = signal_of(task.nets, emission);
    if !news.is_emission_due(emission, signal, decides) {
        return Ok(());
    }
    note_value(alloc, task, place, news, signal)?;
    Ok(())
}

fn tell_signal(
    alloc: Global,
    task: &Task<'_>,
    place: &mut Valuation,
    signal: usize,
) -> Result<(), NoMemory>
    requires { IsUnderWay task.now place.old }
    ensures way { IsUnderWay task.now place.new }
    ensures up { left_in place.new ≤ left_in place.old }
{
    see_signal(alloc, task, place, signal)
}

fn is_absent(status: Tri) -> bool {
    matches!(status, Tri::Zero)
}

fn tell_one(
    alloc: Global,
    task: &Task<'_>,
    place: &mut Valuation,
    news: &mut News,
    watcher: Watcher,
    status: Tri,
) -> Result<(), NoMemory>
    requires { IsUnderWay task.now place.old }
    ensures way { IsUnderWay task.now place.new }
    ensures up { left_in place.new ≤ left_in place.old }
{
    match watcher {
        Watcher::Signal(signal) => tell_signal(alloc, task, place, signal),
        Watcher::Test(gate) => tell_gate(alloc, task, place, news, gate, status),
        Watcher::Control(emission) => {
            tell_emission(alloc, task, place, news, emission, is_absent(status))
        }
        Watcher::Sent(emission) => tell_emission(alloc, task, place, news, emission, false),
        Watcher::Base(signal) => tell_value(alloc, task, place, news, signal),
    }
}

fn tell_watchers(
    alloc: Global,
    task: &Task<'_>,
    place: &mut Valuation,
    news: &mut News,
    watchers: &[Watcher],
    status: Tri,
) -> Result<(), NoMemory>
    requires { IsUnderWay task.now place.old }
    ensures way { IsUnderWay task.now place.new }
    ensures up { left_in place.new ≤ left_in place.old }
{
    'watchers: for watcher in watchers {
        tell_one(alloc, task, place, news, *watcher, status)?;
    }
    Ok(())
}

fn tell_readers(
    alloc: Global,
    task: &Task<'_>,
    place: &mut Valuation,
    news: &mut News,
    readers: &[u32],
    status: Tri,
) -> Result<(), NoMemory>
    requires { IsUnderWay task.now place.old }
    ensures way { IsUnderWay task.now place.new }
    ensures up { left_in place.new ≤ left_in place.old }
{
    'readers: for gate in readers {
        tell_gate(alloc, task, place, news, *gate as usize, status)?;
    }
    Ok(())
}

fn tell_node(
    alloc: Global,
    task: &Task<'_>,
    place: &mut Valuation,
    news: &mut News,
    node: Node,
) -> Result<(), NoMemory>
    requires { IsUnderWay task.now place.old }
    ensures way { IsUnderWay task.now place.new }
    ensures up { left_in place.new ≤ left_in place.old }
{
    match node {
        Node::Gate(gate) => {
            let status = status_at(&place.gates, gate);
            tell_watchers(
                alloc,
                task,
                place,
                news,
                task.watchers.of_gate(gate),
                status,
            )?;
            tell_readers(
                alloc,
                task,
                place,
                news,
                task.watchers.readers_of(gate),
                status,
            )
        }
        Node::Value(signal) => {
            tell_watchers(
                alloc,
                task,
                place,
                news,
                task.watchers.of_value(signal),
                Tri::Unknown,
            )
        }
    }
}

/// Tells the next news. Tells whether there was one.
fn tell_next(
    alloc: Global,
    task: &Task<'_>,
    place: &mut Valuation,
    news: &mut News,
) -> Result<bool, NoMemory>
    requires { IsUnderWay task.now place.old }
    ensures way { IsUnderWay task.now place.new }
    ensures up { left_in place.new ≤ left_in place.old }
{
    match news.next() {
        Some(node) => {
            tell_node(alloc, task, place, news, node)?;
            Ok(true)
        }
        None => Ok(false),
    }
}

/// Tells all news, and those that come of it. Each gate and value gets known once, so there are no more than
/// these.
pub fn tell_all(
    alloc: Global,
    task: &Task<'_>,
    place: &mut Valuation,
    news: &mut News,
) -> Result<(), NoMemory>
    requires { IsUnderWay task.now place.old }
    ensures way { IsUnderWay task.now place.new }
    ensures up { left_in place.new ≤ left_in place.old }
{
    let count = task
        .nets
        .gates
        .len()
        .saturating_add(task.nets.signals.len());
    'news: for at in 0..count {
        if !tell_next(alloc, task, place, news)? {
            return Ok(());
        }
    }
    Ok(())
}
