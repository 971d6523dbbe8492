//! What a machine is asked between its events.

use crate::programs::compiled;
use exec_instance::answer::{Answer, Answers};
use exec_instance::instance::Instance;
use hh_base::value::Value;
use reaction_run::event::Input;
use reaction_run::log::Log;
use reaction_run::reactor::Reactor;
use reaction_run::reply::Reply;
use std::alloc::Global;
use std::test::Fail;
use term_reactor::machine::TermMachine;

const TEXT: &str = "\
host ask(int): int;
module M(in A, inout V: int combine plus, out O: int) {
  suspend (A.now) { fork { async (V) call ask(4); } par { async (O) call ask(5); } }
}";

fn machine(alloc: Global, last: u64) -> Result<TermMachine, Fail> {
    Ok(TermMachine::boot(alloc, compiled(alloc, TEXT)?, last)?)
}

fn input(signal: u32, value: Value) -> Input {
    Input { signal, value }
}

#[test]
fn inputs_fit(rt: HostRuntime) -> Result<(), Fail> {
    let machine = machine(rt.alloc(), 0)?;
    assert_eq!(rt; machine.interface().len(), 3);
    assert!(rt; machine.fits(&[]));
    assert!(rt; machine.fits(&[input(1, Value::Int(5)), input(0, Value::Unit)]));
    assert!(rt; !machine.fits(&[input(0, Value::Int(5))]));
    assert!(rt; !machine.fits(&[input(1, Value::Unit)]));
    assert!(rt; !machine.fits(&[input(2, Value::Int(5))]));
    assert!(rt; !machine.fits(&[input(3, Value::Unit)]));
    assert!(rt; !machine.fits(&[input(0, Value::Unit), input(0, Value::Unit)]));
    Ok(())
}

fn post(machine: &mut TermMachine, alloc: Global, id: u64, log: &mut Log) -> Result<Reply, Fail> {
    let mut took = Answers::new(alloc);
    took.push(Answer {
        id,
        value: Value::Int(7),
        last: true,
    })?;
    Ok(machine.pump(alloc, &mut took, log)?)
}

/// Whether this instance, if it is one, has the id.
fn has_id(instance: Option<&Instance>, id: u64) -> bool {
    match instance {
        Some(instance) => instance.id == id,
        None => false,
    }
}

/// Whether instances 7 and 8 run, and no others.
fn runs_both(machine: &TermMachine) -> bool {
    has_id(machine.running(0), 7)
        && has_id(machine.running_with(8), 8)
        && machine.running(2).is_none()
        && machine.running_with(6).is_none()
        && !machine.settled(7)
}

/// Whether instance 8 runs alone.
fn runs_the_second(machine: &TermMachine) -> bool {
    machine.settled(7) && !machine.settled(8) && has_id(machine.running(0), 8)
}

/// Starts both instances.
fn start(machine: &mut TermMachine, alloc: Global, log: &mut Log) -> Result<Reply, Fail> {
    let mut none = Answers::new(alloc);
    Ok(machine.react(alloc, &[], &mut none, log)?)
}

#[test]
fn instances_run(rt: HostRuntime) -> Result<(), Fail> {
    let alloc = rt.alloc();
    let mut machine = machine(alloc, 6)?;
    let mut log = Log::new(alloc);
    assert!(rt; machine.takes_parts() && machine.settled(7));
    start(&mut machine, alloc, &mut log)?;
    assert!(rt; runs_both(&machine));
    post(&mut machine, alloc, 7, &mut log)?;
    assert!(rt; runs_the_second(&machine));
    Ok(())
}
