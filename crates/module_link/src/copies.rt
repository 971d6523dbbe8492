//! Copies of what declarations keep.

ghost use Rattle.std.specs.Prelude.{◌≡◌, IfOk};

use hh_base::memory::NoMemory;
use hh_base::text::Text;
use hh_base::value::Value;
use module_tree::source::{HostNode, InterfaceNode, ParameterNode, SignalNode};
use sqlite_items::Items;
use std::alloc::Global;

fn copy_first(alloc: Global, first: &Option<Value>) -> Result<Option<Value>, NoMemory>
    ensures { IfOk result (λ v. v ≡ first.now) }
{
    match first {
        None => Ok(None),
        Some(value) => Ok(Some(value.copy(alloc)?)),
    }
}

pub fn copy_text(alloc: Global, text: &Option<Text>) -> Result<Option<Text>, NoMemory>
    ensures { IfOk result (λ t. t ≡ text.now) }
{
    match text {
        None => Ok(None),
        Some(text) => Ok(Some(text.copy(alloc)?)),
    }
}

fn copy_signal(alloc: Global, signal: &SignalNode) -> Result<SignalNode, NoMemory>
    ensures { IfOk result (λ s. s ≡ signal.now) }
{
    Ok(SignalNode {
        pos: signal.pos,
        name: signal.name.copy(alloc)?,
        kind: signal.kind,
        first: copy_first(alloc, &signal.first)?,
        combine: signal.combine,
    })
}

pub fn copy_signals(alloc: Global, signals: &[SignalNode]) -> Result<Items<SignalNode>, NoMemory>
    ensures { IfOk result (λ s. s ≡ signals.now) }
{
    let mut copies = Vec::with_capacity(alloc, signals.len())?;
    for signal in signals {
        copies.push(copy_signal(alloc, signal)?)?;
    }
    Ok(Items::from_vec(copies))
}

pub fn copy_interface(
    alloc: Global,
    interface: &[InterfaceNode],
) -> Result<Items<InterfaceNode>, NoMemory>
    ensures { IfOk result (λ i. i ≡ interface.now) }
{
    let mut copies = Vec::with_capacity(alloc, interface.len())?;
    for node in interface {
        copies.push(InterfaceNode {
            dir: node.dir,
            signal: copy_signal(alloc, &node.signal)?,
        })?;
    }
    Ok(Items::from_vec(copies))
}

pub fn copy_parameters(
    alloc: Global,
    parameters: &[ParameterNode],
) -> Result<Items<ParameterNode>, NoMemory>
    ensures { IfOk result (λ p. p ≡ parameters.now) }
{
    let mut copies = Vec::with_capacity(alloc, parameters.len())?;
    for parameter in parameters {
        copies.push(ParameterNode {
            pos: parameter.pos,
            name: parameter.name.copy(alloc)?,
            kind: parameter.kind,
        })?;
    }
    Ok(Items::from_vec(copies))
}

pub fn copy_host(alloc: Global, host: &HostNode) -> Result<HostNode, NoMemory>
    ensures { IfOk result (λ h. h ≡ host.now) }
{
    Ok(HostNode {
        pos: host.pos,
        token: host.token,
        name: host.name.copy(alloc)?,
        parameters: Items::from_slice(alloc, host.parameters.as_slice())?,
        answer: host.answer,
    })
}
