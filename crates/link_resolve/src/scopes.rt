//! What comes into scope.

ghost use Rattle.std.specs.Prelude.{◌≡◌, ◌+◌, ◌≤◌, ◌^◌, ◌∷◌, ◌++◌, length, map, IfOk, OnOk};
ghost use Rattle.module_tree.specs.Scopes.{local_signals, interface_signals};
ghost use Rattle.link_faults.specs.InnermostFirst.{IsScope, in_scope, declares, shown};
ghost use Rattle.std.specs.Borrow.{Bor};
ghost use Rattle.module_tree.specs.declared.source.ParameterNode.{ParameterNode as AParameter};
ghost use Rattle.link_faults.specs.Named.{Name as AName, place_of};
ghost use Rattle.module_link.specs.Resolved.{or_first};
ghost use Rattle.module_link.specs.Places.{ArePlaces, Shows, declared_before, signal_place_of};
ghost use Rattle.module_link.specs.Places.{parameter_place_of};
ghost use Rattle.link_resolve.specs.Walking.{SameButSignals, SameButTraps, module_scope, module_declared};

use hh_base::memory::NoMemory;
use hh_base::name::Name;
use indexmap::IndexMap;
use link_faults::scope::Scope;
use module_link::places::Places;
use module_link::tables::{MOST_NAMES, first_places};
use module_tree::source::{InterfaceNode, ParameterNode, SignalNode};
use std::alloc::Global;

/// The place behind so many others.
pub fn place_behind(first: u32, count: usize) -> Result<u32, NoMemory>
    ensures { IfOk result (λ n. n ≡ first + count) }
{
    let room = u32::MAX - first;
    if count > room as usize {
        return Err(NoMemory);
    }
    Ok(first + count as u32)
}

/// The signals of a `signal` list come into scope.
pub fn enter_signals(
    alloc: Global,
    places: &mut Places,
    signals: &[SignalNode],
) -> Result<(), NoMemory>
    requires { ArePlaces places.old }
    ensures places { OnOk result (ArePlaces places.new) }
    ensures same { OnOk result (SameButSignals places.old places.new) }
    ensures next { OnOk result (places.new.next_signal ≡ places.old.next_signal + length signals.now) }
    ensures declared { OnOk result (in_scope places.new.signals ≡ map shown
        (local_signals places.old.next_signal signals.now) ++ in_scope places.old.signals) }
{
    let first = places.next_signal;
    places.next_signal = place_behind(first, signals.len())?;
    places.signals.enter_signals(alloc, signals, first)?;
    Ok(())
}

/// A trap comes into scope.
pub fn enter_trap(alloc: Global, places: &mut Places, name: &Name) -> Result<(), NoMemory>
    requires { ArePlaces places.old }
    ensures places { OnOk result (ArePlaces places.new) }
    ensures same { OnOk result (SameButTraps places.old places.new) }
    ensures next { OnOk result (places.new.next_trap ≡ places.old.next_trap + 1) }
    ensures declared { OnOk result (in_scope places.new.traps ≡ declares name.now places.old.next_trap
        ∷ in_scope places.old.traps) }
{
    let place = places.next_trap;
    places.next_trap = place_behind(place, 1)?;
    places.traps.enter(alloc, name.as_str(), place)?;
    Ok(())
}

/// The signals of an interface, in scope.
fn interface_scope(alloc: Global, interface: &[InterfaceNode]) -> Result<Scope, NoMemory>
    ensures scope { IfOk result (λ s. IsScope s) }
    ensures declared { IfOk result (λ s. in_scope s ≡ map shown (interface_signals interface.now)) }
{
    if interface.len() > MOST_NAMES {
        return Err(NoMemory);
    }
    let mut scope = Scope::new(alloc);
    'signals: for behind in 0..interface.len() {
        let at = interface.len() - 1 - behind;
        scope.enter(alloc, interface[at].signal.name.as_str(), at as u32)?;
    }
    Ok(scope)
}

/// What is in scope where the block of a module begins.
pub fn module_places(alloc: Global, interface: &[InterfaceNode]) -> Result<Places, NoMemory>
    ensures places { IfOk result (λ p. ArePlaces p) }
    ensures shows { IfOk result (λ p. Shows p (module_scope interface.now)) }
    ensures before { IfOk result (λ p. declared_before p ≡ module_declared interface.now) }
{
    Ok(Places {
        signals: interface_scope(alloc, interface)?,
        traps: Scope::new(alloc),
        parameters: IndexMap::new(alloc),
        next_signal: place_behind(0, interface.len())?,
        next_trap: 0,
    })
}

fn parameter_names<'a>(
    alloc: Global,
    parameters: &'a [ParameterNode],
) -> Result<Vec<&'a Name>, NoMemory>
    ensures { IfOk result (λ v. map (λ (n : Bor AName). n.now) v.items ≡ map (λ (p : AParameter). p.name)
        parameters.now) }
{
    let mut names = Vec::new(alloc);
    for parameter in parameters {
        names.push(&parameter.name)?;
    }
    Ok(names)
}

/// What is in scope in a body: its parameters.
pub fn body_places(alloc: Global, parameters: &[ParameterNode]) -> Result<Places, NoMemory>
    ensures places { IfOk result (λ p. ArePlaces p) }
    ensures signals { IfOk result (λ p. (n : AName) → signal_place_of p n ≡ 0) }
    ensures parameters { IfOk result (λ p. (n : AName) → parameter_place_of p n ≡ or_first
        (place_of (map (λ (p : AParameter). p.name) parameters.now) n)) }
{
    let names = parameter_names(alloc, parameters)?;
    Ok(Places {
        signals: Scope::new(alloc),
        traps: Scope::new(alloc),
        parameters: first_places(alloc, names.as_slice())?,
        next_signal: 0,
        next_trap: 0,
    })
}
