//! Going over the parts of a module.

ghost use Rattle.std.specs.Prelude.{◌≡◌, ℕ, ◌+◌, ◌≤◌, ◌^◌, ◌++◌, List, length, map, OnOk, IfOk, is_some};
ghost use Rattle.module_tree.specs.declared.source.SignalNode.{SignalNode as ASignalNode};
ghost use Rattle.module_tree.specs.Scopes.{InScope, with_signals, with_trap};
ghost use Rattle.link_faults.specs.Named.{Name as AName};
ghost use Rattle.indexmap.specs.IndexMap.{get_by_text};
ghost use Rattle.module_tree.specs.Parts.{Test, Emission, Locals, Exit, Call, Start, here};
ghost use Rattle.link_faults.specs.TextTables.{IsText};
ghost use Rattle.link_faults.specs.Walks.{Follows, IsReady, Moves, Stands, local_meaning};

use crate::fault::{LinkFault, LinkKind, earlier};
use crate::names::{Meaning, Names};
use crate::parts::{fault_if, first_emission, first_expected, first_wrong};
use crate::runs::{first_call, first_start};
use crate::scope::Scope;
use crate::table::table_of;
use crate::text::{Text, callable_of, interface_of};
use hh_base::memory::NoMemory;
use hh_base::name::Name;
use hh_base::value::{Dir, Kind, Pos};
use module_tree::source::{AsyncNode, Binding, ExprAt, NameAt, SignalNode};
use sqlite_items::Items;
use std::alloc::Global;

/// More signals than this in a module are too many for memory.
const SIGNAL_LIMIT: usize = 2_147_483_648;

/// A run of a module that is there, by the module's place.
#[derive(Clone, Copy, Drop)]
pub struct RunAt {
    pub pos: Pos,
    pub callee: usize,
}

/// Goes over the parts of a module, and keeps the first fault and all runs.
#[derive(Drop)]
pub struct Walker {
    pub names: Names,
    pub traps: Scope,
    pub first: Option<LinkFault>,
    pub runs: Items<RunAt>,
}

impl Walker {
    fn has_trap(&self, name: &Name) -> bool
        ensures { result ≡ is_some (get_by_text self.now.traps.places name.now) }
    {
        self.traps.places.get(name.as_str()).is_some()
    }

    pub fn test(&mut self, text: &Text<'_>, x: &ExprAt<Name>)
        ensures { Follows text.now.parts.now (here (Test x.now)) self.old self.new }
    {
        let found = first_expected(&self.names, Kind::Bool, x);
        self.first = earlier(self.first, found);
    }

    pub fn emission(&mut self, text: &Text<'_>, signal: &NameAt<Name>, value: &Option<ExprAt<Name>>)
        ensures { Follows text.now.parts.now (here (Emission signal.now value.now)) self.old self.new }
    {
        let found = first_emission(&self.names, signal, value);
        self.first = earlier(self.first, found);
    }

    pub fn exit(&mut self, text: &Text<'_>, trap: &NameAt<Name>)
        ensures { Follows text.now.parts.now (here (Exit trap.now)) self.old self.new }
    {
        let found = fault_if(!self.has_trap(&trap.name), trap.pos, LinkKind::UnknownTrap);
        self.first = earlier(self.first, found);
    }

    pub fn start(&mut self, text: &Text<'_>, node: &AsyncNode<Name>)
        requires { IsText text.now }
        ensures { Follows text.now.parts.now (here (Start node.now)) self.old self.new }
    {
        let found = first_start(&self.names, node, callable_of(text, &node.body.name));
        self.first = earlier(self.first, found);
    }

    /// Of a `signal` list, outside of its block.
    pub fn locals(
        &mut self,
        alloc: Global,
        text: &Text<'_>,
        signals: &[SignalNode],
    ) -> Result<(), NoMemory>
        ensures { OnOk result (Follows text.now.parts.now (here (Locals signals.now)) self.old self.new) }
    {
        let table = table_of(alloc, LinkKind::TwiceDeclared, signals)?;
        let found = earlier(table.first(), first_wrong(signals));
        self.first = earlier(self.first, found);
        Ok(())
    }

    pub fn call(
        &mut self,
        alloc: Global,
        text: &Text<'_>,
        callee: &NameAt<Name>,
        bindings: &[Binding<Name>],
    ) -> Result<(), NoMemory>
        requires { IsText text.now }
        ensures { OnOk result (Follows text.now.parts.now (here (Call callee.now bindings.now)) self.old
            self.new) }
    {
        let interface = interface_of(text, &callee.name);
        let found = first_call(alloc, &self.names, callee, bindings, interface)?;
        self.first = earlier(self.first, found);
        match text.names.place(&callee.name) {
            None => Ok(()),
            Some(place) => {
                self.runs.push(RunAt {
                    pos: callee.pos,
                    callee: place,
                })?;
                Ok(())
            }
        }
    }

    /// The place of the next signal of the module, of so many.
    fn next_place(&self, count: usize) -> Result<u32, NoMemory>
        ensures { IfOk result (λ n. (n ≡ length self.now.names.meanings) × (n + count ≤ 2 ^ 32)) }
    {
        let place = self.names.meanings.len();
        if place > SIGNAL_LIMIT || count > SIGNAL_LIMIT {
            return Err(NoMemory);
        }
        Ok(place as u32)
    }

    /// The signals of a list come into scope.
    pub fn enter_signals(&mut self, alloc: Global, signals: &[SignalNode]) -> Result<(), NoMemory>
        requires { IsReady self.old }
        ensures ready { OnOk result (IsReady self.new) }
        ensures moves { (scope : InScope) (n : ℕ) → Stands scope self.old → OnOk result (Moves (with_signals n
            signals.now scope) self.old self.new) }
    {
        let place = self.next_place(signals.len())?;
        self.names.signals.enter_signals(alloc, signals, place)?;
        add_meanings(&mut self.names.meanings, signals)?;
        Ok(())
    }

    /// The signals of a list that came into scope last leave it.
    pub fn leave_signals(&mut self, count: usize) -> Result<(), NoMemory>
        requires { IsReady self.old }
        ensures ready { OnOk result (IsReady self.new) }
        ensures moves { (scope : InScope) (n : ℕ) (signals : List ASignalNode) → count ≡ length signals
            → Stands (with_signals n signals scope) self.old → OnOk result (Moves scope self.old self.new) }
    {
        self.names.signals.leave_all(count)?;
        Ok(())
    }

    /// A trap comes into scope.
    pub fn enter_trap(&mut self, alloc: Global, name: &Name) -> Result<(), NoMemory>
        requires { IsReady self.old }
        ensures ready { OnOk result (IsReady self.new) }
        ensures moves { (scope : InScope) (n : ℕ) → Stands scope self.old → OnOk result (Moves (with_trap n
            name.now scope) self.old self.new) }
    {
        self.traps.enter(alloc, name.as_str(), 0)?;
        Ok(())
    }

    /// The trap that came into scope last leaves it.
    pub fn leave_trap(&mut self) -> Result<(), NoMemory>
        requires { IsReady self.old }
        ensures ready { OnOk result (IsReady self.new) }
        ensures moves { (scope : InScope) (n : ℕ) (name : AName) → Stands (with_trap n name scope) self.old
            → OnOk result (Moves scope self.old self.new) }
    {
        self.traps.leave()?;
        Ok(())
    }
}

fn add_meanings(meanings: &mut Items<Meaning>, signals: &[SignalNode]) -> Result<(), NoMemory>
    ensures { OnOk result (meanings.new ≡ meanings.old ++ map local_meaning signals.now) }
{
    'signals: for signal in signals {
        meanings.push(Meaning {
            kind: signal.kind,
            dir: Dir::Local,
        })?;
    }
    Ok(())
}
