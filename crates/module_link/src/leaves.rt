//! The parts of statements that hold names, resolved.

ghost use Rattle.std.specs.Prelude.{◌≡◌, IfOk, map, option_map};
ghost use Rattle.module_tree.specs.Scopes.{InScope};
ghost use Rattle.module_link.specs.Resolved.{resolved, resolved_name, resolved_later, resolved_delay};
ghost use Rattle.module_link.specs.Resolved.{signal_place, trap_place};
ghost use Rattle.module_link.specs.Places.{ArePlaces, Shows};

use crate::expressions::resolve_expr;
use crate::places::Places;
use hh_base::memory::NoMemory;
use hh_base::name::Name;
use module_tree::source::{Delay, ExprAt, Later, NameAt};
use sqlite_items::Items;
use std::alloc::Global;

impl Places {
    pub fn signal_at(&self, name: &NameAt<Name>) -> NameAt<u32>
        requires { ArePlaces self.now }
        ensures { (c : InScope) → Shows self.now c → result ≡ resolved_name (signal_place c) name.now }
    {
        NameAt {
            pos: name.pos,
            name: self.signal(&name.name),
        }
    }

    pub fn trap_at(&self, name: &NameAt<Name>) -> NameAt<u32>
        requires { ArePlaces self.now }
        ensures { (c : InScope) → Shows self.now c → result ≡ resolved_name (trap_place c) name.now }
    {
        NameAt {
            pos: name.pos,
            name: self.trap(&name.name),
        }
    }

    pub fn answer_at(&self, name: &Option<NameAt<Name>>) -> Option<NameAt<u32>>
        requires { ArePlaces self.now }
        ensures { (c : InScope) → Shows self.now c
            → result ≡ option_map (resolved_name (signal_place c)) name.now }
    {
        match name {
            None => None,
            Some(name) => Some(self.signal_at(name)),
        }
    }

    pub fn expression(&self, alloc: Global, x: &ExprAt<Name>) -> Result<ExprAt<u32>, NoMemory>
        requires { ArePlaces self.now }
        ensures { (c : InScope) → Shows self.now c → IfOk result (λ y. y ≡ resolved c x.now) }
    {
        Ok(ExprAt {
            pos: x.pos,
            expr: resolve_expr(alloc, self, &x.expr)?,
        })
    }

    pub fn value(
        &self,
        alloc: Global,
        x: &Option<ExprAt<Name>>,
    ) -> Result<Option<ExprAt<u32>>, NoMemory>
        requires { ArePlaces self.now }
        ensures { (c : InScope) → Shows self.now c → IfOk result (λ y. y ≡ option_map (resolved c) x.now) }
    {
        match x {
            None => Ok(None),
            Some(x) => Ok(Some(self.expression(alloc, x)?)),
        }
    }

    pub fn later(&self, alloc: Global, later: &Later<Name>) -> Result<Later<u32>, NoMemory>
        requires { ArePlaces self.now }
        ensures { (c : InScope) → Shows self.now c → IfOk result (λ y. y ≡ resolved_later c later.now) }
    {
        match later {
            Later::Once(x) => Ok(Later::Once(self.expression(alloc, x)?)),
            Later::Count(times, x) => Ok(Later::Count(*times, self.expression(alloc, x)?)),
        }
    }

    pub fn delay(&self, alloc: Global, delay: &Delay<Name>) -> Result<Delay<u32>, NoMemory>
        requires { ArePlaces self.now }
        ensures { (c : InScope) → Shows self.now c → IfOk result (λ y. y ≡ resolved_delay c delay.now) }
    {
        match delay {
            Delay::Later(later) => Ok(Delay::Later(self.later(alloc, later)?)),
            Delay::Immediate(x) => Ok(Delay::Immediate(self.expression(alloc, x)?)),
        }
    }

    pub fn arguments(
        &self,
        alloc: Global,
        xs: &[ExprAt<Name>],
    ) -> Result<Items<ExprAt<u32>>, NoMemory>
        requires { ArePlaces self.now }
        ensures { (c : InScope) → Shows self.now c → IfOk result (λ y. y ≡ map (resolved c) xs.now) }
    {
        let mut args = Vec::with_capacity(alloc, xs.len())?;
        for x in xs {
            args.push(self.expression(alloc, x)?)?;
        }
        Ok(Items::from_vec(args))
    }
}
