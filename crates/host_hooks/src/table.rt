//! The hooks that the host stored.

ghost use Rattle.std.specs.Prelude.{◌≡◌, ◌∷◌, ◌++◌, [], All, IfErr, IsTrue, ◌↔◌, MatchOption, OnErr, OnOk};
ghost use Rattle.std.specs.Option.{option_copied};
ghost use Rattle.std.specs.Prelude.{None, map, string_bytes, true};
ghost use Rattle.std.specs.HashMap.{get_by_text, keys, values};
ghost use Rattle.std.specs.Coded.{codes};
ghost use Rattle.host_hooks.specs.Promise.{Promise, promise_of};
ghost use Rattle.host_hooks.specs.Table.{IsStored, all_differ};

use crate::hook::Hook;
use crate::kinds::same_kinds;
use hh_term::program::BodyDecl;
use indexmap::IndexMap;
use std::alloc::Global;

/// Hooks with different names, in the order in which they were added.
#[derive(Drop)]
pub struct HookTable {
    hooks: IndexMap<String, Hook>,
    ghost keyed: { map string_bytes (keys hooks) ≡ map (λ h. (promise_of h).name) (values hooks) } by { Prim.hlevel codes },
    ghost differ: { all_differ (map (λ h. (promise_of h).name) (values hooks)) ≡ true },
}

/// Why a hook was not added. It is given back.
#[derive(Drop)]
pub enum AddFault {
    /// A hook of its name is stored already.
    TwiceNamed(Hook),
    NoMemory(Hook),
}

/// Puts a hook under a key that has none, or gives it back where memory ran out.
fn store(hooks: &mut IndexMap<String, Hook>, key: String, hook: Hook) -> Result<(), Hook>
    requires { get_by_text hooks.old (string_bytes key) ≡ None }
    ensures { IsStored hooks.old.entries hooks.new.entries key hook result }
{
    match hooks.insert(key, hook) {
        Ok(_) => Ok(()),
        Err(failed) => Err(failed.value.1),
    }
}

/// Whether the hook is one for the kinds of the body's parameters and answer.
fn meets(hook: &Hook, body: &BodyDecl) -> bool
    ensures { IsTrue result ↔ ((hook.now.params.items ≡ body.now.params)
        × (hook.now.answer ≡ body.now.answer)) }
{
    hook.answer() == body.answer && same_kinds(hook.params(), body.params.as_slice())
}

impl HookTable {
    ghost use Rattle.host_hooks.specs.Stored.{promises_of};
    ghost use Rattle.host_hooks.specs.Adding.{HasName, IsAddFault};
    ghost use Rattle.host_hooks.specs.Allowed.{HasHook, IsCovered, IsFirstUncovered, IsHookOf};

    pub fn new(alloc: Global) -> HookTable
        ensures { promises_of result ≡ [] }
    {
        HookTable {
            hooks: IndexMap::new(alloc),
        }
    }

    /// Stores a hook, unless one of its name is there. After an Err the table is as before.
    pub fn add(&mut self, alloc: Global, hook: Hook) -> Result<(), AddFault>
        ensures ok { OnOk result (promises_of self.new ≡ promises_of self.old ++ promise_of hook ∷ []) }
        ensures new_name { OnOk result (HasName (promises_of self.old) (promise_of hook).name → ⊥) }
        ensures err { OnErr result (promises_of self.new ≡ promises_of self.old) }
        ensures fault { IfErr result (IsAddFault (promises_of self.old) hook) }
    {
        if self.hooks.contains_key(hook.name()) {
            return Err(AddFault::TwiceNamed(hook));
        }
        let Ok(key) = String::from_str(alloc, hook.name()) else {
            return Err(AddFault::NoMemory(hook));
        };
        match store(&mut self.hooks, key, hook) {
            Ok(()) => Ok(()),
            Err(hook) => Err(AddFault::NoMemory(hook)),
        }
    }

    /// The hook of the body.
    pub fn find(&self, body: &BodyDecl) -> Option<&Hook>
        ensures { MatchOption (option_copied result) ((h : Promise)
            → IsHookOf (promises_of self.now) body.now h → ⊥) (λ h. IsHookOf (promises_of self.now) body.now
            (promise_of h)) }
    {
        let hook = self.hooks.get(body.name.as_str())?;
        if meets(hook, body) { Some(hook) } else { None }
    }

    fn is_covered(&self, body: &BodyDecl) -> bool
        ensures { IsTrue result ↔ IsCovered (promises_of self.now) body.now }
    {
        match &body.expr {
            Some(_) => true,
            None => self.find(body).is_some(),
        }
    }

    /// Whether each body of the host has a hook of its name, its parameters' kinds and its answer's kind;
    /// else the place of the first that has none. Linear in the bodies.
    pub fn covers(&self, bodies: &[BodyDecl]) -> Result<(), usize>
        ensures ok { OnOk result (All (IsCovered (promises_of self.now)) bodies.now) }
        ensures first { IfErr result (IsFirstUncovered (promises_of self.now) bodies.now) }
    {
        for (place, body) in bodies.iter().enumerate() {
            if !self.is_covered(body) {
                return Err(place);
            }
        }
        Ok(())
    }
}
