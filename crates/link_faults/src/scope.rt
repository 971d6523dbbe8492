//! The names in scope at a place of a module, with the places of what they mean.

use hh_base::memory::NoMemory;
use indexmap::IndexMap;
use module_tree::source::SignalNode;
use sqlite_items::Items;
use std::alloc::Global;

/// A declaration in scope, and the place that its name had outside of it.
#[derive(Drop)]
pub struct Declaration {
    pub name: String,
    pub place: u32,
    pub hidden: Option<u32>,
}

/// Where an inner declaration hides an outer one of its name.
#[derive(Drop)]
pub struct Scope {
    pub places: IndexMap<String, u32>,
    pub declared: Items<Declaration>,
}

impl Scope {
    ghost use Rattle.std.specs.Prelude.{◌≡◌, ◌+◌, ◌≤◌, ◌^◌, [], ◌∷◌, ◌++◌, length, map, drop, OnOk};
    ghost use Rattle.link_faults.specs.InnermostFirst.{IsScope, in_scope, place_in, declares, shown};
    ghost use Rattle.module_tree.specs.Scopes.{local_signals};

    /// With no name in it.
    pub fn new(alloc: Global) -> Scope
        ensures scope { IsScope result }
        ensures none { in_scope result ≡ [] }
    {
        Scope {
            places: IndexMap::new(alloc),
            declared: Items::new(alloc),
        }
    }

    /// The place of the innermost declaration of the name.
    pub fn find(&self, name: &str) -> Option<u32>
        requires { IsScope self.now }
        ensures { result ≡ place_in (in_scope self.now) name.now }
    {
        self.places.get(name).copied()
    }

    /// Declares a name, which hides those of its name that are there.
    pub fn enter(&mut self, alloc: Global, name: &str, place: u32) -> Result<(), NoMemory>
        requires { IsScope self.old }
        ensures scope { OnOk result (IsScope self.new) }
        ensures declared { OnOk result (in_scope self.new ≡ declares name.now place ∷ in_scope self.old) }
    {
        let hidden = self.find(name);
        let key = String::from_str(alloc, name)?;
        self.places.insert(key, place)?;
        self.declared.push(Declaration {
            name: String::from_str(alloc, name)?,
            place,
            hidden,
        })?;
        Ok(())
    }

    /// Takes the innermost declaration away.
    pub fn leave(&mut self) -> Result<(), NoMemory>
        requires { IsScope self.old }
        ensures scope { OnOk result (IsScope self.new) }
        ensures declared { OnOk result (in_scope self.new ≡ drop 1 (in_scope self.old)) }
    {
        let Some(
            Declaration {
                name,
                place: _,
                hidden,
            },
        ) = self.declared.pop()
        else {
            return Ok(());
        };
        match hidden {
            Some(place) => {
                self.places.insert(name, place)?;
            }
            None => {
                self.places.swap_remove(name.as_str());
            }
        }
        Ok(())
    }

    /// Declares the signals of a list, the first of which has this place. The first of a name is the one
    /// that is found.
    pub fn enter_signals(
        &mut self,
        alloc: Global,
        signals: &[SignalNode],
        first: u32,
    ) -> Result<(), NoMemory>
        requires scope { IsScope self.old }
        requires short { first + length signals.now ≤ 2 ^ 32 }
        ensures scope { OnOk result (IsScope self.new) }
        ensures declared { OnOk result (in_scope self.new ≡ map shown (local_signals first signals.now)
            ++ in_scope self.old) }
    {
        'signals: for behind in 0..signals.len() {
            let at = signals.len() - 1 - behind;
            self.enter(alloc, signals[at].name.as_str(), first + at as u32)?;
        }
        Ok(())
    }

    /// Takes the innermost declarations away, this many.
    pub fn leave_all(&mut self, count: usize) -> Result<(), NoMemory>
        requires { IsScope self.old }
        ensures scope { OnOk result (IsScope self.new) }
        ensures declared { OnOk result (in_scope self.new ≡ drop count (in_scope self.old)) }
    {
        'declared: for left in 0..count {
            self.leave()?;
        }
        Ok(())
    }
}
