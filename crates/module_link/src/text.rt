//! What a text declares, by the names of its modules and bodies.

ghost use Rattle.std.specs.Prelude.{◌≡◌, ℕ, map, IfOk};
ghost use Rattle.std.specs.Borrow.{Bor};
ghost use Rattle.module_tree.specs.declared.source.ModuleNode.{ModuleNode as AModule};
ghost use Rattle.module_tree.specs.Callables.{Signature, modules_of, signatures_of};
ghost use Rattle.link_faults.specs.Named.{Name as AName};

use crate::tables::first_places;
use hh_base::memory::NoMemory;
use hh_base::name::Name;
use indexmap::IndexMap;
use module_tree::source::{ModuleNode, Part};
use sqlite_items::at;
use std::alloc::Global;

/// The declarations of a text, its modules by their places, and the places of modules and bodies by their
/// names.
#[derive(Drop)]
pub struct Text<'a> {
    pub parts: &'a [Part<Name>],
    pub modules: Vec<&'a ModuleNode<Name>>,
    pub module_places: IndexMap<String, u32>,
    pub body_places: IndexMap<String, u32>,
}

impl<'a> Text<'a> {
    ghost use Rattle.std.specs.Prelude.{◌≡◌, map, IfOk, option_map};
    ghost use Rattle.std.specs.Borrow.{Bor};
    ghost use Rattle.std.specs.Option.{option_copied};
    ghost use Rattle.module_link.specs.Texts.{IsText};
    ghost use Rattle.module_link.specs.Resolved.{or_first, body_place};
    ghost use Rattle.link_faults.specs.Named.{module_named};
    ghost use Rattle.link_faults.specs.Rows.{module_place};

    /// The place of a module, and 0 where the name means none.
    pub fn module_place(&self, name: &Name) -> u32
        requires { IsText self.now }
        ensures { result ≡ or_first (module_place self.now.parts.now name.now) }
    {
        self.module_places.get(name.as_str()).copied().unwrap_or(0)
    }

    /// The place of a body, and 0 where the name means none.
    pub fn body_place(&self, name: &Name) -> u32
        requires { IsText self.now }
        ensures { result ≡ body_place self.now.parts.now name.now }
    {
        self.body_places.get(name.as_str()).copied().unwrap_or(0)
    }

    /// The module of this name.
    pub fn module(&self, name: &Name) -> Option<&'a ModuleNode<Name>>
        requires { IsText self.now }
        ensures { option_copied result ≡ module_named self.now.parts.now name.now }
    {
        let place = self.module_places.get(name.as_str()).copied()?;
        at(self.modules.as_slice(), place as usize).copied()
    }
}

/// The modules of a text, in order.
fn modules<'a>(
    alloc: Global,
    parts: &'a [Part<Name>],
) -> Result<Vec<&'a ModuleNode<Name>>, NoMemory>
    ensures { IfOk result (λ v. map (λ (m : Bor (AModule AName)). m.now) v.items ≡ modules_of parts.now) }
{
    let mut modules = Vec::new(alloc);
    for part in parts {
        if let Part::Module(module) = part {
            modules.push(module)?;
        }
    }
    Ok(modules)
}

fn names_of_modules<'a>(
    alloc: Global,
    modules: &[&'a ModuleNode<Name>],
) -> Result<Vec<&'a Name>, NoMemory>
    ensures { IfOk result (λ v. map (λ (n : Bor AName). n.now) v.items
        ≡ map (λ (m : Bor (AModule AName)). m.now.name) modules.now) }
{
    let mut names = Vec::new(alloc);
    for module in modules {
        names.push(&module.name)?;
    }
    Ok(names)
}

/// The names of the bodies and hosts of a text, in order.
fn names_of_bodies<'a>(alloc: Global, parts: &'a [Part<Name>]) -> Result<Vec<&'a Name>, NoMemory>
    ensures { IfOk result (λ v. map (λ (n : Bor AName). n.now) v.items
        ≡ map (λ (s : Signature). s.name) (signatures_of parts.now)) }
{
    let mut names = Vec::new(alloc);
    for part in parts {
        match part {
            Part::Body(body) => names.push(&body.name)?,
            Part::Host(host) => names.push(&host.name)?,
            Part::Module(_) => {}
        }
    }
    Ok(names)
}

impl<'a> Text<'a> {
    ghost use Rattle.std.specs.Prelude.{◌≡◌, IfOk};
    ghost use Rattle.module_link.specs.Texts.{IsText};

    pub fn new(alloc: Global, parts: &'a [Part<Name>]) -> Result<Text<'a>, NoMemory>
        ensures tables { IfOk result (λ t. IsText t) }
        ensures parts { IfOk result (λ t. t.parts.now ≡ parts.now) }
    {
        let modules = modules(alloc, parts)?;
        let named = names_of_modules(alloc, modules.as_slice())?;
        let bodies = names_of_bodies(alloc, parts)?;
        Ok(Text {
            parts,
            modules,
            module_places: first_places(alloc, named.as_slice())?,
            body_places: first_places(alloc, bodies.as_slice())?,
        })
    }
}
