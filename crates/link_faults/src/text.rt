//! The modules of a text, and its bodies and hosts.

ghost use Rattle.std.specs.Prelude.{◌≡◌, List, [], ◌∷◌, ◌++◌, map, IfOk, OnOk};
ghost use Rattle.module_tree.specs.Callables.{Signature as ASignature, modules_of, signatures_of};
ghost use Rattle.std.specs.Prelude.{option_map};
ghost use Rattle.std.specs.Option.{option_copied};
ghost use Rattle.link_faults.specs.declared.fault.LinkKind.TheVariants.{TwiceDeclared as ATwice};
ghost use Rattle.link_faults.specs.Named.{module_named, signature_named};
ghost use Rattle.link_faults.specs.NameTables.{IsTable};
ghost use Rattle.link_faults.specs.CallableTables.{AreCallables, callable};
ghost use Rattle.link_faults.specs.TextTables.{IsText, name_of_module};

use crate::fault::LinkKind;
use crate::table::Table;
use hh_base::memory::NoMemory;
use hh_base::name::Name;
use hh_base::value::{Kind, Pos};
use module_tree::source::{InterfaceNode, ModuleNode, ParameterNode, Part};
use sqlite_items::{Items, at};
use std::alloc::Global;

fn push_module<'a>(
    modules: &mut Vec<&'a ModuleNode<Name>>,
    part: &'a Part<Name>,
) -> Result<(), NoMemory>
    ensures { OnOk result (map (λ m. m.now) modules.new.items
        ≡ map (λ m. m.now) modules.old.items ++ modules_of (part.now ∷ [])) }
{
    match part {
        Part::Module(module) => {
            modules.push(module)?;
            Ok(())
        }
        Part::Body(_) => Ok(()),
        Part::Host(_) => Ok(()),
    }
}

/// The modules of a text, in order.
pub fn modules_of(alloc: Global, parts: &[Part<Name>]) -> Result<Vec<&ModuleNode<Name>>, NoMemory>
    ensures { IfOk result (λ modules. map (λ m. m.now) modules.items ≡ modules_of parts.now) }
{
    let mut modules: Vec<&ModuleNode<Name>> = Vec::new(alloc);
    'parts: for part in parts {
        push_module(&mut modules, part)?;
    }
    Ok(modules)
}

/// What a body or host takes and answers.
#[derive(Drop)]
pub struct Callable {
    pub parameters: Items<Kind>,
    pub answer: Kind,
}

/// The bodies and hosts of a text, in order, and the places of their names.
#[derive(Drop)]
pub struct Callables {
    pub all: Items<Callable>,
    pub names: Table,
}

/// The kinds of parameters.
pub fn kinds_of(alloc: Global, parameters: &[ParameterNode]) -> Result<Items<Kind>, NoMemory>
    ensures { IfOk result (λ kinds. kinds ≡ map (λ p. p.kind) parameters.now) }
{
    let mut kinds = Items::new(alloc);
    'parameters: for parameter in parameters {
        kinds.push(parameter.kind)?;
    }
    Ok(kinds)
}

impl Callables {
    fn new(alloc: Global) -> Callables
        ensures { AreCallables [] result }
    {
        Callables {
            all: Items::new(alloc),
            names: Table::new(alloc, LinkKind::TwiceDeclared),
        }
    }

    fn add(
        &mut self,
        alloc: Global,
        pos: Pos,
        name: &Name,
        callable: Callable,
    ) -> Result<(), NoMemory>
        ensures { (before : List ASignature) → AreCallables before self.old → OnOk result
            (AreCallables (before ++ record {
              pos = pos;
              name = name.now;
              parameters = callable.parameters;
              answer = callable.answer;
            } ∷ []) self.new) }
    {
        self.names.declare(alloc, pos, name, self.all.len())?;
        self.all.push(callable)?;
        Ok(())
    }

    fn add_part(&mut self, alloc: Global, part: &Part<Name>) -> Result<(), NoMemory>
        ensures { (before : List ASignature) → AreCallables before self.old → OnOk result
            (AreCallables (before ++ signatures_of (part.now ∷ [])) self.new) }
    {
        match part {
            Part::Module(_) => Ok(()),
            Part::Body(body) => {
                let callable = Callable {
                    parameters: kinds_of(alloc, body.parameters.as_slice())?,
                    answer: body.answer,
                };
                self.add(alloc, body.pos, &body.name, callable)?;
                Ok(())
            }
            Part::Host(host) => {
                let callable = Callable {
                    parameters: Items::from_slice(alloc, host.parameters.as_slice())?,
                    answer: host.answer,
                };
                self.add(alloc, host.pos, &host.name, callable)?;
                Ok(())
            }
        }
    }
}

/// The bodies and hosts of a text.
pub fn callables_of(alloc: Global, parts: &[Part<Name>]) -> Result<Callables, NoMemory>
    ensures { IfOk result (AreCallables (signatures_of parts.now)) }
{
    let mut callables = Callables::new(alloc);
    'parts: for part in parts {
        callables.add_part(alloc, part)?;
    }
    Ok(callables)
}

/// The declarations of a text, its modules, and the places of their names.
#[derive(Drop)]
pub struct Text<'a> {
    pub parts: &'a [Part<Name>],
    pub modules: Vec<&'a ModuleNode<Name>>,
    pub names: Table,
    pub callables: Callables,
}

fn names_of(alloc: Global, modules: &[&ModuleNode<Name>]) -> Result<Table, NoMemory>
    ensures { IfOk result (IsTable ATwice (map (λ m. name_of_module m.now) modules.now)) }
{
    let mut names = Table::new(alloc, LinkKind::TwiceDeclared);
    'modules: for place in 0..modules.len() {
        names.declare(alloc, modules[place].pos, &modules[place].name, place)?;
    }
    Ok(names)
}

/// What is declared in a text.
pub fn text_of(alloc: Global, parts: &[Part<Name>]) -> Result<Text<'_>, NoMemory>
    ensures text { IfOk result (λ t. IsText t) }
    ensures parts { IfOk result (λ t. t.parts.now ≡ parts.now) }
{
    let modules = modules_of(alloc, parts)?;
    let names = names_of(alloc, modules.as_slice())?;
    Ok(Text {
        parts,
        modules,
        names,
        callables: callables_of(alloc, parts)?,
    })
}

/// The interface of the module that the name means.
pub fn interface_of<'a>(text: &Text<'a>, name: &Name) -> Option<&'a [InterfaceNode]>
    requires { IsText text.now }
    ensures { option_copied result ≡ option_map (λ m. m.interface) (module_named text.now.parts.now
        name.now) }
{
    match text.names.place(name) {
        None => None,
        Some(place) => match at(text.modules.as_slice(), place) {
            None => None,
            Some(module) => Some(module.interface.as_slice()),
        },
    }
}

/// What the body or host takes and answers that the name means.
pub fn callable_of<'a>(text: &'a Text<'_>, name: &Name) -> Option<&'a Callable>
    requires { IsText text.now }
    ensures { option_copied result ≡ option_map callable (signature_named text.now.parts.now name.now) }
{
    match text.callables.names.place(name) {
        None => None,
        Some(place) => at(text.callables.all.as_slice(), place),
    }
}
