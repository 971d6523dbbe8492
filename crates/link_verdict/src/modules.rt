//! The first fault of each declaration of a text.

ghost use Rattle.std.specs.Prelude.{◌≡◌, [], ◌∷◌, ◌++◌, map, IfOk, OnOk};
ghost use Rattle.indexmap.specs.IndexMap.{get_by_text};
ghost use Rattle.module_tree.specs.Scopes.{interface_signals};
ghost use Rattle.module_tree.specs.Callables.{modules_of};
ghost use Rattle.link_faults.specs.Named.{Name as AName};
ghost use Rattle.link_faults.specs.Faults.{earlier};
ghost use Rattle.link_faults.specs.Earliest.{first_by};
ghost use Rattle.link_faults.specs.InnermostFirst.{IsScope, in_scope, shown};
ghost use Rattle.link_faults.specs.Meanings.{node_meaning, kind_of_signal, kind_of_parameter};
ghost use Rattle.link_faults.specs.Rows.{no_kinds};
ghost use Rattle.link_faults.specs.TextTables.{IsText};
ghost use Rattle.link_faults.specs.Walks.{IsReady, Stands};
ghost use Rattle.link_verdict.specs.Declarations.{wrong_declared, first_in_interface, first_in_module};
ghost use Rattle.link_verdict.specs.Declarations.{placed_runs, kinds_of_parameters, first_in_body};
ghost use Rattle.link_verdict.specs.Declarations.{first_in_declaration};

use crate::blocks::over_block;
use hh_base::memory::NoMemory;
use hh_base::name::Name;
use hh_base::value::Kind;
use indexmap::IndexMap;
use link_faults::fault::{LinkFault, LinkKind, earlier};
use link_faults::names::{Meaning, Names};
use link_faults::parts::{first_expected, wrong_signal};
use link_faults::scope::Scope;
use link_faults::table::table_of;
use link_faults::text::Text;
use link_faults::walk::{RunAt, Walker};
use module_tree::source::{BodyNode, InterfaceNode, ModuleNode, ParameterNode, Part};
use sqlite_items::Items;
use std::alloc::Global;

/// An interface of more signals than this is too large for memory.
const INTERFACE_LIMIT: usize = 2_147_483_648;

/// What is found in a module: its first fault, and its runs of modules that are there, in the order of the
/// text.
#[derive(Drop)]
pub struct InModule {
    pub first: Option<LinkFault>,
    pub runs: Items<RunAt>,
}

/// What is found in a text: the first fault of its declarations, each by itself, and the runs of each module.
#[derive(Drop)]
pub struct InText {
    pub first: Option<LinkFault>,
    pub runs: Vec<Items<RunAt>>,
}

fn wrong_in_interface(interface: &[InterfaceNode]) -> Option<LinkFault>
    ensures { result ≡ first_by wrong_declared interface.now }
{
    let mut first = None;
    'interface: for node in interface {
        first = earlier(first, wrong_signal(&node.signal));
    }
    first
}

fn first_in_interface(
    alloc: Global,
    interface: &[InterfaceNode],
) -> Result<Option<LinkFault>, NoMemory>
    ensures { IfOk result (λ v. v ≡ first_in_interface interface.now) }
{
    let table = table_of(alloc, LinkKind::TwiceDeclared, interface)?;
    Ok(earlier(table.first(), wrong_in_interface(interface)))
}

fn interface_scope(alloc: Global, interface: &[InterfaceNode]) -> Result<Scope, NoMemory>
    ensures scope { IfOk result (λ s. IsScope s) }
    ensures declared { IfOk result (λ s. in_scope s ≡ map shown (interface_signals interface.now)) }
{
    if interface.len() > INTERFACE_LIMIT {
        return Err(NoMemory);
    }
    let mut scope = Scope::new(alloc);
    'interface: for behind in 0..interface.len() {
        let at = interface.len() - 1 - behind;
        scope.enter(alloc, interface[at].signal.name.as_str(), at as u32)?;
    }
    Ok(scope)
}

fn interface_meanings(
    alloc: Global,
    interface: &[InterfaceNode],
) -> Result<Items<Meaning>, NoMemory>
    ensures { IfOk result (λ ms. ms ≡ map node_meaning interface.now) }
{
    let mut meanings = Items::new(alloc);
    'interface: for node in interface {
        meanings.push(Meaning {
            kind: node.signal.kind,
            dir: node.dir,
        })?;
    }
    Ok(meanings)
}

/// Where the signals of an interface are in scope, and nothing else.
fn walker_of(alloc: Global, interface: &[InterfaceNode]) -> Result<Walker, NoMemory>
    ensures ready { IfOk result (λ w. IsReady w) }
    ensures stands { IfOk result (λ w. Stands (record {
      signals = interface_signals interface.now;
      traps = [];
    }) w) }
    ensures first { IfOk result (λ w. w.first ≡ None) }
    ensures runs { IfOk result (λ w. w.runs ≡ []) }
{
    let signals = interface_scope(alloc, interface)?;
    let meanings = interface_meanings(alloc, interface)?;
    Ok(Walker {
        names: Names {
            signals,
            meanings,
            parameters: IndexMap::new(alloc),
        },
        traps: Scope::new(alloc),
        first: None,
        runs: Items::new(alloc),
    })
}

/// What is found in a module.
pub fn over_module(
    alloc: Global,
    text: &Text<'_>,
    node: &ModuleNode<Name>,
) -> Result<InModule, NoMemory>
    requires { IsText text.now }
    ensures first { IfOk result (λ f. f.first ≡ first_in_module text.now.parts.now node.now) }
    ensures runs { IfOk result (λ f. f.runs ≡ placed_runs text.now.parts.now node.now) }
{
    let own = first_in_interface(alloc, node.interface.as_slice())?;
    let mut walker = walker_of(alloc, node.interface.as_slice())?;
    over_block(&mut walker, alloc, text, &node.block)?;
    let Walker { first, runs, .. } = walker;
    Ok(InModule {
        first: earlier(own, first),
        runs,
    })
}

/// The kinds of parameters by name, and by the first of them where several have the name.
fn kinds_of_parameters(
    alloc: Global,
    parameters: &[ParameterNode],
) -> Result<IndexMap<String, Kind>, NoMemory>
    ensures { IfOk result (λ kinds. (q : AName) → get_by_text kinds q ≡ kinds_of_parameters parameters.now
        q) }
{
    let mut kinds = IndexMap::new(alloc);
    'parameters: for behind in 0..parameters.len() {
        let parameter = &parameters[parameters.len() - 1 - behind];
        let key = String::from_str(alloc, parameter.name.as_str())?;
        kinds.insert(key, parameter.kind)?;
    }
    Ok(kinds)
}

/// What names mean in a body.
fn names_in_body(alloc: Global, parameters: &[ParameterNode]) -> Result<Names, NoMemory>
    ensures signals { IfOk result (λ names. kind_of_signal names ≡ no_kinds) }
    ensures parameters { IfOk result (λ names. kind_of_parameter names ≡ kinds_of_parameters parameters.now) }
{
    let kinds = kinds_of_parameters(alloc, parameters)?;
    Ok(Names {
        signals: Scope::new(alloc),
        meanings: Items::new(alloc),
        parameters: kinds,
    })
}

/// The first fault of a body.
pub fn first_in_body(alloc: Global, body: &BodyNode<Name>) -> Result<Option<LinkFault>, NoMemory>
    ensures { IfOk result (λ v. v ≡ first_in_body body.now) }
{
    let table = table_of(alloc, LinkKind::TwiceDeclared, body.parameters.as_slice())?;
    let names = names_in_body(alloc, body.parameters.as_slice())?;
    let found = first_expected(&names, body.answer, &body.expr);
    Ok(earlier(table.first(), found))
}

impl InText {
    fn add(&mut self, alloc: Global, text: &Text<'_>, part: &Part<Name>) -> Result<(), NoMemory>
        requires { IsText text.now }
        ensures first { OnOk result (self.new.first ≡ earlier self.old.first
            (first_in_declaration text.now.parts.now part.now)) }
        ensures runs { OnOk result (self.new.runs.items ≡ self.old.runs.items ++ map
            (placed_runs text.now.parts.now) (modules_of (part.now ∷ []))) }
    {
        match part {
            Part::Module(module) => {
                let found = over_module(alloc, text, module)?;
                self.first = earlier(self.first, found.first);
                self.runs.push(found.runs)?;
                Ok(())
            }
            Part::Body(body) => {
                let found = first_in_body(alloc, body)?;
                self.first = earlier(self.first, found);
                Ok(())
            }
            Part::Host(_) => Ok(()),
        }
    }
}

/// What is found in a text.
pub fn over_declarations(alloc: Global, text: &Text<'_>) -> Result<InText, NoMemory>
    requires { IsText text.now }
    ensures first { IfOk result (λ f. f.first ≡ first_by (first_in_declaration text.now.parts.now)
        text.now.parts.now) }
    ensures runs { IfOk result (λ f. f.runs.items ≡ map (placed_runs text.now.parts.now)
        (modules_of text.now.parts.now)) }
{
    let mut found = InText {
        first: None,
        runs: Vec::new(alloc),
    };
    'parts: for part in text.parts {
        found.add(alloc, text, part)?;
    }
    Ok(found)
}
