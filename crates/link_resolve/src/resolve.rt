//! Texts with their names resolved.

ghost use Rattle.std.specs.Prelude.{◌≡◌, true, IfOk};
ghost use Rattle.module_tree.specs.declared.source.Part.TheVariants as top;
ghost use Rattle.module_tree.specs.Runs.{runs_of, is_callees_first};
ghost use Rattle.run_graph.specs.Reach.{InRange};
ghost use Rattle.run_graph.specs.Components.{HasNoCycle};
ghost use Rattle.link_faults.specs.Rows.{Program};
ghost use Rattle.link_faults.specs.FirstFault.{IsFaultless};
ghost use Rattle.module_link.specs.Texts.{IsText};
ghost use Rattle.module_link.specs.Resolved.{resolved_module, resolved_part, resolved_parts};

use crate::callees::runs_of;
use crate::scopes::{body_places, module_places};
use crate::walk::resolve_block;
use hh_base::memory::NoMemory;
use hh_base::name::Name;
use module_link::copies::{copy_host, copy_interface, copy_parameters};
use module_link::expressions::resolve_expr;
use module_link::tables::MOST_NAMES;
use module_link::text::Text;
use module_tree::linked::Linked;
use module_tree::source::{BodyNode, ExprAt, ModuleNode, Modules, Part};
use run_graph::components::components_of;
use sqlite_items::Items;
use std::alloc::Global;

fn resolve_module(
    alloc: Global,
    text: &Text<'_>,
    node: &ModuleNode<Name>,
) -> Result<ModuleNode<u32>, NoMemory>
    requires { IsText text.now }
    ensures { IfOk result (λ m. m ≡ resolved_module text.now.parts.now node.now) }
{
    let mut places = module_places(alloc, node.interface.as_slice())?;
    let block = resolve_block(alloc, text, &mut places, &node.block)?;
    Ok(ModuleNode {
        pos: node.pos,
        name: node.name.copy(alloc)?,
        interface: copy_interface(alloc, node.interface.as_slice())?,
        block,
    })
}

fn resolve_body(alloc: Global, body: &BodyNode<Name>) -> Result<BodyNode<u32>, NoMemory>
    ensures { (parts : Program) → IfOk result (λ b. top.Body b ≡ resolved_part parts (top.Body body.now)) }
{
    let places = body_places(alloc, body.parameters.as_slice())?;
    let expr = ExprAt {
        pos: body.expr.pos,
        expr: resolve_expr(alloc, &places, &body.expr.expr)?,
    };
    Ok(BodyNode {
        pos: body.pos,
        name: body.name.copy(alloc)?,
        parameters: copy_parameters(alloc, body.parameters.as_slice())?,
        answer: body.answer,
        expr,
    })
}

fn resolve_part(alloc: Global, text: &Text<'_>, part: &Part<Name>) -> Result<Part<u32>, NoMemory>
    requires { IsText text.now }
    ensures { IfOk result (λ p. p ≡ resolved_part text.now.parts.now part.now) }
{
    match part {
        Part::Body(body) => Ok(Part::Body(resolve_body(alloc, body)?)),
        Part::Host(host) => Ok(Part::Host(copy_host(alloc, host)?)),
        Part::Module(node) => Ok(Part::Module(resolve_module(alloc, text, node)?)),
    }
}

fn resolve_parts(alloc: Global, parts: &[Part<Name>]) -> Result<Items<Part<u32>>, NoMemory>
    ensures { IfOk result (λ ps. ps ≡ resolved_parts parts.now) }
{
    let text = Text::new(alloc, parts)?;
    let mut resolved = Vec::with_capacity(alloc, parts.len())?;
    'parts: for part in parts {
        resolved.push(resolve_part(alloc, &text, part)?)?;
    }
    Ok(Items::from_vec(resolved))
}

/// The places of all modules, each behind those of the modules that it runs.
fn callees_first(alloc: Global, parts: &[Part<u32>]) -> Result<Vec<u32>, NoMemory>
    requires in_range { InRange (runs_of parts.now) }
    requires no_cycle { HasNoCycle (runs_of parts.now) }
    ensures { IfOk result (λ order. is_callees_first (runs_of parts.now) order.items ≡ true) }
{
    let runs = runs_of(alloc, parts)?;
    if runs.len() > MOST_NAMES {
        return Err(NoMemory);
    }
    let components = components_of(alloc, runs.as_slice())?;
    Ok(components.callees_first.as_slice().to_vec(alloc)?)
}

/// A text without faults, with each name replaced by the place of what it means. Time and memory grow with
/// the text.
pub fn resolve(alloc: Global, modules: &Modules) -> Result<Linked, NoMemory>
    requires { IsFaultless modules.now }
    ensures { IfOk result (λ l. l ≡ resolved_parts modules.now) }
{
    let parts = resolve_parts(alloc, modules.parts())?;
    let order = callees_first(alloc, parts.as_slice())?;
    Ok(Linked::new(parts, order))
}
