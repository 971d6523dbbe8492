//! What a text declares for its program: the main module's interface, the bodies and the hosts.

ghost use Rattle.std.specs.Prelude.{◌≡◌, ◌++◌, ℕ, IfOk, OnOk, map, slice_get};
ghost use Rattle.std.specs.Borrow.{Bor};
ghost use Rattle.hh_term.specs.Views.{body_of};
ghost use Rattle.module_tree.specs.declared.source.ModuleNode.{ModuleNode as AModule};
ghost use Rattle.module_tree.specs.declared.source.ParameterNode.{ParameterNode as AParameter};
ghost use Rattle.kernel_expand.specs.Expansion.{at_start, bodies_of, main_interface};
ghost use Rattle.statement_build.specs.Building.{numbered_of};
ghost use Rattle.statement_build.specs.Declarations.{body_node, host_node, part_bodies, listed};

use crate::builder::Builder;
use hh_base::memory::NoMemory;
use hh_base::value::Kind;
use hh_term::program::BodyDecl;
use host_expr::expr::copy_expr;
use module_tree::source::{BodyNode, HostNode, InterfaceNode, ModuleNode, ParameterNode, Part};
use sqlite_items::Items;
use std::alloc::Global;

/// The interface of the first module.
pub fn interface<'a>(modules: &'a [&'a ModuleNode<u32>]) -> &'a [InterfaceNode]
    ensures { result.now ≡ main_interface (slice_get (map (λ (m : Bor (AModule ℕ)). m.now) modules.now) 0) }
{
    match modules.first() {
        None => &[],
        Some(module) => module.interface.as_slice(),
    }
}

/// A builder that has numbered the signals of this interface.
pub fn start(alloc: Global, interface: &[InterfaceNode]) -> Result<Builder, NoMemory>
    ensures { IfOk result (λ b. numbered_of b ≡ at_start interface.now) }
{
    let mut builder = Builder::new(alloc);
    for node in interface {
        builder.declare_as(alloc, node.dir, &node.signal)?;
    }
    Ok(builder)
}

fn kinds(alloc: Global, parameters: &[ParameterNode]) -> Result<Items<Kind>, NoMemory>
    ensures { IfOk result (λ ks. ks ≡ map (λ (p : AParameter). p.kind) parameters.now) }
{
    let mut kinds = Vec::with_capacity(alloc, parameters.len())?;
    for parameter in parameters {
        kinds.push(parameter.kind)?;
    }
    Ok(Items::from_vec(kinds))
}

fn written(alloc: Global, body: &BodyNode<u32>) -> Result<BodyDecl, NoMemory>
    ensures { IfOk result (λ b. body_of b ≡ body_node body.now) }
{
    Ok(BodyDecl {
        name: body.name.copy(alloc)?,
        params: kinds(alloc, body.parameters.as_slice())?,
        answer: body.answer,
        expr: Some(copy_expr(alloc, &body.expr.expr)?),
        pos: body.pos,
    })
}

fn hosted(alloc: Global, host: &HostNode) -> Result<BodyDecl, NoMemory>
    ensures { IfOk result (λ b. body_of b ≡ host_node host.now) }
{
    let mut params = Vec::with_capacity(alloc, host.parameters.len())?;
    params.extend_from_slice(host.parameters.as_slice())?;
    Ok(BodyDecl {
        name: host.name.copy(alloc)?,
        params: Items::from_vec(params),
        answer: host.answer,
        expr: None,
        pos: host.token,
    })
}

/// The body or host of a part, if it is one.
fn body(alloc: Global, part: &Part<u32>) -> Result<Option<BodyDecl>, NoMemory>
    ensures { IfOk result (λ b. listed b ≡ part_bodies part.now) }
{
    match part {
        Part::Module(_) => Ok(None),
        Part::Body(node) => Ok(Some(written(alloc, node)?)),
        Part::Host(node) => Ok(Some(hosted(alloc, node)?)),
    }
}

fn push_some(bodies: &mut Vec<BodyDecl>, body: Option<BodyDecl>) -> Result<(), NoMemory>
    ensures { OnOk result (map body_of bodies.new.items ≡ map body_of bodies.old.items ++ listed body) }
{
    match body {
        None => Ok(()),
        Some(body) => Ok(bodies.push(body)?),
    }
}

/// The bodies and hosts of a text together, in order.
pub fn bodies(alloc: Global, parts: &[Part<u32>]) -> Result<Vec<BodyDecl>, NoMemory>
    ensures { IfOk result (λ v. map body_of v.items ≡ bodies_of parts.now) }
{
    let mut bodies = Vec::new(alloc);
    for part in parts {
        let body = body(alloc, part)?;
        push_some(&mut bodies, body)?;
    }
    Ok(bodies)
}
