//! The bodies of a program, kept beside the machine that plays it.

ghost use Rattle.std.specs.Prelude.{◌≡◌, IfOk};

use hh_base::memory::NoMemory;
use hh_base::value::Kind;
use hh_term::program::{BodyDecl, Kinds};
use host_expr::expr::copy_expr;
use std::alloc::Global;

fn copy_kinds(alloc: Global, kinds: &[Kind]) -> Result<Kinds, NoMemory>
    ensures { IfOk result (λ k. k ≡ kinds.now) }
{
    Ok(Kinds::from_vec(kinds.to_vec(alloc)?))
}

fn copy_body(alloc: Global, body: &BodyDecl) -> Result<BodyDecl, NoMemory>
    ensures { IfOk result (λ b. b ≡ body.now) }
{
    let expr = match &body.expr {
        Some(expr) => Some(copy_expr(alloc, expr)?),
        None => None,
    };
    Ok(BodyDecl {
        name: body.name.copy(alloc)?,
        params: copy_kinds(alloc, body.params.as_slice())?,
        answer: body.answer,
        expr,
        pos: body.pos,
    })
}

/// A copy of the bodies, in their order.
pub fn copy_bodies(alloc: Global, bodies: &[BodyDecl]) -> Result<Vec<BodyDecl>, NoMemory>
    ensures { IfOk result (λ v. v.items ≡ bodies.now) }
{
    let mut copies = Vec::with_capacity(alloc, bodies.len())?;
    for body in bodies {
        copies.push(copy_body(alloc, body)?)?;
    }
    Ok(copies)
}
