//! Copies of what a program declares.

ghost use Rattle.std.specs.Prelude.{◌≡◌, ◌≤◌, IfOk, length, take};
ghost use Rattle.std.specs.List.{range_with_len};

use crate::copier::number;
use hh_base::value::{Kind, NoMemory};
use hh_term::program::{BodyDecl, Kinds, SignalDecl};
use host_expr::expr::{Expr, copy_expr};
use sqlite_items::Items;
use std::alloc::Global;

/// Each number of a list of this length, in its own place.
pub fn own_numbers(alloc: Global, count: usize) -> Result<Vec<u32>, NoMemory>
    ensures { IfOk result (λ v. v.items ≡ range_with_len 0 count) }
{
    let mut numbers = Vec::new(alloc);
    for place in 0..count {
        numbers.push(number(place)?)?;
    }
    Ok(numbers)
}

/// The first signals of a list.
pub fn copy_signals(
    alloc: Global,
    signals: &[SignalDecl],
    count: usize,
) -> Result<Vec<SignalDecl>, NoMemory>
    requires { count ≤ length signals.now }
    ensures { IfOk result (λ v. v.items ≡ take count signals.now) }
{
    let mut copies = Vec::with_capacity(alloc, count)?;
    for at in 0..count {
        copies.push(signals[at].copy(alloc)?)?;
    }
    Ok(copies)
}

fn copy_kinds(alloc: Global, kinds: &[Kind]) -> Result<Kinds, NoMemory>
    ensures { IfOk result (λ ks. ks ≡ kinds.now) }
{
    let mut copies = Vec::with_capacity(alloc, kinds.len())?;
    for kind in kinds {
        copies.push(*kind)?;
    }
    Ok(Items::from_vec(copies))
}

fn copy_written(alloc: Global, expr: &Option<Expr<u32>>) -> Result<Option<Expr<u32>>, NoMemory>
    ensures { IfOk result (λ e. e ≡ expr.now) }
{
    match expr {
        None => Ok(None),
        Some(expr) => Ok(Some(copy_expr(alloc, expr)?)),
    }
}

fn copy_body(alloc: Global, body: &BodyDecl) -> Result<BodyDecl, NoMemory>
    ensures { IfOk result (λ b. b ≡ body.now) }
{
    let name = body.name.copy(alloc)?;
    let params = copy_kinds(alloc, body.params.as_slice())?;
    let expr = copy_written(alloc, &body.expr)?;
    Ok(BodyDecl {
        name,
        params,
        answer: body.answer,
        expr,
        pos: body.pos,
    })
}

/// A copy of the bodies, in their order.
pub fn copy_bodies(alloc: Global, bodies: &[BodyDecl]) -> Result<Vec<BodyDecl>, NoMemory>
    ensures { IfOk result (λ v. v.items ≡ bodies.now) }
{
    let mut copies = Vec::with_capacity(alloc, bodies.len())?;
    for body in bodies {
        copies.push(copy_body(alloc, body)?)?;
    }
    Ok(copies)
}
