//! The call of a running instance's body.

ghost use Rattle.std.specs.Prelude.{◌≡◌, All, IfOk};
ghost use Rattle.host_expr.specs.Combination.{counts_as};
ghost use Rattle.host_expr.specs.Expression.{expression_of};
ghost use Rattle.host_hooks.specs.Allowed.{Allowed, AnswersTo, IsAllowedAnswer, IsCovered};
ghost use Rattle.host_hooks.specs.Stored.{promises_of};
ghost use Rattle.host_hooks.specs.Law.{computed};

use crate::kinds::are_of_kinds;
use crate::table::HookTable;
use exec_instance::answer::Answer;
use exec_instance::instance::Instance;
use hh_base::memory::NoMemory;
use hh_base::value::{Kind, Value, default_of};
use hh_term::program::BodyDecl;
use host_expr::cell::{Cell, Cells};
use host_expr::eval::eval;
use host_expr::expr::Expr;
use std::alloc::Global;

fn copies_of(alloc: Global, values: &[Value]) -> Result<Vec<Value>, NoMemory>
    ensures { IfOk result (λ v. v.items ≡ values.now) }
{
    let mut copies = Vec::with_capacity(alloc, values.len())?;
    for value in values {
        copies.push(value.copy(alloc)?)?;
    }
    Ok(copies)
}

fn value_in(alloc: Global, answer: Kind, cell: Cell) -> Value
    ensures { result ≡ counts_as answer cell }
{
    match cell {
        Cell::Known(value) => value,
        _ => default_of(alloc, answer),
    }
}

fn compute(alloc: Global, answer: Kind, expr: &Expr<u32>, args: &[Value]) -> Result<Value, NoMemory>
    ensures { IfOk result (λ v. v ≡ computed answer (expression_of expr.now) args.now) }
{
    let cells = Cells {
        signals: Vec::new(alloc),
        args: copies_of(alloc, args)?,
    };
    Ok(value_in(alloc, answer, eval(alloc, expr, &cells)?))
}

fn answer_of(
    alloc: Global,
    hooks: &HookTable,
    body: &BodyDecl,
    args: &[Value],
) -> Result<Value, NoMemory>
    requires { IsCovered (promises_of hooks.now) body.now }
    ensures { IfOk result (AnswersTo (promises_of hooks.now) body.now args.now) }
{
    if !are_of_kinds(args, body.params.as_slice()) {
        return Ok(Value::Unit);
    }
    if let Some(expr) = &body.expr {
        return compute(alloc, body.answer, expr, args);
    }
    match hooks.find(body) {
        Some(hook) => hook.run(args),
        None => Ok(Value::Unit),
    }
}

/// A last answer to the instance, with a value that its body may answer to its arguments.
pub fn call(
    alloc: Global,
    hooks: &HookTable,
    bodies: &[BodyDecl],
    instance: &Instance,
) -> Result<Answer, NoMemory>
    requires { All (IsCovered (promises_of hooks.now)) bodies.now }
    ensures { IfOk result (IsAllowedAnswer (promises_of hooks.now) bodies.now instance.now) }
{
    let value = match bodies.get(instance.body as usize) {
        Some(body) => answer_of(alloc, hooks, body, instance.args.as_slice())?,
        None => Value::Unit,
    };
    Ok(Answer {
        id: instance.id,
        value,
        last: true,
    })
}
