//! The kinds of expressions.
ghost use Rattle.std.specs.Prelude.{◌≡◌, [], map, slice_get, IfOk};
ghost use Rattle.host_expr.specs.Expression.{expression_of};
ghost use Rattle.host_expr.specs.Kinds.{kind_of_expression};
ghost use Rattle.net_list.specs.Kinds.{same_kind, is_kind, is_pure_parameter, answers_kind, body_fits};
ghost use Rattle.net_list.specs.Kinds.{line_has_kind};

use hh_base::value::{Kind, NoMemory};
use hh_term::program::BodyDecl;
use host_expr::cell::Scope;
use host_expr::check::check;
use host_expr::expr::{Expr, ExprNode};
use sqlite_items::Boxed;
use std::alloc::Global;

/// Whether two kinds are the same.
pub(crate) fn same_kind(left: Kind, right: Kind) -> bool
    ensures { result ≡ same_kind left right }
{
    match (left, right) {
        (Kind::Pure, Kind::Pure) => true,
        (Kind::Int, Kind::Int) => true,
        (Kind::Bool, Kind::Bool) => true,
        (Kind::Text, Kind::Text) => true,
        _ => false,
    }
}

/// Whether what was found has this kind.
pub(crate) fn is_kind(kind: Kind, found: Option<Kind>) -> bool
    ensures { result ≡ is_kind kind found }
{
    match found {
        Some(found) => same_kind(kind, found),
        None => false,
    }
}

/// The kind at this place.
pub(crate) fn kind_at(kinds: &[Kind], place: u32) -> Option<Kind>
    ensures { result ≡ slice_get kinds.now place }
{
    match kinds.get(place as usize) {
        Some(kind) => Some(*kind),
        None => None,
    }
}

fn kind_in(expr: &Expr<u32>, scope: &Scope) -> Option<Kind>
    ensures { result ≡ kind_of_expression scope.now.signals.items scope.now.args.items
        (expression_of expr.now) }
{
    match check(expr, scope) {
        Ok(kind) => Some(kind),
        Err(_) => None,
    }
}

/// Whether an expression of a line has this kind.
pub(crate) fn line_has_kind(kind: Kind, expr: &Expr<u32>, scope: &Scope) -> bool
    requires { scope.now.args.items ≡ [] }
    ensures { result ≡ line_has_kind scope.now.signals.items kind expr.now }
{
    is_kind(kind, kind_in(expr, scope))
}

/// Whether the value of the expression is that of a pure parameter.
#[cycle(parameter)]
fn is_pure_parameter(expr: &Expr<u32>, scope: &Scope) -> bool
    requires { scope.now.signals.items ≡ [] }
    ensures { result ≡ is_pure_parameter scope.now.args.items (expression_of expr.now) }
{
    match &expr.node {
        ExprNode::Arg(place) => is_kind(Kind::Pure, kind_at(&scope.args, *place)),
        ExprNode::Choose(a, b, c) => {
            is_kind(Kind::Bool, kind_in(a.get(), scope))
                && is_pure_part(b, scope)
                && is_pure_part(c, scope)
        }
        _ => false,
    }
}

#[cycle(parameter)]
fn is_pure_part(part: &Boxed<Expr<u32>>, scope: &Scope) -> bool
    requires { scope.now.signals.items ≡ [] }
    ensures { result ≡ is_pure_parameter scope.now.args.items (expression_of part.now) }
{
    is_pure_parameter(part.get(), scope)
}

/// Whether the expression of a body has the kind of its answers.
fn answers_kind(answer: Kind, expr: &Expr<u32>, scope: &Scope) -> bool
    requires { scope.now.signals.items ≡ [] }
    ensures { result ≡ answers_kind answer scope.now.args.items (expression_of expr.now) }
{
    match answer {
        Kind::Pure => is_pure_parameter(expr, scope),
        _ => is_kind(answer, kind_in(expr, scope)),
    }
}

/// Whether the body's expression, if it has one, has the kind of its answers.
fn body_fits(alloc: Global, body: &BodyDecl) -> Result<bool, NoMemory>
    ensures { IfOk result (λ fits. fits ≡ body_fits body.now) }
{
    let Some(expr) = &body.expr else {
        return Ok(true);
    };
    let args = Vec::from_slice(alloc, body.params.as_slice())?;
    let signals = Vec::new(alloc);
    Ok(answers_kind(body.answer, expr, &Scope { signals, args }))
}

/// The same of each body.
pub(crate) fn bodies_fit(alloc: Global, bodies: &[BodyDecl]) -> Result<Vec<bool>, NoMemory>
    ensures { IfOk result (λ fit. fit.items ≡ map body_fits bodies.now) }
{
    let mut fit = Vec::with_capacity(alloc, bodies.len())?;
    for body in bodies {
        fit.push(body_fits(alloc, body)?)?;
    }
    Ok(fit)
}
