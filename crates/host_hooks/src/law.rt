//! What a stored body promises of its answers.

use host_expr::expr::Expr;

/// Which values a hook may answer, beside that they are of its answer's kind: any; those from the first
/// number to the second, both of them too; the value of an expression over its arguments.
#[derive(Drop)]
pub enum HookLaw {
    AnyOfKind,
    Within(i64, i64),
    Equals(Expr<u32>),
}
