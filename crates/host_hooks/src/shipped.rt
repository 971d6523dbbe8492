//! The hooks of the program as it is shipped.

ghost use Rattle.std.specs.Prelude.{◌≡◌, IfOk};
ghost use Rattle.hh_base.specs.declared.value.Kind.TheVariants as kind;
ghost use Rattle.host_expr.specs.Expression.{Arg, expression_of};
ghost use Rattle.host_hooks.specs.Law.{IsAllowedBy, LawFits, kinds_of};
ghost use Rattle.host_hooks.specs.Shipped.{IsSameLaw, one_text, size_law, two_texts};
ghost use Rattle.host_hooks.specs.declared.law.HookLaw.{HookLaw as ALaw};

use crate::law::HookLaw;
use hh_base::memory::NoMemory;
use hh_base::text::TEXT_LIMIT;
use hh_base::value::{Pos, Value, same_value};
use host_expr::expr::{Expr, ExprNode, Rel};
use sqlite_items::Boxed;
use std::alloc::Global;

/// What `text_size` promises: no text has more bytes than the limit.
pub fn text_size_law() -> HookLaw
    ensures law { result ≡ size_law }
    ensures fits { LawFits result one_text kind.Int }
{
    HookLaw::Within(0, TEXT_LIMIT as i64)
}

/// The number of bytes of a text.
pub fn text_size(args: &[Value]) -> Value
    requires { kinds_of args.now ≡ one_text }
    ensures { IsAllowedBy size_law kind.Int args.now result }
{
    match args {
        [Value::Text(text)] => Value::Int(text.len() as i64),
        _ => Value::Int(0),
    }
}

fn parameter(alloc: Global, place: u32) -> Result<Boxed<Expr<u32>>, NoMemory>
    ensures { IfOk result (λ e. expression_of e ≡ Arg place) }
{
    let leaf = Expr {
        pos: Pos(0),
        node: ExprNode::Arg(place),
    };
    Ok(Boxed::new(alloc, leaf)?)
}

/// What `same_text` promises: it answers whether its first parameter equals the second.
pub fn same_text_law(alloc: Global) -> Result<HookLaw, NoMemory>
    ensures law { IfOk result IsSameLaw }
    ensures fits { IfOk result (λ law. LawFits law two_texts kind.Bool) }
{
    let node = ExprNode::Compare(Rel::Eq, parameter(alloc, 0)?, parameter(alloc, 1)?);
    Ok(HookLaw::Equals(Expr { pos: Pos(0), node }))
}

/// Whether two texts are the same.
#[tactic(auto, using(crate::proofs::Sameness::two_long))]
pub fn same_text(args: &[Value]) -> Value
    requires { kinds_of args.now ≡ two_texts }
    ensures { (law : ALaw) → IsSameLaw law → IsAllowedBy law kind.Bool args.now result }
{
    Value::Bool(same_value(&args[0], &args[1]))
}
