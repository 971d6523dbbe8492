//! Parts of these lines.
ghost use Rattle.std.specs.Prelude.{◌≡◌, Some, None, MatchResult};
ghost use Rattle.net_line.specs.declared.fault.LineFault.TheVariants.{Formless as formless};
ghost use Rattle.net_line.specs.Decoding.{kind_of};
ghost use Rattle.net_line.specs.GateReading.{number};
ghost use Rattle.net_line.specs.Reading.{part_as, counted, times, behind, Reads};
ghost use Rattle.record_line.specs.RecordReading.{later_number, line_expression, body_name_of, expression_if};
ghost use Rattle.record_line.specs.RecordReading.{number_or_none, expressions};

use hh_base::value::Kind;
use host_expr::expr::{EXPRESSION_LIMIT, Expr};
use net_line::decode::number_of;
use net_line::fault::LineFault;
use net_line::literal::{is_dash, is_name_part};
use net_line::unread::Unread;
use sqlite_items::Items;
use std::alloc::Global;

/// Takes a space and a number where `later` holds; else there is none, which counts as 0.
pub(crate) fn later_number(unread: &mut Unread<'_>, later: bool) -> Result<u32, LineFault>
    ensures { Reads (later_number later unread.old) result unread.new }
{
    if later {
        return unread.number();
    }
    Ok(0)
}

/// Takes an expression.
pub(crate) fn line_expression(unread: &mut Unread<'_>) -> Result<Expr<u32>, LineFault>
    ensures { Reads (line_expression unread.old) result unread.new }
{
    let (expr, _room) = unread.expression(EXPRESSION_LIMIT)?;
    Ok(expr)
}

/// Takes an expression where there is one.
pub(crate) fn expression_if(
    unread: &mut Unread<'_>,
    there: bool,
) -> Result<Option<Expr<u32>>, LineFault>
    ensures { Reads (expression_if there unread.old) result unread.new }
{
    if there {
        let expr = line_expression(unread)?;
        return Ok(Some(expr));
    }
    Ok(None)
}

/// Takes a space and what stands for the name of a body.
pub(crate) fn body_name<'a>(unread: &mut Unread<'a>) -> Result<&'a [u8], LineFault>
    ensures { MatchResult result (λ w. part_as body_name_of unread.old ≡ Some (w.now, unread.new))
        (λ e. e ≡ formless → part_as body_name_of unread.old ≡ None) }
{
    let part = unread.part()?;
    if is_name_part(part) {
        return Ok(part);
    }
    Err(LineFault::Formless)
}

/// Takes how many kinds there are, and the kinds.
#[tactic(auto, using(crate::proofs::Loops::one_more))]
pub(crate) fn kinds(alloc: Global, unread: &mut Unread<'_>) -> Result<Items<Kind>, LineFault>
    ensures { Reads (counted number (part_as kind_of) unread.old) result unread.new }
{
    let mut left = unread.number()?;
    let mut kinds = Items::new(alloc);
    while left > 0 {
        let kind = unread.kind()?;
        kinds.push(kind)?;
        left -= 1;
    }
    Ok(kinds)
}

/// Takes how many expressions there are, and the expressions.
#[tactic(auto, using(crate::proofs::Loops::one_more))]
pub(crate) fn expressions(
    alloc: Global,
    unread: &mut Unread<'_>,
) -> Result<Items<Expr<u32>>, LineFault>
    ensures { Reads (expressions unread.old) result unread.new }
{
    let mut left = unread.number()?;
    let mut exprs = Items::new(alloc);
    while left > 0 {
        let expr = line_expression(unread)?;
        exprs.push(expr)?;
        left -= 1;
    }
    Ok(exprs)
}

/// Takes a space and a number, or what stands for none.
pub(crate) fn number_or_none(unread: &mut Unread<'_>) -> Result<Option<u32>, LineFault>
    ensures { Reads (part_as number_or_none unread.old) result unread.new }
{
    let part = unread.part()?;
    if is_dash(part) {
        return Ok(None);
    }
    match number_of(part) {
        Some(number) => Ok(Some(number)),
        None => Err(LineFault::Formless),
    }
}
