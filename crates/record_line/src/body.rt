//! The lines of bodies and of hosts.
ghost use Rattle.std.specs.Prelude.{◌≡◌, Some, None, MatchResult};
ghost use Rattle.net_line.specs.declared.fault.LineFault.TheVariants.{Formless as formless};
ghost use Rattle.net_line.specs.Taken.{IsTaken, IsRefused};
ghost use Rattle.net_text.specs.Lines.{body_line};
ghost use Rattle.record_line.specs.RecordForm.{IsBodyForm};
ghost use Rattle.record_line.specs.RecordReading.{has_expression, named_body, body_row};

use crate::part::{body_name, expression_if, kinds};
use hh_base::value::{Kind, Pos};
use host_expr::expr::Expr;
use net_line::fault::LineFault;
use net_line::unread::Unread;
use sqlite_items::Items;
use std::alloc::Global;

/// What the line of a body says but for its name, which may be no name.
#[derive(Drop)]
pub struct BodyLine {
    pub params: Items<Kind>,
    pub answer: Kind,
    pub expr: Option<Expr<u32>>,
    pub pos: Pos,
}

/// Whether the word is that of a body with an expression, or of one of a host.
fn has_expression(word: &[u8]) -> Option<bool>
    ensures { result ≡ has_expression word.now }
{
    if word == b"body".as_slice() {
        return Some(true);
    }
    if word == b"host".as_slice() {
        return Some(false);
    }
    None
}

fn body_row<'a>(alloc: Global, unread: &mut Unread<'a>) -> Result<(&'a [u8], BodyLine), LineFault>
    ensures { MatchResult result (λ b. body_row unread.old ≡ Some (named_body b.0.now b.1, unread.new))
        (λ e. e ≡ formless → body_row unread.old ≡ None) }
{
    let Some(there) = has_expression(unread.word()) else {
        return Err(LineFault::Formless);
    };
    let name = body_name(unread)?;
    let answer = unread.kind()?;
    let params = kinds(alloc, unread)?;
    let expr = expression_if(unread, there)?;
    let pos = Pos(unread.number()?);
    unread.line_end()?;
    Ok((
        name,
        BodyLine {
            params,
            answer,
            expr,
            pos,
        },
    ))
}

/// Takes the line of a body: what stands there for its name, and the rest of it.
pub fn read_body<'a>(
    alloc: Global,
    unread: &mut Unread<'a>,
) -> Result<(&'a [u8], BodyLine), LineFault>
    ensures { MatchResult result
        (λ b. IsTaken body_line IsBodyForm unread.old (named_body b.0.now b.1) unread.new)
        (λ e. e ≡ formless → IsRefused body_line IsBodyForm unread.old) }
{
    body_row(alloc, unread)
}
