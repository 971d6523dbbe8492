//! Whether the kinds of an expression fit.

ghost use Rattle.std.specs.Prelude.{◌≡◌};
ghost use Rattle.host_expr.specs.Kinds.{status_kind, value_kind, only_int, only_bool, both_bool};
ghost use Rattle.host_expr.specs.Kinds.{arith_kind, one_valued, compare_kind, choose_kind};
ghost use Rattle.link_faults.specs.Meanings.{kind_of_signal, kind_of_parameter};
ghost use Rattle.link_faults.specs.Judgements.{IsJudgement, all_have_kinds, judgement_of, over, read};
ghost use Rattle.link_faults.specs.Judgements.{unknown_at};

use crate::fault::{LinkFault, LinkKind, earlier};
use crate::names::Names;
use hh_base::name::Name;
use hh_base::value::{Kind, Pos};
use host_expr::expr::{Expr, ExprNode, Op, Rel};

/// The kind of an expression, the first node whose parts do not fit together, and the first name that means
/// nothing.
#[derive(Clone, Copy, Drop)]
pub struct Judgement {
    pub kind: Option<Kind>,
    pub misfit: Option<LinkFault>,
    pub unknown: Option<LinkFault>,
}

fn status_kind(meant: Option<Kind>) -> Option<Kind>
    ensures { result ≡ status_kind meant }
{
    match meant {
        Some(_) => Some(Kind::Bool),
        None => None,
    }
}

fn value_kind(meant: Option<Kind>) -> Option<Kind>
    ensures { result ≡ value_kind meant }
{
    match meant {
        Some(Kind::Pure) => None,
        kind => kind,
    }
}

fn only_bool(kind: Option<Kind>) -> Option<Kind>
    ensures { result ≡ only_bool kind }
{
    match kind {
        Some(Kind::Bool) => Some(Kind::Bool),
        _ => None,
    }
}

fn only_int(kind: Option<Kind>) -> Option<Kind>
    ensures { result ≡ only_int kind }
{
    match kind {
        Some(Kind::Int) => Some(Kind::Int),
        _ => None,
    }
}

fn both_bool(left: Option<Kind>, right: Option<Kind>) -> Option<Kind>
    ensures { result ≡ both_bool left right }
{
    match (left, right) {
        (Some(Kind::Bool), Some(Kind::Bool)) => Some(Kind::Bool),
        _ => None,
    }
}

fn arith_kind(op: Op, left: Option<Kind>, right: Option<Kind>) -> Option<Kind>
    ensures { result ≡ arith_kind op left right }
{
    match (op, left, right) {
        (_, Some(Kind::Int), Some(Kind::Int)) => Some(Kind::Int),
        (Op::Add, Some(Kind::Text), Some(Kind::Text)) => Some(Kind::Text),
        _ => None,
    }
}

fn one_valued(left: Option<Kind>, right: Option<Kind>) -> Option<Kind>
    ensures { result ≡ one_valued left right }
{
    match (left, right) {
        (Some(Kind::Int), Some(Kind::Int)) => Some(Kind::Int),
        (Some(Kind::Bool), Some(Kind::Bool)) => Some(Kind::Bool),
        (Some(Kind::Text), Some(Kind::Text)) => Some(Kind::Text),
        _ => None,
    }
}

fn compare_kind(rel: Rel, left: Option<Kind>, right: Option<Kind>) -> Option<Kind>
    ensures { result ≡ compare_kind rel left right }
{
    match (rel, left, right) {
        (Rel::Eq | Rel::Ne, _, _) => status_kind(one_valued(left, right)),
        (_, Some(Kind::Int), Some(Kind::Int)) => Some(Kind::Bool),
        _ => None,
    }
}

fn choose_kind(test: Option<Kind>, taken: Option<Kind>) -> Option<Kind>
    ensures { result ≡ choose_kind test taken }
{
    match test {
        Some(Kind::Bool) => taken,
        _ => None,
    }
}

pub fn unknown_at(pos: Pos, meant: Option<Kind>) -> Option<LinkFault>
    ensures { result ≡ unknown_at pos meant }
{
    match meant {
        None => Some(LinkFault {
            pos,
            kind: LinkKind::UnknownSignal,
        }),
        Some(_) => None,
    }
}

fn all_have_kinds(parts: &[Judgement]) -> bool
    ensures { result ≡ all_have_kinds parts.now }
{
    parts.iter().all(|part| part.kind.is_some())
}

impl Judgement {
    /// Of a node of this kind, over its parts.
    #[tactic(auto, using(crate::proofs::EarlierLaws::first_by_more))]
    fn over(pos: Pos, kind: Option<Kind>, parts: &[Judgement]) -> Judgement
        ensures { result ≡ over pos kind parts.now }
    {
        let mut misfit = None;
        let mut unknown = None;
        'parts: for part in parts {
            misfit = earlier(misfit, part.misfit);
            unknown = earlier(unknown, part.unknown);
        }
        if all_have_kinds(parts) && kind.is_none() {
            misfit = Some(LinkFault {
                pos,
                kind: LinkKind::KindWrong,
            });
        }
        Judgement {
            kind,
            misfit,
            unknown,
        }
    }

    /// Of a name that means this, and what is read of it.
    fn read(pos: Pos, meant: Option<Kind>, own: Option<Kind>) -> Judgement
        ensures { result ≡ read pos meant own }
    {
        match meant {
            None => Judgement {
                kind: None,
                misfit: None,
                unknown: unknown_at(pos, None),
            },
            Some(_) => Judgement::over(pos, own, &[]),
        }
    }
}

fn judge_node(expr: &Expr<Name>, names: &Names) -> Judgement
    ensures { result ≡ judgement_of (kind_of_signal names.now) (kind_of_parameter names.now) expr.now }
{
    let pos = expr.pos;
    match &expr.node {
        ExprNode::Int(_) => Judgement::over(pos, Some(Kind::Int), &[]),
        ExprNode::Bool(_) => Judgement::over(pos, Some(Kind::Bool), &[]),
        ExprNode::Text(_) => Judgement::over(pos, Some(Kind::Text), &[]),
        ExprNode::Now(name) | ExprNode::Pre(name) => {
            let meant = names.kind_of_signal(name);
            Judgement::read(pos, meant, status_kind(meant))
        }
        ExprNode::NowVal(name) | ExprNode::PreVal(name) => {
            let meant = names.kind_of_signal(name);
            Judgement::read(pos, meant, value_kind(meant))
        }
        ExprNode::Arg(name) => {
            let meant = names.kind_of_parameter(name);
            Judgement::read(pos, meant, value_kind(meant))
        }
        ExprNode::Not(a) => {
            let a = judge_node(a.get(), names);
            Judgement::over(pos, only_bool(a.kind), &[a])
        }
        ExprNode::Neg(a) => {
            let a = judge_node(a.get(), names);
            Judgement::over(pos, only_int(a.kind), &[a])
        }
        ExprNode::Arith(op, a, b) => {
            let a = judge_node(a.get(), names);
            let b = judge_node(b.get(), names);
            Judgement::over(pos, arith_kind(*op, a.kind, b.kind), &[a, b])
        }
        ExprNode::Compare(rel, a, b) => {
            let a = judge_node(a.get(), names);
            let b = judge_node(b.get(), names);
            Judgement::over(pos, compare_kind(*rel, a.kind, b.kind), &[a, b])
        }
        ExprNode::And(a, b) | ExprNode::Or(a, b) => {
            let a = judge_node(a.get(), names);
            let b = judge_node(b.get(), names);
            Judgement::over(pos, both_bool(a.kind, b.kind), &[a, b])
        }
        ExprNode::Choose(a, b, c) => {
            let a = judge_node(a.get(), names);
            let b = judge_node(b.get(), names);
            let c = judge_node(c.get(), names);
            let kind = choose_kind(a.kind, one_valued(b.kind, c.kind));
            Judgement::over(pos, kind, &[a, b, c])
        }
    }
}

/// Judges an expression where names mean this.
pub fn judge(expr: &Expr<Name>, names: &Names) -> Judgement
    ensures { IsJudgement (kind_of_signal names.now) (kind_of_parameter names.now) expr.now result }
{
    judge_node(expr, names)
}
