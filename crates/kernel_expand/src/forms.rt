//! The statements that the rows of derived statements make round their body.

ghost use Rattle.std.specs.Prelude.{◌≡◌, ◌<◌, ◌≤◌, ◌-◌, IfOk, OnOk, map, length, take, drop};
ghost use Rattle.hh_term.specs.Placed.{placed_term};
ghost use Rattle.kernel_expand.specs.declared.forms.Join.{Join as AJoin};
ghost use Rattle.kernel_expand.specs.Forms as form;

use crate::terms::At;
use hh_base::memory::NoMemory;
use hh_term::term::Term;
use host_expr::expr::{Expr, ExprNode, copy_expr};

/// Whether this signal is present.
pub fn present(at: At, signal: u32) -> Expr<u32>
    ensures { result ≡ form.present at.pos signal }
{
    Expr {
        pos: at.pos,
        node: ExprNode::Now(signal),
    }
}

pub fn halts(at: At) -> Result<Term, NoMemory>
    ensures { IfOk result (λ t. placed_term t ≡ form.halts at.pos) }
{
    at.looped(at.pause())
}

fn exits_where(at: At, test: Expr<u32>) -> Result<Term, NoMemory>
    ensures { IfOk result (λ t. placed_term t ≡ form.exits_where at.pos test) }
{
    at.choice(test, at.exit(0), at.nothing())
}

pub fn waits(at: At, test: Expr<u32>) -> Result<Term, NoMemory>
    ensures { IfOk result (λ t. placed_term t ≡ form.waits at.pos test) }
{
    let exits = exits_where(at, test)?;
    at.looped(at.seq(at.pause(), exits)?)
}

pub fn waits_now(at: At, test: Expr<u32>) -> Result<Term, NoMemory>
    ensures { IfOk result (λ t. placed_term t ≡ form.waits_now at.pos test) }
{
    let exits = exits_where(at, test)?;
    at.looped(at.seq(exits, at.pause())?)
}

/// So many waits for the test, one after the other.
pub fn awaits(at: At, times: u8, test: &Expr<u32>) -> Result<Term, NoMemory>
    ensures { IfOk result (λ t. placed_term t ≡ form.awaits at.pos times test.now) }
{
    match times {
        0 => Ok(at.nothing()),
        1 => {
            let wait = waits(at, copy_expr(at.alloc, test)?)?;
            Ok(at.trap(wait)?)
        }
        _ => {
            let half = times / 2;
            let first = awaits(at, times - half, test)?;
            let second = awaits(at, half, test)?;
            Ok(at.seq(first, second)?)
        }
    }
}

/// A body that exits where it ends, beside what exits where it is aborted.
pub fn beside(at: At, body: Term, watch: Term) -> Result<Term, NoMemory>
    ensures { IfOk result (λ t. placed_term t ≡ form.beside at.pos (placed_term body) (placed_term watch)) }
{
    let ends = at.seq(body, at.exit(0))?;
    at.trap(at.par(ends, watch)?)
}

/// Takes the last statement off, where it is to be one.
fn last_or_nothing(at: At, terms: &mut Vec<Term>, count: usize) -> Term
    requires there { count ≤ length terms.old.items }
    requires one { count < 2 }
    ensures left { terms.new.items ≡ take (length terms.old.items - count) terms.old.items }
    ensures term { (j : AJoin) → placed_term result ≡ form.joined j at.pos
        (map placed_term (drop (length terms.old.items - count) terms.old.items)) }
{
    if count == 0 {
        return at.nothing();
    }
    match terms.pop() {
        Some(term) => term,
        None => at.nothing(),
    }
}

/// Whether statements stand one after the other, or side by side.
#[derive(Clone, Copy)]
pub enum Join {
    Sequence,
    Parallel,
}

impl Join {
    fn two(self, at: At, first: Term, second: Term) -> Result<Term, NoMemory>
        ensures { IfOk result (λ t. placed_term t ≡ form.two self at.pos (placed_term first)
            (placed_term second)) }
    {
        match self {
            Join::Sequence => at.seq(first, second),
            Join::Parallel => at.par(first, second),
        }
    }

    /// Takes the last statements off, so many of them, and joins them by their halves.
    fn last(self, at: At, terms: &mut Vec<Term>, count: usize) -> Result<Term, NoMemory>
        requires { count ≤ length terms.old.items }
        ensures left { OnOk result (terms.new.items ≡ take (length terms.old.items - count) terms.old.items) }
        ensures term { IfOk result (λ t. placed_term t ≡ form.joined self at.pos
            (map placed_term (drop (length terms.old.items - count) terms.old.items))) }
    {
        if count < 2 {
            return Ok(last_or_nothing(at, terms, count));
        }
        let second = self.last(at, terms, count / 2)?;
        let first = self.last(at, terms, count - count / 2)?;
        Ok(self.two(at, first, second)?)
    }

    /// Joins statements by their halves.
    pub fn all(self, at: At, mut terms: Vec<Term>) -> Result<Term, NoMemory>
        ensures { IfOk result (λ t. placed_term t ≡ form.joined self at.pos (map placed_term terms.items)) }
    {
        let count = terms.len();
        self.last(at, &mut terms, count)
    }
}
