//! Kernel terms, each node at one position.

ghost use Rattle.std.specs.Prelude.{◌≡◌, IfOk, None, Some};
ghost use Rattle.hh_term.specs.Placed.{placed_term};
ghost use Rattle.hh_term.specs.Placed as placed;

use hh_base::memory::NoMemory;
use hh_base::value::Pos;
use hh_term::term::{Term, TermNode};
use host_expr::expr::{Expr, ExprNode};
use std::alloc::Global;

/// Where the nodes of a derived statement stand, and where their memory comes from.
#[derive(Clone, Copy)]
pub struct At {
    pub alloc: Global,
    pub pos: Pos,
}

impl At {
    fn term(self, node: TermNode) -> Term
        ensures { result ≡ record { pos = self.pos; node = node } }
    {
        Term {
            pos: self.pos,
            node,
        }
    }

    pub fn nothing(self) -> Term
        ensures { placed_term result ≡ placed.Nothing self.pos }
    {
        self.term(TermNode::Nothing)
    }

    pub fn pause(self) -> Term
        ensures { placed_term result ≡ placed.Pause self.pos }
    {
        self.term(TermNode::Pause)
    }

    pub fn emit(self, signal: u32, value: Option<Expr<u32>>) -> Term
        ensures { placed_term result ≡ placed.Emit self.pos signal value }
    {
        self.term(TermNode::Emit(signal, value))
    }

    pub fn exit(self, traps: u8) -> Term
        ensures { placed_term result ≡ placed.Exit self.pos traps }
    {
        self.term(TermNode::Exit(traps))
    }

    pub fn site(self, number: u32) -> Term
        ensures { placed_term result ≡ placed.Async self.pos number }
    {
        self.term(TermNode::Async(number))
    }

    pub fn choice(self, test: Expr<u32>, then: Term, other: Term) -> Result<Term, NoMemory>
        ensures { IfOk result (λ t. placed_term t ≡ placed.If self.pos test (placed_term then)
            (placed_term other)) }
    {
        let then = Box::new(self.alloc, then)?;
        let other = Box::new(self.alloc, other)?;
        Ok(self.term(TermNode::If(test, then, other)))
    }

    pub fn suspend(self, test: Expr<u32>, body: Term) -> Result<Term, NoMemory>
        ensures { IfOk result (λ t. placed_term t ≡ placed.Suspend self.pos test (placed_term body)) }
    {
        let body = Box::new(self.alloc, body)?;
        Ok(self.term(TermNode::Suspend(test, body)))
    }

    pub fn seq(self, first: Term, second: Term) -> Result<Term, NoMemory>
        ensures { IfOk result (λ t. placed_term t ≡ placed.Seq self.pos (placed_term first)
            (placed_term second)) }
    {
        let first = Box::new(self.alloc, first)?;
        let second = Box::new(self.alloc, second)?;
        Ok(self.term(TermNode::Seq(first, second)))
    }

    pub fn par(self, first: Term, second: Term) -> Result<Term, NoMemory>
        ensures { IfOk result (λ t. placed_term t ≡ placed.Par self.pos (placed_term first)
            (placed_term second)) }
    {
        let first = Box::new(self.alloc, first)?;
        let second = Box::new(self.alloc, second)?;
        Ok(self.term(TermNode::Par(first, second)))
    }

    pub fn looped(self, body: Term) -> Result<Term, NoMemory>
        ensures { IfOk result (λ t. placed_term t ≡ placed.Loop self.pos (placed_term body)) }
    {
        let body = Box::new(self.alloc, body)?;
        Ok(self.term(TermNode::Loop(body)))
    }

    pub fn trap(self, body: Term) -> Result<Term, NoMemory>
        ensures { IfOk result (λ t. placed_term t ≡ placed.Trap self.pos (placed_term body)) }
    {
        let body = Box::new(self.alloc, body)?;
        Ok(self.term(TermNode::Trap(body)))
    }

    pub fn local(self, signal: u32, body: Term) -> Result<Term, NoMemory>
        ensures { IfOk result (λ t. placed_term t ≡ placed.Local self.pos signal (placed_term body)) }
    {
        let body = Box::new(self.alloc, body)?;
        Ok(self.term(TermNode::Local(signal, body)))
    }
}
