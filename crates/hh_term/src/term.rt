//! The twelve kernel statements.

use hh_base::value::Pos;
use host_expr::expr::Expr;

/// A kernel statement and the position in the input that it comes from.
#[cycle(term)]
#[derive(Drop)]
pub struct Term {
    pub pos: Pos,
    pub node: TermNode,
}

/// The kernel statements. Signals and async sites go by their numbers, and `Exit(k)` leaves the trap that
/// is k traps outward.
#[cycle(term)]
#[derive(Drop)]
pub enum TermNode {
    Nothing,
    Pause,
    Emit(u32, Option<Expr<u32>>),
    If(Expr<u32>, Box<Term>, Box<Term>),
    Suspend(Expr<u32>, Box<Term>),
    Seq(Box<Term>, Box<Term>),
    Par(Box<Term>, Box<Term>),
    Loop(Box<Term>),
    Trap(Box<Term>),
    Exit(u8),
    Local(u32, Box<Term>),
    Async(u32),
}
