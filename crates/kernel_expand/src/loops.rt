//! Loops whose body may end in the reaction in which it starts.

ghost use Rattle.std.specs.Prelude.{◌≡◌, ◌<◌, None};
ghost use Rattle.hh_term.specs.Codes.{static_codes, only};
ghost use Rattle.hh_term.specs.Flags.{Agrees};
ghost use Rattle.hh_term.specs.Placed.{placed_term};
ghost use Rattle.hh_term.specs.Views.{statement_of};
ghost use Rattle.kernel_expand.specs.Refusals.{instant_loops, if_instant, least, both_earlier};

use hh_base::value::Pos;
use hh_term::codes::{Flags, follow, join, lower, put_only, take_greater};
use hh_term::term::{Term, TermNode};

/// The earlier of two positions, of which either may be missing.
fn earlier(a: Option<Pos>, b: Option<Pos>) -> Option<Pos>
    ensures { result ≡ both_earlier a b }
{
    match (a, b) {
        (None, pos) => pos,
        (pos, None) => pos,
        (Some(a), Some(b)) => Some(Pos(a.0.min(b.0))),
    }
}

/// The position of a loop, where its body may end in the reaction in which it starts.
fn if_instant(ends: bool, pos: Pos) -> Option<Pos>
    ensures { result ≡ least (if_instant ends pos) }
{
    if ends { Some(pos) } else { None }
}

/// A statement without parts, which has no loop.
fn with_code(codes: &mut Flags, code: usize) -> Option<Pos>
    requires { code < 258 }
    ensures codes { Agrees codes.new (only code) }
    ensures first { result ≡ None }
{
    put_only(codes, code);
    None
}

/// The least position of a loop whose body may end in the reaction in which it starts.
pub fn first_instant(term: &Term) -> Option<Pos>
    ensures { result ≡ least (instant_loops (placed_term term.now)) }
{
    let mut codes = [false; 258];
    first_within(term, &mut codes)
}

/// The same, and the codes with which the statement may complete. The flags are the caller's, so that a frame
/// holds at most one array.
#[tactic(auto, using(crate::proofs::Earlier::least_of_both))]
fn first_within(term: &Term, codes: &mut Flags) -> Option<Pos>
    ensures codes { Agrees codes.new (static_codes (statement_of term.now)) }
    ensures first { result ≡ least (instant_loops (placed_term term.now)) }
{
    match &term.node {
        TermNode::Nothing | TermNode::Emit(_, _) => with_code(codes, 0),
        TermNode::Pause | TermNode::Async(_) => with_code(codes, 1),
        TermNode::Exit(k) => with_code(codes, *k as usize + 2),
        TermNode::If(_, p, q) => {
            let mut others = [false; 258];
            let first = earlier(first_within(p, codes), first_within(q, &mut others));
            join(codes, &others);
            first
        }
        TermNode::Seq(p, q) => {
            let mut others = [false; 258];
            let first = earlier(first_within(p, codes), first_within(q, &mut others));
            follow(codes, &others);
            first
        }
        TermNode::Par(p, q) => {
            let mut others = [false; 258];
            let first = earlier(first_within(p, codes), first_within(q, &mut others));
            take_greater(codes, &others);
            first
        }
        TermNode::Loop(p) => {
            let inner = first_within(p, codes);
            let first = earlier(if_instant(codes[0], term.pos), inner);
            codes[0] = false;
            first
        }
        TermNode::Trap(p) => {
            let first = first_within(p, codes);
            lower(codes);
            first
        }
        TermNode::Suspend(_, p) | TermNode::Local(_, p) => first_within(p, codes),
    }
}
