//! The codes with which a statement may complete.

ghost use Rattle.std.specs.Prelude.{◌≡◌, ◌<◌, ◌||◌, ◌&&◌};
ghost use Rattle.hh_term.specs.Codes.{static_codes, only, either, without_end, in_turn, greater_of, lowered};
ghost use Rattle.hh_term.specs.Views.{statement_of};
ghost use Rattle.hh_term.specs.Flags.{Agrees, codes_in};

use crate::term::{Term, TermNode};

/// A flag for each code: an exit's number is a byte, so no code is greater than 257.
pub type Flags = [bool; 258];

/// Whether the statement may end in the reaction in which it starts, so that no loop may have it for its
/// body.
pub fn may_end_now(term: &Term) -> bool
    ensures { result ≡ static_codes (statement_of term.now) 0 }
{
    let mut codes = [false; 258];
    codes_of(term, &mut codes);
    codes[0]
}

// The flags are the caller's, so that a frame holds at most one array.
fn codes_of(term: &Term, codes: &mut Flags)
    ensures { Agrees codes.new (static_codes (statement_of term.now)) }
{
    match &term.node {
        TermNode::Nothing => put_only(codes, 0),
        TermNode::Pause => put_only(codes, 1),
        TermNode::Emit(_, _) => put_only(codes, 0),
        TermNode::If(_, p, q) => {
            let mut others = [false; 258];
            codes_of(p, codes);
            codes_of(q, &mut others);
            join(codes, &others);
        }
        TermNode::Suspend(_, p) => codes_of(p, codes),
        TermNode::Seq(p, q) => {
            let mut others = [false; 258];
            codes_of(p, codes);
            codes_of(q, &mut others);
            follow(codes, &others);
        }
        TermNode::Par(p, q) => {
            let mut others = [false; 258];
            codes_of(p, codes);
            codes_of(q, &mut others);
            take_greater(codes, &others);
        }
        TermNode::Loop(p) => {
            codes_of(p, codes);
            codes[0] = false;
        }
        TermNode::Trap(p) => {
            codes_of(p, codes);
            lower(codes);
        }
        TermNode::Exit(k) => put_only(codes, *k as usize + 2),
        TermNode::Local(_, p) => codes_of(p, codes),
        TermNode::Async(_) => put_only(codes, 1),
    }
}

/// The set of this code alone.
pub fn put_only(codes: &mut Flags, code: usize)
    requires { code < 258 }
    ensures { Agrees codes.new (only code) }
{
    codes.fill(false);
    codes[code] = true;
}

/// The codes of both.
pub fn join(codes: &mut Flags, others: &Flags)
    ensures { Agrees codes.new (either (codes_in codes.old) (codes_in others.now)) }
{
    for c in 0..258 {
        codes[c] = either(codes[c], others[c]);
    }
}

/// The codes of two parts in turn, of which the first has those of `codes`.
pub fn follow(codes: &mut Flags, others: &Flags)
    ensures { Agrees codes.new (in_turn (codes_in codes.old) (codes_in others.now)) }
{
    if codes[0] {
        codes[0] = false;
        join(codes, others);
    }
}

/// The greater code of each pair.
pub fn take_greater(codes: &mut Flags, others: &Flags)
    ensures { Agrees codes.new (greater_of (codes_in codes.old) (codes_in others.now)) }
{
    let mut code_so_far = false;
    let mut other_so_far = false;
    for c in 0..258 {
        code_so_far = either(code_so_far, codes[c]);
        other_so_far = either(other_so_far, others[c]);
        codes[c] = greater(codes[c], other_so_far, code_so_far, others[c]);
    }
}

/// What a trap makes of the codes.
pub fn lower(codes: &mut Flags)
    ensures { Agrees codes.new (lowered (codes_in codes.old)) }
{
    for c in 0..258 {
        codes[c] = lowered_flag(codes, c);
    }
}

fn lowered_flag(codes: &Flags, c: usize) -> bool
    requires { c < 258 }
    ensures { result ≡ lowered (codes_in codes.now) c }
{
    if c == 0 {
        codes[0] || codes[2]
    } else if c == 1 {
        codes[1]
    } else {
        c < 257 && codes[c + 1]
    }
}

fn either(a: bool, b: bool) -> bool
    ensures { result ≡ (a || b) }
{
    a || b
}

fn greater(code: bool, other_so_far: bool, code_so_far: bool, other: bool) -> bool
    ensures { result ≡ ((code && other_so_far) || (code_so_far && other)) }
{
    (code && other_so_far) || (code_so_far && other)
}
