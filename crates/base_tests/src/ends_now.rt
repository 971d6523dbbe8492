//! Calls on their happy path, with answers worked out by hand.

use hh_base::value::Pos;
use hh_term::codes::may_end_now;
use hh_term::term::{Term, TermNode};
use std::alloc::{AllocError, Global};
use std::test::Fail;

fn boxed(alloc: Global, node: TermNode) -> Result<Box<Term>, AllocError> {
    let pos = Pos(0);
    Ok(Box::new(alloc, Term { pos, node })?)
}

// A parallel of an exit and a pause leaves, its trap may end, and nothing after a pause starts at once.
#[test]
fn ends_now(rt: HostRuntime) -> Result<(), Fail> {
    let alloc = rt.alloc();
    let exit = boxed(alloc, TermNode::Exit(0))?;
    let pause = boxed(alloc, TermNode::Pause)?;
    let both = boxed(alloc, TermNode::Par(exit, pause))?;
    assert!(rt; !may_end_now(&both));
    let trapped = boxed(alloc, TermNode::Trap(both))?;
    assert!(rt; may_end_now(&trapped));
    let pause = boxed(alloc, TermNode::Pause)?;
    let later = boxed(alloc, TermNode::Seq(pause, trapped))?;
    assert!(rt; !may_end_now(&later));
    Ok(())
}
