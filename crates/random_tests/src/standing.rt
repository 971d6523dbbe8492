//! Where a program stands between two reactions.

ghost use Rattle.std.specs.Prelude.{◌≡◌, ◌≢◌, IsTrue, IfOk};
ghost use Rattle.std.specs.List.{AllByRecursion};
ghost use Rattle.hh_term.specs.Marks.{IdsDiffer, IsControlOf, IsMarkOf, ids_in, ids_of};
ghost use Rattle.hh_term.specs.Pairs.{EachPair};
ghost use Rattle.hh_term.specs.ProgramView.{kernel_of};
ghost use Rattle.hh_term.specs.Views.{control_of, selection_of, statement_of};
ghost use Rattle.status_rounds.specs.Given.{NoneTwice};

use hh_base::value::{NoMemory, Value};
use hh_term::mark::{Control, Mark, Marked};
use hh_term::program::Program;
use hh_term::term::{Term, TermNode};
use std::alloc::Global;
use std::test::Fail;

fn rests_in(term: &Term, mark: &Mark) -> bool
    ensures { IsTrue result → IsMarkOf (statement_of term.now) (selection_of mark.now) }
{
    match (&term.node, mark) {
        (TermNode::Pause, Mark::Pause) => true,
        (TermNode::Async(_), Mark::Async(_)) => true,
        (TermNode::If(_, p, _), Mark::First(m)) => rests_in(p, m),
        (TermNode::If(_, _, q), Mark::Second(m)) => rests_in(q, m),
        (TermNode::Suspend(_, p), Mark::Inside(m)) => rests_in(p, m),
        (TermNode::Seq(p, _), Mark::First(m)) => rests_in(p, m),
        (TermNode::Seq(_, q), Mark::Second(m)) => rests_in(q, m),
        (TermNode::Par(p, _), Mark::First(m)) => rests_in(p, m),
        (TermNode::Par(_, q), Mark::Second(m)) => rests_in(q, m),
        (TermNode::Par(p, q), Mark::Both(m, n)) => rests_in(p, m) && rests_in(q, n),
        (TermNode::Loop(p), Mark::Inside(m)) => rests_in(p, m),
        (TermNode::Trap(p), Mark::Inside(m)) => rests_in(p, m),
        (TermNode::Local(_, p), Mark::Local(m, _, _)) => rests_in(p, m),
        _ => false,
    }
}

fn is_of(program: &Program, control: &Control) -> bool
    ensures { IsTrue result → IsControlOf (kernel_of program.now).statement (control_of control.now) }
{
    match control {
        Control::At(mark) => rests_in(program.term(), mark),
        Control::Fresh | Control::Ended => true,
    }
}

fn ids_in(alloc: Global, mark: &Mark) -> Result<Vec<u64>, NoMemory>
    ensures { IfOk result (λ v. v.items ≡ ids_in (selection_of mark.now)) }
{
    match mark {
        Mark::Pause => Ok(Vec::new(alloc)),
        Mark::Async(a) => {
            let mut ids = Vec::new(alloc);
            ids.push(a.id)?;
            Ok(ids)
        }
        Mark::First(m) => ids_in(alloc, m),
        Mark::Second(m) => ids_in(alloc, m),
        Mark::Both(m, n) => {
            let mut ids = ids_in(alloc, m)?;
            ids.append(&mut ids_in(alloc, n)?)?;
            Ok(ids)
        }
        Mark::Inside(m) => ids_in(alloc, m),
        Mark::Local(m, _, _) => ids_in(alloc, m),
    }
}

fn ids_of(alloc: Global, control: &Control) -> Result<Vec<u64>, NoMemory>
    ensures { IfOk result (λ v. v.items ≡ ids_of (control_of control.now)) }
{
    match control {
        Control::At(mark) => ids_in(alloc, mark),
        Control::Fresh | Control::Ended => Ok(Vec::new(alloc)),
    }
}

fn is_apart(id: u64, others: &[u64]) -> bool
    ensures { IsTrue result → AllByRecursion (λ j. id ≢ j) others.now }
{
    match others {
        [] => true,
        [first, rest @ ..] => id != *first && is_apart(id, rest),
    }
}

fn all_differ(ids: &[u64]) -> bool
    ensures { IsTrue result → EachPair (λ i j. i ≢ j) ids.now }
{
    match ids {
        [] => true,
        [first, rest @ ..] => is_apart(*first, rest) && all_differ(rest),
    }
}

fn ids_differ(alloc: Global, control: &Control) -> Result<bool, NoMemory>
    ensures { IfOk result (λ b. IsTrue b → IdsDiffer (control_of control.now)) }
{
    let ids = ids_of(alloc, control)?;
    Ok(all_differ(&ids))
}

/// The program with its control here.
pub fn stand(alloc: Global, program: &Program, control: &Control) -> Result<Marked, Fail> {
    if !is_of(program, control) {
        return Err(Fail::new("control is not one of the program"));
    }
    let differ = ids_differ(alloc, control)?;
    if !differ {
        return Err(Fail::new("two instances have one id"));
    }
    Ok(Marked::new(program, control.copy(alloc)?))
}

fn is_not_given(signal: u32, others: &[(u32, Value)]) -> bool
    ensures { IsTrue result → AllByRecursion (λ j. signal ≢ j.0) others.now }
{
    match others {
        [] => true,
        [first, rest @ ..] => signal != first.0 && is_not_given(signal, rest),
    }
}

/// Whether no signal is given twice.
pub fn none_twice(inputs: &[(u32, Value)]) -> bool
    ensures { IsTrue result → NoneTwice inputs.now }
{
    match inputs {
        [] => true,
        [first, rest @ ..] => is_not_given(first.0, rest) && none_twice(rest),
    }
}
