//! Writing an expansion out: a walk over the linked tree.

ghost use Rattle.std.specs.Prelude.{◌≡◌, IfOk};
ghost use Rattle.hh_term.specs.Placed.{placed_term};
ghost use Rattle.kernel_expand.specs.Interpretation.{of_node, of_block};
ghost use Rattle.kernel_expand.specs.Numbering.{Around as AAround, Numbered as ANumbered, no_traps};
ghost use Rattle.statement_build.specs.Building.{numbered_of, around_of};
ghost use Rattle.statement_build.specs.Levels.{kernel_in, runs_in, body_piece, tail};
ghost use Rattle.statement_build.specs.Shapes.{wrapped};
ghost use Rattle.statement_build.specs.Steps.{made};
ghost use Rattle.kernel_build.specs.Writing.{Writes, run_piece, forked_piece, both_pieces, choice_piece};

use crate::laws::{branches_are_less, statement_of};
use hh_base::memory::NoMemory;
use hh_base::value::Pos;
use hh_term::term::Term;
use host_expr::expr::Expr;
use kernel_expand::forms::Join;
use kernel_expand::terms::At;
use module_tree::source::{Binding, BlockNode, StatementNode};
use statement_build::around::Around;
use statement_build::builder::Builder;
use statement_build::chain::{Body, Level};
use statement_build::innermost::innermost;
use statement_build::shapes::Wrap;
use statement_build::steps::Step;
use std::alloc::Global;

#[cycle(walk)]
fn block(
    builder: &mut Builder,
    alloc: Global,
    level: Level<'_>,
    block: &BlockNode<u32>,
    around: &Around,
) -> Result<Term, NoMemory>
    ensures { Writes result builder.old builder.new (of_block (kernel_in level.entry) block.now) around.now }
{
    let inner = innermost(block);
    let mut terms = Vec::with_capacity(alloc, inner.statements.len())?;
    'nodes: for statement in inner.statements.as_slice() {
        terms.push(node(builder, alloc, level, statement, around)?)?;
    }
    let at = At {
        alloc,
        pos: inner.pos,
    };
    Ok(Join::Sequence.all(at, terms)?)
}

/// The blocks of a fork, each beside the others.
#[cycle(walk)]
fn branches(
    builder: &mut Builder,
    at: At,
    level: Level<'_>,
    blocks: &[BlockNode<u32>],
    around: &Around,
) -> Result<Term, NoMemory>
    ensures { Writes result builder.old builder.new (forked_piece level.entry at.pos blocks.now) around.now }
{
    branches_are_less();
    let mut terms = Vec::with_capacity(at.alloc, blocks.len())?;
    'parts: for part in blocks {
        terms.push(block(builder, at.alloc, level, part, around)?)?;
    }
    Ok(Join::Parallel.all(at, terms)?)
}

#[cycle(walk)]
fn node(
    builder: &mut Builder,
    alloc: Global,
    level: Level<'_>,
    node: &StatementNode<u32>,
    around: &Around,
) -> Result<Term, NoMemory>
    ensures { Writes result builder.old builder.new (of_node (kernel_in level.entry) node.now) around.now }
{
    let at = At {
        alloc,
        pos: node.pos,
    };
    let step = builder.begin(at, statement_of(node), around)?;
    Ok(finish(builder, at, level, step, around)?)
}

/// The blocks of a statement that was begun, and what stands round them.
#[cycle(walk)]
fn finish(
    builder: &mut Builder,
    at: At,
    level: Level<'_>,
    step: Step<'_>,
    around: &Around,
) -> Result<Term, NoMemory>
    ensures { Writes result builder.old builder.new (made (runs_in level.entry) at.pos step.entry) around.now }
{
    match step {
        Step::Done(term) => Ok(term),
        Step::Inside(wrap, body) => Ok(inside(builder, at, level, wrap, body)?),
        Step::Choice(test, then, other) => {
            Ok(choice(builder, at, level, test, then, other, around)?)
        }
        Step::Branches(blocks) => Ok(branches(builder, at, level, blocks, around)?),
        Step::Run(place, bindings) => Ok(run(builder, at.alloc, level, place, bindings)?),
    }
}

/// A body, and what stands round it.
#[cycle(walk)]
fn inside(
    builder: &mut Builder,
    at: At,
    level: Level<'_>,
    wrap: Wrap<'_>,
    body: &BlockNode<u32>,
) -> Result<Term, NoMemory>
    ensures { IfOk result (λ t. (placed_term t, numbered_of builder.new)
        ≡ wrapped at.pos wrap.entry (of_block (kernel_in level.entry) body.now) (numbered_of builder.old)) }
{
    match block(builder, at.alloc, level, body, &wrap.inner.around) {
        Ok(body) => Ok(builder.close(at, wrap, body)?),
        Err(fault) => {
            drop(wrap);
            Err(fault)
        }
    }
}

/// Two blocks, the first one first.
#[cycle(walk)]
fn both(
    builder: &mut Builder,
    alloc: Global,
    level: Level<'_>,
    then: &BlockNode<u32>,
    other: &BlockNode<u32>,
    around: &Around,
) -> Result<(Term, Term), NoMemory>
    ensures { IfOk result (λ r. ((placed_term r.0, placed_term r.1), numbered_of builder.new)
        ≡ both_pieces level.entry then.now other.now (around_of around.now) (numbered_of builder.old)) }
{
    let first = block(builder, alloc, level, then, around)?;
    match block(builder, alloc, level, other, around) {
        Ok(second) => Ok((first, second)),
        Err(fault) => {
            drop(first);
            Err(fault)
        }
    }
}

/// A test with both its parts.
#[cycle(walk)]
fn choice(
    builder: &mut Builder,
    at: At,
    level: Level<'_>,
    test: Expr<u32>,
    then: &BlockNode<u32>,
    other: &BlockNode<u32>,
    around: &Around,
) -> Result<Term, NoMemory>
    ensures { Writes result builder.old builder.new (choice_piece level.entry at.pos test then.now other.now)
        around.now }
{
    match both(builder, at.alloc, level, then, other, around) {
        Ok((then, other)) => Ok(at.choice(test, then, other)?),
        Err(fault) => {
            drop(test);
            Err(fault)
        }
    }
}

/// The body of a module, with these signals for its interface.
#[cycle(walk)]
fn run(
    builder: &mut Builder,
    alloc: Global,
    level: Level<'_>,
    place: u32,
    bindings: &[Binding<u32>],
) -> Result<Term, NoMemory>
    ensures { (a : AAround) → IfOk result (λ t. (placed_term t, numbered_of builder.new)
        ≡ run_piece level.entry place bindings.now a (numbered_of builder.old)) }
{
    let outer = builder.enter(alloc, bindings)?;
    let found = builder.follow(alloc, level, place)?;
    let term = body(builder, alloc, found)?;
    builder.leave(outer);
    Ok(term)
}

/// The body of a module, which no trap of its own stands round yet.
#[cycle(walk)]
fn body(builder: &mut Builder, alloc: Global, body: Option<Body<'_>>) -> Result<Term, NoMemory>
    ensures { IfOk result (λ t. (placed_term t, numbered_of builder.new)
        ≡ body_piece body.entry no_traps (numbered_of builder.old)) }
{
    match body {
        None => Ok(At { alloc, pos: Pos(0) }.nothing()),
        Some(found) => {
            let around = Around::none(alloc);
            Ok(block(builder, alloc, found.level, found.block, &around)?)
        }
    }
}

/// The body of the module of this place, written out behind what was numbered. What it leaves as the places of
/// the module round it is left open, as behind a run.
pub fn write(
    builder: &mut Builder,
    alloc: Global,
    level: Level<'_>,
    place: u32,
) -> Result<Term, NoMemory>
    ensures { (n : ANumbered) → IfOk result (λ t. tail n (runs_in level.entry place no_traps
        (numbered_of builder.old)) ≡ tail n (placed_term t, numbered_of builder.new)) }
{
    let found = builder.follow(alloc, level, place)?;
    Ok(body(builder, alloc, found)?)
}
