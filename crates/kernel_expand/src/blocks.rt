//! Measuring the statements of a module, given the sizes of the modules that it runs.

ghost use Rattle.std.specs.Prelude.{◌≡◌, IfOk, map};
ghost use Rattle.hh_base.specs.declared.value.Pos.{Pos as APos};
ghost use Rattle.kernel_expand.specs.Interpretation.{locals, of_statement, of_node, of_block};
ghost use Rattle.kernel_expand.specs.Measures.{sizes, measure, known};
ghost use Rattle.kernel_expand.specs.Rows as row;

use crate::sizes::Sizes;
use crate::{rows, weights};
use hh_base::memory::NoMemory;
use module_tree::source::{BlockNode, SignalNode, Statement, StatementNode};
use std::alloc::Global;

/// Statements in a sequence, or branches of a parallel, by their halves.
fn in_halves(parts: &[Sizes]) -> Sizes
    ensures { result ≡ row.listed sizes parts.now }
{
    match parts.len() {
        0 => Sizes::leaf(0),
        1 => parts[0],
        len => {
            let (first, second) = parts.split_at(len - len / 2);
            in_halves(first).both(in_halves(second), 0)
        }
    }
}

/// A block with its local signals round it.
fn declared(sigs: &[SignalNode], block: Sizes) -> Sizes
    ensures { result ≡ locals sizes sigs.now block }
{
    let mut whole = block;
    let mut left = sigs;
    'inward: while let Some((sig, before)) = left.split_last() {
        whole = whole.around(weights::of_first(&sig.first));
        left = before;
    }
    whole
}

pub fn module_at(modules: &[Sizes], place: u32) -> Sizes
    ensures { result ≡ known modules.now place }
{
    match modules.get(place as usize) {
        Some(sizes) => *sizes,
        None => Sizes::leaf(0),
    }
}

#[cycle(block)]
fn of_branches(
    alloc: Global,
    blocks: &[BlockNode<u32>],
    modules: &[Sizes],
) -> Result<Sizes, NoMemory>
    ensures { IfOk result (λ s. s ≡ row.forked sizes
        (map (of_block (measure (known modules.now))) blocks.now)) }
{
    let mut branches = Vec::with_capacity(alloc, blocks.len())?;
    for block in blocks {
        branches.push(of_block(alloc, block, modules)?)?;
    }
    Ok(in_halves(&branches))
}

#[cycle(block)]
fn of_statement(
    alloc: Global,
    statement: &Statement<u32>,
    modules: &[Sizes],
) -> Result<Sizes, NoMemory>
    ensures { (pos : APos) → IfOk result (λ s. s ≡ of_statement (measure (known modules.now)) statement.now
        pos) }
{
    Ok(match statement {
        Statement::Nothing | Statement::Pause | Statement::Break(_) => Sizes::leaf(0),
        Statement::Halt => rows::halt(),
        Statement::Emit(_, value) => Sizes::leaf(weights::of_value(value)),
        Statement::Sustain(_, value) => rows::sustain(value),
        Statement::If(test, then, None) => {
            let then = of_block(alloc, then, modules)?;
            then.both(Sizes::leaf(0), weights::of_test(test.get()))
        }
        Statement::If(test, then, Some(other)) => {
            let then = of_block(alloc, then, modules)?;
            let other = of_block(alloc, other, modules)?;
            then.both(other, weights::of_test(test.get()))
        }
        Statement::Loop(block) => of_block(alloc, block, modules)?.looped(),
        Statement::Fork(blocks) => of_branches(alloc, blocks.as_slice(), modules)?,
        Statement::Block(block) => of_block(alloc, block, modules)?,
        Statement::Await(delay) => rows::await_delay(delay),
        Statement::Every(delay, block) => rows::every(delay, of_block(alloc, block, modules)?),
        Statement::DoEvery(block, later) => rows::do_every(later, of_block(alloc, block, modules)?),
        Statement::Abort(delay, block) => rows::abort(delay, of_block(alloc, block, modules)?),
        Statement::WeakAbort(delay, block) => rows::weak_abort(
            delay,
            of_block(alloc, block, modules)?,
        ),
        Statement::Suspend(immediate, test, block) => {
            rows::suspend(*immediate, test, of_block(alloc, block, modules)?)
        }
        Statement::Signal(sigs, block) => declared(
            sigs.as_slice(),
            of_block(alloc, block, modules)?,
        ),
        Statement::Trap(_, block) => of_block(alloc, block, modules)?.trapped(),
        Statement::Run(module, _) => module_at(modules, module.name),
        Statement::Async(node) => Sizes::site(weights::of_site(node.get())),
    })
}

#[cycle(block)]
fn of_node(alloc: Global, node: &StatementNode<u32>, modules: &[Sizes]) -> Result<Sizes, NoMemory>
    ensures { IfOk result (λ s. s ≡ of_node (measure (known modules.now)) node.now) }
{
    of_statement(alloc, &node.what, modules)
}

/// The sizes of a block, where those of the modules that it runs are known.
#[cycle(block)]
pub fn of_block(alloc: Global, block: &BlockNode<u32>, modules: &[Sizes]) -> Result<Sizes, NoMemory>
    ensures { IfOk result (λ s. s ≡ of_block (measure (known modules.now)) block.now) }
{
    let mut statements = Vec::with_capacity(alloc, block.statements.len())?;
    for node in block.statements.as_slice() {
        statements.push(of_node(alloc, node, modules)?)?;
    }
    Ok(in_halves(&statements))
}
