//! Statements and blocks with their names resolved.

ghost use Rattle.std.specs.Prelude.{IfOk, map, option_map};
ghost use Rattle.module_tree.specs.declared.source.Statement.TheVariants as v;
ghost use Rattle.module_link.specs.Resolved.{resolved_block, each, if_there, within, resolved};
ghost use Rattle.module_link.specs.Resolved.{resolved_delay, resolved_later};
ghost use Rattle.module_link.specs.Resolved.{in_signals, in_trap};
ghost use Rattle.module_link.specs.Places.{ArePlaces};
ghost use Rattle.module_link.specs.Texts.{IsText};
ghost use Rattle.link_resolve.specs.Walking.{Resolves, resolved_statement, resolved_node, behind_signals};
ghost use Rattle.link_resolve.specs.Walking.{inside_trap};

use crate::scopes::{enter_signals, enter_trap};
use crate::statements::{awaits, breaks, emit, run, starts, sustain, tested};
use hh_base::memory::NoMemory;
use hh_base::name::Name;
use module_link::copies::copy_signals;
use module_link::places::Places;
use module_link::text::Text;
use module_tree::source::{BlockNode, Delay, ExprAt, Later, SignalNode, Statement, StatementNode};
use sqlite_items::Items;
use std::alloc::Global;

/// A block behind a `signal` list.
#[cycle(walk)]
fn behind_signals(
    alloc: Global,
    text: &Text<'_>,
    places: &mut Places,
    signals: &[SignalNode],
    block: &BlockNode<Name>,
) -> Result<BlockNode<u32>, NoMemory>
    requires places { ArePlaces places.old }
    requires text { IsText text.now }
    ensures { IfOk result (λ b. Resolves (behind_signals signals.now (resolved_block text.now.parts.now
        block.now)) places.old places.new b) }
{
    enter_signals(alloc, places, signals)?;
    let block = resolve_block(alloc, text, places, block)?;
    places.signals.leave_all(signals.len())?;
    Ok(block)
}

#[cycle(walk)]
fn inside_trap(
    alloc: Global,
    text: &Text<'_>,
    places: &mut Places,
    name: &Name,
    block: &BlockNode<Name>,
) -> Result<BlockNode<u32>, NoMemory>
    requires places { ArePlaces places.old }
    requires text { IsText text.now }
    ensures { IfOk result (λ b. Resolves (inside_trap name.now (resolved_block text.now.parts.now
        block.now)) places.old places.new b) }
{
    enter_trap(alloc, places, name)?;
    let block = resolve_block(alloc, text, places, block)?;
    places.traps.leave()?;
    Ok(block)
}

#[cycle(walk)]
fn branches(
    alloc: Global,
    text: &Text<'_>,
    places: &mut Places,
    blocks: &[BlockNode<Name>],
) -> Result<Items<BlockNode<u32>>, NoMemory>
    requires places { ArePlaces places.old }
    requires text { IsText text.now }
    ensures { IfOk result (λ bs. Resolves (each (map (resolved_block text.now.parts.now) blocks.now))
        places.old places.new bs) }
{
    let mut branches = Vec::with_capacity(alloc, blocks.len())?;
    'branches: for block in blocks {
        branches.push(resolve_block(alloc, text, places, block)?)?;
    }
    Ok(Items::from_vec(branches))
}

#[cycle(walk)]
fn otherwise(
    alloc: Global,
    text: &Text<'_>,
    places: &mut Places,
    block: &Option<BlockNode<Name>>,
) -> Result<Option<BlockNode<u32>>, NoMemory>
    requires places { ArePlaces places.old }
    requires text { IsText text.now }
    ensures { IfOk result (λ b. Resolves (if_there (option_map (resolved_block text.now.parts.now)
        block.now)) places.old places.new b) }
{
    match block {
        None => Ok(None),
        Some(block) => {
            let block = resolve_block(alloc, text, places, block)?;
            Ok(Some(block))
        }
    }
}

#[cycle(walk)]
fn looped(
    alloc: Global,
    text: &Text<'_>,
    places: &mut Places,
    block: &BlockNode<Name>,
) -> Result<Statement<u32>, NoMemory>
    requires places { ArePlaces places.old }
    requires text { IsText text.now }
    ensures { IfOk result (λ s. Resolves (within (λ c. v.Loop)
        (resolved_block text.now.parts.now block.now)) places.old places.new s) }
{
    let block = resolve_block(alloc, text, places, block)?;
    Ok(Statement::Loop(block))
}

#[cycle(walk)]
fn forked(
    alloc: Global,
    text: &Text<'_>,
    places: &mut Places,
    blocks: &[BlockNode<Name>],
) -> Result<Statement<u32>, NoMemory>
    requires places { ArePlaces places.old }
    requires text { IsText text.now }
    ensures { IfOk result (λ s. Resolves (within (λ c. v.Fork)
        (each (map (resolved_block text.now.parts.now) blocks.now))) places.old places.new s) }
{
    let blocks = branches(alloc, text, places, blocks)?;
    Ok(Statement::Fork(blocks))
}

#[cycle(walk)]
fn nested(
    alloc: Global,
    text: &Text<'_>,
    places: &mut Places,
    block: &BlockNode<Name>,
) -> Result<Statement<u32>, NoMemory>
    requires places { ArePlaces places.old }
    requires text { IsText text.now }
    ensures { IfOk result (λ s. Resolves (within (λ c. v.Block)
        (resolved_block text.now.parts.now block.now)) places.old places.new s) }
{
    let block = resolve_block(alloc, text, places, block)?;
    Ok(Statement::Block(block))
}

#[cycle(walk)]
fn every(
    alloc: Global,
    text: &Text<'_>,
    places: &mut Places,
    delay: &Delay<Name>,
    block: &BlockNode<Name>,
) -> Result<Statement<u32>, NoMemory>
    requires places { ArePlaces places.old }
    requires text { IsText text.now }
    ensures { IfOk result (λ s. Resolves (within (λ c. v.Every (resolved_delay c delay.now))
        (resolved_block text.now.parts.now block.now)) places.old places.new s) }
{
    let delay = places.delay(alloc, delay)?;
    let block = resolve_block(alloc, text, places, block)?;
    Ok(Statement::Every(delay, block))
}

#[cycle(walk)]
fn aborted(
    alloc: Global,
    text: &Text<'_>,
    places: &mut Places,
    delay: &Delay<Name>,
    block: &BlockNode<Name>,
) -> Result<Statement<u32>, NoMemory>
    requires places { ArePlaces places.old }
    requires text { IsText text.now }
    ensures { IfOk result (λ s. Resolves (within (λ c. v.Abort (resolved_delay c delay.now))
        (resolved_block text.now.parts.now block.now)) places.old places.new s) }
{
    let delay = places.delay(alloc, delay)?;
    let block = resolve_block(alloc, text, places, block)?;
    Ok(Statement::Abort(delay, block))
}

#[cycle(walk)]
fn weakly_aborted(
    alloc: Global,
    text: &Text<'_>,
    places: &mut Places,
    delay: &Delay<Name>,
    block: &BlockNode<Name>,
) -> Result<Statement<u32>, NoMemory>
    requires places { ArePlaces places.old }
    requires text { IsText text.now }
    ensures { IfOk result (λ s. Resolves (within (λ c. v.WeakAbort (resolved_delay c delay.now))
        (resolved_block text.now.parts.now block.now)) places.old places.new s) }
{
    let delay = places.delay(alloc, delay)?;
    let block = resolve_block(alloc, text, places, block)?;
    Ok(Statement::WeakAbort(delay, block))
}

#[cycle(walk)]
fn done_every(
    alloc: Global,
    text: &Text<'_>,
    places: &mut Places,
    block: &BlockNode<Name>,
    later: &Later<Name>,
) -> Result<Statement<u32>, NoMemory>
    requires places { ArePlaces places.old }
    requires text { IsText text.now }
    ensures { IfOk result (λ s. Resolves (within (λ c b. v.DoEvery b (resolved_later c later.now))
        (resolved_block text.now.parts.now block.now)) places.old places.new s) }
{
    let later = places.later(alloc, later)?;
    let block = resolve_block(alloc, text, places, block)?;
    Ok(Statement::DoEvery(block, later))
}

#[cycle(walk)]
fn suspended(
    alloc: Global,
    text: &Text<'_>,
    places: &mut Places,
    immediate: bool,
    test: &ExprAt<Name>,
    block: &BlockNode<Name>,
) -> Result<Statement<u32>, NoMemory>
    requires places { ArePlaces places.old }
    requires text { IsText text.now }
    ensures { IfOk result (λ s. Resolves (within (λ c. v.Suspend immediate (resolved c test.now))
        (resolved_block text.now.parts.now block.now)) places.old places.new s) }
{
    let test = places.expression(alloc, test)?;
    let block = resolve_block(alloc, text, places, block)?;
    Ok(Statement::Suspend(immediate, test, block))
}

#[cycle(walk)]
fn declared(
    alloc: Global,
    text: &Text<'_>,
    places: &mut Places,
    signals: &[SignalNode],
    block: &BlockNode<Name>,
) -> Result<Statement<u32>, NoMemory>
    requires places { ArePlaces places.old }
    requires text { IsText text.now }
    ensures { IfOk result (λ s. Resolves (in_signals signals.now
        (resolved_block text.now.parts.now block.now)) places.old places.new s) }
{
    let block = behind_signals(alloc, text, places, signals, block)?;
    let signals = copy_signals(alloc, signals)?;
    Ok(Statement::Signal(signals, block))
}

#[cycle(walk)]
fn trapped(
    alloc: Global,
    text: &Text<'_>,
    places: &mut Places,
    name: &Name,
    block: &BlockNode<Name>,
) -> Result<Statement<u32>, NoMemory>
    requires places { ArePlaces places.old }
    requires text { IsText text.now }
    ensures { IfOk result (λ s. Resolves (in_trap name.now
        (resolved_block text.now.parts.now block.now)) places.old places.new s) }
{
    let block = inside_trap(alloc, text, places, name, block)?;
    let name = name.copy(alloc)?;
    Ok(Statement::Trap(name, block))
}

#[cycle(walk)]
fn resolve_statement(
    alloc: Global,
    text: &Text<'_>,
    places: &mut Places,
    statement: &Statement<Name>,
) -> Result<Statement<u32>, NoMemory>
    requires places { ArePlaces places.old }
    requires text { IsText text.now }
    ensures { IfOk result (λ s. Resolves (resolved_statement text.now.parts.now statement.now)
        places.old places.new s) }
{
    match statement {
        Statement::Nothing => Ok(Statement::Nothing),
        Statement::Pause => Ok(Statement::Pause),
        Statement::Halt => Ok(Statement::Halt),
        Statement::Emit(name, value) => emit(alloc, places, name, value),
        Statement::Sustain(name, value) => sustain(alloc, places, name, value),
        Statement::If(test, yes, other) => {
            let test = tested(alloc, places, test)?;
            let yes = resolve_block(alloc, text, places, yes)?;
            let other = otherwise(alloc, text, places, other)?;
            Ok(Statement::If(test, yes, other))
        }
        Statement::Loop(block) => looped(alloc, text, places, block),
        Statement::Fork(blocks) => forked(alloc, text, places, blocks.as_slice()),
        Statement::Block(block) => nested(alloc, text, places, block),
        Statement::Await(delay) => awaits(alloc, places, delay),
        Statement::Every(delay, block) => every(alloc, text, places, delay, block),
        Statement::DoEvery(block, later) => done_every(alloc, text, places, block, later),
        Statement::Abort(delay, block) => aborted(alloc, text, places, delay, block),
        Statement::WeakAbort(delay, block) => weakly_aborted(alloc, text, places, delay, block),
        Statement::Suspend(immediate, test, block) => {
            suspended(alloc, text, places, *immediate, test, block)
        }
        Statement::Signal(signals, block) => {
            declared(alloc, text, places, signals.as_slice(), block)
        }
        Statement::Trap(name, block) => trapped(alloc, text, places, name, block),
        Statement::Break(name) => Ok(breaks(places, name)),
        Statement::Run(callee, written) => run(alloc, text, places, callee, written.as_slice()),
        Statement::Async(node) => starts(alloc, text, places, node),
    }
}

#[cycle(walk)]
fn resolve_node(
    alloc: Global,
    text: &Text<'_>,
    places: &mut Places,
    node: &StatementNode<Name>,
) -> Result<StatementNode<u32>, NoMemory>
    requires places { ArePlaces places.old }
    requires text { IsText text.now }
    ensures { IfOk result (λ n. Resolves (resolved_node text.now.parts.now node.now) places.old places.new n) }
{
    let what = resolve_statement(alloc, text, places, &node.what)?;
    Ok(StatementNode {
        pos: node.pos,
        what,
    })
}

/// The block, and what is in scope behind it.
#[cycle(walk)]
pub fn resolve_block(
    alloc: Global,
    text: &Text<'_>,
    places: &mut Places,
    block: &BlockNode<Name>,
) -> Result<BlockNode<u32>, NoMemory>
    requires places { ArePlaces places.old }
    requires text { IsText text.now }
    ensures { IfOk result
        (λ b. Resolves (resolved_block text.now.parts.now block.now) places.old places.new b) }
{
    let mut statements = Vec::with_capacity(alloc, block.statements.len())?;
    'statements: for node in block.statements.as_slice() {
        statements.push(resolve_node(alloc, text, places, node)?)?;
    }
    Ok(BlockNode {
        pos: block.pos,
        statements: Items::from_vec(statements),
    })
}
