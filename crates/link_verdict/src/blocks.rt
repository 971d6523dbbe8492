//! Going over the statements of a module.

ghost use Rattle.std.specs.Prelude.{OnOk, map, option_map};
ghost use Rattle.module_tree.specs.Parts.{Test, Emission, Exit, Start, Locals, here, then, in_order, if_there};
ghost use Rattle.module_tree.specs.Parts.{plain_walk, delay_walk, locals_walk, trap_walk, block_walk};
ghost use Rattle.link_faults.specs.TextTables.{IsText};
ghost use Rattle.link_faults.specs.Walks.{Follows, IsReady, statement_walk, node_walk};

use hh_base::memory::NoMemory;
use hh_base::name::Name;
use link_faults::text::Text;
use link_faults::walk::Walker;
use module_tree::source::{
    AsyncNode, BlockNode, Delay, ExprAt, Later, NameAt, SignalNode, Statement, StatementNode,
};
use std::alloc::Global;

fn over_later(walker: &mut Walker, text: &Text<'_>, later: &Later<Name>)
    ensures { Follows text.now.parts.now (plain_walk later.now) walker.old walker.new }
{
    match later {
        Later::Once(x) => walker.test(text, x),
        Later::Count(_, x) => walker.test(text, x),
    }
}

fn over_delay(walker: &mut Walker, text: &Text<'_>, delay: &Delay<Name>)
    ensures { Follows text.now.parts.now (delay_walk delay.now) walker.old walker.new }
{
    match delay {
        Delay::Later(later) => over_later(walker, text, later),
        Delay::Immediate(x) => walker.test(text, x),
    }
}

fn over_await(walker: &mut Walker, text: &Text<'_>, delay: &Delay<Name>) -> Result<(), NoMemory>
    ensures { OnOk result (Follows text.now.parts.now (delay_walk delay.now) walker.old walker.new) }
{
    over_delay(walker, text, delay);
    Ok(())
}

fn over_emission(
    walker: &mut Walker,
    text: &Text<'_>,
    signal: &NameAt<Name>,
    value: &Option<ExprAt<Name>>,
) -> Result<(), NoMemory>
    ensures { OnOk result (Follows text.now.parts.now (here (Emission signal.now value.now)) walker.old
        walker.new) }
{
    walker.emission(text, signal, value);
    Ok(())
}

fn over_break(walker: &mut Walker, text: &Text<'_>, trap: &NameAt<Name>) -> Result<(), NoMemory>
    ensures { OnOk result (Follows text.now.parts.now (here (Exit trap.now)) walker.old walker.new) }
{
    walker.exit(text, trap);
    Ok(())
}

fn over_async(walker: &mut Walker, text: &Text<'_>, node: &AsyncNode<Name>) -> Result<(), NoMemory>
    requires { IsText text.now }
    ensures { OnOk result (Follows text.now.parts.now (here (Start node.now)) walker.old walker.new) }
{
    walker.start(text, node);
    Ok(())
}

#[cycle(walk)]
fn tested(
    walker: &mut Walker,
    alloc: Global,
    text: &Text<'_>,
    x: &ExprAt<Name>,
    block: &BlockNode<Name>,
) -> Result<(), NoMemory>
    requires text { IsText text.now }
    requires ready { IsReady walker.old }
    ensures { OnOk result (Follows text.now.parts.now (then (here (Test x.now)) (block_walk block.now))
        walker.old walker.new) }
{
    walker.test(text, x);
    over_block(walker, alloc, text, block)?;
    Ok(())
}

#[cycle(walk)]
fn delayed(
    walker: &mut Walker,
    alloc: Global,
    text: &Text<'_>,
    delay: &Delay<Name>,
    block: &BlockNode<Name>,
) -> Result<(), NoMemory>
    requires text { IsText text.now }
    requires ready { IsReady walker.old }
    ensures { OnOk result (Follows text.now.parts.now (then (delay_walk delay.now) (block_walk block.now))
        walker.old walker.new) }
{
    over_delay(walker, text, delay);
    over_block(walker, alloc, text, block)?;
    Ok(())
}

#[cycle(walk)]
fn do_every(
    walker: &mut Walker,
    alloc: Global,
    text: &Text<'_>,
    block: &BlockNode<Name>,
    later: &Later<Name>,
) -> Result<(), NoMemory>
    requires text { IsText text.now }
    requires ready { IsReady walker.old }
    ensures { OnOk result (Follows text.now.parts.now (then (block_walk block.now) (plain_walk later.now))
        walker.old walker.new) }
{
    over_block(walker, alloc, text, block)?;
    over_later(walker, text, later);
    Ok(())
}

/// Of the block behind `else`.
#[cycle(walk)]
fn otherwise(
    walker: &mut Walker,
    alloc: Global,
    text: &Text<'_>,
    other: &Option<BlockNode<Name>>,
) -> Result<(), NoMemory>
    requires text { IsText text.now }
    requires ready { IsReady walker.old }
    ensures { OnOk result (Follows text.now.parts.now (if_there (option_map block_walk other.now)) walker.old
        walker.new) }
{
    match other {
        None => Ok(()),
        Some(block) => over_block(walker, alloc, text, block),
    }
}

#[cycle(walk)]
fn over_blocks(
    walker: &mut Walker,
    alloc: Global,
    text: &Text<'_>,
    blocks: &[BlockNode<Name>],
) -> Result<(), NoMemory>
    requires text { IsText text.now }
    requires ready { IsReady walker.old }
    ensures { OnOk result (Follows text.now.parts.now (in_order (map block_walk blocks.now)) walker.old
        walker.new) }
{
    'each: for block in blocks {
        over_block(walker, alloc, text, block)?;
    }
    Ok(())
}

/// Of `signal`, with its block.
#[cycle(walk)]
fn within_signals(
    walker: &mut Walker,
    alloc: Global,
    text: &Text<'_>,
    signals: &[SignalNode],
    block: &BlockNode<Name>,
) -> Result<(), NoMemory>
    requires text { IsText text.now }
    requires ready { IsReady walker.old }
    ensures { OnOk result (Follows text.now.parts.now (then (here (Locals signals.now))
        (locals_walk signals.now (block_walk block.now))) walker.old walker.new) }
{
    walker.locals(alloc, text, signals)?;
    walker.enter_signals(alloc, signals)?;
    over_block(walker, alloc, text, block)?;
    walker.leave_signals(signals.len())?;
    Ok(())
}

#[cycle(walk)]
fn within_trap(
    walker: &mut Walker,
    alloc: Global,
    text: &Text<'_>,
    name: &Name,
    block: &BlockNode<Name>,
) -> Result<(), NoMemory>
    requires text { IsText text.now }
    requires ready { IsReady walker.old }
    ensures { OnOk result (Follows text.now.parts.now (trap_walk name.now (block_walk block.now)) walker.old
        walker.new) }
{
    walker.enter_trap(alloc, name)?;
    over_block(walker, alloc, text, block)?;
    walker.leave_trap()?;
    Ok(())
}

#[cycle(walk)]
fn over_statement(
    walker: &mut Walker,
    alloc: Global,
    text: &Text<'_>,
    statement: &Statement<Name>,
) -> Result<(), NoMemory>
    requires text { IsText text.now }
    requires ready { IsReady walker.old }
    ensures { OnOk result (Follows text.now.parts.now (statement_walk statement.now) walker.old walker.new) }
{
    match statement {
        Statement::Nothing => Ok(()),
        Statement::Pause => Ok(()),
        Statement::Halt => Ok(()),
        Statement::Emit(signal, value) => over_emission(walker, text, signal, value),
        Statement::Sustain(signal, value) => over_emission(walker, text, signal, value),
        Statement::If(x, block, other) => {
            tested(walker, alloc, text, x.get(), block)?;
            otherwise(walker, alloc, text, other)?;
            Ok(())
        }
        Statement::Loop(block) => over_block(walker, alloc, text, block),
        Statement::Fork(blocks) => over_blocks(walker, alloc, text, blocks.as_slice()),
        Statement::Block(block) => over_block(walker, alloc, text, block),
        Statement::Await(delay) => over_await(walker, text, delay),
        Statement::Every(delay, block) => delayed(walker, alloc, text, delay, block),
        Statement::DoEvery(block, later) => do_every(walker, alloc, text, block, later),
        Statement::Abort(delay, block) => delayed(walker, alloc, text, delay, block),
        Statement::WeakAbort(delay, block) => delayed(walker, alloc, text, delay, block),
        Statement::Suspend(_, x, block) => tested(walker, alloc, text, x, block),
        Statement::Signal(signals, block) => {
            within_signals(walker, alloc, text, signals.as_slice(), block)
        }
        Statement::Trap(name, block) => within_trap(walker, alloc, text, name, block),
        Statement::Break(trap) => over_break(walker, text, trap),
        Statement::Run(callee, bindings) => walker.call(alloc, text, callee, bindings.as_slice()),
        Statement::Async(node) => over_async(walker, text, node.get()),
    }
}

#[cycle(walk)]
fn over_node(
    walker: &mut Walker,
    alloc: Global,
    text: &Text<'_>,
    node: &StatementNode<Name>,
) -> Result<(), NoMemory>
    requires text { IsText text.now }
    requires ready { IsReady walker.old }
    ensures { OnOk result (Follows text.now.parts.now (node_walk node.now) walker.old walker.new) }
{
    over_statement(walker, alloc, text, &node.what)
}

#[cycle(walk)]
fn over_nodes(
    walker: &mut Walker,
    alloc: Global,
    text: &Text<'_>,
    nodes: &[StatementNode<Name>],
) -> Result<(), NoMemory>
    requires text { IsText text.now }
    requires ready { IsReady walker.old }
    ensures { OnOk result (Follows text.now.parts.now (in_order (map node_walk nodes.now)) walker.old
        walker.new) }
{
    'each_node: for node in nodes {
        over_node(walker, alloc, text, node)?;
    }
    Ok(())
}

/// Goes over the parts of a block, in the order of the text.
#[cycle(walk)]
pub fn over_block(
    walker: &mut Walker,
    alloc: Global,
    text: &Text<'_>,
    block: &BlockNode<Name>,
) -> Result<(), NoMemory>
    requires text { IsText text.now }
    requires ready { IsReady walker.old }
    ensures { OnOk result (Follows text.now.parts.now (block_walk block.now) walker.old walker.new) }
{
    over_nodes(walker, alloc, text, block.statements.as_slice())
}
