//! Which modules the modules of a text run, once names are resolved.

ghost use Rattle.std.specs.Prelude.{◌≡◌, [], ◌∷◌, ◌++◌, map, option_map, IfOk, OnOk};
ghost use Rattle.module_tree.specs.Parts.{block_walk, in_order, if_there};
ghost use Rattle.module_tree.specs.Runs.{callees_of, runs_of};
ghost use Rattle.link_resolve.specs.CalleesAdded.{AddsCallees, statement_walk, node_walk};

use hh_base::memory::NoMemory;
use module_tree::source::{BlockNode, ModuleNode, Part, Statement, StatementNode};
use sqlite_items::Items;
use std::alloc::Global;

#[cycle(callees)]
fn add_of_blocks(callees: &mut Items<u32>, blocks: &[BlockNode<u32>]) -> Result<(), NoMemory>
    ensures { OnOk result (AddsCallees (in_order (map block_walk blocks.now)) callees.old callees.new) }
{
    'each_block: for block in blocks {
        add_of_block(callees, block)?;
    }
    Ok(())
}

#[cycle(callees)]
fn add_of_otherwise(
    callees: &mut Items<u32>,
    block: &Option<BlockNode<u32>>,
) -> Result<(), NoMemory>
    ensures { OnOk result (AddsCallees (if_there (option_map block_walk block.now)) callees.old callees.new) }
{
    match block {
        None => Ok(()),
        Some(block) => add_of_block(callees, block),
    }
}

#[cycle(callees)]
fn add_of_statement(callees: &mut Items<u32>, statement: &Statement<u32>) -> Result<(), NoMemory>
    ensures { OnOk result (AddsCallees (statement_walk statement.now) callees.old callees.new) }
{
    match statement {
        Statement::Nothing => Ok(()),
        Statement::Pause => Ok(()),
        Statement::Halt => Ok(()),
        Statement::Emit(_, _) => Ok(()),
        Statement::Sustain(_, _) => Ok(()),
        Statement::If(_, yes, other) => {
            add_of_block(callees, yes)?;
            add_of_otherwise(callees, other)
        }
        Statement::Loop(block) => add_of_block(callees, block),
        Statement::Fork(blocks) => add_of_blocks(callees, blocks.as_slice()),
        Statement::Block(block) => add_of_block(callees, block),
        Statement::Await(_) => Ok(()),
        Statement::Every(_, block) => add_of_block(callees, block),
        Statement::DoEvery(block, _) => add_of_block(callees, block),
        Statement::Abort(_, block) => add_of_block(callees, block),
        Statement::WeakAbort(_, block) => add_of_block(callees, block),
        Statement::Suspend(_, _, block) => add_of_block(callees, block),
        Statement::Signal(_, block) => add_of_block(callees, block),
        Statement::Trap(_, block) => add_of_block(callees, block),
        Statement::Break(_) => Ok(()),
        Statement::Run(callee, _) => Ok(callees.push(callee.name)?),
        Statement::Async(_) => Ok(()),
    }
}

#[cycle(callees)]
fn add_of_node(callees: &mut Items<u32>, node: &StatementNode<u32>) -> Result<(), NoMemory>
    ensures { OnOk result (AddsCallees (node_walk node.now) callees.old callees.new) }
{
    add_of_statement(callees, &node.what)
}

#[cycle(callees)]
fn add_of_nodes(callees: &mut Items<u32>, nodes: &[StatementNode<u32>]) -> Result<(), NoMemory>
    ensures { OnOk result (AddsCallees (in_order (map node_walk nodes.now)) callees.old callees.new) }
{
    'each_node: for node in nodes {
        add_of_node(callees, node)?;
    }
    Ok(())
}

/// The modules that a block runs, in the order of the text.
#[cycle(callees)]
fn add_of_block(callees: &mut Items<u32>, block: &BlockNode<u32>) -> Result<(), NoMemory>
    ensures { OnOk result (AddsCallees (block_walk block.now) callees.old callees.new) }
{
    add_of_nodes(callees, block.statements.as_slice())
}

fn callees_of(alloc: Global, node: &ModuleNode<u32>) -> Result<Items<u32>, NoMemory>
    ensures { IfOk result (λ ms. ms ≡ callees_of node.now) }
{
    let mut callees = Items::new(alloc);
    add_of_block(&mut callees, &node.block)?;
    Ok(callees)
}

/// What a part of a text runs, if it is a module.
fn add_runs(alloc: Global, runs: &mut Vec<Items<u32>>, part: &Part<u32>) -> Result<(), NoMemory>
    ensures { OnOk result (runs.new.items ≡ runs.old.items ++ runs_of (part.now ∷ [])) }
{
    match part {
        Part::Body(_) => Ok(()),
        Part::Host(_) => Ok(()),
        Part::Module(node) => Ok(runs.push(callees_of(alloc, node)?)?),
    }
}

/// For each module, by its place, those that it runs.
pub fn runs_of(alloc: Global, parts: &[Part<u32>]) -> Result<Vec<Items<u32>>, NoMemory>
    ensures { IfOk result (λ runs. runs.items ≡ runs_of parts.now) }
{
    let mut runs = Vec::new(alloc);
    'parts: for part in parts {
        add_runs(alloc, &mut runs, part)?;
    }
    Ok(runs)
}
