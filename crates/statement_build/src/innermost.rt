//! Blocks that are no more than a block inside them.

ghost use Rattle.std.specs.Prelude.{◌≡◌, ◌<◌, ◌≤◌, ℕ, [], ◌∷◌, IfSome};
ghost use Rattle.hh_base.specs.declared.value.Pos.{Pos as APos};
ghost use Rattle.module_tree.specs.declared.source.BlockNode.{size-BlockNode};
ghost use Rattle.module_tree.specs.declared.source.StatementNode.{size-StatementNode};
ghost use Rattle.module_tree.specs.declared.source.Statement.{size-Statement};
ghost use Rattle.kernel_expand.specs.Interpretation.{Kernel, of_statement, of_node, of_block};
ghost use Rattle.kernel_expand.specs.Numbering.{Piece};

use module_tree::source::{BlockNode, Statement, StatementNode};

/// The statement of a block that has one.
pub fn only(block: &BlockNode<u32>) -> Option<&StatementNode<u32>>
    ensures means { (k : Kernel Piece) → IfSome result (λ node. of_block k block.now ≡ of_node k node.now) }
    ensures less { IfSome result (λ node. size-StatementNode ℕ node.now < size-BlockNode ℕ block.now) }
{
    match block.statements.as_slice() {
        [node] => Some(node),
        _ => None,
    }
}

/// The branch of a fork that has one.
fn branch(blocks: &[BlockNode<u32>]) -> Option<&BlockNode<u32>>
    ensures { IfSome result (λ b. blocks.now ≡ b.now ∷ []) }
{
    match blocks {
        [block] => Some(block),
        _ => None,
    }
}

/// The block that is all of a statement, if there is one.
fn within(what: &Statement<u32>) -> Option<&BlockNode<u32>>
    ensures means { (k : Kernel Piece) (pos : APos) → IfSome result (λ b. of_statement k what.now pos
        ≡ of_block k b.now) }
    ensures less { IfSome result (λ b. size-BlockNode ℕ b.now < size-Statement ℕ what.now) }
{
    match what {
        Statement::Block(block) => Some(block),
        Statement::Fork(blocks) => branch(blocks.as_slice()),
        _ => None,
    }
}

/// The block that is all of a block, if there is one.
fn next(block: &BlockNode<u32>) -> Option<&BlockNode<u32>>
    ensures means { (k : Kernel Piece) → IfSome result (λ b. of_block k block.now ≡ of_block k b.now) }
    ensures less { IfSome result (λ b. size-BlockNode ℕ b.now < size-BlockNode ℕ block.now) }
{
    match only(block) {
        Some(node) => within(&node.what),
        None => None,
    }
}

/// The innermost of the blocks that a block is no more than: each of its nodes makes one of the kernel's.
pub fn innermost(block: &BlockNode<u32>) -> &BlockNode<u32>
    ensures means { (k : Kernel Piece) → of_block k block.now ≡ of_block k result.now }
    ensures less { size-BlockNode ℕ result.now ≤ size-BlockNode ℕ block.now }
{
    let mut inner = block;
    'inward: while let Some(block) = next(inner) {
        inner = block;
    }
    inner
}
