//! How deep the branches of a fork are, and a node's statement.

ghost use Rattle.std.specs.Prelude.{◌≡◌, ◌<◌, ◌≤◌, ℕ, ◌∷◌, List};
ghost use Rattle.module_tree.specs.declared.source.BlockNode.{BlockNode as ABlock, size-BlockNode};
ghost use Rattle.module_tree.specs.declared.source.Statement.{Statement as AStatement, size-Statement};
ghost use Rattle.module_tree.specs.declared.source.Statement.TheVariants as v;
ghost use Rattle.module_tree.specs.declared.source.StatementNode.{size-StatementNode, out-StatementNode};

use module_tree::source::{Statement, StatementNode};

/// The first branch of a fork is less deep than the fork, and the other branches are no deeper.
fn forks_are_deeper(what: &Statement<u32>) -> bool
    ensures first { (b : ABlock ℕ) (bs : List (ABlock ℕ)) (s : AStatement ℕ) →
        s ≡ v.Fork (b ∷ bs) → size-BlockNode ℕ b < size-Statement ℕ s }
    ensures rest { (b : ABlock ℕ) (bs : List (ABlock ℕ)) (s : AStatement ℕ) (r : AStatement ℕ) →
        s ≡ v.Fork (b ∷ bs) → r ≡ v.Fork bs → size-Statement ℕ r ≤ size-Statement ℕ s }
{
    match what {
        Statement::Fork(_) => true,
        _ => false,
    }
}

/// The same of any fork.
pub fn branches_are_less()
    ensures first { (b : ABlock ℕ) (bs : List (ABlock ℕ)) →
        size-BlockNode ℕ b < size-Statement ℕ (v.Fork (b ∷ bs)) }
    ensures rest { (b : ABlock ℕ) (bs : List (ABlock ℕ)) →
        size-Statement ℕ (v.Fork bs) ≤ size-Statement ℕ (v.Fork (b ∷ bs)) }
{
    let _ = forks_are_deeper(&Statement::Nothing);
}

/// The statement of a node, which is less deep.
pub fn statement_of(node: &StatementNode<u32>) -> &Statement<u32>
    ensures same { result.now ≡ (out-StatementNode ℕ node.now).what }
    ensures less { size-Statement ℕ result.now < size-StatementNode ℕ node.now }
{
    &node.what
}
