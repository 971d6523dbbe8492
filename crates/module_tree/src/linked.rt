//! The tree of a module text in which each name that refers to something is the place of what it names.

ghost use Rattle.std.specs.Prelude.{◌≡◌, true};
ghost use Rattle.module_tree.specs.LinkedFacts.{IsLinked};
ghost use Rattle.module_tree.specs.Runs.{runs_of, is_callees_first};

use crate::source::Part;
use sqlite_items::Items;
use std::marker::Model;

/// The tree of a whole module text with its names resolved.
///
/// A module's place counts the modules of the text in order, and a body's or host's counts both together. A
/// parameter's is that in its list. A signal's counts the interface of its module, and then the signals of
/// its `signal` statements in the order of the text; a trap's counts the traps of its module in that order.
/// The left side of a binding is a place in the interface of the module that is run, and the right side one
/// in the module that runs it; a run has one binding for each signal of that interface, in its order.
///
/// Contracts see the list of its declarations, which keeps `IsLinked`.
#[derive(Drop)]
pub struct Linked {
    parts: Items<Part<u32>>,
    callees_first: Vec<u32>,
}

impl Model for Linked {
    ghost use Rattle.std.specs.Prelude.{List, ℕ, ◌≡◌, true};
    ghost use Rattle.module_tree.specs.declared.source.Part.{Part as ATop};
    ghost use Rattle.module_tree.specs.LinkedFacts.{IsLinked};
    ghost use Rattle.module_tree.specs.Runs.{runs_of, is_callees_first};
    ghost use Rattle.std.specs.Coded.{codes};
    ghost use Rattle.std.specs.Borrow.{u32};
    ghost use Rattle.host_expr.specs.contracts.expr.ExprNode as node;
    ghost use Rattle.module_tree.specs.contracts.source.BlockNode as block;

    ghost Value = { List (ATop ℕ) };

    ghost coded = { Prim.hlevel (codes, (node.the_row u32).coded, (block.the_row u32).coded) };

    ghost view = { λ m. m.parts };

    ghost invariant = { λ m. IsLinked m.parts × (is_callees_first (runs_of m.parts)
        m.callees_first.items ≡ true) };
}

impl Linked {
    /// Takes no memory. `callees_first` are the places of all modules, each behind those of the modules
    /// that it runs.
    pub fn new(parts: Items<Part<u32>>, callees_first: Vec<u32>) -> Linked
        requires linked { IsLinked parts }
        requires order { is_callees_first (runs_of parts) callees_first.items ≡ true }
        ensures { result ≡ parts }
    {
        Linked {
            parts,
            callees_first,
        }
    }

    pub fn parts(&self) -> &[Part<u32>]
        ensures parts { result.now ≡ self.now }
        ensures linked { IsLinked self.now }
    {
        self.parts.as_slice()
    }

    /// The places of all modules, each behind those of the modules that it runs. So no module reaches
    /// itself by runs.
    pub fn callees_first(&self) -> &[u32]
        ensures { is_callees_first (runs_of self.now) result.now ≡ true }
    {
        self.callees_first.as_slice()
    }
}
