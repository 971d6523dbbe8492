//! Runs of modules whose body is only a run.

ghost use Rattle.std.specs.Prelude.{◌≡◌, ℕ, Some, IfOk, IfSome};
ghost use Rattle.std.specs.Borrow.{Bor};
ghost use Rattle.module_tree.specs.declared.source.BlockNode.{BlockNode as ABlock};
ghost use Rattle.hh_base.specs.declared.value.Pos.{Pos as APos};
ghost use Rattle.kernel_expand.specs.Numbering.{Numbered as ANumbered, Around as AAround, numbering, no_traps};
ghost use Rattle.statement_build.specs.Building.{numbered_of};
ghost use Rattle.statement_build.specs.Levels.{runs_in, body_piece, tail, IsBelow};

use crate::builder::Builder;
use crate::innermost::{innermost, only};
use hh_base::memory::NoMemory;
use module_tree::source::{Binding, BlockNode, ModuleNode, Statement};
use std::alloc::Global;

/// The modules of a text, and how deep they may still run one another.
#[derive(Clone, Copy)]
pub struct Level<'a> {
    pub modules: &'a [&'a ModuleNode<u32>],
    pub deep: usize,
}

/// The body of a module, and how deep it may run others.
#[derive(Clone, Copy)]
pub struct Body<'a> {
    pub level: Level<'a>,
    pub block: &'a BlockNode<u32>,
}

/// A run of a module, with the signals bound to its interface.
#[derive(Clone, Copy)]
pub struct Passage<'a> {
    place: u32,
    bindings: &'a [Binding<u32>],
}

/// The body of the module of this place.
pub fn body_of<'a>(level: Level<'a>, place: u32) -> Option<Body<'a>>
    ensures means { (a : AAround) (n : ANumbered) → runs_in level.entry place a n ≡ body_piece result a n }
    ensures less { IfSome result (IsBelow level.entry) }
{
    if level.deep == 0 {
        return None;
    }
    match level.modules.get(place as usize) {
        None => None,
        Some(found) => Some(Body {
            level: Level {
                modules: level.modules,
                deep: level.deep - 1,
            },
            block: innermost(&found.block),
        }),
    }
}

/// The run that is all of a body, if there is one.
fn only_run<'a>(body: Body<'a>) -> Option<Passage<'a>>
    ensures { (a : AAround) (n : ANumbered) (pos : APos) → IfSome result (λ p. body_piece (Some body.entry) a n
        ≡ (numbering (runs_in body.entry.level) pos).run p.place p.bindings.now a n) }
{
    match only(body.block) {
        Some(node) => match &node.what {
            Statement::Run(module, bindings) => Some(Passage {
                place: module.name,
                bindings: bindings.as_slice(),
            }),
            _ => None,
        },
        None => None,
    }
}

fn passes_to<'a>(body: Option<Body<'a>>) -> Option<(Level<'a>, Passage<'a>)>
    ensures means { (a : AAround) (n : ANumbered) (pos : APos) → IfSome result (λ p. body_piece body.entry a n
        ≡ (numbering (runs_in p.0) pos).run p.1.place p.1.bindings.now a n) }
    ensures level { IfSome result
        (λ p. (block : Bor (ABlock ℕ)) × (body.entry ≡ Some (record { level = p.0; block = block }))) }
{
    match body {
        Some(body) => match only_run(body) {
            Some(passage) => Some((body.level, passage)),
            None => None,
        },
        None => None,
    }
}

impl Builder {
    /// The body of the module of this place. Where it is only a run, it is the body of the module that is
    /// run, so that a long chain of runs takes no stack.
    pub fn follow<'a>(
        &mut self,
        alloc: Global,
        level: Level<'a>,
        place: u32,
    ) -> Result<Option<Body<'a>>, NoMemory>
        ensures means { (n : ANumbered) → IfOk result (λ b. tail n (runs_in level.entry place no_traps
            (numbered_of self.old)) ≡ tail n (body_piece b no_traps (numbered_of self.new))) }
        ensures less { IfOk result (λ b. IfSome b (IsBelow level.entry)) }
    {
        let mut body = body_of(level, place);
        'chain: while let Some((level, passage)) = passes_to(body) {
            self.enter(alloc, passage.bindings)?;
            body = body_of(level, passage.place);
        }
        Ok(body)
    }
}
