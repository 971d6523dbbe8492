//! The expansion of a linked text to a kernel program.

ghost use Rattle.std.specs.Prelude.{ℕ, IfOk, OnOk, map};
ghost use Rattle.std.specs.Borrow.{Bor};
ghost use Rattle.module_tree.specs.declared.source.ModuleNode.{ModuleNode as AModule};
ghost use Rattle.module_tree.specs.LinkedFacts.{IsLinked};
ghost use Rattle.hh_term.specs.Placed.{placed_term};
ghost use Rattle.kernel_expand.specs.Expansion.{expansion_of};
ghost use Rattle.kernel_expand.specs.Refusals.{Expands};
ghost use Rattle.statement_build.specs.Building.{numbered_of};
ghost use Rattle.kernel_build.specs.Whole.{IsMain, IsWritten, IsSmall, IsExpanded};

use crate::refused::by_sizes;
use crate::walk;
use hh_base::memory::NoMemory;
use hh_term::program::{BodyDecl, Program, SignalDecl, Site};
use hh_term::term::Term;
use kernel_expand::fault::ExpandFault;
use kernel_expand::laws::accepted_keep_rules;
use kernel_expand::loops::first_instant;
use kernel_expand::measure::{measure, modules};
use module_tree::linked::Linked;
use module_tree::source::ModuleNode;
use statement_build::builder::{Builder, number};
use statement_build::chain::Level;
use statement_build::declarations::{bodies, interface, start};
use std::alloc::Global;

/// The parts of a program that was written out.
#[derive(Drop)]
struct Written {
    signals: Vec<SignalDecl>,
    interface: u32,
    bodies: Vec<BodyDecl>,
    sites: Vec<Site>,
    term: Term,
}

/// The statement of the first module, and what was numbered in it.
fn main_term(alloc: Global, modules: &[&ModuleNode<u32>]) -> Result<(Term, Builder), NoMemory>
    ensures { IfOk result (λ r. IsMain (map (λ (m : Bor (AModule ℕ)). m.now) modules.now) (placed_term r.0)
        (numbered_of r.1)) }
{
    let mut builder = start(alloc, interface(modules))?;
    let level = Level {
        modules,
        deep: modules.len(),
    };
    let term = walk::write(&mut builder, alloc, level, 0)?;
    Ok((term, builder))
}

/// Writes the expansion of a text out. It is as large as it is, so its sizes are to be measured first.
fn write(alloc: Global, linked: &Linked) -> Result<Written, NoMemory>
    ensures written { IfOk result (λ w. IsWritten linked.now w.signals.items w.interface w.bodies.items
        w.sites.items w.term) }
    ensures linked { OnOk result (IsLinked linked.now) }
{
    let bodies = bodies(alloc, linked.parts())?;
    let modules = modules(alloc, linked.parts())?;
    let interface = number(interface(&modules).len())?;
    let (term, builder) = main_term(alloc, &modules)?;
    let (signals, sites) = builder.into_lists();
    Ok(Written {
        signals,
        interface,
        bodies,
        sites,
        term,
    })
}

/// The program of a text that no size refuses.
fn accept(alloc: Global, linked: &Linked) -> Result<Program, ExpandFault>
    requires { IsSmall linked.now }
    ensures { IsExpanded linked.now result }
{
    let written = write(alloc, linked)?;
    match first_instant(&written.term) {
        Some(pos) => Err(ExpandFault::InstantLoop(pos)),
        None => {
            accepted_keep_rules();
            Ok(Program::new(
                written.signals,
                written.interface,
                written.bodies,
                written.sites,
                written.term,
            ))
        }
    }
}

/// The kernel program of a linked text's main module: each derived statement by its row, and each run by the
/// body of its module with its signals replaced. Fails where that is larger than the limits of a program,
/// without writing it out, and where the body of a loop may end in the reaction in which it starts.
pub fn expand(alloc: Global, linked: &Linked) -> Result<Program, ExpandFault>
    ensures { Expands (expansion_of linked.now) result }
{
    let sizes = measure(alloc, linked)?;
    match by_sizes(sizes) {
        Some(fault) => Err(fault),
        None => accept(alloc, linked),
    }
}
