//! Measuring the expansion of a text without writing it out.

ghost use Rattle.std.specs.Prelude.{◌≡◌, ℕ, IfOk, map};
ghost use Rattle.std.specs.Borrow.{Bor};
ghost use Rattle.module_tree.specs.declared.source.ModuleNode.{ModuleNode as AModule};
ghost use Rattle.module_tree.specs.Callables.{modules_of};
ghost use Rattle.kernel_expand.specs.Expansion.{expansion_of, kernel_of_expansion};
ghost use Rattle.kernel_expand.specs.Weighed.{sizes_of_kernel};

use crate::blocks::{module_at, of_block};
use crate::sizes::Sizes;
use hh_base::memory::NoMemory;
use module_tree::linked::Linked;
use module_tree::source::{ModuleNode, Part};
use std::alloc::Global;

/// The modules of a text, in order.
pub fn modules<'a>(
    alloc: Global,
    parts: &'a [Part<u32>],
) -> Result<Vec<&'a ModuleNode<u32>>, NoMemory>
    ensures { IfOk result (λ v. map (λ (m : Bor (AModule ℕ)). m.now) v.items ≡ modules_of parts.now) }
{
    let mut modules = Vec::new(alloc);
    for part in parts {
        if let Part::Module(module) = part {
            modules.push(module)?;
        }
    }
    Ok(modules)
}

/// The sizes of the kernel program that a text expands to. The program is not written out: each module is
/// measured
/// once, and a run counts as the body of its module.
pub fn measure(alloc: Global, linked: &Linked) -> Result<Sizes, NoMemory>
    ensures { IfOk result (λ s. s ≡ sizes_of_kernel (kernel_of_expansion (expansion_of linked.now))) }
{
    let modules = modules(alloc, linked.parts())?;
    let mut known = vec![in alloc; Sizes::leaf(0); modules.len()]?;
    'each: for place in linked.callees_first() {
        let place = *place as usize;
        if let Some(module) = modules.get(place) {
            known[place] = of_block(alloc, &module.block, &known)?;
        }
    }
    Ok(module_at(&known, 0))
}
