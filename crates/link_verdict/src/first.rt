//! The verdict on a text.

ghost use Rattle.std.specs.Prelude.{IfOk};
ghost use Rattle.link_faults.specs.FirstFault.{IsVerdict};

use crate::cycles::first_cycle;
use crate::modules::over_declarations;
use hh_base::memory::NoMemory;
use link_faults::fault::{LinkFault, earlier};
use link_faults::text::text_of;
use module_tree::source::Modules;
use std::alloc::Global;

/// The first fault of names, kinds and runs of a text, by position and then as the kinds are listed, or none;
/// `NoMemory` where memory runs out. Time grows with the length of the text and, for each run, with the
/// interface of the module that is run. No recursion goes along runs.
pub fn first_fault(alloc: Global, modules: &Modules) -> Result<Option<LinkFault>, NoMemory>
    ensures { IfOk result (IsVerdict modules.now) }
{
    let text = text_of(alloc, modules.parts())?;
    let found = over_declarations(alloc, &text)?;
    let cycle = first_cycle(alloc, found.runs.as_slice())?;
    let names = earlier(text.names.first(), text.callables.names.first());
    Ok(earlier(earlier(names, found.first), cycle))
}
