//! The whole way from a text to its resolved tree.

ghost use Rattle.std.specs.Prelude.{◌≡◌};
ghost use Rattle.link_resolve.specs.declared.link.LinkError.TheVariants.{NoMemory as OutOfMemory};
ghost use Rattle.link_resolve.specs.LinkedTexts.{IsLinkOf};

use crate::resolve::resolve;
use hh_base::memory::NoMemory;
use link_faults::fault::LinkFault;
use link_verdict::first::first_fault;
use module_tree::linked::Linked;
use module_tree::source::Modules;
use std::alloc::Global;
use thiserror::Error;

/// Why a text is not linked.
#[derive(Clone, Copy, PartialEq, Eq, Debug, Error)]
pub enum LinkError {
    /// The first fault of the text.
    #[error("{0}")]
    Fault(LinkFault),
    #[error("memory ran out")]
    NoMemory,
}

impl From<NoMemory> for LinkError {
    ghost from_gives = { λ _ e. e ≡ OutOfMemory };

    fn from(_error: NoMemory) -> LinkError {
        LinkError::NoMemory
    }
}

/// The text with each name replaced by the place of what it means, or its first fault. Time and memory grow
/// with the text.
pub fn link(alloc: Global, modules: &Modules) -> Result<Linked, LinkError>
    ensures { IsLinkOf modules.now result }
{
    let first = first_fault(alloc, modules)?;
    match first {
        Some(fault) => Err(LinkError::Fault(fault)),
        None => Ok(resolve(alloc, modules)?),
    }
}
