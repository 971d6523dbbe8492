//! The refusals of an expansion by its sizes.

ghost use Rattle.std.specs.Prelude.{◌≡◌, None};
ghost use Rattle.kernel_build.specs.Refusing.{refusal_of_sizes};

use hh_term::limits::{COPIED_LIMIT, HEIGHT_LIMIT, SITE_LIMIT, SIZE_LIMIT, TRAP_LIMIT};
use kernel_expand::fault::ExpandFault;
use kernel_expand::sizes::Sizes;

/// The first of the sizes that passes its limit, in the order of the refusals.
pub fn by_sizes(sizes: Sizes) -> Option<ExpandFault>
    ensures { result ≡ refusal_of_sizes sizes None }
{
    if sizes.size > SIZE_LIMIT as u64 {
        Some(ExpandFault::TooLarge(sizes.size))
    } else if sizes.height > HEIGHT_LIMIT as u64 {
        Some(ExpandFault::TooDeep(sizes.height))
    } else if sizes.traps > TRAP_LIMIT as u64 {
        Some(ExpandFault::TrapsDeep(sizes.traps))
    } else if sizes.sites > SITE_LIMIT as u64 {
        Some(ExpandFault::ManyAsyncs(sizes.sites))
    } else if sizes.copied > COPIED_LIMIT as u64 {
        Some(ExpandFault::CopyLarge(sizes.copied))
    } else {
        None
    }
}
