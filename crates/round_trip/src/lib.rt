//! What the reader and the printer of module texts say of each other.
#![tactic(auto)]

ghost use Rattle.std.specs.Prelude.{◌≡◌, ◌<◌, ◌^◌, length, IfOk, IfErr};
ghost use Rattle.module_printer.specs.Printed.{printed};
ghost use Rattle.round_trip.specs.Places.{SameButPlaces};
ghost use Rattle.round_trip.specs.Trips.{EachSourceTreeHasAText, EachTreeOfATextIsSource};

use module_printer::print::print;
use module_reader::fault::ReadFault;
use module_reader::read::read;
use module_tree::source::Modules;
use std::alloc::Global;

/// A law: the tests of a source tree, which `Modules` keeps, say which trees a text has, but for places. The
/// call does nothing; its contract is the law.
pub fn source_trees()
    ensures has_text { EachSourceTreeHasAText }
    ensures of_text { EachTreeOfATextIsSource }
{}

/// The tree that is read of the printed text of a tree: the same but for places.
///
/// # Errors
/// `NoMemory` alone.
pub fn read_back(alloc: Global, modules: &Modules) -> Result<Modules, ReadFault>
    requires { length (printed modules.now) < 2 ^ 32 }
    ensures same { IfOk result (λ m. SameButPlaces m modules.now) }
    ensures fault { IfErr result (λ e. e ≡ ReadFault.NoMemory) }
{
    // What a source tree keeps is told by the call that shows it.
    let _parts = modules.parts();
    let Ok(bytes) = print(alloc, modules) else {
        return Err(ReadFault::NoMemory);
    };
    let Ok(text) = str::from_utf8(bytes.as_slice()) else {
        unreachable!()
    };
    read(alloc, text)
}
