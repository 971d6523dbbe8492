//! What stands round a statement while it is written out.

ghost use Rattle.std.specs.Prelude.{◌≡◌, ◌≤◌, IfOk, length};
ghost use Rattle.kernel_expand.specs.Numbering.{in_trap, traps_between, no_traps};
ghost use Rattle.statement_build.specs.Building.{around_of};

use hh_base::memory::NoMemory;
use std::alloc::Global;

/// The traps round a statement from the inmost outward, each with its place if the text has it, and the number
/// of the inmost counter.
#[derive(Drop)]
pub struct Around {
    traps: Vec<Option<u32>>,
    counter: u32,
}

/// How many traps stand between: the place of the trap in the list, or the list's length.
fn traps_between(place: u32, traps: &[Option<u32>]) -> usize
    ensures between { result ≡ traps_between place traps.now }
    ensures most { result ≤ length traps.now }
{
    match traps.split_first() {
        None => 0,
        Some((trap, outer)) => {
            if *trap == Some(place) {
                0
            } else {
                traps_between(place, outer) + 1
            }
        }
    }
}

impl Around {
    /// What stands round the body of a module: nothing.
    pub fn none(alloc: Global) -> Around
        ensures { around_of result ≡ no_traps }
    {
        Around {
            traps: Vec::new(alloc),
            counter: 0,
        }
    }

    /// The same with one trap more.
    pub fn in_trap(&self, alloc: Global, trap: Option<u32>) -> Result<Around, NoMemory>
        ensures { IfOk result (λ a. around_of a ≡ in_trap trap (around_of self.now)) }
    {
        let mut traps = Vec::with_capacity(alloc, self.traps.len() + 1)?;
        traps.push(trap)?;
        traps.extend_from_slice(&self.traps)?;
        Ok(Around {
            traps,
            counter: self.counter,
        })
    }

    pub fn copy(&self, alloc: Global) -> Result<Around, NoMemory>
        ensures { IfOk result (λ a. around_of a ≡ around_of self.now) }
    {
        let mut traps = Vec::with_capacity(alloc, self.traps.len())?;
        traps.extend_from_slice(&self.traps)?;
        Ok(Around {
            traps,
            counter: self.counter,
        })
    }

    /// The same with this counter.
    pub fn counted(self, counter: u32) -> Around
        ensures { around_of result ≡ record { traps = (around_of self).traps; counter = counter } }
    {
        Around {
            traps: self.traps,
            counter,
        }
    }

    /// How many traps an exit of the trap of this place passes.
    pub fn traps_to(&self, place: u32) -> Result<u8, NoMemory>
        ensures { IfOk result (λ n. n ≡ traps_between place (around_of self.now).traps) }
    {
        match u8::try_from(traps_between(place, &self.traps)) {
            Ok(traps) => Ok(traps),
            Err(_) => Err(NoMemory),
        }
    }
}
