//! Numbers of gates.
ghost use Rattle.std.specs.Prelude.{◌≡◌, IfOk};

use hh_base::memory::NoMemory;

/// The number of what stands at this place of a list: numbers have 32 bits.
pub fn number(place: usize) -> Result<u32, NoMemory>
    ensures { IfOk result (λ n. n ≡ place) }
{
    match u32::try_from(place) {
        Ok(number) => Ok(number),
        Err(_) => Err(NoMemory),
    }
}
