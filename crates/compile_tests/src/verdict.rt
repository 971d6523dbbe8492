//! What comes of a text, as a line.

use module_compile::compile::compile;
use module_compile::fault::{CompileError, ModuleFault};
use std::alloc::Global;
use std::test::Fail;

fn refusal(alloc: Global, fault: ModuleFault) -> Result<String, Fail> {
    let place = fault.place();
    let word = fault.word();
    Ok(match fault.number() {
        Some(number) => format!(in alloc; "{place} {word} {number}")?,
        None => format!(in alloc; "{place} {word}")?,
    })
}

/// The place and the word of the refusal of a text, with its number where it has one. For a program, how many
/// signals, signals of the interface, bodies and asyncs it has.
fn verdict(alloc: Global, text: &[u8]) -> Result<String, Fail> {
    if text.len() >= 1 << 32 {
        return Err(Fail::new("the text is too long"));
    }
    match compile(alloc, text) {
        Ok(program) => {
            let signals = program.signals().len();
            let interface = program.interface_len();
            let bodies = program.bodies().len();
            let sites = program.sites().len();
            Ok(format!(in alloc; "fine {signals} {interface} {bodies} {sites}")?)
        }
        Err(CompileError::Fault(fault)) => refusal(alloc, fault),
        Err(CompileError::NoMemory) => Err(Fail::new("memory ran out")),
    }
}

/// Whether this comes of a text.
pub fn expect(alloc: Global, text: &[u8], want: &str) -> Result<(), Fail> {
    let found = verdict(alloc, text)?;
    if found.as_str() == want {
        Ok(())
    } else {
        Err(Fail::new(format!(in alloc; "{found} and not {want}")?))
    }
}
