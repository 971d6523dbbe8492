//! What a program says of its signals and sites.

ghost use Rattle.std.specs.Prelude.{◌≡◌, IfOk};
ghost use Rattle.hh_term.specs.MustCan.{table_of};
ghost use Rattle.hh_term.specs.ProgramView.{kernel_of};

use hh_base::value::{CombineWord, Kind, NoMemory, Value};
use hh_term::program::Program;
use std::alloc::Global;

/// The kind of a signal; one that is not declared is pure.
pub fn kind_of(program: &Program, signal: u32) -> Kind
    ensures { result ≡ (table_of (kernel_of program.now)).kind signal }
{
    match program.signals().get(signal as usize) {
        Some(declared) => declared.kind,
        None => Kind::Pure,
    }
}

/// The combine word of a signal.
pub fn word_of(program: &Program, signal: u32) -> Option<CombineWord>
    ensures { result ≡ (table_of (kernel_of program.now)).word signal }
{
    match program.signals().get(signal as usize) {
        Some(declared) => declared.combine,
        None => None,
    }
}

/// The value of a signal before any emission.
pub fn first_of(alloc: Global, program: &Program, signal: u32) -> Result<Value, NoMemory>
    ensures { IfOk result (λ v. v ≡ (table_of (kernel_of program.now)).first signal) }
{
    match program.signals().get(signal as usize) {
        Some(declared) => declared.first.copy(alloc),
        None => Ok(Value::Unit),
    }
}

/// The signal that carries the answers of an async site.
pub fn target_of(program: &Program, site: u32) -> Option<u32>
    ensures { result ≡ (table_of (kernel_of program.now)).target site }
{
    match program.sites().get(site as usize) {
        Some(declared) => declared.signal,
        None => None,
    }
}
